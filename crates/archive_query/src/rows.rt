//! The rows of a C-FIND (PS3.4, section C.4.1).

ghost use Rattle.std.specs.Prelude.{◌≡◌, ◌++◌, ◌∷◌, [], IfOk, OnOk, map, option_to_list};
ghost use Rattle.std.specs.Option.{option_map};
ghost use Rattle.std.specs.List.{filter_map, list_all};
ghost use Rattle.operation.specs.Parts.{value_at};
ghost use Rattle.archive_query.specs.Found.{value_by};
ghost use Rattle.archive_model.specs.Column.{columns as columns_of};
ghost use Rattle.archive_model.specs.Cell.{cell as cell_in};
ghost use Rattle.archive_model.specs.Rows.{is_key_match_with, is_unique_key as is_unique_key_in};
ghost use Rattle.archive_model.specs.Rows.{is_asked as is_asked_in, asked_value, value_in_row};
ghost use Rattle.archive_model.specs.Rows.{cell_in_row as cell_in_row_of, row_with, row_of_with, rows_with};

use crate::cell::cell;
use crate::column::columns;
use crate::fixes::Fixes;
use crate::grouping::{by_uid, groups_of};
use crate::groups::{count_series, modalities_of};
use crate::keys::{Key, is_key_match, keys_of};
use archive_model::{Answers, AnswersMut, Query};
use data_set::{DataSet, Element, Syntax};
use dictionary::{
    MODALITIES_IN_STUDY, NUMBER_OF_SERIES_RELATED_INSTANCES, NUMBER_OF_STUDY_RELATED_INSTANCES,
    NUMBER_OF_STUDY_RELATED_SERIES, QUERY_RETRIEVE_LEVEL, RETRIEVE_AE_TITLE, SERIES_INSTANCE_UID,
    SOP_INSTANCE_UID, SPECIFIC_CHARACTER_SET, STUDY_INSTANCE_UID,
};
use octets::{Octets, digits, joined};
use records::RecordedContent;
use std::alloc::{AllocError, Global};

/// Whether every key matches a representative.
fn is_match(fixes: &Fixes, keys: &[Key], content: &RecordedContent) -> bool
    ensures { result ≡ list_all (is_key_match_with (value_by fixes.now) content.now) keys.now }
{
    keys.iter().all(|key| is_key_match(fixes, content, key))
}

fn is_unique_key(tag: u32) -> bool
    ensures { result ≡ is_unique_key_in tag }
{
    tag == STUDY_INSTANCE_UID || tag == SERIES_INSTANCE_UID || tag == SOP_INSTANCE_UID
}

fn is_asked(query: &Query, tag: u32) -> bool
    ensures { result ≡ is_asked_in query.now tag }
{
    query.asked.as_slice().iter().any(|asked| asked.tag == tag)
}

/// The element of a row that is asked.
fn asked_cell(
    alloc: Global,
    fixes: &Fixes,
    contents: &[&RecordedContent],
    first: &RecordedContent,
    tag: u32,
) -> Result<Element, AllocError>
    ensures { IfOk result (λ element. element ≡
        cell_in tag
        (asked_value (value_by fixes.now) (map (λ c. c.now) contents.now) first.now
        tag)) }
{
    if tag == MODALITIES_IN_STUDY {
        let modalities = modalities_of(alloc, contents)?;
        let text = joined(alloc, b'\\', &modalities)?;
        return cell(alloc, tag, text.as_slice());
    }
    if tag == NUMBER_OF_STUDY_RELATED_SERIES {
        let text = digits(alloc, count_series(alloc, contents)? as u64)?;
        return cell(alloc, tag, text.as_slice());
    }
    if tag == NUMBER_OF_STUDY_RELATED_INSTANCES || tag == NUMBER_OF_SERIES_RELATED_INSTANCES {
        let text = digits(alloc, contents.len() as u64)?;
        return cell(alloc, tag, text.as_slice());
    }
    cell(alloc, tag, fixes.attribute(first, tag))
}

/// The character set of a row's representative, where it has one.
fn character_set_cell(
    alloc: Global,
    first: &RecordedContent,
    tag: u32,
) -> Result<Option<Element>, AllocError>
    ensures { IfOk result (λ element. element ≡
        option_map (cell_in tag) (value_at tag first.now.values)) }
{
    match first.value(tag) {
        None => Ok(None),
        Some(value) => Ok(Some(cell(alloc, tag, value)?)),
    }
}

/// The element of a row with a tag, if it has one.
fn cell_in_row(
    alloc: Global,
    fixes: &Fixes,
    called: &[u8],
    query: &Query,
    contents: &[&RecordedContent],
    first: &RecordedContent,
    tag: u32,
) -> Result<Option<Element>, AllocError>
    ensures { IfOk result (λ element. element ≡
        cell_in_row_of (value_by fixes.now) called.now query.now
        (map (λ c. c.now) contents.now) first.now tag) }
{
    if tag == SPECIFIC_CHARACTER_SET {
        return character_set_cell(alloc, first, tag);
    }
    if tag == QUERY_RETRIEVE_LEVEL {
        return Ok(Some(cell(alloc, tag, query.level.word())?));
    }
    if tag == RETRIEVE_AE_TITLE {
        return Ok(Some(cell(alloc, tag, called)?));
    }
    if is_unique_key(tag) {
        return Ok(Some(cell(alloc, tag, first.own_value(tag))?));
    }
    if !is_asked(query, tag) {
        return Ok(None);
    }
    Ok(Some(asked_cell(alloc, fixes, contents, first, tag)?))
}

/// The elements of a row.
fn cells(
    alloc: Global,
    fixes: &Fixes,
    called: &[u8],
    query: &Query,
    contents: &[&RecordedContent],
    first: &RecordedContent,
) -> Result<Vec<Element>, AllocError>
    ensures { IfOk result (λ cells. cells.items ≡
        (row_with (value_by fixes.now) called.now query.now (map (λ c. c.now) contents.now)
        first.now).elements) }
{
    let mut cells = Vec::new(alloc);
    for tag in columns(query.level) {
        let cell = cell_in_row(alloc, fixes, called, query, contents, first, *tag)?;
        if let Some(cell) = cell {
            cells.push(cell)?;
        }
    }
    Ok(cells)
}

/// Puts the row of some contents, of which the first is its representative.
fn put_row(
    alloc: Global,
    rows: &mut AnswersMut,
    fixes: &Fixes,
    called: &[u8],
    query: &Query,
    contents: &[&RecordedContent],
    first: &RecordedContent,
) -> Result<(), AllocError>
    ensures { OnOk result (rows.new ≡ rows.old ++
        row_with (value_by fixes.now) called.now query.now (map (λ c. c.now) contents.now)
        first.now ∷ []) }
{
    let cells = cells(alloc, fixes, called, query, contents, first)?;
    let set = DataSet::of(Syntax::Explicit, cells);
    rows.push(&set)
}

/// Puts the row of some contents, where the first of them matches.
fn put_row_of(
    alloc: Global,
    rows: &mut AnswersMut,
    fixes: &Fixes,
    called: &[u8],
    query: &Query,
    keys: &[Key],
    contents: &[&RecordedContent],
) -> Result<(), AllocError>
    requires { keys.now ≡ query.now.asked }
    ensures { OnOk result (rows.new ≡ rows.old ++ option_to_list
        (row_of_with (value_by fixes.now) called.now query.now (map (λ c. c.now) contents.now))) }
{
    match contents {
        [] => Ok(()),
        [first, ..] => {
            if !is_match(fixes, keys, first) {
                return Ok(());
            }
            put_row(alloc, rows, fixes, called, query, contents, first)
        }
    }
}

/// The rows of some groups of contents.
fn rows_of_groups(
    alloc: Global,
    fixes: &Fixes,
    called: &[u8],
    query: &Query,
    groups: &[&[&RecordedContent]],
) -> Result<Answers, AllocError>
    ensures { IfOk result (λ rows. rows ≡
        filter_map (row_of_with (value_by fixes.now) called.now query.now)
        (map (λ g. map (λ c. c.now) g.now) groups.now)) }
{
    let keys = keys_of(alloc, query)?;
    let mut rows = AnswersMut::new(alloc);
    for group in groups {
        put_row_of(alloc, &mut rows, fixes, called, query, &keys, group)?;
    }
    rows.freeze()
}

/// The rows of some contents: one sort, and a row for each run of one UID.
pub(crate) fn rows_among(
    alloc: Global,
    fixes: &Fixes,
    called: &[u8],
    query: &Query,
    contents: Vec<&RecordedContent>,
) -> Result<Answers, AllocError>
    ensures { IfOk result (λ rows. rows ≡
        rows_with (value_by fixes.now) called.now query.now
        (map (λ c. c.now) contents.entry.items)) }
{
    let sorted = by_uid(query.level, contents)?;
    let groups = groups_of(alloc, query.level, &sorted)?;
    let rows = rows_of_groups(alloc, fixes, called, query, &groups)?;
    Ok(rows)
}
