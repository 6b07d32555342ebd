//! Which contents are in a selection.

ghost use Rattle.std.specs.Prelude.{◌≡◌, List, ℕ, map, filter, IfOk};
ghost use Rattle.archive_model.specs.Covered.{is_among};
ghost use Rattle.archive_model.specs.Selection.{Rises, is_within as is_within_in};
ghost use Rattle.archive_model.specs.Selection.{is_among_these as is_among_these_in, selected as selected_in};

use crate::groups::uid_at;
use archive_model::{Selection, series, study};
use octets::Octets;
use records::RecordedContent;
use std::alloc::{AllocError, Global};

/// Whether a content is of the study and the series that a selection names above its level.
fn is_within(selection: &Selection, content: &RecordedContent) -> bool
    ensures { result ≡ is_within_in selection.now content.now }
{
    (!selection.level.names_study() || study(content) == selection.study.as_slice())
        && (!selection.level.names_series() || series(content) == selection.series.as_slice())
}

/// Whether a UID is one of these, which ascend.
fn is_one_of(uids: &[&[u8]], uid: &[u8]) -> bool
    requires { Rises uids.now }
    ensures { result ≡ is_among (map (λ u. u.now) uids.now) uid.now }
{
    uids.binary_search(&uid).is_ok()
}

/// The same, and its UID at the level is one of these, which ascend.
fn is_among_these(uids: &[&[u8]], selection: &Selection, content: &RecordedContent) -> bool
    requires { Rises uids.now }
    ensures { result ≡ is_among_these_in (map (λ u. u.now) uids.now) selection.now content.now }
{
    is_within(selection, content) && is_one_of(uids, uid_at(selection.level, content))
}

fn in_order<'a>(alloc: Global, uids: &'a [Octets]) -> Result<Vec<&'a [u8]>, AllocError>
    ensures { IfOk result (λ found. map (λ u. u.now) found.items ≡ uids.now) }
{
    let mut found = Vec::with_capacity(alloc, uids.len())?;
    for uid in uids {
        found.push(uid.as_slice())?;
    }
    Ok(found)
}

/// Some UIDs, ascending.
fn ascending<'a>(alloc: Global, uids: &'a [Octets]) -> Result<Vec<&'a [u8]>, AllocError>
    ensures rises { IfOk result (λ found. Rises found.items) }
    ensures members { IfOk result (λ found. (uid : List ℕ) →
        is_among (map (λ u. u.now) found.items) uid ≡ is_among uids.now uid) }
{
    let mut found = in_order(alloc, uids)?;
    found.sort()?;
    Ok(found)
}

fn those_among<'a>(
    alloc: Global,
    uids: &[&[u8]],
    selection: &Selection,
    contents: &[&'a RecordedContent],
) -> Result<Vec<&'a RecordedContent>, AllocError>
    requires { Rises uids.now }
    ensures { IfOk result (λ found. map (λ c. c.now) found.items ≡
        filter (is_among_these_in (map (λ u. u.now) uids.now) selection.now)
        (map (λ c. c.now) contents.now)) }
{
    let mut found = Vec::new(alloc);
    for content in contents {
        let content: &'a RecordedContent = content;
        if is_among_these(uids, selection, content) {
            found.push(content)?;
        }
    }
    Ok(found)
}

/// Those of some contents that are in a selection. Its UIDs are sorted once, and looked up by
/// bisection.
pub fn selected<'a>(
    alloc: Global,
    selection: &Selection,
    contents: &[&'a RecordedContent],
) -> Result<Vec<&'a RecordedContent>, AllocError>
    ensures { IfOk result (λ found. map (λ c. c.now) found.items ≡
        selected_in selection.now (map (λ c. c.now) contents.now)) }
{
    let uids = ascending(alloc, selection.uids.as_slice())?;
    let found = those_among(alloc, &uids, selection, contents)?;
    Ok(found)
}
