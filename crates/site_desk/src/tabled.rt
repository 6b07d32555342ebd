//! A table that a page of a running site tells in JSON.

ghost use Rattle.std.specs.Prelude.{◌≡◌, [], IfOk, IfErr, MatchOption, None, map, ℕ, List, IsUtf8};
ghost use Rattle.std.specs.Prelude.{option_map};
ghost use Rattle.std.specs.Option.{option_copied};
ghost use Rattle.json.specs.Value.{value_view, items_view};
ghost use Rattle.json.specs.Find.{as_str};
ghost use Rattle.site_desk.specs.Tabled.{is_text, place_from, gathered, list_in, cell_at, cells_at};
ghost use Rattle.site_desk.specs.Tabled.{places_below, rows_at, CountsPages, Tells, IsToldBy};
ghost use Rattle.site_desk.specs.Tabled.{TellsNoRows, TellsNone, IsNumberOf, cell_behind, told_of};

use crate::ask_fault::AskFault;
use crate::heard::{body_of, is_unready};
use json::{Error, Scratch, Value};
use octets::{ListOf, Octets};
use std::alloc::{AllocError, Global};

/// The rows of a page, and how many pages there are of its kind.
#[derive(Debug, Drop)]
pub struct Told {
    pub rows: Vec<ListOf<Octets>>,
    pub pages: u64,
}

/// Whether a value is this text.
fn is_text(value: &Value<'_>, name: &str) -> bool
    ensures { result ≡ is_text name.now (as_str (value_view value.now)) }
{
    match value.as_str() {
        None => false,
        Some(text) => text.as_bytes() == name.as_bytes(),
    }
}

/// Where the first column of a name stands.
fn place_of(columns: &[Value<'_>], name: &str) -> Option<usize>
    ensures { result ≡ place_from name.now 0 (map value_view columns.now) }
{
    let mut place = 0;
    for column in columns {
        if is_text(column, name) {
            return Some(place);
        }
        place += 1;
    }
    None
}

/// Where the columns of a heading stand.
fn places_of(
    alloc: Global,
    columns: &[Value<'_>],
    heading: &[&str],
) -> Result<Option<Vec<usize>>, AllocError>
    ensures { IfOk result (λ found. option_map (λ places. places.items) found ≡ gathered []
        (map (λ name. place_from name.now 0 (map value_view columns.now)) heading.now)) }
{
    let mut places = Vec::new(alloc);
    for name in heading {
        let Some(place) = place_of(columns, name) else {
            return Ok(None);
        };
        places.push(place)?;
    }
    Ok(Some(places))
}

/// The text of a cell, if it is one.
fn cell<'a>(row: &Value<'a>, place: usize) -> Option<&'a [u8]>
    ensures { option_copied result ≡ cell_at (value_view row.now) place }
{
    let cell = row.at(place)?;
    let text = cell.as_str()?;
    Some(text.as_bytes())
}

/// The cells of a row at these places, if each is a text.
fn row_in(
    alloc: Global,
    places: &[usize],
    row: &Value<'_>,
) -> Result<Option<ListOf<Octets>>, AllocError>
    ensures { IfOk result (λ found. found ≡ cells_at places.now (value_view row.now)) }
{
    let mut cells = ListOf::new(alloc);
    for place in places {
        let Some(text) = cell(row, *place) else {
            return Ok(None);
        };
        cells.push(Octets::from_slice(alloc, text)?)?;
    }
    Ok(Some(cells))
}

/// The same of each of some rows.
fn rows_in(
    alloc: Global,
    places: &[usize],
    list: &[Value<'_>],
) -> Result<Option<Vec<ListOf<Octets>>>, AllocError>
    ensures { IfOk result (λ found. option_map (λ rows. rows.items) found
        ≡ gathered [] (map (λ row. cells_at places.now (value_view row)) list.now)) }
{
    let mut rows = Vec::with_capacity(alloc, list.len())?;
    for value in list {
        let Some(row) = row_in(alloc, places, value)? else {
            return Ok(None);
        };
        rows.push(row)?;
    }
    Ok(Some(rows))
}

/// The member of a name, if it is a list.
fn list<'v, 'a>(value: &'v Value<'a>, name: &str) -> Option<&'v [Value<'a>]>
    ensures { option_map (λ list. items_view list.now) result
        ≡ list_in name.now (value_view value.now) }
{
    match value.get(name)? {
        Value::Array(list) => Some(list.as_slice()),
        _ => None,
    }
}

/// Where the columns of a heading stand in a table.
fn places_below(
    alloc: Global,
    heading: &[&str],
    value: &Value<'_>,
) -> Result<Option<Vec<usize>>, AllocError>
    ensures { IfOk result (λ found. option_map (λ places. places.items) found
        ≡ places_below (map (λ name. name.now) heading.now) (value_view value.now)) }
{
    let Some(columns) = list(value, "columns") else {
        return Ok(None);
    };
    places_of(alloc, columns, heading)
}

/// The rows of a table, each with the cells at these places.
fn rows_at(
    alloc: Global,
    places: &[usize],
    value: &Value<'_>,
) -> Result<Option<Vec<ListOf<Octets>>>, AllocError>
    ensures { IfOk result (λ found. option_map (λ rows. rows.items) found
        ≡ rows_at places.now (value_view value.now)) }
{
    let Some(list) = list(value, "rows") else {
        return Ok(None);
    };
    rows_in(alloc, places, list)
}

/// How many pages there are: one where none is said, and `None` where what is said is no number.
fn pages_in(value: &Value<'_>) -> Option<u64>
    ensures { CountsPages (value_view value.now) result }
{
    match value.get("pages") {
        None => Some(1),
        Some(pages) => pages.as_u64(),
    }
}

/// The rows below a heading, and the number of pages, that a value tells.
fn told_by(alloc: Global, heading: &[&str], value: &Value<'_>) -> Result<Option<Told>, AllocError>
    ensures { IfOk result (λ found. MatchOption found
        ((rows : List (List (List ℕ))) (pages : ℕ) →
        ¬ (Tells (map (λ name. name.now) heading.now) (value_view value.now) rows pages))
        (λ told. Tells (map (λ name. name.now) heading.now) (value_view value.now)
        told.rows.items told.pages)) }
{
    let Some(pages) = pages_in(value) else {
        return Ok(None);
    };
    let Some(places) = places_below(alloc, heading, value)? else {
        return Ok(None);
    };
    let Some(rows) = rows_at(alloc, places.as_slice(), value)? else {
        return Ok(None);
    };
    Ok(Some(Told { rows, pages }))
}

/// The same of an answer, whatever its status.
fn page_in(alloc: Global, heading: &[&str], text: &[u8]) -> Result<Told, AskFault>
    ensures told { IfOk result (λ told.
        IsToldBy (map (λ name. name.now) heading.now) text.now told.rows.items told.pages) }
    ensures none { IfErr result (TellsNoRows (map (λ name. name.now) heading.now) text.now) }
{
    let Some(body) = body_of(text) else {
        return Err(AskFault::NoAnswer);
    };
    let mut scratch = Scratch::new(alloc);
    let value = match Value::from_slice(alloc, body, &mut scratch) {
        Ok(value) => value,
        Err(Error::OutOfMemory) => return Err(AskFault::Memory),
        Err(Error::Invalid) => return Err(AskFault::NoAnswer),
        // Neither is told of a value.
        Err(Error::TooLong | Error::DuplicateKey) => return Err(AskFault::NoAnswer),
    };
    match told_by(alloc, heading, &value)? {
        None => Err(AskFault::NoAnswer),
        Some(told) => Ok(told),
    }
}

/// The rows that an answer tells, which is there in whole, in order, each with the cells below the
/// names of a heading, and how many pages it tells there are: one where it says none. An answer
/// whose number of pages is no number is none of a site; one of status 503 says that the site
/// cannot tell them now.
pub fn page_of(alloc: Global, heading: &[&str], text: &[u8]) -> Result<Told, AskFault>
    ensures told { IfOk result (λ told.
        IsToldBy (map (λ name. name.now) heading.now) text.now told.rows.items told.pages) }
    ensures none { IfErr result (TellsNone (map (λ name. name.now) heading.now) text.now) }
{
    if is_unready(text) {
        return Err(AskFault::Unready);
    }
    page_in(alloc, heading, text)
}

/// The second of two cells, where the first is a word.
fn cell_behind<'a>(row: &'a ListOf<Octets>, word: &[u8]) -> Option<&'a [u8]>
    ensures { option_copied result ≡ cell_behind word.now row.now }
{
    match row.as_slice() {
        [first, second] if first.as_slice() == word => Some(second.as_slice()),
        _ => None,
    }
}

/// The number that a text writes in decimal digits.
fn number(text: &[u8]) -> Option<u64>
    ensures number { IsUtf8 text.now → IsNumberOf text.now result }
    ensures no_text { ¬ (IsUtf8 text.now) → result ≡ None }
{
    let text = str::from_utf8(text).ok()?;
    text.parse::<u64>().ok()
}

/// The number in the second cell of the first row of two cells that has a word in the first, or
/// `None` where there is no such row, or no number in it.
pub fn number_in(rows: &[ListOf<Octets>], word: &[u8]) -> Option<u64>
    ensures number { MatchOption (told_of word.now rows.now) (result ≡ None)
        (λ text. IsUtf8 text → IsNumberOf text result) }
    ensures no_text { MatchOption (told_of word.now rows.now) (result ≡ None)
        (λ text. ¬ (IsUtf8 text) → result ≡ None) }
{
    for row in rows {
        if let Some(text) = cell_behind(row, word) {
            return number(text);
        }
    }
    None
}
