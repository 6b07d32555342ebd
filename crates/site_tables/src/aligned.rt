//! Tables whose columns are aligned by the width of their texts in a terminal.

ghost use Rattle.std.specs.Prelude.{◌≡◌, ◌+◌, ◌++◌, [], ◌∷◌, map, length, replicate, get_or};
ghost use Rattle.std.specs.Prelude.{if◌then◌else◌, IfOk, OnOk};
ghost use Rattle.std.specs.String.{string_bytes};
ghost use Rattle.site_tables.specs.Aligned.{shown_char as shown_char_of, shown_text, width, widest};
ghost use Rattle.site_tables.specs.Aligned.{gap, cells_from, aligned};
ghost use Rattle.site_tables.specs.Shown.{AreLines};

use bstr::ByteSlice;
use octets::{ListOf, Octets};
use std::alloc::{AllocError, Global};
use unicode_width::UnicodeWidthStr;

/// A character that a terminal shows: a question mark for a control character, and for bytes that
/// are no UTF-8.
fn shown_char(c: char) -> char
    ensures { result ≡ shown_char_of c }
{
    if c.is_control() || c == '\u{fffd}' {
        '?'
    } else {
        c
    }
}

/// What a terminal shows of a text.
fn shown(alloc: Global, text: &[u8]) -> Result<String, AllocError>
    ensures { IfOk result (λ shown. string_bytes shown ≡ shown_text text.now) }
{
    let mut out = String::new(alloc);
    for c in text.chars() {
        out.push(shown_char(c))?;
    }
    Ok(out)
}

/// What a terminal shows of a row.
fn shown_row(alloc: Global, row: &ListOf<Octets>) -> Result<Vec<String>, AllocError>
    ensures { IfOk result (λ cells. map string_bytes cells.items ≡ map shown_text row.now) }
{
    let mut cells = Vec::new(alloc);
    for cell in row.as_slice() {
        cells.push(shown(alloc, cell.as_slice())?)?;
    }
    Ok(cells)
}

/// The heading as a row.
fn heading_row(alloc: Global, heading: &[&str]) -> Result<Vec<String>, AllocError>
    ensures { IfOk result (λ cells.
        map string_bytes cells.items ≡ map (λ cell. shown_text cell.now) heading.now) }
{
    let mut cells = Vec::new(alloc);
    for cell in heading {
        cells.push(shown(alloc, cell.as_bytes())?)?;
    }
    Ok(cells)
}

/// The width of the cell of a row in a column, and 0 where it has none.
fn width_in(row: &[String], column: usize) -> usize
    ensures { result ≡ width (get_or (map string_bytes row.now) column []) }
{
    match row.get(column) {
        Some(cell) => cell.as_str().width(),
        None => 0,
    }
}

/// The width of the widest cell of a column.
fn width_of(rows: &[Vec<String>], column: usize) -> usize
    ensures { result ≡ widest column (map (λ row. map string_bytes row.items) rows.now) }
{
    let mut most = 0;
    for row in rows {
        most = most.max(width_in(row.as_slice(), column));
    }
    most
}

/// Puts so many spaces.
fn put_spaces(out: &mut Vec<u8>, count: usize) -> Result<(), AllocError>
    ensures { OnOk result (out.new.items ≡ out.old.items ++ replicate count 32) }
{
    for _ in 0..count {
        out.push(b' ')?;
    }
    Ok(())
}

/// Puts the spaces behind a cell: up to the width of its column, and two that part it from the
/// next.
fn put_gap(out: &mut Vec<u8>, wide: usize, cell: &str) -> Result<(), AllocError>
    ensures { OnOk result (out.new.items ≡ out.old.items ++ gap wide cell.now) }
{
    put_spaces(out, wide.saturating_sub(cell.width()))?;
    out.extend_from_slice(b"  ")?;
    Ok(())
}

/// The width of a column, and 0 of one without a heading.
fn width_at(widths: &[usize], column: usize) -> usize
    ensures { result ≡ get_or widths.now column 0 }
{
    match widths.get(column) {
        Some(width) => *width,
        None => 0,
    }
}

/// Puts a cell of a column of this width, and what is behind it where it is not the last.
fn put_cell(out: &mut Vec<u8>, wide: usize, cell: &str, is_last: bool) -> Result<(), AllocError>
    ensures { OnOk result (out.new.items ≡ out.old.items ++ cell.now
        ++ (if is_last then [] else gap wide cell.now)) }
{
    out.extend_from_slice(cell.as_bytes())?;
    if is_last {
        return Ok(());
    }
    put_gap(out, wide, cell)
}

/// Puts cells: each but the last is filled up to the width of its column, and two spaces part it
/// from the next.
fn put_cells(out: &mut Vec<u8>, row: &[String], widths: &[usize]) -> Result<(), AllocError>
    ensures { OnOk result (out.new.items
        ≡ out.old.items ++ cells_from widths.now 0 (map string_bytes row.now)) }
{
    for (column, cell) in row.iter().enumerate() {
        let is_last = column + 1 == row.len();
        put_cell(out, width_at(widths, column), cell.as_str(), is_last)?;
    }
    Ok(())
}

/// Puts a row, and the end of its line.
fn put_row(out: &mut Vec<u8>, row: &[String], widths: &[usize]) -> Result<(), AllocError>
    ensures { OnOk result (out.new.items
        ≡ out.old.items ++ (cells_from widths.now 0 (map string_bytes row.now) ++ 10 ∷ [])) }
{
    put_cells(out, row, widths)?;
    out.push(b'\n')?;
    Ok(())
}

/// A heading and rows below it, a line for each, in columns as wide as their widest cells. Columns
/// behind those of the heading are not filled up. No line has a control character: whatever a cell
/// has, a terminal shows it, and none of it moves its cursor.
pub fn align(
    alloc: Global,
    heading: &[&str],
    rows: &[ListOf<Octets>],
) -> Result<Vec<u8>, AllocError>
    ensures text { IfOk result (λ text.
        text.items ≡ aligned (map (λ cell. cell.now) heading.now) rows.now) }
    ensures lines { IfOk result (λ text. AreLines (1 + length rows.now) text.items) }
{
    let mut lines = Vec::new(alloc);
    lines.push(heading_row(alloc, heading)?)?;
    for row in rows {
        lines.push(shown_row(alloc, row)?)?;
    }
    let table = lines.as_slice();
    let mut widths = Vec::new(alloc);
    for column in 0..heading.len() {
        widths.push(width_of(table, column))?;
    }
    let mut out = Vec::new(alloc);
    for line in table {
        put_row(&mut out, line.as_slice(), widths.as_slice())?;
    }
    Ok(out)
}
