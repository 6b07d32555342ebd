//! Tables as tab-separated values, whose cells have the bytes that they have. A cell with a tab, a
//! quote or a line's end stands in quotes.

ghost use Rattle.std.specs.Prelude.{◌≡◌, ◌++◌, [], map, List, ℕ, Ok, IfOk, OnOk};
ghost use Rattle.csv.specs.Writing.{row_text};
ghost use Rattle.site_tables.specs.Separated.{tabbed, separated, IsWritten};

use csv::{Writer, WriterBuilder};
use octets::{ListOf, Octets};
use std::alloc::{AllocError, Global};

/// The bytes of the cells of a row.
fn cells_of(alloc: Global, row: &ListOf<Octets>) -> Result<Vec<&[u8]>, AllocError>
    ensures { IfOk result (λ cells. map (λ cell. cell.now) cells.items ≡ row.now) }
{
    let mut cells: Vec<&[u8]> = Vec::new(alloc);
    for cell in row.as_slice() {
        cells.push(cell.as_slice())?;
    }
    Ok(cells)
}

/// The bytes of a heading.
fn heading_of<'a>(alloc: Global, heading: &[&'a str]) -> Result<Vec<&'a [u8]>, AllocError>
    ensures { IfOk result (λ cells.
        map (λ cell. cell.now) cells.items ≡ map (λ cell. cell.now) heading.now) }
{
    let mut cells: Vec<&[u8]> = Vec::new(alloc);
    for cell in heading {
        cells.push(cell.as_bytes())?;
    }
    Ok(cells)
}

/// What was done, or that memory was refused: a `Vec` refuses for nothing else, and a writer that
/// is flexible takes rows of any length.
fn told<T: Drop, E: Drop>(done: Result<T, E>) -> Result<T, AllocError>
    ensures { IfOk result (λ value. done ≡ Ok value) }
{
    match done {
        Ok(value) => Ok(value),
        Err(_refused) => Err(AllocError),
    }
}

/// A writer of records that has written nothing.
fn writer_of(alloc: Global) -> Writer<Vec<u8>>
    ensures { IsWritten result [] }
{
    WriterBuilder::new()
        .delimiter(b'\t')
        .flexible(true)
        .from_writer(Vec::new(alloc))
}

/// Writes a record.
fn put_record(writer: &mut Writer<Vec<u8>>, cells: &[&[u8]]) -> Result<(), AllocError>
    ensures { (text : List ℕ) → IsWritten writer.old text → OnOk result
        (IsWritten writer.new (text ++ row_text tabbed (map (λ cell. cell.now) cells.now))) }
{
    told(writer.write_fields(cells))
}

/// A heading and rows below it, a record for each.
pub fn separate(
    alloc: Global,
    heading: &[&str],
    rows: &[ListOf<Octets>],
) -> Result<Vec<u8>, AllocError>
    ensures text { IfOk result (λ text.
        text.items ≡ separated (map (λ cell. cell.now) heading.now) rows.now) }
{
    let mut writer = writer_of(alloc);
    let cells = heading_of(alloc, heading)?;
    put_record(&mut writer, cells.as_slice())?;
    for row in rows {
        let cells = cells_of(alloc, row)?;
        put_record(&mut writer, cells.as_slice())?;
    }
    told(writer.into_inner())
}
