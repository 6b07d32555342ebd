//! A table in HTML: a row of the heading, and the rows below it.

ghost use Rattle.std.specs.Prelude.{◌≡◌, ◌++◌, OnOk, map};
ghost use Rattle.std.specs.List.{flat_map};
ghost use Rattle.archive_page.specs.Tables.{heading_cell, data_cell};
ghost use Rattle.archive_page.specs.Tables.{heading_row, data_row};
ghost use Rattle.archive_page.specs.Tables.{table_head, table_body, html_table};
ghost use Rattle.archive_page.specs.Tables.{study_link, study_cell, linked_cells, linked_row, linked_body};
ghost use Rattle.archive_page.specs.Tables.{linked_table};

use crate::escaping::put_escaped;
use crate::links::study_path;
use crate::subject::Form;
use octets::{ListOf, Octets};
use std::alloc::{AllocError, Global};

/// Puts a cell of the heading.
fn put_heading_cell(alloc: Global, out: &mut Vec<u8>, cell: &str) -> Result<(), AllocError>
    ensures { OnOk result (out.new.items ≡ out.old.items ++ heading_cell cell.now) }
{
    out.extend_from_slice(b"<th>")?;
    put_escaped(alloc, out, cell.as_bytes())?;
    out.extend_from_slice(b"</th>")
}

/// Puts the cells of the heading.
fn put_heading_cells(alloc: Global, out: &mut Vec<u8>, heading: &[&str]) -> Result<(), AllocError>
    ensures { OnOk result (out.new.items
        ≡ out.old.items ++ flat_map heading_cell (map (λ cell. cell.now) heading.now)) }
{
    for cell in heading {
        put_heading_cell(alloc, out, cell)?;
    }
    Ok(())
}

/// Puts the row of the heading.
fn put_heading(alloc: Global, out: &mut Vec<u8>, heading: &[&str]) -> Result<(), AllocError>
    ensures { OnOk result (out.new.items
        ≡ out.old.items ++ heading_row (map (λ cell. cell.now) heading.now)) }
{
    out.extend_from_slice(b"<tr>")?;
    put_heading_cells(alloc, out, heading)?;
    out.extend_from_slice(b"</tr>\n")
}

/// Puts a cell.
fn put_cell(alloc: Global, out: &mut Vec<u8>, cell: &[u8]) -> Result<(), AllocError>
    ensures { OnOk result (out.new.items ≡ out.old.items ++ data_cell cell.now) }
{
    out.extend_from_slice(b"<td>")?;
    put_escaped(alloc, out, cell)?;
    out.extend_from_slice(b"</td>")
}

/// Puts the cells of a row.
fn put_cells(alloc: Global, out: &mut Vec<u8>, cells: &[Octets]) -> Result<(), AllocError>
    ensures { OnOk result (out.new.items ≡ out.old.items ++ flat_map data_cell cells.now) }
{
    for cell in cells {
        put_cell(alloc, out, cell.as_slice())?;
    }
    Ok(())
}

/// Puts a row.
fn put_row(alloc: Global, out: &mut Vec<u8>, row: &ListOf<Octets>) -> Result<(), AllocError>
    ensures { OnOk result (out.new.items ≡ out.old.items ++ data_row row.now) }
{
    out.extend_from_slice(b"<tr>")?;
    put_cells(alloc, out, row.as_slice())?;
    out.extend_from_slice(b"</tr>\n")
}

/// Puts rows.
fn put_rows(alloc: Global, out: &mut Vec<u8>, rows: &[ListOf<Octets>]) -> Result<(), AllocError>
    ensures { OnOk result (out.new.items ≡ out.old.items ++ flat_map data_row rows.now) }
{
    for row in rows {
        put_row(alloc, out, row)?;
    }
    Ok(())
}

/// Puts the head of a table.
fn put_head(alloc: Global, out: &mut Vec<u8>, heading: &[&str]) -> Result<(), AllocError>
    ensures { OnOk result (out.new.items
        ≡ out.old.items ++ table_head (map (λ cell. cell.now) heading.now)) }
{
    out.extend_from_slice(b"<table>\n<thead>\n")?;
    put_heading(alloc, out, heading)?;
    out.extend_from_slice(b"</thead>\n")
}

/// Puts the body of a table, and its end.
fn put_body(alloc: Global, out: &mut Vec<u8>, rows: &[ListOf<Octets>]) -> Result<(), AllocError>
    ensures { OnOk result (out.new.items ≡ out.old.items ++ table_body rows.now) }
{
    out.extend_from_slice(b"<tbody>\n")?;
    put_rows(alloc, out, rows)?;
    out.extend_from_slice(b"</tbody>\n</table>\n")
}

/// Puts a heading and rows below it as a table in HTML: the rows in order, each cell escaped.
#[tactic(auto, unfolding(crate::specs::Tables::html_table))]
pub fn put_table(
    alloc: Global,
    out: &mut Vec<u8>,
    heading: &[&str],
    rows: &[ListOf<Octets>],
) -> Result<(), AllocError>
    ensures { OnOk result (out.new.items
        ≡ out.old.items ++ html_table (map (λ cell. cell.now) heading.now) rows.now) }
{
    put_head(alloc, out, heading)?;
    put_body(alloc, out, rows)
}

/// Puts the UID of a study, which leads to its page.
#[tactic(auto, unfolding(crate::specs::Tables::study_link))]
fn put_study_link(alloc: Global, out: &mut Vec<u8>, uid: &[u8]) -> Result<(), AllocError>
    ensures { OnOk result (out.new.items ≡ out.old.items ++ study_link uid.now) }
{
    let target = study_path(alloc, Form::Html, uid)?;
    out.extend_from_slice(b"<a href=\"")?;
    put_escaped(alloc, out, target.as_slice())?;
    out.extend_from_slice(b"\">")?;
    put_escaped(alloc, out, uid)?;
    out.extend_from_slice(b"</a>")
}

/// Puts the same as a cell.
fn put_study_cell(alloc: Global, out: &mut Vec<u8>, uid: &[u8]) -> Result<(), AllocError>
    ensures { OnOk result (out.new.items ≡ out.old.items ++ study_cell uid.now) }
{
    out.extend_from_slice(b"<td>")?;
    put_study_link(alloc, out, uid)?;
    out.extend_from_slice(b"</td>")
}

/// Puts the cells of the row of a study.
fn put_linked_cells(alloc: Global, out: &mut Vec<u8>, cells: &[Octets]) -> Result<(), AllocError>
    ensures { OnOk result (out.new.items ≡ out.old.items ++ linked_cells cells.now) }
{
    match cells {
        [] => Ok(()),
        [uid, others @ ..] => {
            put_study_cell(alloc, out, uid.as_slice())?;
            put_cells(alloc, out, others)
        }
    }
}

/// Puts the row of a study.
fn put_linked_row(alloc: Global, out: &mut Vec<u8>, row: &ListOf<Octets>) -> Result<(), AllocError>
    ensures { OnOk result (out.new.items ≡ out.old.items ++ linked_row row.now) }
{
    out.extend_from_slice(b"<tr>")?;
    put_linked_cells(alloc, out, row.as_slice())?;
    out.extend_from_slice(b"</tr>\n")
}

/// Puts rows of studies.
fn put_linked_rows(
    alloc: Global,
    out: &mut Vec<u8>,
    rows: &[ListOf<Octets>],
) -> Result<(), AllocError>
    ensures { OnOk result (out.new.items ≡ out.old.items ++ flat_map linked_row rows.now) }
{
    for row in rows {
        put_linked_row(alloc, out, row)?;
    }
    Ok(())
}

/// Puts the body of a table of studies, and its end.
fn put_linked_body(
    alloc: Global,
    out: &mut Vec<u8>,
    rows: &[ListOf<Octets>],
) -> Result<(), AllocError>
    ensures { OnOk result (out.new.items ≡ out.old.items ++ linked_body rows.now) }
{
    out.extend_from_slice(b"<tbody>\n")?;
    put_linked_rows(alloc, out, rows)?;
    out.extend_from_slice(b"</tbody>\n</table>\n")
}

/// Puts a heading and rows of studies below it, the first cell of each a UID that leads to the page
/// of its study.
#[tactic(auto, unfolding(crate::specs::Tables::linked_table))]
pub(crate) fn put_linked_table(
    alloc: Global,
    out: &mut Vec<u8>,
    heading: &[&str],
    rows: &[ListOf<Octets>],
) -> Result<(), AllocError>
    ensures { OnOk result (out.new.items
        ≡ out.old.items ++ linked_table (map (λ cell. cell.now) heading.now) rows.now) }
{
    put_head(alloc, out, heading)?;
    put_linked_body(alloc, out, rows)
}
