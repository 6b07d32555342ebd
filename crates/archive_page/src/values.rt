//! A table in JSON (RFC 8259): the names of its columns, and its rows.

ghost use Rattle.std.specs.Prelude.{◌≡◌, ◌++◌, ◌∷◌, [], IfOk, OnOk, map};
ghost use Rattle.std.specs.List.{flat_map};
ghost use Rattle.json.specs.Lex.{tokens};
ghost use Rattle.json.specs.Print.{print};
ghost use Rattle.archive_page.specs.Values.{string_of, array_of};
ghost use Rattle.archive_page.specs.Values.{columns_member, rows_member, json_table};

use crate::characters::text_of;
use json::Writer;
use octets::{ListOf, Octets};
use std::alloc::{AllocError, Global};

/// Writes the text of a value as a string.
pub fn put_value(alloc: Global, writer: &mut Writer, value: &[u8]) -> Result<(), AllocError>
    ensures written { OnOk result (writer.new.tokens
        ≡ writer.old.tokens ++ string_of value.now ∷ []) }
    ensures kept { writer.new.before ≡ writer.old.before }
{
    let text = text_of(alloc, value)?;
    writer.string(text.as_str())
}

/// Writes the values of a row, or the names of columns, as an array.
fn put_row(alloc: Global, writer: &mut Writer, row: &[Octets]) -> Result<(), AllocError>
    ensures written { OnOk result (writer.new.tokens ≡ writer.old.tokens ++ array_of row.now) }
    ensures kept { writer.new.before ≡ writer.old.before }
{
    writer.begin_array()?;
    for value in row {
        put_value(alloc, writer, value.as_slice())?;
    }
    writer.end_array()
}

/// Writes the names of the columns as an array.
fn put_columns(alloc: Global, writer: &mut Writer, heading: &[&str]) -> Result<(), AllocError>
    ensures written { OnOk result (writer.new.tokens
        ≡ writer.old.tokens ++ array_of (map (λ cell. cell.now) heading.now)) }
    ensures kept { writer.new.before ≡ writer.old.before }
{
    writer.begin_array()?;
    for name in heading {
        put_value(alloc, writer, name.as_bytes())?;
    }
    writer.end_array()
}

/// Writes rows, each as an array.
fn put_rows(alloc: Global, writer: &mut Writer, rows: &[ListOf<Octets>]) -> Result<(), AllocError>
    ensures written { OnOk result (writer.new.tokens
        ≡ writer.old.tokens ++ flat_map array_of rows.now) }
    ensures kept { writer.new.before ≡ writer.old.before }
{
    for row in rows {
        put_row(alloc, writer, row.as_slice())?;
    }
    Ok(())
}

/// Writes the names of the columns as a member of an object.
pub fn put_columns_member(
    alloc: Global,
    writer: &mut Writer,
    heading: &[&str],
) -> Result<(), AllocError>
    ensures written { OnOk result (writer.new.tokens
        ≡ writer.old.tokens ++ columns_member (map (λ cell. cell.now) heading.now)) }
    ensures kept { writer.new.before ≡ writer.old.before }
{
    writer.key("columns")?;
    put_columns(alloc, writer, heading)
}

/// Writes the rows as a member of an object.
pub fn put_rows_member(
    alloc: Global,
    writer: &mut Writer,
    rows: &[ListOf<Octets>],
) -> Result<(), AllocError>
    ensures written { OnOk result (writer.new.tokens ≡ writer.old.tokens ++ rows_member rows.now) }
    ensures kept { writer.new.before ≡ writer.old.before }
{
    writer.key("rows")?;
    writer.begin_array()?;
    put_rows(alloc, writer, rows)?;
    writer.end_array()
}

/// Writes the object of a table.
#[tactic(auto, unfolding(crate::specs::Values::json_table))]
pub(crate) fn put_object(
    alloc: Global,
    writer: &mut Writer,
    heading: &[&str],
    rows: &[ListOf<Octets>],
) -> Result<(), AllocError>
    ensures written { OnOk result (writer.new.tokens ≡ writer.old.tokens
        ++ json_table (map (λ cell. cell.now) heading.now) rows.now) }
    ensures kept { writer.new.before ≡ writer.old.before }
{
    writer.begin_object()?;
    put_columns_member(alloc, writer, heading)?;
    put_rows_member(alloc, writer, rows)?;
    writer.end_object()
}

/// A heading and rows below it as a table in JSON: the rows in order, the text of each cell.
pub fn table_in_json(
    alloc: Global,
    heading: &[&str],
    rows: &[ListOf<Octets>],
) -> Result<Vec<u8>, AllocError>
    ensures text { IfOk result (λ text. text.items
        ≡ print (json_table (map (λ cell. cell.now) heading.now) rows.now)) }
    ensures reads_back { IfOk result (λ text. tokens text.items
        ≡ json_table (map (λ cell. cell.now) heading.now) rows.now) }
{
    let mut writer = Writer::new(Vec::new(alloc));
    put_object(alloc, &mut writer, heading, rows)?;
    Ok(writer.into_inner())
}
