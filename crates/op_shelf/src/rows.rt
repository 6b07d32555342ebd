//! Entries of the table, and the operations that they stand for.

ghost use Rattle.std.specs.Prelude.{◌≡◌, ◌≢◌, ◌↔◌, ◌<◌, ◌⊎◌, [], true, false, pos, length, map, All, Any, IfOk};
ghost use Rattle.std.specs.Prelude.{IfErr, OnOk, IfSome, IsNone, IsTrue, IsErrOf, Ok, Err, List, ℕ};
ghost use Rattle.sqlite.specs.declared.types.Value.TheVariants.{Int, Text, Blob};
ghost use Rattle.sqlite_value.specs.Value.{owned};
ghost use Rattle.sqlite.specs.Order.{column};
ghost use Rattle.operation.specs.Reading.{IsOp};
ghost use Rattle.operation.specs.Spelling.{spelling};
ghost use Rattle.operation.specs.declared.op.Op.{Op};
ghost use Rattle.op_shelf.specs.Entries.{kind_in, digest_text, entry_by, entry_of, IsEntry, IsWhole};
ghost use Rattle.op_shelf.specs.Fault.{IsNoStore};
ghost use Rattle.op_shelf.specs.Older.{IsPair};

use crate::fault::ShelfFault;
use bytes::Bytes;
use operation::{Digest, Digested, Op, decode, digest};
use sha2::{Digest as Hashing, Sha256};
use sqlite::Row;
use sqlite::types::{ToSql, ValueRef};
use std::alloc::{AllocError, Global};

/// The kind of the operation that bytes spell: the first of them.
pub(crate) fn kind_of(body: &[u8]) -> u8
    ensures { result ≡ kind_in body.now }
{
    match body {
        [] => 0,
        [kind, ..] => *kind,
    }
}

/// A kind as the database takes it.
pub(crate) fn kind_value<'a>(kind: u8) -> ValueRef<'a>
    ensures { owned result ≡ Int (pos kind) }
{
    u32::from(kind).to_sql()
}

fn has_text(entry: &Row, at: usize, text: &[u8]) -> bool
    requires { at < length entry.now }
    ensures { IsTrue result ↔ (column entry.now at ≡ Text text.now) }
{
    match entry.get_ref(at) {
        Ok(ValueRef::Text(held)) => held == text,
        _ => false,
    }
}

fn has_kind(entry: &Row, at: usize, kind: u8) -> bool
    requires { at < length entry.now }
    ensures { IsTrue result ↔ (column entry.now at ≡ Int (pos kind)) }
{
    match entry.get_ref(at) {
        Ok(ValueRef::Int(held)) => held == i64::from(kind),
        _ => false,
    }
}

fn has_body(entry: &Row, at: usize, body: &[u8]) -> bool
    requires { at < length entry.now }
    ensures { IsTrue result ↔ (column entry.now at ≡ Blob body.now) }
{
    match entry.get_ref(at) {
        Ok(ValueRef::Blob(held)) => held == body,
        _ => false,
    }
}

/// Whether an entry is that of a digest and these bytes.
fn is_entry(entry: &Row, digest: &[u8], body: &[u8]) -> bool
    ensures { IsTrue result ↔ (entry.now ≡ entry_by digest.now body.now) }
{
    if entry.column_count() != 3 {
        return false;
    }
    has_text(entry, 0, digest) && has_kind(entry, 1, kind_of(body)) && has_body(entry, 2, body)
}

/// Whether an entry that has these bytes is that of a digest. They are not compared again.
fn is_headed(entry: &Row, digest: &[u8], body: &[u8]) -> bool
    requires { column entry.now 2 ≡ Blob body.now }
    ensures { IsTrue result ↔ (entry.now ≡ entry_by digest.now body.now) }
{
    if entry.column_count() != 3 {
        return false;
    }
    if !has_text(entry, 0, digest) {
        return false;
    }
    has_kind(entry, 1, kind_of(body))
}

/// Whether an entry has the bytes of its digest, which are hashed here.
fn is_whole(alloc: Global, entry: &Row) -> Result<bool, AllocError>
    ensures { IfOk result (λ whole. IsTrue whole ↔ IsWhole entry.now) }
{
    if entry.column_count() != 3 {
        return Ok(false);
    }
    let Some(body) = blob_at(entry, 2) else {
        return Ok(false);
    };
    let text = Digest::of(Sha256::digest(body)).text(alloc)?;
    Ok(is_headed(entry, text.as_bytes(), body))
}

/// Whether one of some entries has the bytes of its digest.
fn has_whole(alloc: Global, rows: &[Row]) -> Result<bool, ShelfFault>
    ensures none { result ≡ Ok false → All (λ e. ¬ IsWhole e) rows.now }
    ensures some { result ≡ Ok true → Any IsWhole rows.now }
    ensures memory { IfErr result (λ fault. fault ≡ ShelfFault.Memory) }
{
    for row in rows {
        if is_whole(alloc, row)? {
            return Ok(true);
        }
    }
    Ok(false)
}

/// Whether all of some entries are that of a digest and these bytes.
fn are_entry(rows: &[Row], digest: &[u8], body: &[u8]) -> bool
    ensures all { IsTrue result → All (λ e. e ≡ entry_by digest.now body.now) rows.now }
    ensures other { result ≡ false → Any (λ e. e ≢ entry_by digest.now body.now) rows.now }
{
    for row in rows {
        if !is_entry(row, digest, body) {
            return false;
        }
    }
    true
}

/// Whether an entry is there, and not where those that are there have not the bytes of their
/// digest: `BadRow` where another one has them.
pub(crate) fn find_in(
    alloc: Global,
    rows: &[Row],
    digest: &[u8],
    body: &[u8],
) -> Result<bool, ShelfFault>
    ensures spoiled { result ≡ Ok false → All (λ e. ¬ IsWhole e) rows.now }
    ensures found { result ≡ Ok true → 0 < length rows.now }
    ensures alone { result ≡ Ok true → All (λ e. e ≡ entry_by digest.now body.now) rows.now }
    ensures other { IsErrOf result ShelfFault.BadRow
        → Any (λ e. e ≢ entry_by digest.now body.now) rows.now × Any IsWhole rows.now }
    ensures only { IfErr result IsNoStore }
{
    if are_entry(rows, digest, body) {
        return Ok(!rows.is_empty());
    }
    if has_whole(alloc, rows)? {
        return Err(ShelfFault::BadRow);
    }
    Ok(false)
}

fn body_in(entry: &Row) -> Option<&[u8]>
    ensures found { IfSome result (λ body. column entry.now 2 ≡ Blob body.now) }
    ensures none { IsNone result → (op : Op) → entry.now ≢ entry_of op }
{
    match entry.get_ref(2) {
        Ok(ValueRef::Blob(body)) => Some(body),
        _ => None,
    }
}

/// The operation that bytes spell. They are copied once.
fn decoded(alloc: Global, body: &[u8]) -> Result<Op, ShelfFault>
    ensures found { IfOk result (λ op. body.now ≡ spelling op) }
    ensures lawful { IfOk result IsOp }
    ensures bad { IsErrOf result ShelfFault.BadRow → (op : Op) → IsOp op → body.now ≢ spelling op }
    ensures only { IfErr result IsNoStore }
{
    let op = decode(alloc, Bytes::copy_from_slice(alloc, body)?)?;
    Ok(op)
}

/// The operation of an entry, which is hashed here.
pub(crate) fn op_of(alloc: Global, entry: &Row) -> Result<Digested, ShelfFault>
    ensures found { IfOk result (λ op. entry.now ≡ entry_of op) }
    ensures lawful { IfOk result IsOp }
    ensures bad { IsErrOf result ShelfFault.BadRow → ¬ IsEntry entry.now }
    ensures only { IfErr result IsNoStore }
{
    let Some(body) = body_in(entry) else {
        return Err(ShelfFault::BadRow);
    };
    let made = decoded(alloc, body)?;
    let op = Digested::of(made);
    let text = op.digest().text(alloc)?;
    if !is_headed(entry, text.as_bytes(), body) {
        return Err(ShelfFault::BadRow);
    }
    Ok(op)
}

/// The operation of an entry under the text of a digest. It is not hashed here, so where the disk
/// changed its bytes it may have another digest.
pub(crate) fn read_of(alloc: Global, entry: &Row, text: &[u8]) -> Result<Op, ShelfFault>
    ensures found { IfOk result (λ op. entry.now ≡ entry_by text.now (spelling op)) }
    ensures lawful { IfOk result IsOp }
    ensures bad { IsErrOf result ShelfFault.BadRow → (op : Op) → IsOp op
        → digest_text op ≡ text.now → entry.now ≢ entry_of op }
    ensures only { IfErr result IsNoStore }
{
    let Some(body) = body_in(entry) else {
        return Err(ShelfFault::BadRow);
    };
    let op = decoded(alloc, body)?;
    if !is_headed(entry, text, body) {
        return Err(ShelfFault::BadRow);
    }
    Ok(op)
}

/// The text at a place of a row, if it is one.
pub(crate) fn text_at(row: &Row, at: usize) -> Option<&[u8]>
    requires { at < length row.now }
    ensures found { IfSome result (λ text. column row.now at ≡ Text text.now) }
    ensures none { IsNone result → (text : List ℕ) → column row.now at ≢ Text text }
{
    match row.get_ref(at) {
        Ok(ValueRef::Text(text)) => Some(text),
        _ => None,
    }
}

/// The bytes at a place of a row, if they are a blob.
pub(crate) fn blob_at(row: &Row, at: usize) -> Option<&[u8]>
    requires { at < length row.now }
    ensures found { IfSome result (λ bytes. column row.now at ≡ Blob bytes.now) }
    ensures none { IsNone result → (bytes : List ℕ) → column row.now at ≢ Blob bytes }
{
    match row.get_ref(at) {
        Ok(ValueRef::Blob(bytes)) => Some(bytes),
        _ => None,
    }
}

/// Whether a row of the older table is that of an operation: `BadRow` where it is not.
fn is_pair(alloc: Global, pair: &Row) -> Result<(), ShelfFault>
    ensures found { OnOk result (IsPair pair.now) }
    ensures bad { IsErrOf result ShelfFault.BadRow → ¬ IsPair pair.now }
    ensures only { IfErr result IsNoStore }
{
    if pair.column_count() != 2 {
        return Err(ShelfFault::BadRow);
    }
    let Some(body) = blob_at(pair, 1) else {
        return Err(ShelfFault::BadRow);
    };
    let op = decoded(alloc, body)?;
    let text = digest(&op).text(alloc)?;
    if !has_text(pair, 0, text.as_bytes()) {
        return Err(ShelfFault::BadRow);
    }
    Ok(())
}

/// Whether all rows of the older table are those of operations: `BadRow` where one is not.
pub(crate) fn are_pairs(alloc: Global, pairs: &[Row]) -> Result<(), ShelfFault>
    ensures all { OnOk result (All IsPair pairs.now) }
    ensures bad { IsErrOf result ShelfFault.BadRow → Any (λ p. ¬ IsPair p) pairs.now }
    ensures only { IfErr result IsNoStore }
{
    for pair in pairs {
        is_pair(alloc, pair)?;
    }
    Ok(())
}
