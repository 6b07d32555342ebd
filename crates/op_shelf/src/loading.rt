//! Loads the operation of a digest, over any connection.

ghost use Rattle.std.specs.Prelude.{◌≡◌, ◌≢◌, ◌∷◌, [], List, ℕ, None, Ok, IfOk, IfErr, IfSome, IsErrOf, OnOk};
ghost use Rattle.std.specs.Prelude.{OnErr};
ghost use Rattle.hex.specs.Hex.{encode_lower};
ghost use Rattle.sqlite.specs.declared.types.Value.TheVariants.{Text};
ghost use Rattle.sqlite.specs.Held.{state};
ghost use Rattle.sqlite.specs.State.{IsUnchanged, Survives};
ghost use Rattle.operation.specs.declared.op.Op.{Op as Operation};
ghost use Rattle.operation.specs.Reading.{IsOp};
ghost use Rattle.operation.specs.Spelling.{digest_of, hash_of, spelling};
ghost use Rattle.op_shelf.specs.Entries.{entry_by, entry_of, entry_under};
ghost use Rattle.op_shelf.specs.Fault.{IfStore, IsNoStore};
ghost use Rattle.op_shelf.specs.Loading.{AreAmiss, at_digest};
ghost use Rattle.op_shelf.specs.States.{IfClean, IsNotShown, IsReady, KeepsAll, rows_of};
ghost use Rattle.op_shelf.specs.Texts.{held_text};

use crate::fault::ShelfFault;
use crate::rows::{op_of, read_of};
use crate::statements::held_rows;
use operation::{Digest, Digested, Op};
use sqlite::{Alter, Connection, Row};
use std::alloc::Global;

/// The operation of an entry: `BadRow` where it has another digest.
fn op_at(alloc: Global, entry: &Row, digest: &Digest) -> Result<Digested, ShelfFault>
    ensures told { IfOk result (λ op. digest_of op ≡ digest.now) }
    ensures found { IfOk result (λ op. entry.now ≡ entry_of op) }
    ensures lawful { IfOk result IsOp }
    ensures bad { IsErrOf result ShelfFault.BadRow → (op : Operation) → IsOp op → hash_of op ≡ digest.now
        → entry.now ≢ entry_of op }
    ensures only { IfErr result IsNoStore }
{
    let op = op_of(alloc, entry)?;
    if op.digest() != digest {
        return Err(ShelfFault::BadRow);
    }
    Ok(op)
}

/// The operation of the entries under a digest, if there are any.
fn op_in(alloc: Global, entries: &[Row], digest: &Digest) -> Result<Option<Digested>, ShelfFault>
    ensures told { IfOk result (λ found. IfSome found (λ op. digest_of op ≡ digest.now)) }
    ensures found { IfOk result (λ found. IfSome found (λ op. entries.now ≡ entry_of op ∷ [])) }
    ensures lawful { IfOk result (λ found. IfSome found IsOp) }
    ensures none { result ≡ Ok None → entries.now ≡ [] }
    ensures bad { IsErrOf result ShelfFault.BadRow → AreAmiss digest.now entries.now }
    ensures only { IfErr result IsNoStore }
{
    match entries {
        [] => Ok(None),
        [entry] => Ok(Some(op_at(alloc, entry, digest)?)),
        _ => Err(ShelfFault::BadRow),
    }
}

/// The operation of a digest, if one is in the table.
pub(crate) fn load_op<S: Alter>(
    database: &mut Connection<S>,
    alloc: Global,
    digest: &Digest,
) -> Result<Option<Digested>, ShelfFault>
    requires ready { IsReady (state S.Store database.old) }
    ensures told { IfOk result (λ found. IfSome found (λ op. digest_of op ≡ digest.now)) }
    ensures found { IfClean S.Store database.old database.new (λ s t. IfOk result (λ found.
        IfSome found (λ op. at_digest digest.now (rows_of s) ≡ entry_of op ∷ []))) }
    ensures lawful { IfOk result (λ found. IfSome found IsOp) }
    ensures none { IfClean S.Store database.old database.new (λ s t.
        result ≡ Ok None → at_digest digest.now (rows_of s) ≡ []) }
    ensures same { IfClean S.Store database.old database.new (λ s t.
        OnOk result (IsUnchanged s t)) }
    ensures refused { IfClean S.Store database.old database.new (λ s t.
        OnErr result (KeepsAll s t)) }

    // Each fault, only where it is.
    ensures bad_row { IfClean S.Store database.old database.new (λ s t.
        IsErrOf result ShelfFault.BadRow
        → AreAmiss digest.now (at_digest digest.now (rows_of s))) }
    ensures store { IfClean S.Store database.old database.new (λ s t. IfStore result (λ why.
        IsNotShown why held_text (Text (encode_lower digest.now) ∷ []) s t)) }
    ensures crash { Survives (state S.Store database.old) (state S.Store database.new) (λ _. ⊥) }
{
    let name = digest.text(alloc)?;
    let held = held_rows(database, name.as_str())?;
    op_in(alloc, &held, digest)
}

/// The operation of the entries under the text of a digest, if there are any.
fn read_in(alloc: Global, entries: &[Row], text: &[u8]) -> Result<Option<Op>, ShelfFault>
    ensures found { IfOk result (λ found. IfSome found
        (λ op. entries.now ≡ entry_by text.now (spelling op) ∷ [])) }
    ensures lawful { IfOk result (λ found. IfSome found IsOp) }
    ensures none { result ≡ Ok None → entries.now ≡ [] }
    ensures bad { IsErrOf result ShelfFault.BadRow → (digest : List ℕ)
        → encode_lower digest ≡ text.now → AreAmiss digest entries.now }
    ensures only { IfErr result IsNoStore }
{
    let [entry, others @ ..] = entries else {
        return Ok(None);
    };
    if !others.is_empty() {
        return Err(ShelfFault::BadRow);
    }
    Ok(Some(read_of(alloc, entry, text)?))
}

/// The operation that is read under a digest, if a row is there. Nothing is hashed.
pub(crate) fn read_op<S: Alter>(
    database: &mut Connection<S>,
    alloc: Global,
    digest: &Digest,
) -> Result<Option<Op>, ShelfFault>
    requires ready { IsReady (state S.Store database.old) }
    ensures found { IfClean S.Store database.old database.new (λ s t. IfOk result (λ found.
        IfSome found (λ op. at_digest digest.now (rows_of s) ≡ entry_under digest.now op ∷ []))) }
    ensures lawful { IfOk result (λ found. IfSome found IsOp) }
    ensures none { IfClean S.Store database.old database.new (λ s t.
        result ≡ Ok None → at_digest digest.now (rows_of s) ≡ []) }
    ensures same { IfClean S.Store database.old database.new (λ s t.
        OnOk result (IsUnchanged s t)) }
    ensures refused { IfClean S.Store database.old database.new (λ s t.
        OnErr result (KeepsAll s t)) }

    // Each fault, only where it is.
    ensures bad_row { IfClean S.Store database.old database.new (λ s t.
        IsErrOf result ShelfFault.BadRow
        → AreAmiss digest.now (at_digest digest.now (rows_of s))) }
    ensures store { IfClean S.Store database.old database.new (λ s t. IfStore result (λ why.
        IsNotShown why held_text (Text (encode_lower digest.now) ∷ []) s t)) }
    ensures crash { Survives (state S.Store database.old) (state S.Store database.new) (λ _. ⊥) }
{
    let text = digest.text(alloc)?;
    let held = held_rows(database, text.as_str())?;
    read_in(alloc, &held, text.as_bytes())
}
