//! Puts of a group, in one transaction.

ghost use Rattle.std.specs.Prelude.{◌≡◌, ◌∷◌, [], false, true, All, Contains, Ok, Err, IfOk, IfErr, IsErrOf, OnOk};
ghost use Rattle.std.specs.Prelude.{OnErr, IsPermutation};
ghost use Rattle.sqlite.specs.declared.types.Value.TheVariants.{Text};
ghost use Rattle.sqlite.specs.Held.{state};
ghost use Rattle.sqlite.specs.State.{HasCleanDisk, IsUnchanged, KeepsCommit, FailsToQuery, ExecutesInside, Survives};
ghost use Rattle.sqlite.specs.Tree.{Trees};
ghost use Rattle.operation.specs.declared.op.Op.{Op as Operation};
ghost use Rattle.op_shelf.specs.Entries.{IsWhole, entries, entry_by, entry_of, digest_text};
ghost use Rattle.op_shelf.specs.Fault.{IfStore};
ghost use Rattle.op_shelf.specs.Group.{IsFilling, HasAdded, HasReplaced, HasMended, HasPut, FindsOther};
ghost use Rattle.op_shelf.specs.Group.{IsNotReplaced, IsStuck};
ghost use Rattle.op_shelf.specs.Putting.{PutsGroup};
ghost use Rattle.op_shelf.specs.States.{IfClean, IsReady, IsReplaced, IsKnown, HasOther, IsNotShown, KeepsAll};
ghost use Rattle.op_shelf.specs.States.{Replaces, StaysReady, rows_left, rows_of, under};
ghost use Rattle.op_shelf.specs.Texts.{held_text, insert_text};

use crate::clearing::clear_within;
use crate::fault::ShelfFault;
use crate::kept::Kept;
use crate::rows::{find_in, kind_of, kind_value};
use operation::{Digested, encode};
use sqlite::types::ValueRef;
use sqlite::{Alter, Connection, Error, Row, Transaction};
use std::alloc::Global;

/// The entries under a digest.
fn held_within<'a, S: Alter>(
    part: &mut Transaction<'_, S>,
    digest: &'a [u8],
) -> Result<Vec<Row>, Error>
    requires filling { HasCleanDisk (state S.Store part.old.conn.now)
        → IsFilling (state S.Store part.old.conn.now) }
    ensures same_reference { part.new.conn.ghost_name ≡ part.old.conn.ghost_name }
    ensures rows { HasCleanDisk (state S.Store part.new.conn.now) → IfOk result (λ rows.
        IsPermutation (under digest.now (rows_of (state S.Store part.old.conn.now))) rows.items) }
    ensures same { HasCleanDisk (state S.Store part.new.conn.now) → OnOk result
        (IsUnchanged (state S.Store part.old.conn.now) (state S.Store part.new.conn.now)) }
    ensures kept { HasCleanDisk (state S.Store part.new.conn.now)
        → KeepsCommit (state S.Store part.old.conn.now) (state S.Store part.new.conn.now) }
    ensures cause { HasCleanDisk (state S.Store part.new.conn.now) → IfErr result
        (FailsToQuery held_text (Text digest.now ∷ []) (state S.Store part.old.conn.now)
        (state S.Store part.new.conn.now)) }
    ensures crash { Survives (state S.Store part.old.conn.now) (state S.Store part.new.conn.now)
        (λ _. ⊥) }
{
    part.query_all(
        "SELECT digest, kind, body FROM ops2 WHERE digest = ?1",
        &[ValueRef::Text(digest)],
    )
}

/// Whether an entry is there.
fn find_within<S: Alter>(
    part: &mut Transaction<'_, S>,
    alloc: Global,
    digest: &[u8],
    body: &[u8],
) -> Result<bool, ShelfFault>
    requires filling { HasCleanDisk (state S.Store part.old.conn.now)
        → IsFilling (state S.Store part.old.conn.now) }
    ensures same_reference { part.new.conn.ghost_name ≡ part.old.conn.ghost_name }
    ensures spoiled { HasCleanDisk (state S.Store part.new.conn.now) → result ≡ Ok false
        → All (λ e. ¬ IsWhole e) (under digest.now (rows_of (state S.Store part.old.conn.now))) }
    ensures known { HasCleanDisk (state S.Store part.new.conn.now) → result ≡ Ok true
        → IsKnown (state S.Store part.old.conn.now) (state S.Store part.new.conn.now) digest.now
        (entry_by digest.now body.now) }
    ensures same { HasCleanDisk (state S.Store part.new.conn.now) → OnOk result
        (IsUnchanged (state S.Store part.old.conn.now) (state S.Store part.new.conn.now)) }
    ensures kept { HasCleanDisk (state S.Store part.new.conn.now)
        → KeepsCommit (state S.Store part.old.conn.now) (state S.Store part.new.conn.now) }

    // Each fault, only where it is.
    ensures bad_row { HasCleanDisk (state S.Store part.new.conn.now)
        → IsErrOf result ShelfFault.BadRow → HasOther (rows_of (state S.Store part.old.conn.now))
        digest.now (entry_by digest.now body.now) }
    ensures store { HasCleanDisk (state S.Store part.new.conn.now)
        → IfStore result (λ why. IsNotShown why held_text (Text digest.now ∷ [])
        (state S.Store part.old.conn.now) (state S.Store part.new.conn.now)) }
    ensures crash { Survives (state S.Store part.old.conn.now) (state S.Store part.new.conn.now)
        (λ _. ⊥) }
{
    let held = held_within(part, digest)?;
    find_in(alloc, &held, digest, body)
}

/// Adds an entry.
fn insert_within<'a, S: Alter>(
    part: &mut Transaction<'_, S>,
    digest: &'a [u8],
    body: &'a [u8],
) -> Result<usize, Error>
    requires filling { HasCleanDisk (state S.Store part.old.conn.now)
        → IsFilling (state S.Store part.old.conn.now) }
    ensures same_reference { part.new.conn.ghost_name ≡ part.old.conn.ghost_name }
    ensures added { HasCleanDisk (state S.Store part.new.conn.now) → OnOk result
        (HasAdded (state S.Store part.old.conn.now) (state S.Store part.new.conn.now)
        (entry_by digest.now body.now)) }
    ensures kept { HasCleanDisk (state S.Store part.new.conn.now)
        → KeepsCommit (state S.Store part.old.conn.now) (state S.Store part.new.conn.now) }
    ensures cause { HasCleanDisk (state S.Store part.new.conn.now) → IfErr result (λ e.
        ExecutesInside 0 insert_text (entry_by digest.now body.now)
        (state S.Store part.old.conn.now) (state S.Store part.new.conn.now) (Err e)) }
    ensures crash { Survives (state S.Store part.old.conn.now) (state S.Store part.new.conn.now)
        (λ _. ⊥) }
{
    part.execute(
        "INSERT INTO ops2 (digest, kind, body) VALUES (?1, ?2, ?3)",
        &[
            ValueRef::Text(digest),
            kind_value(kind_of(body)),
            ValueRef::Blob(body),
        ],
    )
}

/// Puts an entry in the place of what is under its digest.
fn replace_within<S: Alter>(
    part: &mut Transaction<'_, S>,
    digest: &[u8],
    body: &[u8],
) -> Result<(), ShelfFault>
    requires filling { HasCleanDisk (state S.Store part.old.conn.now)
        → IsFilling (state S.Store part.old.conn.now) }
    ensures same_reference { part.new.conn.ghost_name ≡ part.old.conn.ghost_name }
    ensures replaced { HasCleanDisk (state S.Store part.new.conn.now) → OnOk result
        (HasReplaced (state S.Store part.old.conn.now) (state S.Store part.new.conn.now)
        digest.now (entry_by digest.now body.now)) }
    ensures kept { HasCleanDisk (state S.Store part.new.conn.now)
        → KeepsCommit (state S.Store part.old.conn.now) (state S.Store part.new.conn.now) }

    // Each fault, only where it is.
    ensures store { HasCleanDisk (state S.Store part.new.conn.now)
        → IfStore result (λ why. IsStuck S.Store why part.new.conn.now digest.now
        (entry_by digest.now body.now)) }
    ensures row { ¬ IsErrOf result ShelfFault.BadRow }
    ensures crash { Survives (state S.Store part.old.conn.now) (state S.Store part.new.conn.now)
        (λ _. ⊥) }
{
    clear_within(part, digest)?;
    insert_within(part, digest, body)?;
    Ok(())
}

/// Puts an entry where none that has the bytes of its digest is there.
fn put_entry_within<S: Alter>(
    part: &mut Transaction<'_, S>,
    alloc: Global,
    digest: &[u8],
    body: &[u8],
) -> Result<Kept, ShelfFault>
    requires filling { HasCleanDisk (state S.Store part.old.conn.now)
        → IsFilling (state S.Store part.old.conn.now) }
    ensures same_reference { part.new.conn.ghost_name ≡ part.old.conn.ghost_name }
    ensures new { HasCleanDisk (state S.Store part.new.conn.now) → result ≡ Ok Kept.New
        → HasMended (state S.Store part.old.conn.now) (state S.Store part.new.conn.now) digest.now
        (entry_by digest.now body.now) }
    ensures known { HasCleanDisk (state S.Store part.new.conn.now) → result ≡ Ok Kept.Known
        → IsKnown (state S.Store part.old.conn.now) (state S.Store part.new.conn.now) digest.now
        (entry_by digest.now body.now) }
    ensures kept { HasCleanDisk (state S.Store part.new.conn.now)
        → KeepsCommit (state S.Store part.old.conn.now) (state S.Store part.new.conn.now) }

    // Each fault, only where it is.
    ensures bad_row { HasCleanDisk (state S.Store part.new.conn.now)
        → IsErrOf result ShelfFault.BadRow → HasOther (rows_of (state S.Store part.old.conn.now))
        digest.now (entry_by digest.now body.now) }
    ensures store { HasCleanDisk (state S.Store part.new.conn.now)
        → IfStore result (λ why. IsStuck S.Store why part.new.conn.now digest.now
        (entry_by digest.now body.now)) }
    ensures crash { Survives (state S.Store part.old.conn.now) (state S.Store part.new.conn.now)
        (λ _. ⊥) }
{
    if find_within(part, alloc, digest, body)? {
        return Ok(Kept::Known);
    }
    replace_within(part, digest, body)?;
    Ok(Kept::New)
}

/// Puts an operation.
fn put_within<S: Alter>(
    part: &mut Transaction<'_, S>,
    alloc: Global,
    op: &Digested,
) -> Result<Kept, ShelfFault>
    requires filling { HasCleanDisk (state S.Store part.old.conn.now)
        → IsFilling (state S.Store part.old.conn.now) }
    ensures same_reference { part.new.conn.ghost_name ≡ part.old.conn.ghost_name }
    ensures put { HasCleanDisk (state S.Store part.new.conn.now) → IfOk result (λ kept.
        HasPut (state S.Store part.old.conn.now) (state S.Store part.new.conn.now) (op.now ∷ [])
        (kept ∷ [])) }
    ensures kept { HasCleanDisk (state S.Store part.new.conn.now)
        → KeepsCommit (state S.Store part.old.conn.now) (state S.Store part.new.conn.now) }

    // Each fault, only where it is.
    ensures bad_row { HasCleanDisk (state S.Store part.new.conn.now)
        → IsErrOf result ShelfFault.BadRow → HasOther (rows_of (state S.Store part.old.conn.now))
        (digest_text op.now) (entry_of op.now) }
    ensures store { HasCleanDisk (state S.Store part.new.conn.now)
        → IfStore result (λ why.
        IsStuck S.Store why part.new.conn.now (digest_text op.now) (entry_of op.now)) }
    ensures crash { Survives (state S.Store part.old.conn.now) (state S.Store part.new.conn.now)
        (λ _. ⊥) }
{
    let name = op.digest().text(alloc)?;
    let body = encode(alloc, op.op())?;
    put_entry_within(part, alloc, name.as_bytes(), &body)
}

/// Puts each of a group, one after another.
fn put_each<S: Alter>(
    part: &mut Transaction<'_, S>,
    alloc: Global,
    ops: &[Digested],
) -> Result<Vec<Kept>, ShelfFault>
    requires filling { HasCleanDisk (state S.Store part.old.conn.now)
        → IsFilling (state S.Store part.old.conn.now) }
    ensures same_reference { part.new.conn.ghost_name ≡ part.old.conn.ghost_name }
    ensures put { HasCleanDisk (state S.Store part.new.conn.now) → IfOk result (λ kepts.
        HasPut (state S.Store part.old.conn.now) (state S.Store part.new.conn.now) ops.now
        kepts.items) }
    ensures kept { HasCleanDisk (state S.Store part.new.conn.now)
        → KeepsCommit (state S.Store part.old.conn.now) (state S.Store part.new.conn.now) }

    // Each fault, only where it is.
    ensures bad_row { HasCleanDisk (state S.Store part.new.conn.now)
        → IsErrOf result ShelfFault.BadRow
        → FindsOther (state S.Store part.old.conn.now) ops.now }
    ensures store { HasCleanDisk (state S.Store part.new.conn.now)
        → IfStore result (λ why. (op : Operation) × Contains ops.now op
        × IsStuck S.Store why part.new.conn.now (digest_text op) (entry_of op)) }
    ensures crash { Survives (state S.Store part.old.conn.now) (state S.Store part.new.conn.now)
        (λ _. ⊥) }
{
    let mut kepts = Vec::new(alloc);
    for op in ops {
        let kept = put_within(part, alloc, op)?;
        kepts.push(kept)?;
    }
    Ok(kepts)
}

/// Puts a group in one transaction, and commits it.
pub(crate) fn put_group<S: Alter>(
    database: &mut Connection<S>,
    alloc: Global,
    ops: &[Digested],
) -> Result<Vec<Kept>, ShelfFault>
    requires ready { IsReady (state S.Store database.old) }
    ensures puts { PutsGroup S.Store database.old database.new ops.now result }
    ensures settled { IfClean S.Store database.old database.new (λ s t. OnOk result
        ((trees : Trees) → t.may_leave trees → trees ≡ t.now.trees)) }
{
    let mut part = database.transaction();
    let kepts = put_each(&mut part, alloc, ops)?;
    part.commit()?;
    Ok(kepts)
}

/// Puts an entry in the place of what is under its digest, and commits it.
pub(crate) fn replace_alone<S: Alter>(
    database: &mut Connection<S>,
    digest: &[u8],
    body: &[u8],
) -> Result<(), ShelfFault>
    requires ready { HasCleanDisk (state S.Store database.old) → IsReady (state S.Store database.old) }
    requires alone { (state S.Store database.old).in_transaction ≡ false }
    ensures replaced { IfClean S.Store database.old database.new (λ s t.
        OnOk result (IsReplaced s t digest.now (entry_by digest.now body.now))) }
    ensures refused { IfClean S.Store database.old database.new (λ s t.
        OnErr result (KeepsAll s t)) }
    ensures stays { IfClean S.Store database.old database.new StaysReady }
    ensures settled { IfClean S.Store database.old database.new (λ s t. OnOk result
        ((trees : Trees) → t.may_leave trees → trees ≡ t.now.trees)) }

    // Each fault, only where it is.
    ensures store { IfClean S.Store database.old database.new (λ s t. IfStore result (λ why.
        IsNotReplaced S.Store why database.new digest.now (entry_by digest.now body.now))) }
    ensures row { ¬ IsErrOf result ShelfFault.BadRow }
    ensures crash { Survives (state S.Store database.old) (state S.Store database.new) (λ trees.
        Replaces digest.now (entry_by digest.now body.now)
        (entries (rows_of (state S.Store database.old)))
        (entries (rows_left (state S.Store database.old) trees))) }
{
    let mut part = database.transaction();
    replace_within(&mut part, digest, body)?;
    part.commit()?;
    Ok(())
}
