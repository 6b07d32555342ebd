//! What stands under a digest is taken out, within a transaction.
//!
//! The database takes rows out by their rowids. That no two rows have one, which no clause of it
//! says, is tested here before.

ghost use Rattle.std.specs.Prelude.{◌≡◌, ◌∷◌, [], ℤ, true, IfOk, IfErr, IfSome, IsErrOf, Ok, OnOk, Err};
ghost use Rattle.std.specs.Prelude.{IsPermutation, length, map};
ghost use Rattle.sqlite.specs.declared.types.Value.TheVariants.{Int, Text};
ghost use Rattle.sqlite_value.specs.Value.{owned};
ghost use Rattle.sqlite.specs.Held.{state};
ghost use Rattle.sqlite.specs.State.{HasCleanDisk, IsUnchanged, KeepsCommit, FailsToQuery, ExecutesInside, Survives};
ghost use Rattle.op_shelf.specs.Fault.{IfStore};
ghost use Rattle.op_shelf.specs.Group.{IsFilling, IsNotClearedAt, IsSole, HasCleared, rows_at, rows_under, shown_id};
ghost use Rattle.op_shelf.specs.States.{rows_of};
ghost use Rattle.op_shelf.specs.Texts.{delete_text, ids_text, rowid_text};

use crate::fault::ShelfFault;
use sqlite::types::ValueRef;
use sqlite::{Alter, Error, Row, Transaction};

/// The rowids of the rows under a digest.
fn ids_within<'a, S: Alter>(
    part: &mut Transaction<'_, S>,
    digest: &'a [u8],
) -> Result<Vec<Row>, Error>
    requires filling { HasCleanDisk (state S.Store part.old.conn.now)
        → IsFilling (state S.Store part.old.conn.now) }
    ensures same_reference { part.new.conn.ghost_name ≡ part.old.conn.ghost_name }
    ensures rows { HasCleanDisk (state S.Store part.new.conn.now) → IfOk result (λ rows.
        IsPermutation (map shown_id (rows_under digest.now
        (rows_of (state S.Store part.old.conn.now)))) rows.items) }
    ensures same { HasCleanDisk (state S.Store part.new.conn.now) → OnOk result
        (IsUnchanged (state S.Store part.old.conn.now) (state S.Store part.new.conn.now)) }
    ensures kept { HasCleanDisk (state S.Store part.new.conn.now)
        → KeepsCommit (state S.Store part.old.conn.now) (state S.Store part.new.conn.now) }
    ensures cause { HasCleanDisk (state S.Store part.new.conn.now) → IfErr result
        (FailsToQuery ids_text (Text digest.now ∷ []) (state S.Store part.old.conn.now)
        (state S.Store part.new.conn.now)) }
    ensures crash { Survives (state S.Store part.old.conn.now) (state S.Store part.new.conn.now)
        (λ _. ⊥) }
{
    part.query_all(
        "SELECT rowid FROM ops2 WHERE digest = ?1",
        &[ValueRef::Text(digest)],
    )
}

/// The rows of a rowid.
fn rows_within<'a, S: Alter>(
    part: &mut Transaction<'_, S>,
    id: ValueRef<'a>,
) -> Result<Vec<Row>, Error>
    requires whole { (n : ℤ) × (owned id ≡ Int n) }
    requires filling { HasCleanDisk (state S.Store part.old.conn.now)
        → IsFilling (state S.Store part.old.conn.now) }
    ensures same_reference { part.new.conn.ghost_name ≡ part.old.conn.ghost_name }
    ensures rows { HasCleanDisk (state S.Store part.new.conn.now) → (n : ℤ) → owned id.entry ≡ Int n
        → IfOk result (λ rows. IsPermutation (map shown_id (rows_at n
        (rows_of (state S.Store part.old.conn.now)))) rows.items) }
    ensures same { HasCleanDisk (state S.Store part.new.conn.now) → OnOk result
        (IsUnchanged (state S.Store part.old.conn.now) (state S.Store part.new.conn.now)) }
    ensures kept { HasCleanDisk (state S.Store part.new.conn.now)
        → KeepsCommit (state S.Store part.old.conn.now) (state S.Store part.new.conn.now) }
    ensures cause { HasCleanDisk (state S.Store part.new.conn.now) → (n : ℤ) → owned id.entry ≡ Int n
        → IfErr result (FailsToQuery rowid_text (Int n ∷ []) (state S.Store part.old.conn.now)
        (state S.Store part.new.conn.now)) }
    ensures crash { Survives (state S.Store part.old.conn.now) (state S.Store part.new.conn.now)
        (λ _. ⊥) }
{
    part.query_all("SELECT rowid FROM ops2 WHERE rowid = ?1", &[id])
}

/// The one rowid that is shown.
fn only_id(rows: &[Row]) -> Option<ValueRef<'_>>
    ensures { IfSome result (λ id. (n : ℤ) × (owned id ≡ Int n)
        × (rows.now ≡ (Int n ∷ []) ∷ [])) }
{
    let [row] = rows else {
        return None;
    };
    if row.column_count() != 1 {
        return None;
    }
    match row.get_ref(0) {
        Ok(ValueRef::Int(id)) => Some(ValueRef::Int(id)),
        _ => None,
    }
}

/// Takes out the one row that is under a digest.
fn delete_within<'a, S: Alter>(
    part: &mut Transaction<'_, S>,
    digest: &'a [u8],
) -> Result<usize, Error>
    requires filling { HasCleanDisk (state S.Store part.old.conn.now)
        → IsFilling (state S.Store part.old.conn.now) }
    requires sole { HasCleanDisk (state S.Store part.old.conn.now)
        → (id : ℤ) × IsSole digest.now id (rows_of (state S.Store part.old.conn.now)) }
    ensures same_reference { part.new.conn.ghost_name ≡ part.old.conn.ghost_name }
    ensures cleared { HasCleanDisk (state S.Store part.new.conn.now) → OnOk result
        (HasCleared (state S.Store part.old.conn.now) (state S.Store part.new.conn.now)
        digest.now) }
    ensures kept { HasCleanDisk (state S.Store part.new.conn.now)
        → KeepsCommit (state S.Store part.old.conn.now) (state S.Store part.new.conn.now) }
    ensures cause { HasCleanDisk (state S.Store part.new.conn.now) → IfErr result (λ e.
        ExecutesInside 0 delete_text (Text digest.now ∷ [])
        (state S.Store part.old.conn.now) (state S.Store part.new.conn.now) (Err e)) }
    ensures crash { Survives (state S.Store part.old.conn.now) (state S.Store part.new.conn.now)
        (λ _. ⊥) }
{
    part.execute(
        "DELETE FROM ops2 WHERE digest = ?1",
        &[ValueRef::Text(digest)],
    )
}

/// Whether a rowid is that of one row alone.
fn is_alone_within<'a, S: Alter>(
    part: &mut Transaction<'_, S>,
    id: ValueRef<'a>,
) -> Result<bool, Error>
    requires whole { (n : ℤ) × (owned id ≡ Int n) }
    requires filling { HasCleanDisk (state S.Store part.old.conn.now)
        → IsFilling (state S.Store part.old.conn.now) }
    ensures same_reference { part.new.conn.ghost_name ≡ part.old.conn.ghost_name }
    ensures alone { HasCleanDisk (state S.Store part.new.conn.now) → result ≡ Ok true
        → (n : ℤ) → owned id.entry ≡ Int n
        → length (rows_at n (rows_of (state S.Store part.old.conn.now))) ≡ 1 }
    ensures same { HasCleanDisk (state S.Store part.new.conn.now) → OnOk result
        (IsUnchanged (state S.Store part.old.conn.now) (state S.Store part.new.conn.now)) }
    ensures kept { HasCleanDisk (state S.Store part.new.conn.now)
        → KeepsCommit (state S.Store part.old.conn.now) (state S.Store part.new.conn.now) }
    ensures cause { HasCleanDisk (state S.Store part.new.conn.now) → (n : ℤ) → owned id.entry ≡ Int n
        → IfErr result (FailsToQuery rowid_text (Int n ∷ []) (state S.Store part.old.conn.now)
        (state S.Store part.new.conn.now)) }
    ensures crash { Survives (state S.Store part.old.conn.now) (state S.Store part.new.conn.now)
        (λ _. ⊥) }
{
    let rows = rows_within(part, id)?;
    Ok(rows.len() == 1)
}

/// Takes out the one row that is under a digest, where it alone has its rowid.
fn take_out_within<'a, S: Alter>(
    part: &mut Transaction<'_, S>,
    digest: &[u8],
    id: ValueRef<'a>,
) -> Result<(), ShelfFault>
    requires whole { (n : ℤ) × (owned id ≡ Int n) }
    requires filling { HasCleanDisk (state S.Store part.old.conn.now)
        → IsFilling (state S.Store part.old.conn.now) }
    requires shown { HasCleanDisk (state S.Store part.old.conn.now)
        → IsPermutation (map shown_id (rows_under digest.now
        (rows_of (state S.Store part.old.conn.now)))) ((owned id ∷ []) ∷ []) }
    ensures same_reference { part.new.conn.ghost_name ≡ part.old.conn.ghost_name }
    ensures cleared { HasCleanDisk (state S.Store part.new.conn.now) → OnOk result
        (HasCleared (state S.Store part.old.conn.now) (state S.Store part.new.conn.now)
        digest.now) }
    ensures kept { HasCleanDisk (state S.Store part.new.conn.now)
        → KeepsCommit (state S.Store part.old.conn.now) (state S.Store part.new.conn.now) }
    ensures store { HasCleanDisk (state S.Store part.new.conn.now) → IfStore result (λ why.
        IsNotClearedAt S.Store why part.new.conn.now digest.now) }
    ensures row { ¬ IsErrOf result ShelfFault.BadRow }
    ensures crash { Survives (state S.Store part.old.conn.now) (state S.Store part.new.conn.now)
        (λ _. ⊥) }
{
    if !is_alone_within(part, id)? {
        return Err(ShelfFault::Memory);
    }
    delete_within(part, digest)?;
    Ok(())
}

/// Takes out what is under a digest, if anything is.
pub(crate) fn clear_within<S: Alter>(
    part: &mut Transaction<'_, S>,
    digest: &[u8],
) -> Result<(), ShelfFault>
    requires filling { HasCleanDisk (state S.Store part.old.conn.now)
        → IsFilling (state S.Store part.old.conn.now) }
    ensures same_reference { part.new.conn.ghost_name ≡ part.old.conn.ghost_name }
    ensures cleared { HasCleanDisk (state S.Store part.new.conn.now) → OnOk result
        (HasCleared (state S.Store part.old.conn.now) (state S.Store part.new.conn.now)
        digest.now) }
    ensures kept { HasCleanDisk (state S.Store part.new.conn.now)
        → KeepsCommit (state S.Store part.old.conn.now) (state S.Store part.new.conn.now) }
    ensures store { HasCleanDisk (state S.Store part.new.conn.now) → IfStore result (λ why.
        IsNotClearedAt S.Store why part.new.conn.now digest.now) }
    ensures row { ¬ IsErrOf result ShelfFault.BadRow }
    ensures crash { Survives (state S.Store part.old.conn.now) (state S.Store part.new.conn.now)
        (λ _. ⊥) }
{
    let ids = ids_within(part, digest)?;
    if ids.is_empty() {
        return Ok(());
    }
    let Some(id) = only_id(&ids) else {
        return Err(ShelfFault::Memory);
    };
    take_out_within(part, digest, id)
}
