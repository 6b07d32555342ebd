//! The older table, whose rows become entries of the newer one in one transaction.

ghost use Rattle.std.specs.Prelude.{◌≡◌, ◌∷◌, [], pos, map, false, All, List, IfErr, IsErrOf, OnOk, OnErr};
ghost use Rattle.sqlite.specs.declared.types.Value.TheVariants.{Int, Text, Blob};
ghost use Rattle.sqlite.specs.Held.{state};
ghost use Rattle.sqlite.specs.Order.{Row as Values};
ghost use Rattle.sqlite.specs.State.{HasCleanDisk, KeepsCommit, Survives};
ghost use Rattle.op_shelf.specs.Fault.{IfStore};
ghost use Rattle.op_shelf.specs.Migration.{IsOlder, IsStarted, IsMoving, IsMoved, IsSwapped, IsSwap, IsMigrated};
ghost use Rattle.op_shelf.specs.Migration.{IsMigration, HasBadPair, IsHalted, IsNotSwapped};
ghost use Rattle.op_shelf.specs.Older.{IsPair, moved};
ghost use Rattle.op_shelf.specs.States.{IfClean, KeepsAll, IsNotMigrated};

use crate::fault::ShelfFault;
use crate::rows::{are_pairs, blob_at, kind_of, kind_value, text_at};
use crate::statements::older_rows;
use sqlite::types::ValueRef;
use sqlite::{Alter, Connection, Error, Row, Transaction};
use std::alloc::Global;

/// Makes the newer table beside the older one.
fn make_beside<S: Alter>(part: &mut Transaction<'_, S>) -> Result<usize, Error>
    requires started { HasCleanDisk (state S.Store part.old.conn.now)
        → IsStarted (state S.Store part.old.conn.now) }
    ensures same_reference { part.new.conn.ghost_name ≡ part.old.conn.ghost_name }
    ensures made { HasCleanDisk (state S.Store part.new.conn.now)
        → OnOk result (IsMoving (state S.Store part.new.conn.now) []) }
    ensures kept { HasCleanDisk (state S.Store part.new.conn.now)
        → KeepsCommit (state S.Store part.old.conn.now) (state S.Store part.new.conn.now) }
    ensures halted { HasCleanDisk (state S.Store part.new.conn.now)
        → IfErr result (IsHalted S.Store part.new.conn.now) }
    ensures crash { Survives (state S.Store part.old.conn.now) (state S.Store part.new.conn.now)
        (λ _. ⊥) }
{
    part.execute(
        "CREATE TABLE ops2 (digest TEXT PRIMARY KEY, kind INTEGER NOT NULL, body BLOB NOT NULL)",
        &[],
    )
}

/// Adds an entry to the newer table.
fn insert_within<'a, S: Alter>(
    part: &mut Transaction<'_, S>,
    digest: &'a [u8],
    kind: u8,
    body: &'a [u8],
) -> Result<usize, Error>
    requires moving { HasCleanDisk (state S.Store part.old.conn.now)
        → (done : List Values) × IsMoving (state S.Store part.old.conn.now) done }
    ensures same_reference { part.new.conn.ghost_name ≡ part.old.conn.ghost_name }
    ensures added { HasCleanDisk (state S.Store part.new.conn.now)
        → OnOk result ((done : List Values)
        → IsMoving (state S.Store part.old.conn.now) done
        → IsMoving (state S.Store part.new.conn.now)
        ((Text digest.now ∷ Int (pos kind) ∷ Blob body.now ∷ []) ∷ done)) }
    ensures kept { HasCleanDisk (state S.Store part.new.conn.now)
        → KeepsCommit (state S.Store part.old.conn.now) (state S.Store part.new.conn.now) }
    ensures halted { HasCleanDisk (state S.Store part.new.conn.now)
        → IfErr result (IsHalted S.Store part.new.conn.now) }
    ensures crash { Survives (state S.Store part.old.conn.now) (state S.Store part.new.conn.now)
        (λ _. ⊥) }
{
    part.execute(
        "INSERT INTO ops2 (digest, kind, body) VALUES (?1, ?2, ?3)",
        &[
            ValueRef::Text(digest),
            kind_value(kind),
            ValueRef::Blob(body),
        ],
    )
}

/// Adds the entry of a row of the older table.
fn move_row<S: Alter>(part: &mut Transaction<'_, S>, pair: &Row) -> Result<usize, Error>
    requires moving { HasCleanDisk (state S.Store part.old.conn.now)
        → (done : List Values) × IsMoving (state S.Store part.old.conn.now) done }
    requires pair { IsPair pair.now }
    ensures same_reference { part.new.conn.ghost_name ≡ part.old.conn.ghost_name }
    ensures added { HasCleanDisk (state S.Store part.new.conn.now)
        → OnOk result ((done : List Values)
        → IsMoving (state S.Store part.old.conn.now) done
        → IsMoving (state S.Store part.new.conn.now) (moved pair.now ∷ done)) }
    ensures kept { HasCleanDisk (state S.Store part.new.conn.now)
        → KeepsCommit (state S.Store part.old.conn.now) (state S.Store part.new.conn.now) }
    ensures halted { HasCleanDisk (state S.Store part.new.conn.now)
        → IfErr result (IsHalted S.Store part.new.conn.now) }
    ensures crash { Survives (state S.Store part.old.conn.now) (state S.Store part.new.conn.now)
        (λ _. ⊥) }
{
    match (text_at(pair, 0), blob_at(pair, 1)) {
        (Some(digest), Some(body)) => insert_within(part, digest, kind_of(body), body),
        _ => unreachable!(),
    }
}

/// Adds the entries of all rows of the older table.
fn move_rows<S: Alter>(part: &mut Transaction<'_, S>, pairs: &[Row]) -> Result<(), Error>
    requires moving { HasCleanDisk (state S.Store part.old.conn.now)
        → IsMoving (state S.Store part.old.conn.now) [] }
    requires pairs { All IsPair pairs.now }
    ensures same_reference { part.new.conn.ghost_name ≡ part.old.conn.ghost_name }
    ensures added { HasCleanDisk (state S.Store part.new.conn.now)
        → OnOk result (IsMoving (state S.Store part.new.conn.now) (map moved pairs.now)) }
    ensures kept { HasCleanDisk (state S.Store part.new.conn.now)
        → KeepsCommit (state S.Store part.old.conn.now) (state S.Store part.new.conn.now) }
    ensures halted { HasCleanDisk (state S.Store part.new.conn.now)
        → IfErr result (IsHalted S.Store part.new.conn.now) }
    ensures crash { Survives (state S.Store part.old.conn.now) (state S.Store part.new.conn.now)
        (λ _. ⊥) }
{
    for pair in pairs {
        move_row(part, pair)?;
    }
    Ok(())
}

/// Drops the older table.
fn drop_older<S: Alter>(part: &mut Transaction<'_, S>) -> Result<usize, Error>
    requires moving { HasCleanDisk (state S.Store part.old.conn.now)
        → (done : List Values) × IsMoving (state S.Store part.old.conn.now) done }
    ensures same_reference { part.new.conn.ghost_name ≡ part.old.conn.ghost_name }
    ensures dropped { HasCleanDisk (state S.Store part.new.conn.now) → OnOk result
        ((done : List Values) → IsMoving (state S.Store part.old.conn.now) done
        → IsMoved (state S.Store part.new.conn.now) done) }
    ensures kept { HasCleanDisk (state S.Store part.new.conn.now)
        → KeepsCommit (state S.Store part.old.conn.now) (state S.Store part.new.conn.now) }
    ensures halted { HasCleanDisk (state S.Store part.new.conn.now)
        → IfErr result (IsHalted S.Store part.new.conn.now) }
    ensures crash { Survives (state S.Store part.old.conn.now) (state S.Store part.new.conn.now)
        (λ _. ⊥) }
{
    part.execute("DROP TABLE ops", &[])
}

/// What a migration does within its transaction.
fn fill<S: Alter>(part: &mut Transaction<'_, S>, pairs: &[Row]) -> Result<(), Error>
    requires started { HasCleanDisk (state S.Store part.old.conn.now)
        → IsStarted (state S.Store part.old.conn.now) }
    requires pairs { All IsPair pairs.now }
    ensures same_reference { part.new.conn.ghost_name ≡ part.old.conn.ghost_name }
    ensures moved { HasCleanDisk (state S.Store part.new.conn.now)
        → OnOk result (IsMoved (state S.Store part.new.conn.now) (map moved pairs.now)) }
    ensures kept { HasCleanDisk (state S.Store part.new.conn.now)
        → KeepsCommit (state S.Store part.old.conn.now) (state S.Store part.new.conn.now) }
    ensures halted { HasCleanDisk (state S.Store part.new.conn.now)
        → IfErr result (IsHalted S.Store part.new.conn.now) }
    ensures crash { Survives (state S.Store part.old.conn.now) (state S.Store part.new.conn.now)
        (λ _. ⊥) }
{
    make_beside(part)?;
    move_rows(part, pairs)?;
    drop_older(part)?;
    Ok(())
}

/// Puts the newer table in the place of the older one, in one transaction.
fn swap<S: Alter>(database: &mut Connection<S>, pairs: &[Row]) -> Result<(), Error>
    requires alone { (state S.Store database.old).in_transaction ≡ false }
    requires older { HasCleanDisk (state S.Store database.old)
        → IsOlder (state S.Store database.old) }
    requires pairs { All IsPair pairs.now }
    ensures swapped { IfClean S.Store database.old database.new (λ s t.
        OnOk result (IsSwapped s t (map moved pairs.now))) }
    ensures refused { IfClean S.Store database.old database.new (λ s t.
        OnErr result (KeepsAll s t)) }
    ensures cause { IfClean S.Store database.old database.new (λ s t.
        IfErr result (IsNotSwapped S.Store database.new)) }
    ensures crash { Survives (state S.Store database.old) (state S.Store database.new)
        (IsSwap (map moved pairs.now)) }
{
    let mut part = database.transaction();
    fill(&mut part, pairs)?;
    part.commit()?;
    Ok(())
}

/// Moves each row of the older table, in one transaction. `BadRow` where one is that of no
/// operation, and then nothing is written.
pub(crate) fn migrate<S: Alter>(
    database: &mut Connection<S>,
    alloc: Global,
) -> Result<(), ShelfFault>
    requires older { IsOlder (state S.Store database.old) }
    ensures migrated { IfClean S.Store database.old database.new (λ s t.
        OnOk result (IsMigrated s t)) }
    ensures refused { IfClean S.Store database.old database.new (λ s t.
        OnErr result (KeepsAll s t)) }
    ensures bad_row { IfClean S.Store database.old database.new (λ s t.
        IsErrOf result ShelfFault.BadRow → HasBadPair s) }
    ensures store { IfClean S.Store database.old database.new (λ s t.
        IfStore result (λ why. IsNotMigrated S.Store why database.old database.new)) }
    ensures crash { Survives (state S.Store database.old) (state S.Store database.new)
        (IsMigration (state S.Store database.old)) }
{
    let pairs = older_rows(database)?;
    are_pairs(alloc, &pairs)?;
    swap(database, &pairs)?;
    Ok(())
}
