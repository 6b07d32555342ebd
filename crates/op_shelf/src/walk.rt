//! The walk over all entries, a row at a time.

ghost use Rattle.std.specs.Prelude.{◌≡◌, ◌++◌, ◌∷◌, map, [], List, IfOk, IfErr, IsErrOf, OnOk, OnErr, IsSorted};
ghost use Rattle.sqlite.specs.Given.{row_if};
ghost use Rattle.sqlite.specs.Held.{state};
ghost use Rattle.sqlite.specs.Order.{Row};
ghost use Rattle.sqlite.specs.State.{HasCleanDisk, IsUnchanged, Survives};
ghost use Rattle.op_shelf.specs.Entries.{Lists, HasBadRow, IsEntry, entry_of};
ghost use Rattle.op_shelf.specs.Fault.{IfStore, IsNoStore};
ghost use Rattle.op_shelf.specs.States.{IfClean, Spares, IsNotShown, rows_of, digest_cmp};
ghost use Rattle.op_shelf.specs.Table.{IsShelf};
ghost use Rattle.op_shelf.specs.Texts.{all_text};
ghost use Rattle.op_shelf.specs.Walking.{IsWalking, GivesRow, Walks};
ghost use Rattle.op_shelf.specs.declared.walk.TheConstants.{MOST_ROWS};

use crate::fault::ShelfFault;
use crate::order::put_in_order;
use crate::rows::op_of;
use operation::Digested;
use sqlite::{Alter, Connection, Row, Rows};
use std::alloc::Global;

/// How many rows are read, at most.
pub(crate) const MOST_ROWS: u64 = 18_446_744_073_709_551_615;

/// How many rows are read, at most: as many as a number of 64 bits counts.
pub fn limits_are_these()
    ensures rows { MOST_ROWS ≡ 18446744073709551615 }
{}

/// Adds the operation of an entry to those so far.
fn add_op(alloc: Global, entry: &Row, ops: &mut Vec<Digested>) -> Result<(), ShelfFault>
    ensures added { OnOk result (map entry_of ops.new.items
        ≡ map entry_of ops.old.items ++ entry.now ∷ []) }
    ensures bad { IsErrOf result ShelfFault.BadRow → ¬ IsEntry entry.now }
    ensures only { IfErr result IsNoStore }
{
    let op = op_of(alloc, entry)?;
    ops.push(op)?;
    Ok(())
}

/// Moves to the next row of a walk, or past the last.
pub(crate) fn step<S: Alter>(rows: &mut Rows<'_, S>) -> Result<(), ShelfFault>
    requires walking { HasCleanDisk (state S.Store rows.old.conn.now)
        → (given : List Row) × IsWalking S.Store rows.old.conn.now given }
    ensures same_reference { rows.new.conn.ghost_name ≡ rows.old.conn.ghost_name }
    ensures walks { Walks S.Store rows.old.conn.now rows.new.conn.now result }
    ensures gives { HasCleanDisk (state S.Store rows.new.conn.now) → OnOk result
        ((given : List Row) → IsWalking S.Store rows.old.conn.now given
        → GivesRow S.Store rows.old.conn.now rows.new.conn.now given
        (row_if rows.new.has_row rows.new.conn.now)) }
    ensures row { ¬ IsErrOf result ShelfFault.BadRow }
{
    match rows.advance() {
        Ok(()) => Ok(()),
        Err(error) => Err(ShelfFault::from(error)),
    }
}

/// Adds the operations of the rows that are to come to those so far. Each row is let go before the
/// next is read.
fn add_rest<S: Alter>(
    rows: &mut Rows<'_, S>,
    alloc: Global,
    ops: &mut Vec<Digested>,
) -> Result<(), ShelfFault>
    requires walking { HasCleanDisk (state S.Store rows.old.conn.now)
        → IsWalking S.Store rows.old.conn.now (map entry_of ops.old.items) }
    ensures same_reference { rows.new.conn.ghost_name ≡ rows.old.conn.ghost_name }
    ensures walks { Walks S.Store rows.old.conn.now rows.new.conn.now result }
    ensures all { IfClean S.Store rows.old.conn.now rows.new.conn.now (λ s t.
        OnOk result (Lists (rows_of s) ops.new.items)) }
    ensures bad_row { IfClean S.Store rows.old.conn.now rows.new.conn.now (λ s t.
        IsErrOf result ShelfFault.BadRow → HasBadRow (rows_of s)) }
{
    'rows: for _ in 0..MOST_ROWS {
        step(rows)?;
        let Some(row) = rows.get() else {
            return Ok(());
        };
        add_op(alloc, row, ops)?;
    }
    Err(ShelfFault::Memory)
}

/// The operations of the entries with their digests, in the order of the table.
fn read_ops<S: Alter>(
    database: &mut Connection<S>,
    alloc: Global,
    ops: &mut Vec<Digested>,
) -> Result<(), ShelfFault>
    requires shelf { IsShelf (state S.Store database.old).now.schema }
    requires none { ops.old.items ≡ [] }
    ensures walks { Walks S.Store database.old database.new result }
    ensures all { IfClean S.Store database.old database.new (λ s t.
        OnOk result (Lists (rows_of s) ops.new.items)) }
    ensures bad_row { IfClean S.Store database.old database.new (λ s t.
        IsErrOf result ShelfFault.BadRow → HasBadRow (rows_of s)) }
{
    let mut rows = database.query("SELECT digest, kind, body FROM ops2", &[])?;
    add_rest(&mut rows, alloc, ops)
}

/// The operations of the entries with their digests, ascending by the texts of these. They are
/// sorted here: by the index of the digests each row would be looked up, into memory of its own.
pub(crate) fn all_ops<S: Alter>(
    database: &mut Connection<S>,
    alloc: Global,
) -> Result<Vec<Digested>, ShelfFault>
    requires shelf { IsShelf (state S.Store database.old).now.schema }
    ensures all { IfClean S.Store database.old database.new (λ s t.
        IfOk result (λ ops. Lists (rows_of s) ops.items)) }
    ensures ascending { IfClean S.Store database.old database.new (λ s t.
        IfOk result (λ ops. IsSorted digest_cmp (map entry_of ops.items))) }
    ensures same { IfClean S.Store database.old database.new (λ s t.
        OnOk result (IsUnchanged s t)) }
    ensures refused { IfClean S.Store database.old database.new (λ s t. OnErr result (Spares s t)) }
    ensures bad_row { IfClean S.Store database.old database.new (λ s t.
        IsErrOf result ShelfFault.BadRow → HasBadRow (rows_of s)) }
    ensures store { IfClean S.Store database.old database.new (λ s t.
        IfStore result (λ why. IsNotShown why all_text [] s t)) }
    ensures crash { Survives (state S.Store database.old) (state S.Store database.new) (λ _. ⊥) }
{
    let mut ops = Vec::new(alloc);
    match read_ops(database, alloc, &mut ops) {
        Ok(()) => {
            put_in_order(&mut ops);
            Ok(ops)
        }
        Err(fault) => Err(fault),
    }
}
