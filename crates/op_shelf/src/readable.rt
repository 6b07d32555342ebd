//! The walk that records the operations that can be read, and tells of the rows that are none.

ghost use Rattle.std.specs.Prelude.{◌≡◌, ◌≢◌, [], map, IfOk, IfErr, IsErrOf, OnOk, IsSorted};
ghost use Rattle.sqlite.specs.Held.{state};
ghost use Rattle.sqlite.specs.State.{HasCleanDisk};
ghost use Rattle.operation.specs.Reading.{IsOp};
ghost use Rattle.op_shelf.specs.Entries.{HasBadRow, entries, entry_of, own_entry};
ghost use Rattle.op_shelf.specs.Fault.{IsNoStore};
ghost use Rattle.op_shelf.specs.Recording.{AreAscending, AreRead, AreAllRead, IsRead, IsRecorded, Records};
ghost use Rattle.op_shelf.specs.States.{IfClean, rows_of, digest_cmp};
ghost use Rattle.op_shelf.specs.Table.{IsShelf};
ghost use Rattle.op_shelf.specs.Walking.{IsWalking, Looks, Walks};

use crate::damaged::{Damaged, put_in_order};
use crate::fault::{ShelfFault, StoreCause};
use crate::order::put_records_in_order;
use crate::rows::op_of;
use crate::shelf::Shelf;
use crate::table::is_ready;
use crate::verifying::tell_one;
use crate::walk::{MOST_ROWS, step};
use operation::Digested;
use records::RecordedOp;
use sqlite::{Alter, Connection, Row, Rows};
use std::alloc::Global;

/// What the rows of a shelf are, each an operation under its digest or none.
#[derive(Debug, Drop)]
pub struct Readable {
    /// The records of the operations, ascending by digest.
    pub recorded: Vec<RecordedOp>,
    /// What is told of the other rows, ascending by the texts of their digests.
    pub unreadable: Vec<Damaged>,
}

/// Records an operation behind others.
fn record_one(
    alloc: Global,
    op: &Digested,
    recorded: &mut Vec<RecordedOp>,
) -> Result<(), ShelfFault>
    requires lawful { IsOp op.now }
    ensures added { OnOk result
        (IsRecorded (entry_of op.now) recorded.old.items recorded.new.items) }
    ensures memory { IfErr result (λ fault. fault ≡ ShelfFault.Memory) }
{
    let made = RecordedOp::of(alloc, op)?;
    recorded.push(made)?;
    Ok(())
}

/// Reads an entry: records its operation behind others, and lets its data set go, or tells of it
/// where it is none of an operation.
fn read_one(
    alloc: Global,
    entry: &Row,
    recorded: &mut Vec<RecordedOp>,
    unreadable: &mut Vec<Damaged>,
) -> Result<(), ShelfFault>
    ensures read { OnOk result (IsRead entry.now recorded.old.items unreadable.old.items
        recorded.new.items unreadable.new.items) }
    ensures row { ¬ IsErrOf result ShelfFault.BadRow }
    ensures only { IfErr result IsNoStore }
{
    match op_of(alloc, entry) {
        Ok(op) => record_one(alloc, &op, recorded),
        Err(ShelfFault::BadRow) => tell_one(alloc, entry, unreadable),
        Err(fault) => Err(fault),
    }
}

/// Reads the entries that are to come. Each row is let go before the next is read.
fn read_rest<S: Alter>(
    rows: &mut Rows<'_, S>,
    alloc: Global,
    recorded: &mut Vec<RecordedOp>,
    unreadable: &mut Vec<Damaged>,
) -> Result<(), ShelfFault>
    requires walking { HasCleanDisk (state S.Store rows.old.conn.now)
        → IsWalking S.Store rows.old.conn.now [] }
    requires none { (recorded.old.items ≡ []) × (unreadable.old.items ≡ []) }
    ensures same_reference { rows.new.conn.ghost_name ≡ rows.old.conn.ghost_name }
    ensures walks { Walks S.Store rows.old.conn.now rows.new.conn.now result }
    ensures read { IfClean S.Store rows.old.conn.now rows.new.conn.now (λ s t. OnOk result
        (AreRead (entries (rows_of s)) recorded.new.items unreadable.new.items)) }
    ensures row { ¬ IsErrOf result ShelfFault.BadRow }
{
    'rows: for _ in 0..MOST_ROWS {
        step(rows)?;
        let Some(row) = rows.get() else {
            return Ok(());
        };
        read_one(alloc, row, recorded, unreadable)?;
    }
    Err(ShelfFault::Memory)
}

/// Reads all entries, in the order of the table.
fn read_rows<S: Alter>(
    database: &mut Connection<S>,
    alloc: Global,
    recorded: &mut Vec<RecordedOp>,
    unreadable: &mut Vec<Damaged>,
) -> Result<(), ShelfFault>
    requires shelf { IsShelf (state S.Store database.old).now.schema }
    requires none { (recorded.old.items ≡ []) × (unreadable.old.items ≡ []) }
    ensures walks { Walks S.Store database.old database.new result }
    ensures read { IfClean S.Store database.old database.new (λ s t. OnOk result
        (AreRead (entries (rows_of s)) recorded.new.items unreadable.new.items)) }
    ensures row { ¬ IsErrOf result ShelfFault.BadRow }
{
    let mut rows = database.query("SELECT digest, kind, body FROM ops2", &[])?;
    read_rest(&mut rows, alloc, recorded, unreadable)
}

/// The same, ascending by the texts of the digests.
fn read_table<S: Alter>(database: &mut Connection<S>, alloc: Global) -> Result<Readable, ShelfFault>
    requires shelf { IsShelf (state S.Store database.old).now.schema }
    ensures walks { Walks S.Store database.old database.new result }
    ensures read { IfClean S.Store database.old database.new (λ s t. IfOk result (λ told.
        AreRead (entries (rows_of s)) told.recorded.items told.unreadable.items)) }
    ensures ascending { IfOk result (λ told.
        AreAscending told.recorded.items told.unreadable.items) }
    ensures row { ¬ IsErrOf result ShelfFault.BadRow }
{
    let mut recorded = Vec::new(alloc);
    let mut unreadable = Vec::new(alloc);
    match read_rows(database, alloc, &mut recorded, &mut unreadable) {
        Ok(()) => {
            put_records_in_order(&mut recorded);
            put_in_order(&mut unreadable);
            Ok(Readable {
                recorded,
                unreadable,
            })
        }
        Err(fault) => Err(fault),
    }
}

/// The records of all operations, where each row is one.
fn whole(told: Readable) -> Result<Vec<RecordedOp>, ShelfFault>
    ensures all { IfOk result (λ recorded. (told.unreadable.items ≡ [])
        × (recorded.items ≡ told.recorded.items)) }
    ensures bad { IsErrOf result ShelfFault.BadRow → told.unreadable.items ≢ [] }
    ensures only { IfErr result IsNoStore }
{
    let Readable {
        recorded,
        unreadable,
    } = told;
    if !unreadable.is_empty() {
        return Err(ShelfFault::BadRow);
    }
    Ok(recorded)
}

/// The records of all operations, ascending by the texts of their digests.
pub(crate) fn all_records<S: Alter>(
    database: &mut Connection<S>,
    alloc: Global,
) -> Result<Vec<RecordedOp>, ShelfFault>
    requires shelf { IsShelf (state S.Store database.old).now.schema }
    ensures walks { Walks S.Store database.old database.new result }
    ensures all { IfClean S.Store database.old database.new (λ s t.
        IfOk result (λ recorded. Records (rows_of s) recorded.items)) }
    ensures ascending { IfOk result (λ recorded.
        IsSorted digest_cmp (map own_entry recorded.items)) }
    ensures bad_row { IfClean S.Store database.old database.new (λ s t.
        IsErrOf result ShelfFault.BadRow → HasBadRow (rows_of s)) }
{
    match read_table(database, alloc) {
        Ok(told) => whole(told),
        Err(fault) => Err(fault),
    }
}

impl<S: Alter> Shelf<S> {
    /// The records of all rows that are operations under their digests, and what `verify` tells of
    /// the others. Each operation is read and hashed once, to test its row, and let go before the
    /// next is read. The records stand for the operations.
    pub fn readable(&mut self) -> Result<Readable, ShelfFault>
        ensures read { IfClean S.Store self.old self.new (λ s t. IfOk result (λ told.
            AreRead (entries (rows_of s)) told.recorded.items told.unreadable.items)) }
        ensures whole { IfClean S.Store self.old self.new (λ s t. ¬ HasBadRow (rows_of s)
            → IfOk result (λ told.
            AreAllRead (rows_of s) told.recorded.items told.unreadable.items)) }
        ensures ascending { IfOk result (λ told.
            AreAscending told.recorded.items told.unreadable.items) }

        // A row that is none of an operation is no fault here.
        ensures row { ¬ IsErrOf result ShelfFault.BadRow }
        ensures looks { Looks S.Store self.old self.new result }
    {
        if !is_ready(&self.database) {
            return Err(ShelfFault::Store(StoreCause::Other));
        }
        read_table(&mut self.database, self.alloc)
    }
}
