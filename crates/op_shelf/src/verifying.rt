//! Tests each row against the digest under which it stands.

ghost use Rattle.std.specs.Prelude.{◌≡◌, ◌⊎◌, ◌++◌, ◌∷◌, [], IfOk, IfErr, IsErrOf, OnOk, OnErr, IsSorted};
ghost use Rattle.sqlite.specs.Held.{state};
ghost use Rattle.sqlite.specs.Order.{column};
ghost use Rattle.sqlite.specs.State.{HasCleanDisk, IsUnchanged, Survives};
ghost use Rattle.op_shelf.specs.Damage.{AreVerified, IsTested, text_in, bytes_in, damage_of, damaged_cmp};
ghost use Rattle.op_shelf.specs.Fault.{IfStore, IsNoStore};
ghost use Rattle.op_shelf.specs.States.{IfClean, KeepsAll, Spares, IsNotShown, IsUnready, rows_of};
ghost use Rattle.op_shelf.specs.Table.{IsShelf};
ghost use Rattle.op_shelf.specs.Texts.{all_text};
ghost use Rattle.op_shelf.specs.Walking.{IsWalking, Walks};

use crate::damaged::{Damaged, Testing, Verified, put_in_order};
use crate::fault::{ShelfFault, StoreCause};
use crate::rows::op_of;
use crate::shelf::Shelf;
use crate::table::is_ready;
use crate::walk::{MOST_ROWS, step};
use sqlite::types::ValueRef;
use sqlite::{Alter, Connection, Row, Rows};
use std::alloc::{AllocError, Global};

/// The text in the first column.
fn text_of(entry: &Row) -> &[u8]
    ensures { result.now ≡ text_in (column entry.now 0) }
{
    match entry.get_ref(0) {
        Ok(ValueRef::Text(text)) => text,
        _ => &[],
    }
}

/// The bytes in the third.
fn bytes_of(entry: &Row) -> &[u8]
    ensures { result.now ≡ bytes_in (column entry.now 2) }
{
    match entry.get_ref(2) {
        Ok(ValueRef::Blob(bytes)) => bytes,
        _ => &[],
    }
}

/// What is told of an entry that is none of an operation.
fn told_of(alloc: Global, entry: &Row) -> Result<Damaged, AllocError>
    ensures { IfOk result (λ damaged. damaged ≡ damage_of entry.now) }
{
    Damaged::of(alloc, text_of(entry), bytes_of(entry))
}

/// Tells of an entry behind others.
pub(crate) fn tell_one(
    alloc: Global,
    entry: &Row,
    damaged: &mut Vec<Damaged>,
) -> Result<(), ShelfFault>
    ensures told { OnOk result
        (damaged.new.items ≡ damaged.old.items ++ damage_of entry.now ∷ []) }
    ensures memory { IfErr result (λ fault. fault ≡ ShelfFault.Memory) }
{
    damaged.push(told_of(alloc, entry)?)?;
    Ok(())
}

/// Tests an entry, and tells of it behind others where it is none of an operation.
fn test_one(alloc: Global, entry: &Row, damaged: &mut Vec<Damaged>) -> Result<(), ShelfFault>
    ensures tested { OnOk result (IsTested entry.now damaged.old.items damaged.new.items) }
    ensures row { ¬ IsErrOf result ShelfFault.BadRow }
    ensures only { IfErr result IsNoStore }
{
    match op_of(alloc, entry) {
        Ok(_) => Ok(()),
        Err(ShelfFault::BadRow) => tell_one(alloc, entry, damaged),
        Err(fault) => Err(fault),
    }
}

/// Tests the entries that are to come, and tells how many there were. Each row is let go before the
/// next is read.
fn test_rest<S: Alter, T: Testing>(
    rows: &mut Rows<'_, S>,
    alloc: Global,
    hearing: &T,
    damaged: &mut Vec<Damaged>,
) -> Result<u64, ShelfFault>
    requires walking { HasCleanDisk (state S.Store rows.old.conn.now)
        → IsWalking S.Store rows.old.conn.now [] }
    requires none { damaged.old.items ≡ [] }
    ensures same_reference { rows.new.conn.ghost_name ≡ rows.old.conn.ghost_name }
    ensures walks { Walks S.Store rows.old.conn.now rows.new.conn.now result }
    ensures tested { IfClean S.Store rows.old.conn.now rows.new.conn.now (λ s t. IfOk result
        (λ operations. AreVerified (rows_of s) operations damaged.new.items)) }
    ensures row { ¬ IsErrOf result ShelfFault.BadRow }
{
    'rows: for operations in 0..MOST_ROWS {
        step(rows)?;
        let Some(row) = rows.get() else {
            return Ok(operations);
        };
        test_one(alloc, row, damaged)?;
        hearing.has_tested(operations + 1);
    }
    Err(ShelfFault::Memory)
}

/// Tests all entries, in the order of the table.
fn test_rows<S: Alter, T: Testing>(
    database: &mut Connection<S>,
    alloc: Global,
    hearing: &T,
    damaged: &mut Vec<Damaged>,
) -> Result<u64, ShelfFault>
    requires shelf { IsShelf (state S.Store database.old).now.schema }
    requires none { damaged.old.items ≡ [] }
    ensures walks { Walks S.Store database.old database.new result }
    ensures tested { IfClean S.Store database.old database.new (λ s t. IfOk result
        (λ operations. AreVerified (rows_of s) operations damaged.new.items)) }
    ensures row { ¬ IsErrOf result ShelfFault.BadRow }
{
    let mut rows = database.query("SELECT digest, kind, body FROM ops2", &[])?;
    test_rest(&mut rows, alloc, hearing, damaged)
}

/// The same, ascending by the texts of the digests.
fn verify_rows<S: Alter, T: Testing>(
    database: &mut Connection<S>,
    alloc: Global,
    hearing: &T,
) -> Result<Verified, ShelfFault>
    requires shelf { IsShelf (state S.Store database.old).now.schema }
    ensures tested { IfClean S.Store database.old database.new (λ s t. IfOk result
        (λ told. AreVerified (rows_of s) told.operations told.damaged.items)) }
    ensures ascending { IfOk result (λ told. IsSorted damaged_cmp told.damaged.items) }
    ensures same { IfClean S.Store database.old database.new (λ s t.
        OnOk result (IsUnchanged s t)) }
    ensures refused { IfClean S.Store database.old database.new (λ s t. OnErr result (Spares s t)) }
    ensures row { ¬ IsErrOf result ShelfFault.BadRow }
    ensures store { IfClean S.Store database.old database.new (λ s t.
        IfStore result (λ why. IsNotShown why all_text [] s t)) }
    ensures crash { Survives (state S.Store database.old) (state S.Store database.new) (λ _. ⊥) }
{
    let mut damaged = Vec::new(alloc);
    match test_rows(database, alloc, hearing, &mut damaged) {
        Ok(operations) => {
            put_in_order(&mut damaged);
            Ok(Verified {
                operations,
                damaged,
            })
        }
        Err(fault) => Err(fault),
    }
}

impl<S: Alter> Shelf<S> {
    /// Tests each row against the digest under which it stands: how many there are, and those that
    /// are none of an operation, ascending by the texts of their digests. One row at a time is in
    /// memory.
    pub fn verify<T: Testing>(&mut self, hearing: &T) -> Result<Verified, ShelfFault>
        ensures tested { IfClean S.Store self.old self.new (λ s t. IfOk result
            (λ told. AreVerified (rows_of s) told.operations told.damaged.items)) }
        ensures ascending { IfOk result (λ told. IsSorted damaged_cmp told.damaged.items) }
        ensures same { IfClean S.Store self.old self.new (λ s t. OnOk result (IsUnchanged s t)) }
        ensures refused { IfClean S.Store self.old self.new (λ s t. OnErr result (KeepsAll s t)) }

        // Each fault, only where it is. A row that is none of an operation is no fault here.
        ensures row { ¬ IsErrOf result ShelfFault.BadRow }
        ensures store { IfClean S.Store self.old self.new (λ s t. IfStore result (λ why.
            IsUnready why s ⊎ IsNotShown why all_text [] s t)) }
        ensures crash { Survives (state S.Store self.old) (state S.Store self.new) (λ _. ⊥) }
    {
        if !is_ready(&self.database) {
            return Err(ShelfFault::Store(StoreCause::Other));
        }
        verify_rows(&mut self.database, self.alloc, hearing)
    }
}
