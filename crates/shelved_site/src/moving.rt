//! Brings the operations of one store into another.

ghost use Rattle.std.specs.Prelude.{◌≡◌, ◌⊎◌, ◌∷◌, [], All, IfErr, IfOk, OnOk, OnErr};
ghost use Rattle.operation.specs.declared.op.Op.{Op as Operation};
ghost use Rattle.op_shelf.specs.declared.fault.ShelfFault.{ShelfFault as Fault};
ghost use Rattle.op_shelf.specs.Keep.{AreSame};
ghost use Rattle.shelved_site.specs.Moving.{AreBrought, AreBroughtInPart, AreMoved, ArePut, HasSome, RefusesListed};
ghost use Rattle.shelved_site.specs.Moving.{count_new as count_of_new};
ghost use Rattle.shelved_site.specs.Readable.{Shown};
ghost use Rattle.shelved_site.specs.Recorded.{AreLoaded, HasOperation};

use crate::store::Store;
use crate::unreadable::{Readable, Unreadable};
use op_shelf::{Keep, Kept, ShelfFault};
use operation::Digested;
use records::RecordedOp;
use std::alloc::Global;
use thiserror::Error;

/// How many operations are put at once.
const GROUP: usize = 16;

/// Who hears how far a move is.
pub trait Following {
    /// So many operations were read, and are put next.
    fn has_read(&self, operations: usize);

    /// An operation can't be read, and is not moved.
    fn cannot_read(&self, unreadable: &Unreadable);

    /// So many of them were put.
    fn has_put(&self, operations: usize);
}

/// What a move brought.
#[derive(Clone, Copy, Debug, PartialEq, Eq)]
pub struct Moved {
    /// How many operations there were.
    pub operations: u64,
    /// How many of them were not there before.
    pub new: u64,
    /// How many of them can't be read, and did not come.
    pub unread: u64,
}

/// Which of the two stores refused, and why.
#[derive(Clone, Copy, Debug, PartialEq, Eq, Error)]
pub enum MoveFault {
    #[error("the store that is read refused")]
    From(ShelfFault),
    #[error("the store that is filled refused")]
    To(ShelfFault),
}

/// 1 where a put found an operation that was not there, and else 0.
fn one_if_new(kept: Kept) -> u64
    ensures { result ≡ count_of_new (kept ∷ []) }
{
    match kept {
        Kept::New => 1,
        Kept::Known => 0,
    }
}

/// How many of some puts found an operation that was not there.
fn count_new(kepts: &[Kept]) -> u64
    ensures { result ≡ count_of_new kepts.now }
{
    let mut new = 0;
    for kept in kepts {
        new += one_if_new(*kept);
    }
    new
}

/// Puts a group of operations into a store, and tells how many were not there.
fn put_group<T: Store>(to: &mut T, ops: &[Digested]) -> Result<u64, ShelfFault>
    ensures put { T.is_up to.new → IfOk result (ArePut (T.holds to.old) (T.holds to.new) ops.now) }
    ensures refused { T.is_up to.new → OnErr result (AreSame (T.holds to.old) (T.holds to.new)) }
    ensures up { T.is_up to.new → T.is_up to.old }
    ensures lasting { T.is_up to.new → OnOk result (All (T.lasts to.new) ops.now) }
    ensures kept { T.is_up to.new → (op : Operation) → T.lasts to.old op → T.lasts to.new op }
{
    let kepts = to.put_many(ops)?;
    Ok(count_new(&kepts))
}

/// Loads the operations of a group of records. The store is only read.
fn load_group<F: Store>(
    alloc: Global,
    from: &mut F,
    recorded: &[RecordedOp],
) -> Result<Vec<Digested>, ShelfFault>
    ensures loaded { F.is_clean from.new → (first : F) → F.is_same first from.old
        → IfOk result (λ ops. AreLoaded (Shown (F.shows first)) recorded.now ops.items) }
    ensures same { F.is_clean from.new → (first : F) → F.is_same first from.old
        → OnOk result (F.is_same first from.new) }
    ensures refused { F.is_clean from.new → (first : F) → F.is_same first from.old
        → OnErr result (F.spares first from.new) }
    ensures why { F.is_clean from.new → (first : F) → F.is_same first from.old
        → All (HasOperation (Shown (F.shows first))) recorded.now → IfErr result (λ told.
        RefusesListed (F.is_same first) (Shown (F.shows first))
        (λ before digest. F.refuses_load before from.new digest told)) }
    ensures clean { F.is_clean from.new → F.is_clean from.old }
{
    let mut ops = Vec::new(alloc);
    for one in recorded {
        let op = from.load_recorded(one)?;
        ops.push(op)?;
    }
    Ok(ops)
}

/// Brings the operations of a group of records from one store into another, and tells how many were
/// not there. They are let go behind it.
fn move_group<F: Store, T: Store>(
    alloc: Global,
    from: &mut F,
    to: &mut T,
    recorded: &[RecordedOp],
) -> Result<u64, MoveFault>
    ensures moved { F.is_clean from.new → T.is_up to.new → (first : F) → F.is_same first from.old
        → IfOk result (AreBrought (Shown (F.shows first)) (T.holds to.old) (T.holds to.new)
        (T.lasts to.new) recorded.now) }
    ensures refused { T.is_up to.new → OnErr result (AreSame (T.holds to.old) (T.holds to.new)) }
    ensures up { T.is_up to.new → T.is_up to.old }
    ensures kept { T.is_up to.new → (op : Operation) → T.lasts to.old op → T.lasts to.new op }

    // The first is only read.
    ensures same { F.is_clean from.new → (first : F) → F.is_same first from.old
        → OnOk result (F.is_same first from.new) }
    ensures read { F.is_clean from.new → (first : F) → F.is_same first from.old
        → F.spares first from.new }
    ensures unread { F.is_clean from.new → (first : F) → F.is_same first from.old
        → All (HasOperation (Shown (F.shows first))) recorded.now → IfErr result (λ fault.
        (told : Fault) → fault ≡ MoveFault.From told → RefusesListed (F.is_same first) (Shown (F.shows first))
        (λ before digest. F.refuses_load before from.new digest told)) }
    ensures clean { F.is_clean from.new → F.is_clean from.old }
{
    let ops = match load_group(alloc, from, recorded) {
        Ok(ops) => ops,
        Err(fault) => return Err(MoveFault::From(fault)),
    };
    match put_group(to, &ops) {
        Ok(new) => Ok(new),
        Err(fault) => Err(MoveFault::To(fault)),
    }
}

/// Brings the operations of records from one store into another, group after group, and tells how
/// many were not there. One group at a time is in memory.
fn move_groups<F: Store, T: Store, H: Following>(
    from: &mut F,
    to: &mut T,
    recorded: Vec<RecordedOp>,
    hearing: &H,
) -> Result<u64, MoveFault>
    ensures moved { F.is_clean from.new → T.is_up to.new → (first : F) → F.is_same first from.old
        → IfOk result (AreBrought (Shown (F.shows first)) (T.holds to.old) (T.holds to.new)
        (T.lasts to.new) recorded.items) }
    ensures part { F.is_clean from.new → T.is_up to.new → (first : F) → F.is_same first from.old
        → OnErr result (AreBroughtInPart (Shown (F.shows first)) (T.holds to.old)
        (T.holds to.new) recorded.items) }
    ensures kept { T.is_up to.new → (op : Operation) → T.lasts to.old op → T.lasts to.new op }

    // The first is only read.
    ensures read { F.is_clean from.new → (first : F) → F.is_same first from.old
        → F.spares first from.new }
    ensures unread { F.is_clean from.new → (first : F) → F.is_same first from.old
        → All (HasOperation (Shown (F.shows first))) recorded.items → IfErr result (λ fault.
        (told : Fault) → fault ≡ MoveFault.From told → RefusesListed (F.is_same first) (Shown (F.shows first))
        (λ before digest. F.refuses_load before from.new digest told)) }
    ensures clean { F.is_clean from.new → F.is_clean from.old }
{
    let alloc = *recorded.allocator();
    let mut new = 0u64;
    let mut done = 0usize;
    for group in recorded.chunks(GROUP) {
        let more = move_group(alloc, from, to, group)?;
        new = new.saturating_add(more);
        done = done.saturating_add(group.len());
        hearing.has_put(done);
    }
    Ok(new)
}

/// Tells that so many operations were read, and which can't be.
fn tell_each<H: Following>(hearing: &H, operations: usize, unreadable: &[Unreadable]) {
    for one in unreadable {
        hearing.cannot_read(one);
    }
    hearing.has_read(operations);
}

/// Brings all operations of one store that can be read into another, group after group, and tells
/// how many there were, how many of them were new and how many can't be read. What is there already
/// is not written again, so that a move that broke off goes on where it is begun anew. The first is
/// only read, twice: for the records of all, which are held meanwhile, and then for the operations
/// themselves, of which one group at a time is in memory. One that could be read first and no more
/// then ends the move.
pub fn move_all<F: Store, T: Store, H: Following>(
    from: &mut F,
    to: &mut T,
    hearing: &H,
) -> Result<Moved, MoveFault>
    // The second holds what it held, and all of the first that can be read; the rest is counted.
    ensures moved { F.is_clean from.new → T.is_up to.new → IfOk result
        (AreMoved (F.shows from.old) (T.holds to.old) (T.holds to.new) (T.lasts to.new)) }
    // A refusal leaves it with what it held, and some of the first, or none.
    ensures part { F.is_clean from.new → T.is_up to.new → OnErr result
        (HasSome (Shown (F.shows from.old)) (T.holds to.old) (T.holds to.new)) }
    ensures kept { T.is_up to.new → (op : Operation) → T.lasts to.old op → T.lasts to.new op }
    ensures read { F.is_clean from.new → F.spares from.old from.new }
    // The first is told as refusing only where it had cause to, as its operations were recorded or
    // one of them was loaded.
    ensures unread { F.is_clean from.new → IfErr result (λ fault. (told : Fault)
        → fault ≡ MoveFault.From told → F.refuses_all from.old from.new told
        ⊎ RefusesListed (F.is_same from.old) (Shown (F.shows from.old))
        (λ before digest. F.refuses_load before from.new digest told)) }
{
    let Readable {
        recorded,
        unreadable,
    } = match from.readable() {
        Ok(found) => found,
        Err(fault) => return Err(MoveFault::From(fault)),
    };
    let (read, unread) = (recorded.len(), unreadable.len());
    tell_each(hearing, read, &unreadable);
    match move_groups(from, to, recorded, hearing) {
        Ok(new) => Ok(Moved {
            operations: read as u64 + unread as u64,
            new,
            unread: unread as u64,
        }),
        Err(fault) => Err(fault),
    }
}
