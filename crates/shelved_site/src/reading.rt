//! Reads what can be read of a log.

ghost use Rattle.std.specs.Prelude.{◌≡◌, ◌<◌, false, All, length, map, IfOk, IfErr, IsErrOf, IsTrue};
ghost use Rattle.sqlite_disk.specs.Disk.{MoreFaults};
ghost use Rattle.op_log.specs.Fault.{IsOfSorting};
ghost use Rattle.op_log.specs.Log.{GoesOn, Looks};
ghost use Rattle.op_log.specs.Recorded.{IsRecordedAs};
ghost use Rattle.shelved_site.specs.Readable.{AreParts, unread_at};
ghost use Rattle.op_log.specs.Readable.{IsAmiss};

use crate::unreadable::{Readable, Unreadable};
use op_log::{LogFault, OpLog};
use records::RecordedContent;
use sqlite_disk::Disk;
use std::alloc::{AllocError, Global};
use std::mem::replace;

/// What is told of the operation at an index.
fn told_at<H: Disk, B: Disk>(
    alloc: Global,
    log: &OpLog<H, B>,
    index: usize,
) -> Result<Unreadable, AllocError>
    requires within { index < length log.now.places }
    ensures { IfOk result (λ unread. unread ≡ unread_at log.now.places index) }
{
    let Some(head) = log.record(index) else {
        unreachable!()
    };
    Unreadable::of_head(alloc, &head)
}

/// What is told of the operations at some indexes.
fn told_at_each<H: Disk, B: Disk>(
    alloc: Global,
    log: &OpLog<H, B>,
    indexes: &[usize],
) -> Result<Vec<Unreadable>, AllocError>
    requires within { All (λ i. i < length log.now.places) indexes.now }
    ensures { IfOk result (λ told. told.items ≡ map (unread_at log.now.places) indexes.now) }
{
    let mut told = Vec::new(alloc);
    for index in indexes {
        told.push(told_at(alloc, log, *index)?)?;
    }
    Ok(told)
}

/// The records of all operations of a log that can be read, and what is told of the others. One of
/// a content that is told is taken as it is.
pub(crate) fn read_log<H: Disk, B: Disk>(
    alloc: Global,
    log: &mut OpLog<H, B>,
    told: &[RecordedContent],
) -> Result<Readable, LogFault>
    ensures read { IfOk result (λ found. IsTrue (B.Disk.is_clean log.new.bodies)
        → AreParts (IsRecordedAs (B.Disk.seen log.old.bodies) told.now)
        (IsAmiss (B.Disk.seen log.old.bodies) (B.Disk.faults log.old.bodies)
        (B.Disk.faults log.new.bodies))
        log.old.places found.unreadable.items found.recorded.items) }
    ensures looks { Looks log.old log.new }
    ensures seen { B.Disk.seen log.new.bodies ≡ B.Disk.seen log.old.bodies }
    ensures goes_on { GoesOn H.Disk B.Disk log.old log.new }
    // Each fault, only where it is.
    ensures closed { IsErrOf result LogFault.Closed → B.Disk.is_usable log.old.bodies ≡ false }
    ensures only { IfErr result IsOfSorting }
{
    let mut found = log.readable(alloc, told)?;
    let unreadable = told_at_each(alloc, log, found.unreadable.as_slice())?;
    Ok(Readable {
        recorded: replace(&mut found.recorded, Vec::new(alloc)),
        unreadable,
    })
}
