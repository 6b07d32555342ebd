//! Tests the operations of a log against their digests.

ghost use Rattle.std.specs.Prelude.{◌≡◌, ℕ, false, Some, slice_get, IfOk, IfErr, IsErrOf};
ghost use Rattle.std.specs.Prelude.{IsTrue, OnErr, OnOk};
ghost use Rattle.sqlite_disk.specs.Disk.{MoreFaults};
ghost use Rattle.op_log.specs.Fault.{IsOfLook};
ghost use Rattle.op_log.specs.Heads.{Head};
ghost use Rattle.op_log.specs.Log.{GoesOn, Looks};
ghost use Rattle.op_log.specs.Staged.{StaysOrRises};
ghost use Rattle.op_shelf.specs.Keep.{AreSame};
ghost use Rattle.shelved_site.specs.Keeping.{Holds, IsUp};
ghost use Rattle.shelved_site.specs.Stores.{IsSame};
ghost use Rattle.shelved_site.specs.Verifying.{AreTold, IsTestedAs, IsTestedOf};

use crate::unreadable::damage_of_head;
use op_log::{LogFault, OpLog};
use op_shelf::{Damaged, Testing};
use sqlite_disk::Disk;
use std::alloc::Global;

/// Whether the operation at an index has its digest. One that the disk fails to read has not.
fn is_whole_at<H: Disk, B: Disk>(log: &mut OpLog<H, B>, index: usize) -> Result<bool, LogFault>
    ensures tested { IfOk result (λ whole. IsTrue (B.Disk.is_clean log.new.bodies) → (h : Head)
        → slice_get log.old.places index ≡ Some h → IsTestedAs (B.Disk.seen log.old.bodies)
        (MoreFaults (B.Disk.faults log.old.bodies) (B.Disk.faults log.new.bodies)) h whole) }
    ensures rises { OnOk result
        (StaysOrRises (B.Disk.faults log.old.bodies) (B.Disk.faults log.new.bodies)) }
    // Nothing is changed.
    ensures looks { Looks log.old log.new }
    ensures seen { B.Disk.seen log.new.bodies ≡ B.Disk.seen log.old.bodies }
    ensures usable { B.Disk.is_usable log.new.bodies ≡ B.Disk.is_usable log.old.bodies }
    ensures goes_on { GoesOn H.Disk B.Disk log.old log.new }
    // Each fault, only where it is.
    ensures closed { IsErrOf result LogFault.Closed → B.Disk.is_usable log.old.bodies ≡ false }
    ensures disk { ¬ IsErrOf result LogFault.Disk }
    ensures whole { (n : ℕ) → ¬ IsErrOf result (LogFault.DamagedBody n) }
    ensures only { IfErr result IsOfLook }
{
    match log.is_whole(index) {
        Ok(whole) => Ok(whole),
        Err(LogFault::Disk) => Ok(false),
        Err(fault) => Err(fault),
    }
}

/// Tests the operation at an index, and tells of it behind others where its data set is none of its
/// own, or the disk fails to read that.
fn test_at<H: Disk, B: Disk>(
    alloc: Global,
    log: &mut OpLog<H, B>,
    index: usize,
    damaged: &mut Vec<Damaged>,
) -> Result<(), LogFault>
    ensures tested { OnOk result (IsTrue (B.Disk.is_clean log.new.bodies) → (h : Head)
        → slice_get log.old.places index ≡ Some h → IsTestedOf (B.Disk.seen log.old.bodies)
        (MoreFaults (B.Disk.faults log.old.bodies) (B.Disk.faults log.new.bodies)) h
        damaged.old.items damaged.new.items) }
    ensures rises { OnOk result
        (StaysOrRises (B.Disk.faults log.old.bodies) (B.Disk.faults log.new.bodies)) }
    // Nothing is changed.
    ensures looks { Looks log.old log.new }
    ensures seen { B.Disk.seen log.new.bodies ≡ B.Disk.seen log.old.bodies }
    ensures usable { B.Disk.is_usable log.new.bodies ≡ B.Disk.is_usable log.old.bodies }
    ensures goes_on { GoesOn H.Disk B.Disk log.old log.new }
    // Each fault, only where it is.
    ensures closed { IsErrOf result LogFault.Closed → B.Disk.is_usable log.old.bodies ≡ false }
    ensures disk { ¬ IsErrOf result LogFault.Disk }
    ensures whole { (n : ℕ) → ¬ IsErrOf result (LogFault.DamagedBody n) }
    ensures only { IfErr result IsOfLook }
{
    if is_whole_at(log, index)? {
        return Ok(());
    }
    let Some(head) = log.record(index) else {
        return Ok(());
    };
    damaged.push(damage_of_head(alloc, &head)?)?;
    Ok(())
}

/// Tests all operations of a log, and tells of those whose data sets are none of theirs, or that
/// the disk fails to read, in the order in which they were put. One data set at a time is in
/// memory.
pub(crate) fn test_all<H: Disk, B: Disk, T: Testing>(
    alloc: Global,
    log: &mut OpLog<H, B>,
    hearing: &T,
) -> Result<Vec<Damaged>, LogFault>
    ensures told { IsUp H.Disk B.Disk log.new → IfOk result (λ told.
        AreTold (B.Disk.seen log.old.bodies)
        (MoreFaults (B.Disk.faults log.old.bodies) (B.Disk.faults log.new.bodies))
        log.old.places told.items) }
    ensures same { IsUp H.Disk B.Disk log.new → OnOk result (IsSame B.Disk log.old log.new) }
    ensures refused { IsUp H.Disk B.Disk log.new
        → OnErr result (AreSame (Holds B.Disk log.old) (Holds B.Disk log.new)) }
    ensures closed { IsErrOf result LogFault.Closed → B.Disk.is_usable log.old.bodies ≡ false }
    ensures disk { ¬ IsErrOf result LogFault.Disk }
    ensures whole { (n : ℕ) → ¬ IsErrOf result (LogFault.DamagedBody n) }
    ensures only { IfErr result IsOfLook }
    ensures up { IsUp H.Disk B.Disk log.new → IsUp H.Disk B.Disk log.old }
{
    let mut damaged = Vec::new(alloc);
    for index in 0..log.len() {
        test_at(alloc, log, index, &mut damaged)?;
        hearing.has_tested(index as u64 + 1);
    }
    Ok(damaged)
}
