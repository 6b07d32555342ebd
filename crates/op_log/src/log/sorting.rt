//! What of a log can be read.

ghost use Rattle.std.specs.Prelude.{◌≡◌, [], List, false, IfOk, IfErr, IsTrue, IsErrOf};
ghost use Rattle.sqlite_disk.specs.Disk.{MoreFaults};
ghost use Rattle.operation.specs.declared.op.Op.{Op as Operation};
ghost use Rattle.op_log.specs.Fault.{IsOfSorting};
ghost use Rattle.op_log.specs.Loaded.{Lists};
ghost use Rattle.op_log.specs.Log.{GoesOn, Looks};
ghost use Rattle.op_log.specs.Readable.{AreParted, IsAmiss, IsNamed, IsUntold};
ghost use Rattle.op_log.specs.Recorded.{AreRecordedAs, IsRecordedAs};

use super::OpLog;
use crate::fault::LogFault;
use crate::readable::{Readable, all_readable};
use records::RecordedContent;
use sqlite_disk::Disk;
use std::alloc::Global;

impl<H: Disk, B: Disk> OpLog<H, B> {
    /// The records of all operations that can be read, in the order in which these were put, and
    /// the indexes of the others: where the bytes of one are none of its digest, or the disk fails
    /// to read them, all others are recorded still. An operation with the digest of a content that
    /// is told is recorded from that, and not read. One operation at a time is read and hashed, in
    /// this thread: it is for a log of which `records_told` said that it is damaged.
    pub fn readable(
        &mut self,
        alloc: Global,
        told: &[RecordedContent],
    ) -> Result<Readable, LogFault>
        // Each has its record, under its digest, or its index; and this only if nothing is told.
        ensures told { IfOk result (λ readable. AreParted IsNamed (IsUntold told.now) 0
            self.old.places readable.recorded.items readable.unreadable.items) }
        // A record stands for the very operation that was put, as long as the disk returns what was
        // written, or was told under its digest. What is listed is damaged, or the disk failed.
        ensures all { IfOk result (λ readable. IsTrue (B.Disk.is_clean self.new.bodies)
            → AreParted (IsRecordedAs (B.Disk.seen self.old.bodies) told.now)
            (IsAmiss (B.Disk.seen self.old.bodies) (B.Disk.faults self.old.bodies)
            (B.Disk.faults self.new.bodies)) 0
            self.old.places readable.recorded.items readable.unreadable.items) }
        // With no damage, and no failure, nothing is.
        ensures none { IfOk result (λ readable. IsTrue (B.Disk.is_clean self.new.bodies)
            → ¬ MoreFaults (B.Disk.faults self.old.bodies) (B.Disk.faults self.new.bodies)
            → (ops : List Operation) → Lists (B.Disk.seen self.old.bodies) self.old.places ops
            → (readable.unreadable.items ≡ [])
            × AreRecordedAs (B.Disk.seen self.old.bodies) told.now self.old.places
            readable.recorded.items) }
        ensures looks { Looks self.old self.new }
        ensures seen { B.Disk.seen self.new.bodies ≡ B.Disk.seen self.old.bodies }
        ensures goes_on { GoesOn H.Disk B.Disk self.old self.new }

        // Each fault, only where it is. No operation is a fault here.
        ensures closed { IsErrOf result LogFault.Closed
            → B.Disk.is_usable self.old.bodies ≡ false }
        ensures only { IfErr result IsOfSorting }
    {
        all_readable(alloc, &mut self.bodies, &self.places, told)
    }
}
