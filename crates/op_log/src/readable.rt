//! Records what can be read of a log, and lists what can't.

ghost use Rattle.std.specs.Prelude.{◌≡◌, ◌+◌, ◌<◌, ℕ, List, Ok, None, take, length, IfOk, IfErr, IfSome, IsTrue, OnOk};
ghost use Rattle.sqlite_disk.specs.Disk.{MoreFaults};
ghost use Rattle.body_log.specs.Log.{disk_of, end_of};
ghost use Rattle.operation.specs.Parts.{ContentParts};
ghost use Rattle.operation.specs.Spelling.{digest_of};
ghost use Rattle.op_log.specs.Fault.{IsOfSorting};
ghost use Rattle.op_log.specs.Places.{head_by};
ghost use Rattle.op_log.specs.Readable.{AreParted, IsAmiss, IsNamed, IsTableOf, IsUntold, ReachesAll};
ghost use Rattle.op_log.specs.Recorded.{IsRecordedAs};
ghost use Rattle.op_log.specs.Staged.{Grows, Reaches, StaysOrRises, Uses};

use crate::fault::LogFault;
use crate::loading::load_at;
use crate::place::Place;
use crate::places::Places;
use crate::told_contents::ToldContents;
use body_log::BodyLog;
use operation::Digest;
use records::{RecordedContent, RecordedOp};
use sqlite_disk::Disk;
use std::alloc::Global;

/// What can be read of a log, and what can't.
pub struct Readable {
    /// The records of all operations that can be read, in the order of their heads.
    pub recorded: Vec<RecordedOp>,
    /// The indexes of the others, as of `OpLog::record`, ascending.
    pub unreadable: Vec<usize>,
}

// It is written out, so that a caller does not prove again how each part is dropped.
impl Drop for Readable {
    fn drop(self) {
        let Readable {
            recorded: _,
            unreadable: _,
        } = self;
    }
}

/// What is recorded of the operation with a digest that lies at a place: the content that is told
/// under the digest, or what is read. `None` where it can't be read.
fn recorded_at<B: Disk>(
    alloc: Global,
    bodies: &mut BodyLog<B>,
    contents: &ToldContents,
    digest: &Digest,
    place: &Place,
) -> Result<Option<RecordedOp>, LogFault>
    ensures named { IfOk result (λ found. IfSome found (λ r. (told : List ContentParts)
        → IsTableOf told contents.now.table.entries → digest_of r ≡ digest.now)) }
    ensures recorded { IfOk result (λ found. IfSome found (λ r. (told : List ContentParts)
        → IsTableOf told contents.now.table.entries → IsTrue (B.Disk.is_clean (disk_of bodies.new))
        → IsRecordedAs (B.Disk.seen (disk_of bodies.old)) told (head_by digest.now place.now) r)) }
    ensures untold { result ≡ Ok None → (told : List ContentParts)
        → IsTableOf told contents.now.table.entries
        → IsUntold told (head_by digest.now place.now) }
    ensures amiss { result ≡ Ok None → IsTrue (B.Disk.is_clean (disk_of bodies.new))
        → Reaches B.Disk bodies.old (place.now.at + place.now.size)
        → IsAmiss (B.Disk.seen (disk_of bodies.old)) (B.Disk.faults (disk_of bodies.old))
        (B.Disk.faults (disk_of bodies.new)) (head_by digest.now place.now) }
    ensures counts { OnOk result (Reaches B.Disk bodies.old (place.now.at + place.now.size)
        → StaysOrRises (B.Disk.faults (disk_of bodies.old))
        (B.Disk.faults (disk_of bodies.new))) }
    ensures only { IfErr result IsOfSorting }
    ensures seen { B.Disk.seen (disk_of bodies.new) ≡ B.Disk.seen (disk_of bodies.old) }
    ensures grows { Grows B.Disk bodies.old bodies.new }
    ensures uses { Uses B.Disk bodies.old bodies.new result }
{
    if let Some(content) = contents.find(digest) {
        return Ok(Some(RecordedOp::of_content(content.copy()?)));
    }
    match load_at(alloc, bodies, digest, place) {
        Ok(op) => Ok(Some(RecordedOp::of(alloc, &op)?)),
        Err(LogFault::DamagedBody(_)) => Ok(None),
        Err(LogFault::Disk) => Ok(None),
        Err(fault) => Err(fault),
    }
}

/// Records the operation of the head at an index behind those of the heads before it, or lists the
/// index.
fn sort_one<B: Disk>(
    alloc: Global,
    bodies: &mut BodyLog<B>,
    places: &Places,
    contents: &ToldContents,
    index: usize,
    readable: &mut Readable,
) -> Result<(), LogFault>
    requires within { index < length places.now }
    ensures told { (told : List ContentParts) → IsTableOf told contents.now.table.entries
        → AreParted IsNamed (IsUntold told) 0 (take index places.now)
        readable.old.recorded.items readable.old.unreadable.items
        → OnOk result (AreParted IsNamed (IsUntold told) 0 (take (index + 1) places.now)
        readable.new.recorded.items readable.new.unreadable.items) }
    ensures all { (told : List ContentParts) → IsTableOf told contents.now.table.entries
        → IsTrue (B.Disk.is_clean (disk_of bodies.new)) → ReachesAll B.Disk bodies.old places.now
        → (first : ℕ) → StaysOrRises first (B.Disk.faults (disk_of bodies.old))
        → AreParted (IsRecordedAs (B.Disk.seen (disk_of bodies.old)) told)
        (IsAmiss (B.Disk.seen (disk_of bodies.old)) first (B.Disk.faults (disk_of bodies.old)))
        0 (take index places.now) readable.old.recorded.items readable.old.unreadable.items
        → OnOk result (AreParted (IsRecordedAs (B.Disk.seen (disk_of bodies.old)) told)
        (IsAmiss (B.Disk.seen (disk_of bodies.old)) first (B.Disk.faults (disk_of bodies.new)))
        0 (take (index + 1) places.now)
        readable.new.recorded.items readable.new.unreadable.items) }
    ensures counts { OnOk result (ReachesAll B.Disk bodies.old places.now
        → StaysOrRises (B.Disk.faults (disk_of bodies.old))
        (B.Disk.faults (disk_of bodies.new))) }
    ensures only { IfErr result IsOfSorting }
    ensures seen { B.Disk.seen (disk_of bodies.new) ≡ B.Disk.seen (disk_of bodies.old) }
    ensures grows { Grows B.Disk bodies.old bodies.new }
    ensures uses { Uses B.Disk bodies.old bodies.new result }
{
    let Some((bytes, place)) = places.at(index) else {
        unreachable!()
    };
    match recorded_at(alloc, bodies, contents, &Digest::of(*bytes), place)? {
        Some(recorded) => readable.recorded.push(recorded)?,
        None => readable.unreadable.push(index)?,
    }
    Ok(())
}

/// The records of the operations of all heads that can be read, in their order, and the indexes of
/// the others. A content that is told under the digest of a head is recorded from that, and its
/// data set is not read. One data set at a time is in memory.
pub(crate) fn all_readable<B: Disk>(
    alloc: Global,
    bodies: &mut BodyLog<B>,
    places: &Places,
    told: &[RecordedContent],
) -> Result<Readable, LogFault>
    ensures told { IfOk result (λ readable. AreParted IsNamed (IsUntold told.now) 0 places.now
        readable.recorded.items readable.unreadable.items) }
    ensures all { IfOk result (λ readable. IsTrue (B.Disk.is_clean (disk_of bodies.new))
        → ReachesAll B.Disk bodies.old places.now
        → AreParted (IsRecordedAs (B.Disk.seen (disk_of bodies.old)) told.now)
        (IsAmiss (B.Disk.seen (disk_of bodies.old)) (B.Disk.faults (disk_of bodies.old))
        (B.Disk.faults (disk_of bodies.new))) 0 places.now
        readable.recorded.items readable.unreadable.items) }
    ensures only { IfErr result IsOfSorting }
    ensures seen { B.Disk.seen (disk_of bodies.new) ≡ B.Disk.seen (disk_of bodies.old) }
    ensures grows { Grows B.Disk bodies.old bodies.new }
    ensures uses { Uses B.Disk bodies.old bodies.new result }
{
    let contents = ToldContents::of(alloc, told)?;
    let mut readable = Readable {
        recorded: Vec::new(alloc),
        unreadable: Vec::new(alloc),
    };
    'places: for index in 0..places.len() {
        sort_one(alloc, bodies, places, &contents, index, &mut readable)?;
    }
    Ok(readable)
}
