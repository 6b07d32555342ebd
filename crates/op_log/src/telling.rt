//! Records all operations, and reads none of those whose contents are told.

ghost use Rattle.std.specs.Prelude.{◌≡◌, ◌≤◌, ◌<◌, ℕ, List, All, map, take, length};
ghost use Rattle.std.specs.Prelude.{IfOk, IfErr, IsTrue, IsErrOf, OnOk};
ghost use Rattle.body_log.specs.Log.{disk_of, end_of};
ghost use Rattle.octets.specs.Members.{Has};
ghost use Rattle.operation.specs.Parts.{ContentParts};
ghost use Rattle.operation.specs.Spelling.{digest_of};
ghost use Rattle.op_log.specs.Fault.{IsOfLook};
ghost use Rattle.op_log.specs.Kept.{IsBelow};
ghost use Rattle.op_log.specs.Loaded.{HasBadHead};
ghost use Rattle.op_log.specs.Recorded.{AreRecordedAs, Records};
ghost use Rattle.op_log.specs.Staged.{Counts, Grows, Uses};
ghost use Rattle.op_log.specs.Verified.{digests_of};

use crate::fault::LogFault;
use crate::fetched::threads_of;
use crate::places::Places;
use crate::recording::record_between;
use body_log::BodyLog;
use records::{RecordedContent, RecordedOp};
use sqlite_disk::Disk;
use std::alloc::Global;
use std::thread::Threads;

/// Records a told content for the head with its digest, and before it the operations of the heads
/// from an index on that stand before that one. A content that no head from there on has the digest
/// of is passed over. Returned is the index of the next head.
fn record_up_to<R: Threads + Sync, B: Disk>(
    rt: &R,
    threads: usize,
    alloc: Global,
    bodies: &mut BodyLog<B>,
    places: &Places,
    from: usize,
    content: &RecordedContent,
    recorded: &mut Vec<RecordedOp>,
) -> Result<usize, LogFault>
    requires threads { 0 < threads }
    requires within { from ≤ length places.now }
    ensures within { IfOk result (λ next. next ≤ length places.now) }
    ensures told { map digest_of recorded.old.items ≡ digests_of (take from places.now)
        → IfOk result (λ next. map digest_of recorded.new.items
        ≡ digests_of (take next places.now)) }
    ensures all { IsTrue (B.Disk.is_clean (disk_of bodies.new)) → (told : List ContentParts)
        → Has told content.now
        → AreRecordedAs (B.Disk.seen (disk_of bodies.old)) told (take from places.now)
        recorded.old.items → IfOk result (λ next. AreRecordedAs
        (B.Disk.seen (disk_of bodies.old)) told (take next places.now) recorded.new.items) }
    ensures damaged { IsTrue (B.Disk.is_clean (disk_of bodies.new)) → (n : ℕ)
        → IsErrOf result (LogFault.DamagedBody n)
        → HasBadHead (B.Disk.seen (disk_of bodies.old)) places.now n }
    ensures disk { All (IsBelow (end_of bodies.old)) places.now
        → Counts B.Disk (end_of bodies.old) bodies.old bodies.new result }
    ensures calm { OnOk result
        (B.Disk.faults (disk_of bodies.new) ≡ B.Disk.faults (disk_of bodies.old)) }
    ensures only { IfErr result IsOfLook }
    ensures seen { B.Disk.seen (disk_of bodies.new) ≡ B.Disk.seen (disk_of bodies.old) }
    ensures grows { Grows B.Disk bodies.old bodies.new }
    ensures uses { Uses B.Disk bodies.old bodies.new result }
{
    let most = places.len();
    let Some(index) = places.index_of(content.digest()) else {
        return Ok(from);
    };
    if index < from {
        return Ok(from);
    }
    if index >= most {
        unreachable!()
    }
    record_between(rt, threads, alloc, bodies, places, from, index, recorded)?;
    let copy = content.copy()?;
    recorded.push(RecordedOp::of_content(copy))?;
    Ok(index + 1)
}

/// The records of the operations of all heads, in their order. A told content is recorded for the
/// head with its digest, whose data set is not read, unless one that is told before it has that of
/// a later head. The other operations are hashed side by side while the next are read.
pub(crate) fn all_told_with<R: Threads + Sync, B: Disk>(
    rt: &R,
    alloc: Global,
    bodies: &mut BodyLog<B>,
    places: &Places,
    told: &[RecordedContent],
) -> Result<Vec<RecordedOp>, LogFault>
    ensures told { IfOk result (λ recorded. map digest_of recorded.items ≡ digests_of places.now) }
    ensures all { IfOk result (λ recorded. IsTrue (B.Disk.is_clean (disk_of bodies.new))
        → AreRecordedAs (B.Disk.seen (disk_of bodies.old)) told.now places.now recorded.items) }
    ensures damaged { IsTrue (B.Disk.is_clean (disk_of bodies.new)) → (n : ℕ)
        → IsErrOf result (LogFault.DamagedBody n)
        → HasBadHead (B.Disk.seen (disk_of bodies.old)) places.now n }
    ensures disk { All (IsBelow (end_of bodies.old)) places.now
        → Counts B.Disk (end_of bodies.old) bodies.old bodies.new result }
    ensures only { IfErr result IsOfLook }
    ensures seen { B.Disk.seen (disk_of bodies.new) ≡ B.Disk.seen (disk_of bodies.old) }
    ensures grows { Grows B.Disk bodies.old bodies.new }
    ensures uses { Uses B.Disk bodies.old bodies.new result }
{
    let threads = threads_of(rt);
    let most = places.len();
    let mut recorded = Vec::with_capacity(alloc, most)?;
    let mut from = 0;
    'contents: for content in told {
        from = record_up_to(
            rt,
            threads,
            alloc,
            bodies,
            places,
            from,
            content,
            &mut recorded,
        )?;
    }
    record_between(
        rt,
        threads,
        alloc,
        bodies,
        places,
        from,
        most,
        &mut recorded,
    )?;
    Ok(recorded)
}

/// The same as `all_records`. Operations are hashed side by side while the next are read.
pub(crate) fn all_records_with<R: Threads + Sync, B: Disk>(
    rt: &R,
    alloc: Global,
    bodies: &mut BodyLog<B>,
    places: &Places,
) -> Result<Vec<RecordedOp>, LogFault>
    ensures told { IfOk result (λ recorded. map digest_of recorded.items ≡ digests_of places.now) }
    ensures all { IfOk result (λ recorded. IsTrue (B.Disk.is_clean (disk_of bodies.new))
        → Records (B.Disk.seen (disk_of bodies.old)) places.now recorded.items) }
    ensures damaged { IsTrue (B.Disk.is_clean (disk_of bodies.new)) → (n : ℕ)
        → IsErrOf result (LogFault.DamagedBody n)
        → HasBadHead (B.Disk.seen (disk_of bodies.old)) places.now n }
    ensures disk { All (IsBelow (end_of bodies.old)) places.now
        → Counts B.Disk (end_of bodies.old) bodies.old bodies.new result }
    ensures only { IfErr result IsOfLook }
    ensures grows { Grows B.Disk bodies.old bodies.new }
    ensures uses { Uses B.Disk bodies.old bodies.new result }
{
    all_told_with(rt, alloc, bodies, places, &[])
}
