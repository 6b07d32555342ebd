//! Records all operations.

ghost use Rattle.std.specs.Prelude.{◌≡◌, ◌+◌, ◌≤◌, ◌<◌, ℕ, List, Some, All, map, take, drop, length, slice_get};
ghost use Rattle.std.specs.Prelude.{IfOk, IfErr, IsTrue, IsErrOf, OnOk};
ghost use Rattle.std.specs.Thread.{IsSync};
ghost use Rattle.body_log.specs.Log.{disk_of, end_of};
ghost use Rattle.operation.specs.Parts.{ContentParts};
ghost use Rattle.operation.specs.Spelling.{digest_of};
ghost use Rattle.op_log.specs.Fault.{IsOfLook};
ghost use Rattle.op_log.specs.Fetched.{AreRead, IsReadAt};
ghost use Rattle.op_log.specs.Heads.{Head};
ghost use Rattle.op_log.specs.Kept.{IsBelow};
ghost use Rattle.op_log.specs.Loaded.{HasBadHead};
ghost use Rattle.op_log.specs.Recorded.{AreRecordedAs, Records};
ghost use Rattle.op_log.specs.Staged.{Counts, Grows, Uses};
ghost use Rattle.op_log.specs.Verified.{digests_of};

use crate::fault::LogFault;
use crate::fetched::{Fetched, hash_each};
use crate::fetching::{WORTH, fetch};
use crate::loading::{has_digest, load_at};
use crate::places::Places;
use body_log::BodyLog;
use operation::{Digest, Digested};
use records::RecordedOp;
use sqlite_disk::Disk;
use std::alloc::Global;
use std::thread::{Threads, join_mut};

/// The records of the operations of all heads, in their order. One data set at a time is in memory.
pub(crate) fn all_records<B: Disk>(
    alloc: Global,
    bodies: &mut BodyLog<B>,
    places: &Places,
) -> Result<Vec<RecordedOp>, LogFault>
    ensures told { IfOk result (λ recorded. map digest_of recorded.items ≡ digests_of places.now) }
    ensures all { IfOk result (λ recorded. IsTrue (B.Disk.is_clean (disk_of bodies.new))
        → Records (B.Disk.seen (disk_of bodies.old)) places.now recorded.items) }
    ensures damaged { IsTrue (B.Disk.is_clean (disk_of bodies.new)) → (n : ℕ)
        → IsErrOf result (LogFault.DamagedBody n)
        → HasBadHead (B.Disk.seen (disk_of bodies.old)) places.now n }
    ensures disk { All (IsBelow (end_of bodies.old)) places.now
        → Counts B.Disk (end_of bodies.old) bodies.old bodies.new result }
    ensures only { IfErr result IsOfLook }
    ensures grows { Grows B.Disk bodies.old bodies.new }
    ensures uses { Uses B.Disk bodies.old bodies.new result }
{
    let mut recorded = Vec::with_capacity(alloc, places.len())?;
    'places: for index in 0..places.len() {
        let Some((bytes, place)) = places.at(index) else {
            return Ok(recorded);
        };
        let op = load_at(alloc, bodies, &Digest::of(*bytes), place)?;
        let made = RecordedOp::of(alloc, &op)?;
        recorded.push(made)?;
    }
    Ok(recorded)
}

/// Records the operation of the head at an index behind those of the heads before it. What was read
/// for it is that operation where it has its digest.
fn record_at(
    alloc: Global,
    places: &Places,
    index: usize,
    op: &Digested,
    recorded: &mut Vec<RecordedOp>,
) -> Result<(), LogFault>
    requires within { index < length places.now }
    ensures told { map digest_of recorded.old.items ≡ digests_of (take index places.now)
        → OnOk result
        (map digest_of recorded.new.items ≡ digests_of (take (index + 1) places.now)) }
    ensures all { (file : List ℕ) → (told : List ContentParts) → (h : Head)
        → slice_get places.now index ≡ Some h → IsReadAt file h op.now
        → AreRecordedAs file told (take index places.now) recorded.old.items
        → OnOk result
        (AreRecordedAs file told (take (index + 1) places.now) recorded.new.items) }
    ensures damaged { (file : List ℕ) → (h : Head) → slice_get places.now index ≡ Some h
        → IsReadAt file h op.now → (n : ℕ) → IsErrOf result (LogFault.DamagedBody n)
        → HasBadHead file places.now n }
    ensures disk { ¬ IsErrOf result LogFault.Disk }
    ensures open { ¬ IsErrOf result LogFault.Closed }
    ensures only { IfErr result IsOfLook }
{
    let Some((bytes, place)) = places.at(index) else {
        unreachable!()
    };
    if !has_digest(op, &Digest::of(*bytes)) {
        return Err(LogFault::DamagedBody(place.at));
    }
    let made = RecordedOp::of(alloc, op)?;
    recorded.push(made)?;
    Ok(())
}

/// Records operations that were read for the heads from an index on, each in its turn.
fn record_some(
    alloc: Global,
    places: &Places,
    from: usize,
    ops: Vec<Fetched>,
    recorded: &mut Vec<RecordedOp>,
) -> Result<(), LogFault>
    requires within { from + length ops.items ≤ length places.now }
    ensures told { map digest_of recorded.old.items ≡ digests_of (take from places.now)
        → OnOk result (map digest_of recorded.new.items
        ≡ digests_of (take (from + length ops.items) places.now)) }
    ensures all { (file : List ℕ) → (told : List ContentParts)
        → AreRecordedAs file told (take from places.now) recorded.old.items
        → AreRead file ops.items (drop from places.now) → OnOk result (AreRecordedAs file told
        (take (from + length ops.items) places.now) recorded.new.items) }
    ensures damaged { (file : List ℕ) → AreRead file ops.items (drop from places.now) → (n : ℕ)
        → IsErrOf result (LogFault.DamagedBody n) → HasBadHead file places.now n }
    ensures disk { ¬ IsErrOf result LogFault.Disk }
    ensures open { ¬ IsErrOf result LogFault.Closed }
    ensures only { IfErr result IsOfLook }
{
    let most = places.len();
    let mut index = from;
    for op in ops {
        if index >= most {
            unreachable!()
        }
        record_at(alloc, places, index, &op.into_digested(), recorded)?;
        index += 1;
    }
    Ok(())
}

/// Hashes operations side by side, while those of the heads from an index on and before another are
/// read; a small one, for which a thread does not pay, is left to who records it.
fn hash_and_fetch<R: Threads + Sync, B: Disk>(
    rt: &R,
    threads: usize,
    ops: &mut [Fetched],
    bodies: &mut BodyLog<B>,
    places: &Places,
    from: usize,
    until: usize,
) -> Result<Vec<Fetched>, LogFault>
    requires threads { 0 < threads }
    requires order { from ≤ until }
    requires within { until ≤ length places.now }
    ensures same { ops.new ≡ ops.old }
    ensures read { IfOk result (λ next. IsTrue (B.Disk.is_clean (disk_of bodies.new))
        → AreRead (B.Disk.seen (disk_of bodies.old)) next.items (drop from places.now)) }
    ensures some { from < until → IfOk result (λ next. 0 < length next.items) }
    ensures within { IfOk result (λ next. from + length next.items ≤ until) }
    ensures damaged { IsTrue (B.Disk.is_clean (disk_of bodies.new)) → (n : ℕ)
        → IsErrOf result (LogFault.DamagedBody n)
        → HasBadHead (B.Disk.seen (disk_of bodies.old)) places.now n }
    ensures disk { All (IsBelow (end_of bodies.old)) places.now
        → Counts B.Disk (end_of bodies.old) bodies.old bodies.new result }
    ensures calm { OnOk result
        (B.Disk.faults (disk_of bodies.new) ≡ B.Disk.faults (disk_of bodies.old)) }
    ensures only { IfErr result IsOfLook }
    ensures seen { B.Disk.seen (disk_of bodies.new) ≡ B.Disk.seen (disk_of bodies.old) }
    ensures grows { Grows B.Disk bodies.old bodies.new }
    ensures uses { Uses B.Disk bodies.old bodies.new result }
{
    let pays = match ops.first() {
        Some(first) => ops.len() > 1 || first.size() >= WORTH,
        None => false,
    };
    if !pays {
        return fetch(bodies, places, from, until);
    }
    let (_hashed, next) = join_mut(
        rt,
        &mut ||
            requires { IsSync R.row × (0 < threads) }
            ensures { ops.exit.now ≡ ops.entry.now }
        { hash_each(rt, threads, ops) },
        &mut || fetch(bodies, places, from, until),
    );
    next
}

/// Records the operations of the heads from an index on and before another, behind those of the
/// heads before them. Operations are hashed side by side while the next are read.
pub(crate) fn record_between<R: Threads + Sync, B: Disk>(
    rt: &R,
    threads: usize,
    alloc: Global,
    bodies: &mut BodyLog<B>,
    places: &Places,
    from: usize,
    until: usize,
    recorded: &mut Vec<RecordedOp>,
) -> Result<(), LogFault>
    requires threads { 0 < threads }
    requires order { from ≤ until }
    requires within { until ≤ length places.now }
    ensures told { map digest_of recorded.old.items ≡ digests_of (take from places.now)
        → OnOk result (map digest_of recorded.new.items ≡ digests_of (take until places.now)) }
    ensures all { IsTrue (B.Disk.is_clean (disk_of bodies.new)) → (told : List ContentParts)
        → AreRecordedAs (B.Disk.seen (disk_of bodies.old)) told (take from places.now)
        recorded.old.items → OnOk result (AreRecordedAs (B.Disk.seen (disk_of bodies.old)) told
        (take until places.now) recorded.new.items) }
    ensures damaged { IsTrue (B.Disk.is_clean (disk_of bodies.new)) → (n : ℕ)
        → IsErrOf result (LogFault.DamagedBody n)
        → HasBadHead (B.Disk.seen (disk_of bodies.old)) places.now n }
    ensures disk { All (IsBelow (end_of bodies.old)) places.now
        → Counts B.Disk (end_of bodies.old) bodies.old bodies.new result }
    ensures calm { OnOk result
        (B.Disk.faults (disk_of bodies.new) ≡ B.Disk.faults (disk_of bodies.old)) }
    ensures only { IfErr result IsOfLook }
    ensures seen { B.Disk.seen (disk_of bodies.new) ≡ B.Disk.seen (disk_of bodies.old) }
    ensures grows { Grows B.Disk bodies.old bodies.new }
    ensures uses { Uses B.Disk bodies.old bodies.new result }
{
    let mut index = from;
    let mut ready = fetch(bodies, places, index, until)?;
    'groups: while index < until {
        let mut ops = ready;
        let end = index + ops.len();
        ready = hash_and_fetch(rt, threads, ops.as_mut_slice(), bodies, places, end, until)?;
        record_some(alloc, places, index, ops, recorded)?;
        index = end;
    }
    Ok(())
}
