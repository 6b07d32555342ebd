//! Reads operations ahead of their turns.

ghost use Rattle.std.specs.Prelude.{◌≡◌, ◌≤◌, ◌<◌, ◌+◌, ℕ, All, drop, length, false, IfOk, IfErr, OnOk, IsTrue, IsErrOf};
ghost use Rattle.body_log.specs.Log.{disk_of, end_of};
ghost use Rattle.op_log.specs.Fault.{IsOfLook};
ghost use Rattle.op_log.specs.Fetched.{AreRead};
ghost use Rattle.op_log.specs.Kept.{IsBelow};
ghost use Rattle.op_log.specs.Loaded.{HasBadHead};
ghost use Rattle.op_log.specs.Staged.{Counts, Grows, Uses};

use crate::fault::LogFault;
use crate::fetched::Fetched;
use crate::loading::read_at;
use crate::places::Places;
use body_log::BodyLog;
use sqlite_disk::Disk;

/// How many bytes the data sets that are read ahead have at most, if there are several.
const MOST: usize = 1 << 22;

/// From how many bytes on a data set is worth a thread: a smaller one is hashed sooner where it was
/// read, while it is in that processor's cache.
pub(crate) const WORTH: usize = 1 << 14;

/// Whether so many operations, whose data sets have so many bytes, are enough to leave a further
/// one of this size for later.
fn are_enough(count: usize, bytes: usize, size: usize) -> bool
    ensures some { count ≡ 0 → result ≡ false }
{
    count > 0 && (size < WORTH || bytes.saturating_add(size) > MOST)
}

/// The operations of the heads from an index on and before another, in their order, as many as are
/// read ahead. They are not hashed here, so where the disk changed a data set it may be another
/// operation.
pub(crate) fn fetch<B: Disk>(
    bodies: &mut BodyLog<B>,
    places: &Places,
    from: usize,
    until: usize,
) -> Result<Vec<Fetched>, LogFault>
    requires order { from ≤ until }
    requires within { until ≤ length places.now }
    ensures read { IfOk result (λ ops. IsTrue (B.Disk.is_clean (disk_of bodies.new))
        → AreRead (B.Disk.seen (disk_of bodies.old)) ops.items (drop from places.now)) }
    ensures some { from < until → IfOk result (λ ops. 0 < length ops.items) }
    ensures within { IfOk result (λ ops. from + length ops.items ≤ until) }
    ensures damaged { IsTrue (B.Disk.is_clean (disk_of bodies.new)) → (n : ℕ)
        → IsErrOf result (LogFault.DamagedBody n)
        → HasBadHead (B.Disk.seen (disk_of bodies.old)) places.now n }
    ensures disk { All (IsBelow (end_of bodies.old)) places.now
        → Counts B.Disk (end_of bodies.old) bodies.old bodies.new result }
    ensures calm { OnOk result
        (B.Disk.faults (disk_of bodies.new) ≡ B.Disk.faults (disk_of bodies.old)) }
    ensures only { IfErr result IsOfLook }
    ensures seen { B.Disk.seen (disk_of bodies.new) ≡ B.Disk.seen (disk_of bodies.old) }
    ensures grows { Grows B.Disk bodies.old bodies.new }
    ensures uses { Uses B.Disk bodies.old bodies.new result }
{
    let mut ops = Vec::new(places.alloc());
    let mut total = 0;
    'places: for index in from..until {
        let Some((_bytes, place)) = places.at(index) else {
            return Ok(ops);
        };
        if are_enough(ops.len(), total, place.size) {
            return Ok(ops);
        }
        let op = read_at(places.alloc(), bodies, place)?;
        total = place.size.saturating_add(total);
        ops.push(Fetched::of(op))?;
    }
    Ok(ops)
}
