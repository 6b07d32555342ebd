//! Puts a group into both files.

ghost use Rattle.std.specs.Prelude.{◌≡◌, ◌&&◌, ◌⊎◌, ◌<◌, ◌≤◌, ◌+◌, ◌^◌, length, [], All, List, false, IfErr};
ghost use Rattle.std.specs.Prelude.{IsTrue, IsErrOf, OnOk, OnErr};
ghost use Rattle.sqlite_disk.specs.Disk.{MoreFaults};
ghost use Rattle.body_log.specs.Fault.{CountsAs};
ghost use Rattle.body_log.specs.Log.{disk_of, end_of};
ghost use Rattle.head_log.specs.Log.{is_up};
ghost use Rattle.head_log.specs.Log.{disk_of as heads_of, gate_of as heads_end};
ghost use Rattle.op_log.specs.Fault.{IsOfPut, IsOfWrite};
ghost use Rattle.op_log.specs.Heads.{Entry, Head, bodies_long, heads_long};
ghost use Rattle.op_log.specs.Kept.{IsBelow, IsHeld, IsKept, IsLasting};
ghost use Rattle.op_log.specs.Puts.{ComesToClash, LeavesAllOrNone, LeavesEither, PutsAll};
ghost use Rattle.op_log.specs.Staged.{Grows, HasHeads, IsBegun, KeepsPlaces, Reaches, replaced_in};

use crate::fault::LogFault;
use crate::group::Group;
use crate::places::Places;
use crate::staging::stage;
use body_log::BodyLog;
use head_log::HeadLog;
use operation::Digested;
use sqlite_disk::Disk;

/// Adds heads as a group, if there are any.
fn add_heads<H: Disk>(heads: &mut HeadLog<H>, text: &[u8]) -> Result<(), LogFault>
    // After Ok every crash leaves them.
    ensures kept { OnOk result ((old new : List Head) → HasHeads old new [] text.now
        → IsKept H.Disk (heads_of heads.old) (heads_end heads.old) old
        → IsKept H.Disk (heads_of heads.new) (heads_end heads.new) new) }
    // Whatever is answered, a crash leaves those from before, with these or without.
    ensures crash { (old new : List Head) → HasHeads old new [] text.now
        → IsKept H.Disk (heads_of heads.old) (heads_end heads.old) old
        → LeavesEither H.Disk (heads_of heads.new) old new }
    // A refusal changes nothing, or closes the file.
    ensures refused { OnErr result (IsTrue (is_up H.Disk heads.new) → (old : List Head)
        → IsKept H.Disk (heads_of heads.old) (heads_end heads.old) old
        → IsKept H.Disk (heads_of heads.new) (heads_end heads.new) old) }
    ensures closed { IsErrOf result LogFault.Closed → is_up H.Disk heads.old ≡ false }
    ensures too_long { IsErrOf result LogFault.TooLong
        → (2 ^ 40 ≤ length text.now) ⊎ (2 ^ 60 < (heads_end heads.old).at) }
    ensures disk { CountsAs LogFault.Disk result
        (H.Disk.faults (heads_of heads.old)) (H.Disk.faults (heads_of heads.new)) }
    ensures only { IfErr result IsOfWrite }
    ensures clean { IsTrue (H.Disk.is_clean (heads_of heads.new))
        → IsTrue (H.Disk.is_clean (heads_of heads.old)) }
{
    if text.is_empty() {
        return Ok(());
    }
    heads.add(text)?;
    Ok(())
}

/// Puts operations one after another: the data sets of what is new, and then, in one group, the
/// heads. After a refusal what was done to the heads in memory has to be undone.
#[tactic(auto, using(crate::proofs::Faults::write_is_put))]
pub(crate) fn put_group<H: Disk, B: Disk>(
    heads: &mut HeadLog<H>,
    bodies: &mut BodyLog<B>,
    places: &mut Places,
    group: &mut Group,
    ops: &[Digested],
) -> Result<(), LogFault>
    requires below { All (IsBelow (end_of bodies.old)) places.old }
    requires reach { Reaches B.Disk bodies.old (end_of bodies.old) }
    requires begun { IsBegun group.old }
    ensures put { OnOk result (PutsAll B.Disk (disk_of bodies.new) (end_of bodies.new)
        places.old ops.now group.new.kepts.items places.new) }
    ensures lasting { OnOk result ((e : Entry)
        → IsHeld B.Disk (disk_of bodies.new) (end_of bodies.new) e
        → IsLasting B.Disk (disk_of bodies.new) (end_of bodies.new) e) }
    ensures kept { OnOk result (IsKept H.Disk (heads_of heads.old) (heads_end heads.old) places.old
        → IsKept H.Disk (heads_of heads.new) (heads_end heads.new) places.new) }
    ensures refused { OnErr result (IsTrue (is_up H.Disk heads.new)
        → IsKept H.Disk (heads_of heads.old) (heads_end heads.old) places.old
        → IsKept H.Disk (heads_of heads.new) (heads_end heads.new) places.old) }
    ensures crash { IsKept H.Disk (heads_of heads.old) (heads_end heads.old) places.old
        → LeavesAllOrNone H.Disk B.Disk (heads_of heads.new) (disk_of bodies.new)
        (end_of bodies.new) places.old ops.now }
    ensures places { KeepsPlaces bodies.old bodies.new places.old places.new
        (replaced_in group.old) (replaced_in group.new) }
    ensures grows { Grows B.Disk bodies.old bodies.new }
    ensures closed { IsErrOf result LogFault.Closed → (is_up H.Disk heads.old
        && B.Disk.is_usable (disk_of bodies.old)) ≡ false }
    ensures too_long { IsErrOf result LogFault.TooLong → (2 ^ 40 ≤ heads_long ops.now)
        ⊎ ((2 ^ 60 < (heads_end heads.old).at)
        ⊎ (2 ^ 64 ≤ end_of bodies.old + bodies_long ops.now)) }
    ensures disk { IsErrOf result LogFault.Disk
        → MoreFaults (H.Disk.faults (heads_of heads.old)) (H.Disk.faults (heads_of heads.new))
        ⊎ MoreFaults (B.Disk.faults (disk_of bodies.old)) (B.Disk.faults (disk_of bodies.new)) }
    ensures collision { IsErrOf result LogFault.Collision → ComesToClash B.Disk (disk_of bodies.new)
        (end_of bodies.new) places.old ops.now }
    ensures only { IfErr result IsOfPut }
    ensures clean { IsTrue (H.Disk.is_clean (heads_of heads.new))
        → IsTrue (H.Disk.is_clean (heads_of heads.old)) }
{
    stage(bodies, places, group, ops)?;
    add_heads(heads, &group.text)?;
    Ok(())
}
