//! Walks the heads of a file into memory.

ghost use Rattle.std.specs.Prelude.{◌≡◌, ◌<◌, ◌≤◌, List, ℕ, [], All, length, IfErr, IfOk, IsErrOf, IsTrue};
ghost use Rattle.head_log.specs.Gates.{EndsAt};
ghost use Rattle.head_log.specs.Log.{disk_of, end_of, gate_of, Looks};
ghost use Rattle.sqlite_disk.specs.Disk.{MoreFaults};
ghost use Rattle.op_log.specs.Fault.{IsOfOpen};
ghost use Rattle.op_log.specs.Heads.{Head};
ghost use Rattle.op_log.specs.Kept.{IsBelow};
ghost use Rattle.op_log.specs.Walking.{AreLaid};

use crate::fault::LogFault;
use crate::filling::fill;
use crate::places::Places;
use head_log::{Gate, HeadLog};
use sqlite_disk::Disk;
use std::alloc::Global;

/// The places of all operations, in the order of their heads. One group at a time is in memory, and
/// no data set is read.
pub(crate) fn walk<H: Disk>(
    alloc: Global,
    heads: &mut HeadLog<H>,
    end: usize,
) -> Result<Places, LogFault>
    requires usable { IsTrue (H.Disk.is_usable (disk_of heads.old)) }
    // All of what lies in the file, in order, as long as the disk returns what was written, and the
    // log is at the end of its gates.
    ensures laid { IfOk result (λ places. IsTrue (H.Disk.is_clean (disk_of heads.new))
        → EndsAt (H.Disk.seen (disk_of heads.old)) (gate_of heads.old)
        → AreLaid (H.Disk.seen (disk_of heads.old)) (gate_of heads.old) end places) }
    ensures below { IfOk result (All (IsBelow end)) }
    ensures same { Looks H.Disk heads.old heads.new }
    // Each fault, only where it is.
    ensures damaged { (n : ℕ) → IsErrOf result (LogFault.DamagedHeads n)
        → IsTrue (H.Disk.is_clean (disk_of heads.new)) → (them : List Head)
        → AreLaid (H.Disk.seen (disk_of heads.old)) (gate_of heads.old) end them → ⊥ }
    ensures disk { (IsTrue (H.Disk.is_clean (disk_of heads.old))
        → end_of heads.old ≤ length (H.Disk.seen (disk_of heads.old)))
        → IsErrOf result LogFault.Disk → MoreFaults
        (H.Disk.faults (disk_of heads.old)) (H.Disk.faults (disk_of heads.new)) }
    ensures memory { IsErrOf result LogFault.Memory → 0 < end_of heads.old }
    ensures only { IfErr result IsOfOpen }
{
    let mut places = Places::new(alloc);
    let mut gate = Gate::first();
    'groups: while gate.at < heads.end() {
        let Some(found) = heads.group(gate)? else {
            return Ok(places);
        };
        // The heads stand behind the gate, a length and a sum.
        fill(&mut places, &found.group, gate.at.saturating_add(48), end)?;
        gate = found.next;
    }
    Ok(places)
}
