//! Copies the groups of an older file into a log of groups.

ghost use Rattle.std.specs.Prelude.{◌≡◌, [], List, ℕ, Err, IsTrue, OnOk, IfErr};
ghost use Rattle.sqlite_disk.specs.Disk.{MoreFaults};
ghost use Rattle.head_log.specs.Groups.{IsReady};
ghost use Rattle.head_log.specs.Log.{disk_of as new_disk, gate_of, is_up};
ghost use Rattle.older_heads.specs.Groups.{Laid};
ghost use Rattle.older_heads.specs.Log.{Looks, disk_of, end_of};
ghost use Rattle.older_heads.specs.Renewing.{IsOfRenewing, Reaches};

use crate::log::OlderHeads;
use head_log::{HeadFault, HeadLog};
use sqlite_disk::Disk;

/// Why the groups of an older file were not all copied.
#[derive(Clone, Copy, Debug, PartialEq, Eq, Hash)]
pub enum RenewFault {
    /// The older file refused, or is damaged.
    Older(HeadFault),
    /// The log to which the groups were added refused one.
    Newer(HeadFault),
}

/// Adds the groups of an older file to a log, in their order. One group at a time is in memory.
/// After a refusal the log has some of them.
pub fn renew<O: Disk, N: Disk>(
    older: &mut OlderHeads<O>,
    log: &mut HeadLog<N>,
) -> Result<(), RenewFault>
    // Of a log that had none: all groups of the older file and no others, whatever a crash leaves.
    ensures all { OnOk result (IsTrue (O.Disk.is_clean (disk_of older.new))
        → (groups : List (List ℕ))
        → Laid (O.Disk.seen (disk_of older.old)) 0 groups (end_of older.old)
        → IsReady N.Disk (new_disk log.old) (gate_of log.old) []
        → IsReady N.Disk (new_disk log.new) (gate_of log.new) groups) }
    ensures up { OnOk result (IsTrue (is_up N.Disk log.old) → IsTrue (is_up N.Disk log.new)) }
    ensures same { Looks O.Disk older.old older.new }
    ensures clean { IsTrue (N.Disk.is_clean (new_disk log.new))
        → IsTrue (N.Disk.is_clean (new_disk log.old)) }

    // Each fault, only where it is.
    ensures damaged { (n : ℕ) → result ≡ Err (RenewFault.Older (HeadFault.Damaged n))
        → IsTrue (O.Disk.is_clean (disk_of older.new)) → (groups : List (List ℕ))
        → ¬ Laid (O.Disk.seen (disk_of older.old)) 0 groups (end_of older.old) }
    ensures older { Reaches O.Disk older.old
        → result ≡ Err (RenewFault.Older HeadFault.Disk)
        → MoreFaults (O.Disk.faults (disk_of older.old)) (O.Disk.faults (disk_of older.new)) }
    ensures newer { result ≡ Err (RenewFault.Newer HeadFault.Disk)
        → MoreFaults (N.Disk.faults (new_disk log.old)) (N.Disk.faults (new_disk log.new)) }
    ensures only { IfErr result IsOfRenewing }
{
    let mut at = 0;
    'groups: while at < older.end() {
        let found = match older.group(at) {
            Ok(found) => found,
            Err(fault) => return Err(RenewFault::Older(fault)),
        };
        let Some((group, next)) = found else {
            return Ok(());
        };
        if let Err(fault) = log.add(&group) {
            return Err(RenewFault::Newer(fault));
        }
        at = next;
    }
    Ok(())
}
