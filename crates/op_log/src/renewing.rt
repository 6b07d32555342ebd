//! Copies the groups of a file in the older form into another file, in this form.

ghost use Rattle.std.specs.Prelude.{◌≡◌, ◌↔◌, ◌⊎◌, [], ℕ, List, IfErr, IfOk, IsErrOf, IsTrue, MatchResult, OnOk};
ghost use Rattle.sqlite_disk.specs.Disk.{MoreFaults};
ghost use Rattle.head_log.specs.declared.gate.Gate.{Gate};
ghost use Rattle.head_log.specs.Groups.{IsReady, StandsFor};
ghost use Rattle.head_log.specs.Log.{disk_of as new_disk, gate_of, is_up};
ghost use Rattle.head_log.specs.Reads.{OnlyReads};
ghost use Rattle.older_heads.specs.Groups.{HidesGroup, Laid, Ready};
ghost use Rattle.older_heads.specs.Groups.{StandsFor as IsOlderOf};
ghost use Rattle.older_heads.specs.Log.{Looks, disk_of, end_of};
ghost use Rattle.older_heads.specs.Renewing.{Reaches};
ghost use Rattle.op_log.specs.Renewing.{fault_of_new};

use head_log::{HeadFault, HeadLog, Refused};
use older_heads::{OlderHeads, RenewFault, renew};
use sqlite_disk::Disk;
use std::alloc::Global;

/// The fault of a file that was just made. Where it is not as it was written its disk failed: what
/// is told as damaged is the older file, with a place in that.
fn fault_of_new(fault: HeadFault) -> HeadFault
    ensures { result ≡ fault_of_new fault }
{
    match fault {
        HeadFault::Damaged(_) => HeadFault::Disk,
        other => other,
    }
}

/// Adds the groups of an older file to a log, in their order.
fn copy<O: Disk, N: Disk>(older: &mut OlderHeads<O>, log: &mut HeadLog<N>) -> Result<(), HeadFault>
    // Of a log that had none: all groups of the older file and no others, whatever a crash leaves.
    ensures all { OnOk result (IsTrue (O.Disk.is_clean (disk_of older.new))
        → (groups : List (List ℕ))
        → Laid (O.Disk.seen (disk_of older.old)) 0 groups (end_of older.old)
        → IsReady N.Disk (new_disk log.old) (gate_of log.old) []
        → IsReady N.Disk (new_disk log.new) (gate_of log.new) groups) }
    ensures same { Looks O.Disk older.old older.new }
    ensures clean { IsTrue (N.Disk.is_clean (new_disk log.new))
        → IsTrue (N.Disk.is_clean (new_disk log.old)) }

    // Each fault, only where it is.
    ensures damaged { (n : ℕ) → IsErrOf result (HeadFault.Damaged n)
        → IsTrue (O.Disk.is_clean (disk_of older.new)) → (groups : List (List ℕ))
        → ¬ Laid (O.Disk.seen (disk_of older.old)) 0 groups (end_of older.old) }
    ensures disk { Reaches O.Disk older.old → IsErrOf result HeadFault.Disk
        → MoreFaults (O.Disk.faults (disk_of older.old)) (O.Disk.faults (disk_of older.new))
        ⊎ MoreFaults (N.Disk.faults (new_disk log.old)) (N.Disk.faults (new_disk log.new)) }
{
    match renew(older, log) {
        Ok(()) => Ok(()),
        Err(RenewFault::Older(fault)) => Err(fault),
        Err(RenewFault::Newer(fault)) => Err(fault_of_new(fault)),
    }
}

/// The groups of an older file, in one that has none, and whether the older one has a whole group
/// more, behind the gate at which they end. Both files come back, since each is locked for as long
/// as it is open; where the older one is refused it comes back alone.
pub(crate) fn renewed<O: Disk + Drop, N: Disk + Drop>(
    alloc: Global,
    older: O,
    new: N,
) -> Result<(O, N, bool), Refused<O>>
    requires older { IsTrue (O.Disk.is_usable older) }
    requires new { IsTrue (N.Disk.is_usable new) }
    // All groups of the older file and no others, whatever a crash leaves.
    ensures all { IfOk result (λ files. IsTrue (O.Disk.is_clean files.0)
        → IsTrue (N.Disk.is_clean files.1) → (groups : List (List ℕ))
        → IsOlderOf (O.Disk.seen older) groups → StandsFor (N.Disk.seen new) []
        → (end : Gate) × IsReady N.Disk files.1 end groups) }
    ensures hides { IfOk result (λ files. IsTrue (O.Disk.is_clean files.0) → (end : ℕ)
        → (groups : List (List ℕ)) → Ready (O.Disk.seen older) end groups
        → (IsTrue files.2 ↔ HidesGroup (O.Disk.seen older) end)) }
    // Whatever is answered, the older file was only read.
    ensures same { MatchResult result (λ files. OnlyReads O.Disk older files.0)
        (λ refused. OnlyReads O.Disk older refused.disk) }
    ensures damaged { IfErr result (λ refused. (n : ℕ) → refused.fault ≡ HeadFault.Damaged n
        → IsTrue (O.Disk.is_clean refused.disk) → (groups : List (List ℕ))
        → ¬ IsOlderOf (O.Disk.seen older) groups) }
{
    let mut log = match HeadLog::over(alloc, new) {
        Ok(log) => log,
        Err(refused) => {
            return Err(Refused {
                fault: fault_of_new(refused.fault),
                disk: older,
            });
        }
    };
    let mut older = match OlderHeads::over(alloc, older) {
        Ok(older) => older,
        Err(refused) => return Err(refused),
    };
    if let Err(fault) = copy(&mut older, &mut log) {
        return Err(Refused {
            fault,
            disk: older.into_disk(),
        });
    }
    match older.hides_a_group() {
        Ok(hides) => Ok((older.into_disk(), log.into_disk(), hides)),
        Err(fault) => Err(Refused {
            fault,
            disk: older.into_disk(),
        }),
    }
}
