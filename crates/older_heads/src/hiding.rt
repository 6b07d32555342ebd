//! Whether a group stands behind the gate at which the others end.

ghost use Rattle.std.specs.Prelude.{◌≡◌, ◌≤◌, ◌+◌, ◌↔◌, ◌⊎◌, IfErr, IfOk, IsTrue, length};
ghost use Rattle.head_log.specs.Fault.{CountsDisk};
ghost use Rattle.head_log.specs.Reads.{OnlyReads};
ghost use Rattle.older_heads.specs.Groups.{HidesGroup};

use crate::reading::{is_lawful, tested_at};
use crate::walk::number_at;
use head_log::HeadFault;
use sqlite_disk::Disk;
use std::alloc::Global;

/// Whether a file of so many bytes has room for what stands before a group.
fn has_room(at: usize, len: usize) -> bool
    ensures { IsTrue result ↔ (at + 41 ≤ len) }
{
    len >= 41 && at <= len - 41
}

/// Whether a whole group stands behind a gate, whatever that is, in a file of so many bytes.
pub(crate) fn hides_at<D: Disk>(
    alloc: Global,
    disk: &mut D,
    at: usize,
    len: usize,
) -> Result<bool, HeadFault>
    requires usable { IsTrue (D.Disk.is_usable disk.old) }
    requires whole { IsTrue (D.Disk.is_clean disk.old) → len ≡ length (D.Disk.seen disk.old) }
    ensures hides { IfOk result (λ is. IsTrue (D.Disk.is_clean disk.new)
        → (IsTrue is ↔ HidesGroup (D.Disk.seen disk.old) at)) }
    ensures only { IfErr result (λ fault. (fault ≡ HeadFault.Disk) ⊎ (fault ≡ HeadFault.Memory)) }
    ensures same { OnlyReads D.Disk disk.old disk.new }
    ensures disk { CountsDisk result (D.Disk.faults disk.old) (D.Disk.faults disk.new) }
{
    if !has_room(at, len) {
        return Ok(false);
    }
    let size = number_at(disk, at + 1)?;
    if !is_lawful(size, len - at - 41) {
        return Ok(false);
    }
    let Some(_group) = tested_at(alloc, disk, at + 9, size)? else {
        return Ok(false);
    };
    Ok(true)
}
