//! Reads a group again.

ghost use Rattle.std.specs.Prelude.{◌≡◌, ◌<◌, ◌≤◌, ◌+◌, ◌++◌, ◌^◌, ◌↔◌, ◌⊎◌, List, ℕ, Ok, None, length, IsTrue, IfOk};
ghost use Rattle.std.specs.Prelude.{IfErr, IfSome, IsErrOf};
ghost use Rattle.sqlite_disk.specs.Disk.{Holds};
ghost use Rattle.head_log.specs.Fault.{CountsDisk};
ghost use Rattle.head_log.specs.Groups.{IsGroupAt, gate_after, sum_of};
ghost use Rattle.head_log.specs.Reads.{OnlyReads};

use crate::fault::HeadFault;
use crate::found::Found;
use crate::gate::Gate;
use crate::text::has_sum;
use crate::walk::{size_at, sum_at};
use sqlite_disk::Disk;
use std::alloc::Global;

/// So many bytes.
fn bytes_at<D: Disk>(
    alloc: Global,
    disk: &mut D,
    at: usize,
    size: usize,
) -> Result<Vec<u8>, HeadFault>
    requires usable { IsTrue (D.Disk.is_usable disk.old) }
    requires some { 0 < size }
    ensures read { IfOk result (λ bytes. IsTrue (D.Disk.is_clean disk.new)
        → Holds (D.Disk.seen disk.old) at bytes.items) }
    ensures size { IfOk result (λ bytes. length bytes.items ≡ size) }
    ensures only { IfErr result (λ fault. (fault ≡ HeadFault.Disk) ⊎ (fault ≡ HeadFault.Memory)) }
    ensures same { OnlyReads D.Disk disk.old disk.new }
    ensures disk { (IsTrue (D.Disk.is_clean disk.old)
        → at + size ≤ length (D.Disk.seen disk.old))
        → CountsDisk result (D.Disk.faults disk.old) (D.Disk.faults disk.new) }
{
    let mut bytes = Vec::new(alloc);
    bytes.resize(size, 0)?;
    disk.read_at(at, bytes.as_mut_slice())?;
    Ok(bytes)
}

/// The group of so many bytes behind a gate, or `None` where its sum is another.
fn tested_at<D: Disk>(
    alloc: Global,
    disk: &mut D,
    gate: &Gate,
    size: usize,
) -> Result<Option<Found>, HeadFault>
    requires usable { IsTrue (D.Disk.is_usable disk.old) }
    requires some { 0 < size }
    requires room { gate.now.at + 48 + size < 2 ^ 64 }
    ensures held { IfOk result (λ found. IfSome found (λ it. IsTrue (D.Disk.is_clean disk.new)
        → Holds (D.Disk.seen disk.old) (gate.now.at + 16)
        (sum_of gate.now.prior it.group.items ++ it.group.items))) }
    ensures size { IfOk result (λ found. IfSome found (λ it. length it.group.items ≡ size)) }
    ensures next { IfOk result (λ found. IfSome found (λ it.
        it.next ≡ gate_after gate.now it.group.items)) }
    ensures other { result ≡ Ok None → IsTrue (D.Disk.is_clean disk.new) → (group : List ℕ)
        → length group ≡ size → ¬ Holds (D.Disk.seen disk.old) (gate.now.at + 16)
        (sum_of gate.now.prior group ++ group) }
    ensures only { IfErr result (λ fault. (fault ≡ HeadFault.Disk) ⊎ (fault ≡ HeadFault.Memory)) }
    ensures same { OnlyReads D.Disk disk.old disk.new }
    ensures disk { (IsTrue (D.Disk.is_clean disk.old)
        → gate.now.at + 48 + size ≤ length (D.Disk.seen disk.old))
        → CountsDisk result (D.Disk.faults disk.old) (D.Disk.faults disk.new) }
{
    let sum = sum_at(disk, gate.at + 16)?;
    let group = bytes_at(alloc, disk, gate.at + 48, size)?;
    if !has_sum(&gate.prior, &group, &sum) {
        return Ok(None);
    }
    let next = Gate {
        at: gate.at + 48 + size,
        prior: sum,
    };
    Ok(Some(Found { group, next }))
}

/// Whether a group may have this size where so much room is left.
fn is_lawful(size: usize, room: usize) -> bool
    ensures { IsTrue result ↔ ((0 < size) × (size < 2 ^ 40) × (size ≤ room)) }
{
    0 < size && size < 1 << 40 && size <= room
}

/// The group at a gate, which lies before an offset.
pub(crate) fn group_at<D: Disk>(
    alloc: Global,
    disk: &mut D,
    gate: &Gate,
    end: usize,
) -> Result<Found, HeadFault>
    requires usable { IsTrue (D.Disk.is_usable disk.old) }
    requires before { gate.now.at < end }
    ensures group { IfOk result (λ it. IsTrue (D.Disk.is_clean disk.new)
        → IsGroupAt (D.Disk.seen disk.old) gate.now it.group.items) }
    ensures before { IfOk result (λ it. gate.now.at + 48 + length it.group.items ≤ end) }
    ensures next { IfOk result (λ it. it.next ≡ gate_after gate.now it.group.items) }
    ensures place { (n : ℕ) → IsErrOf result (HeadFault.Damaged n) → n ≡ gate.now.at }
    ensures damaged { IsErrOf result (HeadFault.Damaged gate.now.at)
        → IsTrue (D.Disk.is_clean disk.new) → (group : List ℕ)
        → gate.now.at + 48 + length group ≤ end
        → ¬ IsGroupAt (D.Disk.seen disk.old) gate.now group }
    ensures only { ¬ IsErrOf result HeadFault.Closed }
    ensures fits { ¬ IsErrOf result HeadFault.TooLong }
    ensures same { OnlyReads D.Disk disk.old disk.new }
    ensures disk { (IsTrue (D.Disk.is_clean disk.old) → end ≤ length (D.Disk.seen disk.old))
        → CountsDisk result (D.Disk.faults disk.old) (D.Disk.faults disk.new) }
{
    if end - gate.at < 48 {
        return Err(HeadFault::Damaged(gate.at));
    }
    let Some(size) = size_at(disk, gate.at)? else {
        return Err(HeadFault::Damaged(gate.at));
    };
    if !is_lawful(size, end - gate.at - 48) {
        return Err(HeadFault::Damaged(gate.at));
    }
    let Some(found) = tested_at(alloc, disk, gate, size)? else {
        return Err(HeadFault::Damaged(gate.at));
    };
    Ok(found)
}
