//! Reads a group again.

ghost use Rattle.std.specs.Prelude.{◌≡◌, ◌<◌, ◌≤◌, ◌+◌, ◌++◌, ◌^◌, ◌↔◌, ◌⊎◌, List, ℕ, Ok, None, length, IsTrue, IfOk};
ghost use Rattle.std.specs.Prelude.{IfErr, IfSome, IsErrOf};
ghost use Rattle.sha2.specs.Sha256.{sha256};
ghost use Rattle.sqlite_disk.specs.Disk.{CountsFaultIf, Holds};
ghost use Rattle.head_log.specs.Fault.{CountsDisk};
ghost use Rattle.older_heads.specs.Groups.{IsGroupAt};
ghost use Rattle.head_log.specs.Reads.{OnlyReads};

use crate::text::has_sum;
use crate::walk::size_at;
use head_log::HeadFault;
use sqlite_disk::Disk;
use std::alloc::Global;
use std::io;

/// The sum of a group.
fn sum_at<D: Disk>(disk: &mut D, at: usize) -> io::Result<[u8; 32]>
    requires usable { IsTrue (D.Disk.is_usable disk.old) }
    ensures read { IfOk result (λ sum. IsTrue (D.Disk.is_clean disk.new)
        → Holds (D.Disk.seen disk.old) at sum) }
    ensures same { OnlyReads D.Disk disk.old disk.new }
    ensures counted { CountsFaultIf (IsTrue (D.Disk.is_clean disk.old)
        → at + 32 ≤ length (D.Disk.seen disk.old))
        result (D.Disk.faults disk.old) (D.Disk.faults disk.new) }
{
    let mut sum = [0; 32];
    disk.read_at(at, &mut sum)?;
    Ok(sum)
}

/// So many bytes.
fn bytes_at<D: Disk>(
    alloc: Global,
    disk: &mut D,
    at: usize,
    size: usize,
) -> Result<Vec<u8>, HeadFault>
    requires usable { IsTrue (D.Disk.is_usable disk.old) }
    requires some { 0 < size }
    ensures read { IfOk result (λ bytes. IsTrue (D.Disk.is_clean disk.new)
        → Holds (D.Disk.seen disk.old) at bytes.items) }
    ensures size { IfOk result (λ bytes. length bytes.items ≡ size) }
    ensures only { IfErr result (λ fault. (fault ≡ HeadFault.Disk) ⊎ (fault ≡ HeadFault.Memory)) }
    ensures same { OnlyReads D.Disk disk.old disk.new }
    ensures disk { (IsTrue (D.Disk.is_clean disk.old)
        → at + size ≤ length (D.Disk.seen disk.old))
        → CountsDisk result (D.Disk.faults disk.old) (D.Disk.faults disk.new) }
{
    let mut bytes = Vec::new(alloc);
    bytes.resize(size, 0)?;
    disk.read_at(at, bytes.as_mut_slice())?;
    Ok(bytes)
}

/// So many bytes behind their sum, or `None` where the sum is another.
pub(crate) fn tested_at<D: Disk>(
    alloc: Global,
    disk: &mut D,
    at: usize,
    size: usize,
) -> Result<Option<Vec<u8>>, HeadFault>
    requires usable { IsTrue (D.Disk.is_usable disk.old) }
    requires some { 0 < size }
    requires room { at + 32 < 2 ^ 64 }
    ensures held { IfOk result (λ found. IfSome found (λ group. IsTrue (D.Disk.is_clean disk.new)
        → Holds (D.Disk.seen disk.old) at (sha256 group.items ++ group.items))) }
    ensures size { IfOk result (λ found. IfSome found (λ group. length group.items ≡ size)) }
    ensures other { result ≡ Ok None → IsTrue (D.Disk.is_clean disk.new) → (group : List ℕ)
        → length group ≡ size
        → ¬ Holds (D.Disk.seen disk.old) at (sha256 group ++ group) }
    ensures only { IfErr result (λ fault. (fault ≡ HeadFault.Disk) ⊎ (fault ≡ HeadFault.Memory)) }
    ensures same { OnlyReads D.Disk disk.old disk.new }
    ensures disk { (IsTrue (D.Disk.is_clean disk.old)
        → at + 32 + size ≤ length (D.Disk.seen disk.old))
        → CountsDisk result (D.Disk.faults disk.old) (D.Disk.faults disk.new) }
{
    let sum = sum_at(disk, at)?;
    let group = bytes_at(alloc, disk, at + 32, size)?;
    if !has_sum(&group, &sum) {
        return Ok(None);
    }
    Ok(Some(group))
}

/// Whether a group may have this size where so much room is left.
pub(crate) fn is_lawful(size: usize, room: usize) -> bool
    ensures { IsTrue result ↔ ((0 < size) × (size < 2 ^ 40) × (size ≤ room)) }
{
    0 < size && size < 1 << 40 && size <= room
}

/// The group at a gate, which lies before an offset.
pub(crate) fn group_at<D: Disk>(
    alloc: Global,
    disk: &mut D,
    at: usize,
    end: usize,
) -> Result<Vec<u8>, HeadFault>
    requires usable { IsTrue (D.Disk.is_usable disk.old) }
    requires before { at < end }
    ensures group { IfOk result (λ group. IsTrue (D.Disk.is_clean disk.new)
        → IsGroupAt (D.Disk.seen disk.old) at group.items) }
    ensures some { IfOk result (λ group. 0 < length group.items) }
    ensures before { IfOk result (λ group. at + 41 + length group.items ≤ end) }
    ensures place { (n : ℕ) → IsErrOf result (HeadFault.Damaged n) → n ≡ at }
    ensures damaged { IsErrOf result (HeadFault.Damaged at) → IsTrue (D.Disk.is_clean disk.new)
        → (group : List ℕ) → at + 41 + length group ≤ end
        → ¬ IsGroupAt (D.Disk.seen disk.old) at group }
    ensures only { ¬ IsErrOf result HeadFault.Closed }
    ensures fits { ¬ IsErrOf result HeadFault.TooLong }
    ensures same { OnlyReads D.Disk disk.old disk.new }
    ensures disk { (IsTrue (D.Disk.is_clean disk.old) → end ≤ length (D.Disk.seen disk.old))
        → CountsDisk result (D.Disk.faults disk.old) (D.Disk.faults disk.new) }
{
    if end - at < 41 {
        return Err(HeadFault::Damaged(at));
    }
    let Some(size) = size_at(disk, at)? else {
        return Err(HeadFault::Damaged(at));
    };
    if !is_lawful(size, end - at - 41) {
        return Err(HeadFault::Damaged(at));
    }
    let Some(group) = tested_at(alloc, disk, at + 9, size)? else {
        return Err(HeadFault::Damaged(at));
    };
    Ok(group)
}
