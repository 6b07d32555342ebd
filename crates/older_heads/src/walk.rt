//! Finds where the groups of an older file end.

ghost use Rattle.std.specs.Prelude.{◌≡◌, ◌≢◌, ◌<◌, ◌≤◌, ◌+◌, ◌^◌, ◌↔◌, ℕ, Ok, None, IsTrue, IfOk, IfErr, IfSome};
ghost use Rattle.std.specs.Prelude.{IsErrOf, length, slice_index};
ghost use Rattle.std.specs.Int.{w64, to_le_bytes};
ghost use Rattle.sqlite_disk.specs.Disk.{CountsFaultIf, Holds};
ghost use Rattle.head_log.specs.Fault.{CountsDisk, IsOfOpen};
ghost use Rattle.older_heads.specs.Gates.{EndsAt, IsCutAt, IsOpenAt, IsStuckAt};
ghost use Rattle.head_log.specs.Reads.{OnlyReads};

use crate::text::number_in;
use head_log::HeadFault;
use sqlite_disk::Disk;
use std::io;

/// Whether the gate at an offset is open.
fn is_open_at<D: Disk>(disk: &mut D, at: usize) -> io::Result<bool>
    requires usable { IsTrue (D.Disk.is_usable disk.old) }
    ensures gate { IfOk result (λ is. IsTrue (D.Disk.is_clean disk.new)
        → (IsTrue is ↔ (slice_index (D.Disk.seen disk.old) at ≡ 1))) }
    ensures same { OnlyReads D.Disk disk.old disk.new }
    ensures counted { CountsFaultIf (IsTrue (D.Disk.is_clean disk.old)
        → at + 1 ≤ length (D.Disk.seen disk.old))
        result (D.Disk.faults disk.old) (D.Disk.faults disk.new) }
{
    let mut gate = [0];
    disk.read_at(at, &mut gate)?;
    Ok(gate[0] == 1)
}

/// The number in eight bytes of a file.
pub(crate) fn number_at<D: Disk>(disk: &mut D, at: usize) -> io::Result<usize>
    requires usable { IsTrue (D.Disk.is_usable disk.old) }
    ensures number { IfOk result (λ n. IsTrue (D.Disk.is_clean disk.new)
        → Holds (D.Disk.seen disk.old) at (to_le_bytes w64 n)) }
    ensures fits { IfOk result (λ n. n < 2 ^ 64) }
    ensures same { OnlyReads D.Disk disk.old disk.new }
    ensures counted { CountsFaultIf (IsTrue (D.Disk.is_clean disk.old)
        → at + 8 ≤ length (D.Disk.seen disk.old))
        result (D.Disk.faults disk.old) (D.Disk.faults disk.new) }
{
    let mut number = [0; 8];
    disk.read_at(at, &mut number)?;
    Ok(number_in(&number) as usize)
}

/// How long the group at a gate is, or `None` where the gate is not open.
pub(crate) fn size_at<D: Disk>(disk: &mut D, at: usize) -> io::Result<Option<usize>>
    requires usable { IsTrue (D.Disk.is_usable disk.old) }
    requires room { at + 1 < 2 ^ 64 }
    ensures none { result ≡ Ok None → IsTrue (D.Disk.is_clean disk.new)
        → slice_index (D.Disk.seen disk.old) at ≢ 1 }
    ensures some { IfOk result (λ found. IfSome found (λ n. IsTrue (D.Disk.is_clean disk.new)
        → (slice_index (D.Disk.seen disk.old) at ≡ 1)
        × Holds (D.Disk.seen disk.old) (at + 1) (to_le_bytes w64 n))) }
    ensures fits { IfOk result (λ found. IfSome found (λ n. n < 2 ^ 64)) }
    ensures same { OnlyReads D.Disk disk.old disk.new }
    ensures counted { CountsFaultIf (IsTrue (D.Disk.is_clean disk.old)
        → at + 9 ≤ length (D.Disk.seen disk.old))
        result (D.Disk.faults disk.old) (D.Disk.faults disk.new) }
{
    if !is_open_at(disk, at)? {
        return Ok(None);
    }
    let size = number_at(disk, at + 1)?;
    Ok(Some(size))
}

/// Where the group at a gate ends, or `None` where the gate is not open. A group for which the file
/// has no room is damaged.
fn next_at<D: Disk>(disk: &mut D, at: usize, len: usize) -> Result<Option<usize>, HeadFault>
    requires usable { IsTrue (D.Disk.is_usable disk.old) }
    requires before { at < len }
    requires whole { IsTrue (D.Disk.is_clean disk.old) → len ≡ length (D.Disk.seen disk.old) }
    ensures shut { result ≡ Ok None → IsTrue (D.Disk.is_clean disk.new)
        → slice_index (D.Disk.seen disk.old) at ≢ 1 }
    ensures group { IfOk result (λ found. IfSome found (λ next. IsTrue (D.Disk.is_clean disk.new)
        → (n : ℕ) × IsOpenAt (D.Disk.seen disk.old) at n × (next ≡ at + 41 + n))) }
    ensures next { IfOk result (λ found. IfSome found (λ next. (at < next) × (next ≤ len))) }
    ensures same { OnlyReads D.Disk disk.old disk.new }
    // Each fault, only where it is.
    ensures place { (n : ℕ) → IsErrOf result (HeadFault.Damaged n) → n ≡ at }
    ensures damaged { IsErrOf result (HeadFault.Damaged at) → IsTrue (D.Disk.is_clean disk.new)
        → IsStuckAt (D.Disk.seen disk.old) at }
    ensures disk { CountsDisk result (D.Disk.faults disk.old) (D.Disk.faults disk.new) }
    ensures only { IfErr result IsOfOpen }
{
    if !is_open_at(disk, at)? {
        return Ok(None);
    }
    if len - at < 41 {
        return Err(HeadFault::Damaged(at));
    }
    let size = number_at(disk, at + 1)?;
    if size > len - at - 41 {
        return Err(HeadFault::Damaged(at));
    }
    Ok(Some(at + 41 + size))
}

/// Where the groups end: at the first gate that is not open. No sum is tested.
pub(crate) fn end_at<D: Disk>(disk: &mut D, len: usize) -> Result<usize, HeadFault>
    requires usable { IsTrue (D.Disk.is_usable disk.old) }
    requires some { 1 < len }
    requires whole { IsTrue (D.Disk.is_clean disk.old) → len ≡ length (D.Disk.seen disk.old) }
    ensures ended { IfOk result (λ at. IsTrue (D.Disk.is_clean disk.new)
        → EndsAt (D.Disk.seen disk.old) at) }
    ensures same { OnlyReads D.Disk disk.old disk.new }
    // Each fault, only where it is.
    ensures damaged { (n : ℕ) → IsErrOf result (HeadFault.Damaged n)
        → IsTrue (D.Disk.is_clean disk.new) → IsCutAt (D.Disk.seen disk.old) n }
    ensures disk { CountsDisk result (D.Disk.faults disk.old) (D.Disk.faults disk.new) }
    ensures only { IfErr result IsOfOpen }
{
    let mut at = 0;
    'groups: while at < len {
        let Some(next) = next_at(disk, at, len)? else {
            return Ok(at);
        };
        at = next;
    }
    Err(HeadFault::Damaged(at))
}
