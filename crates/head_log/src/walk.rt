//! Finds where the groups of a file end.

ghost use Rattle.std.specs.Prelude.{◌≡◌, ◌<◌, ◌≤◌, ◌+◌, ◌^◌, ℕ, Ok, None, true, false, IsTrue, IfOk, IfErr, IfSome};
ghost use Rattle.std.specs.Prelude.{IsErrOf, length};
ghost use Rattle.std.specs.Int.{w64, to_le_bytes};
ghost use Rattle.sqlite_disk.specs.Disk.{CountsFaultIf, Holds};
ghost use Rattle.head_log.specs.Fault.{CountsDisk, IsOfOpen};
ghost use Rattle.head_log.specs.Gates.{EndsAt, IsCutAt, IsStuckAt, LeadsTo};
ghost use Rattle.head_log.specs.Groups.{is_shut_at};
ghost use Rattle.head_log.specs.Reads.{OnlyReads};

use crate::fault::HeadFault;
use crate::gate::{Gate, is_shut};
use crate::text::number_in;
use sqlite_disk::Disk;
use std::io;

/// Whether the gate at an offset is shut.
fn is_shut_at<D: Disk>(disk: &mut D, at: usize) -> io::Result<bool>
    requires usable { IsTrue (D.Disk.is_usable disk.old) }
    ensures gate { IfOk result (λ is. IsTrue (D.Disk.is_clean disk.new)
        → is ≡ is_shut_at (D.Disk.seen disk.old) at) }
    ensures same { OnlyReads D.Disk disk.old disk.new }
    ensures counted { CountsFaultIf (IsTrue (D.Disk.is_clean disk.old)
        → at + 8 ≤ length (D.Disk.seen disk.old))
        result (D.Disk.faults disk.old) (D.Disk.faults disk.new) }
{
    let mut gate = [0; 8];
    disk.read_at(at, &mut gate)?;
    Ok(is_shut(&gate))
}

/// The number in eight bytes of a file.
fn number_at<D: Disk>(disk: &mut D, at: usize) -> io::Result<usize>
    requires usable { IsTrue (D.Disk.is_usable disk.old) }
    ensures number { IfOk result (λ n. IsTrue (D.Disk.is_clean disk.new)
        → Holds (D.Disk.seen disk.old) at (to_le_bytes w64 n)) }
    ensures fits { IfOk result (λ n. n < 2 ^ 64) }
    ensures same { OnlyReads D.Disk disk.old disk.new }
    ensures counted { CountsFaultIf (IsTrue (D.Disk.is_clean disk.old)
        → at + 8 ≤ length (D.Disk.seen disk.old))
        result (D.Disk.faults disk.old) (D.Disk.faults disk.new) }
{
    let mut number = [0; 8];
    disk.read_at(at, &mut number)?;
    Ok(number_in(&number) as usize)
}

/// The sum of a group.
pub(crate) fn sum_at<D: Disk>(disk: &mut D, at: usize) -> io::Result<[u8; 32]>
    requires usable { IsTrue (D.Disk.is_usable disk.old) }
    ensures read { IfOk result (λ sum. IsTrue (D.Disk.is_clean disk.new)
        → Holds (D.Disk.seen disk.old) at sum) }
    ensures same { OnlyReads D.Disk disk.old disk.new }
    ensures counted { CountsFaultIf (IsTrue (D.Disk.is_clean disk.old)
        → at + 32 ≤ length (D.Disk.seen disk.old))
        result (D.Disk.faults disk.old) (D.Disk.faults disk.new) }
{
    let mut sum = [0; 32];
    disk.read_at(at, &mut sum)?;
    Ok(sum)
}

/// How long the group at a gate is, or `None` where the gate is shut.
pub(crate) fn size_at<D: Disk>(disk: &mut D, at: usize) -> io::Result<Option<usize>>
    requires usable { IsTrue (D.Disk.is_usable disk.old) }
    requires room { at + 8 < 2 ^ 64 }
    ensures none { result ≡ Ok None → IsTrue (D.Disk.is_clean disk.new)
        → is_shut_at (D.Disk.seen disk.old) at ≡ true }
    ensures not_shut { IfOk result (λ found. IfSome found (λ n. IsTrue (D.Disk.is_clean disk.new)
        → is_shut_at (D.Disk.seen disk.old) at ≡ false)) }
    ensures size { IfOk result (λ found. IfSome found (λ n. IsTrue (D.Disk.is_clean disk.new)
        → Holds (D.Disk.seen disk.old) (at + 8) (to_le_bytes w64 n))) }
    ensures fits { IfOk result (λ found. IfSome found (λ n. n < 2 ^ 64)) }
    ensures same { OnlyReads D.Disk disk.old disk.new }
    ensures counted { CountsFaultIf (IsTrue (D.Disk.is_clean disk.old)
        → at + 16 ≤ length (D.Disk.seen disk.old))
        result (D.Disk.faults disk.old) (D.Disk.faults disk.new) }
{
    if is_shut_at(disk, at)? {
        return Ok(None);
    }
    let size = number_at(disk, at + 8)?;
    Ok(Some(size))
}

/// The gate behind the group at a gate, or `None` where that is shut. A gate of which the file has
/// a part, and a group for which it has no room, are damaged.
fn next_at<D: Disk>(disk: &mut D, at: usize, len: usize) -> Result<Option<Gate>, HeadFault>
    requires usable { IsTrue (D.Disk.is_usable disk.old) }
    requires before { at < len }
    requires whole { IsTrue (D.Disk.is_clean disk.old) → len ≡ length (D.Disk.seen disk.old) }
    ensures within { result ≡ Ok None → at + 8 ≤ len }
    ensures shut { result ≡ Ok None → IsTrue (D.Disk.is_clean disk.new)
        → is_shut_at (D.Disk.seen disk.old) at ≡ true }
    ensures group { IfOk result (λ found. IfSome found (λ next. IsTrue (D.Disk.is_clean disk.new)
        → LeadsTo (D.Disk.seen disk.old) at next)) }
    ensures next { IfOk result (λ found. IfSome found (λ next.
        (at < next.at) × (next.at ≤ len))) }
    ensures same { OnlyReads D.Disk disk.old disk.new }
    // Each fault, only where it is.
    ensures place { (n : ℕ) → IsErrOf result (HeadFault.Damaged n) → n ≡ at }
    ensures damaged { IsErrOf result (HeadFault.Damaged at) → IsTrue (D.Disk.is_clean disk.new)
        → IsStuckAt (D.Disk.seen disk.old) at }
    ensures disk { CountsDisk result (D.Disk.faults disk.old) (D.Disk.faults disk.new) }
    ensures only { IfErr result IsOfOpen }
{
    if len - at < 8 {
        return Err(HeadFault::Damaged(at));
    }
    if is_shut_at(disk, at)? {
        return Ok(None);
    }
    if len - at < 48 {
        return Err(HeadFault::Damaged(at));
    }
    let size = number_at(disk, at + 8)?;
    if size > len - at - 48 {
        return Err(HeadFault::Damaged(at));
    }
    let prior = sum_at(disk, at + 16)?;
    Ok(Some(Gate {
        at: at + 48 + size,
        prior,
    }))
}

/// Where the groups end: at the first gate that is shut. No sum is tested.
pub(crate) fn end_at<D: Disk>(disk: &mut D, len: usize) -> Result<Gate, HeadFault>
    requires usable { IsTrue (D.Disk.is_usable disk.old) }
    requires some { 8 < len }
    requires whole { IsTrue (D.Disk.is_clean disk.old) → len ≡ length (D.Disk.seen disk.old) }
    ensures ended { IfOk result (λ end. IsTrue (D.Disk.is_clean disk.new)
        → EndsAt (D.Disk.seen disk.old) end) }
    ensures same { OnlyReads D.Disk disk.old disk.new }
    // Each fault, only where it is.
    ensures damaged { (n : ℕ) → IsErrOf result (HeadFault.Damaged n)
        → IsTrue (D.Disk.is_clean disk.new) → IsCutAt (D.Disk.seen disk.old) n }
    ensures disk { CountsDisk result (D.Disk.faults disk.old) (D.Disk.faults disk.new) }
    ensures only { IfErr result IsOfOpen }
{
    let mut gate = Gate::first();
    'groups: while gate.at < len {
        let Some(next) = next_at(disk, gate.at, len)? else {
            return Ok(gate);
        };
        gate = next;
    }
    Err(HeadFault::Damaged(gate.at))
}
