//! A file of groups in the older form, which is only read.

ghost use Rattle.std.specs.Prelude.{◌≡◌, ◌<◌, ◌≤◌, ◌+◌, ◌↔◌, [], List, ℕ, false, length, Ok, None, IfOk, IfSome, IfErr};
ghost use Rattle.std.specs.Prelude.{IsErrOf, IsTrue, MatchResult};
ghost use Rattle.sqlite_disk.specs.Disk.{CountsFault, MoreFaults};
ghost use Rattle.head_log.specs.Fault.{CountsDisk, IsOfOpen};
ghost use Rattle.head_log.specs.Reads.{OnlyReads};
ghost use Rattle.older_heads.specs.Gates.{EndsAt, IsCutAt};
ghost use Rattle.older_heads.specs.Groups.{HidesGroup, IsGroupAt, Laid, StandsFor, is_older};

use crate::hiding::hides_at;
use crate::reading::group_at;
use crate::text::begins_older;
use crate::walk::end_at;
use head_log::{HeadFault, Refused};
use sqlite_disk::Disk;
use std::alloc::Global;
use std::io;

/// Whether a file is one of groups in the older form. A file of eight bytes at most is none, as it
/// has no group in either form; nor is one of zeros.
pub fn is_older<D: Disk>(disk: &mut D) -> io::Result<bool>
    requires usable { IsTrue (D.Disk.is_usable disk.old) }
    ensures exact { IfOk result (λ is. IsTrue (D.Disk.is_clean disk.new)
        → is ≡ is_older (D.Disk.seen disk.old)) }
    ensures same { OnlyReads D.Disk disk.old disk.new }
    ensures counted { CountsFault result (D.Disk.faults disk.old) (D.Disk.faults disk.new) }
{
    if disk.len()? <= 8 {
        return Ok(false);
    }
    let mut front = [0; 8];
    disk.read_at(0, &mut front)?;
    Ok(begins_older(&front))
}

/// A file of groups in the older form, up to the gate that is not open. Nothing is written.
pub struct OlderHeads<D: Disk> {
    disk: D,
    end: usize,
    alloc: Global,
}

// It is written out, so that a caller does not prove again how each part is dropped.
impl<D: Disk + Drop> Drop for OlderHeads<D> {
    fn drop(self) {
        let OlderHeads {
            disk: _,
            end: _,
            alloc: _,
        } = self;
    }
}

/// Where the groups of a file end. One that is none yet has none.
fn end_in<D: Disk>(disk: &mut D) -> Result<usize, HeadFault>
    requires usable { IsTrue (D.Disk.is_usable disk.old) }
    ensures found { IfOk result (λ end. IsTrue (D.Disk.is_clean disk.new)
        → (groups : List (List ℕ)) → StandsFor (D.Disk.seen disk.old) groups
        → Laid (D.Disk.seen disk.old) 0 groups end) }
    ensures reach { IfOk result (λ end. IsTrue (D.Disk.is_clean disk.new)
        → end ≤ length (D.Disk.seen disk.old)) }
    ensures same { OnlyReads D.Disk disk.old disk.new }
    // Each fault, only where it is.
    ensures damaged { (n : ℕ) → IsErrOf result (HeadFault.Damaged n)
        → IsTrue (D.Disk.is_clean disk.new) → IsCutAt (D.Disk.seen disk.old) n }
    ensures disk { CountsDisk result (D.Disk.faults disk.old) (D.Disk.faults disk.new) }
    ensures only { IfErr result IsOfOpen }
{
    let len = disk.len()?;
    if len > 1 {
        return end_at(disk, len);
    }
    Ok(0)
}

impl<D: Disk + Drop> OlderHeads<D> {
    ghost use Rattle.older_heads.specs.Log.{disk_of, end_of, file_of};

    /// The groups of a file. No sum is tested. A file that is refused is handed back.
    pub fn over(alloc: Global, disk: D) -> Result<OlderHeads<D>, Refused<D>>
        requires usable { IsTrue (D.Disk.is_usable disk) }
        // All that the file stood for.
        ensures found { IfOk result (λ log. IsTrue (D.Disk.is_clean (disk_of log))
            → (groups : List (List ℕ)) → StandsFor (D.Disk.seen disk) groups
            → Laid (D.Disk.seen (disk_of log)) 0 groups (end_of log)) }
        ensures reach { IfOk result (λ log. IsTrue (D.Disk.is_clean (disk_of log))
            → end_of log ≤ length (D.Disk.seen (disk_of log))) }
        // Whatever is answered, it was only read.
        ensures same { OnlyReads D.Disk disk (file_of result) }

        // Each fault, only where it is.
        ensures damaged { IfErr result (λ refused. (n : ℕ) → refused.fault ≡ HeadFault.Damaged n
            → IsTrue (D.Disk.is_clean refused.disk) → IsCutAt (D.Disk.seen disk) n) }
        ensures disk { MatchResult result
            (λ log. D.Disk.faults (disk_of log) ≡ D.Disk.faults disk)
            (λ refused. refused.fault ≡ HeadFault.Disk
            → MoreFaults (D.Disk.faults disk) (D.Disk.faults refused.disk)) }
        ensures only { IfErr result (λ refused. IsOfOpen refused.fault) }
    {
        let mut disk = disk;
        match end_in(&mut disk) {
            Ok(end) => Ok(OlderHeads { disk, end, alloc }),
            Err(fault) => Err(Refused { fault, disk }),
        }
    }

    /// The file.
    pub fn into_disk(self) -> D
        ensures { result ≡ disk_of self }
    {
        let OlderHeads {
            disk,
            end: _,
            alloc: _,
        } = self;
        disk
    }
}

impl<D: Disk> OlderHeads<D> {
    ghost use Rattle.older_heads.specs.Log.{disk_of, end_of, Looks};

    /// Where its groups end.
    pub fn end(&self) -> usize
        ensures { result ≡ end_of self.now }
    {
        self.end
    }

    /// The group at an offset, and where the next one stands; `None` at the end of the groups. They
    /// begin at offset 0.
    pub fn group(&mut self, at: usize) -> Result<Option<(Vec<u8>, usize)>, HeadFault>
        // The group that stands there, as long as the disk returns what was written.
        ensures group { IfOk result (λ found. IfSome found (λ it.
            IsTrue (D.Disk.is_clean (disk_of self.new))
            → IsGroupAt (D.Disk.seen (disk_of self.old)) at it.0.items)) }
        ensures next { IfOk result (λ found. IfSome found (λ it.
            (it.1 ≡ at + 41 + length it.0.items) × (it.1 ≤ end_of self.old))) }
        ensures some { IfOk result (λ found. IfSome found (λ it. 0 < length it.0.items)) }
        ensures none { result ≡ Ok None → end_of self.old ≤ at }
        ensures same { Looks D.Disk self.old self.new }

        // Each fault, only where it is.
        ensures closed { IsErrOf result HeadFault.Closed
            ↔ (D.Disk.is_usable (disk_of self.old) ≡ false) }
        ensures place { (n : ℕ) → IsErrOf result (HeadFault.Damaged n)
            → (n ≡ at) × (at < end_of self.old) }
        ensures damaged { IsErrOf result (HeadFault.Damaged at)
            → IsTrue (D.Disk.is_clean (disk_of self.new)) → (group : List ℕ)
            → at + 41 + length group ≤ end_of self.old
            → ¬ IsGroupAt (D.Disk.seen (disk_of self.old)) at group }
        ensures disk { (IsTrue (D.Disk.is_clean (disk_of self.old))
            → end_of self.old ≤ length (D.Disk.seen (disk_of self.old))) → CountsDisk result
            (D.Disk.faults (disk_of self.old)) (D.Disk.faults (disk_of self.new)) }
        ensures memory { IsErrOf result HeadFault.Memory → at < end_of self.old }
        ensures fits { ¬ IsErrOf result HeadFault.TooLong }
    {
        if !self.disk.may_be_used() {
            return Err(HeadFault::Closed);
        }
        if at >= self.end {
            return Ok(None);
        }
        let group = group_at(self.alloc, &mut self.disk, at, self.end)?;
        let next = at + 41 + group.len();
        Ok(Some((group, next)))
    }

    /// Whether a whole group stands behind the gate at which the groups end. It was being added
    /// when the archive was stopped, and nobody was answered that it was; or its gate was changed.
    pub fn hides_a_group(&mut self) -> Result<bool, HeadFault>
        ensures hides { IfOk result (λ is. IsTrue (D.Disk.is_clean (disk_of self.new))
            → (IsTrue is ↔ HidesGroup (D.Disk.seen (disk_of self.old)) (end_of self.old))) }
        ensures same { Looks D.Disk self.old self.new }

        // Each fault, only where it is.
        ensures closed { IsErrOf result HeadFault.Closed
            ↔ (D.Disk.is_usable (disk_of self.old) ≡ false) }
        ensures disk { CountsDisk result
            (D.Disk.faults (disk_of self.old)) (D.Disk.faults (disk_of self.new)) }
        ensures whole { (n : ℕ) → ¬ IsErrOf result (HeadFault.Damaged n) }
        ensures fits { ¬ IsErrOf result HeadFault.TooLong }
    {
        if !self.disk.may_be_used() {
            return Err(HeadFault::Closed);
        }
        let len = self.disk.len()?;
        hides_at(self.alloc, &mut self.disk, self.end, len)
    }
}
