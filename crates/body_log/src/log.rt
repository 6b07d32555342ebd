//! A file to whose end bodies are added.

ghost use Rattle.std.specs.Prelude.{◌≡◌, ◌+◌, ◌≤◌, ◌<◌, ◌^◌, ◌↔◌, List, ℕ, false, length, IsTrue, IfOk, IfErr, OnOk};
ghost use Rattle.std.specs.Prelude.{OnErr, IsErrOf};
ghost use Rattle.sqlite_disk.specs.Disk.{CountsFault, Holds, Only};
ghost use Rattle.body_log.specs.Fault.{CountsAs, CountsAsIf};
ghost use Rattle.body_log.specs.Lasts.{Lasts, Settles, Spares, Stays, IsExact};

use crate::fault::BodyFault;
use crate::refused::Refused;
use sqlite_disk::Disk;
use std::io;

/// A file whose bytes below its end are never written again.
pub struct BodyLog<D: Disk> {
    disk: D,
    end: usize,
}

// It is written out, so that a caller does not prove again how each part is dropped.
impl<D: Disk + Drop> Drop for BodyLog<D> {
    fn drop(self) {
        let BodyLog { disk: _, end: _ } = self;
    }
}

/// How long a file is, all of which is synced first.
fn synced_len<D: Disk>(disk: &mut D) -> io::Result<usize>
    requires usable { IsTrue (D.Disk.is_usable disk.old) }
    ensures len { IfOk result (λ len. IsTrue (D.Disk.is_clean disk.new)
        → len ≡ length (D.Disk.seen disk.old)) }
    ensures only { OnOk result (Only (D.Disk.seen disk.old) (D.Disk.may_leave disk.new)) }
    ensures usable { OnOk result (IsTrue (D.Disk.is_usable disk.new)) }
    ensures stays { Stays D.Disk disk.old disk.new }
    ensures counted { CountsFault result (D.Disk.faults disk.old) (D.Disk.faults disk.new) }
{
    disk.sync()?;
    disk.len()
}

impl<D: Disk + Drop> BodyLog<D> {
    ghost use Rattle.body_log.specs.Log.{disk_of, end_of, file_of};

    /// The log of a file, all of which is synced first. A file that is refused is handed back.
    pub fn over(disk: D) -> Result<BodyLog<D>, Refused<D>>
        requires usable { IsTrue (D.Disk.is_usable disk) }
        // All that the file has lasts, and lies below the end.
        ensures settled { IfOk result (λ log. Settles D.Disk disk (disk_of log)) }
        ensures end { IfOk result (λ log. IsTrue (D.Disk.is_clean (disk_of log))
            → end_of log ≡ length (D.Disk.seen disk)) }
        ensures clean { IfOk result (λ log. IsTrue (D.Disk.is_clean (disk_of log))
            → IsTrue (D.Disk.is_clean disk)) }
        ensures reach { IfOk result (λ log. IsTrue (D.Disk.is_clean (disk_of log))
            → end_of log ≤ length (D.Disk.seen (disk_of log))) }
        ensures usable { IfOk result (λ log. IsTrue (D.Disk.is_usable (disk_of log))) }
        // Whatever is answered, nothing was written: the file has what it had, after a crash too.
        ensures kept { Stays D.Disk disk (file_of result) }
        // It is refused only where the disk refused.
        ensures fault { IfErr result (λ refused. refused.fault ≡ BodyFault.Disk) }
        ensures disk { CountsFault result (D.Disk.faults disk) (D.Disk.faults (file_of result)) }
    {
        let mut disk = disk;
        match synced_len(&mut disk) {
            Ok(end) => Ok(BodyLog { disk, end }),
            Err(_error) => Err(Refused {
                fault: BodyFault::Disk,
                disk,
            }),
        }
    }

    /// The file.
    pub fn into_disk(self) -> D
        ensures { result ≡ disk_of self }
    {
        let BodyLog { disk, end: _ } = self;
        disk
    }
}

impl<D: Disk> BodyLog<D> {
    ghost use Rattle.body_log.specs.Log.{disk_of, end_of};

    /// Where the next body goes.
    pub fn end(&self) -> usize
        ensures { result ≡ end_of self.now }
    {
        self.end
    }

    /// Whether no sync has failed.
    pub fn is_usable(&self) -> bool
        ensures { result ≡ D.Disk.is_usable (disk_of self.now) }
    {
        self.disk.may_be_used()
    }

    /// Adds a body behind the others, and answers its place. A crash may lose it until `settle`.
    pub fn add(&mut self, body: &[u8]) -> Result<usize, BodyFault>
        // Where it lies.
        ensures place { IfOk result (λ at. at ≡ end_of self.old) }
        ensures held { IfOk result (λ at. 0 < length body.now
            → Holds (D.Disk.seen (disk_of self.new)) at body.now) }
        ensures end { IfOk result (λ at. end_of self.new ≡ at + length body.now) }

        // Whatever is answered, no body that was there is touched.
        ensures spared { Spares D.Disk (end_of self.old) (disk_of self.old) (disk_of self.new) }
        ensures refused { OnErr result (end_of self.new ≡ end_of self.old) }
        ensures usable { D.Disk.is_usable (disk_of self.new)
            ≡ D.Disk.is_usable (disk_of self.old) }

        // Each fault, only where it is.
        ensures closed { IsErrOf result BodyFault.Closed
            ↔ (D.Disk.is_usable (disk_of self.old) ≡ false) }
        ensures too_long { IsErrOf result BodyFault.TooLong
            → 2 ^ 64 ≤ end_of self.old + length body.now }
        ensures disk { CountsAs BodyFault.Disk result
            (D.Disk.faults (disk_of self.old)) (D.Disk.faults (disk_of self.new)) }
    {
        if !self.disk.may_be_used() {
            return Err(BodyFault::Closed);
        }
        let at = self.end;
        let Some(end) = at.checked_add(body.len()) else {
            return Err(BodyFault::TooLong);
        };
        self.disk.write_at(at, body)?;
        self.end = end;
        Ok(at)
    }

    /// Syncs. After `Ok` every crash leaves each body that was added.
    pub fn settle(&mut self) -> Result<(), BodyFault>
        ensures settled { OnOk result (Settles D.Disk (disk_of self.old) (disk_of self.new)) }
        ensures seen { D.Disk.seen (disk_of self.new) ≡ D.Disk.seen (disk_of self.old) }
        ensures usable { OnOk result (IsTrue (D.Disk.is_usable (disk_of self.new))) }
        ensures end { end_of self.new ≡ end_of self.old }
        ensures spared { Spares D.Disk (end_of self.old) (disk_of self.old) (disk_of self.new) }

        // Each fault, only where it is.
        ensures closed { IsErrOf result BodyFault.Closed
            ↔ (D.Disk.is_usable (disk_of self.old) ≡ false) }
        ensures disk { CountsAs BodyFault.Disk result
            (D.Disk.faults (disk_of self.old)) (D.Disk.faults (disk_of self.new)) }
        ensures fits { ¬ IsErrOf result BodyFault.TooLong }
    {
        if !self.disk.may_be_used() {
            return Err(BodyFault::Closed);
        }
        self.disk.sync()?;
        Ok(())
    }

    /// Reads a body again, as many bytes as `body` has room for.
    pub fn read(&mut self, at: usize, body: &mut [u8]) -> Result<(), BodyFault>
        // What comes is what was added, as long as the disk returns what was written.
        ensures exact { OnOk result (IsTrue (D.Disk.is_clean (disk_of self.new))
            → IsExact (D.Disk.seen (disk_of self.old)) at body.new) }
        ensures held { OnOk result (IsTrue (D.Disk.is_clean (disk_of self.new))
            → 0 < length body.old → Holds (D.Disk.seen (disk_of self.new)) at body.new) }
        ensures seen { D.Disk.seen (disk_of self.new) ≡ D.Disk.seen (disk_of self.old) }
        ensures end { end_of self.new ≡ end_of self.old }
        ensures spared { Spares D.Disk (end_of self.old) (disk_of self.old) (disk_of self.new) }
        ensures usable { D.Disk.is_usable (disk_of self.new)
            ≡ D.Disk.is_usable (disk_of self.old) }

        // Each fault, only where it is.
        ensures closed { IsErrOf result BodyFault.Closed
            ↔ (D.Disk.is_usable (disk_of self.old) ≡ false) }
        ensures disk { CountsAsIf (IsTrue (D.Disk.is_clean (disk_of self.old))
            → at + length body.old ≤ length (D.Disk.seen (disk_of self.old))) BodyFault.Disk result
            (D.Disk.faults (disk_of self.old)) (D.Disk.faults (disk_of self.new)) }
        ensures fits { ¬ IsErrOf result BodyFault.TooLong }
    {
        if !self.disk.may_be_used() {
            return Err(BodyFault::Closed);
        }
        self.disk.read_at(at, body)?;
        Ok(())
    }
}
