//! A file of groups.

ghost use Rattle.std.specs.Prelude.{◌≡◌, ◌++◌, ◌∷◌, ◌<◌, ◌≤◌, ◌+◌, ◌^◌, ◌↔◌, ◌⊎◌, [], List, ℕ, false, length, Ok};
ghost use Rattle.std.specs.Prelude.{None, IfOk, IfSome, IsTrue, IsErrOf, OnOk, OnErr, IfErr, MatchResult};
ghost use Rattle.sqlite_disk.specs.Disk.{MoreFaults};
ghost use Rattle.head_log.specs.Fault.{CountsDisk, IsOfOpen};
ghost use Rattle.head_log.specs.Gates.{EndsAt, IsCutAt};
ghost use Rattle.head_log.specs.Groups.{IsEnded, IsGroupAt, IsReady, KeepsGroups, LeavesEither, StandsFor};
ghost use Rattle.head_log.specs.Groups.{gate_after};

use crate::adding::{begin, open, stage};
use crate::fault::HeadFault;
use crate::found::Found;
use crate::gate::Gate;
use crate::reading::group_at;
use crate::refused::Refused;
use crate::text::shut;
use crate::walk::end_at;
use sqlite_disk::Disk;
use std::alloc::Global;

/// A file of groups, up to its shut gate. After a refusal that may have opened the gate it is
/// closed, and has to be opened anew.
pub struct HeadLog<D: Disk> {
    disk: D,
    end: Gate,
    is_open: bool,
    alloc: Global,
}

// It is written out, so that a caller does not prove again how each part is dropped.
impl<D: Disk + Drop> Drop for HeadLog<D> {
    fn drop(self) {
        let HeadLog {
            disk: _,
            end: _,
            is_open: _,
            alloc: _,
        } = self;
    }
}

/// Where the groups of a file end, which is synced first. A file that is none yet is begun.
fn start<D: Disk>(disk: &mut D) -> Result<Gate, HeadFault>
    requires usable { IsTrue (D.Disk.is_usable disk.old) }
    ensures found { IfOk result (λ end. IsTrue (D.Disk.is_clean disk.new)
        → (groups : List (List ℕ)) → StandsFor (D.Disk.seen disk.old) groups
        → IsReady D.Disk disk.new end groups) }
    ensures ended { IfOk result (λ end. IsTrue (D.Disk.is_clean disk.new)
        → IsEnded D.Disk disk.new end.at) }
    ensures gates { IfOk result (λ end. IsTrue (D.Disk.is_clean disk.new)
        → EndsAt (D.Disk.seen disk.new) end) }
    ensures usable { OnOk result (IsTrue (D.Disk.is_usable disk.new)) }
    ensures clean { IsTrue (D.Disk.is_clean disk.new) → IsTrue (D.Disk.is_clean disk.old) }
    ensures kept { IsTrue (D.Disk.is_clean disk.new) → KeepsGroups D.Disk disk.old disk.new }
    // Each fault, only where it is.
    ensures damaged { (n : ℕ) → IsErrOf result (HeadFault.Damaged n)
        → IsTrue (D.Disk.is_clean disk.new) → IsCutAt (D.Disk.seen disk.old) n }
    ensures disk { CountsDisk result (D.Disk.faults disk.old) (D.Disk.faults disk.new) }
    ensures only { IfErr result IsOfOpen }
{
    disk.sync()?;
    let len = disk.len()?;
    if len > 8 {
        return end_at(disk, len);
    }
    begin(disk)?;
    Ok(Gate::first())
}

impl<D: Disk + Drop> HeadLog<D> {
    ghost use Rattle.head_log.specs.Log.{disk_of, end_of, file_of, gate_of, is_up};

    /// The log of a file: it is at the end of its groups, and every crash leaves them. A file of
    /// eight bytes at most is begun. No sum is tested. A file that is refused is handed back.
    pub fn over(alloc: Global, disk: D) -> Result<HeadLog<D>, Refused<D>>
        requires usable { IsTrue (D.Disk.is_usable disk) }
        ensures found { IfOk result (λ log. IsTrue (D.Disk.is_clean (disk_of log))
            → (groups : List (List ℕ)) → StandsFor (D.Disk.seen disk) groups
            → IsReady D.Disk (disk_of log) (gate_of log) groups) }
        // Whatever the file is, what lies before its end has reached the disk.
        ensures ended { IfOk result (λ log. IsTrue (D.Disk.is_clean (disk_of log))
            → IsEnded D.Disk (disk_of log) (end_of log)) }
        ensures up { IfOk result (λ log. IsTrue (is_up D.Disk log)) }
        ensures clean { IfOk result (λ log. IsTrue (D.Disk.is_clean (disk_of log))
            → IsTrue (D.Disk.is_clean disk)) }
        // Whatever is answered, it stands for what it stood for, after a crash too.
        ensures kept { IsTrue (D.Disk.is_clean (file_of result))
            → KeepsGroups D.Disk disk (file_of result) }

        // Each fault, exactly where it is: the gates of a file end, or it is cut.
        ensures gates { IfOk result (λ log. IsTrue (D.Disk.is_clean (disk_of log))
            → EndsAt (D.Disk.seen (disk_of log)) (gate_of log)) }
        ensures damaged { IfErr result (λ refused. (n : ℕ) → refused.fault ≡ HeadFault.Damaged n
            → IsTrue (D.Disk.is_clean refused.disk) → IsCutAt (D.Disk.seen disk) n) }
        ensures disk { MatchResult result
            (λ log. D.Disk.faults (disk_of log) ≡ D.Disk.faults disk)
            (λ refused. refused.fault ≡ HeadFault.Disk
            → MoreFaults (D.Disk.faults disk) (D.Disk.faults refused.disk)) }
        ensures only { IfErr result (λ refused. IsOfOpen refused.fault) }
    {
        let mut disk = disk;
        match start(&mut disk) {
            Ok(end) => Ok(HeadLog {
                disk,
                end,
                is_open: true,
                alloc,
            }),
            Err(fault) => Err(Refused { fault, disk }),
        }
    }

    /// The file.
    pub fn into_disk(self) -> D
        ensures { result ≡ disk_of self }
    {
        let HeadLog {
            disk,
            end: _,
            is_open: _,
            alloc: _,
        } = self;
        disk
    }
}

impl<D: Disk> HeadLog<D> {
    ghost use Rattle.head_log.specs.Log.{disk_of, end_of, gate_of, is_up, Looks};

    /// Where the next group goes.
    pub fn end(&self) -> usize
        ensures { result ≡ end_of self.now }
    {
        self.end.at
    }

    /// The gate of the next group, and the sum of the last one.
    pub fn gate(&self) -> Gate
        ensures { result ≡ gate_of self.now }
    {
        self.end
    }

    /// Whether a group can be added: where not, the file has to be opened anew.
    pub fn is_up(&self) -> bool
        ensures { result ≡ is_up D.Disk self.now }
    {
        self.is_open && self.disk.may_be_used()
    }

    /// Adds a group, all or none. After `Ok` every crash leaves it.
    pub fn add(&mut self, group: &[u8]) -> Result<(), HeadFault>
        requires some { 0 < length group.now }
        // After Ok the groups are those from before and this one, whatever a crash leaves.
        ensures added { OnOk result ((groups : List (List ℕ))
            → IsReady D.Disk (disk_of self.old) (gate_of self.old) groups
            → IsReady D.Disk (disk_of self.new) (gate_of self.new) (groups ++ group.now ∷ [])) }
        ensures end { OnOk result (gate_of self.new ≡ gate_after (gate_of self.old) group.now) }
        // Whatever the disk did, as long as it did not refuse.
        ensures up { OnOk result (IsTrue (is_up D.Disk self.new)) }
        // Whatever is answered, a crash leaves those from before, with this one or without.
        ensures crash { (groups : List (List ℕ))
            → IsReady D.Disk (disk_of self.old) (gate_of self.old) groups
            → LeavesEither D.Disk (disk_of self.new) groups group.now }
        // A refusal changes nothing, or closes the log.
        ensures refused { OnErr result (IsTrue (is_up D.Disk self.new)
            → (gate_of self.new ≡ gate_of self.old) × ((groups : List (List ℕ))
            → IsReady D.Disk (disk_of self.old) (gate_of self.old) groups
            → IsReady D.Disk (disk_of self.new) (gate_of self.new) groups)) }
        // Each fault, exactly where it is.
        ensures closed { IsErrOf result HeadFault.Closed ↔ (is_up D.Disk self.old ≡ false) }
        ensures stays { is_up D.Disk self.old ≡ false → self.new ≡ self.old }
        ensures too_long { IsErrOf result HeadFault.TooLong ↔ (IsTrue (is_up D.Disk self.old)
            × ((2 ^ 40 ≤ length group.now) ⊎ (2 ^ 60 < end_of self.old))) }
        ensures disk { CountsDisk result
            (D.Disk.faults (disk_of self.old)) (D.Disk.faults (disk_of self.new)) }
        ensures whole { (n : ℕ) → ¬ IsErrOf result (HeadFault.Damaged n) }
        ensures clean { IsTrue (D.Disk.is_clean (disk_of self.new))
            → IsTrue (D.Disk.is_clean (disk_of self.old)) }
    {
        if !self.is_up() {
            return Err(HeadFault::Closed);
        }
        let gate = self.end;
        if group.len() >= 1 << 40 || gate.at > 1 << 60 {
            return Err(HeadFault::TooLong);
        }
        let next = gate.after(group);
        let text = shut(self.alloc, &next.prior, group)?;
        stage(&mut self.disk, gate.at, &text)?;
        self.is_open = false;
        open(&mut self.disk, &gate, group)?;
        self.is_open = true;
        self.end = next;
        Ok(())
    }

    /// The group at a gate, and the gate behind it; `None` at the end of the groups. They begin at
    /// `Gate::first()`.
    pub fn group(&mut self, gate: Gate) -> Result<Option<Found>, HeadFault>
        // The group that stands there, as long as the disk returns what was written.
        ensures group { IfOk result (λ found. IfSome found (λ it.
            IsTrue (D.Disk.is_clean (disk_of self.new))
            → IsGroupAt (D.Disk.seen (disk_of self.old)) gate it.group.items)) }
        ensures next { IfOk result (λ found. IfSome found (λ it.
            it.next ≡ gate_after gate it.group.items)) }
        ensures before { IfOk result (λ found. IfSome found (λ it.
            it.next.at ≤ end_of self.old)) }
        ensures none { result ≡ Ok None → end_of self.old ≤ gate.at }
        ensures same { Looks D.Disk self.old self.new }

        // Each fault, only where it is.
        ensures closed { IsErrOf result HeadFault.Closed
            ↔ (D.Disk.is_usable (disk_of self.old) ≡ false) }
        ensures place { (n : ℕ) → IsErrOf result (HeadFault.Damaged n)
            → (n ≡ gate.at) × (gate.at < end_of self.old) }
        ensures damaged { IsErrOf result (HeadFault.Damaged gate.at)
            → IsTrue (D.Disk.is_clean (disk_of self.new)) → (group : List ℕ)
            → gate.at + 48 + length group ≤ end_of self.old
            → ¬ IsGroupAt (D.Disk.seen (disk_of self.old)) gate group }
        ensures disk { (IsTrue (D.Disk.is_clean (disk_of self.old))
            → end_of self.old ≤ length (D.Disk.seen (disk_of self.old))) → CountsDisk result
            (D.Disk.faults (disk_of self.old)) (D.Disk.faults (disk_of self.new)) }
        ensures memory { IsErrOf result HeadFault.Memory → gate.at < end_of self.old }
        ensures fits { ¬ IsErrOf result HeadFault.TooLong }
    {
        if !self.disk.may_be_used() {
            return Err(HeadFault::Closed);
        }
        if gate.at >= self.end.at {
            return Ok(None);
        }
        let found = group_at(self.alloc, &mut self.disk, &gate, self.end.at)?;
        Ok(Some(found))
    }
}
