//! Reads the records of a file.

ghost use Rattle.std.specs.Prelude.{◌≡◌, ◌++◌, ◌<◌, ◌≤◌, List, ℕ, false, length, IfErr, IfOk, IsErrOf, IsTrue};
ghost use Rattle.head_log.specs.Fault.{CountsDisk};
ghost use Rattle.head_log.specs.Log.{disk_of, end_of, gate_of, Looks};
ghost use Rattle.operation.specs.Parts.{ContentParts};
ghost use Rattle.record_log.specs.Entries.{AreEachTold, AreTold, HasEntries, WereRead, entries_text};
ghost use Rattle.record_log.specs.Fault.{IsOfReading};

use crate::entries::first_entry;
use head_log::{Gate, HeadFault, HeadLog};
use records::RecordedContent;
use sqlite_disk::Disk;
use std::alloc::{AllocError, Global};

/// Reads the contents of a group's entries behind others; `false` where something in it is none.
fn take_entries(
    alloc: Global,
    group: &[u8],
    told: &mut Vec<RecordedContent>,
) -> Result<bool, AllocError>
    ensures whole { (cs : List ContentParts) → AreEachTold cs → group.now ≡ entries_text cs
        → IfOk result (λ whole. IsTrue whole) }
    ensures told { (cs : List ContentParts) → AreEachTold cs → group.now ≡ entries_text cs
        → IfOk result (λ _. told.new.items ≡ told.old.items ++ cs) }
    // Each entry was read, whatever it tells.
    ensures all { IfOk result (λ whole. IsTrue whole
        → WereRead group.now told.old.items told.new.items) }
{
    let mut rest = group;
    'entries: while !rest.is_empty() {
        let Some((entry, behind)) = first_entry(rest) else {
            return Ok(false);
        };
        let Some(content) = RecordedContent::decode(alloc, entry)? else {
            return Ok(false);
        };
        told.push(content)?;
        rest = behind;
    }
    Ok(true)
}

/// The contents of all entries of a file, in the order in which they were added. One group at a
/// time is in memory beside them, and no data set is read. `Damaged` tells at which byte of the
/// file the group lies that is damaged, or is no group of entries; then none is told.
pub fn all_told<D: Disk>(
    alloc: Global,
    log: &mut HeadLog<D>,
) -> Result<Vec<RecordedContent>, HeadFault>
    // Whatever lies in the file, as long as the disk returns what was written.
    ensures told { IfOk result (λ told. IsTrue (D.Disk.is_clean (disk_of log.new))
        → (cs : List ContentParts)
        → AreTold (D.Disk.seen (disk_of log.old)) (gate_of log.old) cs → told.items ≡ cs) }
    // One for each entry, whatever these tell: none is passed over.
    ensures all { IfOk result (λ told. IsTrue (D.Disk.is_clean (disk_of log.new))
        → HasEntries (D.Disk.seen (disk_of log.old)) (end_of log.old) (length told.items)) }
    ensures same { Looks D.Disk log.old log.new }

    // Each fault, only where it is.
    ensures damaged { (n : ℕ) → IsErrOf result (HeadFault.Damaged n)
        → IsTrue (D.Disk.is_clean (disk_of log.new)) → (cs : List ContentParts)
        → ¬ AreTold (D.Disk.seen (disk_of log.old)) (gate_of log.old) cs }
    ensures place { (n : ℕ) → IsErrOf result (HeadFault.Damaged n) → n < end_of log.old }
    ensures closed { IsErrOf result HeadFault.Closed
        → D.Disk.is_usable (disk_of log.old) ≡ false }
    ensures disk { (IsTrue (D.Disk.is_clean (disk_of log.old))
        → end_of log.old ≤ length (D.Disk.seen (disk_of log.old))) → CountsDisk result
        (D.Disk.faults (disk_of log.old)) (D.Disk.faults (disk_of log.new)) }
    ensures memory { IsErrOf result HeadFault.Memory → 0 < end_of log.old }
    ensures only { IfErr result IsOfReading }
{
    let mut told = Vec::new(alloc);
    let mut gate = Gate::first();
    'groups: while gate.at < log.end() {
        let Some(found) = log.group(gate)? else {
            return Ok(told);
        };
        if !take_entries(alloc, &found.group, &mut told)? {
            return Err(HeadFault::Damaged(gate.at));
        }
        gate = found.next;
    }
    Ok(told)
}
