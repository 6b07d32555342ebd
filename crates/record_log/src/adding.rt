//! Writes the records of contents into a file.

ghost use Rattle.std.specs.Prelude.{◌≡◌, ◌++◌, ◌⊎◌, ◌<◌, ◌≤◌, ◌^◌, List, false, length, IfErr, IfOk, IsErrOf};
ghost use Rattle.std.specs.Prelude.{IsTrue, OnErr, OnOk};
ghost use Rattle.head_log.specs.Fault.{CountsDisk};
ghost use Rattle.head_log.specs.Log.{disk_of, end_of, gate_of, is_up};
ghost use Rattle.operation.specs.Parts.{ContentParts};
ghost use Rattle.record_log.specs.Entries.{AreEachTold, AreKept, LeavesEither, entries_text};
ghost use Rattle.record_log.specs.Entries.{without_notes};
ghost use Rattle.record_log.specs.Fault.{IsOfAdding};

use crate::entries::put_entry;
use head_log::{HeadFault, HeadLog};
use records::RecordedContent;
use sqlite_disk::Disk;
use std::alloc::{AllocError, Global};

/// The entries of those contents that are no rejection notes.
fn entries_of(alloc: Global, contents: &[RecordedContent]) -> Result<Vec<u8>, AllocError>
    ensures text { IfOk result (λ text. text.items ≡ entries_text (without_notes contents.now)) }
    ensures told { OnOk result (AreEachTold (without_notes contents.now)) }
{
    let mut out = Vec::new(alloc);
    let mut scratch = Vec::new(alloc);
    for content in contents {
        put_entry(&mut out, &mut scratch, content)?;
    }
    Ok(out)
}

/// Adds the records of those contents that are no rejection notes as one group, all or none; where
/// there are none nothing is written. After `Ok` every crash leaves them.
///
/// `TooLong` where their entries have 2^40 bytes, or the file more than 2^60. All entries of the
/// group are in memory at once, so many contents are added in portions.
pub fn add_told<D: Disk>(
    log: &mut HeadLog<D>,
    alloc: Global,
    contents: &[RecordedContent],
) -> Result<(), HeadFault>
    // After Ok the contents are those from before and these, whatever a crash leaves.
    ensures added { OnOk result ((cs : List ContentParts)
        → AreKept D.Disk (disk_of log.old) (gate_of log.old) cs
        → AreKept D.Disk (disk_of log.new) (gate_of log.new) (cs ++ without_notes contents.now)) }
    // Whatever is answered, a crash leaves those from before, with these or without.
    ensures crash { (cs : List ContentParts)
        → AreKept D.Disk (disk_of log.old) (gate_of log.old) cs
        → LeavesEither D.Disk (disk_of log.new) cs (cs ++ without_notes contents.now) }
    // A refusal changes nothing, or closes the file.
    ensures refused { OnErr result (IsTrue (is_up D.Disk log.new) → (cs : List ContentParts)
        → AreKept D.Disk (disk_of log.old) (gate_of log.old) cs
        → AreKept D.Disk (disk_of log.new) (gate_of log.new) cs) }
    ensures clean { IsTrue (D.Disk.is_clean (disk_of log.new))
        → IsTrue (D.Disk.is_clean (disk_of log.old)) }

    // Each fault, only where it is.
    ensures closed { IsErrOf result HeadFault.Closed → is_up D.Disk log.old ≡ false }
    ensures too_long { IsErrOf result HeadFault.TooLong
        → (2 ^ 40 ≤ length (entries_text (without_notes contents.now)))
        ⊎ (2 ^ 60 < end_of log.old) }
    ensures disk { CountsDisk result
        (D.Disk.faults (disk_of log.old)) (D.Disk.faults (disk_of log.new)) }
    ensures only { IfErr result IsOfAdding }
{
    let text = entries_of(alloc, contents)?;
    if text.is_empty() {
        return Ok(());
    }
    log.add(&text)
}
