//! What a file of records tells at a start.

ghost use Rattle.std.specs.Prelude.{◌≡◌, ◌≢◌, [], ℕ, IfOk, IsTrue, List, None, Some};
ghost use Rattle.head_log.specs.Log.{disk_of, gate_of};
ghost use Rattle.operation.specs.Parts.{ContentParts};
ghost use Rattle.record_log.specs.Entries.{AreKept, StandsFor};
ghost use Rattle.record_log.specs.Log.{IsClean, Tells};

use crate::log::RecordLog;
use crate::reading::all_told;
use head_log::{HeadFault, HeadLog};
use records::RecordedContent;
use sqlite_disk::Disk;
use std::alloc::Global;

/// What a file of records tells at a start, and the log that adds to it.
#[derive(Drop)]
pub struct Told<D: Disk> {
    pub contents: Vec<RecordedContent>,
    pub records: RecordLog<D>,
    /// Why the file was begun anew, or is not used, where it was not read.
    pub fault: Option<HeadFault>,
}

impl<D: Disk + Drop> Told<D> {
    /// Nothing is told, and no file is used.
    pub fn none(alloc: Global, fault: HeadFault) -> Told<D>
        ensures contents { result.contents.items ≡ [] }
        ensures file { result.records.file ≡ None }
        ensures records { Tells D.Disk result.records [] }
        ensures fault { result.fault ≡ Some fault }
    {
        Told {
            contents: Vec::new(alloc),
            records: RecordLog::none(alloc),
            fault: Some(fault),
        }
    }
}

/// A file of no content, in place of what it has.
fn emptied<D: Disk + Drop>(alloc: Global, disk: D) -> Result<HeadLog<D>, HeadFault>
    ensures kept { IfOk result (λ file. IsTrue (D.Disk.is_clean (disk_of file))
        → AreKept D.Disk (disk_of file) (gate_of file) []) }
    ensures clean { IfOk result (λ file. IsTrue (D.Disk.is_clean (disk_of file))
        → IsTrue (D.Disk.is_clean disk)) }
{
    let mut disk = disk;
    if !disk.may_be_used() {
        return Err(HeadFault::Closed);
    }
    disk.set_len(0)?;
    match HeadLog::over(alloc, disk) {
        Ok(file) => Ok(file),
        Err(refused) => Err(refused.fault),
    }
}

/// A file that was not read is begun anew where it is damaged, and is not used otherwise.
fn not_read<D: Disk + Drop>(alloc: Global, disk: D, fault: HeadFault) -> Told<D>
    ensures contents { result.contents.items ≡ [] }
    ensures records { IsClean D.Disk result.records.file → Tells D.Disk result.records [] }
    ensures fault { result.fault ≢ None }
    // A file that is used was begun anew.
    ensures same { result.records.file ≢ None → result.fault ≡ Some fault }
    ensures damaged { result.records.file ≢ None → (n : ℕ) × (fault ≡ HeadFault.Damaged n) }
    ensures clean { result.records.file ≢ None → IsClean D.Disk result.records.file
        → IsTrue (D.Disk.is_clean disk) }
{
    let HeadFault::Damaged(_) = fault else {
        return Told::none(alloc, fault);
    };
    match emptied(alloc, disk) {
        Ok(file) => Told {
            contents: Vec::new(alloc),
            records: RecordLog::over(alloc, file),
            fault: Some(fault),
        },
        Err(fault) => Told::none(alloc, fault),
    }
}

/// What a file of records tells, all of it or nothing. A file that is damaged is begun anew.
pub fn open_told<D: Disk + Drop>(alloc: Global, disk: D) -> Told<D>
    requires usable { IsTrue (D.Disk.is_usable disk) }
    // Where nothing was amiss: whatever contents the file stood for are told, and are kept.
    ensures told { result.fault ≡ None → IsClean D.Disk result.records.file
        → (cs : List ContentParts) → StandsFor (D.Disk.seen disk) cs
        → result.contents.items ≡ cs }
    ensures kept { result.fault ≡ None → IsClean D.Disk result.records.file
        → (cs : List ContentParts) → StandsFor (D.Disk.seen disk) cs
        → Tells D.Disk result.records cs }
    ensures used { result.fault ≡ None → result.records.file ≢ None }
    // Where something was: no content is told, and the file, if it is used, keeps none.
    ensures none { result.fault ≢ None → result.contents.items ≡ [] }
    ensures anew { result.fault ≢ None → IsClean D.Disk result.records.file
        → Tells D.Disk result.records [] }
    // A file is begun anew only where it is damaged, and was no file of records.
    ensures place { result.fault ≢ None → result.records.file ≢ None
        → (n : ℕ) × (result.fault ≡ Some (HeadFault.Damaged n)) }
    ensures damaged { result.fault ≢ None → result.records.file ≢ None
        → IsClean D.Disk result.records.file → (cs : List ContentParts)
        → ¬ StandsFor (D.Disk.seen disk) cs }
{
    let mut file = match HeadLog::over(alloc, disk) {
        Ok(file) => file,
        Err(refused) => return not_read(alloc, refused.disk, refused.fault),
    };
    match all_told(alloc, &mut file) {
        Ok(contents) => Told {
            contents,
            records: RecordLog::over(alloc, file),
            fault: None,
        },
        Err(fault) => not_read(alloc, file.into_disk(), fault),
    }
}
