//! A file of records to which a running archive adds.

ghost use Rattle.std.specs.Prelude.{◌≡◌, ◌++◌, ◌∷◌, [], IsTrue, List, None, Some};
ghost use Rattle.head_log.specs.Log.{disk_of, gate_of};
ghost use Rattle.operation.specs.Parts.{ContentParts};
ghost use Rattle.record_log.specs.Entries.{AreKept, without_notes};
ghost use Rattle.record_log.specs.Log.{KeepsIn, Tells};

use crate::adding::add_told;
use head_log::HeadLog;
use records::RecordedContent;
use sqlite_disk::Disk;
use std::alloc::Global;

/// How many contents a group has.
const MOST: usize = 256;

/// A file of records, and contents that wait to be added: 256 make a group, and what is left is
/// added when it is dropped. The file is given up where it refuses, or memory is refused for it:
/// what was added stays, and nothing more is.
pub struct RecordLog<D: Disk> {
    file: Option<HeadLog<D>>,
    waiting: Vec<RecordedContent>,
    alloc: Global,
}

// It is written out, so that a caller does not prove again how each part is dropped.
impl<D: Disk + Drop> Drop for RecordLog<D> {
    fn drop(self) {
        let RecordLog {
            file,
            waiting,
            alloc,
        } = self;
        if let Some(mut file) = file {
            let _added = add_told(&mut file, alloc, waiting.as_slice());
        }
    }
}

/// Adds the records of contents to a file, unless it was given up. Where that is refused, the file
/// may be closed.
fn add_to<D: Disk>(
    file: &mut Option<HeadLog<D>>,
    alloc: Global,
    contents: &[RecordedContent],
) -> bool
    ensures { IsTrue result → (cs : List ContentParts) → KeepsIn D.Disk file.old cs
        → KeepsIn D.Disk file.new (cs ++ without_notes contents.now) }
{
    match file {
        Some(file) => add_told(file, alloc, contents).is_ok(),
        None => true,
    }
}

impl<D: Disk + Drop> RecordLog<D> {
    /// No file: nothing is added.
    pub fn none(alloc: Global) -> RecordLog<D>
        ensures file { result.file ≡ None }
        ensures none { result.waiting.items ≡ [] }
    {
        RecordLog {
            file: None,
            waiting: Vec::new(alloc),
            alloc,
        }
    }

    /// A file of records, to which others are added.
    pub fn over(alloc: Global, file: HeadLog<D>) -> RecordLog<D>
        ensures tells { (cs : List ContentParts)
            → AreKept D.Disk (disk_of file) (gate_of file) cs → Tells D.Disk result cs }
        ensures file { result.file ≡ Some file }
    {
        RecordLog {
            file: Some(file),
            waiting: Vec::new(alloc),
            alloc,
        }
    }

    /// Gives the file up: what waits is forgotten.
    fn give_up(&mut self)
        ensures given_up { self.new.file ≡ None }
        ensures none { self.new.waiting.items ≡ [] }
    {
        self.file = None;
        self.waiting.clear();
    }

    /// Adds those that wait.
    fn settle(&mut self)
        ensures told { (cs : List ContentParts) → Tells D.Disk self.old cs
            → Tells D.Disk self.new cs }
        ensures none { self.new.waiting.items ≡ [] }
    {
        if !add_to(&mut self.file, self.alloc, self.waiting.as_slice()) {
            return self.give_up();
        }
        self.waiting.clear();
    }

    /// Adds the record of a content behind the others, unless it is a rejection note.
    pub fn add(&mut self, content: &RecordedContent)
        ensures { (cs : List ContentParts) → Tells D.Disk self.old cs
            → Tells D.Disk self.new (cs ++ without_notes (content.now ∷ [])) }
    {
        let Ok(copy) = content.copy() else {
            return self.give_up();
        };
        if self.waiting.push(copy).is_err() {
            return self.give_up();
        }
        if self.waiting.len() >= MOST {
            self.settle();
        }
    }
}
