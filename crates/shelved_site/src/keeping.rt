//! A log that keeps operations.

ghost use Rattle.std.specs.Prelude.{◌≡◌, ◌++◌, ◌∷◌, [], List};
ghost use Rattle.operation.specs.Parts.{ContentParts};
ghost use Rattle.record_log.specs.Log.{Tells};
ghost use Rattle.shelved_site.specs.Told.{told_of, new_among};

use crate::telling::{all_kept, fault};
use op_log::OpLog;
use op_shelf::{Keep, Kept, ShelfFault, StoreCause};
use operation::{Digest, Digested, Op};
use record_log::RecordLog;
use records::RecordedContent;
use sqlite_disk::Disk;
use std::alloc::Global;
use std::slice;

/// A log of operations, as a server takes it. What it refuses is told in a shelf's words: the disk,
/// a log that is closed and a group that is too long as `Store`, what is damaged and another
/// operation under the digest as `BadRow`. A load reads one data set, and looks its head up in
/// memory. The records of contents that are put are added to a file of records beside it, if there
/// is one.
pub struct KeptLog<H: Disk, B: Disk> {
    pub(crate) log: OpLog<H, B>,
    pub(crate) records: RecordLog<H>,
    pub(crate) alloc: Global,
}

// It is written out, so that a caller does not prove again how each part is dropped.
impl<H: Disk + Drop, B: Disk + Drop> Drop for KeptLog<H, B> {
    fn drop(self) {
        let KeptLog {
            log: _,
            records: _,
            alloc: _,
        } = self;
    }
}

impl<H: Disk + Drop, B: Disk + Drop> KeptLog<H, B> {
    ghost use Rattle.shelved_site.specs.Keeping.{log_of};

    /// A log that keeps operations, without a file of records.
    pub fn of(alloc: Global, log: OpLog<H, B>) -> KeptLog<H, B>
        ensures { log_of result ≡ log }
    {
        KeptLog::beside(alloc, log, RecordLog::none(alloc))
    }

    /// The same beside a file of records.
    pub fn beside(alloc: Global, log: OpLog<H, B>, records: RecordLog<H>) -> KeptLog<H, B>
        ensures { log_of result ≡ log }
    {
        KeptLog {
            log,
            records,
            alloc,
        }
    }
}

/// Adds the record of an operation to a file of records, if it is a content, and no rejection note.
/// Where memory is refused for it the file is given up, so that none stands there without those
/// before it.
fn add_record<H: Disk + Drop>(alloc: Global, records: &mut RecordLog<H>, op: &Digested)
    ensures { (cs : List ContentParts) → Tells H.Disk records.old cs
        → Tells H.Disk records.new (cs ++ told_of (op.now ∷ [])) }
{
    let Op::Content(content) = op.op() else {
        return;
    };
    match RecordedContent::of(alloc, op.digest(), content) {
        Ok(recorded) => records.add(&recorded),
        Err(_refused) => *records = RecordLog::none(alloc),
    }
}

/// The same of each operation of a group that is told to be new.
fn add_new<H: Disk + Drop>(
    alloc: Global,
    records: &mut RecordLog<H>,
    ops: &[Digested],
    told: &[op_log::Kept],
)
    ensures { (cs : List ContentParts) → Tells H.Disk records.old cs
        → Tells H.Disk records.new (cs ++ told_of (new_among ops.now told.now)) }
{
    let mut rest = told.iter();
    for op in ops {
        match rest.next() {
            Some(op_log::Kept::New) => add_record(alloc, records, op),
            Some(op_log::Kept::Known) => {}
            None => {}
        }
    }
}

impl<H: Disk + Drop, B: Disk> Keep for KeptLog<H, B> {
    ghost use Rattle.shelved_site.specs.Keeping.{IsUp, Holds, Lasts, log_of};
    ghost use Rattle.shelved_site.specs.Refusing.{LogRefusesGroup, LogRefusesLoad};

    ghost is_up = { λ s. IsUp H.Disk B.Disk (log_of s) };

    ghost holds = { λ s op. Holds B.Disk (log_of s) op };

    ghost lasts = { λ s op. Lasts H.Disk B.Disk (log_of s) op };

    ghost refuses = { λ s t op fault.
        LogRefusesGroup H.Disk B.Disk (log_of s) (log_of t) (op ∷ []) fault };

    ghost refuses_group = { λ s t ops fault.
        LogRefusesGroup H.Disk B.Disk (log_of s) (log_of t) ops fault };

    ghost refuses_load = { λ s t digest fault.
        LogRefusesLoad B.Disk (log_of s) (log_of t) digest fault };

    fn put(&mut self, op: &Op) -> Result<Kept, ShelfFault> {
        let digested = Digested::of(op.copy(self.alloc)?);
        self.put_digested(&digested)
    }

    fn put_digested(&mut self, op: &Digested) -> Result<Kept, ShelfFault> {
        match self.put_many(slice::from_ref(op))?.as_slice() {
            [kept, ..] => Ok(*kept),
            [] => Err(ShelfFault::Store(StoreCause::Other)),
        }
    }

    fn put_many(&mut self, ops: &[Digested]) -> Result<Vec<Kept>, ShelfFault> {
        let room = Vec::with_capacity(self.alloc, ops.len())?;
        match self.log.put_many(ops) {
            Ok(told) => {
                add_new(self.alloc, &mut self.records, ops, &told);
                Ok(all_kept(room, &told))
            }
            Err(refused) => Err(fault(refused)),
        }
    }

    fn load(&mut self, digest: &Digest) -> Result<Option<Digested>, ShelfFault> {
        match self.log.load(digest) {
            Ok(found) => Ok(found),
            Err(unread) => Err(fault(unread)),
        }
    }

    fn read(&mut self, digest: &Digest) -> Result<Option<Op>, ShelfFault> {
        match self.log.read(digest) {
            Ok(read) => Ok(read),
            Err(refusal) => Err(fault(refusal)),
        }
    }
}
