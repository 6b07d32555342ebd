//! The records of a log, told or hashed side by side, its site, and the hub that is opened over it.

ghost use Rattle.std.specs.Prelude.{◌≡◌, ◌≤◌, ◌++◌, ◌↔◌, [], List, None, false};
ghost use Rattle.std.specs.Prelude.{IfOk, IfErr, IfSome, IsTrue, OnOk, OnErr};
ghost use Rattle.operation.specs.Parts.{ContentParts};
ghost use Rattle.op_shelf.specs.Keep.{AreSame};
ghost use Rattle.record_log.specs.Entries.{without_notes};
ghost use Rattle.record_log.specs.Log.{Tells};
ghost use Rattle.shelved_site.specs.Keeping.{IsUp, Holds, log_of};
ghost use Rattle.shelved_site.specs.Readable.{HidesNothing, recorded_in, shown_in};
ghost use Rattle.shelved_site.specs.Refusing.{LogIsUnshown};
ghost use Rattle.shelved_site.specs.Sites.{IsSiteOf, IsOfStore};
ghost use Rattle.shelved_site.specs.Stores.{IsSame};
ghost use Rattle.shelved_site.specs.Told.{AreInOrder, AreOthers, IsBehind, IsGivenUp};
ghost use Rattle.shelved_site.specs.Told.{IsOther, IsToldSiteOf, IsTakenOf};

use crate::fault::ShelvedFault;
use crate::keeping::KeptLog;
use crate::reading::read_log;
use crate::taking::{Asked, Begun, Hearing, Sited, hub_over, site_of, tell_each};
use crate::telling::fault;
use crate::unreadable::Readable;
use op_log::LogFault;
use op_shelf::{ShelfFault, StoreCause};
use record_log::RecordLog;
use records::{RecordedContent, RecordedOp};
use sqlite_disk::Disk;
use std::alloc::Global;
use std::sync::Wait;
use std::thread::Threads;

/// What is told behind the first content, where that has the digest of this one.
fn behind_told<'a>(
    told: &'a [RecordedContent],
    content: &RecordedContent,
) -> Option<&'a [RecordedContent]>
    ensures some { IfSome result (λ rest. IsBehind told.now content.now rest.now) }
    ensures none { result ≡ None → IsOther told.now content.now }
{
    match told {
        [first, rest @ ..] => {
            if first.digest() == content.digest() {
                Some(rest)
            } else {
                None
            }
        }
        [] => None,
    }
}

/// Whether the contents that are told are among some operations, in their order.
fn are_in_order(recorded: &[RecordedOp], told: &[RecordedContent]) -> bool
    ensures { IsTrue result ↔ AreInOrder told.now recorded.now }
{
    let mut rest = told;
    for op in recorded {
        if let Some(content) = op.content() {
            if let Some(behind) = behind_told(rest, content) {
                rest = behind;
            }
        }
    }
    rest.is_empty()
}

/// Adds the records of those contents that were not told to a file of records, and answers true. It
/// answers false, and gives the file up, where those that were told are not among the operations,
/// in their order: what were added behind them would be no log's records.
fn add_others<D: Disk + Drop>(
    alloc: Global,
    records: &mut RecordLog<D>,
    recorded: &[RecordedOp],
    told: &[RecordedContent],
) -> bool
    ensures order { IsTrue result ↔ AreInOrder told.now recorded.now }
    ensures given_up { result ≡ false → IsGivenUp records.new }
    // Those that are not told are added, in their order, but for rejection notes.
    ensures added { IsTrue result → (cs : List ContentParts) → Tells D.Disk records.old cs
        → (others : List ContentParts) × AreOthers told.now recorded.now others
        × Tells D.Disk records.new (cs ++ without_notes others) }
{
    if !are_in_order(recorded, told) {
        *records = RecordLog::none(alloc);
        return false;
    }
    let mut rest = told;
    for op in recorded {
        if let Some(content) = op.content() {
            if let Some(behind) = behind_told(rest, content) {
                rest = behind;
            } else {
                records.add(content);
            }
        }
    }
    true
}

impl<H: Disk, B: Disk> KeptLog<H, B> {
    /// The records of all operations that can be read, and what is told of the others. Those of
    /// contents that are told are taken as they are, and the others are hashed in as many threads
    /// as there are processors; where one can't be read, each is read once more, in this thread. It
    /// is no method of the `Store`, since one of a trait can hand nothing to a thread.
    pub fn readable_with<R: Threads + Sync>(
        &mut self,
        rt: &R,
        told: &[RecordedContent],
    ) -> Result<Readable, ShelfFault>
        // Each record was told, or stands for an operation of the log.
        ensures read { IsUp H.Disk B.Disk (log_of self.new) → IfOk result (λ found. recorded_in
            B.Disk told.now (log_of self.old) found.unreadable.items found.recorded.items) }
        ensures same { IsUp H.Disk B.Disk (log_of self.new)
            → OnOk result (IsSame B.Disk (log_of self.old) (log_of self.new)) }
        ensures seen { B.Disk.seen (log_of self.new).bodies
            ≡ B.Disk.seen (log_of self.old).bodies }
        ensures refused { IsUp H.Disk B.Disk (log_of self.new) → OnErr result
            (AreSame (Holds B.Disk (log_of self.old)) (Holds B.Disk (log_of self.new))) }
        // An operation that can't be read is no fault here.
        ensures why { IsUp H.Disk B.Disk (log_of self.new)
            → IfErr result (LogIsUnshown B.Disk (log_of self.old)) }
        ensures clean { IsUp H.Disk B.Disk (log_of self.new)
            → IsUp H.Disk B.Disk (log_of self.old) }
    {
        match self.log.records_told(rt, self.alloc, told) {
            Ok(recorded) => Ok(Readable::whole(self.alloc, recorded)),
            Err(LogFault::Closed) => Err(ShelfFault::Store(StoreCause::Closed)),
            Err(LogFault::Memory) => Err(ShelfFault::Memory),
            // A data set is none of its operation, or the disk failed to read it.
            Err(_unread) => self.read_all(told),
        }
    }

    /// The same where one can't be read.
    fn read_all(&mut self, told: &[RecordedContent]) -> Result<Readable, ShelfFault>
        ensures read { IsUp H.Disk B.Disk (log_of self.new) → IfOk result (λ found. recorded_in
            B.Disk told.now (log_of self.old) found.unreadable.items found.recorded.items) }
        ensures same { IsUp H.Disk B.Disk (log_of self.new)
            → OnOk result (IsSame B.Disk (log_of self.old) (log_of self.new)) }
        ensures seen { B.Disk.seen (log_of self.new).bodies
            ≡ B.Disk.seen (log_of self.old).bodies }
        ensures refused { IsUp H.Disk B.Disk (log_of self.new) → OnErr result
            (AreSame (Holds B.Disk (log_of self.old)) (Holds B.Disk (log_of self.new))) }
        ensures why { IfErr result (LogIsUnshown B.Disk (log_of self.old)) }
        ensures clean { IsUp H.Disk B.Disk (log_of self.new)
            → IsUp H.Disk B.Disk (log_of self.old) }
    {
        match read_log(self.alloc, &mut self.log, told) {
            Ok(found) => Ok(found),
            Err(refused) => Err(fault(refused)),
        }
    }
}

/// The site of a log, as `site_on` tells that of a store. The data sets of contents that are told
/// are not read; the others are hashed in as many threads as there are processors, and their
/// records are added to those beside the log. The log stays as it is.
pub fn site_on_log<H: Disk + Drop, B: Disk, T: Threads + Sync, P: Hearing>(
    alloc: Global,
    threads: &T,
    log: &mut KeptLog<H, B>,
    told: &[RecordedContent],
    hearing: &P,
) -> Result<Sited, ShelvedFault>
    // It took records, each of which was told, or stands for an operation of the log.
    ensures taken { IsUp H.Disk B.Disk (log_of log.new) → IfOk result (λ sited. IsTakenOf
        (recorded_in B.Disk told.now (log_of log.old) sited.unreadable.items) sited.site) }
    // Where nothing is told, it is the site of the log, as of a store.
    ensures site { IsUp H.Disk B.Disk (log_of log.new) → told.now ≡ [] → IfOk result (λ sited.
        IsSiteOf (shown_in B.Disk (log_of log.new) sited.unreadable.items) sited.site) }
    // It has what stands for all operations of the log, where what is told of these does.
    ensures told { IsUp H.Disk B.Disk (log_of log.new) → IfOk result (λ sited.
        sited.unreadable.items ≡ []
        → IsToldSiteOf (shown_in B.Disk (log_of log.new) []) told.now sited.site) }
    ensures same { IsUp H.Disk B.Disk (log_of log.new)
        → OnOk result (IsSame B.Disk (log_of log.old) (log_of log.new)) }
    ensures refused { IsUp H.Disk B.Disk (log_of log.new) → OnErr result
        (AreSame (Holds B.Disk (log_of log.old)) (Holds B.Disk (log_of log.new))) }
    // It is refused because of the log only where that had cause not to show its operations.
    ensures why { IsUp H.Disk B.Disk (log_of log.new)
        → IfErr result (IsOfStore (LogIsUnshown B.Disk (log_of log.old))) }
    ensures clean { IsUp H.Disk B.Disk (log_of log.new) → IsUp H.Disk B.Disk (log_of log.old) }
{
    let Readable {
        recorded,
        unreadable,
    } = log.readable_with(threads, told)?;
    tell_each(hearing, recorded.len(), &unreadable);
    if !add_others(alloc, &mut log.records, recorded.as_slice(), told) {
        hearing.has_other_records();
    }
    let site = site_of(alloc, recorded)?;
    Ok(Sited { site, unreadable })
}

/// Opens a hub over the site of a log, which has this number, for so many passes, as `hub_on` does
/// over a store. What is read of the log, and what of it is told, is as of `site_on_log`.
pub fn hub_on_log<H: Disk + Drop, B: Disk, T: Threads + Sync, R: Wait + Drop, P: Hearing>(
    alloc: Global,
    threads: &T,
    rt: R,
    log: &mut KeptLog<H, B>,
    told: &[RecordedContent],
    asked: Asked,
    hearing: &P,
) -> Result<Begun<R>, ShelvedFault>
    requires number { 1 ≤ asked.number }
    requires passes { (1 ≤ asked.passes) × (asked.passes ≤ 64) }
    // Where nothing is told, the hub opens with the site of the log, as of a store.
    ensures opening { IsUp H.Disk B.Disk (log_of log.new) → told.now ≡ [] → IfOk result (λ begun.
        IsSiteOf (shown_in B.Disk (log_of log.new) begun.unreadable.items)
        begun.opened.opening) }
    // It opens with what stands for all operations of the log, where what is told of these does.
    ensures told { IsUp H.Disk B.Disk (log_of log.new) → IfOk result (λ begun.
        begun.unreadable.items ≡ []
        → IsToldSiteOf (shown_in B.Disk (log_of log.new) []) told.now begun.opened.opening) }
    // What is hidden stays hidden, unless it is asked for.
    ensures hidden { IfOk result (λ begun.
        HidesNothing asked.shows_without begun.unreadable.items) }
    ensures size { IfOk result (λ begun. (begun.opened.number ≡ asked.number)
        × (begun.opened.passes ≡ asked.passes)) }
    ensures same { IsUp H.Disk B.Disk (log_of log.new)
        → OnOk result (IsSame B.Disk (log_of log.old) (log_of log.new)) }
    ensures refused { IsUp H.Disk B.Disk (log_of log.new) → OnErr result
        (AreSame (Holds B.Disk (log_of log.old)) (Holds B.Disk (log_of log.new))) }
    // It is refused because of the log only where that had cause not to show its operations.
    ensures why { IsUp H.Disk B.Disk (log_of log.new)
        → IfErr result (IsOfStore (LogIsUnshown B.Disk (log_of log.old))) }
    ensures clean { IsUp H.Disk B.Disk (log_of log.new) → IsUp H.Disk B.Disk (log_of log.old) }
{
    let sited = site_on_log(alloc, threads, log, told, hearing)?;
    hub_over(alloc, rt, sited, asked)
}
