//! A log of operations.

ghost use Rattle.std.specs.Prelude.{◌≡◌, ◌&&◌, ◌≤◌, ◌<◌, ◌↔◌, List, ℕ, Ok, None, Some, All, Contains, false, length};
ghost use Rattle.std.specs.Prelude.{map, slice_get, IfOk, IfErr, IfSome, IsTrue, IsErrOf, OnOk, OnErr, ◌⊎◌};
ghost use Rattle.sqlite_disk.specs.Disk.{MoreFaults};
ghost use Rattle.body_log.specs.Fault.{CountsAs};
ghost use Rattle.body_log.specs.Lasts.{Stays};
ghost use Rattle.operation.specs.declared.op.Op.{Op as Operation};
ghost use Rattle.operation.specs.Reading.{IsOp};
ghost use Rattle.operation.specs.Spelling.{digest_of, hash_of, spelling};
ghost use Rattle.records.specs.StandIn.{op_in};
ghost use Rattle.op_log.specs.Fault.{IsOfLook, IsOfOpen, IsOfPut};
ghost use Rattle.op_log.specs.Heads.{Entry, Head};
ghost use Rattle.op_log.specs.Kept.{Has, HasBody, HaveOwnDigests, IsHeld, IsKept, IsLasting, KeepsHeads, StandsFor};
ghost use Rattle.op_log.specs.Kept.{first_under};
ghost use Rattle.op_log.specs.Loaded.{HasBadHead, Lists};
ghost use Rattle.op_log.specs.Log.{GoesOn, IsSound, IsTooLong, Looks};
ghost use Rattle.op_log.specs.Puts.{ComesToClash, LeavesAllOrNone, PutsAll};
ghost use Rattle.op_log.specs.Recorded.{AreRecordedAs, Records};
ghost use Rattle.op_log.specs.Records.{head_in};
ghost use Rattle.op_log.specs.Verified.{damaged_in, digests_of, is_whole as is_whole_in};
ghost use Rattle.op_log.specs.Walking.{AreLaid, AreOfLog};

use crate::fault::LogFault;
use crate::group::Group;
use crate::kept::Kept;
use crate::listing::all_ops;
use crate::loading::{load_at, read_at};
use crate::places::Places;
use crate::putting::put_group;
use crate::record::Record;
use crate::recording::all_records;
use crate::refused::{Refused, refused_bodies, refused_heads};
use crate::telling::{all_records_with, all_told_with};
use crate::verifying::{damaged, is_whole};
use crate::walking::walk;
use body_log::BodyLog;
use head_log::HeadLog;
use operation::{Digest, Digested, Op};
use records::{RecordedContent, RecordedOp};
use sqlite_disk::Disk;
use std::alloc::Global;
use std::marker::Model;
use std::thread::Threads;

mod sorting;

/// The most operations of a group.
const MOST_OF_A_GROUP: usize = 1024;

/// Operations in two files, each of which only grows, and their heads in memory. A refusal that may
/// have been half of a put closes the log: it has to be opened anew.
pub struct OpLog<H: Disk, B: Disk> {
    heads: HeadLog<H>,
    bodies: BodyLog<B>,
    places: Places,
}

impl<H: Disk, B: Disk> Model for OpLog<H, B> {
    ghost use Rattle.op_log.specs.Log.{Opened, opened, opened_code, IsSound};

    ghost Value = { Opened H B };

    ghost coded = { opened_code H.code B.code };

    ghost view = { λ s. opened H.Disk B.Disk s.heads s.bodies s.places };

    ghost invariant = { λ s.
        IsSound H.Disk B.Disk (opened H.Disk B.Disk s.heads s.bodies s.places) };
}

// It is written out, so that a caller does not prove again how each part is dropped.
impl<H: Disk + Drop, B: Disk + Drop> Drop for OpLog<H, B> {
    fn drop(self) {
        let OpLog {
            heads: _,
            bodies: _,
            places: _,
        } = self;
    }
}

impl<H: Disk + Drop, B: Disk + Drop> OpLog<H, B> {
    ghost use Rattle.op_log.specs.Log.{bodies_in, heads_in};

    /// The log of two files: the heads of one are walked, group by group, and no data set is read.
    /// Files of no byte are begun. Files that are refused are handed back: a stop between two calls
    /// of the disk refuses each further one.
    pub fn open(alloc: Global, heads: H, bodies: B) -> Result<OpLog<H, B>, Refused<H, B>>
        requires heads { IsTrue (H.Disk.is_usable heads) }
        requires bodies { IsTrue (B.Disk.is_usable bodies) }
        // All that the files stood for, in order, and it lasts.
        ensures found { IfOk result (λ log. IsTrue (H.Disk.is_clean log.heads) → (them : List Head)
            → StandsFor (H.Disk.seen heads) them → log.places ≡ them) }
        ensures lasting { IfOk result (λ log. IsTrue (B.Disk.is_clean log.bodies) → (e : Entry)
            → HasBody (B.Disk.seen bodies) e
            → IsLasting B.Disk log.bodies log.bodies_end e) }
        ensures sound { IfOk result (IsSound H.Disk B.Disk) }
        ensures open { IfOk result (λ log. IsTrue log.is_open) }
        ensures laid { IfOk result (λ log. IsTrue (H.Disk.is_clean log.heads)
            → AreLaid (H.Disk.seen log.heads) log.heads_end log.bodies_end log.places) }

        // Whatever is answered, the files stand for what they stood for, after a crash too.
        ensures kept { IsTrue (H.Disk.is_clean (heads_in result))
            → KeepsHeads H.Disk heads (heads_in result) }
        ensures stays { Stays B.Disk bodies (bodies_in result) }

        // Each fault, exactly where it is: the files are those of a log, or damaged.
        ensures whole { IfOk result (λ log. IsTrue (H.Disk.is_clean log.heads)
            → IsTrue (B.Disk.is_clean log.bodies)
            → AreOfLog (H.Disk.seen heads) (B.Disk.seen bodies) log.places) }
        ensures damaged { IfErr result (λ refused. (n : ℕ)
            → refused.fault ≡ LogFault.DamagedHeads n → IsTrue (H.Disk.is_clean refused.heads)
            → IsTrue (B.Disk.is_clean refused.bodies) → (them : List Head)
            → ¬ AreOfLog (H.Disk.seen heads) (B.Disk.seen bodies) them) }
        ensures disk { IfErr result (λ refused. refused.fault ≡ LogFault.Disk
            → MoreFaults (H.Disk.faults heads) (H.Disk.faults refused.heads)
            ⊎ MoreFaults (B.Disk.faults bodies) (B.Disk.faults refused.bodies)) }
        // No memory is asked for where the file has no group.
        ensures memory { IfErr result (λ refused. refused.fault ≡ LogFault.Memory
            → IsTrue (H.Disk.is_clean refused.heads) → 8 < length (H.Disk.seen heads)) }
        ensures only { IfErr result (λ refused. IsOfOpen refused.fault) }
    {
        let mut heads = match HeadLog::over(alloc, heads) {
            Ok(heads) => heads,
            Err(refused) => return Err(refused_heads(refused, bodies)),
        };
        let bodies = match BodyLog::over(bodies) {
            Ok(bodies) => bodies,
            Err(refused) => return Err(refused_bodies(heads.into_disk(), refused)),
        };
        match walk(alloc, &mut heads, bodies.end()) {
            Ok(places) => Ok(OpLog {
                heads,
                bodies,
                places,
            }),
            Err(fault) => Err(Refused {
                fault,
                heads: heads.into_disk(),
                bodies: bodies.into_disk(),
            }),
        }
    }

    /// The two files, of heads and of data sets.
    pub fn into_files(self) -> (H, B)
        ensures heads { result.0 ≡ self.heads }
        ensures bodies { result.1 ≡ self.bodies }
    {
        let OpLog {
            heads,
            bodies,
            places: _,
        } = self;
        (heads.into_disk(), bodies.into_disk())
    }
}

impl<H: Disk, B: Disk> OpLog<H, B> {
    /// Whether operations can be put: where not, the files have to be opened anew.
    pub fn is_open(&self) -> bool
        ensures { result ≡ self.now.is_open }
    {
        self.heads.is_up() && self.bodies.is_usable()
    }

    /// How many operations there are.
    pub fn len(&self) -> usize
        ensures { result ≡ length self.now.places }
    {
        self.places.len()
    }

    /// What is kept in memory of the operation at an index, in the order in which they were put.
    pub fn record(&self, index: usize) -> Option<Record<'_>>
        ensures found { IfSome result (λ r. slice_get self.now.places index ≡ Some (head_in r)) }
        ensures none { result ≡ None → length self.now.places ≤ index }
    {
        let (digest, place) = self.places.at(index)?;
        Some(Record {
            digest: Digest::of(*digest),
            front: place.front.as_slice(),
            at: place.at,
            size: place.size,
        })
    }

    /// No two operations have one digest. Nothing is done: this is a fact for callers.
    pub fn see_own_digests(&self)
        ensures { HaveOwnDigests self.now.places }
    {
        self.places.see_own_digests();
    }

    /// Puts operations one after another, all or none, and tells of each whether it was there. What
    /// is there is not written again. Where bytes that are none of its digest lie in its place, it
    /// was not there to be read: it is put anew behind the others, and is read there from then on.
    pub fn put_many(&mut self, ops: &[Digested]) -> Result<Vec<Kept>, LogFault>
        // Each is put in its turn, and after Ok lasts; a refusal forgets all.
        ensures put { IfOk result (λ kepts. PutsAll B.Disk self.new.bodies self.new.bodies_end
            self.old.places ops.now kepts.items self.new.places) }
        ensures lasting { OnOk result ((e : Entry)
            → IsHeld B.Disk self.new.bodies self.new.bodies_end e
            → IsLasting B.Disk self.new.bodies self.new.bodies_end e) }
        ensures refused { OnErr result (self.new.places ≡ self.old.places) }
        // A crash leaves the heads from before, or all that was put; and what lasted still does.
        ensures crash { IsKept H.Disk self.old.heads self.old.heads_end self.old.places
            → LeavesAllOrNone H.Disk B.Disk self.new.heads self.new.bodies self.new.bodies_end
            self.old.places ops.now }
        ensures goes_on { GoesOn H.Disk B.Disk self.old self.new }
        // Each fault, only where it is; and a group that is longer is not begun.
        ensures closed { IsErrOf result LogFault.Closed ↔ (self.old.is_open ≡ false) }
        ensures many { IsTrue self.old.is_open → 1024 < length ops.now
            → IsErrOf result LogFault.TooLong × (self.new ≡ self.old) }
        ensures too_long { IsErrOf result LogFault.TooLong → IsTooLong self.old ops.now }
        ensures disk { IsErrOf result LogFault.Disk
            → MoreFaults (H.Disk.faults self.old.heads) (H.Disk.faults self.new.heads)
            ⊎ MoreFaults (B.Disk.faults self.old.bodies) (B.Disk.faults self.new.bodies) }
        ensures collision { IsErrOf result LogFault.Collision → ComesToClash B.Disk self.new.bodies
            self.new.bodies_end
            self.old.places ops.now }
        ensures only { IfErr result IsOfPut }
    {
        if !self.is_open() {
            return Err(LogFault::Closed);
        }
        if ops.len() > MOST_OF_A_GROUP {
            return Err(LogFault::TooLong);
        }
        let before = self.places.len();
        let mut group = Group::new(self.places.alloc());
        match put_group(
            &mut self.heads,
            &mut self.bodies,
            &mut self.places,
            &mut group,
            ops,
        ) {
            Ok(()) => Ok(group.kepts),
            Err(fault) => {
                self.places.restore(before, group.replaced);
                Err(fault)
            }
        }
    }

    /// The operation with a digest. Whatever the disk returns, no other is answered.
    pub fn load(&mut self, digest: &Digest) -> Result<Option<Digested>, LogFault>
        ensures none { result ≡ Ok None ↔ (first_under digest.now self.old.places ≡ None) }
        ensures told { IfOk result (λ found. IfSome found (λ op. digest_of op ≡ digest.now)) }
        ensures lawful { IfOk result (λ found. IfSome found IsOp) }
        // The very operation that was put, as long as the disk returns what was written.
        ensures exact { IsTrue (B.Disk.is_clean self.new.bodies) → (op : Operation) → IsOp op
            → hash_of op ≡ digest.now
            → Has B.Disk self.old.bodies self.old.bodies_end self.old.places op
            → IfOk result (λ found. found ≡ Some op) }
        ensures damaged { IsTrue (B.Disk.is_clean self.new.bodies) → (op : Operation) → IsOp op
            → hash_of op ≡ digest.now
            → Has B.Disk self.old.bodies self.old.bodies_end self.old.places op
            → (n : ℕ) → ¬ IsErrOf result (LogFault.DamagedBody n) }
        ensures found { IfOk result (λ found. IfSome found (λ op.
            IsTrue (B.Disk.is_clean self.new.bodies)
            → Has B.Disk self.old.bodies self.old.bodies_end self.old.places op)) }
        ensures looks { Looks self.old self.new }
        ensures goes_on { GoesOn H.Disk B.Disk self.old self.new }

        // Each fault, only where it is.
        ensures bad { IsTrue (B.Disk.is_clean self.new.bodies) → (n : ℕ)
            → IsErrOf result (LogFault.DamagedBody n)
            → HasBadHead (B.Disk.seen self.old.bodies) self.old.places n }
        ensures closed { IsErrOf result LogFault.Closed
            → B.Disk.is_usable self.old.bodies ≡ false }
        ensures disk { CountsAs LogFault.Disk result
            (B.Disk.faults self.old.bodies) (B.Disk.faults self.new.bodies) }
        ensures only { IfErr result IsOfLook }
    {
        let Some(place) = self.places.find(digest) else {
            return Ok(None);
        };
        let op = load_at(self.places.alloc(), &mut self.bodies, digest, place)?;
        Ok(Some(op))
    }

    /// The operation under a digest, as it is read: nobody has hashed it yet, so a damaged data set
    /// that still reads as an operation is answered as one of another digest.
    pub fn read(&mut self, digest: &Digest) -> Result<Option<Op>, LogFault>
        ensures none { result ≡ Ok None ↔ (first_under digest.now self.old.places ≡ None) }
        ensures lawful { IfOk result (λ found. IfSome found IsOp) }
        // The very operation that was put, as long as the disk returns what was written.
        ensures exact { IsTrue (B.Disk.is_clean self.new.bodies) → (op : Operation) → IsOp op
            → hash_of op ≡ digest.now
            → Has B.Disk self.old.bodies self.old.bodies_end self.old.places op
            → IfOk result (λ found. found ≡ Some op) }
        ensures alike { IsTrue (B.Disk.is_clean self.new.bodies) → (op : Operation)
            → hash_of op ≡ digest.now
            → Has B.Disk self.old.bodies self.old.bodies_end self.old.places op
            → IfOk result (λ found. IfSome found (λ read. spelling read ≡ spelling op)) }
        ensures damaged { IsTrue (B.Disk.is_clean self.new.bodies) → (op : Operation) → IsOp op
            → hash_of op ≡ digest.now
            → Has B.Disk self.old.bodies self.old.bodies_end self.old.places op
            → (n : ℕ) → ¬ IsErrOf result (LogFault.DamagedBody n) }
        ensures looks { Looks self.old self.new }
        ensures goes_on { GoesOn H.Disk B.Disk self.old self.new }

        // Each fault, only where it is.
        ensures bad { IsTrue (B.Disk.is_clean self.new.bodies) → (n : ℕ)
            → IsErrOf result (LogFault.DamagedBody n)
            → HasBadHead (B.Disk.seen self.old.bodies) self.old.places n }
        ensures closed { IsErrOf result LogFault.Closed
            → B.Disk.is_usable self.old.bodies ≡ false }
        ensures disk { CountsAs LogFault.Disk result
            (B.Disk.faults self.old.bodies) (B.Disk.faults self.new.bodies) }
        ensures only { IfErr result IsOfLook }
    {
        let Some(place) = self.places.find(digest) else {
            return Ok(None);
        };
        let op = read_at(self.places.alloc(), &mut self.bodies, place)?;
        Ok(Some(op))
    }

    /// All operations, in the order in which they were put. Each is hashed once, to test it, and
    /// comes with its digest. Whatever the disk returns, no other is answered.
    pub fn all(&mut self, alloc: Global) -> Result<Vec<Digested>, LogFault>
        ensures told { IfOk result (λ ops. map digest_of ops.items
            ≡ digests_of self.old.places) }
        // The very operations that were put, as long as the disk returns what was written.
        ensures all { IfOk result (λ ops. IsTrue (B.Disk.is_clean self.new.bodies)
            → Lists (B.Disk.seen self.old.bodies) self.old.places ops.items) }
        ensures exact { IfOk result (λ ops. IsTrue (B.Disk.is_clean self.new.bodies)
            → (op : Operation) → IsOp op
            → Has B.Disk self.old.bodies self.old.bodies_end self.old.places op
            → Contains ops.items op) }
        ensures looks { Looks self.old self.new }
        ensures goes_on { GoesOn H.Disk B.Disk self.old self.new }

        // Each fault, only where it is.
        ensures damaged { IsTrue (B.Disk.is_clean self.new.bodies) → (n : ℕ)
            → IsErrOf result (LogFault.DamagedBody n)
            → HasBadHead (B.Disk.seen self.old.bodies) self.old.places n }
        ensures closed { IsErrOf result LogFault.Closed
            → B.Disk.is_usable self.old.bodies ≡ false }
        ensures disk { CountsAs LogFault.Disk result
            (B.Disk.faults self.old.bodies) (B.Disk.faults self.new.bodies) }
        ensures only { IfErr result IsOfLook }
    {
        all_ops(alloc, &mut self.bodies, &self.places)
    }

    /// The records of all operations, in the order in which these were put. Each operation is read
    /// and hashed once, to test it, and let go before the next is read. Whatever the disk returns,
    /// no other is recorded.
    pub fn records(&mut self, alloc: Global) -> Result<Vec<RecordedOp>, LogFault>
        ensures told { IfOk result (λ recorded. map digest_of recorded.items
            ≡ digests_of self.old.places) }
        // They stand for the very operations that were put, as long as the disk returns what was
        // written.
        ensures all { IfOk result (λ recorded. IsTrue (B.Disk.is_clean self.new.bodies)
            → Records (B.Disk.seen self.old.bodies) self.old.places recorded.items) }
        ensures exact { IfOk result (λ recorded. IsTrue (B.Disk.is_clean self.new.bodies)
            → (op : Operation) → IsOp op
            → Has B.Disk self.old.bodies self.old.bodies_end self.old.places op
            → Contains recorded.items (op_in op)) }
        ensures looks { Looks self.old self.new }
        ensures goes_on { GoesOn H.Disk B.Disk self.old self.new }

        // Each fault, only where it is.
        ensures damaged { IsTrue (B.Disk.is_clean self.new.bodies) → (n : ℕ)
            → IsErrOf result (LogFault.DamagedBody n)
            → HasBadHead (B.Disk.seen self.old.bodies) self.old.places n }
        ensures closed { IsErrOf result LogFault.Closed
            → B.Disk.is_usable self.old.bodies ≡ false }
        ensures disk { CountsAs LogFault.Disk result
            (B.Disk.faults self.old.bodies) (B.Disk.faults self.new.bodies) }
        ensures only { IfErr result IsOfLook }
    {
        all_records(alloc, &mut self.bodies, &self.places)
    }

    /// The same. Data sets of 16 KiB and more are hashed in as many threads as there are
    /// processors, 16 at most, while the next are read: up to 8 MiB of them are in memory at once,
    /// or two alone.
    pub fn records_with<R: Threads + Sync>(
        &mut self,
        rt: &R,
        alloc: Global,
    ) -> Result<Vec<RecordedOp>, LogFault>
        ensures told { IfOk result (λ recorded. map digest_of recorded.items
            ≡ digests_of self.old.places) }
        ensures all { IfOk result (λ recorded. IsTrue (B.Disk.is_clean self.new.bodies)
            → Records (B.Disk.seen self.old.bodies) self.old.places recorded.items) }
        ensures looks { Looks self.old self.new }
        ensures goes_on { GoesOn H.Disk B.Disk self.old self.new }

        // Each fault, only where it is.
        ensures damaged { IsTrue (B.Disk.is_clean self.new.bodies) → (n : ℕ)
            → IsErrOf result (LogFault.DamagedBody n)
            → HasBadHead (B.Disk.seen self.old.bodies) self.old.places n }
        ensures closed { IsErrOf result LogFault.Closed
            → B.Disk.is_usable self.old.bodies ≡ false }
        ensures disk { CountsAs LogFault.Disk result
            (B.Disk.faults self.old.bodies) (B.Disk.faults self.new.bodies) }
        ensures only { IfErr result IsOfLook }
    {
        all_records_with(rt, alloc, &mut self.bodies, &self.places)
    }

    /// The same, where records of contents are told: an operation with the digest of one of them is
    /// recorded from that, and its data set is neither read nor hashed. They are taken in the order
    /// of the operations: one that is told later than that of a later operation is passed over, and
    /// so is one whose digest no operation has. Whether a record that is told is that of the
    /// operation nobody tests (`what_is_told_truly_stands`).
    pub fn records_told<R: Threads + Sync>(
        &mut self,
        rt: &R,
        alloc: Global,
        told: &[RecordedContent],
    ) -> Result<Vec<RecordedOp>, LogFault>
        ensures told { IfOk result (λ recorded. map digest_of recorded.items
            ≡ digests_of self.old.places) }
        // Each stands for the very operation that was put, as long as the disk returns what was
        // written, or was told under its digest.
        ensures all { IfOk result (λ recorded. IsTrue (B.Disk.is_clean self.new.bodies)
            → AreRecordedAs (B.Disk.seen self.old.bodies) told.now self.old.places
            recorded.items) }
        ensures looks { Looks self.old self.new }
        ensures seen { B.Disk.seen self.new.bodies ≡ B.Disk.seen self.old.bodies }
        ensures goes_on { GoesOn H.Disk B.Disk self.old self.new }

        // Each fault, only where it is.
        ensures damaged { IsTrue (B.Disk.is_clean self.new.bodies) → (n : ℕ)
            → IsErrOf result (LogFault.DamagedBody n)
            → HasBadHead (B.Disk.seen self.old.bodies) self.old.places n }
        ensures closed { IsErrOf result LogFault.Closed
            → B.Disk.is_usable self.old.bodies ≡ false }
        ensures disk { CountsAs LogFault.Disk result
            (B.Disk.faults self.old.bodies) (B.Disk.faults self.new.bodies) }
        ensures only { IfErr result IsOfLook }
    {
        all_told_with(rt, alloc, &mut self.bodies, &self.places, told)
    }

    /// The digests of the operations whose data sets are none of theirs, in the order of their
    /// heads. Each is read and hashed.
    #[tactic(auto, using(crate::proofs::Faults::read_is_look))]
    pub fn verify(&mut self) -> Result<Vec<Digest>, LogFault>
        ensures exact { IfOk result (λ damaged. IsTrue (B.Disk.is_clean self.new.bodies)
            → damaged.items
            ≡ digests_of (damaged_in (B.Disk.seen self.old.bodies) self.old.places)) }
        ensures looks { Looks self.old self.new }
        ensures goes_on { GoesOn H.Disk B.Disk self.old self.new }

        // Each fault, only where it is. A data set that is none is no fault here.
        ensures closed { IsErrOf result LogFault.Closed
            → B.Disk.is_usable self.old.bodies ≡ false }
        ensures disk { CountsAs LogFault.Disk result
            (B.Disk.faults self.old.bodies) (B.Disk.faults self.new.bodies) }
        ensures whole { (n : ℕ) → ¬ IsErrOf result (LogFault.DamagedBody n) }
        ensures only { IfErr result IsOfLook }
    {
        damaged(&mut self.bodies, &self.places)
    }

    /// Whether the operation at an index, in the order in which they were put, has its digest: its
    /// data set is read and hashed. At an index behind the last nothing is amiss.
    #[tactic(auto, using(crate::proofs::Faults::read_is_look))]
    pub fn is_whole(&mut self, index: usize) -> Result<bool, LogFault>
        ensures exact { IfOk result (λ whole. IsTrue (B.Disk.is_clean self.new.bodies) → (h : Head)
            → slice_get self.old.places index ≡ Some h
            → whole ≡ is_whole_in (B.Disk.seen self.old.bodies) h) }
        // Nothing is changed.
        ensures looks { Looks self.old self.new }
        ensures seen { B.Disk.seen self.new.bodies ≡ B.Disk.seen self.old.bodies }
        ensures usable { B.Disk.is_usable self.new.bodies ≡ B.Disk.is_usable self.old.bodies }
        ensures goes_on { GoesOn H.Disk B.Disk self.old self.new }

        // Each fault, only where it is. A data set that is none is no fault here.
        ensures closed { IsErrOf result LogFault.Closed
            → B.Disk.is_usable self.old.bodies ≡ false }
        ensures disk { CountsAs LogFault.Disk result
            (B.Disk.faults self.old.bodies) (B.Disk.faults self.new.bodies) }
        ensures whole { (n : ℕ) → ¬ IsErrOf result (LogFault.DamagedBody n) }
        ensures only { IfErr result IsOfLook }
    {
        let Some((bytes, place)) = self.places.at(index) else {
            return Ok(true);
        };
        is_whole(
            self.places.alloc(),
            &mut self.bodies,
            &Digest::of(*bytes),
            place,
        )
    }
}
