//! What an archive's operations stand in.

ghost use Rattle.std.specs.Prelude.{◌≡◌, ℕ, List, IfErr, IfOk, IsErrOf, OnOk, OnErr};
ghost use Rattle.operation.specs.declared.op.Op.{Op as Operation};
ghost use Rattle.op_shelf.specs.declared.damaged.Damaged.{Damaged as Damage};
ghost use Rattle.op_shelf.specs.declared.fault.ShelfFault.{ShelfFault as Fault};
ghost use Rattle.op_shelf.specs.declared.fault.ShelfFault.TheVariants.{Memory};
ghost use Rattle.operation.specs.Spelling.{digest_of, spelling};
ghost use Rattle.shelved_site.specs.declared.unreadable.Unreadable.{Unreadable as Unread};
ghost use Rattle.shelved_site.specs.Readable.{Shown};
ghost use Rattle.shelved_site.specs.Recorded.{AreFoundAs, HasOperation, IsLoaded};
ghost use Rattle.shelved_site.specs.Sites.{AreRecords};

use crate::unreadable::Readable;
use op_shelf::{Keep, Kept, ShelfFault, Testing, Verified};
use operation::{Digested, Op};
use records::RecordedOp;

/// What keeps the operations of an archive and shows all of them: a shelf, or a log.
pub trait Store: Keep {
    // So far the disk has returned what was written, and what is told of values holds.
    ghost is_clean: { Self → Type 0 };

    // Its operations are these, each as often as it is kept, and those of which this is told.
    ghost shows: { Self → List Unread → List Operation → Type 0 };

    // The same, where a call read these and not those: each of those is none of its digest, or the
    // disk failed to read it.
    ghost reads: { Self → Self → List Unread → List Operation → Type 0 };

    // How many of them have a kind.
    ghost count: { Self → ℕ → ℕ };

    // There are so many, and of them those are told that are not those of their digests, and such
    // that the disk failed to read.
    ghost verifies: { Self → Self → ℕ → List Damage → Type 0 };

    // Nothing has changed.
    ghost is_same: { Self → Self → Type 0 };

    // The operations are as they were, unless a failure of the disk closed it.
    ghost spares: { Self → Self → Type 0 };

    // Whatever a crash leaves has the operation.
    ghost is_left: { Self → Operation → Type 0 };

    // It has cause for this fault where it shows its operations, before and afterwards.
    ghost refuses_all: { Self → Self → Fault → Type 0 };

    // The same where those of a kind are counted.
    ghost refuses_count: { Self → ℕ → Self → Fault → Type 0 };

    /// The records of all operations that can be read, and what is told of the others. Each
    /// operation is read and hashed once, to test it, and let go before the next is read.
    fn readable(&mut self) -> Result<Readable, ShelfFault>
        ensures read { is_clean self.new → IfOk result (λ found. AreRecords
            (reads self.old self.new found.unreadable.items) found.recorded.items) }
        ensures same { is_clean self.new → OnOk result (is_same self.old self.new) }
        ensures refused { is_clean self.new → OnErr result (spares self.old self.new) }
        ensures why { is_clean self.new → IfErr result (refuses_all self.old self.new) }
        // An operation that can't be read is no fault here.
        ensures row { ¬ IsErrOf result ShelfFault.BadRow }
        ensures clean { is_clean self.new → is_clean self.old };

    /// The operation of a record that `readable` told. It is read and hashed, to test it: whatever
    /// the disk returns, none of another digest is answered.
    fn load_recorded(&mut self, recorded: &RecordedOp) -> Result<Digested, ShelfFault>
        ensures told { IfOk result (λ op. digest_of op ≡ digest_of recorded.now) }
        ensures loaded { is_clean self.new
            → IfOk result (IsLoaded (Shown (shows self.old)) recorded.now) }
        ensures same { is_clean self.new → OnOk result (is_same self.old self.new) }
        ensures refused { is_clean self.new → OnErr result (spares self.old self.new) }
        ensures why { is_clean self.new → HasOperation (Shown (shows self.old)) recorded.now
            → IfErr result (Self.refuses_load self.old self.new (digest_of recorded.now)) }
        ensures clean { is_clean self.new → is_clean self.old };

    /// How many operations of a kind there are.
    fn count_kind(&mut self, kind: u8) -> Result<u64, ShelfFault>
        ensures count { is_clean self.new → IfOk result (λ n. n ≡ count self.old kind) }
        ensures same { is_clean self.new → OnOk result (is_same self.old self.new) }
        ensures refused { is_clean self.new → OnErr result (spares self.old self.new) }
        ensures why { is_clean self.new → IfErr result (refuses_count self.old kind self.new) }
        ensures clean { is_clean self.new → is_clean self.old };

    /// Tests each operation against its digest. One that is not that of its digest, or that the
    /// disk fails to read, is told, and is no fault here.
    fn verify<T: Testing>(&mut self, hearing: &T) -> Result<Verified, ShelfFault>
        ensures verified { is_clean self.new → IfOk result
            (λ told. verifies self.old self.new told.operations told.damaged.items) }
        ensures same { is_clean self.new → OnOk result (is_same self.old self.new) }
        ensures refused { is_clean self.new → OnErr result (spares self.old self.new) }
        ensures why { is_clean self.new → IfErr result (refuses_all self.old self.new) }
        ensures row { ¬ IsErrOf result ShelfFault.BadRow }
        ensures clean { is_clean self.new → is_clean self.old };

    /// Keeps an operation, as `put` does.
    fn add(&mut self, op: &Op) -> Result<Kept, ShelfFault>
        ensures left { is_clean self.new → OnOk result (is_left self.new op.now) }
        ensures refused { is_clean self.new → OnErr result (spares self.old self.new) }
        ensures clean { is_clean self.new → is_clean self.old };

    // Operations that are spelled alike are one.
    ghost alike: { (s : Self) (a b : Operation) → spelling a ≡ spelling b
        → Self.holds s a → Self.holds s b };

    // What was read is shown.
    ghost read_shows: { (s t : Self) (told : List Unread) (ops : List Operation)
        → reads s t told ops → shows s told ops };

    // Where these are shown, so are others that are spelled as they are, and are these, if lawful.
    ghost found_shows: { (s : Self) (told : List Unread) (ops others : List Operation)
        → shows s told ops → AreFoundAs others ops → shows s told others };

    // Want of memory is cause enough.
    ghost memory_refuses: { (s t : Self) (digest : List ℕ) → Self.refuses_load s t digest Memory };

    // What has not changed is as it was, also over several calls.
    ghost same_spared: { (s t : Self) → is_same s t → spares s t };

    ghost same_spares: { (s t u : Self) → is_same s t → spares t u → spares s u };

    ghost same_same: { (s t u : Self) → is_same s t → is_same t u → is_same s u };

    ghost same_shows: { (s t : Self) → is_same s t → (told : List Unread) (ops : List Operation)
        → shows s told ops → shows t told ops };

    ghost same_count: { (s t : Self) → is_same s t → (kind : ℕ) → count t kind ≡ count s kind };
}
