//! Where a server keeps operations.

ghost use Rattle.std.specs.Prelude.{◌≡◌, ℕ, All, List, Ok, IfOk, IfErr, IfSome, OnOk, OnErr};
ghost use Rattle.operation.specs.declared.op.Op.{Op as Operation};
ghost use Rattle.operation.specs.Spelling.{digest_of, hash_of};
ghost use Rattle.sqlite.specs.Held.{state};
ghost use Rattle.op_shelf.specs.declared.fault.ShelfFault.{ShelfFault};
ghost use Rattle.op_shelf.specs.Entries.{Holds, digest_text, entry_of};
ghost use Rattle.op_shelf.specs.Keep.{AreSame, Gains, GainsAll, Finds, IsFoundAs};
ghost use Rattle.op_shelf.specs.Refusing.{RefusesEntry, RefusesGroup, RefusesLoad};
ghost use Rattle.op_shelf.specs.States.{rows_of, IsUp, Lasts};

use crate::fault::ShelfFault;
use crate::kept::Kept;
use crate::shelf::Shelf;
use operation::{Digest, Digested, Op};
use sqlite::Alter;

/// What keeps operations. A server takes any, so that a test can give it one that refuses.
pub trait Keep {
    // What is told of the operations is told while this holds.
    ghost is_up: { Self → Type 0 };

    // The operations that are kept.
    ghost holds: { Self → Operation → Type 0 };

    // The operation is kept, and every crash leaves it.
    ghost lasts: { Self → Operation → Type 0 };

    // Why it may refuse to keep an operation, by what it was before the call and what it is then.
    ghost refuses: { Self → Self → Operation → ShelfFault → Type 0 };

    // Why it may refuse a group.
    ghost refuses_group: { Self → Self → List Operation → ShelfFault → Type 0 };

    // Why it may refuse to load the operation of a digest.
    ghost refuses_load: { Self → Self → List ℕ → ShelfFault → Type 0 };

    /// Keeps an operation.
    fn put(&mut self, op: &Op) -> Result<Kept, ShelfFault>
        // New adds exactly that operation, Known finds it there, and a refusal changes nothing.
        ensures new { is_up self.new → result ≡ Ok Kept.New
            → Gains (holds self.old) (holds self.new) op.now }
        ensures known { is_up self.new → result ≡ Ok Kept.Known
            → Finds (holds self.old) (holds self.new) op.now }
        ensures refused { is_up self.new
            → OnErr result (AreSame (holds self.old) (holds self.new)) }
        ensures why { IfErr result (refuses self.old self.new op.now) }
        ensures up { is_up self.new → is_up self.old }

        // A crash leaves it after Ok, and always what it left before.
        ensures durable { is_up self.new → OnOk result (lasts self.new op.now) }
        ensures kept { is_up self.new → (other : Operation) → lasts self.old other
            → lasts self.new other };

    /// Keeps an operation under the digest that it has.
    fn put_digested(&mut self, op: &Digested) -> Result<Kept, ShelfFault>
        // New adds exactly that operation, Known finds it there, and a refusal changes nothing.
        ensures new { is_up self.new → result ≡ Ok Kept.New
            → Gains (holds self.old) (holds self.new) op.now }
        ensures known { is_up self.new → result ≡ Ok Kept.Known
            → Finds (holds self.old) (holds self.new) op.now }
        ensures refused { is_up self.new
            → OnErr result (AreSame (holds self.old) (holds self.new)) }
        ensures why { IfErr result (refuses self.old self.new op.now) }
        ensures up { is_up self.new → is_up self.old }

        // A crash leaves it after Ok, and always what it left before.
        ensures durable { is_up self.new → OnOk result (lasts self.new op.now) }
        ensures kept { is_up self.new → (other : Operation) → lasts self.old other
            → lasts self.new other };

    /// Keeps a group of operations, one after another and all at once, and tells of each whether it
    /// was kept before.
    fn put_many(&mut self, ops: &[Digested]) -> Result<Vec<Kept>, ShelfFault>
        // All of the group is kept, each in its turn, and a refusal changes nothing.
        ensures put { is_up self.new → IfOk result (λ kepts.
            GainsAll (holds self.old) (holds self.new) ops.now kepts.items) }
        ensures refused { is_up self.new
            → OnErr result (AreSame (holds self.old) (holds self.new)) }
        ensures why { IfErr result (refuses_group self.old self.new ops.now) }
        ensures up { is_up self.new → is_up self.old }

        // A crash leaves all of it after Ok, and always what it left before.
        ensures durable { is_up self.new → OnOk result (All (lasts self.new) ops.now) }
        ensures kept { is_up self.new → (other : Operation) → lasts self.old other
            → lasts self.new other };

    /// The operation of a digest, if one is kept. It is read and tested: whatever the disk returns,
    /// none of another digest is answered.
    fn load(&mut self, digest: &Digest) -> Result<Option<Digested>, ShelfFault>
        ensures told { IfOk result (λ found. IfSome found (λ op. digest_of op ≡ digest.now)) }
        ensures held { is_up self.new → IfOk result (λ found. IfSome found (holds self.old)) }
        ensures exact { is_up self.new → (op : Operation) → holds self.old op
            → hash_of op ≡ digest.now → IfOk result (λ found. IsFoundAs found op) }
        ensures why { IfErr result (refuses_load self.old self.new digest.now) }
        ensures up { is_up self.new → is_up self.old }

        // Nothing changes, and a crash leaves what it left before.
        ensures same { is_up self.new → AreSame (holds self.old) (holds self.new) }
        ensures kept { is_up self.new → (other : Operation) → lasts self.old other
            → lasts self.new other };

    /// What is read under a digest, which nobody has hashed yet: it is that of the digest as long
    /// as the disk returns what was written. Who takes it hashes it.
    fn read(&mut self, digest: &Digest) -> Result<Option<Op>, ShelfFault>
        ensures exact { is_up self.new → (op : Operation) → holds self.old op
            → hash_of op ≡ digest.now → IfOk result (λ found. IsFoundAs found op) }
        ensures why { IfErr result (refuses_load self.old self.new digest.now) }
        ensures up { is_up self.new → is_up self.old }

        // Nothing changes, and a crash leaves what it left before.
        ensures same { is_up self.new → AreSame (holds self.old) (holds self.new) }
        ensures kept { is_up self.new → (other : Operation) → lasts self.old other
            → lasts self.new other };
}

impl<S: Alter> Keep for Shelf<S> {
    ghost is_up = { λ s. IsUp (state S.Store s) };

    ghost holds = { λ s op. Holds (rows_of (state S.Store s)) op };

    ghost lasts = { λ s op. Lasts (state S.Store s) op };

    ghost refuses = { λ s t op fault.
        RefusesEntry S.Store s t (digest_text op) (entry_of op) fault };

    ghost refuses_group = { λ s t ops fault. RefusesGroup S.Store s t ops fault };

    ghost refuses_load = { λ s t digest fault. RefusesLoad S.Store s t digest fault };

    fn put(&mut self, op: &Op) -> Result<Kept, ShelfFault> {
        Shelf::put(self, op)
    }

    fn put_digested(&mut self, op: &Digested) -> Result<Kept, ShelfFault> {
        Shelf::put_digested(self, op)
    }

    fn put_many(&mut self, ops: &[Digested]) -> Result<Vec<Kept>, ShelfFault> {
        Shelf::put_many(self, ops)
    }

    fn load(&mut self, digest: &Digest) -> Result<Option<Digested>, ShelfFault> {
        Shelf::load(self, digest)
    }

    fn read(&mut self, digest: &Digest) -> Result<Option<Op>, ShelfFault> {
        Shelf::read(self, digest)
    }
}
