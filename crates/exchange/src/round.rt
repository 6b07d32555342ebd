//! One side's part in a round of an exchange.

ghost use Rattle.std.specs.Prelude.{◌≡◌, ◌≢◌, ◌↔◌, [], List, ℕ, Some, None, Err, cond, false, IfOk, OnOk, OnErr};
ghost use Rattle.std.specs.Prelude.{IsErrOf, IsTrue, MatchResult};
ghost use Rattle.operation.specs.Spelling.{digest_of};
ghost use Rattle.exchange.specs.Fault.{IsRefusal};
ghost use Rattle.exchange.specs.Held.{offered, offered_in, lacked, held_of, Looks};
ghost use Rattle.exchange.specs.Buckets.{bucket_list, unequal as unequal_in};
ghost use Rattle.exchange.specs.Round.{asked_at, is_among, with_given, refusal_of, IsFinished, TakesAsked, MemoryOr};

use crate::asked::Asked;
use crate::buckets::unequal;
use crate::fault::{ExchangeFault, HolderFault};
use crate::holder::Holder;
use crate::version::Version;
use exchange_frames::Digests;
use octets::{ListOf, Octets};
use operation::{Digest, Digested, Op, Taken};
use std::alloc::Global;
use std::marker::Model;

/// What this side asked for, and which of it was given. Contracts see each asked digest, with
/// whether its operation was given.
pub struct Round {
    version: Version,
    asked: Asked,
}

// It is written out, so that a caller does not prove again how each part is dropped.
impl Drop for Round {
    fn drop(self) {
        let Round {
            version: _,
            asked: _,
        } = self;
    }
}

impl Model for Round {
    ghost use Rattle.exchange.specs.Round.{RoundState};

    ghost Value = { RoundState };

    ghost view = { λ r. record { version = r.version; asked = r.asked } };
}

impl Round {
    /// A round in which nothing was asked for. It takes no memory.
    pub fn new(alloc: Global, version: Version) -> Round
        ensures { result ≡ record { version = version; asked = [] } }
    {
        Round {
            version,
            asked: Asked::new(alloc),
        }
    }

    /// What is spoken with the peer.
    pub fn version(&self) -> Version
        ensures { result ≡ self.now.version }
    {
        self.version
    }

    /// The HAVE of all digests.
    pub fn offer<H: Holder>(&self, alloc: Global, holder: &mut H) -> Result<Digests, HolderFault>
        ensures { Looks H.holds H.alone holder.old holder.new (λ m. MatchResult result
            (λ have. have ≡ offered self.now.version m)
            (H.refuses_look holder.old holder.new)) }
    {
        holder.digests(alloc, self.version)
    }

    /// The BUCKETS of what is held.
    pub fn buckets<H: Holder>(
        &self,
        alloc: Global,
        holder: &mut H,
    ) -> Result<ListOf<Digest>, HolderFault>
        ensures { Looks H.holds H.alone holder.old holder.new (λ m. MatchResult result
            (λ buckets. buckets ≡ bucket_list (offered self.now.version m))
            (H.refuses_look holder.old holder.new)) }
    {
        holder.buckets(alloc, self.version)
    }

    /// The DIFFER that answers a BUCKETS: the places in which what is held has other digests.
    pub fn on_buckets<H: Holder>(
        &self,
        alloc: Global,
        holder: &mut H,
        buckets: &[Digest],
    ) -> Result<Octets, HolderFault>
        ensures { Looks H.holds H.alone holder.old holder.new (λ m. MatchResult result
            (λ places. places
            ≡ unequal_in (bucket_list (offered self.now.version m)) buckets.now)
            (MemoryOr (H.refuses_look holder.old holder.new))) }
    {
        let own = holder.buckets(alloc, self.version)?;
        Ok(unequal(alloc, own.as_slice(), buckets)?)
    }

    /// The HAVE that answers a DIFFER: the digests in its places.
    pub fn on_differ<H: Holder>(
        &self,
        alloc: Global,
        holder: &mut H,
        places: &[u8],
    ) -> Result<Digests, HolderFault>
        ensures { Looks H.holds H.alone holder.old holder.new (λ m. MatchResult result
            (λ have. have ≡ offered_in self.now.version places.now m)
            (H.refuses_look holder.old holder.new)) }
    {
        holder.digests_in(alloc, self.version, places)
    }

    /// The WANT that answers a HAVE: what is not held of it, in its order. It is asked for then. A
    /// refusal leaves the round as it was.
    pub fn on_have<H: Holder>(
        &mut self,
        alloc: Global,
        holder: &mut H,
        have: &Digests,
    ) -> Result<Digests, HolderFault>
        ensures want { Looks H.holds H.alone holder.old holder.new (λ m. MatchResult result
            (λ want. want ≡ lacked m have.now)
            (MemoryOr (H.refuses_look holder.old holder.new))) }
        ensures asked { IfOk result (λ want. (digest : List ℕ) → asked_at digest self.new
            ≡ cond (is_among digest want) (Some false) (asked_at digest self.old)) }
        ensures version { self.new.version ≡ self.old.version }
        ensures kept { OnErr result (self.new ≡ self.old) }
    {
        let want = holder.missing(alloc, have)?;
        let asked = self.asked.with(alloc, &want)?;
        self.asked = asked;
        Ok(want)
    }

    /// The digests of the operations that are given for a WANT: those of it that are held, in its
    /// order.
    pub fn on_want<H: Holder>(
        &self,
        alloc: Global,
        holder: &mut H,
        want: &Digests,
    ) -> Result<Digests, HolderFault>
        ensures { Looks H.holds H.alone holder.old holder.new (λ m. MatchResult result
            (λ held. held ≡ held_of self.now.version want.now m)
            (H.refuses_look holder.old holder.new)) }
    {
        holder.held(alloc, self.version, want)
    }

    /// The first reason for which an operation that was given is not taken.
    fn refusal(&self, op: &Digested) -> Option<ExchangeFault>
        ensures { result ≡ refusal_of self.now op.now }
    {
        if !self.version.speaks(op.op()) {
            return Some(ExchangeFault::BadFrame);
        }
        if self.asked.given(op.digest()).is_none() {
            return Some(ExchangeFault::Stranger);
        }
        None
    }

    /// Takes an operation that was asked for. Of a version that is not spoken it is `BadFrame`, and
    /// else, where it was not asked for, `Stranger`: neither is taken.
    pub fn on_give<H: Holder>(&mut self, holder: &mut H, op: Op) -> Result<Taken, ExchangeFault>
        // What the holder takes, and what it doesn't.
        ensures bad_frame { IsErrOf result ExchangeFault.BadFrame
            ↔ (refusal_of self.old op ≡ Some ExchangeFault.BadFrame) }
        ensures stranger { IsErrOf result ExchangeFault.Stranger
            ↔ (refusal_of self.old op ≡ Some ExchangeFault.Stranger) }
        ensures untaken { refusal_of self.old op ≢ None → holder.new ≡ holder.old }
        ensures taken { refusal_of self.old op ≡ None
            → TakesAsked H.holds H.alone holder.old op result holder.new }

        // Each other fault is the holder's.
        ensures refused { IsErrOf result ExchangeFault.Refused
            → IsRefusal (H.refuses_take holder.old holder.new op) }
        ensures memory { IsErrOf result ExchangeFault.Memory
            → H.refuses_take holder.old holder.new op HolderFault.Memory }

        // What the round knows then.
        ensures given { OnOk result (self.new ≡ with_given (digest_of op) self.old) }
        ensures kept { OnErr result (self.new ≡ self.old) }
    {
        let op = Digested::of(op);
        if let Some(fault) = self.refusal(&op) {
            return Err(fault);
        }
        let digest = *op.digest();
        let taken = holder.take(op)?;
        self.asked.mark(&digest);
        Ok(taken)
    }

    /// Whether every operation that was asked for was given.
    pub fn finished(&self) -> bool
        ensures { IsTrue result ↔ IsFinished self.now }
    {
        self.asked.all_given()
    }
}
