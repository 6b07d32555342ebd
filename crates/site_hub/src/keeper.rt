//! The one writer of a hub.
ghost use Rattle.std.specs.Prelude.{◌≡◌, ◌≢◌, ◌<◌, ◌⊎◌, Err, IfOk, IfErr, MatchResult, length, true, false};
ghost use Rattle.site_state.specs.Site.{IsClash};
ghost use Rattle.site_hub.specs.History.{set_of, logged_of};
ghost use Rattle.site_hub.specs.Hub.{WasHeld, IsTurn};
ghost use Rattle.site_hub.specs.Refused.{CountsUnless, Tells};
ghost use Rattle.site_hub.specs.Taking.{at_desk, GoesOn, TakesAt, RefusesAt};

use crate::book::{Book, Front, HubName};
use crate::entry::{Entry, Log, Logged};
use crate::fault::HubFault;
use crate::pair::{Pair, Shows};
use crate::pass::Pass;
use crate::refusals::Refusals;
use crate::snapshot::{Item, Snapshot};
use crate::told::Told;
use octets::ListOf;
use operation::Taken;
use records::RecordedOp;
use site_state::Site;
use std::marker::Model;
use std::sync::Wait;

/// Contracts see what is published, and the whole history with what is pending behind it.
pub struct Keeper<H: HubName, T: Shows<H>, R: Wait + Drop> {
    pub(crate) book: Book<H>,
    pub(crate) pair: Pair<H, T, R>,
    // an item that the pair had no room for
    pub(crate) late: Option<Item<H>>,
    pub(crate) front: Front<H>,
    pub(crate) log: Vec<Logged>,
    pub(crate) number: u16,
    pub(crate) passes: usize,
}

impl<H: HubName, T: Shows<H>, R: Wait + Drop> Drop for Keeper<H, T, R> {
    fn drop(self) {
        let Keeper {
            book: _,
            pair: _,
            late: _,
            front: _,
            log: _,
            number: _,
            passes: _,
        } = self;
    }
}

impl<H: HubName, T: Shows<H>, R: Wait + Drop> Model for Keeper<H, T, R> {
    ghost use Rattle.std.specs.Prelude.{◌≡◌};
    ghost use Rattle.site_hub.specs.History.{logged_of};
    ghost use Rattle.site_hub.specs.Hub.{Desk, IsBehind};

    ghost Value = { Desk };

    ghost view = { λ k. record { published = k.pair.published; all = k.front } };

    ghost invariant = { λ k. IsBehind k.pair.published k.pair.reached k.late k.front
        × (k.log.items ≡ logged_of k.front) × (k.number ≡ H.number) × (k.passes ≡ H.passes) };
}

impl<H: HubName, T: Shows<H>, R: Wait + Drop> Keeper<H, T, R> {
    /// Publishes all. False where memory ran out: then what is published stays.
    pub(crate) fn flush(&mut self, refusals: &mut Refusals) -> bool
        ensures all { self.new.all ≡ self.old.all }
        ensures shown { result ≡ true → self.new.published ≡ self.new.all }
        ensures kept { result ≡ false → self.new.published ≡ self.old.published }
        ensures counted { CountsUnless result refusals.old.count refusals.new.count }
    {
        if let Some(item) = self.late.take() {
            if let Err(item) = refusals.append(&mut self.pair, item) {
                self.late = Some(item);
                return false;
            }
        }
        refusals.publish(&mut self.pair)
    }

    /// Whether the turn has come of a pass that has seen this: the history goes on from it.
    pub(crate) fn is_turn(&self, seen: &Front<H>, refusals: &mut Refusals) -> bool
        ensures turn { result ≡ true → IsTurn H.opening seen.now self.now.all }
        ensures shorter { result ≡ false → length self.now.all < length seen.now }
        ensures counted { CountsUnless result refusals.old.count refusals.new.count }
    {
        self.front.see_history();
        refusals.begins(seen, &self.front)
    }

    /// Whether an operation is held at a pass's turn, or `Collision` where its digest is held with
    /// another.
    #[tactic(auto, using(crate::proofs::Histories::clash))]
    pub(crate) fn check(
        &self,
        seen: &Front<H>,
        refusals: &mut Refusals,
        op: &RecordedOp,
    ) -> Result<Taken, HubFault>
        requires { self.now.published ≡ self.now.all }
        ensures held { MatchResult result (WasHeld (set_of H.opening self.now.all) op.now)
            (λ e. (e ≡ HubFault.Busy)
            ⊎ ((e ≡ HubFault.Collision) × IsClash (set_of H.opening self.now.all) op.now)) }
        ensures turn { result ≢ Err HubFault.Busy → IsTurn H.opening seen.now self.now.all }
        ensures counted { Tells result refusals.old.count refusals.new.count }
    {
        if !self.is_turn(seen, refusals) {
            return Err(HubFault::Busy);
        }
        match self.pair.site().op(op.digest()) {
            None => Ok(Taken::New),
            Some(held) => {
                if held.equals(op) {
                    return Ok(Taken::Known);
                }
                Err(HubFault::Collision)
            }
        }
    }

    /// Adds an entry for a pass and publishes it. All before it is published.
    pub(crate) fn add(
        &mut self,
        pass: &mut Pass<H>,
        op: RecordedOp,
        taken: Taken,
    ) -> Result<Told<H>, HubFault>
        requires shown { self.old.published ≡ self.old.all }
        requires turn { IsTurn H.opening pass.old.seen self.old.all }
        requires held { WasHeld (set_of H.opening self.old.all) op taken }
        ensures takes { IfOk result (λ told. TakesAt H.opening (at_desk self.old pass.old) op told
            (at_desk self.new pass.new)) }
        ensures refuses { IfErr result (RefusesAt H.opening (at_desk self.old pass.old) op
            (at_desk self.new pass.new)) }
        ensures only { IfErr result (λ e. e ≢ HubFault.Collision) }
        ensures goes_on { GoesOn pass.old pass.new result }
    {
        let digest = *op.digest();
        if pass.mine.reserve(1).is_err() || self.log.reserve(1).is_err() {
            return Err(HubFault::Memory);
        }
        let entry = Entry {
            pass: pass.number,
            op,
        };
        let Some(front) = pass.refusals.add(self.front.again(), &self.book, &entry) else {
            return Err(HubFault::Busy);
        };
        pass.mine.push_reserved(digest);
        self.log.push_reserved(Logged {
            pass: entry.pass,
            digest,
        });
        self.late = Some(Item::new(entry, front.again()));
        self.front = front;
        if !self.flush(&mut pass.refusals) {
            return Err(HubFault::Pending);
        }
        pass.seen = self.front.again();
        Ok(Told {
            front: self.front.again(),
            taken,
        })
    }

    /// Takes an operation for a pass, and publishes it with all that was pending.
    ///
    /// It goes to the back of the history, also where it was held before. A refusal leaves the
    /// history and the pass as they were, save `Pending`; what was pending before may have been
    /// published.
    pub fn take(&mut self, pass: &mut Pass<H>, op: RecordedOp) -> Result<Told<H>, HubFault>
        ensures takes { IfOk result (λ told. TakesAt H.opening (at_desk self.old pass.old) op told
            (at_desk self.new pass.new)) }
        ensures refuses { IfErr result (RefusesAt H.opening (at_desk self.old pass.old) op
            (at_desk self.new pass.new)) }
        ensures goes_on { GoesOn pass.old pass.new result }
    {
        if !self.flush(&mut pass.refusals) {
            return Err(HubFault::Memory);
        }
        let taken = self.check(&pass.seen, &mut pass.refusals, &op)?;
        self.add(pass, op, taken)
    }
}

impl<H: HubName, R: Wait + Drop> Keeper<H, Snapshot<H>, R> {
    /// The site that readers took, and the history, once no reader is left.
    pub(crate) fn into_parts(self) -> (Site, Log)
        ensures site { result.0 ≡ set_of H.opening self.published }
        ensures log { result.1 ≡ logged_of self.all }
    {
        let Keeper {
            book: _,
            pair,
            late: _,
            front: _,
            log,
            number: _,
            passes: _,
        } = self;
        let Pair { handle } = pair;
        let shown = Box::into_inner(handle.take());
        (shown.into_site(), ListOf::of(log))
    }
}
