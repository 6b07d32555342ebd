//! Corrections that a site makes, and those that a hub makes and takes.
ghost use Rattle.std.specs.Prelude.{◌≡◌, ◌⊎◌, ◌↔◌, Ok, Err, IfOk, IfErr, OnOk, MatchResult};
ghost use Rattle.operation.specs.declared.op.Op.TheVariants.{Correction as a_correction};
ghost use Rattle.site_hub.specs.History.{set_of};
ghost use Rattle.site_hub.specs.Hub.{HasStayed, IsTurn};
ghost use Rattle.site_hub.specs.Refused.{Tells};
ghost use Rattle.site_hub.specs.Stamps.{next_correction as next_correction_in};
ghost use Rattle.site_hub.specs.Taking.{at_desk, GoesOn, MakesNext, MakesNone, RefusesAt, TakesAt};

use crate::book::{Front, HubName};
use crate::fault::HubFault;
use crate::keeper::Keeper;
use crate::pair::Shows;
use crate::pass::Pass;
use crate::refusals::Refusals;
use crate::told::Told;
use octets::Octets;
use operation::{Correction, Stamp, Target, correction_of};
use records::RecordedOp;
use site_state::Site;
use std::sync::Wait;

/// The correction of these parts that comes next at a site of a number: its counter is one more
/// than the greatest of all that the site has.
pub fn next_correction(
    site: &Site,
    number: u16,
    target: Target,
    tag: u32,
    value: Octets,
) -> Result<Correction, HubFault>
    ensures { result ≡ next_correction_in number site.now target tag value }
{
    let top = site.top_counter();
    let stamp = Stamp {
        counter: top.saturating_add(1),
        site: number,
    };
    let Ok(made) = correction_of(target, tag, value, stamp) else {
        return Err(HubFault::BadCorrection);
    };
    if top == u64::MAX {
        return Err(HubFault::StampsSpent);
    }
    Ok(made)
}

impl<H: HubName, T: Shows<H>, R: Wait + Drop> Keeper<H, T, R> {
    /// Publishes all, and says which correction comes next at a pass's turn. That it has a part
    /// that it may not have is told first.
    fn prepared(
        &mut self,
        seen: &Front<H>,
        refusals: &mut Refusals,
        target: Target,
        tag: u32,
        value: Octets,
    ) -> Result<Correction, HubFault>
        ensures all { self.new.all ≡ self.old.all }
        ensures stayed { HasStayed self.old self.new }
        ensures shown { OnOk result (self.new.published ≡ self.new.all) }
        ensures made { IfOk result (λ made. Ok made ≡
            next_correction_in H.number (set_of H.opening self.old.all) target tag value) }
        ensures turn { MatchResult result (λ _. IsTurn H.opening seen.now self.old.all)
            (λ e. e ≡ HubFault.StampsSpent → IsTurn H.opening seen.now self.old.all) }
        ensures bad_correction { (result ≡ Err HubFault.BadCorrection) ↔
            (next_correction_in H.number (set_of H.opening self.old.all) target tag value
            ≡ Err HubFault.BadCorrection) }
        ensures stamps_spent { result ≡ Err HubFault.StampsSpent →
            next_correction_in H.number (set_of H.opening self.old.all) target tag value
            ≡ Err HubFault.StampsSpent }
        ensures fault { IfErr result (λ e. (e ≡ HubFault.BadCorrection)
            ⊎ (e ≡ HubFault.StampsSpent) ⊎ (e ≡ HubFault.Busy) ⊎ (e ≡ HubFault.Memory)) }
        ensures counted { Tells result refusals.old.count refusals.new.count }
    {
        let is_shown = self.flush(refusals);
        let is_turn = self.is_turn(seen, refusals);
        let made = next_correction(self.pair.site(), self.number, target, tag, value);
        if is_shown && is_turn {
            return made;
        }
        match made {
            Err(HubFault::BadCorrection) => Err(HubFault::BadCorrection),
            _ if is_shown => Err(HubFault::Busy),
            _ => Err(HubFault::Memory),
        }
    }

    /// Takes a correction for a pass, and hands it back beside the token.
    fn take_made(
        &mut self,
        pass: &mut Pass<H>,
        made: Correction,
    ) -> Result<(Correction, Told<H>), HubFault>
        requires { self.old.published ≡ self.old.all }
        ensures made { IfOk result (λ both. both.0 ≡ made) }
        ensures takes { IfOk result (λ both. TakesAt H.opening (at_desk self.old pass.old)
            (a_correction made) both.1 (at_desk self.new pass.new)) }
        ensures refuses { IfErr result (RefusesAt H.opening (at_desk self.old pass.old)
            (a_correction made) (at_desk self.new pass.new)) }
        ensures goes_on { GoesOn pass.old pass.new result }
    {
        let Ok(kept) = made.copy(pass.alloc) else {
            return Err(HubFault::Memory);
        };
        let Ok(op) = RecordedOp::of_correction(pass.alloc, made) else {
            return Err(HubFault::Memory);
        };
        let taken = self.check(&pass.seen, &mut pass.refusals, &op)?;
        let told = self.add(pass, op, taken)?;
        Ok((kept, told))
    }

    /// Makes a correction for a pass and publishes it, with all that was pending. Its counter is
    /// one more than the greatest of all that are held, pending ones counted, and its site is the
    /// hub's.
    ///
    /// A refusal leaves the history and the pass as they were, save `Pending`: then the correction
    /// has its place in the history, and its counter is not used again.
    pub fn correct(
        &mut self,
        pass: &mut Pass<H>,
        target: Target,
        tag: u32,
        value: Octets,
    ) -> Result<(Correction, Told<H>), HubFault>
        ensures makes { IfOk result (λ both. MakesNext
            (next_correction_in H.number (set_of H.opening self.old.all) target tag value)
            (set_of H.opening pass.old.seen) both.0) }
        ensures takes { IfOk result (λ both. TakesAt H.opening (at_desk self.old pass.old)
            (a_correction both.0) both.1 (at_desk self.new pass.new)) }

        // That a part is bad is told first.
        ensures bad_correction { (result ≡ Err HubFault.BadCorrection) ↔
            (next_correction_in H.number (set_of H.opening self.old.all) target tag value
            ≡ Err HubFault.BadCorrection) }
        ensures makes_none { IfErr result (MakesNone H.opening (at_desk self.old pass.old)
            (next_correction_in H.number (set_of H.opening self.old.all) target tag value)
            (at_desk self.new pass.new)) }
        ensures goes_on { GoesOn pass.old pass.new result }
    {
        let made = self.prepared(&pass.seen, &mut pass.refusals, target, tag, value)?;
        let both = self.take_made(pass, made)?;
        Ok(both)
    }
}
