//! Closing a hub.
ghost use Rattle.std.specs.Prelude.{◌≡◌, ◌==◌, ◌⊎◌, Err, IfOk, IfErr, OnOk, true, false};
ghost use Rattle.std.specs.List.{list_all};
ghost use Rattle.site_hub.specs.History.{set_of, logged_of};
ghost use Rattle.site_hub.specs.Hub.{HasStayed, Seat};
ghost use Rattle.site_hub.specs.Close.{agree as agree_in, is_own as is_own_in, is_there as is_there_in};
ghost use Rattle.site_hub.specs.Close.{are_there as are_there_in};

use crate::book::HubName;
use crate::entry::{Log, Logged};
use crate::fault::HubFault;
use crate::keeper::Keeper;
use crate::pair::Shows;
use crate::pass::Pass;
use crate::refusals::Refusals;
use crate::snapshot::Snapshot;
use operation::Digest;
use site_state::Site;
use std::sync::Wait;

/// Why a hub was not closed, with its keeper and the passes that were handed in.
#[derive(Drop)]
pub struct CloseFault<K: Drop, H: HubName> {
    pub keeper: K,
    pub passes: Vec<Pass<H>>,
    pub fault: HubFault,
}

/// Whether some digests are those of a pass's entries, in order.
fn is_own(number: u64, mine: &[Digest], log: &[Logged]) -> bool
    ensures { result ≡ is_own_in number mine.now log.now }
{
    let mut left = mine;
    let mut rest = log;
    while let [entry, later @ ..] = rest {
        if entry.pass == number {
            let [first, others @ ..] = left else {
                return false;
            };
            if first.as_bytes().as_slice() != entry.digest.as_bytes().as_slice() {
                return false;
            }
            left = others;
        }
        rest = later;
    }
    left.is_empty()
}

impl<H: HubName> Pass<H> {
    fn has_number(&self, number: u64) -> bool
        ensures { result ≡ (self.now.number == number) }
    {
        self.number == number
    }

    /// Whether its digests are those of its entries, in order.
    fn has_own(&self, log: &[Logged]) -> bool
        ensures { result ≡ is_own_in self.now.number self.now.mine log.now }
    {
        is_own(self.number, self.mine.as_slice(), log)
    }
}

/// Whether a pass of a number is among some.
fn is_there<H: HubName>(number: u64, passes: &[Pass<H>]) -> bool
    ensures { result ≡ is_there_in number passes.now }
{
    passes.iter().any(|pass| pass.has_number(number))
}

/// Whether those of the numbers 1 to `count` are.
fn are_there<H: HubName>(count: usize, passes: &[Pass<H>]) -> bool
    ensures { result ≡ are_there_in count passes.now }
{
    let mut are = true;
    for k in 0..count {
        let is = is_there(k as u64 + 1, passes);
        are = are && is;
    }
    are
}

fn have_own<H: HubName>(log: &[Logged], passes: &[Pass<H>]) -> bool
    ensures { result ≡ list_all (λ (s : Seat). is_own_in s.number s.mine log.now) passes.now }
{
    passes.iter().all(|pass| pass.has_own(log))
}

/// Whether the passes of a hub are all there, each with the digests of its own entries.
fn agree<H: HubName>(count: usize, log: &[Logged], passes: &[Pass<H>]) -> bool
    ensures { result ≡ agree_in count log.now passes.now }
{
    are_there(count, passes) && have_own(log, passes)
}

impl<H: HubName, T: Shows<H>, R: Wait + Drop> Keeper<H, T, R> {
    /// Publishes all, and says whether the hub may be closed with these passes.
    fn may_close(&mut self, passes: &[Pass<H>]) -> Result<(), HubFault>
        ensures shown { OnOk result (self.new.published ≡ self.new.all) }
        ensures agree { OnOk result (agree_in H.passes (logged_of self.old.all) passes.now ≡ true) }
        ensures torn { result ≡ Err HubFault.Torn →
            agree_in H.passes (logged_of self.old.all) passes.now ≡ false }
        ensures stayed { HasStayed self.old self.new }
        ensures fault { IfErr result (λ e. (e ≡ HubFault.Torn) ⊎ (e ≡ HubFault.Memory)) }
    {
        let mut refusals = Refusals::new();
        if !self.flush(&mut refusals) {
            return Err(HubFault::Memory);
        }
        if !agree(self.passes, self.log.as_slice(), passes) {
            return Err(HubFault::Torn);
        }
        Ok(())
    }
}

/// Closes a hub, whose site and history it answers. What is pending is published first.
///
/// `Torn` comes where a pass is missing, or where the digests of one are not those of its entries.
/// A refusal hands the keeper and the passes back.
pub fn close<H: HubName, R: Wait + Drop>(
    mut keeper: Keeper<H, Snapshot<H>, R>,
    passes: Vec<Pass<H>>,
) -> Result<(Site, Log), CloseFault<Keeper<H, Snapshot<H>, R>, H>>
    ensures site { IfOk result (λ both. both.0 ≡ set_of H.opening keeper.all) }
    ensures log { IfOk result (λ both. both.1 ≡ logged_of keeper.all) }
    ensures agree { OnOk result (agree_in H.passes (logged_of keeper.all) passes.items ≡ true) }

    // A refusal.
    ensures torn { IfErr result (λ back. back.fault ≡ HubFault.Torn →
        agree_in H.passes (logged_of keeper.all) passes.items ≡ false) }
    ensures keeper { IfErr result (λ back. HasStayed keeper back.keeper) }
    ensures passes { IfErr result (λ back. back.passes.items ≡ passes.items) }
    ensures fault { IfErr result (λ back.
        (back.fault ≡ HubFault.Torn) ⊎ (back.fault ≡ HubFault.Memory)) }
{
    match keeper.may_close(passes.as_slice()) {
        Ok(()) => {
            drop(passes);
            Ok(keeper.into_parts())
        }
        Err(fault) => Err(CloseFault {
            keeper,
            passes,
            fault,
        }),
    }
}
