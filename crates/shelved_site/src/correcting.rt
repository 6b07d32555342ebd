//! Corrections of a site in a store.

ghost use Rattle.std.specs.Prelude.{◌≡◌, [], Err, IfOk, IfErr, OnErr, false};
ghost use Rattle.site_hub.specs.Stamps.{may_be_made, LAST_COUNTER};
ghost use Rattle.site_state.specs.Site.{ops_of, top_counter_of};
ghost use Rattle.shelved_site.specs.declared.fault.ShelvedFault.TheVariants.{Hidden, Hub};
ghost use Rattle.shelved_site.specs.Readable.{Shown};
ghost use Rattle.shelved_site.specs.Corrections.{IsCorrected, IsNext, IsSpent, IsUncorrected};
ghost use Rattle.shelved_site.specs.Corrections.{IsUnmade, LacksSome};

use crate::Store;
use crate::fault::ShelvedFault;
use crate::known::is_known;
use crate::taking::{Hearing, Sited, site_on};
use octets::Octets;
use operation::{Op, Stamp, Target};
use site_hub::{HubFault, next_correction};
use site_state::Site;
use std::alloc::Global;

/// A correction that was made.
#[derive(Clone, Copy, Debug, PartialEq, Eq)]
pub struct Corrected {
    /// That of the correction which the store then has.
    pub stamp: Stamp,
    /// Whether the site has a content of its target.
    pub is_known: bool,
}

/// Corrects an attribute at a site, which has this number and whose operations stand in a store.
pub fn correct_with<S: Store>(
    store: &mut S,
    site: &Site,
    number: u16,
    target: Target,
    tag: u32,
    value: Octets,
) -> Result<Corrected, ShelvedFault>
    ensures corrected { S.is_clean store.new → IfOk result
        (IsNext site.now (S.is_left store.new) number target tag value) }
    // The store is as it was at any time since which nothing has changed.
    ensures refused { S.is_clean store.new → (first : S) → S.is_same first store.old
        → OnErr result (S.spares first store.new) }
    ensures clean { S.is_clean store.new → S.is_clean store.old }

    // Why none comes next, only where it is so.
    ensures unmade { IfErr result (IsUnmade site.now number target tag value) }
    ensures bad_correction { result ≡ Err (Hub HubFault.BadCorrection) →
        may_be_made number target tag value ≡ false }
    ensures stamps_spent { result ≡ Err (Hub HubFault.StampsSpent)
        → top_counter_of (ops_of site.now) ≡ LAST_COUNTER }
{
    let is_known = is_known(site, &target);
    let made = next_correction(site, number, target, tag, value)?;
    let stamp = made.stamp();
    let _kept = store.add(&Op::Correction(made))?;
    Ok(Corrected { stamp, is_known })
}

/// Corrects an attribute at the site of a number, whose operations stand in a store. Where some of
/// these can't be read, none is made: one may be a correction, whose stamp would be given again.
pub fn correct_on<S: Store, H: Hearing>(
    alloc: Global,
    store: &mut S,
    number: u16,
    target: Target,
    tag: u32,
    value: Octets,
    hearing: &H,
) -> Result<Corrected, ShelvedFault>
    ensures corrected { S.is_clean store.new → IfOk result (IsCorrected
        (S.shows store.old []) (S.is_left store.new) number target tag value) }
    ensures refused { S.is_clean store.new → OnErr result (S.spares store.old store.new) }
    ensures clean { S.is_clean store.new → S.is_clean store.old }

    // Why none comes next, only where it is so. What may not be made is told so, unless memory
    // or the store is what refuses.
    ensures hidden { S.is_clean store.new → result ≡ Err Hidden
        → LacksSome (S.reads store.old store.new) }
    ensures unmade { S.is_clean store.new → IfErr result
        (IsUncorrected (Shown (S.shows store.old)) number target tag value) }
    ensures bad_correction { result ≡ Err (Hub HubFault.BadCorrection) →
        may_be_made number target tag value ≡ false }
    ensures stamps_spent { S.is_clean store.new → result ≡ Err (Hub HubFault.StampsSpent)
        → IsSpent (Shown (S.shows store.old)) }
{
    let Sited { site, unreadable } = site_on(alloc, store, hearing)?;
    if !unreadable.is_empty() {
        return Err(ShelvedFault::Hidden);
    }
    correct_with(store, &site, number, target, tag, value)
}
