//! What the desk asks of a site, in one look.

ghost use Rattle.std.specs.Prelude.{◌≡◌, ◌⊎◌, IfOk, IfErr, max};
ghost use Rattle.site_desk.specs.declared.fault.DeskFault.TheVariants.{Busy, Memory};
ghost use Rattle.site_state.specs.Site.{ops_of, top_counter_of};
ghost use Rattle.site_hub.specs.History.{set_of};
ghost use Rattle.site_hub.specs.Hub.{HasLooked};

use crate::DeskFault;
use site_hub::{HubFault, HubName, Pass, Question};
use site_state::Site;
use std::alloc::{AllocError, Global};

/// Asks for the greatest counter of all corrections.
#[derive(Clone, Copy)]
pub struct Top;

impl Question<u64> for Top {
    ghost answers = { λ q set top. top ≡ top_counter_of (ops_of set) };

    fn answer(&self, _alloc: Global, site: &Site) -> Result<u64, AllocError> {
        Ok(site.top_counter())
    }
}

/// The greatest counter of what a look sees, and of what the desk has made.
pub(crate) fn top_of<H: HubName>(pass: &mut Pass<H>, last: u64) -> Result<u64, DeskFault>
    ensures looked { HasLooked pass.old pass.new }
    ensures top { IfOk result
        (λ top. top ≡ max (top_counter_of (ops_of (set_of H.opening pass.new.seen))) last) }
    ensures fault { IfErr result (λ fault. (fault ≡ Busy) ⊎ (fault ≡ Memory)) }
{
    match pass.look(&Top) {
        Ok(top) => Ok(top.max(last)),
        Err(HubFault::Busy) => Err(DeskFault::Busy),
        Err(_refused) => Err(DeskFault::Memory),
    }
}
