//! The keeper that all passes share, as the way by which a port stores.

ghost use Rattle.std.specs.Prelude.{◌≡◌, ◌≢◌, Err, OnErr};
ghost use Rattle.devices.specs.Failures.{Rose};
ghost use Rattle.site_state.specs.Site.{ops_of};
ghost use Rattle.site_hub.specs.History.{set_of};
ghost use Rattle.site_hub.specs.Hub.{Seat, IsLater};
ghost use Rattle.association_run.specs.Port.{Stores};

use crate::at_entry::AtEntry;
use crate::looker::Looker;
use association_session::PortFault;
use operation::Taken;
use records::RecordedOp;
use site_hub::{HubName, Keeper, Shows};
use std::sync::{Mutex, Wait};

/// The keeper that all passes share, with the handle by which a thread waits for it. A take is all
/// that it can be asked for, so nothing else that a port does can wait for the keeper.
#[derive(Drop)]
pub(crate) struct SharedKeeper<'a, H: HubName, T: Shows<H>, R: Wait + Drop, S: Wait> {
    rt: &'a S,
    keeper: &'a Mutex<Keeper<H, T, R>>,
}

impl<'a, H: HubName, T: Shows<H>, R: Wait + Drop, S: Wait> SharedKeeper<'a, H, T, R, S> {
    pub fn new(rt: &'a S, keeper: &'a Mutex<Keeper<H, T, R>>) -> SharedKeeper<'a, H, T, R, S> {
        SharedKeeper { rt, keeper }
    }

    /// Takes an operation for a pass, at its turn.
    pub fn take<E: AtEntry>(
        &self,
        looker: &mut Looker<H, E>,
        op: RecordedOp,
    ) -> Result<Taken, PortFault>
        ensures stores { Stores (λ (s : Seat). ops_of (set_of H.opening s.seen))
            (λ (s : Seat). s.mine) looker.old op result looker.new }
        ensures refused { OnErr result (looker.new.seen ≡ looker.old.seen) }
        ensures own { result ≢ Err PortFault.Shelf }
        ensures busy { result ≡ Err PortFault.Busy → Rose looker.old.refused looker.new.refused }
        ensures later { IsLater looker.old looker.new }
    {
        looker.take(self.rt, self.keeper, op)
    }
}
