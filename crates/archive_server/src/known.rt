//! What a server knows of itself as it answers for a page.

use archive_page::Fact;
use site_pages::{Meeting, Meters, Sizes};
use std::marker::Model;

/// What a server knows of itself as it answers for a page.
pub(crate) struct Known {
    /// Why its shelf refuses what it is given, if it does.
    pub refusal: Option<&'static str>,
    pub meters: Meters,
    /// How many seconds ago it began.
    pub uptime: u64,
    pub sizes: Sizes,
    /// Its exchanges with each peer that it calls, and with each caller.
    pub peers: Vec<Meeting>,
    pub callers: Vec<Meeting>,
    /// What stands on the page of its site.
    pub facts: Vec<Fact>,
}

impl Model for Known {
    ghost use Rattle.std.specs.Option.{option_copied};
    ghost use Rattle.archive_server.specs.Telling.{Knowledge};

    ghost Value = { Knowledge };

    ghost view = { λ k. record {
      refusal = option_copied k.refusal;
      meters = k.meters;
      uptime = k.uptime;
      sizes = k.sizes;
      peers = k.peers.items;
      callers = k.callers.items;
      facts = k.facts.items;
    } };
}

impl Drop for Known {
    fn drop(self) {
        let Known {
            refusal: _,
            meters: _,
            uptime: _,
            sizes: _,
            peers: _,
            callers: _,
            facts: _,
        } = self;
    }
}
