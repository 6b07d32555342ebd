//! Tokens, by which one pass is told of what another stored.
ghost use Rattle.std.specs.Prelude.{◌≡◌};

use crate::book::{Front, HubName};
use operation::Taken;
use std::marker::Model;

/// That an operation was taken. It names the history reached, so a pass that learns it looks at
/// nothing older.
pub struct Told<H: HubName> {
    pub(crate) front: Front<H>,
    pub(crate) taken: Taken,
}

impl<H: HubName> Model for Told<H> {
    ghost use Rattle.site_hub.specs.Hub.{News};

    ghost Value = { News };

    ghost view = { λ t. record { reached = t.front; taken = t.taken } };
}

// It is written out, so that a caller does not prove again how each part is dropped.
impl<H: HubName> Drop for Told<H> {
    fn drop(self) {
        let Told { front: _, taken: _ } = self;
    }
}

impl<H: HubName> Told<H> {
    /// Whether the operation was new or known.
    pub fn taken(&self) -> Taken
        ensures { result ≡ self.now.taken }
    {
        self.taken
    }
}
