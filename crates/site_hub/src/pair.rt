//! The two copies of a hub's site.
ghost use Rattle.std.specs.Prelude.{◌≡◌, List, MatchResult, false, true};
ghost use Rattle.site_hub.specs.declared.entry.Entry.{Entry};
ghost use Rattle.site_hub.specs.History.{set_of};

use crate::book::HubName;
use crate::entry::Entry;
use crate::snapshot::{Item, Snapshot};
use left_right::{Absorb, WriteHandle};
use site_state::Site;
use std::marker::Model;
use std::sync::Wait;

/// A copy of a site that absorbs items. `Snapshot` is the one that is used; a struct cannot name it
/// beside `WriteHandle`, and is generic in this instead.
pub trait Shows<H: HubName>: Absorb<Item<H>, State = [Entry; 0]> + Drop {
    /// The site after the history that the copy stands for.
    fn shown(&self) -> &Site
        ensures { result.now ≡ set_of H.opening (Self.Absorb.state self.now) };

    /// A copy that has absorbed an item stands for the history that the item ends.
    ghost absorbs: { (log item : List Entry) → Self.Absorb.applied log item ≡ item };
}

impl<H: HubName> Shows<H> for Snapshot<H> {
    ghost use Rattle.std.specs.Prelude.{refl};

    ghost absorbs = { λ log item. refl };

    fn shown(&self) -> &Site {
        self.site()
    }
}

/// Contracts see what readers take, and what the next publish shows them.
#[derive(Drop)]
pub struct Pair<H: HubName, T: Shows<H>, R: Wait + Drop> {
    pub(crate) handle: WriteHandle<T, Item<H>, R>,
}

impl<H: HubName, T: Shows<H>, R: Wait + Drop> Model for Pair<H, T, R> {
    ghost use Rattle.left_right.specs.Handles.{published, pending};
    ghost use Rattle.site_hub.specs.Hub.{Two, last_of};

    ghost Value = { Two };

    ghost view = { λ w. record {
      published = T.state (published w.handle);
      reached = last_of (T.state (published w.handle)) (pending w.handle);
    } };
}

impl<H: HubName, T: Shows<H>, R: Wait + Drop> Pair<H, T, R> {
    /// The site that readers take.
    pub fn site(&self) -> &Site
        ensures { result.now ≡ set_of H.opening self.now.published }
    {
        self.handle.published().shown()
    }

    /// The item comes back where there is no memory.
    pub fn append(&mut self, item: Item<H>) -> Result<(), Item<H>>
        ensures published { self.new.published ≡ self.old.published }
        ensures reached { MatchResult result (λ _. self.new.reached ≡ item)
            (λ back. (back ≡ item) × (self.new.reached ≡ self.old.reached)) }
    {
        self.handle.append(item)
    }

    /// Shows readers what they do not see yet, if there is any. It waits for those alone that read
    /// since before it last showed some. False where memory ran out.
    pub fn publish(&mut self) -> bool
        ensures reached { self.new.reached ≡ self.old.reached }
        ensures shown { result ≡ true → self.new.published ≡ self.old.reached }
        ensures kept { result ≡ false → self.new.published ≡ self.old.published }
    {
        self.handle.flush().is_ok()
    }
}
