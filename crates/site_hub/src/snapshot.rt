//! What is published: a site, with the beginning of the history that it stands for.
ghost use Rattle.std.specs.Prelude.{◌≡◌, [], OnOk, OnErr};
ghost use Rattle.site_state.specs.Site.{with_op};
ghost use Rattle.site_hub.specs.History.{set_of, EndsWith};

use crate::book::{Front, HubName};
use crate::entry::Entry;
use left_right::Absorb;
use records::RecordedOp;
use site_state::Site;
use std::alloc::{AllocError, Global};
use std::marker::Model;

/// A copy of a hub's site. Contracts see the history that it stands for.
pub struct Snapshot<H: HubName> {
    site: Site,
    front: Front<H>,
    alloc: Global,
}

impl<H: HubName> Model for Snapshot<H> {
    ghost use Rattle.std.specs.Prelude.{◌≡◌, List};
    ghost use Rattle.site_hub.specs.declared.entry.Entry.{Entry};
    ghost use Rattle.site_hub.specs.History.{set_of};

    ghost Value = { List Entry };

    ghost view = { λ s. s.front };

    ghost invariant = { λ s. s.site ≡ set_of H.opening s.front };
}

// It is written out, so that a caller does not prove again how each part is dropped.
impl<H: HubName> Drop for Snapshot<H> {
    fn drop(self) {
        let Snapshot {
            site: _,
            front: _,
            alloc: _,
        } = self;
    }
}

impl<H: HubName> Snapshot<H> {
    /// A copy of the opening site, over the history that has no entry.
    pub fn new(alloc: Global, site: Site, front: Front<H>) -> Snapshot<H>
        requires opening { site ≡ H.opening }
        requires nothing { front ≡ [] }
        ensures { result ≡ [] }
    {
        Snapshot { site, front, alloc }
    }

    pub fn front(&self) -> Front<H>
        ensures { result ≡ self.now }
    {
        self.front.again()
    }

    /// The site after the history that the copy stands for.
    pub fn site(&self) -> &Site
        ensures { result.now ≡ set_of H.opening self.now }
    {
        &self.site
    }

    /// The same, by itself.
    pub fn into_site(self) -> Site
        ensures { result ≡ set_of H.opening self }
    {
        let Snapshot {
            site,
            front: _,
            alloc: _,
        } = self;
        site
    }
}

/// An entry with the history that it ends.
pub struct Item<H: HubName> {
    entry: Entry,
    front: Front<H>,
}

impl<H: HubName> Model for Item<H> {
    ghost use Rattle.std.specs.Prelude.{List};
    ghost use Rattle.site_hub.specs.declared.entry.Entry.{Entry};
    ghost use Rattle.site_hub.specs.History.{EndsWith};

    ghost Value = { List Entry };

    ghost view = { λ i. i.front };

    ghost invariant = { λ i. EndsWith i.front i.entry };
}

// It is written out, so that a caller does not prove again how each part is dropped.
impl<H: HubName> Drop for Item<H> {
    fn drop(self) {
        let Item { entry: _, front: _ } = self;
    }
}

impl<H: HubName> Item<H> {
    pub fn new(entry: Entry, front: Front<H>) -> Item<H>
        requires { EndsWith front entry }
        ensures { result ≡ front }
    {
        Item { entry, front }
    }
}

/// A site takes a copy of an operation, new or known.
#[tactic(auto, using(crate::proofs::Histories::taken_is_added))]
fn take_copy(alloc: Global, site: &mut Site, op: &RecordedOp) -> Result<(), AllocError>
    ensures ok { OnOk result (site.new ≡ with_op site.old op.now) }
    ensures kept { OnErr result (site.new ≡ site.old) }
{
    let op = op.copy(alloc)?;
    match site.take(op) {
        Ok(_taken) => Ok(()),
        Err(_refused) => Err(AllocError),
    }
}

impl<H: HubName> Absorb<Item<H>> for Snapshot<H> {
    type State = [Entry; 0];

    ghost state = { λ s. s };

    ghost applied = { λ log item. item };

    /// An item that does not come next is refused. Nothing is hashed, and what is kept of a content
    /// is shared.
    fn absorb_first(&mut self, item: &Item<H>, _other: &Snapshot<H>) -> Result<(), AllocError> {
        if !self.front.begins(&item.front) || item.front.len() - self.front.len() != 1 {
            return Err(AllocError);
        }
        let front = item.front.again();
        take_copy(self.alloc, &mut self.site, &item.entry.op)?;
        self.front = front;
        Ok(())
    }
}
