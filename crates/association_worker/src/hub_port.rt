//! A pass of a running site, as the part of a port that knows no shelf.

ghost use Rattle.std.specs.Prelude.{◌≡◌, ◌≢◌, Err, OnErr};
ghost use Rattle.devices.specs.Failures.{Rose};
ghost use Rattle.site_state.specs.Site.{ops_of};
ghost use Rattle.site_hub.specs.History.{set_of};
ghost use Rattle.site_hub.specs.Hub.{Seat, IsLater};
ghost use Rattle.association_run.specs.Port.{Stores, Finds, Gets};

use crate::at_entry::AtEntry;
use crate::looker::Looker;
use crate::shared_keeper::SharedKeeper;
use archive_model::{Answers, Listed, Query, Selection, View};
use association_session::PortFault;
use octets::ListOf;
use operation::Taken;
use records::RecordedOp;
use site_hub::{HubName, Keeper, Pass, Shows};
use std::marker::Model;
use std::sync::{Mutex, Wait};

/// A pass with the keeper that all passes share, as what a port of one association asks of the
/// site: all but loads. Its set is that of the history that the pass has seen, and its list is the
/// pass's own.
///
/// What it is asked goes to its `Looker`, which waits for nobody; a store waits for the keeper,
/// whose lock nothing else here can take.
pub struct HubPort<'a, H: HubName, T: Shows<H>, R: Wait + Drop, S: Wait, E: AtEntry> {
    shared: SharedKeeper<'a, H, T, R, S>,
    looker: Looker<H, E>,
}

impl<'a, H: HubName, T: Shows<H>, R: Wait + Drop, S: Wait, E: AtEntry> Model
    for HubPort<'a, H, T, R, S, E> {
    ghost use Rattle.site_hub.specs.Hub.{Seat};

    ghost Value = { Seat };

    ghost view = { λ p. p.looker };
}

impl<'a, H: HubName, T: Shows<H>, R: Wait + Drop, S: Wait, E: AtEntry> HubPort<'a, H, T, R, S, E> {
    /// The port of an association that begins with this pass.
    pub fn new(
        rt: &'a S,
        keeper: &'a Mutex<Keeper<H, T, R>>,
        pass: Pass<H>,
    ) -> HubPort<'a, H, T, R, S, E>
        requires entry { pass ≡ E.seat }
        ensures { result ≡ pass }
    {
        HubPort {
            shared: SharedKeeper::new(rt, keeper),
            looker: Looker::new(pass),
        }
    }

    /// The pass, as it is now.
    pub fn pass(&self) -> &Pass<H>
        ensures { result.now ≡ self.now }
    {
        self.looker.pass()
    }

    /// The pass, which has only gone on since its association began.
    pub fn into_pass(self) -> Pass<H>
        ensures same { result ≡ self.entry }
        ensures onward { IsLater E.seat result }
    {
        let HubPort { shared: _, looker } = self;
        looker.into_pass()
    }

    /// Takes an operation, at its turn, into what all passes share. What is refused was not
    /// published: the pass has seen nothing more. No shelf is asked.
    pub fn take(&mut self, op: RecordedOp) -> Result<Taken, PortFault>
        ensures stores { Stores (λ (s : Seat). ops_of (set_of H.opening s.seen))
            (λ (s : Seat). s.mine) self.old op result self.new }
        ensures refused { OnErr result (self.new.seen ≡ self.old.seen) }
        ensures own { result ≢ Err PortFault.Shelf }
        ensures busy { result ≡ Err PortFault.Busy → Rose self.old.refused self.new.refused }
        ensures later { IsLater self.old self.new }
    {
        self.shared.take(&mut self.looker, op)
    }

    /// The rows that the pass finds, in one look.
    pub fn rows(&mut self, called: &[u8], view: View, query: &Query) -> Result<Answers, PortFault>
        ensures finds { Finds (λ (s : Seat). ops_of (set_of H.opening s.seen))
            (λ (s : Seat). s.mine) self.old
            (record { called = called.now; view = view; query = query.now }) result self.new }
        ensures busy { result ≡ Err PortFault.Busy → Rose self.old.refused self.new.refused }
        ensures later { IsLater self.old self.new }
    {
        self.looker.rows(called, view, query)
    }

    /// What the pass lists of a selection, in one look.
    pub fn listed(&mut self, view: View, selection: &Selection) -> Result<ListOf<Listed>, PortFault>
        ensures gets { Gets (λ (s : Seat). ops_of (set_of H.opening s.seen))
            (λ (s : Seat). s.mine) self.old
            (record { view = view; selection = selection.now }) result self.new }
        ensures busy { result ≡ Err PortFault.Busy → Rose self.old.refused self.new.refused }
        ensures later { IsLater self.old self.new }
    {
        self.looker.listed(view, selection)
    }
}
