//! A pass of a running site, as the part of a port that is asked what it holds.

ghost use Rattle.std.specs.Prelude.{◌≡◌, ◌≢◌, ◌⊎◌, Ok, Err, Some, IfOk, IfErr, OnOk, OnErr};
ghost use Rattle.devices.specs.Failures.{Rose};
ghost use Rattle.site_state.specs.Site.{ops_of};
ghost use Rattle.site_hub.specs.History.{set_of};
ghost use Rattle.site_hub.specs.Hub.{Seat, IsLater};
ghost use Rattle.association_run.specs.Port.{Stores, Finds, Gets};
ghost use Rattle.association_worker.specs.Port.{fault_of_hub, reply_to};

use crate::at_entry::AtEntry;
use archive_model::{Answers, Listed, Query, Selection, View};
use association_session::PortFault;
use octets::ListOf;
use operation::Taken;
use records::RecordedOp;
use site_hub::{HubFault, HubName, Keeper, Pass, Shows, Told, store};
use std::marker::{Model, PhantomData};
use std::sync::{Mutex, Wait};

/// A pass of one association. It has no keeper and no handle with which a thread can wait: so what
/// it answers waits for nobody, whatever is stored meanwhile.
pub struct Looker<H: HubName, E: AtEntry> {
    pass: Pass<H>,
    of: PhantomData<E>,
}

impl<H: HubName, E: AtEntry> Model for Looker<H, E> {
    ghost use Rattle.site_hub.specs.Hub.{Seat, IsLater};

    ghost Value = { Seat };

    ghost view = { λ l. l.pass };

    ghost invariant = { λ l. IsLater E.seat l.pass };
}

fn port_fault(fault: HubFault) -> PortFault
    ensures { result ≡ fault_of_hub fault }
{
    match fault {
        HubFault::Busy => PortFault::Busy,
        HubFault::Collision => PortFault::Collision,
        _ => PortFault::Memory,
    }
}

/// What the answer to a take is to a port.
fn reply<H: HubName>(told: Result<Told<H>, HubFault>) -> Result<Taken, PortFault>
    ensures { result ≡ reply_to told }
{
    match told {
        Ok(told) => Ok(told.taken()),
        Err(fault) => Err(port_fault(fault)),
    }
}

/// What the answer to a find is to a port.
fn rows_in(found: Result<Answers, HubFault>) -> Result<Answers, PortFault>
    ensures ok { IfOk found (λ rows. result ≡ Ok rows) }
    ensures err { IfErr found (λ fault. result ≡ Err (fault_of_hub fault)) }
{
    match found {
        Ok(rows) => Ok(rows),
        Err(fault) => Err(port_fault(fault)),
    }
}

/// What the answer to a get is to a port.
fn listed_in(found: Result<Vec<Listed>, HubFault>) -> Result<ListOf<Listed>, PortFault>
    ensures ok { IfOk found (λ listed. result ≡ Ok listed.items) }
    ensures err { IfErr found (λ fault. result ≡ Err (fault_of_hub fault)) }
{
    match found {
        Ok(listed) => Ok(ListOf::of(listed)),
        Err(fault) => Err(port_fault(fault)),
    }
}

impl<H: HubName, E: AtEntry> Looker<H, E> {
    /// The pass of an association that begins with it.
    pub fn new(pass: Pass<H>) -> Looker<H, E>
        requires entry { pass ≡ E.seat }
        ensures { result ≡ pass }
    {
        Looker {
            pass,
            of: PhantomData,
        }
    }

    /// The pass, as it is now.
    pub fn pass(&self) -> &Pass<H>
        ensures { result.now ≡ self.now }
    {
        &self.pass
    }

    /// The pass, which has only gone on since its association began.
    pub fn into_pass(self) -> Pass<H>
        ensures same { result ≡ self }
        ensures onward { IsLater E.seat result }
    {
        let Looker { pass, of: _ } = self;
        pass
    }

    /// The rows that the pass finds, in one look. It is busy only where no place to read from was
    /// free, or the copy there lacked what the pass had seen.
    pub fn rows(&mut self, called: &[u8], view: View, query: &Query) -> Result<Answers, PortFault>
        ensures finds { Finds (λ (s : Seat). ops_of (set_of H.opening s.seen))
            (λ (s : Seat). s.mine) self.old
            (record { called = called.now; view = view; query = query.now }) result self.new }
        ensures busy { result ≡ Err PortFault.Busy → Rose self.old.refused self.new.refused }
        ensures later { IsLater self.old self.new }
    {
        let found = self.pass.find(view, called, query);
        self.pass.see_history();
        rows_in(found)
    }

    /// What the pass lists of a selection, in one look.
    pub fn listed(&mut self, view: View, selection: &Selection) -> Result<ListOf<Listed>, PortFault>
        ensures gets { Gets (λ (s : Seat). ops_of (set_of H.opening s.seen))
            (λ (s : Seat). s.mine) self.old
            (record { view = view; selection = selection.now }) result self.new }
        ensures busy { result ≡ Err PortFault.Busy → Rose self.old.refused self.new.refused }
        ensures later { IsLater self.old self.new }
    {
        let found = self.pass.list(view, selection);
        self.pass.see_history();
        listed_in(found)
    }

    /// Takes an operation for the pass, at its turn, by a keeper that all passes share. What it
    /// refuses is the hub's own: it knows no shelf.
    pub fn take<T: Shows<H>, R: Wait + Drop>(
        &mut self,
        rt: &impl Wait,
        keeper: &Mutex<Keeper<H, T, R>>,
        op: RecordedOp,
    ) -> Result<Taken, PortFault>
        ensures stores { Stores (λ (s : Seat). ops_of (set_of H.opening s.seen))
            (λ (s : Seat). s.mine) self.old op result self.new }
        ensures refused { OnErr result (self.new.seen ≡ self.old.seen) }
        ensures own { result ≢ Err PortFault.Shelf }
        ensures busy { result ≡ Err PortFault.Busy → Rose self.old.refused self.new.refused }
        ensures later { IsLater self.old self.new }
    {
        let told = store(rt, keeper, &mut self.pass, op);
        self.pass.see_history();
        reply(told)
    }
}
