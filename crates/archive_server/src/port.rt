//! The port of an association of a server.

ghost use Rattle.std.specs.Prelude.{◌≡◌, Err, IfErr, IfOk, IfSome, MatchResult, OnErr, Some};
ghost use Rattle.operation.specs.declared.op.Op.TheVariants.{Content as a_content};
ghost use Rattle.operation.specs.Spelling.{digest_of};
ghost use Rattle.devices.specs.Failures.{Rose};
ghost use Rattle.site_state.specs.Site.{ops_of};
ghost use Rattle.site_hub.specs.History.{set_of};
ghost use Rattle.site_hub.specs.Hub.{Seat, IsLater};
ghost use Rattle.association_run.specs.Port.{Stores, Finds, Gets, Loads, IsLoadFault};
ghost use Rattle.records.specs.StandIn.{op_in};
ghost use Rattle.archive_model.specs.Listed.{IsOfRecord};
ghost use Rattle.hub_exchange.specs.Putting.{IsLent};
ghost use Rattle.archive_server.specs.Refusing.{RefusesStore, RefusesLoadOf, IsUnlike};
ghost use Rattle.archive_server.specs.Serving.{IsOnward, WasWritten};

use crate::ahead::{Ahead, Brings};
use crate::refusing::{Service, told, told_load, told_shelf_load, told_store};
use archive_model::{Answers, Listed, Query, Selection, View};
use association_run::Port;
use association_session::PortFault;
use association_worker::{AtEntry, HubPort, loaded};
use hub_exchange::{AtLending, Extract, LedgerName, Put};
use log::Log;
use octets::ListOf;
use operation::{Content, ContentRecord, Digested, Op, Taken};
use site_hub::{HubName, Keeper, Pass, Shows};
use site_pages::Tally;
use std::alloc::Global;
use std::marker::Model;
use std::sync::{Mutex, Wait};
use std::time::Clock;

/// A pass with the shared keeper, the way to the shelf, what is known of the shelf's ledger, and
/// what is asked for next. The pass goes on from what it was when its association began, and what
/// it stores since stands in the ledger. Contracts see the pass.
pub struct ServerPort<
    'a,
    'b,
    H: HubName,
    T: Shows<H>,
    R: Wait + Drop,
    S: Wait,
    N: LedgerName,
    P: Put<N> + Copy,
    E: AtEntry + AtLending<P>,
> {
    rt: &'a S,
    shelf: &'b P,
    hub: HubPort<'a, H, T, R, S, E>,
    tally: Tally,
    ahead: Ahead,
    extract: Extract<N>,
    alloc: Global,
}

impl<
    'a,
    'b,
    H: HubName,
    T: Shows<H>,
    R: Wait + Drop,
    S: Wait,
    N: LedgerName,
    P: Put<N> + Copy,
    E: AtEntry + AtLending<P>,
> Model for ServerPort<'a, 'b, H, T, R, S, N, P, E> {
    ghost use Rattle.site_hub.specs.Hub.{Seat};
    ghost use Rattle.hub_exchange.specs.Putting.{WasWritten};
    ghost use Rattle.hub_exchange.specs.Onward.{IsServing};

    ghost Value = { Seat };

    ghost view = { λ p. p.hub };

    ghost invariant = { λ p.
        IsServing (WasWritten p.extract) E.seat p.hub E.lent p.shelf.now };
}

/// How many images were listed.
fn length_of<E>(listed: &Result<ListOf<Listed>, E>) -> u64 {
    match listed {
        Ok(images) => images.len() as u64,
        Err(_fault) => 0,
    }
}

/// What was listed, as it is asked for next.
fn ahead_of<E>(alloc: Global, listed: &Result<ListOf<Listed>, E>) -> Ahead {
    match listed {
        Ok(images) => Ahead::of(alloc, images.as_slice()),
        Err(_fault) => Ahead::of(alloc, &[]),
    }
}

/// What was found of a digest, where it is a content of the record.
fn brought(found: Option<Digested>, asked: &ContentRecord) -> Result<Content, PortFault>
    requires own { IfSome found (λ op. digest_of op ≡ asked.now.digest) }
    ensures loaded { IfOk result (IsOfRecord asked.now) }
    ensures unlike { IfErr result (IsUnlike asked.now found) }
{
    match found {
        None => Err(PortFault::Shelf),
        Some(op) => loaded(op.into_op(), asked),
    }
}

/// Loads a content of a record over a way to the shelf, and tells what is refused.
fn load_over<N: LedgerName, P: Put<N>, S: Clock + Log>(
    rt: &S,
    shelf: &mut P,
    asked: &ContentRecord,
) -> Result<Content, PortFault>
    ensures loaded { MatchResult result (IsOfRecord asked.now) IsLoadFault }
    ensures why { IfErr result (RefusesLoadOf (IsLent (Some shelf.old)) P.refuses_load P.has_loaded
        asked.now) }
{
    match shelf.load(asked.digest()) {
        Ok(found) => told_load(rt, brought(found, asked)),
        Err(fault) => Err(told_shelf_load(rt, fault)),
    }
}

impl<
    'a,
    'b,
    H: HubName,
    T: Shows<H>,
    R: Wait + Drop,
    S: Wait,
    N: LedgerName,
    P: Put<N> + Copy,
    E: AtEntry + AtLending<P>,
> ServerPort<'a, 'b, H, T, R, S, N, P, E> {
    /// The port of an association that begins with this pass, when this is known of the ledger.
    pub(crate) fn new(
        rt: &'a S,
        keeper: &'a Mutex<Keeper<H, T, R>>,
        shelf: &'b P,
        pass: Pass<H>,
        extract: Extract<N>,
        alloc: Global,
    ) -> ServerPort<'a, 'b, H, T, R, S, N, P, E>
        requires entry { pass ≡ E.seat }
        requires lent { IsLent E.lent shelf.now }
        ensures { result ≡ pass }
    {
        ServerPort {
            rt,
            shelf,
            hub: HubPort::new(rt, keeper, pass),
            tally: Tally::new(),
            ahead: Ahead::of(alloc, &[]),
            extract,
            alloc,
        }
    }

    /// What it was asked for so far.
    pub(crate) fn tally(&self) -> Tally {
        self.tally
    }

    /// Gives the pass back, and what is known of the ledger.
    pub(crate) fn into_parts(self) -> (Pass<H>, Extract<N>)
        ensures same { result.0 ≡ self.entry }
        ensures onward { IsOnward (WasWritten result.1) E.seat result.0 }
    {
        let ServerPort {
            rt: _,
            shelf: _,
            hub,
            tally: _,
            ahead: _,
            extract,
            alloc: _,
        } = self;
        (hub.into_pass(), extract)
    }
}

impl<
    'a,
    'b,
    H: HubName,
    T: Shows<H>,
    R: Wait + Drop,
    S: Wait + Clock + Log,
    N: LedgerName,
    P: Put<N> + Brings + Copy,
    E: AtEntry + AtLending<P>,
> Port for ServerPort<'a, 'b, H, T, R, S, N, P, E> {
    ghost ops = { λ p. ops_of (set_of H.opening p.seen) };

    ghost own = { λ p. p.mine };

    fn store(&mut self, content: Content) -> Result<Taken, PortFault>
        ensures stores { Stores (λ (s : Seat). ops_of (set_of H.opening s.seen))
            (λ (s : Seat). s.mine) self.old (op_in (a_content content)) result self.new }
        // What the pass has seen published is told as taken. A fault of the shelf is told only
        // where the way that was lent may refuse so, and Busy only where it was counted in this
        // call.
        ensures refused { OnErr result (self.new.seen ≡ self.old.seen) }
        ensures why { IfErr result
            (RefusesStore (IsLent E.lent) P.refuses self.old self.new (a_content content)) }
        ensures later { IsLater self.old self.new }
    {
        let op = Digested::of(Op::Content(content));
        // Where memory is refused for its record, nothing is put.
        let Ok(recorded) = self.hub.pass().record(&op) else {
            return self
                .tally
                .stored(told(self.rt, Service::Store, Err(PortFault::Memory)));
        };
        let mut shelf = *self.shelf;
        match shelf.put(&op) {
            Ok(shelved) => {
                // The hub takes the record of what the shelf keeps.
                let taken = self.hub.take(recorded);
                self.extract.learn(&shelved.extract);
                self.tally.stored(told(self.rt, Service::Store, taken))
            }
            Err(fault) => {
                let refused = Err(told_store(self.rt, fault));
                self.tally.stored(refused)
            }
        }
    }

    fn find(&mut self, called: &[u8], view: View, query: &Query) -> Result<Answers, PortFault>
        ensures finds { Finds (λ (s : Seat). ops_of (set_of H.opening s.seen))
            (λ (s : Seat). s.mine) self.old
            (record { called = called.now; view = view; query = query.now }) result self.new }
        ensures busy { result ≡ Err PortFault.Busy → Rose self.old.refused self.new.refused }
        ensures later { IsLater self.old self.new }
    {
        self.tally.found();
        let rows = self.hub.rows(called, view, query);
        told(self.rt, Service::Find, rows)
    }

    fn get(&mut self, view: View, selection: &Selection) -> Result<ListOf<Listed>, PortFault>
        ensures gets { Gets (λ (s : Seat). ops_of (set_of H.opening s.seen))
            (λ (s : Seat). s.mine) self.old
            (record { view = view; selection = selection.now }) result self.new }
        ensures busy { result ≡ Err PortFault.Busy → Rose self.old.refused self.new.refused }
        ensures later { IsLater self.old self.new }
    {
        let listed = self.hub.listed(view, selection);
        self.tally.got(length_of(&listed));
        self.ahead = ahead_of(self.alloc, &listed);
        told(self.rt, Service::Get, listed)
    }

    fn load(&mut self, asked: &ContentRecord) -> Result<Content, PortFault>
        ensures loads { Loads (λ (s : Seat). ops_of (set_of H.opening s.seen))
            (λ (s : Seat). s.mine) self.old asked.now result self.new }
        ensures kept { self.new ≡ self.old }
        // The shelf refused it in this call, by the way that was lent, or has no content of the
        // record under its digest.
        ensures why { IfErr result
            (RefusesLoadOf (IsLent E.lent) P.refuses_load P.has_loaded asked.now) }
    {
        let mut shelf = *self.shelf;
        self.ahead.bring(&shelf, asked.digest());
        load_over(self.rt, &mut shelf, asked)
    }
}
