//! The lines of what the archive itself refuses, always on standard error: a request, a load, an
//! operation of a peer, or a correction.

ghost use Rattle.std.specs.Prelude.{◌≡◌};
ghost use Rattle.archive_server.specs.Fault.{port_fault_of};
ghost use Rattle.archive_server.specs.Refusing.{status_of_store, status_of, word_of};
ghost use Rattle.archive_server.specs.Refusing.{words_of_site, words_of_load, words_of};

use crate::asking::Asking;
use crate::cause::words_of_shelf;
use crate::journal::Moment;
use association_session::PortFault;
use hub_exchange::{LedgerName, Put, Shelved};
use log::{Log, error};
use op_shelf::ShelfFault;
use operation::{Digest, Digested};
use std::alloc::AllocError;
use std::sync::Wait;
use std::time::Clock;

/// What a peer asked for.
#[derive(Clone, Copy)]
pub(crate) enum Service {
    Store,
    Find,
    Get,
}

/// Why the archive refuses: what its site answered, or what its shelf had.
#[derive(Clone, Copy)]
enum Why {
    Site(PortFault),
    Shelf(ShelfFault),
}

/// What a fault of the shelf is to an association.
fn fault_of_shelf(fault: ShelfFault) -> PortFault
    ensures { result ≡ port_fault_of fault }
{
    match fault {
        ShelfFault::Memory => PortFault::Memory,
        ShelfFault::Store(_) | ShelfFault::BadRow => PortFault::Shelf,
    }
}

/// The status of a store that the archive itself refuses, as a line has it (PS3.4, section B.2.3).
fn status_of_store(fault: PortFault) -> &'static str
    ensures { result.now ≡ status_of_store fault }
{
    match fault {
        PortFault::Collision => "C000",
        PortFault::Memory | PortFault::Busy | PortFault::Shelf => "A700",
    }
}

/// What a request is answered that the archive itself refuses, as a line has it (PS3.4, sections
/// B.2.3, C.4.1.1.4 and C.4.3.1.4).
fn status_of(service: Service, fault: PortFault) -> &'static str
    ensures { result.now ≡ status_of service fault }
{
    match service {
        Service::Store => status_of_store(fault),
        Service::Find => "A700",
        Service::Get => "A702",
    }
}

/// What a request is called in a line.
fn word_of(service: Service) -> &'static str
    ensures { result.now ≡ word_of service }
{
    match service {
        Service::Store => "store",
        Service::Find => "find",
        Service::Get => "get",
    }
}

fn words_of_site(fault: PortFault) -> &'static str
    ensures { result.now ≡ words_of_site fault }
{
    match fault {
        PortFault::Memory => "memory was refused",
        PortFault::Busy => "the site was busy",
        PortFault::Collision => "another operation has its digest",
        PortFault::Shelf => "it could not be kept",
    }
}

/// Why, in words.
fn words_of(why: Why) -> &'static str
    ensures { result.now ≡ words_of why }
{
    match why {
        Why::Site(fault) => words_of_site(fault),
        Why::Shelf(fault) => words_of_shelf(fault),
    }
}

/// Tells that a request was refused, which is answered with this.
fn tell_request<S: Clock + Log>(rt: &S, service: Service, fault: PortFault, why: Why) {
    let (moment, status, words) = (Moment::now(rt), status_of(service, fault), words_of(why));
    let request = word_of(service);
    error!(rt; target: "archive", "{moment} {request} refused {status}: {words}");
}

/// Tells what the site refused to a request, and hands its reply on.
pub(crate) fn told<S: Clock + Log, T>(
    rt: &S,
    service: Service,
    reply: Result<T, PortFault>,
) -> Result<T, PortFault>
    ensures { result ≡ reply }
{
    if let Err(fault) = &reply {
        tell_request(rt, service, *fault, Why::Site(*fault));
    }
    reply
}

/// What a load is refused for.
fn words_of_load(fault: PortFault) -> &'static str
    ensures { result.now ≡ words_of_load fault }
{
    match fault {
        PortFault::Shelf => "it could not be brought",
        PortFault::Memory | PortFault::Busy | PortFault::Collision => words_of_site(fault),
    }
}

/// Tells that a data set was not loaded, whose sub-operation fails then, and hands the reply on.
pub(crate) fn told_load<S: Clock + Log, T>(
    rt: &S,
    reply: Result<T, PortFault>,
) -> Result<T, PortFault>
    ensures { result ≡ reply }
{
    if let Err(fault) = &reply {
        let (moment, words) = (Moment::now(rt), words_of_load(*fault));
        error!(rt; target: "archive", "{moment} load refused: {words}");
    }
    reply
}

/// Tells that the shelf refused a store, and hands on what that is to an association.
pub(crate) fn told_store<S: Clock + Log>(rt: &S, fault: ShelfFault) -> PortFault
    ensures { result ≡ port_fault_of fault }
{
    let refused = fault_of_shelf(fault);
    tell_request(rt, Service::Store, refused, Why::Shelf(fault));
    refused
}

/// Tells that the shelf refused a load, and hands on what that is to an association.
pub(crate) fn told_shelf_load<S: Clock + Log>(rt: &S, fault: ShelfFault) -> PortFault
    ensures { result ≡ port_fault_of fault }
{
    let (moment, words) = (Moment::now(rt), words_of(Why::Shelf(fault)));
    error!(rt; target: "archive", "{moment} load refused: {words}");
    fault_of_shelf(fault)
}

/// Tells what the shelf refused, and hands its answer on.
fn told_shelf<S: Clock + Log, T>(
    rt: &S,
    what: &str,
    kept: Result<T, ShelfFault>,
) -> Result<T, ShelfFault>
    ensures { result ≡ kept }
{
    if let Err(fault) = &kept {
        let (moment, words) = (Moment::now(rt), words_of(Why::Shelf(*fault)));
        error!(rt; target: "archive", "{moment} {what} refused: {words}");
    }
    kept
}

/// The way of an exchange, or of the desk, to the shelf, which tells what the shelf refuses.
pub(crate) struct Telling<'a, N: LedgerName, S: Wait + Clock + Log> {
    rt: &'a S,
    /// What it gives the shelf, in words.
    what: &'static str,
    way: Asking<'a, N, S>,
}

impl<'a, N: LedgerName, S: Wait + Clock + Log> Telling<'a, N, S> {
    /// The way of an exchange.
    pub fn new(rt: &'a S, way: Asking<'a, N, S>) -> Telling<'a, N, S> {
        Telling {
            rt,
            what: "operation of a peer",
            way,
        }
    }

    /// The way of the desk.
    pub fn of_desk(rt: &'a S, way: Asking<'a, N, S>) -> Telling<'a, N, S> {
        Telling {
            rt,
            what: "correction",
            way,
        }
    }
}

impl<'a, N: LedgerName, S: Wait + Clock + Log> Clone for Telling<'a, N, S> {
    fn clone(&self) -> Result<Telling<'a, N, S>, AllocError> {
        Ok(*self)
    }
}

impl<'a, N: LedgerName, S: Wait + Clock + Log> Copy for Telling<'a, N, S> {}

impl<'a, N: LedgerName, S: Wait + Clock + Log> Put<N> for Telling<'a, N, S> {
    ghost use Rattle.archive_server.specs.Asking.{RefusesOverChannel, RefusesLoadOverChannel, WasBrought};

    ghost refuses = { λ before after op fault.
        RefusesOverChannel before.way.line.tried after.way.line.tried op fault };

    ghost refuses_load = { λ before after digest fault.
        RefusesLoadOverChannel before.way.line.tried after.way.line.tried digest fault };

    ghost has_loaded = { λ before after digest found.
        WasBrought before.way.line.tried after.way.line.tried before.way.remembered
        after.way.remembered digest found };

    fn put(&mut self, op: &Digested) -> Result<Shelved<N>, ShelfFault> {
        told_shelf(self.rt, self.what, self.way.put(op))
    }

    fn load(&mut self, digest: &Digest) -> Result<Option<Digested>, ShelfFault> {
        told_shelf(self.rt, "load", self.way.load(digest))
    }
}
