//! What a thread has done: so many connections accepted, each of which was served or turned away.

ghost use Rattle.std.specs.Prelude.{◌≡◌, ◌+◌, ◌-◌, ◌<◌, ◌^◌, if◌then◌else◌, Some, false, OnOk};
ghost use Rattle.std.specs.Io.KnownBytes.{Appends, Consumes};
ghost use Rattle.std.specs.Option.{option_or};
ghost use Rattle.http_server.specs.History.{History, IsServed, IsDone};
ghost use Rattle.site_pages.specs.Serving.{page_config};
ghost use Rattle.site_desk.specs.Serving.{desk_config};
ghost use Rattle.association_run.specs.Parts.{sides};
ghost use Rattle.exchange.specs.Run.{ends};
ghost use Rattle.exchange.specs.declared.role.Role.TheVariants.{Callee};
ghost use Rattle.hub_exchange.specs.Fault.{RefusesLoadAtHub};
ghost use Rattle.hub_exchange.specs.Putting.{IsLent};
ghost use Rattle.command_words.specs.Networks.{may_come};
ghost use Rattle.archive_server.specs.Correcting.{at_desk, AreAnswered};
ghost use Rattle.archive_server.specs.Done.{Attends, Converses, HasOnlyLooked, fault_of_run, fault_of_exchange};
ghost use Rattle.archive_server.specs.Serving.{HasGoneOn};
ghost use Rattle.archive_server.specs.Telling.{AreTold};

use crate::ahead::Brings;
use crate::attending::{Archive, Attended, serve_association};
use crate::clerk::Clerk;
use crate::conversing::{Conversed, serve_exchange};
use crate::correcting::Correcting;
use crate::entrance::Entrance;
use crate::fault::{NetFault, ServeFault};
use crate::known::Known;
use crate::paging::Paging;
use crate::told_desk::tell_desk;
use crate::told_pages::tell_pages;
use association_run::{End, Gate, Outbox, RunFault};
use devices::{Sink, Source};
use exchange::{Ended, ExchangeFault, Role};
use hub_exchange::{LedgerName, Put};
use log::Log;
use site_desk::Stamps;
use site_hub::{HubName, Shows};
use site_pages::Tally;
use std::alloc::Global;
use std::io;
use std::io::{Read, Write};
use std::marker::Model;
use std::net::SocketAddr;
use std::sync::Wait;
use std::time::Clock;

/// What a thread comes back with. Only what is served, or turned away, counts as accepted.
pub(crate) struct Done<H: HubName, N: LedgerName> {
    clerk: Clerk<H, N>,
    accepted: u64,
    failed: u64,
    fault: Option<ServeFault>,
}

impl<H: HubName, N: LedgerName> Drop for Done<H, N> {
    fn drop(self) {
        let Done {
            clerk: _,
            accepted: _,
            failed: _,
            fault: _,
        } = self;
    }
}

impl<H: HubName, N: LedgerName> Model for Done<H, N> {
    ghost use Rattle.archive_server.specs.Done.{Deeds};

    ghost Value = { Deeds };

    ghost view = { λ d. record {
      clerk = d.clerk;
      accepted = d.accepted;
      failed = d.failed;
      fault = d.fault;
    } };
}

/// The fault of an association, where it has one.
fn of_run(ended: Result<End, RunFault>) -> Option<ServeFault>
    ensures { result ≡ fault_of_run ended }
{
    match ended {
        Ok(_end) => None,
        Err(fault) => Some(ServeFault::Run(fault)),
    }
}

/// The fault of an exchange, likewise.
fn of_exchange(ended: Result<Ended, ExchangeFault>) -> Option<ServeFault>
    ensures { result ≡ fault_of_exchange ended }
{
    match ended {
        Ok(_ended) => None,
        Err(fault) => Some(ServeFault::Exchange(fault)),
    }
}

impl<H: HubName, N: LedgerName> Done<H, N> {
    /// Nothing was accepted.
    pub fn nothing(clerk: Clerk<H, N>, fault: Option<ServeFault>) -> Done<H, N>
        ensures clerk { result.clerk ≡ clerk }
        ensures none { (result.accepted ≡ 0) × (result.failed ≡ 0) }
        ensures fault { result.fault ≡ fault }
    {
        Done {
            clerk,
            accepted: 0,
            failed: 0,
            fault,
        }
    }

    /// The clerk, how many were accepted, and the first fault.
    pub fn into_parts(self) -> (Clerk<H, N>, u64, Option<ServeFault>)
        ensures clerk { result.0 ≡ self.clerk }
        ensures accepted { result.1 ≡ self.accepted }
        ensures fault { result.2 ≡ self.fault }
    {
        let Done {
            clerk,
            accepted,
            failed: _,
            fault,
        } = self;
        (clerk, accepted, fault)
    }

    /// One connection more, after which this is the first fault.
    fn with_one(
        clerk: Clerk<H, N>,
        accepted: u64,
        failed: u64,
        fault: Option<ServeFault>,
    ) -> Done<H, N>
        requires room { accepted + failed < 2 ^ 64 - 1 }
        ensures clerk { result.clerk ≡ clerk }
        ensures accepted { result.accepted ≡ accepted + 1 }
        ensures failed { result.failed ≡ failed }
        ensures fault { result.fault ≡ fault }
    {
        Done {
            clerk,
            accepted: accepted + 1,
            failed,
            fault,
        }
    }

    /// One association more, over any reader and writer. Its fault is told where none came before.
    pub fn with_association<
        T: Shows<H>,
        R: Wait + Drop,
        S: Wait + Clock + Log,
        P: Put<N> + Brings + Copy,
        I: Source,
        O: Sink,
        G: Gate,
    >(
        self,
        archive: &Archive<'_, H, T, R, S>,
        shelf: &P,
        outbox: &mut Outbox,
        reader: &mut I,
        writer: &mut O,
        gate: &mut G,
    ) -> (Done<H, N>, Result<End, RunFault>, Tally)
        requires room { self.accepted + self.failed < 2 ^ 64 - 1 }
        ensures onward { HasGoneOn self.clerk result.0.clerk }
        ensures attends { Attends H.opening archive.now.titles.now.list (I.remaining reader.old)
            (I.remaining reader.new)
            (sides self.clerk.pass (O.contents writer.old) (G.reached gate.old))
            (sides result.0.clerk.pass (O.contents writer.new) (G.reached gate.new)) result.1 }
        ensures accepted { result.0.accepted ≡ self.accepted + 1 }
        ensures failed { result.0.failed ≡ self.failed }
        ensures fault { result.0.fault ≡ option_or self.fault (fault_of_run result.1) }
    {
        let Done {
            clerk,
            accepted,
            failed,
            fault,
        } = self;
        let Attended {
            clerk,
            ended,
            tally,
        } = serve_association(archive, shelf, outbox, reader, writer, gate, clerk);
        let fault = fault.or(of_run(ended));
        let done = Done::with_one(clerk, accepted, failed, fault);
        (done, ended, tally)
    }

    /// One exchange more that a peer called for, over any reader and writer, likewise.
    pub fn with_exchange<
        T: Shows<H>,
        R: Wait + Drop,
        S: Wait,
        P: Put<N> + Copy,
        I: Source,
        O: Sink,
    >(
        self,
        archive: &Archive<'_, H, T, R, S>,
        shelf: &P,
        reader: &mut I,
        writer: &mut O,
    ) -> (Done<H, N>, Result<Ended, ExchangeFault>)
        requires room { self.accepted + self.failed < 2 ^ 64 - 1 }
        ensures onward { HasGoneOn self.clerk result.0.clerk }
        ensures converses { Converses H.opening
            (RefusesLoadAtHub (IsLent (Some shelf.now)) P.refuses_load P.has_loaded H.opening) Callee
            (ends self.clerk.pass (I.remaining reader.old) (O.contents writer.old)
            (I.failures reader.old) (O.failures writer.old))
            (ends result.0.clerk.pass (I.remaining reader.new) (O.contents writer.new)
            (I.failures reader.new) (O.failures writer.new)) result.1 }
        ensures accepted { result.0.accepted ≡ self.accepted + 1 }
        ensures failed { result.0.failed ≡ self.failed }
        ensures fault { result.0.fault ≡ option_or self.fault (fault_of_exchange result.1) }
    {
        let Done {
            clerk,
            accepted,
            failed,
            fault,
        } = self;
        let Conversed { clerk, ended } = serve_exchange(
            archive,
            shelf,
            Role::Callee,
            reader,
            writer,
            clerk,
        );
        let fault = fault.or(of_exchange(ended));
        (Done::with_one(clerk, accepted, failed, fault), ended)
    }

    /// One more that came for a page, over any reader and writer, who is told what the server knows
    /// of itself. A connection that broke is no fault.
    pub fn with_pages<I: Read, O: Write>(
        self,
        alloc: Global,
        paging: Paging<'_>,
        known: &Known,
        reader: &mut I,
        writer: &mut O,
    ) -> (Done<H, N>, io::Result<()>)
        requires room { self.accepted + self.failed < 2 ^ 64 - 1 }
        ensures looked { HasOnlyLooked self.clerk result.0.clerk }
        ensures served { (h : History) × ∥ IsServed page_config h ∥₁
            × AreTold H.opening paging.entry.name.now paging.entry.names.now known.now
            self.clerk.pass h
            × Consumes (I.remaining reader.old) (I.remaining reader.new) h.received
            × Appends (O.contents writer.old) (O.contents writer.new) h.sent
            × OnOk result.1 (IsDone h) }
        ensures accepted { result.0.accepted ≡ self.accepted + 1 }
        ensures failed { result.0.failed ≡ self.failed }
        ensures fault { result.0.fault ≡ self.fault }
    {
        let Done {
            clerk,
            accepted,
            failed,
            fault,
        } = self;
        let (pass, extract) = clerk.into_parts();
        let (pass, served) = tell_pages(alloc, paging, known, pass, reader, writer);
        let clerk = Clerk::new(pass, extract);
        (Done::with_one(clerk, accepted, failed, fault), served)
    }

    /// One more that came to the desk, over any reader and writer. A connection that broke is no
    /// fault.
    pub fn with_corrections<
        T: Shows<H>,
        R: Wait + Drop,
        S: Wait,
        P: Put<N> + Copy,
        I: Read,
        O: Write,
    >(
        self,
        archive: &Archive<'_, H, T, R, S>,
        shelf: P,
        correcting: Correcting<'_>,
        stamps: Stamps,
        reader: &mut I,
        writer: &mut O,
    ) -> (Done<H, N>, Stamps, io::Result<()>)
        requires room { self.accepted + self.failed < 2 ^ 64 - 1 }
        ensures served { (h : History) × ∥ IsServed desk_config h ∥₁
            × AreAnswered H.opening (at_desk correcting.entry.names.now self.clerk stamps)
            (at_desk correcting.entry.names.now result.0.clerk result.1) h
            × Consumes (I.remaining reader.old) (I.remaining reader.new) h.received
            × Appends (O.contents writer.old) (O.contents writer.new) h.sent
            × OnOk result.2 (IsDone h) }
        ensures accepted { result.0.accepted ≡ self.accepted + 1 }
        ensures failed { result.0.failed ≡ self.failed }
        ensures fault { result.0.fault ≡ self.fault }
    {
        let Done {
            clerk,
            accepted,
            failed,
            fault,
        } = self;
        let (clerk, stamps, served) = tell_desk(
            archive, shelf, correcting, stamps, reader, writer, clerk,
        );
        (
            Done::with_one(clerk, accepted, failed, fault),
            stamps,
            served,
        )
    }

    /// One peer more that may not come in here. It counts as accepted.
    pub fn with_turned_away(self, _entrance: Entrance<'_>, _peer: SocketAddr) -> Done<H, N>
        requires room { self.accepted + self.failed < 2 ^ 64 - 1 }
        requires barred { may_come _entrance.allowed.now _peer ≡ false }
        ensures clerk { result.clerk ≡ self.clerk }
        ensures accepted { result.accepted ≡ self.accepted + 1 }
        ensures failed { result.failed ≡ self.failed }
        ensures fault { result.fault ≡ self.fault }
    {
        let mut done = self;
        done.accepted += 1;
        done
    }

    /// One accept more that failed: a fault, unless the server was ended.
    pub fn with_none(self, is_ended: bool) -> Done<H, N>
        requires room { self.accepted + self.failed < 2 ^ 64 - 1 }
        ensures clerk { result.clerk ≡ self.clerk }
        ensures accepted { result.accepted ≡ self.accepted }
        ensures failed { result.failed ≡ self.failed + 1 }
        ensures fault { result.fault ≡ (if is_ended then self.fault
            else option_or self.fault (Some (ServeFault.Net NetFault.Accept))) }
    {
        let mut done = self;
        done.failed += 1;
        if !is_ended {
            done.fault = done.fault.or(Some(ServeFault::Net(NetFault::Accept)));
        }
        done
    }
}
