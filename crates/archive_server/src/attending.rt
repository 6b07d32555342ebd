//! One association over any reader and writer, with a pass of a running site.

ghost use Rattle.std.specs.Prelude.{◌≡◌, IsErrOf};
ghost use Rattle.association_run.specs.Fault.{CountedWhere, tells_read, tells_write};
ghost use Rattle.association_run.specs.Output.{ReadAtLeast};
ghost use Rattle.association_run.specs.Parts.{sides};
ghost use Rattle.hub_exchange.specs.Putting.{IsLent};
ghost use Rattle.archive_server.specs.Done.{Attends};
ghost use Rattle.archive_server.specs.Serving.{HasGoneOn};

use crate::ahead::Brings;
use crate::clerk::Clerk;
use crate::port::ServerPort;
use archive_model::View;
use association_run::{End, Gate, Outbox, RunFault, run_association};
use association_worker::AtEntry;
use devices::{Sink, Source};
use hub_exchange::{AtLending, LedgerName, Put};
use log::Log;
use site_hub::{HubName, Keeper, Shows};
use site_pages::Tally;
use std::alloc::Global;
use std::marker::Brand;
use std::sync::{Mutex, Wait};
use std::time::Clock;
use ul_state::Titles;

/// What the associations and the exchanges of a running site share: the keeper of all passes, and
/// the titles by which the site is called.
#[derive(Drop)]
pub struct Archive<'a, H: HubName, T: Shows<H>, R: Wait + Drop, S: Wait> {
    pub rt: &'a S,
    pub alloc: Global,
    pub keeper: &'a Mutex<Keeper<H, T, R>>,
    pub titles: &'a Titles<View>,
}

/// What came of an association: the clerk, who has gone on, how it ended, and what it asked for.
#[derive(Drop)]
pub struct Attended<H: HubName, N: LedgerName> {
    pub clerk: Clerk<H, N>,
    pub ended: Result<End, RunFault>,
    pub tally: Tally,
}

/// One association, for a clerk whose pass the caller named.
fn attend<
    E: AtEntry + AtLending<P>,
    H: HubName,
    T: Shows<H>,
    R: Wait + Drop,
    S: Wait + Clock + Log,
    N: LedgerName,
    P: Put<N> + Brings + Copy,
    I: Source,
    O: Sink,
    G: Gate,
>(
    archive: &Archive<'_, H, T, R, S>,
    shelf: &P,
    outbox: &mut Outbox,
    reader: &mut I,
    writer: &mut O,
    gate: &mut G,
    clerk: Clerk<H, N>,
) -> Attended<H, N>
    requires entry { clerk.pass ≡ E.seat }
    requires lent { IsLent E.lent shelf.now }
    ensures onward { HasGoneOn clerk result.clerk }
    ensures attends { Attends H.opening archive.now.titles.now.list (I.remaining reader.old)
        (I.remaining reader.new) (sides clerk.pass (O.contents writer.old) (G.reached gate.old))
        (sides result.clerk.pass (O.contents writer.new) (G.reached gate.new)) result.ended }
    ensures read { CountedWhere (tells_read result.ended) (I.failures reader.old)
        (I.failures reader.new) }
    ensures write { CountedWhere (tells_write result.ended) (O.failures writer.old)
        (O.failures writer.new) }
    ensures turns { IsErrOf result.ended RunFault.Turns → ReadAtLeast 4294967296
        (I.remaining reader.old) (I.remaining reader.new) }
{
    let (rt, keeper, alloc) = (archive.rt, archive.keeper, archive.alloc);
    let (pass, mut extract) = clerk.into_parts();
    let known = extract.again();
    let mut port = ServerPort::<H, T, R, S, N, P, E>::new(rt, keeper, shelf, pass, known, alloc);
    let ended = run_association(
        alloc,
        reader,
        outbox,
        writer,
        &mut port,
        gate,
        archive.titles,
    );
    let tally = port.tally();
    let (pass, learned) = port.into_parts();
    extract.learn(&learned);
    Attended {
        clerk: Clerk::new(pass, extract),
        ended,
        tally,
    }
}

/// Serves one association over any reader, writer and gate, with a pass of a running site and a way
/// to its shelf. What is to be written is held in `outbox`, which may serve one after another.
///
/// What it does is said by `run_association`, of the set that the pass has seen; the pass goes on,
/// and what it stores stands in the shelf's ledger.
pub fn serve_association<
    H: HubName,
    T: Shows<H>,
    R: Wait + Drop,
    S: Wait + Clock + Log,
    N: LedgerName,
    P: Put<N> + Brings + Copy,
    I: Source,
    O: Sink,
    G: Gate,
>(
    archive: &Archive<'_, H, T, R, S>,
    shelf: &P,
    outbox: &mut Outbox,
    reader: &mut I,
    writer: &mut O,
    gate: &mut G,
    clerk: Clerk<H, N>,
) -> Attended<H, N>
    ensures onward { HasGoneOn clerk result.clerk }

    // All that it does for what it reads and is replied, or a front of it.
    ensures attends { Attends H.opening archive.now.titles.now.list (I.remaining reader.old)
        (I.remaining reader.new) (sides clerk.pass (O.contents writer.old) (G.reached gate.old))
        (sides result.clerk.pass (O.contents writer.new) (G.reached gate.new)) result.ended }

    // A fault of a device is told exactly where one was counted.
    ensures read { CountedWhere (tells_read result.ended) (I.failures reader.old)
        (I.failures reader.new) }
    ensures write { CountedWhere (tells_write result.ended) (O.failures writer.old)
        (O.failures writer.new) }
    ensures turns { IsErrOf result.ended RunFault.Turns → ReadAtLeast 4294967296
        (I.remaining reader.old) (I.remaining reader.new) }
{
    attend::<Brand, H, T, R, S, N, P, I, O, G>(archive, shelf, outbox, reader, writer, gate, clerk)
}
