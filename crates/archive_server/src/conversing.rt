//! One exchange over any reader and writer, with a pass of a running site.

ghost use Rattle.std.specs.Prelude.{◌≡◌, Some};
ghost use Rattle.exchange.specs.Run.{ends};
ghost use Rattle.hub_exchange.specs.Fault.{RefusesLoadAtHub};
ghost use Rattle.hub_exchange.specs.Putting.{IsLent};
ghost use Rattle.archive_server.specs.Done.{Converses};
ghost use Rattle.archive_server.specs.Serving.{HasGoneOn};

use crate::attending::Archive;
use crate::clerk::Clerk;
use association_worker::AtEntry;
use devices::{Sink, Source};
use exchange::{Ended, ExchangeFault, Role, run_exchange};
use hub_exchange::{AtLending, HubHolder, LedgerName, Put};
use site_hub::{HubName, Shows};
use std::marker::Brand;
use std::sync::Wait;

/// What came of an exchange: the clerk, who has gone on, and how it ended.
#[derive(Drop)]
pub struct Conversed<H: HubName, N: LedgerName> {
    pub clerk: Clerk<H, N>,
    pub ended: Result<Ended, ExchangeFault>,
}

/// One exchange, for a clerk whose pass the caller named.
fn converse<
    E: AtEntry + AtLending<P>,
    H: HubName,
    T: Shows<H>,
    R: Wait + Drop,
    S: Wait,
    N: LedgerName,
    P: Put<N> + Copy,
    I: Source,
    O: Sink,
>(
    archive: &Archive<'_, H, T, R, S>,
    shelf: &P,
    role: Role,
    reader: &mut I,
    writer: &mut O,
    clerk: Clerk<H, N>,
) -> Conversed<H, N>
    requires entry { clerk.pass ≡ E.seat }
    requires lent { IsLent E.lent shelf.now }
    ensures onward { HasGoneOn clerk result.clerk }
    ensures converses { Converses H.opening
        (RefusesLoadAtHub (IsLent E.lent) P.refuses_load P.has_loaded H.opening) role
        (ends clerk.pass (I.remaining reader.old) (O.contents writer.old) (I.failures reader.old)
        (O.failures writer.old))
        (ends result.clerk.pass (I.remaining reader.new) (O.contents writer.new)
        (I.failures reader.new) (O.failures writer.new)) result.ended }
{
    let (rt, keeper) = (archive.rt, archive.keeper);
    let (pass, mut extract) = clerk.into_parts();
    let known = extract.again();
    let mut holder = HubHolder::<H, T, R, S, N, P, E>::new(rt, keeper, shelf, pass, known);
    let ended = run_exchange(archive.alloc, role, reader, writer, &mut holder);
    let (pass, learned) = holder.into_parts();
    extract.learn(&learned);
    Conversed {
        clerk: Clerk::new(pass, extract),
        ended,
    }
}

/// Takes part in one exchange over any reader and writer, with a pass of a running site and a way
/// to its shelf.
///
/// What it does is said by `run_exchange`, of the set that the pass has seen; the pass goes on, and
/// what it takes stands in the shelf's ledger.
pub fn serve_exchange<
    H: HubName,
    T: Shows<H>,
    R: Wait + Drop,
    S: Wait,
    N: LedgerName,
    P: Put<N> + Copy,
    I: Source,
    O: Sink,
>(
    archive: &Archive<'_, H, T, R, S>,
    shelf: &P,
    role: Role,
    reader: &mut I,
    writer: &mut O,
    clerk: Clerk<H, N>,
) -> Conversed<H, N>
    ensures onward { HasGoneOn clerk result.clerk }
    ensures converses { Converses H.opening
        (RefusesLoadAtHub (IsLent (Some shelf.now)) P.refuses_load P.has_loaded H.opening) role
        (ends clerk.pass (I.remaining reader.old) (O.contents writer.old) (I.failures reader.old)
        (O.failures writer.old))
        (ends result.clerk.pass (I.remaining reader.new) (O.contents writer.new)
        (I.failures reader.new) (O.failures writer.new)) result.ended }
{
    converse::<Brand, H, T, R, S, N, P, I, O>(archive, shelf, role, reader, writer, clerk)
}
