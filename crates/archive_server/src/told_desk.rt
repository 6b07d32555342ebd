//! A connection at the desk, for a clerk.

ghost use Rattle.std.specs.Prelude.{OnOk};
ghost use Rattle.std.specs.Io.KnownBytes.{Appends, Consumes};
ghost use Rattle.http_server.specs.History.{History, IsServed, IsDone};
ghost use Rattle.site_desk.specs.Serving.{desk_config};
ghost use Rattle.archive_server.specs.Correcting.{at_desk, AreAnswered};

use crate::attending::Archive;
use crate::clerk::Clerk;
use crate::correcting::Correcting;
use hub_exchange::{LedgerName, Put};
use site_desk::{SiteDesk, Stamps, serve_desk};
use site_hub::{HubName, Shows};
use std::io;
use std::io::{Read, Write};
use std::sync::Wait;

/// Makes the corrections that are asked for on a connection, over any reader and writer, with the
/// pass of a clerk and a way to the shelf. The clerk knows of the ledger what its pass stored, and
/// the stamps go on.
pub(crate) fn tell_desk<
    H: HubName,
    T: Shows<H>,
    R: Wait + Drop,
    S: Wait,
    N: LedgerName,
    P: Put<N> + Copy,
    I: Read,
    O: Write,
>(
    archive: &Archive<'_, H, T, R, S>,
    shelf: P,
    correcting: Correcting<'_>,
    stamps: Stamps,
    reader: &mut I,
    writer: &mut O,
    clerk: Clerk<H, N>,
) -> (Clerk<H, N>, Stamps, io::Result<()>)
    ensures served { (h : History) × ∥ IsServed desk_config h ∥₁
        × AreAnswered H.opening (at_desk correcting.entry.names.now clerk stamps)
        (at_desk correcting.entry.names.now result.0 result.1) h
        × Consumes (I.remaining reader.old) (I.remaining reader.new) h.received
        × Appends (O.contents writer.old) (O.contents writer.new) h.sent
        × OnOk result.2 (IsDone h) }
{
    let (rt, alloc, keeper) = (archive.rt, archive.alloc, archive.keeper);
    let (pass, extract) = clerk.into_parts();
    let names = correcting.names;
    let mut desk = SiteDesk::new(rt, alloc, keeper, shelf, pass, extract, names, stamps);
    let served = serve_desk(alloc, correcting.keys, &mut desk, reader, writer);
    let (pass, extract, last) = desk.into_parts();
    let site = stamps.site;
    (Clerk::new(pass, extract), Stamps { site, last }, served)
}
