//! A connection at the desk.

ghost use Rattle.std.specs.Prelude.{[], OnOk};
ghost use Rattle.std.specs.Io.KnownBytes.{Appends, Consumes};
ghost use Rattle.http_server.specs.History.{History, IsServed, IsDone};
ghost use Rattle.http_server.specs.Exchange.{Calls};
ghost use Rattle.site_desk.specs.Desks.{GoesOn, AnswersAt};
ghost use Rattle.site_desk.specs.Serving.{desk_config};

use crate::desk::SiteDesk;
use crate::limits::config;
use http_server::{Connection, serve};
use hub_exchange::{LedgerName, Put};
use site_hub::{HubName, Shows};
use std::alloc::Global;
use std::hash::RandomState;
use std::io;
use std::io::{Read, Write};
use std::sync::Wait;

/// Makes the corrections that are asked for on a connection, each of which the shelf has before it
/// is answered. What is sent is the answers to the requests that were received, in order, and then
/// at most a refusal of what is none.
pub fn serve_desk<
    H: HubName,
    T: Shows<H>,
    R: Wait + Drop,
    S: Wait,
    N: LedgerName,
    P: Put<N> + Copy,
    I: Read,
    O: Write,
>(
    alloc: Global,
    keys: RandomState,
    desk: &mut SiteDesk<'_, H, T, R, S, N, P>,
    reader: &mut I,
    writer: &mut O,
) -> io::Result<()>
    ensures goes_on { GoesOn desk.old desk.new }
    ensures served { (h : History) × ∥ IsServed desk_config h ∥₁
        × Consumes (I.remaining reader.old) (I.remaining reader.new) h.received
        × Appends (O.contents writer.old) (O.contents writer.new) h.sent
        × Calls (λ old request response new. AnswersAt H.opening old request response new)
        desk.old desk.new [] h.calls
        × OnOk result (IsDone h) }
{
    let mut connection = Connection::new(alloc, keys, config());
    serve(&mut connection, desk, reader, writer)
}
