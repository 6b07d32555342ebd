//! Servers as all tests serve: one call of `serve_on`, and one hub that is named.

ghost use Rattle.std.specs.Prelude.{◌≡◌, ◌+◌, ◌<◌, IsTrue, length, vec_len};
ghost use Rattle.archive_server.specs.Serving.{serving_in};

use crate::shelves::Counting;
use crate::visitors::{Plan, visit};
use archive_model::View;
use archive_server::{Duties, Entrance, Exchanging, Manner, Peer, serve_on};
use association_run::OpenGate;
use log::Log;
use octets::{ListOf, Octets};
use site_hub::{HubName, Keeper, Opened, Pass, Snapshot, open};
use site_state::Site;
use std::alloc::{AllocError, Global};
use std::marker::Brand;
use std::net::{Net, TcpListener, TcpStream};
use std::sync::{Mutex, Wait};
use std::test::Fail;
use std::thread::{Threads, join};
use std::time::Clock;
use ul_state::{Title, Titles};

/// The keeper of a hub, which its passes share.
type Shared<'a, H, R> = Mutex<Keeper<H, Snapshot<H>, &'a R>>;

/// Where associations come in, and exchanges.
#[derive(Clone, Copy)]
pub(crate) struct Doors<'a> {
    pub(crate) associations: &'a TcpListener,
    pub(crate) exchanges: &'a TcpListener,
}

/// What came of serving: how many operations the site has that exchanged, how many associations
/// were accepted, if no fault was told, and what the shelf was asked.
#[derive(Clone, Copy, Debug, PartialEq, Eq)]
pub(crate) struct Told {
    pub(crate) held: usize,
    pub(crate) accepted: Option<u64>,
    pub(crate) asked: u64,
}

/// ARCHIVE, which any may call.
fn titles_of(alloc: Global) -> Result<Titles<View>, AllocError> {
    let title = Title {
        title: Octets::from_slice(alloc, b"ARCHIVE")?,
        value: View::Archive,
        callers: ListOf::new(alloc),
    };
    Ok(Titles {
        list: ListOf::of(vec![in alloc; title]?),
    })
}

/// Where associations come in, how many workers take them, and how many each takes; where exchanges
/// come in; and whom the server calls.
#[derive(Clone, Copy)]
struct Service<'a> {
    entrance: Entrance<'a>,
    workers: usize,
    each: u64,
    exchange: Option<Exchanging<'a>>,
    peers: &'a [Peer<'a>],
}

/// Where every peer may come.
fn open_to_all<'a>(listener: &'a TcpListener) -> Entrance<'a> {
    Entrance {
        listener,
        allowed: &[],
    }
}

/// How many threads serve exchanges.
fn serving_of(exchange: Option<Exchanging<'_>>) -> usize
    ensures { result ≡ serving_in exchange.entry }
{
    match exchange {
        None => 0,
        Some(exchanging) => exchanging.workers as usize,
    }
}

/// Whether a server has a worker, and as many passes as it takes.
fn has_places(service: Service<'_>, passes: usize) -> bool
    ensures { IsTrue result → (0 < service.entry.workers)
        × (passes ≡ service.entry.workers + (serving_in service.entry.exchange
        + length service.entry.peers.now)) }
{
    let Some(count) = service.workers.checked_add(service.peers.len()) else {
        return false;
    };
    match count.checked_add(serving_of(service.exchange)) {
        Some(more) => service.workers > 0 && passes == more,
        None => false,
    }
}

/// Serves, and says how many associations were accepted, if no fault was told.
fn serve<
    H: HubName + Send + Sync,
    R: Net<Listener = TcpListener, Stream = TcpStream> + Threads + Wait + Clock + Log + Sync,
>(
    rt: &R,
    alloc: Global,
    service: Service<'_>,
    keeper: &Shared<'_, H, R>,
    passes: Vec<Pass<H>>,
    shelf: &mut Counting,
) -> Option<u64>
    requires some { 0 < service.workers }
    requires places { vec_len passes
        ≡ service.workers + (serving_in service.exchange + length service.peers.now) }
{
    let titles = titles_of(alloc).ok()?;
    let gates = vec![in alloc; OpenGate; service.workers].ok()?;
    let manner = Manner {
        ending: None,
        idle: None,
        recent: 0,
        held: None,
        is_verbose: false,
    };
    let duties = Duties {
        exchange: service.exchange,
        peers: service.peers,
        pages: None,
        desk: None,
    };
    let served = serve_on(
        rt,
        alloc,
        service.entrance,
        duties,
        &titles,
        gates,
        service.each,
        keeper,
        passes,
        shelf,
        manner,
    );
    match served.fault {
        None => Some(served.accepted),
        Some(_) => None,
    }
}

/// Serves while all come that visit.
fn run<
    H: HubName + Send + Sync,
    R: Net<Listener = TcpListener, Stream = TcpStream> + Threads + Wait + Clock + Log + Sync,
>(
    rt: &R,
    alloc: Global,
    opened: Opened<&R>,
    service: Service<'_>,
    shelf: &mut Counting,
    doors: Doors<'_>,
    plan: Plan,
) -> Result<(usize, Option<u64>), Fail>
    requires book { opened.book ≡ H.book }
    requires number { opened.number ≡ H.number }
    requires opening { opened.opening ≡ H.opening }
    requires passes { opened.passes ≡ H.passes }
{
    let Ok((keeper, passes)) = opened.named::<H>() else {
        return Err(Fail::from("no hub"));
    };
    let keeper = Mutex::new(keeper);
    if !has_places(service, passes.len()) {
        return Err(Fail::from("no pass for each place"));
    }
    let (held, accepted) = join(
        rt,
        || visit(rt, alloc, doors, plan),
        || -> Option<u64>
            requires { (0 < service.workers)
                × (vec_len passes
                ≡ service.workers + (serving_in service.exchange + length service.peers.now)) }
        { serve(rt, alloc, service, &keeper, passes, shelf) },
    );
    Ok((held?, accepted))
}

/// A new hub is served over 127.0.0.1 while all come that visit, with a shelf that takes so many
/// operations.
pub(crate) fn served<
    R: Net<Listener = TcpListener, Stream = TcpStream> + Threads + Wait + Clock + Log + Sync,
>(rt: &R, alloc: Global, plan: Plan, room: u64) -> Result<Told, Fail> {
    let associations = TcpListener::bind(rt, "127.0.0.1:0")?;
    let exchanges = TcpListener::bind(rt, "127.0.0.1:0")?;
    let doors = Doors {
        associations: &associations,
        exchanges: &exchanges,
    };
    let service = Service {
        entrance: open_to_all(&associations),
        workers: 2,
        each: plan.each,
        exchange: Some(Exchanging {
            entrance: open_to_all(&exchanges),
            rounds: plan.exchanges,
            workers: 1,
        }),
        peers: &[],
    };
    let mut shelf = Counting::new(alloc, room);
    let opened = open(alloc, rt, Site::new(alloc), 1, 3)?;
    let (held, accepted) = run::<Brand, R>(rt, alloc, opened, service, &mut shelf, doors, plan)?;
    Ok(Told {
        held,
        accepted,
        asked: shelf.asked,
    })
}
