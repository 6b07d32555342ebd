//! `archive serve`: serves the operations in a file or a folder to DICOM clients (PS3.8, section
//! 9.1).

ghost use Rattle.std.specs.Prelude.{◌≡◌, ◌<◌, ◌*◌, All, IfOk, IsSome, map, unwrap_or};
ghost use Rattle.command_words.specs.Words.{HasPlaces};
ghost use Rattle.shelved_site.specs.Told.{IsOpenedOn};
ghost use Rattle.archive_app.specs.Serves.{IsSeconds, IsWait};

use crate::duties::{duties_of, workers_of};
use crate::ending::ended_with_input;
use crate::file::{adopted, refused, see_kind};
use crate::folder::{is_folder, log_in, records_in};
use crate::gauges::gauges_of;
use crate::held::{Counted, counted_in, held_open, keep_held, refused_for_missing};
use crate::hub::{Count, closed_behind, hub_of, hub_of_log};
use crate::listening::{Listening, listen_first, listen_to, say_where};
use crate::output::{CommandFault, Note};
use crate::refused::{Refused, about, note};
use anyhow::Result as Printed;
use archive_server::{Entrance, Manner, Peer, serve_on};
use association_run::OpenGate;
use command_words::Serving;
use log::Log;
use record_log::Told;
use records::RecordedContent;
use shelved_site::{Begun, KeptLog, Store, Unreadable};
use site_hub::{HubFault, HubName, Opened};
use sqlite::{Alter, Connection, Wary};
use std::alloc::{AllocError, Global};
use std::io::Print;
use std::marker::Brand;
use std::net::{Net, TcpListener, TcpStream};
use std::rt::HostRuntime;
use std::sync::atomic::AtomicBool;
use std::sync::{Arc, Mutex, Wait};
use std::thread::Threads;
use std::time::{Clock, Duration};

/// The peers, each called after so many seconds.
fn peers_of<'a>(alloc: Global, serving: &'a Serving<'_>) -> Result<Vec<Peer<'a>>, AllocError>
    ensures addresses { IfOk result (λ peers. map (λ peer. peer.address.now) peers.items
        ≡ map (λ address. address.now) serving.now.peers.items) }
    ensures pauses { IfOk result (λ peers.
        All (λ peer. IsSeconds serving.now.every peer.every) peers.items) }
{
    let every = Duration::from_secs(serving.every as u64);
    let mut peers = Vec::new(alloc);
    for address in serving.peers.iter() {
        peers.push(Peer {
            address: *address,
            every,
        })?;
    }
    Ok(peers)
}

/// How many associations a worker accepts: with no number more than it can.
fn each_of(serving: &Serving<'_>) -> u64
    ensures { result ≡ unwrap_or serving.now.each 18_446_744_073_709_551_615 }
{
    match serving.each {
        Some(each) => each as u64,
        None => u64::MAX,
    }
}

/// How long a wait for a peer lasts at most; with 0 it has no end.
pub fn wait_of(seconds: u32) -> Option<Duration>
    ensures ends { 0 < seconds → IsSome result }
    ensures lasts { IsWait seconds result }
{
    match seconds {
        0 => None,
        _ => Some(Duration::from_secs(seconds as u64)),
    }
}

/// How many bytes so many mebibytes are.
fn bytes_of(mebibytes: u32) -> usize
    ensures { result ≡ mebibytes * 1_048_576 }
{
    mebibytes as usize * 1_048_576
}

/// What is known of a store when it is served: the contents that are told, what can't be read, and
/// what is counted.
#[derive(Clone, Copy)]
struct Known<'a> {
    told: &'a [RecordedContent],
    unreadable: &'a [Unreadable],
    counted: Counted,
}

/// Serves in threads until each worker has accepted what it may and each exchange was served, and
/// closes the hub.
fn serve_hub<
    H: HubName + Send + Sync,
    R: Net<Listener = TcpListener, Stream = TcpStream> + Threads + Wait + Clock + Log + Sync,
    S: Store + Send,
>(
    host: &HostRuntime,
    rt: &R,
    store: &mut S,
    _known: Known<'_>,
    opened: Opened<&R>,
    listening: &Listening,
    serving: &Serving<'_>,
    manner: Manner<'_>,
) -> Result<Count, CommandFault>
    requires book { opened.book ≡ H.book }
    requires number { opened.number ≡ H.number }
    requires opening { opened.opening ≡ H.opening }
    requires passes { opened.passes ≡ H.passes }
    requires site { S.is_clean store.old
        → IsOpenedOn (S.shows store.old) _known.unreadable.now _known.told.now H.opening }
{
    let alloc = host.alloc();
    let titles = serving.titles(alloc)?;
    let entrance = Entrance {
        listener: &listening.associations,
        allowed: serving.allowed.as_slice(),
    };
    let each = each_of(serving);
    let peers = peers_of(alloc, serving)?;
    let gauges = gauges_of(host, serving.file);
    let duties = duties_of(listening, serving, peers.as_slice(), &gauges);
    let (keeper, passes) = match opened.named::<H>() {
        Ok(hub) => hub,
        Err(fault) => return Err(CommandFault::Hub(fault)),
    };
    // A keeper is dropped by the lock that holds it.
    let keeper = Mutex::new(keeper);
    let workers = workers_of(passes.len(), &duties);
    if workers == 0 {
        return Err(CommandFault::Hub(HubFault::Torn));
    }
    let gates = Vec::from_elem(alloc, OpenGate, workers)?;
    let served = serve_on(
        rt, alloc, entrance, duties, &titles, gates, each, &keeper, passes, store, manner,
    );
    Ok(closed_behind(served, keeper.into_inner()))
}

/// Where a server listens: here, where nobody does yet. Where it listens already the file was not
/// there, which is said: what was served before may stand elsewhere, as on a disk that is not
/// mounted.
fn listening_of<'a, R: Net<Listener = TcpListener, Stream = TcpStream>>(
    host: &HostRuntime,
    rt: &R,
    serving: &Serving<'a>,
    listening: Option<Listening>,
) -> Result<Listening, Refused<'a>> {
    match listening {
        Some(listening) => {
            note(host, serving.file, Note::Made);
            Ok(listening)
        }
        None => listen_to(host, rt, serving),
    }
}

/// What ends a server before its time, where something does.
fn ending_of<T: Threads>(
    host: &HostRuntime,
    rt: &T,
    listening: &Listening,
    serving: &Serving<'_>,
) -> Result<Option<Arc<AtomicBool, Global>>, CommandFault> {
    if !serving.ends_with_input {
        return Ok(None);
    }
    let ended = ended_with_input(host, rt, &listening.associations, &listening.exchanges)?;
    Ok(Some(ended))
}

/// Serves a site that is open, in a manner that lasts as long.
fn serve_site<
    R: Net<Listener = TcpListener, Stream = TcpStream> + Threads + Wait + Clock + Log + Sync,
    S: Store + Send,
>(
    host: &HostRuntime,
    rt: &R,
    store: &mut S,
    known: Known<'_>,
    site: (Opened<&R>, Listening),
    serving: &Serving<'_>,
) -> Result<Count, CommandFault>
    requires site { S.is_clean store.old
        → IsOpenedOn (S.shows store.old) known.unreadable.now known.told.now site.0.opening }
{
    let (opened, listening) = site;
    let ended = ending_of(host, rt, &listening, serving)?;
    let unread = known.unreadable.len();
    let held = held_open(host, serving.file, known.counted, unread);
    let manner = Manner {
        ending: ended.as_deref(),
        idle: wait_of(serving.idle),
        recent: bytes_of(serving.cache),
        held: held.as_ref(),
        is_verbose: serving.is_verbose,
    };
    serve_hub::<Brand, R, S>(host, rt, store, known, opened, &listening, serving, manner)
}

/// What is told of where serving did not begin: the address, where its listener was refused, and
/// else the file.
fn begun_at<'a>(serving: &Serving<'a>, served: &Result<Count, CommandFault>) -> &'a str {
    match served {
        Err(CommandFault::Net(_)) => serving.listen,
        _ => serving.file,
    }
}

/// Serves the site in a store, whose hub was opened, once it listens and says so.
fn serve_store<
    'a,
    R: Net<Listener = TcpListener, Stream = TcpStream>
        + Threads
        + Wait
        + Clock
        + Print
        + Log
        + Sync,
    S: Store + Send,
>(
    host: &HostRuntime,
    rt: &R,
    serving: &Serving<'a>,
    store: &mut S,
    told: &[RecordedContent],
    counted: Counted,
    begun: Result<Begun<&R>, Refused<'a>>,
    listening: Option<Listening>,
) -> Printed<Result<Count, Refused<'a>>>
    requires places { HasPlaces serving.now }
    requires site { S.is_clean store.old → IfOk begun (λ begun. IsOpenedOn
        (S.shows store.old) begun.unreadable.items told.now begun.opened.opening) }
{
    let Begun { opened, unreadable } = match begun {
        Ok(begun) => begun,
        Err(refused) => return Ok(Err(refused)),
    };
    let known = Known {
        told,
        unreadable: unreadable.as_slice(),
        counted,
    };
    let listening = match listening_of(host, rt, serving, listening) {
        Ok(listening) => listening,
        Err(fault) => return Ok(Err(fault)),
    };
    say_where(rt, &listening, serving)?;
    let served = serve_site(host, rt, store, known, (opened, listening), serving);
    Ok(about(begun_at(serving, &served), served))
}

/// What is counted of a store. One from which operations are missing is refused, unless it is to be
/// served without them: then this is said.
fn guarded<'a, S: Store>(
    host: &HostRuntime,
    serving: &Serving<'a>,
    store: &mut S,
) -> Result<Counted, Refused<'a>> {
    let counted = counted_in(host, serving.file, store);
    if counted.missing != 0 {
        let refused = refused_for_missing(serving.file, counted.missing);
        if !serving.shows_without {
            return Err(refused);
        }
        refused.tell(host);
    }
    Ok(counted)
}

/// What was served of the operations on the shelf over a connection.
fn serve_database<
    'a,
    R: Net<Listener = TcpListener, Stream = TcpStream>
        + Threads
        + Wait
        + Clock
        + Print
        + Log
        + Sync,
    S: Alter + Drop + Send,
>(
    host: &HostRuntime,
    rt: &R,
    serving: &Serving<'a>,
    database: Connection<S>,
    listening: Option<Listening>,
) -> Printed<Result<Count, Refused<'a>>>
    requires places { HasPlaces serving.now }
{
    match adopted(host, serving.file, database) {
        Ok(mut shelf) => {
            let counted = match guarded(host, serving, &mut shelf) {
                Ok(counted) => counted,
                Err(refused) => return Ok(Err(refused)),
            };
            let begun = hub_of(host, rt, serving, &mut shelf);
            let served = serve_store(
                host,
                rt,
                serving,
                &mut shelf,
                &[],
                counted,
                begun,
                listening,
            );
            if let Ok(Ok(_served)) = &served {
                keep_held(host, serving.file, &mut shelf);
            }
            served
        }
        Err(fault) => Ok(Err(fault)),
    }
}

/// What was served of those in a file.
fn serve_shelf<
    'a,
    R: Net<Listener = TcpListener, Stream = TcpStream>
        + Threads
        + Wait
        + Clock
        + Print
        + Log
        + Sync,
>(
    host: &HostRuntime,
    rt: &R,
    serving: &Serving<'a>,
    listening: Option<Listening>,
) -> Printed<Result<Count, Refused<'a>>>
    requires places { HasPlaces serving.now }
{
    if let Err(fault) = see_kind(host, serving.file) {
        return Ok(Err(fault));
    }
    match Connection::open_from(host, serving.file, false, Wary) {
        Ok(database) => serve_database(host, rt, serving, database, listening),
        Err((error, _left)) => Ok(Err(refused(host, serving.file, error))),
    }
}

/// What was served of those in a folder.
fn serve_log<
    'a,
    R: Net<Listener = TcpListener, Stream = TcpStream>
        + Threads
        + Wait
        + Clock
        + Print
        + Log
        + Sync,
>(
    host: &HostRuntime,
    rt: &R,
    serving: &Serving<'a>,
    listening: Option<Listening>,
) -> Printed<Result<Count, Refused<'a>>>
    requires places { HasPlaces serving.now }
{
    match log_in(host, serving.file) {
        Ok(log) => {
            let Told {
                contents,
                records,
                fault: _,
            } = records_in(host, serving.file);
            let told = contents.as_slice();
            let mut kept = KeptLog::beside(host.alloc(), log, records);
            let counted = match guarded(host, serving, &mut kept) {
                Ok(counted) => counted,
                Err(refused) => return Ok(Err(refused)),
            };
            let begun = hub_of_log(host, rt, serving, &mut kept, told);
            let served = serve_store(
                host, rt, serving, &mut kept, told, counted, begun, listening,
            );
            if let Ok(Ok(_served)) = &served {
                keep_held(host, serving.file, &mut kept);
            }
            served
        }
        Err(fault) => Ok(Err(fault)),
    }
}

/// What was served of the operations in a file or a folder. It is no work on any store, since the
/// method of a trait can hand none to a thread.
fn serve_file<
    'a,
    R: Net<Listener = TcpListener, Stream = TcpStream>
        + Threads
        + Wait
        + Clock
        + Print
        + Log
        + Sync,
>(host: &HostRuntime, rt: &R, serving: &Serving<'a>) -> Printed<Result<Count, Refused<'a>>>
    requires places { HasPlaces serving.now }
{
    let listening = match listen_first(host, rt, serving) {
        Ok(listening) => listening,
        Err(fault) => return Ok(Err(fault)),
    };
    if is_folder(host, serving.file) {
        return serve_log(host, rt, serving, listening);
    }
    serve_shelf(host, rt, serving, listening)
}

/// How serving ended, and what its first fault is told of. An accept that failed is told of the
/// address of associations, also where it was one of exchanges, of pages or of the desk; a thread
/// of a peer, of pages or of the desk that was refused is told of the address of exchanges.
fn ended_of<'a>(serving: &Serving<'a>, ended: Result<(), CommandFault>) -> Result<(), Refused<'a>> {
    let what = match ended {
        Err(CommandFault::Run(_) | CommandFault::Net(_)) => serving.listen,
        Err(CommandFault::Exchange(_)) => serving.exchange,
        _ => serving.file,
    };
    about(what, ended)
}

/// Serves the operations in a file or a folder, until each worker has accepted what it may and each
/// exchange was served, or until standard input ends where that is asked for. Meanwhile it calls
/// its peers.
///
/// It prints where it listens once it does, and at the end how many associations were accepted.
/// Refusals come in this order: the store, the site, the hub, the listeners; behind them the first
/// fault of an association or an accept, and that of an exchange. Where the file is not there the
/// listeners come first. The thread that waits for the end of standard input comes behind what is
/// printed.
pub fn serve<
    'a,
    R: Net<Listener = TcpListener, Stream = TcpStream>
        + Threads
        + Wait
        + Clock
        + Print
        + Log
        + Sync,
>(host: &HostRuntime, rt: &R, serving: &Serving<'a>) -> Printed<Result<(), Refused<'a>>>
    requires places { HasPlaces serving.now }
{
    match serve_file(host, rt, serving)? {
        Ok(Count { accepted, ended }) => {
            println!(rt; "served {accepted}")?;
            Ok(ended_of(serving, ended))
        }
        Err(fault) => Ok(Err(fault)),
    }
}
