//! The server: a thread for each worker, for each worker of exchanges and for each peer, one for
//! pages, one for the desk, some that hash, and the shelf in the thread that called.

ghost use Rattle.std.specs.Prelude.{◌≡◌, ◌+◌, ◌*◌, ◌<◌, ◌≤◌, ◌⊎◌, [], min, is_some, IsSome};
ghost use Rattle.std.specs.Prelude.{vec_len, vec_capacity};
ghost use Rattle.archive_server.specs.Serving.{AllOnward, AreKept, HaveServed, IsKept, WasWritten};
ghost use Rattle.archive_server.specs.Serving.{others_in, room_of_all};

use crate::attending::Archive;
use crate::board::Board;
use crate::clerk::Clerk;
use crate::duties::Duties;
use crate::entrance::Entrance;
use crate::fault::ServeFault;
use crate::hashing::Hashers;
use crate::health::Health;
use crate::job::{Job, jobs_of};
use crate::keeping::{Inbox, keep_all};
use crate::manner::Manner;
use crate::message::Reach;
use crate::starting::{Begun, Channels, finish, start};
use crate::total::{Total, with_done};
use crate::worker::Hall;
use archive_model::View;
use association_run::{Gate, RunFault};
use crossbeam_channel::bounded;
use hub_exchange::{Blank, Ledger, LedgerName};
use log::Log;
use op_shelf::Keep;
use recent_ops::Recent;
use site_hub::{HubName, Keeper, Pass, Snapshot as Shown};
use std::alloc::{AllocError, Global};
use std::marker::Brand;
use std::net::{Net, TcpListener, TcpStream};
use std::snapshot::Snapshot;
use std::sync::atomic::AtomicU64;
use std::sync::{Mutex, Wait};
use std::thread;
use std::thread::{Scope, Threads};
use std::time::Clock;
use ul_state::Titles;

/// How many requests wait for the shelf.
const WAITING: usize = 64;

/// Keeps the shelf until nobody can ask any more.
fn keep<S: Wait, K: Keep, N: LedgerName>(
    rt: &S,
    alloc: Global,
    channels: Channels<N>,
    shelf: &mut K,
    ledger: &mut Ledger<N>,
)
    requires kept { AreKept K.is_up K.holds K.lasts ledger.old shelf.old }
    ensures kept { AreKept K.is_up K.holds K.lasts ledger.new shelf.new }
{
    let Channels {
        reach,
        ended: _,
        requests,
    } = channels;
    drop(reach);
    let mut inbox = Inbox { rt, requests };
    keep_all(rt, alloc, shelf, ledger, &mut inbox);
}

/// Starts a thread for each job, each with a pass of its own, the last one first, keeps the shelf
/// until nobody can ask any more, and joins them.
fn serve_rest<
    's,
    E,
    H: HubName + Send + Sync + 's,
    R: Wait + Drop + Send + 's,
    S: Net<Listener = TcpListener, Stream = TcpStream> + Threads + Wait + Clock + Log + Sync + 's,
    K: Keep,
    N: LedgerName + Send + 's,
    G: Gate + Send + Drop + 's,
>(
    scope: &Scope<'s, E>,
    hall: &'s Hall<'s, H, Shown<H>, R, S>,
    jobs: &mut Vec<Job<'s, G>>,
    channels: Channels<N>,
    shelf: &mut K,
    ledger: &mut Ledger<N>,
    passes: &mut Vec<Pass<H>>,
) -> Total
    requires places { vec_len passes.old ≡ vec_len jobs.old }
    requires kept { AreKept K.is_up K.holds K.lasts ledger.old shelf.old }
    ensures kept { AreKept K.is_up K.holds K.lasts ledger.new shelf.new }
    ensures served { HaveServed (WasWritten ledger.new) (record {
      before = passes.old.items;
      room = room_of_all hall.now.each jobs.old.items;
      ends = is_some hall.now.manner.ending;
    }) (record {
      passes = passes.new.items;
      accepted = result.accepted;
      fault = result.fault;
    }) }
    ensures len { vec_len passes.new ≡ vec_len passes.old }
    ensures room { vec_capacity passes.new ≡ vec_capacity passes.old }
{
    let Some(job) = jobs.pop() else {
        keep(hall.archive.rt, hall.archive.alloc, channels, shelf, ledger);
        return Total {
            accepted: 0,
            fault: None,
        };
    };
    let Some(pass) = passes.pop() else {
        unreachable!()
    };
    let begun = Begun::of(hall, &job, &pass);
    let task = Snapshot::of(&begun);
    let clerk = Clerk::new(pass, ledger.extract());
    let started = start(scope, hall, job, &channels, begun, clerk);
    let before = serve_rest(scope, hall, jobs, channels, shelf, ledger, passes);
    let done = finish(hall.archive.rt, task, started);
    with_done(before, done, ledger, passes)
}

/// What came of serving.
#[derive(Drop)]
pub struct Served<H: HubName> {
    /// How many associations were accepted, with the peers that were turned away.
    pub accepted: u64,
    /// The passes, each in its place.
    pub passes: Vec<Pass<H>>,
    /// The first fault, by worker and then by its own order; behind them that of an exchange that
    /// was served, and behind it that of a thread for a peer which was refused, and those of the
    /// threads of pages and of the desk. A peer that is not reached is no fault.
    pub fault: Option<ServeFault>,
}

/// What came of serving, and the shelf that was lent.
#[derive(Drop)]
struct Back<'k, H: HubName, K> {
    served: Served<H>,
    shelf: &'k mut K,
}

/// The threads of one scope.
fn serve_all<
    's,
    'k,
    E,
    H: HubName + Send + Sync + 's,
    R: Wait + Drop + Send + 's,
    S: Net<Listener = TcpListener, Stream = TcpStream> + Threads + Wait + Clock + Log + Sync + 's,
    K: Keep,
    N: LedgerName + Send + 's,
    G: Gate + Send + Drop + 's,
>(
    scope: &Scope<'s, E>,
    hall: &'s Hall<'s, H, Shown<H>, R, S>,
    mut jobs: Vec<Job<'s, G>>,
    channels: Channels<N>,
    shelf: &'k mut K,
    mut ledger: Ledger<N>,
    mut passes: Vec<Pass<H>>,
) -> Back<'k, H, K>
    requires places { vec_len passes ≡ vec_len jobs }
    requires empty { ledger ≡ [] }
    ensures same { result.shelf.ghost_name ≡ shelf.entry.ghost_name }
    ensures served { HaveServed (IsKept K.is_up K.holds K.lasts result.shelf.now) (record {
      before = passes.items;
      room = room_of_all hall.now.each jobs.entry.items;
      ends = is_some hall.now.manner.ending;
    }) (record {
      passes = result.served.passes.items;
      accepted = result.served.accepted;
      fault = result.served.fault;
    }) }
{
    hall.hashers.start(hall.archive.rt, scope, &hall.recent);
    let total = serve_rest(
        scope,
        hall,
        &mut jobs,
        channels,
        shelf,
        &mut ledger,
        &mut passes,
    );
    hall.hashers.end(hall.archive.rt);
    Back {
        served: Served {
            accepted: total.accepted,
            passes,
            fault: total.fault,
        },
        shelf,
    }
}

/// Serves in a scope of threads.
fn serve_scoped<
    'x,
    'k,
    H: HubName + Send + Sync,
    R: Wait + Drop + Send,
    S: Net<Listener = TcpListener, Stream = TcpStream> + Threads + Wait + Clock + Log + Sync,
    K: Keep,
    N: LedgerName + Send,
    G: Gate + Send + Drop,
>(
    hall: &Hall<'x, H, Shown<H>, R, S>,
    jobs: Vec<Job<'x, G>>,
    channels: Channels<N>,
    shelf: &'k mut K,
    ledger: Ledger<N>,
    passes: Vec<Pass<H>>,
) -> Back<'k, H, K>
    requires places { vec_len passes ≡ vec_len jobs }
    requires empty { ledger ≡ [] }
    ensures same { result.shelf.ghost_name ≡ shelf.entry.ghost_name }
    ensures served { HaveServed (IsKept K.is_up K.holds K.lasts result.shelf.now) (record {
      before = passes.items;
      room = room_of_all hall.now.each jobs.entry.items;
      ends = is_some hall.now.manner.ending;
    }) (record {
      passes = result.served.passes.items;
      accepted = result.served.accepted;
      fault = result.served.fault;
    }) }
{
    thread::scope(
        thread::scope_env(),
        hall.archive.rt,
        move |scope| -> Back<'_, H, K>
            requires { (vec_len passes ≡ vec_len jobs) × (ledger ≡ []) }
            ensures same { result.shelf.ghost_name ≡ shelf.entry.ghost_name }
            ensures served { HaveServed (IsKept K.is_up K.holds K.lasts result.shelf.now) (record {
              before = passes.items;
              room = room_of_all hall.entry.now.each jobs.entry.items;
              ends = is_some hall.entry.now.manner.ending;
            }) (record {
              passes = result.served.passes.items;
              accepted = result.served.accepted;
              fault = result.served.fault;
            }) }
        { serve_all(scope, hall, jobs, channels, shelf, ledger, passes) },
    )
}

/// The shelf that was lent.
#[derive(Drop)]
struct Lent<'k, K> {
    shelf: &'k mut K,
}

/// The same. What came of it is put out, so that what is given back owns nothing.
fn serve_into<
    'x,
    'k,
    H: HubName + Send + Sync,
    R: Wait + Drop + Send,
    S: Net<Listener = TcpListener, Stream = TcpStream> + Threads + Wait + Clock + Log + Sync,
    K: Keep + Send,
    N: LedgerName + Send,
    G: Gate + Send + Drop,
>(
    hall: &Hall<'x, H, Shown<H>, R, S>,
    jobs: Vec<Job<'x, G>>,
    channels: Channels<N>,
    shelf: &'k mut K,
    ledger: Ledger<N>,
    passes: Vec<Pass<H>>,
    out: &mut Served<H>,
) -> Lent<'k, K>
    requires places { vec_len passes ≡ vec_len jobs }
    requires empty { ledger ≡ [] }
    ensures same { result.shelf.ghost_name ≡ shelf.entry.ghost_name }
    ensures served { HaveServed (IsKept K.is_up K.holds K.lasts result.shelf.now) (record {
      before = passes.items;
      room = room_of_all hall.now.each jobs.entry.items;
      ends = is_some hall.now.manner.ending;
    }) (record {
      passes = out.new.passes.items;
      accepted = out.new.accepted;
      fault = out.new.fault;
    }) }
{
    let Back { served, shelf } = serve_scoped(hall, jobs, channels, shelf, ledger, passes);
    *out = served;
    Lent { shelf }
}

/// The channels of a server, on whose ends it depends how long somebody serves.
fn channels_of<N: LedgerName>(alloc: Global) -> Result<Channels<N>, AllocError> {
    let (to, requests) = bounded(alloc, WAITING)?;
    let (still, ended) = bounded(alloc, 1)?;
    Ok(Channels {
        reach: Reach {
            to,
            still: Some(still),
        },
        ended,
        requests,
    })
}

/// Nothing was served, since memory was refused.
fn refused<H: HubName>(passes: Vec<Pass<H>>) -> Served<H>
    ensures passes { result.passes.items ≡ passes.items }
    ensures none { result.accepted ≡ 0 }
    ensures told { IsSome result.fault }
{
    Served {
        accepted: 0,
        passes,
        fault: Some(ServeFault::Run(RunFault::Memory)),
    }
}

/// Serves with a ledger of what the shelf keeps, under the name that the caller picked.
fn serve_named<
    'x,
    N: LedgerName + Send,
    H: HubName + Send + Sync,
    R: Wait + Drop + Send,
    S: Net<Listener = TcpListener, Stream = TcpStream> + Threads + Wait + Clock + Log + Sync,
    K: Keep + Send,
    G: Gate + Send + Drop,
>(
    blank: Blank,
    hall: &Hall<'x, H, Shown<H>, R, S>,
    jobs: Vec<Job<'x, G>>,
    shelf: &mut K,
    passes: Vec<Pass<H>>,
) -> Served<H>
    requires book { blank.book ≡ N.book }
    requires first { blank.first ≡ N.first }
    requires places { vec_len passes ≡ vec_len jobs }
    ensures served { HaveServed (IsKept K.is_up K.holds K.lasts shelf.new) (record {
      before = passes.items;
      room = room_of_all hall.now.each jobs.entry.items;
      ends = is_some hall.now.manner.ending;
    }) (record {
      passes = result.passes.items;
      accepted = result.accepted;
      fault = result.fault;
    }) }
{
    let alloc = hall.archive.alloc;
    let Ok(channels) = channels_of::<N>(alloc) else {
        return refused(passes);
    };
    let ledger = blank.named::<N>();
    let mut served = Served {
        accepted: 0,
        passes: Vec::new(alloc),
        fault: None,
    };
    let _lent = serve_into(hall, jobs, channels, shelf, ledger, passes, &mut served);
    served
}

/// Serves associations that come in at an entrance, `each` in a thread for each gate, with the pass
/// of its place. Its duties beside them: so many exchanges in all, in as many threads as is said,
/// with the next passes; meanwhile each peer is called again and again, in a thread for each, with
/// the passes behind; who comes for a page is answered, and who comes to correct, each in one
/// thread, with the last passes. Threads without a pass, one for each of several processors and 16
/// at most, hash what a C-GET asks for next. The thread that calls keeps the shelf. Whoever may end
/// it in this manner ends it early.
pub fn serve_on<
    'x,
    H: HubName + Send + Sync,
    R: Wait + Drop + Send,
    S: Net<Listener = TcpListener, Stream = TcpStream> + Threads + Wait + Clock + Log + Sync,
    K: Keep + Send,
    G: Gate + Send + Drop,
>(
    rt: &'x S,
    alloc: Global,
    entrance: Entrance<'x>,
    duties: Duties<'x>,
    titles: &'x Titles<View>,
    gates: Vec<G>,
    each: u64,
    keeper: &'x Mutex<Keeper<H, Shown<H>, R>>,
    passes: Vec<Pass<H>>,
    shelf: &mut K,
    manner: Manner<'x>,
) -> Served<H>
    requires some { 0 < vec_len gates }
    requires places { vec_len passes ≡ vec_len gates + others_in duties }
    // What became a pass's own lies on the shelf that was lent, and every crash leaves it there.
    ensures back { AllOnward (IsKept K.is_up K.holds K.lasts shelf.new) passes.items
        result.passes.items }
    ensures most { result.accepted ≤ vec_len gates * each }
    ensures all { IsSome manner.entry.ending ⊎ IsSome result.fault
        ⊎ (result.accepted ≡ min (vec_len gates * each) 18446744073709551615) }
{
    let Ok(jobs) = jobs_of(alloc, gates, duties) else {
        return refused(passes);
    };
    let Ok(recent) = Recent::new(alloc, manner.recent) else {
        return refused(passes);
    };
    let Ok(hashers) = Hashers::new(alloc) else {
        return refused(passes);
    };
    let hall = Hall {
        archive: Archive {
            rt,
            alloc,
            keeper,
            titles,
        },
        entrance,
        each,
        manner,
        begun: AtomicU64::new(0),
        health: Health::new(),
        recent: Mutex::new(recent),
        hashers,
        board: Board::new(rt, alloc, duties.peers),
    };
    serve_named::<Brand, H, R, S, K, G>(Blank::new(), &hall, jobs, shelf, passes)
}
