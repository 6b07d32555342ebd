//! What the threads of a server do, each with a pass of its own.

ghost use Rattle.std.specs.Prelude.{◌≡◌, length, is_some, IfOk, vec_len};
ghost use Rattle.command_words.specs.Words.{threads_at};
ghost use Rattle.archive_server.specs.Serving.{AddsBeside, AreJobs, HasServed, room_of, serving_in, others_in};

use crate::clerk::Clerk;
use crate::correcting::{Correcting, correct_all};
use crate::done::Done;
use crate::duties::Duties;
use crate::exchanging::{Exchanging, exchange_all};
use crate::fault::ServeFault;
use crate::meeting::{Peer, meet_all};
use crate::message::Reach;
use crate::paging::{Paging, page_all};
use crate::worker::{Hall, work};
use association_run::{Gate, RunFault};
use crossbeam_channel::Receiver;
use exchange::ExchangeFault;
use hub_exchange::LedgerName;
use log::Log;
use site_hub::{HubName, Snapshot as Shown};
use std::alloc::{AllocError, Global};
use std::net::{Net, TcpListener, TcpStream};
use std::sync::Wait;
use std::time::Clock;

/// What a thread does.
#[derive(Drop)]
pub(crate) enum Job<'a, G> {
    /// It accepts associations, which pass this gate.
    Associations(G),
    /// It serves exchanges, as long as some are left.
    Exchanges(Exchanging<'a>),
    /// It calls a peer, until nobody accepts any more.
    Calls(Peer<'a>),
    /// It answers who comes for a page, until nobody accepts any more.
    Pages(Paging<'a>),
    /// It serves who comes to correct, likewise.
    Corrects(Correcting<'a>),
}

impl<G> Job<'_, G> {
    /// Whether it accepts associations or exchanges.
    pub fn accepts(&self) -> bool {
        matches!(self, Job::Associations(_) | Job::Exchanges(_))
    }

    /// What is told where memory is refused for it.
    pub fn refusal(&self) -> ServeFault {
        match self {
            Job::Associations(_) => ServeFault::Run(RunFault::Memory),
            _ => ServeFault::Exchange(ExchangeFault::Memory),
        }
    }

    /// How many associations it may accept, where each worker may accept so many.
    pub fn room(&self, each: u64) -> u64
        ensures { result ≡ room_of each self.now }
    {
        match self {
            Job::Associations(_) => each,
            Job::Exchanges(_) | Job::Calls(_) | Job::Pages(_) | Job::Corrects(_) => 0,
        }
    }
}

/// What comes of a job beside the workers once it is done: none of what it accepts is an
/// association.
fn beside<H: HubName, N: LedgerName>(done: Done<H, N>) -> Done<H, N>
    ensures clerk { result.clerk ≡ done.clerk }
    ensures none { result.accepted ≡ 0 }
{
    let (clerk, _accepted, fault) = done.into_parts();
    Done::nothing(clerk, fault)
}

/// Does a job until it is done.
pub(crate) fn attend<
    H: HubName,
    R: Wait + Drop,
    S: Net<Listener = TcpListener, Stream = TcpStream> + Wait + Clock + Log,
    N: LedgerName,
    G: Gate + Drop,
>(
    hall: &Hall<'_, H, Shown<H>, R, S>,
    job: Job<'_, G>,
    reach: Reach<N>,
    ended: Receiver<()>,
    clerk: Clerk<H, N>,
) -> Done<H, N>
    ensures served { HasServed (record {
      before = clerk.pass;
      room = room_of hall.now.each job.entry;
      ends = is_some hall.now.manner.ending;
    }) result }
{
    match job {
        Job::Associations(gate) => work(hall, reach, gate, clerk),
        Job::Exchanges(exchanging) => beside(exchange_all(hall, exchanging, reach, clerk)),
        Job::Calls(peer) => beside(meet_all(hall, peer, reach, ended, clerk)),
        Job::Pages(paging) => {
            drop(reach);
            beside(page_all(hall, paging, ended, clerk))
        }
        Job::Corrects(correcting) => beside(correct_all(hall, correcting, reach, ended, clerk)),
    }
}

/// The jobs of the workers, each with its gate.
fn workers<'x, G: Drop>(alloc: Global, gates: Vec<G>) -> Result<Vec<Job<'x, G>>, AllocError>
    ensures { IfOk result (λ jobs. AreJobs (vec_len gates) 0 jobs.items) }
{
    let mut jobs = Vec::new(alloc);
    for gate in gates {
        jobs.push(Job::Associations(gate))?;
    }
    Ok(jobs)
}

/// These jobs, and behind them those of the threads that serve exchanges.
fn with_exchanges<'x, G: Drop>(
    before: Vec<Job<'x, G>>,
    exchange: Option<Exchanging<'x>>,
) -> Result<Vec<Job<'x, G>>, AllocError>
    ensures { IfOk result (λ jobs.
        AddsBeside (serving_in exchange.entry) before.entry.items jobs.items) }
{
    let mut jobs = before;
    if let Some(exchanging) = exchange {
        for _ in 0..exchanging.workers {
            jobs.push(Job::Exchanges(exchanging))?;
        }
    }
    Ok(jobs)
}

/// These jobs, and behind them those of the threads that call peers.
fn with_peers<'x, G: Drop>(
    before: Vec<Job<'x, G>>,
    peers: &[Peer<'x>],
) -> Result<Vec<Job<'x, G>>, AllocError>
    ensures { IfOk result (λ jobs. AddsBeside (length peers.now) before.entry.items jobs.items) }
{
    let mut jobs = before;
    for peer in peers {
        jobs.push(Job::Calls(*peer))?;
    }
    Ok(jobs)
}

/// These jobs, and behind them that of the thread of pages.
fn with_pages<'x, G: Drop>(
    before: Vec<Job<'x, G>>,
    pages: Option<Paging<'x>>,
) -> Result<Vec<Job<'x, G>>, AllocError>
    ensures { IfOk result (λ jobs.
        AddsBeside (threads_at pages.entry) before.entry.items jobs.items) }
{
    let Some(paging) = pages else {
        return Ok(before);
    };
    let mut jobs = before;
    jobs.push(Job::Pages(paging))?;
    Ok(jobs)
}

/// These jobs, and behind them that of the thread of the desk.
fn with_desk<'x, G: Drop>(
    before: Vec<Job<'x, G>>,
    desk: Option<Correcting<'x>>,
) -> Result<Vec<Job<'x, G>>, AllocError>
    ensures { IfOk result (λ jobs.
        AddsBeside (threads_at desk.entry) before.entry.items jobs.items) }
{
    let Some(correcting) = desk else {
        return Ok(before);
    };
    let mut jobs = before;
    jobs.push(Job::Corrects(correcting))?;
    Ok(jobs)
}

/// All jobs, by the places of their passes: those of the workers, those of the threads that serve
/// exchanges, those of the threads that call peers, that of the thread of pages, and that of the
/// thread of the desk.
pub(crate) fn jobs_of<'x, G: Drop>(
    alloc: Global,
    gates: Vec<G>,
    duties: Duties<'x>,
) -> Result<Vec<Job<'x, G>>, AllocError>
    ensures { IfOk result (λ jobs.
        AreJobs (vec_len gates) (others_in duties.entry) jobs.items) }
{
    let serving = with_exchanges(workers(alloc, gates)?, duties.exchange)?;
    let calling = with_peers(serving, duties.peers)?;
    let jobs = with_desk(with_pages(calling, duties.pages)?, duties.desk)?;
    Ok(jobs)
}
