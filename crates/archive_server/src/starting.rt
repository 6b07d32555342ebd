//! How a thread of a server is started, and what it comes back with.

ghost use Rattle.std.specs.Prelude.{◌≡◌, MatchResult, is_some};
ghost use Rattle.archive_server.specs.Serving.{HasServed, Task, room_of};

use crate::clerk::Clerk;
use crate::done::Done;
use crate::fault::ServeFault;
use crate::job::{Job, attend};
use crate::message::{Reach, Request};
use crate::worker::Hall;
use association_run::Gate;
use core::thread::Stack;
use crossbeam_channel::{Receiver, Sender, bounded};
use hub_exchange::LedgerName;
use log::Log;
use site_hub::{HubName, Pass, Snapshot as Shown};
use std::alloc::{AllocError, Global};
use std::marker::{Model, PhantomData};
use std::net::{Net, TcpListener, TcpStream};
use std::snapshot::Snapshot;
use std::sync::Wait;
use std::thread::{Promise, PromisedHandle, Scope, Threads};
use std::time::Clock;

/// The bytes of a thread's stack: 8 MiB.
const STACK: usize = 8_388_608;

/// The channels of a server.
#[derive(Drop)]
pub(crate) struct Channels<N: LedgerName> {
    pub reach: Reach<N>,
    pub ended: Receiver<()>,
    pub requests: Receiver<Request<N>>,
}

/// What a thread holds of the channels, and where it is told that it may begin.
#[derive(Drop)]
struct Place<N: LedgerName> {
    reach: Reach<N>,
    ended: Receiver<()>,
    told: Receiver<()>,
}

/// What a thread's pass was, how many associations it may accept, and whether somebody may end it.
/// Contracts see what is expected of the thread.
pub(crate) struct Begun<H: HubName, N: LedgerName> {
    was: Snapshot<Pass<H>>,
    room: u64,
    ends: bool,
    of: PhantomData<N>,
}

impl<H: HubName, N: LedgerName> Model for Begun<H, N> {
    ghost use Rattle.archive_server.specs.Serving.{Task};

    ghost Value = { Task };

    ghost view = { λ b. record { before = b.was.value; room = b.room; ends = b.ends } };
}

impl<H: HubName, N: LedgerName> Drop for Begun<H, N> {
    fn drop(self) {
        let Begun {
            was: _,
            room: _,
            ends: _,
            of: _,
        } = self;
    }
}

impl<H: HubName, N: LedgerName> Begun<H, N> {
    /// What is expected of a thread that does this job with this pass.
    pub fn of<G, R: Wait + Drop, S: Wait>(
        hall: &Hall<'_, H, Shown<H>, R, S>,
        job: &Job<'_, G>,
        pass: &Pass<H>,
    ) -> Begun<H, N>
        ensures before { result.before ≡ pass.now }
        ensures room { result.room ≡ room_of hall.now.each job.now }
        ensures ends { result.ends ≡ is_some hall.now.manner.ending }
    {
        Begun {
            was: Snapshot::of(pass),
            room: job.room(hall.each),
            ends: hall.manner.ending.is_some(),
            of: PhantomData,
        }
    }
}

impl<H: HubName, N: LedgerName> Promise<Done<H, N>> for Begun<H, N> {
    ghost kept_by = { λ task done. HasServed task done };
}

/// A thread that was started, or what came back at once.
pub(crate) type Started<H, N> = Result<PromisedHandle<Done<H, N>, Begun<H, N>>, Done<H, N>>;

/// The place of one more thread, and by what it is told that it may begin.
fn place_of<N: LedgerName>(
    alloc: Global,
    channels: &Channels<N>,
    accepts: bool,
) -> Result<(Place<N>, Sender<()>), AllocError> {
    let (begin, told) = bounded(alloc, 1)?;
    let place = Place {
        reach: channels.reach.another(accepts)?,
        ended: channels.ended.clone()?,
        told,
    };
    Ok((place, begin))
}

/// Does a job, once it is told that it may begin. One whose thread was refused does nothing.
fn attend_at<
    H: HubName,
    R: Wait + Drop,
    S: Net<Listener = TcpListener, Stream = TcpStream> + Wait + Clock + Log,
    N: LedgerName,
    G: Gate + Drop,
>(
    hall: &Hall<'_, H, Shown<H>, R, S>,
    job: Job<'_, G>,
    place: Place<N>,
    clerk: Clerk<H, N>,
) -> Done<H, N>
    ensures served { HasServed (record {
      before = clerk.pass;
      room = room_of hall.now.each job.entry;
      ends = is_some hall.now.manner.ending;
    }) result }
{
    let Place { reach, ended, told } = place;
    if told.recv(hall.archive.rt).is_err() {
        return Done::nothing(clerk, Some(job.refusal()));
    }
    attend(hall, job, reach, ended, clerk)
}

/// Starts a thread for a job, whose results keep a promise, and tells it that it may begin. A job
/// whose thread is refused is not told, and ends here.
fn begin<'s, E, P: Promise<T> + Drop, F: FnOnce() -> T + Send + 's, T: Send + Drop + 's>(
    rt: &impl Wait,
    scope: &Scope<'s, E>,
    begin: Sender<()>,
    promise: P,
    job: F,
) -> Result<PromisedHandle<T, P>, T>
    requires runs { F.pre job }
    requires keeps { (result : T) → F.post job result → P.kept_by promise result }
    ensures { MatchResult result (λ thread. thread.promise ≡ promise) (P.kept_by promise) }
{
    match Stack::new()
        .stack_size(STACK)
        .spawn_scoped_with(scope, promise, job)
    {
        Ok(thread) => {
            let _ = begin.send(rt, ());
            Ok(thread)
        }
        Err(back) => {
            drop(begin);
            Err((back.value)())
        }
    }
}

/// Starts a thread for a job. Where memory or the thread is refused, that comes back.
pub(crate) fn start<
    's,
    E,
    H: HubName + Send + Sync + 's,
    R: Wait + Drop + Send + 's,
    S: Net<Listener = TcpListener, Stream = TcpStream> + Wait + Clock + Log + Sync + 's,
    N: LedgerName + Send + 's,
    G: Gate + Send + Drop + 's,
>(
    scope: &Scope<'s, E>,
    hall: &'s Hall<'s, H, Shown<H>, R, S>,
    job: Job<'s, G>,
    channels: &Channels<N>,
    begun: Begun<H, N>,
    clerk: Clerk<H, N>,
) -> Started<H, N>
    requires before { begun.before ≡ clerk.pass }
    requires room { begun.room ≡ room_of hall.now.each job }
    requires ends { begun.ends ≡ is_some hall.now.manner.ending }
    ensures { MatchResult result (λ thread. thread.promise ≡ begun) (HasServed begun) }
{
    let Ok((place, told)) = place_of(hall.archive.alloc, channels, job.accepts()) else {
        return Err(Done::nothing(clerk, Some(job.refusal())));
    };
    let run = move || -> Done<H, N>
        ensures { HasServed (record {
          before = clerk.pass;
          room = room_of hall.entry.now.each job.entry;
          ends = is_some hall.entry.now.manner.ending;
        }) result }
    { attend_at(hall, job, place, clerk) };
    begin(hall.archive.rt, scope, told, begun, run)
}

/// What a thread came back with.
pub(crate) fn finish<H: HubName, N: LedgerName, S: Threads>(
    rt: &S,
    begun: Snapshot<Begun<H, N>>,
    started: Started<H, N>,
) -> Done<H, N>
    requires { MatchResult started (λ thread. thread.promise ≡ begun.value)
        (HasServed begun.value) }
    ensures { HasServed begun.value result }
{
    match started {
        Ok(thread) => thread.join(rt),
        Err(done) => done,
    }
}
