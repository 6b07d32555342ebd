//! The threads that call peers: each exchanges with one, again and again, with a pass of its own.

ghost use Rattle.std.specs.Prelude.{◌≡◌, ◌≢◌, ◌⊎◌, ◌↔◌, IsTrue, None};
ghost use Rattle.core.specs.Duration.{as_nanos};
ghost use Rattle.archive_server.specs.Calling.{CallsAgain};
ghost use Rattle.archive_server.specs.Serving.{HasGoneOn};

use crate::board::Board;
use crate::calling::Pauses;
use crate::clerk::Clerk;
use crate::done::Done;
use crate::exchanging::exchange_over;
use crate::journal::tell_unreached;
use crate::message::{Reach, Request};
use crate::wire::Wire;
use crate::worker::Hall;
use crossbeam_channel::{Receiver, RecvTimeoutError, Sender};
use hub_exchange::LedgerName;
use log::Log;
use site_hub::{HubName, Shows};
use std::net::{Net, TcpListener, TcpStream};
use std::sync::Wait;
use std::time::{Clock, Duration, Instant};

/// A site that serves exchanges, and how long the server waits before it calls it again, unless an
/// exchange with any peer brings something meanwhile.
#[derive(Clone, Copy)]
pub struct Peer<'a> {
    /// An IPv4 address, a colon and a port.
    pub address: &'a str,
    pub every: Duration,
}

/// Calls a peer once. A call that is refused and an exchange that is broken off are made good by
/// the next: what was taken stays.
fn meet<
    H: HubName,
    T: Shows<H>,
    R: Wait + Drop,
    S: Net<Listener = TcpListener, Stream = TcpStream> + Wait + Clock + Log,
    N: LedgerName,
>(
    hall: &Hall<'_, H, T, R, S>,
    address: &str,
    to: &Sender<Request<N>>,
    clerk: Clerk<H, N>,
) -> Clerk<H, N>
    ensures onward { HasGoneOn clerk result }
{
    match Wire::to(hall.archive.rt, address, hall.manner.idle) {
        Ok(wire) => {
            let (clerk, ended) = exchange_over(hall, to, &wire, clerk);
            hall.board.called(hall.archive.rt, address, ended);
            clerk
        }
        Err(error) => {
            hall.board.unreached(hall.archive.rt, address);
            tell_unreached(hall.archive.rt, hall.manner, address, error);
            clerk
        }
    }
}

/// What tells by its end that nobody accepts any more.
#[derive(Drop)]
pub(crate) struct Still<'a, S: Wait + Clock> {
    pub rt: &'a S,
    pub ended: &'a Receiver<()>,
}

impl<'a, S: Wait + Clock> Pauses for Still<'a, S> {
    ghost turns = { λ _. None };

    fn note(&mut self) {}

    fn is_served_after(&mut self, time: Duration) -> bool {
        match self.ended.recv_timeout(self.rt, time) {
            Err(RecvTimeoutError::Timeout) => true,
            Err(RecvTimeoutError::Disconnected) | Ok(()) => false,
        }
    }
}

/// How long is waited at most between looks at what exchanges brought.
fn turn() -> Duration {
    Duration::from_secs(1)
}

/// Whether a peer is called again: its pause is over, or its rest is, and exchanges brought
/// something since it was called.
fn is_due(left: Duration, rest: Duration, seen: u64, brought: u64) -> bool
    ensures { IsTrue result ↔ ((as_nanos left ≡ 0)
        ⊎ ((as_nanos rest ≡ 0) × (seen ≢ brought))) }
{
    left.is_zero() || (rest.is_zero() && seen != brought)
}

/// How many times as long as a call lasted is rested behind it, also where exchanges brought
/// something: an exchange costs what is held, so calls have a tenth of the time.
const RESTS: u32 = 9;

/// The pauses of a thread that calls a peer: what exchanges bring ends them, so that each peer
/// hears of it soon. Between two calls a turn is waited all the same, and a rest.
#[derive(Drop)]
struct Stirred<'a, S: Wait + Clock> {
    rt: &'a S,
    ended: &'a Receiver<()>,
    board: &'a Board,
    /// How many operations exchanges had brought before the last call.
    seen: u64,
    /// When that call began, as far as a clock says it.
    begun: Option<Instant>,
    /// How long is rested behind it.
    rest: Duration,
}

/// How long is rested behind a call that began then; not at all where no clock says it.
fn rest_since<S: Clock>(rt: &S, begun: Option<Instant>) -> Duration {
    match (begun, Instant::now(rt)) {
        (Some(begun), Ok(now)) => now.duration_since(begun).saturating_mul(RESTS),
        _ => Duration::ZERO,
    }
}

impl<S: Wait + Clock> Pauses for Stirred<'_, S> {
    ghost turns = { λ _. None };

    fn note(&mut self) {
        self.rest = rest_since(self.rt, self.begun);
    }

    fn is_served_after(&mut self, time: Duration) -> bool {
        let (mut left, mut rest) = (time, self.rest);
        for _ in self.rt.forever() {
            let turn = left.min(turn());
            match self.ended.recv_timeout(self.rt, turn) {
                Err(RecvTimeoutError::Timeout) => {}
                Err(RecvTimeoutError::Disconnected) | Ok(()) => return false,
            }
            left = left.saturating_sub(turn);
            rest = rest.saturating_sub(turn);
            let brought = self.board.brought(self.rt);
            if is_due(left, rest, self.seen, brought) {
                self.seen = brought;
                self.begun = Instant::now(self.rt).ok();
                return true;
            }
        }
        unreachable!()
    }
}

/// Calls a peer again and again, as long as somebody serves.
fn call_again<
    H: HubName,
    T: Shows<H>,
    R: Wait + Drop,
    S: Net<Listener = TcpListener, Stream = TcpStream> + Wait + Clock + Log,
    N: LedgerName,
    C: Pauses,
>(
    hall: &Hall<'_, H, T, R, S>,
    address: &str,
    every: Duration,
    to: &Sender<Request<N>>,
    pauses: &mut C,
    clerk: Clerk<H, N>,
) -> Clerk<H, N>
    ensures onward { HasGoneOn clerk result }
    ensures again { CallsAgain every (C.turns pauses.old) (C.turns pauses.new) }
{
    let mut onward = clerk;
    for _ in hall.archive.rt.forever() {
        onward = meet(hall, address, to, onward);
        pauses.note();
        if !pauses.is_served_after(every) {
            return onward;
        }
    }
    unreachable!()
}

/// Calls a peer until nobody accepts any more.
pub(crate) fn meet_all<
    H: HubName,
    T: Shows<H>,
    R: Wait + Drop,
    S: Net<Listener = TcpListener, Stream = TcpStream> + Wait + Clock + Log,
    N: LedgerName,
>(
    hall: &Hall<'_, H, T, R, S>,
    peer: Peer<'_>,
    reach: Reach<N>,
    ended: Receiver<()>,
    clerk: Clerk<H, N>,
) -> Done<H, N>
    ensures onward { HasGoneOn clerk result.clerk }
{
    let rt = hall.archive.rt;
    let mut pauses = Stirred {
        rt,
        ended: &ended,
        board: &hall.board,
        seen: hall.board.brought(rt),
        begun: Instant::now(rt).ok(),
        rest: Duration::ZERO,
    };
    let onward = call_again(
        hall,
        peer.address,
        peer.every,
        &reach.to,
        &mut pauses,
        clerk,
    );
    Done::nothing(onward, None)
}
