//! The threads of exchanges: they accept so many on a listener of their own.

ghost use Rattle.std.specs.Prelude.{◌≡◌, ◌+◌, ◌-◌, ◌<◌, ◌≤◌, ◌^◌, ◌⊎◌, IfErr, IfOk, IsSome, true};
ghost use Rattle.command_words.specs.Networks.{may_come};
ghost use Rattle.archive_server.specs.Serving.{HasGoneOn};

use crate::asking::Asking;
use crate::clerk::Clerk;
use crate::conversing::{Conversed, serve_exchange};
use crate::done::Done;
use crate::entrance::{Entered, Entrance, accept_from, rest_behind_accept};
use crate::journal::{Whence, tell_exchange, tell_last_round, tell_turned_away};
use crate::message::{Reach, Request};
use crate::refusing::Telling;
use crate::wire::Wire;
use crate::worker::Hall;
use crossbeam_channel::Sender;
use devices::Counted;
use exchange::{Ended, ExchangeFault, Role};
use hub_exchange::LedgerName;
use log::Log;
use site_hub::{HubName, Shows};
use std::net::SocketAddr;
use std::sync::Wait;
use std::sync::atomic::Ordering;
use std::time::Clock;

/// Where exchanges come in, and how often is accepted, by all workers of exchanges together, also
/// where that fails or a peer is turned away.
#[derive(Clone, Copy)]
pub struct Exchanging<'a> {
    pub entrance: Entrance<'a>,
    pub rounds: u64,
    /// How many are served at once, each with a pass of its own.
    pub workers: u16,
}

/// How many operations an exchange brought that were new, as far as it is known.
fn taken_in(ended: Result<Ended, ExchangeFault>) -> u64
    ensures ok { IfOk ended (λ ended. result ≡ ended.taken) }
    ensures err { IfErr ended (λ _. result ≡ 0) }
{
    match ended {
        Ok(ended) => ended.taken,
        Err(_fault) => 0,
    }
}

/// An exchange with a peer that this server called. Behind it the peer may read what was sent last.
pub(crate) fn exchange_over<
    'x,
    H: HubName,
    T: Shows<H>,
    R: Wait + Drop,
    S: Wait + Clock + Log,
    N: LedgerName,
>(
    hall: &'x Hall<'x, H, T, R, S>,
    to: &'x Sender<Request<N>>,
    wire: &Wire,
    clerk: Clerk<H, N>,
) -> (Clerk<H, N>, Result<Ended, ExchangeFault>)
    ensures onward { HasGoneOn clerk result.0 }
{
    let (rt, peer) = (hall.archive.rt, Whence::of(wire));
    hall.board.begun(rt);
    let mut reader = Counted::new(wire);
    let mut writer = Counted::new(wire);
    let alloc = hall.archive.alloc;
    let shelf = Telling::new(
        rt,
        Asking::new(rt, alloc, to, &hall.health, &hall.recent, &hall.hashers),
    );
    let Conversed { clerk, ended } = serve_exchange(
        &hall.archive,
        &shelf,
        Role::Caller,
        &mut reader,
        &mut writer,
        clerk,
    );
    hall.manner.add_held(rt, alloc, taken_in(ended));
    tell_exchange(rt, hall.manner, peer, wire, Role::Caller, ended);
    wire.part(rt);
    hall.board.freed(rt);
    (clerk, ended)
}

/// What the thread has done, and one exchange more, with a peer that called and may come in here.
fn with_peer<'x, H: HubName, T: Shows<H>, R: Wait + Drop, S: Wait + Clock + Log, N: LedgerName>(
    hall: &'x Hall<'x, H, T, R, S>,
    entrance: Entrance<'_>,
    to: &'x Sender<Request<N>>,
    wire: Wire,
    peer: SocketAddr,
    done: Done<H, N>,
) -> Done<H, N>
    requires room { done.accepted + done.failed < 2 ^ 64 - 1 }
    requires allowed { may_come entrance.allowed.now peer ≡ true }
    ensures onward { HasGoneOn done.clerk result.clerk }
    ensures accepted { result.accepted ≡ done.accepted + 1 }
    ensures failed { result.failed ≡ done.failed }
    ensures told { IsSome done.fault → IsSome result.fault }
{
    let (rt, whence) = (hall.archive.rt, Whence::at(peer));
    hall.board.begun(rt);
    let mut reader = Counted::new(&wire);
    let mut writer = Counted::new(&wire);
    let alloc = hall.archive.alloc;
    let shelf = Telling::new(
        rt,
        Asking::new(rt, alloc, to, &hall.health, &hall.recent, &hall.hashers),
    );
    let (done, ended) = done.with_exchange(&hall.archive, &shelf, &mut reader, &mut writer);
    hall.manner.add_held(rt, alloc, taken_in(ended));
    tell_exchange(rt, hall.manner, whence, &wire, Role::Callee, ended);
    hall.board.served(rt, alloc, peer, ended);
    wire.part(rt);
    hall.board.freed(rt);
    done
}

/// Accepts once. An accept that fails is used up as well, and a turn is rested behind it unless the
/// server was ended.
fn next_exchange<H: HubName, T: Shows<H>, R: Wait + Drop, S: Wait + Clock + Log, N: LedgerName>(
    hall: &Hall<'_, H, T, R, S>,
    entrance: Entrance<'_>,
    to: &Sender<Request<N>>,
    done: Done<H, N>,
) -> Done<H, N>
    requires room { done.accepted + done.failed < 2 ^ 64 - 1 }
    ensures onward { HasGoneOn done.clerk result.clerk }
    ensures used { result.accepted + result.failed ≡ done.accepted + done.failed + 1 }
    ensures told { IsSome hall.now.manner.ending ⊎ IsSome done.fault ⊎ (done.failed ≡ 0)
        → IsSome hall.now.manner.ending ⊎ IsSome result.fault ⊎ (result.failed ≡ 0) }
{
    match accept_from(entrance, hall.manner.idle) {
        Ok(Entered::LetIn(wire, peer)) => with_peer(hall, entrance, to, wire, peer, done),
        Ok(Entered::TurnedAway(peer)) => {
            tell_turned_away(hall.archive.rt, hall.manner, peer);
            done.with_turned_away(entrance, peer)
        }
        Err(error) => {
            rest_behind_accept(hall.archive.rt, hall.manner, &error);
            done.with_none(hall.manner.is_ended())
        }
    }
}

/// Accepts until all rounds were begun, by whichever thread of exchanges, or until the server is
/// ended. Behind the last round it is told that it was the last.
pub(crate) fn exchange_all<
    H: HubName,
    T: Shows<H>,
    R: Wait + Drop,
    S: Wait + Clock + Log,
    N: LedgerName,
>(
    hall: &Hall<'_, H, T, R, S>,
    exchanging: Exchanging<'_>,
    reach: Reach<N>,
    clerk: Clerk<H, N>,
) -> Done<H, N>
    ensures onward { HasGoneOn clerk result.clerk }
    ensures most { result.accepted ≤ exchanging.entry.rounds }
{
    let mut done = Done::nothing(clerk, None);
    for _ in 0..exchanging.rounds {
        let begun = hall.begun.fetch_add(1, Ordering::SeqCst);
        if begun >= exchanging.rounds || hall.manner.is_ended() {
            return done;
        }
        done = next_exchange(hall, exchanging.entrance, &reach.to, done);
        if begun == exchanging.rounds - 1 {
            tell_last_round(hall.archive.rt, hall.manner);
        }
    }
    done
}
