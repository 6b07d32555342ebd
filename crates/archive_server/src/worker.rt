//! A worker: it accepts so many associations on the shared listener, with a pass of its own.

ghost use Rattle.std.specs.Prelude.{◌≡◌, ◌+◌, ◌-◌, ◌<◌, ◌^◌, ◌⊎◌, IsSome, is_some, true};
ghost use Rattle.command_words.specs.Networks.{may_come};
ghost use Rattle.archive_server.specs.Serving.{HasGoneOn, HasServed};

use crate::answers::Answers;
use crate::asking::Asking;
use crate::attending::Archive;
use crate::board::Board;
use crate::clerk::Clerk;
use crate::done::Done;
use crate::entrance::{Entered, Entrance, accept_from, rest_behind_accept};
use crate::fault::ServeFault;
use crate::hashing::Hashers;
use crate::health::Health;
use crate::heard::{Heard, Said};
use crate::journal::{Finish, Whence, tell_association, tell_turned_away};
use crate::manner::Manner;
use crate::message::{Reach, Request};
use crate::wire::Wire;
use association_run::{Gate, Outbox, RunFault};
use crossbeam_channel::Sender;
use devices::Counted;
use hub_exchange::LedgerName;
use log::Log;
use recent_ops::Recent;
use site_hub::{HubName, Shows};
use std::net::SocketAddr;
use std::sync::atomic::AtomicU64;
use std::sync::{Mutex, Wait};
use std::time::Clock;

/// What all threads share.
#[derive(Drop)]
pub(crate) struct Hall<'a, H: HubName, T: Shows<H>, R: Wait + Drop, S: Wait> {
    pub archive: Archive<'a, H, T, R, S>,
    pub entrance: Entrance<'a>,
    pub each: u64,
    pub manner: Manner<'a>,
    /// How many exchanges were begun to be accepted.
    pub begun: AtomicU64,
    /// Whether the shelf takes what it is given.
    pub health: Health,
    /// What was put or loaded last.
    pub recent: Mutex<Recent>,
    /// Who hashes what was read ahead of its turn.
    pub hashers: Hashers,
    pub board: Board,
}

/// What a worker has done, and one association more, over the connection of a peer that may come in
/// here.
fn with_peer<
    'x,
    H: HubName,
    T: Shows<H>,
    R: Wait + Drop,
    S: Wait + Clock + Log,
    N: LedgerName,
    G: Gate,
>(
    hall: &'x Hall<'x, H, T, R, S>,
    to: &'x Sender<Request<N>>,
    gate: &mut G,
    outbox: &mut Outbox,
    wire: &Wire,
    peer: SocketAddr,
    done: Done<H, N>,
) -> Done<H, N>
    requires room { done.accepted + done.failed < 2 ^ 64 - 1 }
    requires allowed { may_come hall.now.entrance.allowed.now peer ≡ true }
    ensures onward { HasGoneOn done.clerk result.clerk }
    ensures accepted { result.accepted ≡ done.accepted + 1 }
    ensures failed { result.failed ≡ done.failed }
    ensures told { IsSome done.fault → IsSome result.fault }
{
    let rt = hall.archive.rt;
    let alloc = hall.archive.alloc;
    let whence = Whence::at(peer);
    let shelf = Asking::new(rt, alloc, to, &hall.health, &hall.recent, &hall.hashers);
    let mut reader = Heard::new(Counted::new(wire));
    let mut writer = Said::new(
        Counted::new(wire),
        Answers::new(rt, hall.manner, whence, alloc),
    );
    let (done, ended, mut tally) = done.with_association(
        &hall.archive,
        &shelf,
        outbox,
        &mut reader,
        &mut writer,
        gate,
    );
    let finish = Finish {
        ended,
        rejection: writer.rejection(),
        sent: writer.abort(),
        came: reader.abort(),
    };
    let front = reader.front();
    tally.answered(writer.rows());
    hall.board
        .attended(rt, ended, finish.rejection.is_some(), tally);
    hall.manner.add_held(rt, hall.archive.alloc, tally.new);
    tell_association(rt, hall.manner, whence, wire, &front, tally, finish);
    done
}

/// The same. Behind it the peer may read what was sent last.
fn with_wire<
    H: HubName,
    T: Shows<H>,
    R: Wait + Drop,
    S: Wait + Clock + Log,
    N: LedgerName,
    G: Gate,
>(
    hall: &Hall<'_, H, T, R, S>,
    to: &Sender<Request<N>>,
    gate: &mut G,
    outbox: &mut Outbox,
    wire: Wire,
    peer: SocketAddr,
    done: Done<H, N>,
) -> Done<H, N>
    requires room { done.accepted + done.failed < 2 ^ 64 - 1 }
    requires allowed { may_come hall.now.entrance.allowed.now peer ≡ true }
    ensures onward { HasGoneOn done.clerk result.clerk }
    ensures accepted { result.accepted ≡ done.accepted + 1 }
    ensures failed { result.failed ≡ done.failed }
    ensures told { IsSome done.fault → IsSome result.fault }
{
    let rt = hall.archive.rt;
    hall.board.begun(rt);
    let served = with_peer(hall, to, gate, outbox, &wire, peer, done);
    wire.part(rt);
    hall.board.freed(rt);
    served
}

/// Accepts once. An accept that fails is used up as well, and a turn is rested behind it unless the
/// server was ended.
fn next<H: HubName, T: Shows<H>, R: Wait + Drop, S: Wait + Clock + Log, N: LedgerName, G: Gate>(
    hall: &Hall<'_, H, T, R, S>,
    to: &Sender<Request<N>>,
    gate: &mut G,
    outbox: &mut Outbox,
    done: Done<H, N>,
) -> Done<H, N>
    requires room { done.accepted + done.failed < 2 ^ 64 - 1 }
    ensures onward { HasGoneOn done.clerk result.clerk }
    ensures used { result.accepted + result.failed ≡ done.accepted + done.failed + 1 }
    ensures told { IsSome hall.now.manner.ending ⊎ IsSome done.fault ⊎ (done.failed ≡ 0)
        → IsSome hall.now.manner.ending ⊎ IsSome result.fault ⊎ (result.failed ≡ 0) }
{
    match accept_from(hall.entrance, hall.manner.idle) {
        Ok(Entered::LetIn(wire, peer)) => with_wire(hall, to, gate, outbox, wire, peer, done),
        Ok(Entered::TurnedAway(peer)) => {
            tell_turned_away(hall.archive.rt, hall.manner, peer);
            done.with_turned_away(hall.entrance, peer)
        }
        Err(error) => {
            rest_behind_accept(hall.archive.rt, hall.manner, &error);
            done.with_none(hall.manner.is_ended())
        }
    }
}

/// Accepts `each` times, or until the server is ended, unless memory was refused for the buffer
/// that serves all its associations.
pub(crate) fn work<
    H: HubName,
    T: Shows<H>,
    R: Wait + Drop,
    S: Wait + Clock + Log,
    N: LedgerName,
    G: Gate + Drop,
>(hall: &Hall<'_, H, T, R, S>, reach: Reach<N>, mut gate: G, clerk: Clerk<H, N>) -> Done<H, N>
    ensures served { HasServed (record {
      before = clerk.pass;
      room = hall.now.each;
      ends = is_some hall.now.manner.ending;
    }) result }
{
    let Ok(mut outbox) = Outbox::new(hall.archive.alloc) else {
        return Done::nothing(clerk, Some(ServeFault::Run(RunFault::Memory)));
    };
    let mut done = Done::nothing(clerk, None);
    for _ in 0..hall.each {
        if hall.manner.is_ended() {
            return done;
        }
        done = next(hall, &reach.to, &mut gate, &mut outbox, done);
    }
    done
}
