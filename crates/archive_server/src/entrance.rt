//! Where peers come in, and which may.

ghost use Rattle.std.specs.Prelude.{IfOk};
ghost use Rattle.archive_server.specs.Entering.{IsAsAllowed};

use crate::journal::tell_not_accepted;
use crate::manner::Manner;
use crate::visit::turn;
use crate::wire::Wire;
use command_words::{Network, is_allowed};
use log::Log;
use std::io;
use std::net::{SocketAddr, TcpListener};
use std::thread::sleep;
use std::time::{Clock, Duration};

/// A listener, and the networks from which peers may come. A connection from elsewhere is closed
/// before a byte of it is read. Where no network is named, each peer may come.
#[derive(Clone, Copy)]
pub struct Entrance<'a> {
    pub listener: &'a TcpListener,
    pub allowed: &'a [Network],
}

/// Who came in at an entrance.
#[derive(Drop)]
pub(crate) enum Entered {
    /// A peer that may come, with its connection.
    LetIn(Wire, SocketAddr),
    /// One that may not, whose connection is closed.
    TurnedAway(SocketAddr),
}

/// Accepts once. A peer that is let in is waited for so long at most, or as long as it takes.
pub(crate) fn accept_from(entrance: Entrance<'_>, idle: Option<Duration>) -> io::Result<Entered>
    ensures ruled { IfOk result (IsAsAllowed entrance.entry.allowed.now) }
{
    let (stream, peer) = entrance.listener.accept()?;
    if is_allowed(entrance.allowed, peer) {
        return Ok(Entered::LetIn(Wire::new(stream, idle)?, peer));
    }
    Ok(Entered::TurnedAway(peer))
}

/// How long is waited before the next accept: not at all, but for a turn behind one that failed,
/// since what the system lacked (a file handle, say) it may lack at once again.
pub(crate) fn pause_behind_accept(came: &io::Result<Entered>) -> Duration {
    match came {
        Ok(_entered) => Duration::ZERO,
        Err(_error) => turn(),
    }
}

/// Tells of an accept that failed, and waits as long behind it; neither where the server was ended.
pub(crate) fn rest_behind_accept<S: Clock + Log>(rt: &S, manner: Manner<'_>, error: &io::Error) {
    tell_not_accepted(rt, manner, error);
    if !manner.is_ended() {
        sleep(rt, turn());
    }
}
