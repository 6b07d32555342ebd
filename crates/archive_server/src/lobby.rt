//! Who came to a door and has not asked yet, or has been answered and not gone yet: the thread of
//! the door serves others meanwhile.

ghost use Rattle.std.specs.Prelude.{◌≡◌, ◌≤◌, ℕ, Option, IfOk, is_some, length, true};
ghost use Rattle.core.specs.Duration.{as_nanos};
ghost use Rattle.memchr.specs.Find.{FindsNeedle};
ghost use Rattle.command_words.specs.Networks.{may_come};
ghost use Rattle.archive_server.specs.Entering.{IsAsAllowed};
ghost use Rattle.archive_server.specs.Visiting.{nanos_to_ask};

use crate::entrance::{Entered, Entrance, accept_from};
use crate::journal::{Whence, tell_visit};
use crate::manner::Manner;
use crate::visit::turn;
use crate::wire::{Wire, is_broken_off, is_cut_off};
use command_words::is_allowed;
use log::Log;
use memchr::memmem;
use std::alloc::Global;
use std::io;
use std::io::{ErrorKind, Read};
use std::net::{Shutdown, SocketAddr, TcpListener, TcpStream};
use std::os::fd::OwnedFd;
use std::time::{Clock, Duration, Instant};

/// How many bytes of a request are looked at before it is read.
const FRONT: usize = 8_192;

/// How many wait at a door at most, and how many part there at most: behind them the first is let
/// go.
const MOST: usize = 64;

/// How many seconds one has at most to ask, and how many to close once it is answered.
const MOST_SECONDS: u64 = 5;

/// How many times is read at once what one still sends that was answered.
const PIECES: usize = 64;

/// How many milliseconds are between looks at who waits, while the last of them came within a turn,
/// and else.
const SOON: u64 = 5;

const LATER: u64 = 50;

/// One who came, and when, as far as a clock says it.
#[derive(Drop)]
struct Guest {
    wire: Wire,
    peer: SocketAddr,
    since: Option<Instant>,
}

/// Whether a text has a word.
fn has(text: &[u8], word: &[u8]) -> bool
    ensures { (place : Option ℕ) × FindsNeedle text.now word.now 0 place
        × (result ≡ is_some place) }
{
    memmem::find(text, word).is_some()
}

/// Whether a text has an empty line, and so the whole head of a request (RFC 9112, section 2.1),
/// also where lines end without a carriage return (section 2.2).
fn has_head(text: &[u8]) -> bool {
    has(text, b"\n\r\n") || has(text, b"\n\n")
}

/// What has come of a request so far, which stays to be read: nothing is waited for.
fn come_by(stream: &TcpStream, front: &mut [u8]) -> io::Result<usize>
    ensures bound { IfOk result (λ count. count ≤ length front.new) }
{
    stream.set_nonblocking(true)?;
    let come = stream.peek(front);
    stream.set_nonblocking(false)?;
    come
}

/// Whether the head of a request has come, or no more of it will, or it is longer than is looked
/// at: then it is read.
fn has_asked(wire: &Wire) -> bool {
    let mut front = [0; FRONT];
    match come_by(wire.stream(), &mut front) {
        Ok(0) | Ok(FRONT) => true,
        Ok(count) => has_head(&front[..count]),
        Err(error) => !is_cut_off(&error) && !is_broken_off(&error),
    }
}

/// Whether one who was answered has closed. What it still sent is read and dropped, and nothing is
/// waited for.
fn has_gone(wire: &Wire) -> bool {
    let mut stream = wire.stream();
    let mut front = [0; FRONT];
    for _ in 0..PIECES {
        match stream.read(&mut front) {
            Ok(0) => return true,
            Ok(_dropped) => {}
            Err(error) => return !is_cut_off(&error) && !is_broken_off(&error),
        }
    }
    false
}

/// Whether so long has passed, as far as a clock says it: where none does it has.
fn is_over<S: Clock>(rt: &S, since: Option<Instant>, most: Duration) -> bool {
    match (since, Instant::now(rt)) {
        (Some(since), Ok(now)) => {
            let lasted = now.duration_since(since);
            most.saturating_sub(lasted).is_zero()
        }
        _ => true,
    }
}

/// How long one has to ask, of whom so long is waited at most for else, or as long as it takes.
pub(crate) fn patience(idle: Option<Duration>) -> Duration
    ensures { as_nanos result ≡ nanos_to_ask idle }
{
    let most = Duration::from_secs(MOST_SECONDS);
    match idle {
        Some(idle) => most.min(idle),
        None => most,
    }
}

/// Lets each accept of a listener end after so long, in which nobody came.
pub(crate) fn lets_accepts_end(listener: &TcpListener, most: Duration) -> io::Result<()> {
    // A socket's time to receive is also that of an accept.
    TcpStream::from(OwnedFd::from(listener.try_clone()?)).set_read_timeout(Some(most))
}

/// Who waits at a door, in the order in which they came, and who parts.
pub(crate) struct Lobby<'a, S: Clock + Log> {
    rt: &'a S,
    manner: Manner<'a>,
    waiting: Vec<Guest>,
    parting: Vec<Guest>,
    /// How long an accept lasts at most.
    pace: Duration,
}

// It is written out, so that a caller does not prove again how each part is dropped.
impl<S: Clock + Log> Drop for Lobby<'_, S> {
    fn drop(self) {
        let Lobby {
            rt: _,
            manner: _,
            waiting: _,
            parting: _,
            pace: _,
        } = self;
    }
}

impl<'a, S: Clock + Log> Lobby<'a, S> {
    /// Nobody waits at a door whose accepts last a turn at most.
    pub fn new(rt: &'a S, alloc: Global, manner: Manner<'a>) -> Lobby<'a, S> {
        Lobby {
            rt,
            manner,
            waiting: Vec::new(alloc),
            parting: Vec::new(alloc),
            pace: turn(),
        }
    }

    fn guest(&self, wire: Wire, peer: SocketAddr) -> Guest {
        Guest {
            wire,
            peer,
            since: Instant::now(self.rt).ok(),
        }
    }

    /// Lets the first of those go who wait, which has said too little.
    fn let_first_go(&mut self) {
        if self.waiting.is_empty() {
            return;
        }
        let Guest { wire, peer, .. } = self.waiting.remove(0);
        tell_visit(self.rt, self.manner, Whence::at(peer), &wire, 0);
    }

    /// Lets the first of those go who wait, if it has waited as long as it may.
    fn let_late_go(&mut self) {
        let is_late = match self.waiting.first() {
            Some(first) => is_over(self.rt, first.since, patience(self.manner.idle)),
            None => false,
        };
        if is_late {
            self.let_first_go();
        }
    }

    /// Lets the first of those go who part, if it has closed, or had as long as it may have.
    fn let_parted_go(&mut self) {
        let most = Duration::from_secs(MOST_SECONDS);
        let is_parted = match self.parting.first() {
            Some(first) => has_gone(&first.wire) || is_over(self.rt, first.since, most),
            None => false,
        };
        if is_parted {
            self.parting.remove(0);
        }
    }

    /// Takes the first out who has asked.
    fn take_asking(&mut self) -> Option<Guest> {
        for at in 0..self.waiting.len() {
            if has_asked(&self.waiting[at].wire) {
                return Some(self.waiting.remove(at));
            }
        }
        None
    }

    /// How long the next accept may last, so that who waits is looked at again soon.
    fn next_pace(&self) -> Duration {
        match self.waiting.last() {
            Some(last) if is_over(self.rt, last.since, turn()) => Duration::from_millis(LATER),
            Some(_soon) => Duration::from_millis(SOON),
            None if self.parting.is_empty() => turn(),
            None => Duration::from_millis(LATER),
        }
    }

    /// Lets the next accept last as long as it may. A listener that refuses it goes on as before.
    fn set_pace(&mut self, listener: &TcpListener) {
        let pace = self.next_pace();
        if pace != self.pace && lets_accepts_end(listener, pace).is_ok() {
            self.pace = pace;
        }
    }

    /// One more waits. Where too many do the first is let go; the one fault is want of memory.
    fn admit(&mut self, wire: Wire, peer: SocketAddr) -> io::Result<()> {
        if self.waiting.len() >= MOST {
            self.let_first_go();
        }
        let guest = self.guest(wire, peer);
        match self.waiting.push(guest) {
            Ok(()) => Ok(()),
            Err(_refused) => Err(ErrorKind::OutOfMemory.into()),
        }
    }

    /// One who may come in, and does if it has asked already.
    fn let_in(
        &mut self,
        entrance: Entrance<'_>,
        wire: Wire,
        peer: SocketAddr,
    ) -> io::Result<Entered>
        requires allowed { may_come entrance.allowed.now peer ≡ true }
        ensures ruled { IfOk result (IsAsAllowed entrance.entry.allowed.now) }
    {
        if has_asked(&wire) {
            return Ok(Entered::LetIn(wire, peer));
        }
        self.admit(wire, peer)?;
        Err(ErrorKind::WouldBlock.into())
    }

    /// Who comes next and has asked, or may not come; or else, as of an accept in which nobody came
    /// within its time, an error. Who came and has not asked yet waits here meanwhile.
    pub fn next(&mut self, entrance: Entrance<'_>) -> io::Result<Entered>
        ensures ruled { IfOk result (IsAsAllowed entrance.entry.allowed.now) }
    {
        self.let_late_go();
        self.let_parted_go();
        if let Some(guest) = self.take_asking() {
            return Ok(entered_at(entrance, guest));
        }
        self.set_pace(entrance.listener);
        match accept_from(entrance, Some(turn())) {
            Ok(Entered::LetIn(wire, peer)) => self.let_in(entrance, wire, peer),
            came => came,
        }
    }

    /// One who was answered: nothing is sent to it any more, and it is waited for here until it
    /// closes, for 5 seconds at most, since a connection that is closed while bytes come is reset,
    /// and then its peer may lose the last that was written to it. One that was silent is let go.
    pub fn see_off(&mut self, wire: Wire, peer: SocketAddr) {
        let stream = wire.stream();
        if wire.is_silent() || stream.shutdown(Shutdown::Write).is_err() {
            return;
        }
        if stream.set_nonblocking(true).is_err() || has_gone(&wire) {
            return;
        }
        if self.parting.len() >= MOST {
            self.parting.remove(0);
        }
        let guest = self.guest(wire, peer);
        let _ = self.parting.push(guest);
    }
}

/// Who waited and has asked, if it may come in at an entrance.
fn entered_at(entrance: Entrance<'_>, guest: Guest) -> Entered
    ensures { IsAsAllowed entrance.entry.allowed.now result }
{
    let Guest { wire, peer, .. } = guest;
    if is_allowed(entrance.allowed, peer) {
        return Entered::LetIn(wire, peer);
    }
    Entered::TurnedAway(peer)
}
