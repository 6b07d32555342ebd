//! Who came for a page, or to correct, as a reader and as a writer: it is waited for in short
//! turns, and between these it is seen whether anybody still serves.

ghost use Rattle.std.specs.Prelude.{◌≡◌, ◌*◌, min};
ghost use Rattle.core.specs.Duration.{as_nanos};
ghost use Rattle.archive_server.specs.Visiting.{nanos_between, turns_of};

use crate::wire::{Wire, is_broken_off, is_cut_off};
use crossbeam_channel::{Receiver, TryRecvError};
use std::io;
use std::io::{ErrorKind, Read, Write};
use std::sync::Wait;
use std::time::{Clock, Duration, Instant};

/// How many milliseconds a turn lasts.
const TURN: u64 = 250;

/// How many turns a second has.
const TURNS_OF_A_SECOND: u64 = 4;

/// How many turns are waited at most, to read and to write: half a minute each.
const MOST_TURNS: u64 = 120;

/// How many times as long as a page was made is rested behind it.
const RESTS: u32 = 9;

/// How many seconds are rested at most.
const MOST_REST: u64 = 2;

/// How long a turn lasts.
pub(crate) fn turn() -> Duration {
    Duration::from_millis(TURN)
}

/// How many turns the whole seconds of a wait have, or one without an end; 120 at most.
pub(crate) fn turns_in(idle: Option<Duration>) -> u64
    ensures turns { result ≡ turns_of idle }
{
    match idle {
        None => MOST_TURNS,
        Some(idle) => idle
            .as_secs()
            .saturating_mul(TURNS_OF_A_SECOND)
            .min(MOST_TURNS),
    }
}

/// Whether nobody accepts associations or exchanges any more.
fn is_over<S: Wait>(rt: &S, ended: &Receiver<()>) -> bool {
    matches!(ended.try_recv(rt), Err(TryRecvError::Disconnected))
}

/// How long is rested behind a page that was made in so long: a publish waits for the look that is
/// under way, so pages have a tenth of the time, as long as each is made within a fifth of a
/// second.
pub(crate) fn rest_behind(made: Duration) -> Duration
    ensures rest { as_nanos result ≡ min (as_nanos made * 9) 2_000_000_000 }
{
    let rest = made.saturating_mul(RESTS);
    if rest.as_secs() < MOST_REST {
        return rest;
    }
    Duration::from_secs(MOST_REST)
}

/// Whether a turn ended so that the read or the write is made in the next one.
fn is_over_next_turn(error: &io::Error) -> bool {
    is_cut_off(error) || is_broken_off(error)
}

/// One way of a connection whose waits last a turn. Each read uses up a turn, and each write that
/// found no room, so that a peer that sends a byte now and then is let go as well; and so is one
/// that still takes bytes when all turns have lasted.
#[derive(Drop)]
pub(crate) struct Visit<'a, S: Wait + Clock> {
    rt: &'a S,
    wire: &'a Wire,
    ended: &'a Receiver<()>,
    left: u64,
    /// How long all turns last.
    most: Duration,
    count: u64,
    /// When it was first seen that bytes went this way, or can go no more, and when last that they
    /// went, as far as a clock says it.
    first: Option<Instant>,
    last: Option<Instant>,
}

impl<'a, S: Wait + Clock> Visit<'a, S> {
    pub fn new(
        rt: &'a S,
        wire: &'a Wire,
        ended: &'a Receiver<()>,
        idle: Option<Duration>,
    ) -> Visit<'a, S> {
        let left = turns_in(idle);
        Visit {
            rt,
            wire,
            ended,
            left,
            most: turn().saturating_mul(left as u32),
            count: 0,
            first: None,
            last: None,
        }
    }

    /// How many bytes went this way.
    pub fn count(&self) -> u64 {
        self.count
    }

    /// How long it took from what was read last until something was written, or could not be.
    pub fn made_until(&self, writer: &Visit<'_, S>) -> Duration
        ensures made { as_nanos result ≡ nanos_between self.now.last writer.now.first }
    {
        match (self.last, writer.first) {
            (Some(asked), Some(told)) => told.duration_since(asked),
            _ => Duration::ZERO,
        }
    }

    /// Whether one turn more may be waited, which is then used up.
    fn takes_turn(&mut self) -> bool {
        if self.left == 0 || is_over(self.rt, self.ended) {
            return false;
        }
        self.left -= 1;
        true
    }

    /// Whether bytes have gone this way for as long as all turns last, as far as a clock says it.
    fn is_late(&self) -> bool {
        match (self.first, Instant::now(self.rt)) {
            (Some(first), Ok(now)) => {
                let lasted = now.duration_since(first);
                self.most.saturating_sub(lasted).is_zero()
            }
            _ => false,
        }
    }

    /// Notes how a read or a write ended, and hands it on.
    fn noted(&mut self, done: io::Result<usize>) -> io::Result<usize>
        ensures { result ≡ done }
    {
        let now = Instant::now(self.rt).ok();
        self.first = self.first.or(now);
        if let Ok(count) = done {
            self.count = self.count.saturating_add(count as u64);
            if count > 0 {
                self.last = now;
            }
        }
        self.wire.noted(done)
    }
}

impl<'a, S: Wait + Clock> Read for Visit<'a, S> {
    fn read(&mut self, buffer: &mut [u8]) -> io::Result<usize> {
        let mut stream = self.wire.stream();
        for _ in 0..MOST_TURNS {
            if !self.takes_turn() {
                break;
            }
            match stream.read(buffer) {
                Err(error) if is_over_next_turn(&error) => {}
                done => return self.noted(done),
            }
        }
        self.noted(Err(ErrorKind::TimedOut.into()))
    }
}

impl<'a, S: Wait + Clock> Write for Visit<'a, S> {
    fn write(&mut self, bytes: &[u8]) -> io::Result<usize> {
        let mut stream = self.wire.stream();
        for _ in 0..MOST_TURNS {
            if self.is_late() {
                break;
            }
            match stream.write(bytes) {
                Err(error) if is_over_next_turn(&error) => {}
                done => return self.noted(done),
            }
            if !self.takes_turn() {
                break;
            }
        }
        self.noted(Err(ErrorKind::TimedOut.into()))
    }

    fn flush(&mut self) -> io::Result<()> {
        Ok(())
    }
}
