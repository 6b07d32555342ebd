//! How a server runs beside what it serves.

ghost use Rattle.std.specs.Prelude.{IsTrue, IsSome};

use crate::held::Held;
use std::alloc::Global;
use std::sync::Wait;
use std::sync::atomic::{AtomicBool, Ordering};
use std::time::Duration;

/// How a server runs: by whom it may be ended, how long it waits for a peer, how much it remembers,
/// and whether it tells what it serves.
#[derive(Clone, Copy)]
pub struct Manner<'a> {
    /// Set once the server is to end: then nobody accepts any more, and an accept that fails is no
    /// fault. Who waits in an accept must be woken. Where there is none, nobody may end it.
    pub ending: Option<&'a AtomicBool>,
    /// How long each wait for a peer lasts at most: to be connected, for a byte to come, or for
    /// room to write one. Time runs only while the server waits. Where there is none, a wait has no
    /// end. Who comes for a page, or to correct, has so long in all to ask, and so long to read,
    /// but 5 seconds and half a minute at most, also where there is none.
    pub idle: Option<Duration>,
    /// How many bytes of memory the operations may hold that were put or loaded last: they are not
    /// read again while they are remembered.
    pub recent: usize,
    /// The file that tells how many operations the site has held, where that is kept.
    pub held: Option<&'a Held>,
    /// Whether what is served is told on standard error: a line for each association, exchange and
    /// connection for a page or to the desk, and for each peer or store that is not.
    pub is_verbose: bool,
}

impl<'a> Manner<'a> {
    /// The site holds so many operations more.
    pub(crate) fn add_held<S: Wait>(self, rt: &S, alloc: Global, more: u64) {
        if let Some(held) = self.held {
            held.add(rt, alloc, more);
        }
    }

    /// Whether somebody has ended the server.
    pub(crate) fn is_ended(self) -> bool
        ensures asked { IsTrue result → IsSome self.entry.ending }
    {
        match self.ending {
            Some(ending) => ending.load(Ordering::SeqCst),
            None => false,
        }
    }
}
