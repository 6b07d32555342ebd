//! The titles of an association, what ended it early, and which stores it refused, read off the
//! bytes of both ways.

ghost use Rattle.std.specs.Prelude.{◌≡◌};

use crate::answers::Answers;
use crate::ends::{Abort, Deaf, Ends, Rejection};
use devices::{DeviceFault, Sink, Source};
use log::Log;
use std::time::Clock;

/// How many bytes an A-ASSOCIATE-RQ has up to the end of its titles (PS3.8, section 9.3.2).
const FRONT: usize = 42;

/// The type of an A-ASSOCIATE-RQ, its first byte.
const REQUEST: u8 = 1;

/// The first bytes of a stream.
#[derive(Clone, Copy)]
pub(crate) struct Front {
    bytes: [u8; FRONT],
    count: usize,
}

impl Front {
    pub fn new() -> Front {
        Front {
            bytes: [0; FRONT],
            count: 0,
        }
    }

    /// Keeps the bytes that come next, as far as there is room.
    fn keep(&mut self, bytes: &[u8]) {
        for byte in bytes {
            if FRONT <= self.count {
                return;
            }
            self.bytes[self.count] = *byte;
            self.count += 1;
        }
    }

    /// Whether it begins an A-ASSOCIATE-RQ, and has its titles.
    fn has_titles(&self) -> bool {
        self.count == FRONT && self.bytes[0] == REQUEST
    }

    /// The called title without outer spaces, or nothing where none came.
    pub fn called(&self) -> &[u8] {
        if self.has_titles() {
            self.bytes[10..26].trim_ascii()
        } else {
            &[]
        }
    }

    /// The calling title, likewise.
    pub fn calling(&self) -> &[u8] {
        if self.has_titles() {
            self.bytes[26..42].trim_ascii()
        } else {
            &[]
        }
    }
}

/// A reader whose first bytes are kept. Contracts see the reader.
#[derive(Drop)]
pub(crate) struct Heard<R: Source> {
    source: R,
    front: Front,
    ends: Ends,
}

impl<R: Source> Heard<R> {
    pub fn new(source: R) -> Heard<R> {
        Heard {
            source,
            front: Front::new(),
            ends: Ends::new(),
        }
    }

    /// What was read first.
    pub fn front(&self) -> Front {
        self.front
    }

    /// The peer's abort, if one came.
    pub fn abort(&self) -> Option<Abort> {
        self.ends.abort()
    }
}

impl<R: Source> Source for Heard<R> {
    ghost remaining = { λ h. R.remaining h.source };

    ghost failures = { λ h. R.failures h.source };

    fn read(&mut self, buffer: &mut [u8]) -> Result<usize, DeviceFault> {
        let count = self.source.read(buffer)?;
        self.front.keep(&buffer[..count]);
        self.ends.take(&buffer[..count], &mut Deaf);
        Ok(count)
    }
}

/// A writer whose rejections and aborts are noted, whose rows are counted, and whose refused stores
/// are told. Contracts see the writer.
#[derive(Drop)]
pub(crate) struct Said<'a, W: Sink, S: Clock + Log> {
    sink: W,
    ends: Ends,
    answers: Answers<'a, S>,
}

impl<'a, W: Sink, S: Clock + Log> Said<'a, W, S> {
    pub fn new(sink: W, answers: Answers<'a, S>) -> Said<'a, W, S> {
        Said {
            sink,
            ends: Ends::new(),
            answers,
        }
    }

    /// The rejection that was sent, if one was.
    pub fn rejection(&self) -> Option<Rejection> {
        self.ends.rejection()
    }

    /// The abort that was sent, likewise.
    pub fn abort(&self) -> Option<Abort> {
        self.ends.abort()
    }

    /// How many rows were sent in answers to queries.
    pub fn rows(&self) -> u64 {
        self.answers.rows()
    }
}

impl<'a, W: Sink, S: Clock + Log> Sink for Said<'a, W, S> {
    ghost contents = { λ s. W.contents s.sink };

    ghost failures = { λ s. W.failures s.sink };

    fn write(&mut self, bytes: &[u8]) -> Result<usize, DeviceFault> {
        let count = self.sink.write(bytes)?;
        self.ends.take(&bytes[..count], &mut self.answers);
        Ok(count)
    }
}
