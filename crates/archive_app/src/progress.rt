//! How far a long command is, on standard error where that is a terminal.
//!
//! A line that standard error refuses is dropped.

ghost use Rattle.std.specs.Prelude.{◌≡◌};

use devices::{DeviceFault, Sink, Source};
use op_shelf::Testing;
use std::io::IsTerminal;
use std::rt::HostRuntime;

/// How many bytes one way are between two lines: 16 MiB.
const STEP: u64 = 16_777_216;

/// Who reads how far a command is, if somebody does.
#[derive(Clone, Copy)]
pub struct Progress<'a> {
    reader: Option<&'a HostRuntime>,
}

impl<'a> Progress<'a> {
    /// Tells a terminal, and nothing where standard error is none.
    pub fn of(rt: &'a HostRuntime) -> Progress<'a> {
        let reader = if rt.stderr().is_terminal() {
            Some(rt)
        } else {
            None
        };
        Progress { reader }
    }

    /// The operations in a file are read.
    pub fn begins(self, file: &str) {
        if let Some(rt) = self.reader {
            let _ = eprintln!(rt; "reading {file}");
        }
    }

    fn went(self, way: &str, bytes: u64) {
        if let Some(rt) = self.reader {
            let megabytes = bytes / 1_000_000;
            let _ = eprintln!(rt; "{way} {megabytes} MB");
        }
    }
}

impl Progress<'_> {
    /// So many operations were read.
    pub fn has_read(self, operations: usize) {
        if let Some(rt) = self.reader {
            let _ = eprintln!(rt; "taking {operations} operations");
        }
    }
}

/// How many operations are moved between two lines.
const MOVED: usize = 1_024;

impl Progress<'_> {
    /// So many operations are put next.
    pub fn moves(self, operations: usize) {
        if let Some(rt) = self.reader {
            let _ = eprintln!(rt; "moving {operations} operations");
        }
    }

    /// So many of them were put.
    pub fn has_put(self, operations: usize) {
        if let Some(rt) = self.reader {
            if operations % MOVED == 0 {
                let _ = eprintln!(rt; "moved {operations} operations");
            }
        }
    }
}

/// How many operations are tested between two lines.
const TESTED: u64 = 1_024;

impl Testing for Progress<'_> {
    fn has_tested(&self, operations: u64) {
        if let Some(rt) = self.reader {
            if operations % TESTED == 0 {
                let _ = eprintln!(rt; "tested {operations} operations");
            }
        }
    }
}

/// The bytes that went one way.
#[derive(Drop)]
struct Meter<'a> {
    progress: Progress<'a>,
    way: &'static str,
    count: u64,
}

impl<'a> Meter<'a> {
    fn new(progress: Progress<'a>, way: &'static str) -> Meter<'a> {
        Meter {
            progress,
            way,
            count: 0,
        }
    }

    /// Counts some bytes more, and tells of each step that is passed.
    fn count(&mut self, more: usize) {
        let steps = self.count / STEP;
        self.count = self.count.saturating_add(more as u64);
        if steps < self.count / STEP {
            self.progress.went(self.way, self.count);
        }
    }
}

/// A reader that tells how much it has read. Contracts see the reader.
#[derive(Drop)]
pub struct Reading<'a, R: Source> {
    source: R,
    meter: Meter<'a>,
}

impl<'a, R: Source> Reading<'a, R> {
    pub fn new(source: R, progress: Progress<'a>) -> Reading<'a, R> {
        Reading {
            source,
            meter: Meter::new(progress, "received"),
        }
    }
}

impl<R: Source> Source for Reading<'_, R> {
    ghost remaining = { λ r. R.remaining r.source };

    ghost failures = { λ r. R.failures r.source };

    fn read(&mut self, buffer: &mut [u8]) -> Result<usize, DeviceFault> {
        let count = self.source.read(buffer)?;
        self.meter.count(count);
        Ok(count)
    }
}

/// A writer that tells how much it has written. Contracts see the writer.
#[derive(Drop)]
pub struct Writing<'a, W: Sink> {
    sink: W,
    meter: Meter<'a>,
}

impl<'a, W: Sink> Writing<'a, W> {
    pub fn new(sink: W, progress: Progress<'a>) -> Writing<'a, W> {
        Writing {
            sink,
            meter: Meter::new(progress, "sent"),
        }
    }
}

impl<W: Sink> Sink for Writing<'_, W> {
    ghost contents = { λ w. W.contents w.sink };

    ghost failures = { λ w. W.failures w.sink };

    fn write(&mut self, bytes: &[u8]) -> Result<usize, DeviceFault> {
        let count = self.sink.write(bytes)?;
        self.meter.count(count);
        Ok(count)
    }
}
