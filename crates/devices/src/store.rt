//! A sink in memory that has no more room than it is told.

ghost use Rattle.std.specs.Prelude.{◌≡◌, ◌-◌, ◌<◌, [], Some, IfOk, OnErr, length, min};
ghost use Rattle.std.specs.Io.{WritesAtMost};
ghost use Rattle.std.specs.Io.KnownBytes.{WriteAppends};
ghost use Rattle.devices.specs.Failures.{Counts};

use crate::counted::one_more;
use crate::fault::DeviceFault;
use crate::sink::Sink;
use std::alloc::Global;
use std::marker::Model;

/// Bytes in memory. A write fails where there is no room, or no memory, for one byte more.
#[derive(Debug, Drop)]
pub struct Store {
    bytes: Vec<u8>,
    room: usize,
    failures: u64,
}

impl Model for Store {
    ghost use Rattle.devices.specs.Memory.{Stored};

    ghost Value = { Stored };

    ghost view = { λ s. record { bytes = s.bytes.items; room = s.room; failures = s.failures } };
}

impl Store {
    /// No bytes, and room for `room`.
    pub fn new(alloc: Global, room: usize) -> Store
        ensures { result ≡ record { bytes = []; room = room; failures = 0 } }
    {
        Store {
            bytes: Vec::new(alloc),
            room,
            failures: 0,
        }
    }

    /// The bytes that were written.
    pub fn as_slice(&self) -> &[u8]
        ensures { result.now ≡ self.now.bytes }
    {
        self.bytes.as_slice()
    }

    /// How often a write has failed.
    pub fn failures(&self) -> u64
        ensures { result ≡ self.now.failures }
    {
        self.failures
    }
}

impl Sink for Store {
    ghost contents = { λ s. Some s.bytes };

    ghost failures = { λ s. s.failures };

    fn write(&mut self, bytes: &[u8]) -> Result<usize, DeviceFault>
        ensures bound { WritesAtMost result bytes.now }
        ensures some { IfOk result (λ count. 0 < length bytes.now → 0 < count) }
        ensures bytes { WriteAppends (Some self.old.bytes) (Some self.new.bytes) result bytes.now }
        ensures counted { Counts self.old.failures self.new.failures result }

        // What a test told it: what there is room for is written, and the room is less by that.
        ensures room { IfOk result (λ count. count ≡ min (length bytes.now) self.old.room) }
        ensures left { IfOk result (λ count. self.new.room ≡ self.old.room - count) }
        ensures kept { OnErr result (self.new.room ≡ self.old.room) }
    {
        if bytes.is_empty() {
            return Ok(0);
        }
        let count = bytes.len().min(self.room);
        if count == 0 || self.bytes.extend_from_slice(&bytes[..count]).is_err() {
            self.failures = one_more(self.failures);
            return Err(DeviceFault);
        }
        self.room -= count;
        Ok(count)
    }
}
