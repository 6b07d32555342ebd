//! A source in memory that cuts its bytes and fails when it is told to.

ghost use Rattle.std.specs.Prelude.{◌≡◌, Some, IfOk, length, max, min, take, is_err};
ghost use Rattle.std.specs.Io.{ReadsAtMost};
ghost use Rattle.std.specs.Io.KnownBytes.{ReadConsumes};
ghost use Rattle.devices.specs.Failures.{Counts};
ghost use Rattle.devices.specs.Memory.{after_a_read as after_one_read, fails_next as fails_at_next};

use crate::counted::one_more;
use crate::fault::DeviceFault;
use crate::source::Source;
use octets::Octets;
use std::marker::Model;

/// Bytes in memory, read in pieces. One read fails, if it is asked to.
#[derive(Debug, Drop)]
pub struct Supply {
    bytes: Octets,
    taken: usize,
    piece: usize,
    reads_to_failure: Option<u64>,
    failures: u64,
}

impl Model for Supply {
    ghost use Rattle.std.specs.Prelude.{◌<◌, ◌≤◌, drop, length};
    ghost use Rattle.devices.specs.Memory.{Supplied};

    ghost Value = { Supplied };

    ghost view = { λ s. record {
      bytes = drop s.taken s.bytes;
      piece = s.piece;
      reads_to_failure =
          s.reads_to_failure;
      failures = s.failures;
    } };

    ghost invariant = { λ s. (s.taken ≤ length s.bytes) × (0 < s.piece) };
}

impl Supply {
    /// The bytes, of which each read gives `piece` at most, and at least one. The read of number
    /// `fails_at`, counted from 1, fails, and those after it go on.
    pub fn new(bytes: Octets, piece: usize, fails_at: Option<u64>) -> Supply
        ensures { result ≡ record {
          bytes = bytes;
          piece = max piece 1;
          reads_to_failure = fails_at;
          failures = 0;
        } }
    {
        Supply {
            bytes,
            taken: 0,
            piece: piece.max(1),
            reads_to_failure: fails_at,
            failures: 0,
        }
    }

    /// How often a read has failed.
    pub fn failures(&self) -> u64
        ensures { result ≡ self.now.failures }
    {
        self.failures
    }
}

/// The reads that are left up to the one that fails, after one more.
fn after_a_read(reads_to_failure: Option<u64>) -> Option<u64>
    ensures { result ≡ after_one_read reads_to_failure }
{
    match reads_to_failure {
        None => None,
        Some(reads) => {
            if reads == 0 {
                return None;
            }
            Some(reads - 1)
        }
    }
}

/// Whether the next read is the one that fails.
fn fails_next(reads_to_failure: Option<u64>) -> bool
    ensures { result ≡ fails_at_next reads_to_failure }
{
    match reads_to_failure {
        None => false,
        Some(reads) => reads == 1,
    }
}

/// Puts at most `most` bytes of the front of `bytes` to the front of `buffer`.
fn put_piece(bytes: &[u8], buffer: &mut [u8], most: usize) -> usize
    ensures count { result ≡ min (min (length bytes.now) (length buffer.old)) most }
    ensures put { take result buffer.new ≡ take result bytes.now }
{
    let count = bytes.len().min(buffer.len()).min(most);
    buffer[..count].copy_from_slice(&bytes[..count]);
    count
}

impl Source for Supply {
    ghost remaining = { λ s. Some s.bytes };

    ghost failures = { λ s. s.failures };

    fn read(&mut self, buffer: &mut [u8]) -> Result<usize, DeviceFault>
        ensures bound { ReadsAtMost result buffer.new }
        ensures bytes { ReadConsumes (Some self.old.bytes) (Some self.new.bytes) result buffer.new }
        ensures counted { Counts self.old.failures self.new.failures result }

        // What a test told it: where it fails, and how many bytes it gives else.
        ensures fails { is_err result ≡ fails_at_next self.old.reads_to_failure }
        ensures piece { IfOk result (λ count. count
            ≡ min (min (length self.old.bytes) (length buffer.old)) self.old.piece) }
        ensures next { self.new.reads_to_failure ≡ after_one_read self.old.reads_to_failure }
    {
        let fails = fails_next(self.reads_to_failure);
        self.reads_to_failure = after_a_read(self.reads_to_failure);
        if fails {
            self.failures = one_more(self.failures);
            return Err(DeviceFault);
        }
        let rest = &self.bytes.as_slice()[self.taken..];
        let count = put_piece(rest, buffer, self.piece);
        self.taken += count;
        Ok(count)
    }
}
