//! Writers whose failures are counted.

ghost use Rattle.std.specs.Prelude.{◌≡◌, ◌<◌, List, ℕ, Option, IfOk, OnOk, OnErr, length, take};
ghost use Rattle.std.specs.Io.{WritesAtMost};
ghost use Rattle.std.specs.Io.KnownBytes.{Appends, WriteAppends};
ghost use Rattle.devices.specs.Failures.{Counts};

use crate::fault::DeviceFault;

/// What bytes are written to.
pub trait Sink {
    // The bytes that it holds, where they are known.
    ghost contents: { Self → Option (List ℕ) };

    // How often a write has failed.
    ghost failures: { Self → ℕ };

    /// Writes some bytes of the front of `bytes`, and says how many. A write that takes no byte of
    /// a text that has some has failed. A failed write adds no byte.
    fn write(&mut self, bytes: &[u8]) -> Result<usize, DeviceFault>
        ensures bound { WritesAtMost result bytes.now }
        ensures some { IfOk result (λ n. 0 < length bytes.now → 0 < n) }
        ensures bytes { WriteAppends (contents self.old) (contents self.new) result bytes.now }
        ensures counted { Counts (failures self.old) (failures self.new) result };
}

/// Writes the whole of `bytes`. Where the device fails, a front of it has been written.
pub fn put_all<W: Sink>(sink: &mut W, bytes: &[u8]) -> Result<(), DeviceFault>
    ensures ok { OnOk result (Appends (W.contents sink.old) (W.contents sink.new) bytes.now) }
    ensures err { OnErr result ((n : ℕ) × Appends (W.contents sink.old) (W.contents sink.new) (take
        n bytes.now)) }
    ensures counted { Counts (W.failures sink.old) (W.failures sink.new) result }
{
    let mut done = 0;
    while done < bytes.len() {
        done += sink.write(&bytes[done..])?;
    }
    Ok(())
}
