//! Readers whose failures are counted.

ghost use Rattle.std.specs.Prelude.{List, ℕ, Option};
ghost use Rattle.std.specs.Io.{ReadsAtMost};
ghost use Rattle.std.specs.Io.KnownBytes.{ReadConsumes};
ghost use Rattle.devices.specs.Failures.{Counts};

use crate::fault::DeviceFault;

/// What bytes are read from.
pub trait Source {
    // The bytes that are still to come, where they are known.
    ghost remaining: { Self → Option (List ℕ) };

    // How often a read has failed.
    ghost failures: { Self → ℕ };

    /// Reads some bytes to the front of `buffer`, and says how many: none only at the end, or
    /// where there is no room. A failed read takes no byte.
    fn read(&mut self, buffer: &mut [u8]) -> Result<usize, DeviceFault>
        ensures bound { ReadsAtMost result buffer.new }
        ensures bytes { ReadConsumes (remaining self.old) (remaining self.new) result buffer.new }
        ensures counted { Counts (failures self.old) (failures self.new) result };
}
