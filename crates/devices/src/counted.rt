//! Devices of std, with a count of their failures.

ghost use Rattle.std.specs.Prelude.{◌≡◌, ◌+◌, min};
ghost use Rattle.devices.specs.Failures.{MOST_FAILURES};

use crate::fault::DeviceFault;
use crate::sink::Sink;
use crate::source::Source;
use std::io::{Read, Write};

/// A reader or a writer of std, such as standard input and output. A call that was interrupted has
/// failed as any other.
#[derive(Debug, Drop)]
pub struct Counted<D> {
    device: D,
    failures: u64,
}

pub(crate) fn one_more(failures: u64) -> u64
    ensures { result ≡ min (failures + 1) MOST_FAILURES }
{
    failures.saturating_add(1)
}

impl<D> Counted<D> {
    /// The device, which has not failed yet.
    pub fn new(device: D) -> Counted<D>
        ensures device { result.device ≡ device }
        ensures failures { result.failures ≡ 0 }
    {
        Counted {
            device,
            failures: 0,
        }
    }

    /// How often the device has failed, at most 18,446,744,073,709,551,615.
    pub fn failures(&self) -> u64
        ensures { result ≡ self.now.failures }
    {
        self.failures
    }
}

impl<R: Read> Source for Counted<R> {
    ghost remaining = { λ c. R.remaining c.device };

    ghost failures = { λ c. c.failures };

    fn read(&mut self, buffer: &mut [u8]) -> Result<usize, DeviceFault> {
        match self.device.read(buffer) {
            Ok(count) => Ok(count),
            Err(_) => {
                self.failures = one_more(self.failures);
                Err(DeviceFault)
            }
        }
    }
}

impl<W: Write> Sink for Counted<W> {
    ghost contents = { λ c. W.contents c.device };

    ghost failures = { λ c. c.failures };

    fn write(&mut self, bytes: &[u8]) -> Result<usize, DeviceFault> {
        match self.device.write(bytes) {
            Ok(count) if count > 0 || bytes.is_empty() => Ok(count),
            _ => {
                self.failures = one_more(self.failures);
                Err(DeviceFault)
            }
        }
    }
}
