//! Reading frames from a device.

ghost use Rattle.std.specs.Prelude.{◌≡◌, ◌<◌, ◌≤◌, ◌+◌, ◌++◌, IfOk, IfErr, OnOk, OnErr, length, take, drop};
ghost use Rattle.std.specs.Io.KnownBytes.{Consumes, IsAtEnd, Keeps};
ghost use Rattle.devices.specs.Failures.{Counts};
ghost use Rattle.exchange_frames.specs.Header.{header_text};
ghost use Rattle.exchange.specs.Hearing.{Fails, Stopped, Heard, Unheard, HeardBody, UnheardBody};

use crate::fault::ExchangeFault;
use bytes::Bytes;
use devices::{DeviceFault, Source};
use exchange_frames::{Frame, FrameHeader, HEADER_LENGTH, read_frame_body, read_frame_header};
use std::alloc::Global;

/// Reads once to the place behind the first `filled` bytes.
fn read_behind<R: Source>(
    reader: &mut R,
    buffer: &mut [u8],
    filled: usize,
) -> Result<usize, DeviceFault>
    requires { filled < length buffer.old }
    ensures front { take filled buffer.new ≡ take filled buffer.old }
    ensures long { length buffer.new ≡ length buffer.old }
    ensures count { IfOk result (λ count. filled + count ≤ length buffer.old) }
    ensures read { IfOk result (λ count. Consumes (R.remaining reader.old)
        (R.remaining reader.new) (take count (drop filled buffer.new))) }
    ensures end { IfOk result (λ count. count ≡ 0 → IsAtEnd (R.remaining reader.new)) }
    ensures kept { OnErr result (Keeps (R.remaining reader.old) (R.remaining reader.new)) }
    ensures counted { Counts (R.failures reader.old) (R.failures reader.new) result }
{
    reader.read(&mut buffer[filled..])
}

/// Reads so many bytes as the buffer has, by at most `reads` reads, which are counted down.
fn fill<R: Source>(reader: &mut R, reads: &mut u64, buffer: &mut [u8]) -> Result<(), ExchangeFault>
    ensures long { length buffer.new ≡ length buffer.old }
    ensures ok { OnOk result (Consumes (R.remaining reader.old) (R.remaining reader.new)
        buffer.new) }
    ensures many { OnOk result (reads.old ≤ reads.new + length buffer.new) }
    ensures err { IfErr result (Stopped (R.remaining reader.old) (R.remaining reader.new)
        (length buffer.old) reads.old) }
    ensures failed { Fails result (R.failures reader.old) (R.failures reader.new) }
{
    let mut filled = 0;
    while filled < buffer.len() {
        if *reads == 0 {
            return Err(ExchangeFault::Turns);
        }
        *reads -= 1;
        match read_behind(reader, buffer, filled) {
            Ok(0) => return Err(ExchangeFault::BadFrame),
            Ok(count) => filled += count,
            Err(_failed) => return Err(ExchangeFault::Io),
        }
    }
    Ok(())
}

/// Reads so many bytes to a buffer of that size.
fn hear_bytes<R: Source>(
    alloc: Global,
    reader: &mut R,
    reads: &mut u64,
    wanted: usize,
) -> Result<Bytes, ExchangeFault>
    ensures ok { IfOk result (Consumes (R.remaining reader.old) (R.remaining reader.new)) }
    ensures long { IfOk result (λ body. length body ≡ wanted) }
    ensures many { IfOk result (λ body. reads.old ≤ reads.new + length body) }
    ensures err { IfErr result (Stopped (R.remaining reader.old) (R.remaining reader.new) wanted
        reads.old) }
    ensures failed { Fails result (R.failures reader.old) (R.failures reader.new) }
{
    let mut body = Vec::new(alloc);
    body.resize(wanted, 0)?;
    fill(reader, reads, body.as_mut_slice())?;
    Ok(Bytes::from_vec(body)?)
}

/// Reads the body behind a header, to a buffer of its size. A GIVE's operation shares it.
fn hear_body<R: Source>(
    alloc: Global,
    reader: &mut R,
    reads: &mut u64,
    header: &FrameHeader,
) -> Result<Frame, ExchangeFault>
    ensures ok { IfOk result (HeardBody (R.remaining reader.old) (R.remaining reader.new)
        reads.old reads.new header.now) }
    ensures err { IfErr result (UnheardBody (R.remaining reader.old) (R.remaining reader.new)
        reads.old header.now) }
    ensures failed { Fails result (R.failures reader.old) (R.failures reader.new) }
{
    let body = hear_bytes(alloc, reader, reads, header.body_length())?;
    Ok(read_frame_body(alloc, header, body)?)
}

/// Reads a frame, and no byte behind it, by at most `reads` reads, which are counted down. A
/// stream that ends before it does is `BadFrame`.
pub(crate) fn hear<R: Source>(
    alloc: Global,
    reader: &mut R,
    reads: &mut u64,
) -> Result<Frame, ExchangeFault>
    ensures ok { IfOk result (Heard (R.remaining reader.old) (R.remaining reader.new) reads.old
        reads.new) }
    ensures err { IfErr result (Unheard (R.remaining reader.old) (R.remaining reader.new)
        reads.old) }
    ensures failed { Fails result (R.failures reader.old) (R.failures reader.new) }
{
    let mut head = [0; HEADER_LENGTH];
    fill(reader, reads, &mut head)?;
    let header = read_frame_header(&head)?;
    hear_body(alloc, reader, reads, &header)
}
