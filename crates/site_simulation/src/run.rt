//! A script's answers, over any source and sink.

ghost use Rattle.std.specs.Prelude.{◌≡◌, List, ℕ, Option, IfOk, IfErr, MatchBool};
ghost use Rattle.std.specs.Prelude.{false};
ghost use Rattle.std.specs.Io.KnownBytes.{IsAtEnd};
ghost use Rattle.devices.specs.Failures.{Rose};
ghost use Rattle.site_simulation.specs.Simulation.{Owes, Turn, Ends, BreaksOff, WroteAll, TookBytes};
ghost use Rattle.site_simulation.specs.Simulation.{fault_of_line, tells_read, tells_write};
ghost use Rattle.site_simulation.specs.Simulation.{number_of};

use crate::progress::{LineFault, Progress};
use devices::{Sink, Source, put_all};
use std::alloc::{AllocError, AllocFailed, Global};
use thiserror::Error;

/// How many bytes are read at once.
const PIECE: usize = 8192;

/// The most reads of a run.
const MOST_READS: u64 = 4_294_967_296;

/// Why a script ended before its input did. What was printed before stands.
#[derive(Clone, Copy, Debug, PartialEq, Eq, Error)]
pub enum SimFault {
    #[error("the input could not be read")]
    Read,
    #[error("the answers could not be written")]
    Write,
    /// A line has more than 65,536 bytes. The answers of the lines before it stand.
    #[error("a line is too long")]
    LongLine,
    #[error("memory ran out")]
    Memory,
    /// The input did not end within 4,294,967,296 reads.
    #[error("the input does not end")]
    Turns,
}

impl SimFault {
    /// The public number of the fault, from 1 to 5.
    pub fn number(self) -> u8
        ensures { result ≡ number_of self }
    {
        match self {
            SimFault::Read => 1,
            SimFault::Write => 2,
            SimFault::LongLine => 3,
            SimFault::Memory => 4,
            SimFault::Turns => 5,
        }
    }
}

impl From<AllocError> for SimFault {
    ghost use Rattle.std.specs.Prelude.{◌≡◌};
    ghost use Rattle.site_simulation.specs.declared.run.SimFault.TheVariants.{Memory};

    ghost from_gives = { λ _ e. e ≡ Memory };

    fn from(_error: AllocError) -> SimFault {
        SimFault::Memory
    }
}

impl<T: Drop> From<AllocFailed<T>> for SimFault {
    ghost use Rattle.std.specs.Prelude.{◌≡◌};
    ghost use Rattle.site_simulation.specs.declared.run.SimFault.TheVariants.{Memory};

    ghost from_gives = { λ _ e. e ≡ Memory };

    fn from(_error: AllocFailed<T>) -> SimFault {
        SimFault::Memory
    }
}

/// What the fault of a line is in a script.
fn fault_of(fault: LineFault) -> SimFault
    ensures { result ≡ fault_of_line fault }
{
    match fault {
        LineFault::LongLine => SimFault::LongLine,
        LineFault::Memory => SimFault::Memory,
        LineFault::Turns => SimFault::Turns,
    }
}

/// One read, and what it brings. It says how many bytes were read.
fn step<R: Source, W: Sink>(
    progress: &mut Progress,
    out: &mut Vec<u8>,
    reader: &mut R,
    writer: &mut W,
) -> Result<usize, SimFault>
    ensures end { IfOk result (λ count. count ≡ 0 → IsAtEnd (R.remaining reader.new)) }
    ensures took { IfOk result (λ count.
        TookBytes count (R.remaining reader.old) (R.remaining reader.new)) }
    ensures turn { (input before : Option (List ℕ)) →
        Owes input before (R.remaining reader.old) (W.contents writer.old) progress.old →
        Turn input before result (R.remaining reader.new) (W.contents writer.new) progress.new }
    ensures read { MatchBool (tells_read result)
        (Rose (R.failures reader.old) (R.failures reader.new))
        (R.failures reader.new ≡ R.failures reader.old) }
    ensures write { MatchBool (tells_write result)
        (Rose (W.failures writer.old) (W.failures writer.new))
        (W.failures writer.new ≡ W.failures writer.old) }
{
    let mut buffer = [0; PIECE];
    let Ok(count) = reader.read(&mut buffer) else {
        return Err(SimFault::Read);
    };
    out.clear();
    let fed = progress.feed_all(&buffer[..count], out);
    if let Err(_failed) = put_all(writer, out.as_slice()) {
        return Err(SimFault::Write);
    }
    match fed {
        Ok(()) => Ok(count),
        Err(fault) => Err(fault_of(fault)),
    }
}

/// The last line, which has no end.
fn finish<W: Sink>(
    progress: &mut Progress,
    out: &mut Vec<u8>,
    writer: &mut W,
) -> Result<u64, SimFault>
    ensures end { (input before rest : Option (List ℕ)) → IsAtEnd rest →
        Owes input before rest (W.contents writer.old) progress.old →
        Ends input before result (W.contents writer.new) }
    ensures read { tells_read result ≡ false }
    ensures write { MatchBool (tells_write result)
        (Rose (W.failures writer.old) (W.failures writer.new))
        (W.failures writer.new ≡ W.failures writer.old) }
{
    out.clear();
    let lines = match progress.finish(out) {
        Ok(lines) => lines,
        Err(fault) => return Err(fault_of(fault)),
    };
    if let Err(_failed) = put_all(writer, out.as_slice()) {
        return Err(SimFault::Write);
    }
    Ok(lines)
}

/// Prints what the lines of a script print, and nothing else, however the reads are cut. It says
/// how many lines there are.
///
/// `Turns` is told after 4,294,967,296 reads, each of which took a byte or more.
pub fn simulate<R: Source, W: Sink>(
    alloc: Global,
    reader: &mut R,
    writer: &mut W,
) -> Result<u64, SimFault>
    ensures all { IfOk result
        (WroteAll (R.remaining reader.old) (W.contents writer.old) (W.contents writer.new)) }

    // What a fault leaves written: whole lines, but where a write failed.
    ensures broken { IfErr result (λ fault. BreaksOff (R.remaining reader.old)
        (W.contents writer.old) fault (W.contents writer.new)) }

    // A fault of a device is told exactly where one was counted.
    ensures read { MatchBool (tells_read result)
        (Rose (R.failures reader.old) (R.failures reader.new))
        (R.failures reader.new ≡ R.failures reader.old) }
    ensures write { MatchBool (tells_write result)
        (Rose (W.failures writer.old) (W.failures writer.new))
        (W.failures writer.new ≡ W.failures writer.old) }
{
    let Ok(mut progress) = Progress::new(alloc) else {
        return Err(SimFault::Memory);
    };
    let mut out = Vec::new(alloc);
    for _ in 0..MOST_READS {
        match step(&mut progress, &mut out, reader, writer) {
            Ok(0) => return finish(&mut progress, &mut out, writer),
            Ok(_) => {}
            Err(fault) => return Err(fault),
        }
    }
    Err(SimFault::Turns)
}
