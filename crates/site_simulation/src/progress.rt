//! A script in the middle of its input.

ghost use Rattle.std.specs.Prelude.{◌≡◌, ◌≤◌, ◌<◌, ◌+◌, ◌++◌, ◌∷◌, [], OnOk, OnErr, IfOk, IsErrOf};
ghost use Rattle.std.specs.Prelude.{length};
ghost use Rattle.site_script.specs.Commands.{command_of as command_of_line};
ghost use Rattle.site_script.specs.Fitting.{IsShort};
ghost use Rattle.site_simulation.specs.Output.{without_cr as without_cr_of, output_from};
ghost use Rattle.site_simulation.specs.Output.{count_from, NOTHING};
ghost use Rattle.site_simulation.specs.Script.{printed, after};
ghost use Rattle.site_simulation.specs.Simulation.{Leads, StopsWithin, StopsAtLong, HasLong};
ghost use Rattle.site_simulation.specs.Simulation.{HasTooManyLines, MOST_LINES};

use crate::script::Script;
use site_world::WorldFault;
use std::alloc::{AllocError, AllocFailed, Global};
use std::marker::Model;

/// The most bytes of a line, with its CR and without its LF.
const LONGEST_LINE: usize = 65536;

/// Why a line was not done. It printed nothing.
#[derive(Clone, Copy)]
pub enum LineFault {
    /// It has more than 65,536 bytes.
    LongLine,
    Memory,
    /// 18,446,744,073,709,551,615 lines ended before it.
    Turns,
}

impl From<AllocError> for LineFault {
    ghost use Rattle.std.specs.Prelude.{◌≡◌};
    ghost use Rattle.site_simulation.specs.declared.progress.LineFault.TheVariants.{Memory};

    ghost from_gives = { λ _ e. e ≡ Memory };

    fn from(_error: AllocError) -> LineFault {
        LineFault::Memory
    }
}

impl<T: Drop> From<AllocFailed<T>> for LineFault {
    ghost use Rattle.std.specs.Prelude.{◌≡◌};
    ghost use Rattle.site_simulation.specs.declared.progress.LineFault.TheVariants.{Memory};

    ghost from_gives = { λ _ e. e ≡ Memory };

    fn from(_error: AllocFailed<T>) -> LineFault {
        LineFault::Memory
    }
}

/// What a script has made, the front of the line in hand, and how many lines ended.
pub struct Progress {
    script: Script,
    front: Vec<u8>,
    lines: u64,
    text: Vec<u8>,
}

// It is written out, so that a caller does not prove again how each part is dropped.
impl Drop for Progress {
    fn drop(self) {
        let Progress {
            script: _,
            front: _,
            lines: _,
            text: _,
        } = self;
    }
}

impl Model for Progress {
    ghost use Rattle.site_simulation.specs.Simulation.{Place, place_code};
    ghost use Rattle.site_script.specs.Fitting.{IsShort};

    ghost Value = { Place };

    ghost coded = { place_code };

    ghost view = { λ p. record { state = p.script; front = p.front.items; lines = p.lines } };

    ghost invariant = { λ p. IsShort p.front.items };
}

/// A line that ended, without the CR before its end.
fn without_cr(line: &[u8]) -> &[u8]
    ensures { result.now ≡ without_cr_of line.now }
{
    if !line.is_empty() && line[line.len() - 1] == b'\r' {
        return &line[..line.len() - 1];
    }
    line
}

/// Does what a line asks for, and prints all of its text or nothing.
fn answer(
    script: &mut Script,
    line: &[u8],
    text: &mut Vec<u8>,
    out: &mut Vec<u8>,
) -> Result<(), AllocError>
    requires { IsShort line.now }
    ensures printed { OnOk result
        (out.new.items ≡ out.old.items ++ printed script.old (command_of_line line.now)) }
    ensures after { OnOk result (script.new ≡ after script.old (command_of_line line.now)) }
    ensures nothing { OnErr result (out.new.items ≡ out.old.items) }
{
    text.clear();
    script.line(line, text)?;
    out.extend_from_slice(text.as_slice())
}

/// How many lines stand behind the last end of a line: one, where there are bytes.
fn last_lines(front: &[u8]) -> u64
    ensures { result ≡ count_from front.now [] }
{
    match front {
        [] => 0,
        [_, ..] => 1,
    }
}

impl Progress {
    /// Before the first byte.
    pub fn new(alloc: Global) -> Result<Progress, WorldFault>
        ensures { IfOk result (λ p. p ≡ record { state = NOTHING; front = []; lines = 0 }) }
    {
        Ok(Progress {
            script: Script::new(alloc)?,
            front: Vec::new(alloc),
            lines: 0,
            text: Vec::new(alloc),
        })
    }

    /// How many lines ended.
    pub fn lines(&self) -> u64
        ensures { result ≡ self.now.lines }
    {
        self.lines
    }

    /// Ends a line.
    fn end_line(&mut self, out: &mut Vec<u8>) -> Result<(), LineFault>
        ensures leads { OnOk result
            (Leads self.old out.old.items (10 ∷ []) self.new out.new.items) }
        ensures kept { OnErr result (out.new.items ≡ out.old.items) }
        ensures short { IsErrOf result LineFault.LongLine → ⊥ }
        ensures many { IsErrOf result LineFault.Turns → HasTooManyLines self.old (10 ∷ []) }
    {
        let Some(lines) = self.lines.checked_add(1) else {
            return Err(LineFault::Turns);
        };
        let line = without_cr(self.front.as_slice());
        answer(&mut self.script, line, &mut self.text, out)?;
        self.front.clear();
        self.lines = lines;
        Ok(())
    }

    /// Takes one byte more.
    fn feed(&mut self, byte: u8, out: &mut Vec<u8>) -> Result<(), LineFault>
        ensures leads { OnOk result
            (Leads self.old out.old.items (byte ∷ []) self.new out.new.items) }
        ensures kept { OnErr result (out.new.items ≡ out.old.items) }
        ensures long { IsErrOf result LineFault.LongLine → HasLong self.old (byte ∷ []) }
        ensures many { IsErrOf result LineFault.Turns → HasTooManyLines self.old (byte ∷ []) }
    {
        if byte == b'\n' {
            return self.end_line(out);
        }
        if self.front.len() >= LONGEST_LINE {
            return Err(LineFault::LongLine);
        }
        self.front.push(byte)?;
        Ok(())
    }

    /// Takes some bytes more. On a fault the answers of the lines that ended before it are printed.
    pub fn feed_all(&mut self, bytes: &[u8], out: &mut Vec<u8>) -> Result<(), LineFault>
        ensures leads { OnOk result
            (Leads self.old out.old.items bytes.now self.new out.new.items) }
        ensures within { StopsWithin self.old out.old.items bytes.now out.new.items }
        ensures long { IsErrOf result LineFault.LongLine →
            StopsAtLong self.old out.old.items bytes.now out.new.items }
        ensures many { IsErrOf result LineFault.Turns → HasTooManyLines self.old bytes.now }
    {
        for byte in bytes {
            if let Err(fault) = self.feed(*byte, out) {
                return Err(fault);
            }
        }
        Ok(())
    }

    /// What stands behind the last end of a line is a line, where it has bytes.
    pub fn finish(&mut self, out: &mut Vec<u8>) -> Result<u64, LineFault>
        ensures printed { OnOk result (out.new.items
            ≡ out.old.items ++ output_from self.old.state self.old.front []) }
        ensures counted { IfOk result (λ lines. lines
            ≡ self.old.lines + count_from self.old.front []) }
        ensures kept { OnErr result (out.new.items ≡ out.old.items) }
        ensures short { IsErrOf result LineFault.LongLine → ⊥ }
        ensures many { IsErrOf result LineFault.Turns →
            MOST_LINES < self.old.lines + count_from self.old.front [] }
    {
        let line = self.front.as_slice();
        let Some(lines) = self.lines.checked_add(last_lines(line)) else {
            return Err(LineFault::Turns);
        };
        answer(&mut self.script, line, &mut self.text, out)?;
        Ok(lines)
    }
}
