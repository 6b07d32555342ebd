//! Whole exchanges over devices in memory: bytes in, bytes out.

use crate::associations::words::Words;
use crate::exchanges::frames::put_frames;
use crate::exchanges::pair::{copy_of, held_by};
use crate::text::{RowFault, put_fault};
use devices::{Store, Supply};
use exchange::{Ended, ExchangeFault, Role, run_exchange};
use octets::Octets;
use site_state::WholeSite;
use std::alloc::{AllocError, Global};

/// How an exchange is read and written: each read gives `piece` bytes at most, the read `fails_at`
/// fails, and so does a write for which there is no room.
#[derive(Clone, Copy)]
pub struct Way {
    piece: usize,
    fails_at: Option<u64>,
    room: usize,
}

impl Way {
    /// Whole reads, and devices that do not fail.
    pub const WHOLE: Way = Way {
        piece: 10_000_000,
        fails_at: None,
        room: 10_000_000,
    };

    /// Reads of so many bytes, of which that of a number fails, or none for 0, and so much room.
    pub fn of(piece: u32, failing: u32, room: u32) -> Way {
        let failing = u64::from(failing);
        Way {
            piece: piece as usize,
            fails_at: if failing == 0 { None } else { Some(failing) },
            room: room as usize,
        }
    }
}

/// What a side came to.
struct Ran {
    ended: Result<Ended, ExchangeFault>,
    written: Vec<u8>,
    held: usize,
}

impl Drop for Ran {
    fn drop(self) {
        let Ran {
            ended: _,
            written: _,
            held: _,
        } = self;
    }
}

/// A side of an exchange with a copy of a site, which takes what it lacks. A writer that fails with
/// room to spare was refused memory.
fn run(
    alloc: Global,
    role: Role,
    site: &WholeSite,
    input: &[u8],
    way: Way,
) -> Result<Ran, RowFault> {
    let mut copy = copy_of(alloc, site)?;
    let mut supply = Supply::new(Octets::from_slice(alloc, input)?, way.piece, way.fails_at);
    let mut store = Store::new(alloc, way.room);
    let ended = run_exchange(alloc, role, &mut supply, &mut store, &mut copy);
    let written = Vec::from_slice(alloc, store.as_slice())?;
    if store.failures() > 0 && written.len() < way.room {
        return Err(RowFault::Memory);
    }
    let held = held_by(&copy);
    Ok(Ran {
        ended,
        written,
        held,
    })
}

fn put_ended(out: &mut String, ended: Ended) -> Result<(), AllocError> {
    let Ended {
        given,
        unread: _,
        taken,
        finished,
        agreed: _,
        whole: _,
    } = ended;
    out.push_str(if finished { "finished" } else { "unfinished" })?;
    write!(out, ", {given} given, {taken} taken")
}

impl Ran {
    /// Puts how it ended, and how many operations are held then.
    fn put_end(&self, out: &mut String) -> Result<(), AllocError> {
        match self.ended {
            Ok(ended) => put_ended(out, ended)?,
            Err(fault) => put_fault(out, fault.number(), fault)?,
        }
        let held = self.held;
        write!(out, ", {held} held")
    }

    /// Puts that, and what was written.
    fn put_all(&self, out: &mut String, words: &Words) -> Result<(), AllocError> {
        self.put_end(out)?;
        let size = self.written.len();
        write!(out, ", {size} bytes written\n ")?;
        put_frames(out, words, self.written.as_slice())
    }
}

/// Puts what a side tells for what it hears.
pub fn put_run(
    alloc: Global,
    out: &mut String,
    words: &Words,
    role: Role,
    site: &WholeSite,
    input: &[u8],
    way: Way,
) -> Result<(), RowFault> {
    let size = input.len();
    write!(out, "{size} bytes: ")?;
    let ran = run(alloc, role, site, input, way)?;
    Ok(ran.put_all(out, words)?)
}
