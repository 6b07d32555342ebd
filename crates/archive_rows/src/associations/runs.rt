//! Associations over devices in memory: bytes in, bytes out.

use crate::associations::ports::{AskedPort, Passed, Refusal, Unloaded};
use crate::associations::words::Words;
use archive_model::View;
use association_run::{End, Outbox, RunFault, run_association};
use devices::{Store, Supply};
use octets::{ListOf, Octets};
use std::alloc::{AllocError, Global};
use ul_state::{Title, Titles};

/// How many bytes there is room for, and are read at once where all are.
const AMPLE: usize = 10_000_000;

/// What an association meets: the port, what an earlier peer has sent it, and the titles.
pub struct Setting {
    pub refusal: Option<Refusal>,
    pub unloaded: Option<Unloaded>,
    pub before: Vec<u8>,
    titles: Titles<View>,
}

impl Drop for Setting {
    fn drop(self) {
        let Setting {
            refusal: _,
            unloaded: _,
            before: _,
            titles: _,
        } = self;
    }
}

/// A title that any may call.
fn title_of(alloc: Global, name: &[u8], value: View) -> Result<Title<View>, AllocError> {
    Ok(Title {
        title: Octets::from_slice(alloc, name)?,
        value,
        callers: ListOf::new(alloc),
    })
}

/// ARCHIVE, which any may call, and QUALITY, which SCU1 alone may.
fn titles_of(alloc: Global) -> Result<Titles<View>, AllocError> {
    let mut quality = title_of(alloc, b"QUALITY", View::Quality)?;
    quality.callers.push(Octets::from_slice(alloc, b"SCU1")?)?;
    let mut list = ListOf::new(alloc);
    list.push(title_of(alloc, b"ARCHIVE", View::Archive)?)?;
    list.push(quality)?;
    Ok(Titles { list })
}

impl Setting {
    pub fn new(alloc: Global) -> Result<Setting, AllocError> {
        Ok(Setting {
            refusal: None,
            unloaded: None,
            before: Vec::new(alloc),
            titles: titles_of(alloc)?,
        })
    }
}

/// What a run came to.
struct Ran {
    ended: Result<End, RunFault>,
    written: Store,
    passed: Passed,
    port: AskedPort,
}

impl Drop for Ran {
    fn drop(self) {
        let Ran {
            ended: _,
            written: _,
            passed: _,
            port: _,
        } = self;
    }
}

/// One association over a port, each read of which gives `piece` bytes at most.
fn ran_over(
    alloc: Global,
    outbox: &mut Outbox,
    port: AskedPort,
    titles: &Titles<View>,
    input: &[u8],
    piece: usize,
) -> Result<Ran, AllocError> {
    let mut supply = Supply::new(Octets::from_slice(alloc, input)?, piece, None);
    let mut written = Store::new(alloc, AMPLE);
    let mut port = port;
    let mut passed = Passed {
        stores: 0,
        finds: 0,
    };
    let ended = run_association(
        alloc,
        &mut supply,
        outbox,
        &mut written,
        &mut port,
        &mut passed,
        titles,
    );
    Ok(Ran {
        ended,
        written,
        passed,
        port,
    })
}

/// The port behind the association of the earlier peer, which is read whole.
fn port_behind(
    alloc: Global,
    outbox: &mut Outbox,
    setting: &Setting,
) -> Result<AskedPort, AllocError> {
    let port = AskedPort::new(alloc, setting.refusal, setting.unloaded);
    if setting.before.is_empty() {
        return Ok(port);
    }
    let before = setting.before.as_slice();
    let earlier = ran_over(alloc, outbox, port, &setting.titles, before, AMPLE)?;
    Ok(earlier.into_port())
}

impl Ran {
    fn into_port(self) -> AskedPort {
        let Ran {
            ended: _,
            written: _,
            passed: _,
            mut port,
        } = self;
        port.forget();
        port
    }

    /// Puts which moments of the gate were reached, and how often.
    fn put_passed(&self, out: &mut String) -> Result<(), AllocError> {
        let Passed { stores, finds } = self.passed;
        if stores > 0 {
            write!(out, ", gate InStore {stores}")?;
        }
        if finds > 0 {
            write!(out, ", gate FindAnswered {finds}")?;
        }
        Ok(())
    }

    /// Puts how it ended and what is held, what was written, and what the port was asked.
    fn put_all(&self, out: &mut String, words: &Words) -> Result<(), AllocError> {
        match self.ended {
            Ok(end) => write!(out, "{end:?}")?,
            Err(fault) => write!(out, "fault: {fault}")?,
        }
        let size = self.written.as_slice().len();
        let held = self.port.held();
        write!(out, ", {size} bytes written, {held} held")?;
        self.put_passed(out)?;
        out.push_str(self.port.asked())?;
        out.push_str("\n  written ")?;
        words.put_told(out, self.written.as_slice())
    }
}

/// What an association behind that of the earlier peer tells, in reads of `piece` bytes.
fn told_in(
    alloc: Global,
    setting: &Setting,
    words: &Words,
    input: &[u8],
    piece: usize,
) -> Result<String, AllocError> {
    let mut outbox = Outbox::new(alloc)?;
    let port = port_behind(alloc, &mut outbox, setting)?;
    let ran = ran_over(alloc, &mut outbox, port, &setting.titles, input, piece)?;
    let mut out = String::new(alloc);
    ran.put_all(&mut out, words)?;
    Ok(out)
}

/// Puts what a run tells, in whole reads, and where it is told otherwise in reads of 1 byte or of
/// 7, that too.
pub fn put_run(
    alloc: Global,
    out: &mut String,
    setting: &Setting,
    words: &Words,
    input: &[u8],
) -> Result<(), AllocError> {
    let size = input.len();
    let whole = told_in(alloc, setting, words, input, AMPLE)?;
    write!(out, "{size} bytes: {whole}")?;
    for piece in [1, 7] {
        let told = told_in(alloc, setting, words, input, piece)?;
        if told != whole {
            write!(out, "\nin reads of {piece}: {told}")?;
        }
    }
    Ok(())
}
