//! A port that notes what it is asked, and a gate that counts.

ghost use Rattle.std.specs.Prelude.{None};

use crate::text::put_bytes;
use archive_model::{Answers, Listed, Query, Selection, View};
use association_run::{Gate, Port};
use association_session::{Moment, PortFault};
use association_worker::*;
use octets::ListOf;
use operation::{Content, ContentRecord, Taken};
use std::alloc::{AllocError, Global};
use std::marker::Model;

/// Why a port refuses all that it is asked.
#[derive(Clone, Copy, Debug, PartialEq, Eq)]
pub enum Refusal {
    Memory,
    Busy,
    Shelf,
}

/// Which loads a port refuses, of a site that refuses nothing else: the first of them, or all.
#[derive(Clone, Copy, Debug, PartialEq, Eq)]
pub enum Unloaded {
    First,
    All,
}

/// A site in memory, or one that refuses. It notes what it was asked; loads it notes where it
/// refuses some.
pub struct AskedPort {
    port: SitePort,
    refusal: Option<Refusal>,
    unloaded: Option<Unloaded>,
    loads: u64,
    asked: String,
}

impl Drop for AskedPort {
    fn drop(self) {
        let AskedPort {
            port: _,
            refusal: _,
            unloaded: _,
            loads: _,
            asked: _,
        } = self;
    }
}

impl Model for AskedPort {
    ghost use Rattle.association_worker.specs.Port.{PortParts, port_code};

    ghost Value = { PortParts };

    ghost coded = { port_code };

    ghost view = { λ p. p.port };
}

fn note(asked: &mut String, kind: &str, name: &[u8]) -> Result<(), AllocError> {
    write!(asked, "\n  asked {kind} ")?;
    put_bytes(asked, name)
}

fn note_get(asked: &mut String, selection: &Selection) -> Result<(), AllocError> {
    asked.push_str("\n  asked get of")?;
    for uid in selection.uids.as_slice() {
        asked.push(' ')?;
        put_bytes(asked, uid.as_slice())?;
    }
    Ok(())
}

/// Whether a load is refused, which is noted and counted where some are.
fn is_refused(
    asked: &mut String,
    loads: &mut u64,
    unloaded: Option<Unloaded>,
    record: &ContentRecord,
) -> Result<bool, AllocError> {
    let Some(unloaded) = unloaded else {
        return Ok(false);
    };
    note(asked, "load", record.instance())?;
    *loads = loads.saturating_add(1);
    Ok(unloaded == Unloaded::All || *loads == 1)
}

impl AskedPort {
    pub fn new(alloc: Global, refusal: Option<Refusal>, unloaded: Option<Unloaded>) -> AskedPort {
        AskedPort {
            port: SitePort::new(alloc),
            refusal,
            unloaded,
            loads: 0,
            asked: String::new(alloc),
        }
    }

    /// What it was asked since it was last told to forget, a line each.
    pub fn asked(&self) -> &str {
        self.asked.as_str()
    }

    pub fn forget(&mut self) {
        self.asked.clear();
    }

    /// How many operations its site holds.
    pub fn held(&self) -> usize {
        self.port.site().counts().operations
    }
}

impl Port for AskedPort {
    ghost use Rattle.association_worker.specs.Port.{recorded_in};

    ghost ops = { recorded_in };

    ghost own = { λ p. p.own };

    fn store(&mut self, content: Content) -> Result<Taken, PortFault> {
        if note(&mut self.asked, "store", content.instance()).is_err() {
            return Err(PortFault::Memory);
        }
        match self.refusal {
            None => self.port.store(content),
            Some(Refusal::Memory) => Err(PortFault::Memory),
            Some(Refusal::Busy) => Err(PortFault::Busy),
            Some(Refusal::Shelf) => Err(PortFault::Shelf),
        }
    }

    fn find(&mut self, called: &[u8], view: View, query: &Query) -> Result<Answers, PortFault> {
        if note(&mut self.asked, "find of", called).is_err() {
            return Err(PortFault::Memory);
        }
        match self.refusal {
            None => self.port.find(called, view, query),
            Some(Refusal::Busy) => Err(PortFault::Busy),
            Some(_) => Err(PortFault::Memory),
        }
    }

    fn get(&mut self, view: View, selection: &Selection) -> Result<ListOf<Listed>, PortFault> {
        if note_get(&mut self.asked, selection).is_err() {
            return Err(PortFault::Memory);
        }
        match self.refusal {
            None => self.port.get(view, selection),
            Some(Refusal::Busy) => Err(PortFault::Busy),
            Some(_) => Err(PortFault::Memory),
        }
    }

    fn load(&mut self, asked: &ContentRecord) -> Result<Content, PortFault> {
        match is_refused(&mut self.asked, &mut self.loads, self.unloaded, asked) {
            Ok(false) => self.port.load(asked),
            Ok(true) => Err(PortFault::Shelf),
            Err(_refused) => Err(PortFault::Memory),
        }
    }
}

/// A gate that counts how often each of its moments was reached.
#[derive(Clone, Copy, Debug, PartialEq, Eq)]
pub struct Passed {
    pub stores: u64,
    pub finds: u64,
}

impl Gate for Passed {
    ghost reached = { λ _. None };

    fn reach(&mut self, moment: Moment) {
        match moment {
            Moment::InStore => self.stores = self.stores.saturating_add(1),
            Moment::FindAnswered => self.finds = self.finds.saturating_add(1),
        }
    }
}
