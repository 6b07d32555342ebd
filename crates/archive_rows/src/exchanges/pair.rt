//! Two sites, and what they are given.

use crate::text::RowFault;
use bytes::Bytes;
use operation::{Op, OpFault, decode};
use site_state::WholeSite;
use std::alloc::{AllocError, Global};

/// The two sites of an exchange.
pub struct Pair {
    pub north: WholeSite,
    pub south: WholeSite,
}

impl Drop for Pair {
    fn drop(self) {
        let Pair { north: _, south: _ } = self;
    }
}

impl Pair {
    /// Two sites that hold nothing.
    pub fn new(alloc: Global) -> Pair {
        Pair {
            north: WholeSite::new(alloc),
            south: WholeSite::new(alloc),
        }
    }

    /// `north`, or else the south.
    pub fn site(&self, name: &str) -> &WholeSite {
        if name == "north" {
            &self.north
        } else {
            &self.south
        }
    }

    pub fn site_mut(&mut self, name: &str) -> &mut WholeSite {
        if name == "north" {
            &mut self.north
        } else {
            &mut self.south
        }
    }
}

/// A site that takes each operation of another.
pub fn copy_of(alloc: Global, site: &WholeSite) -> Result<WholeSite, AllocError> {
    let mut copy = WholeSite::new(alloc);
    for op in site.operations(alloc)? {
        if copy.take(op.copy(alloc)?).is_err() {
            return Err(AllocError);
        }
    }
    Ok(copy)
}

/// How many operations a site holds.
pub fn held_by(site: &WholeSite) -> usize {
    site.counts().operations
}

/// The operation that a text spells.
fn op_in(alloc: Global, text: &[u8]) -> Result<Op, RowFault> {
    match decode(alloc, Bytes::copy_from_slice(alloc, text)?) {
        Ok(op) => Ok(op),
        Err(OpFault::Memory) => Err(RowFault::Memory),
        Err(_fault) => Err(RowFault::BadWord),
    }
}

/// A site takes the operation that a text spells, and tells how many it holds then.
pub fn put_take(
    alloc: Global,
    out: &mut String,
    site: &mut WholeSite,
    text: &[u8],
) -> Result<(), RowFault> {
    let op = op_in(alloc, text)?;
    match site.take(op) {
        Ok(taken) => write!(out, "{taken:?}")?,
        Err(fault) => write!(out, "not taken: {fault}")?,
    }
    let held = held_by(site);
    Ok(write!(out, ", {held} held")?)
}
