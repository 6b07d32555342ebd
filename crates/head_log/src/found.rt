//! A group that was read.

use crate::gate::Gate;

/// A group of a file, and the gate behind it.
#[derive(Drop)]
pub struct Found {
    pub group: Vec<u8>,
    pub next: Gate,
}
