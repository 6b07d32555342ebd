//! Messages (PS3.7, section 6.3).

use crate::command::Command;
use bytes::Bytes;

/// A command set and, where it announces one, a data set, on one presentation context.
#[derive(Debug, Drop)]
pub struct Message {
    /// The presentation context's ID.
    pub context: u8,
    pub command: Command,
    /// The bytes of the data set, where the command set announces one.
    pub body: Option<Bytes>,
}
