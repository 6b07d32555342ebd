//! What reaches the machine, and what it asks of its caller.

use octets::ListOf;
use pdu::{Pdu, PduFault, Pdv};

/// What reaches the machine.
#[derive(Debug, Drop)]
pub enum Event {
    /// A PDU was read.
    Got(Pdu),
    /// The bytes that came are no PDU. Want of memory is no such fault, and is not given here.
    Bad(PduFault),
    /// The stream ended.
    Ended,
    /// The local user aborts.
    LocalAbort,
}

/// What the machine asks of its caller.
#[derive(Debug, Drop)]
pub enum Action {
    Send(Pdu),
    /// Values for the local user, in order.
    Hand(ListOf<Pdv>),
    /// Close the connection.
    Close,
}
