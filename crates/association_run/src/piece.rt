//! What the bytes of a stream are cut into.

use pdu::{Pdu, PduFault};

/// What stands at the front of a stream, and how many bytes it takes.
#[derive(Debug, Drop)]
pub(crate) enum Piece {
    Whole(Pdu, usize),
    /// A faulty PDU: its header, or the whole of it where its body is malformed. Behind it the
    /// stream is no longer cut.
    Faulty(PduFault, usize),
}
