//! What an association does.

use association_services::Call;
use pdu::Pdu;

/// A moment at which a gate is reached, where a test may hold an association up.
#[derive(Clone, Copy, Debug, PartialEq, Eq)]
pub enum Moment {
    /// A content is about to be stored.
    InStore,
    /// The last response to a C-FIND that asked the port was sent.
    FindAnswered,
}

/// One thing that is done.
#[derive(Debug, Drop)]
pub enum Deed {
    Send(Pdu),
    Reach(Moment),
    /// Ask the port, and tell the session what it replied.
    Ask(Call),
    /// Close the connection.
    Close,
}
