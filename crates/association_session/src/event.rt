//! What reaches a session.

use association_services::Reply;
use ul_state::Event;

/// What reaches a session.
#[derive(Drop)]
pub enum SessionEvent {
    /// An event of the acceptor, while nothing is awaited of the port, and no row, no
    /// sub-operation and no value is left.
    Heard(Event),
    /// What the port replied to the call that was asked last.
    Replied(Reply),
    /// The rows that are left are told on, the sub-operations that are left are begun, or the
    /// values that are left of a P-DATA-TF are heard on, while no reply is awaited.
    GoesOn,
}
