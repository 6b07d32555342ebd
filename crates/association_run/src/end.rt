//! How an association ended.

/// How an association ended. Where several hold, the last is told.
#[derive(Clone, Copy, Debug, PartialEq, Eq)]
pub enum End {
    /// An A-RELEASE-RP was sent.
    Released,
    /// An A-ABORT was sent or read.
    Aborted,
    /// The stream ended, or the connection was closed, with neither.
    Closed,
    /// All the bytes were read that are read once the peer is to close.
    Dropped,
}
