//! What a log answers to a put.

/// Whether an operation that was put was in the log before.
#[derive(Clone, Copy, Debug, PartialEq, Eq)]
pub enum Kept {
    /// It was not, or could not be read, and is there now.
    New,
    /// It was, and nothing changed.
    Known,
}
