//! What is answered for an operation that was taken.

/// Whether an operation that was taken was held before.
#[derive(Clone, Copy, Debug, PartialEq, Eq)]
pub enum Taken {
    /// It was not, and is held now.
    New,
    /// It was, and nothing changed.
    Known,
}
