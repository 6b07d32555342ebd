//! What a site is counted by.

/// How many operations a site holds.
#[derive(Clone, Copy, Debug, PartialEq, Eq)]
pub struct Counts {
    /// All of them.
    pub operations: usize,
    /// Those that are contents.
    pub contents: usize,
    /// Those that are corrections.
    pub corrections: usize,
}
