//! When and where a correction was made.

/// The place of a correction in the order of corrections: by counter, then by site.
#[derive(Clone, Copy, Debug, PartialEq, Eq, PartialOrd, Ord)]
pub struct Stamp {
    /// One above the greatest counter that the site held, from 1.
    pub counter: u64,
    /// The number of the site, from 1.
    pub site: u16,
}
