//! With which stamps a desk makes corrections.

/// The number of the site, and the greatest counter that its desk has made so far.
#[derive(Clone, Copy, Debug, PartialEq, Eq)]
pub struct Stamps {
    pub site: u16,
    pub last: u64,
}
