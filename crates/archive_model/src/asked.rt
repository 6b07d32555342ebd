//! What a query asks of each row.

use dictionary::Matching;
use octets::Octets;

/// A supported key of a query, trimmed.
#[derive(Debug, Drop)]
pub struct Asked {
    pub tag: u32,
    pub matching: Matching,
    /// The key's text, empty where it holds items.
    pub key: Octets,
}
