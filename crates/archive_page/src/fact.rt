//! What the server of a site knows of itself.

use octets::Octets;

/// A row of the page of a site: what is told, and its value.
#[derive(Debug, Drop)]
pub struct Fact {
    pub what: Octets,
    pub value: Octets,
}
