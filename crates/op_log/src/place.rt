//! Where an operation lies.

use octets::Octets;

/// What a log keeps of an operation in memory, beside the digest. It has no room for a data set.
#[derive(Debug, Drop)]
pub(crate) struct Place {
    /// The spelling of the operation up to the data set; of a correction all of it.
    pub(crate) front: Octets,
    /// Where the data set lies in its file.
    pub(crate) at: usize,
    /// How long the data set is: 0 of a correction.
    pub(crate) size: usize,
}
