//! A head, as it is handed out.

use operation::Digest;

/// What a log keeps of an operation in memory, which is all of it but its data set.
#[derive(Drop)]
pub struct Record<'a> {
    pub digest: Digest,
    /// The spelling of the operation up to the data set; of a correction all of it.
    pub front: &'a [u8],
    /// Where the data set lies in its file.
    pub at: usize,
    /// How long the data set is: 0 of a correction.
    pub size: usize,
}
