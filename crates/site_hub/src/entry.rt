//! Entries of the history.

use octets::ListOf;
use operation::Digest;
use records::RecordedOp;

/// An operation that was taken for a pass, with its digest.
#[derive(Debug)]
pub struct Entry {
    pub pass: u64,
    pub op: RecordedOp,
}

// It is written out, so that a caller does not prove again how each part is dropped.
impl Drop for Entry {
    fn drop(self) {
        let Entry { pass: _, op: _ } = self;
    }
}

/// An entry, by the digest of its operation.
#[derive(Clone, Copy, Debug, PartialEq, Eq)]
pub struct Logged {
    pub pass: u64,
    pub digest: Digest,
}

/// The pass and the digest of each entry, in the order of the history.
pub type Log = ListOf<Logged>;
