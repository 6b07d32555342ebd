//! What a frame says.

use crate::digests::Digests;
use octets::{ListOf, Octets};
use operation::{Digest, Op};

/// One message of an exchange.
#[derive(Debug, Drop)]
pub enum Frame {
    /// Digests that the sender holds, ascending.
    Have(Digests),
    /// Digests that the sender asks for, ascending.
    Want(Digests),
    /// An operation that was asked for.
    Give(Op),
    /// No more operations are given.
    End,
    /// For each first byte, a digest of the digests held that begin with it.
    Buckets(ListOf<Digest>),
    /// First bytes, ascending, at which the buckets of both sides differ.
    Differ(Octets),
    /// The version that the sender speaks.
    Hello(u16),
}
