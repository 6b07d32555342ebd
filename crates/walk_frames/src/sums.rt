//! The sums of a node's children.

ghost use Rattle.std.specs.Prelude.{◌≡◌, IfOk};
ghost use Rattle.exchange_frames.specs.Digests.{digests_in};
ghost use Rattle.exchange_frames.specs.Spelling.{AreDigests};
ghost use Rattle.walk_frames.specs.Entries.{sums_of, AreSums};

use crate::node::CHILDREN;
use exchange_frames::{DIGEST_LENGTH, FrameFault};
use operation::Digest;
use std::alloc::{AllocError, Global};
use std::marker::Model;

/// How many bytes 16 sums have.
pub(crate) const SUMS_LENGTH: usize = 512;

/// The sums of a node's 16 children, by their last digit. Contracts see the list of their bytes, 32
/// of each.
#[derive(Debug, Drop)]
pub struct Sums {
    digests: Vec<Digest>,
}

impl Model for Sums {
    ghost use Rattle.std.specs.Prelude.{List, ℕ};
    ghost use Rattle.walk_frames.specs.Entries.{AreSums};

    ghost Value = { List (List ℕ) };

    ghost view = { λ s. s.digests.items };

    ghost invariant = { λ s. AreSums s.digests.items };
}

/// Each of some digests has 32 bytes. Nothing is done: this is a fact for callers.
fn see_digests(digests: &[Digest])
    ensures { AreDigests digests.now }
{
    for digest in digests {
        digest.see_bytes();
    }
}

/// The digests that stand in a text.
pub(crate) fn digests_of(alloc: Global, text: &[u8]) -> Result<Vec<Digest>, AllocError>
    ensures { IfOk result (λ digests. digests.items ≡ digests_in text.now) }
{
    let (arrays, _) = text.as_chunks::<DIGEST_LENGTH>();
    let mut digests = Vec::with_capacity(alloc, arrays.len())?;
    for bytes in arrays {
        digests.push(Digest::of(*bytes))?;
    }
    Ok(digests)
}

impl Sums {
    /// These sums, which are kept as they are. Another number than 16 is `BadFrame`.
    pub fn of(digests: Vec<Digest>) -> Result<Sums, FrameFault>
        ensures { result ≡ sums_of digests.items }
    {
        if digests.len() != CHILDREN {
            return Err(FrameFault::BadFrame);
        }
        see_digests(digests.as_slice());
        Ok(Sums { digests })
    }

    /// The sums, by the child's last digit.
    pub fn as_slice(&self) -> &[Digest]
        ensures value { result.now ≡ self.now }
        ensures lawful { AreSums self.now }
    {
        self.digests.as_slice()
    }
}
