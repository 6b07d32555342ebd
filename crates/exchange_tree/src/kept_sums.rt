//! The sums of the places, which a site keeps.

ghost use Rattle.std.specs.Prelude.{◌≡◌, ◌<◌, List, ℕ, IfOk, length, slice_set};
ghost use Rattle.std.specs.List.Sorted.{IsStrictlySortedBy};
ghost use Rattle.octets.specs.Texts.{text_cmp};
ghost use Rattle.exchange_tree.specs.Nodes.{beneath as those_beneath};
ghost use Rattle.exchange_tree.specs.Sums.{node_of, kept_of, kept_list, sum_if_any as sum_of_some, SameElsewhere};

use crate::nodes::PLACE_COUNT;
use crate::ranges::{range_of, sum_of_digests};
use exchange_frames::{DIGEST_LENGTH, Digests};
use operation::Digest;
use std::alloc::{AllocError, Global};
use std::marker::Model;

/// For each of the 65,536 places the sum of the digests that begin with its two bytes, or nothing
/// where none does: 2.2 MB. Contracts see the list of them.
#[derive(Debug, Drop)]
pub struct KeptSums {
    sums: Vec<Option<Digest>>,
}

impl Model for KeptSums {
    ghost use Rattle.std.specs.Prelude.{◌≡◌, List, ℕ, Option, length};
    ghost use Rattle.exchange_tree.specs.declared.nodes.TheConstants.{PLACE_COUNT};

    ghost Value = { List (Option (List ℕ)) };

    ghost view = { λ k. k.sums.items };

    ghost invariant = { λ k. length k.sums.items ≡ PLACE_COUNT };
}

/// The node of a place.
fn node_of_place(place: usize) -> [u8; 4]
    requires { place < PLACE_COUNT }
    ensures { result ≡ node_of place }
{
    let (high, low) = (place / 256, place % 256);
    [
        (high / 16) as u8,
        (high % 16) as u8,
        (low / 16) as u8,
        (low % 16) as u8,
    ]
}

/// The SHA-256 of digests, where there are some.
fn sum_if_any(digests: &[[u8; DIGEST_LENGTH]]) -> Option<Digest>
    ensures { result ≡ sum_of_some digests.now }
{
    if digests.is_empty() {
        return None;
    }
    Some(sum_of_digests(digests))
}

/// The sum of the digests of a place, if there are any.
fn sum_of_place(digests: &[[u8; DIGEST_LENGTH]], place: usize) -> Option<Digest>
    requires bound { place < PLACE_COUNT }
    requires ascending { IsStrictlySortedBy text_cmp digests.now }
    ensures { result ≡ kept_of digests.now place }
{
    sum_if_any(range_of(digests, node_of_place(place).as_slice()))
}

impl KeptSums {
    /// Those of some digests that ascend, each once. Each digest is hashed once, and each place
    /// found by two searches by halves. The one error is want of memory.
    pub fn of(alloc: Global, digests: &Digests) -> Result<KeptSums, AllocError>
        requires { IsStrictlySortedBy text_cmp digests.now }
        ensures { IfOk result (λ kept. kept ≡ kept_list digests.now) }
    {
        let arrays = digests.as_arrays();
        let mut sums = Vec::with_capacity(alloc, PLACE_COUNT)?;
        for place in 0..PLACE_COUNT {
            sums.push(sum_of_place(arrays, place))?;
        }
        Ok(KeptSums { sums })
    }

    /// Renews the sum of one place, whose digests are these now, ascending. These alone are hashed,
    /// and no memory is taken.
    pub fn renew(&mut self, place: u16, beneath: &Digests)
        ensures own { self.new ≡ slice_set self.old place (sum_of_some beneath.now) }
        ensures all { (before after : List (List ℕ)) → self.old ≡ kept_list before
            → SameElsewhere place before after → beneath.now ≡ those_beneath (node_of place) after
            → self.new ≡ kept_list after }
    {
        self.sums[place as usize] = sum_if_any(beneath.as_arrays());
    }

    /// The sums, by their places.
    pub(crate) fn as_slice(&self) -> &[Option<Digest>]
        ensures sums { result.now ≡ self.now }
        ensures long { length result.now ≡ PLACE_COUNT }
    {
        self.sums.as_slice()
    }
}
