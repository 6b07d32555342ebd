//! The splits and the places of a walk.

ghost use Rattle.std.specs.Prelude.{◌≡◌, map, IfOk};
ghost use Rattle.exchange_walk.specs.Splits.{is_split as is_split_of, has_splits as has_splits_in, places_of};

use std::alloc::{AllocError, Global};
use walk_frames::{Entry, Node, Walk};

pub(crate) fn is_split(entry: &Entry) -> bool
    ensures { result ≡ is_split_of entry.now }
{
    entry.sums().is_some()
}

/// Whether a walk is to be answered: whether one of its entries is a split.
pub fn has_splits(walk: &Walk) -> bool
    ensures { result ≡ has_splits_in walk.now }
{
    walk.entries().iter().any(|entry| is_split(entry))
}

/// The nodes of the places of a walk, ascending, where they lie: what the digests beneath them are
/// is told by later frames. At most 4,096; the one error is want of memory.
pub fn places<'a>(alloc: Global, walk: &'a Walk) -> Result<Vec<&'a Node>, AllocError>
    ensures { IfOk result (λ places. map (λ node. node.now) places.items ≡ places_of walk.now) }
{
    let mut places = Vec::new(alloc);
    for entry in walk.entries() {
        if !is_split(entry) {
            places.push(entry.node())?;
        }
    }
    Ok(places)
}
