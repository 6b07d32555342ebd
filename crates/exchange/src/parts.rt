//! Which digests a HAVE has, where more are held than it may have.

ghost use Rattle.std.specs.Prelude.{◌≡◌, ◌==◌, not, filter, IfOk};
ghost use Rattle.exchange.specs.Held.{place_of};
ghost use Rattle.exchange.specs.Parts.{fitting as fitting_in, tells_of as tells_of_in};
ghost use Rattle.exchange.specs.Parts.{is_seen_whole as is_seen_whole_in};

use crate::buckets::place_of_digest;
use exchange_frames::{DIGEST_LENGTH, Digests, DigestsMut, MOST_DIGESTS};
use operation::Digest;
use std::alloc::{AllocError, Global};

/// Those of some digests that begin with another byte.
fn without_place(
    alloc: Global,
    arrays: &[[u8; DIGEST_LENGTH]],
    place: usize,
) -> Result<Digests, AllocError>
    ensures { IfOk result (λ digests. digests
        ≡ filter (λ d. not (place_of d == place)) arrays.now) }
{
    let mut digests = DigestsMut::with_capacity(alloc, arrays.len())?;
    for bytes in arrays {
        let digest = Digest::of(*bytes);
        if place_of_digest(&digest) != place {
            digests.push(&digest)?;
        }
    }
    let frozen = digests.freeze()?;
    Ok(frozen)
}

/// These digests, in a buffer of their own.
fn copied(alloc: Global, arrays: &[[u8; DIGEST_LENGTH]]) -> Result<Digests, AllocError>
    ensures { IfOk result (λ digests. digests ≡ arrays.now) }
{
    let mut digests = DigestsMut::with_capacity(alloc, arrays.len())?;
    for bytes in arrays {
        let digest = Digest::of(*bytes);
        digests.push(&digest)?;
    }
    let frozen = digests.freeze()?;
    Ok(frozen)
}

/// What a HAVE has of ascending digests, where it has so many at most: those of the first places
/// that fit whole. Of a first place that does not it has the least, so that it is not empty.
#[tactic(auto, unfolding(crate::specs::Parts::fitting))]
pub(crate) fn fitting(alloc: Global, held: Digests, most: usize) -> Result<Digests, AllocError>
    ensures { IfOk result (λ have. have ≡ fitting_in most held) }
{
    if held.len() <= most {
        return Ok(held);
    }
    let arrays = held.as_arrays();
    let behind = place_of_digest(&Digest::of(arrays[most]));
    let whole = without_place(alloc, &arrays[..most], behind)?;
    if whole.is_empty() {
        return copied(alloc, &arrays[..most]);
    }
    Ok(whole)
}

/// Whether one of some digests begins with a byte.
fn tells_of(arrays: &[[u8; DIGEST_LENGTH]], place: usize) -> bool
    ensures { result ≡ tells_of_in arrays.now place }
{
    for bytes in arrays {
        if place_of_digest(&Digest::of(*bytes)) == place {
            return true;
        }
    }
    false
}

/// Whether a HAVE that answers a DIFFER of these places is seen to have all that is held in them.
pub(crate) fn is_seen_whole(places: &[u8], have: &Digests) -> bool
    ensures { result ≡ is_seen_whole_in places.now have.now }
{
    if have.len() >= MOST_DIGESTS {
        return false;
    }
    let arrays = have.as_arrays();
    for place in places {
        if !tells_of(arrays, *place as usize) {
            return false;
        }
    }
    true
}
