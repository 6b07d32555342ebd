//! What is told of the digests that begin with each byte, instead of the digests.

ghost use Rattle.std.specs.Prelude.{◌≡◌, ◌++◌, ◌∷◌, ◌<◌, ◌==◌, [], List, ℕ, IfOk, length, get_or};
ghost use Rattle.std.specs.List.{list_any};
ghost use Rattle.exchange.specs.Held.{place_of};
ghost use Rattle.exchange.specs.Buckets.{bucket_list, unequal as unequal_in, is_unequal as is_unequal_in};
ghost use Rattle.exchange.specs.Hashing.{AllHold};

use exchange_frames::{BUCKET_COUNT, Digests};
use octets::{ListOf, Octets};
use operation::Digest;
use sha2::Sha256;
use std::alloc::{AllocError, Global};

/// The first byte of a digest.
pub(crate) fn place_of_digest(digest: &Digest) -> usize
    ensures value { result ≡ place_of digest.now }
    ensures bound { result < BUCKET_COUNT }
{
    digest.as_bytes()[0] as usize
}

/// A hasher for each first byte, which has hashed nothing.
fn new_hashers(alloc: Global) -> Result<Vec<Sha256>, AllocError>
    ensures { IfOk result (λ hashers. AllHold hashers.items []) }
{
    let mut hashers = Vec::with_capacity(alloc, BUCKET_COUNT)?;
    for _ in 0..BUCKET_COUNT {
        hashers.push(<Sha256 as sha2::Digest>::new())?;
    }
    Ok(hashers)
}

/// Hashes a digest in its place.
fn feed(hashers: &mut Vec<Sha256>, digest: &Digest)
    requires { length hashers.old.items ≡ BUCKET_COUNT }
    ensures long { length hashers.new.items ≡ BUCKET_COUNT }
    ensures fed { (digests : List (List ℕ)) → AllHold hashers.old.items digests
        → AllHold hashers.new.items (digests ++ digest.now ∷ []) }
{
    let place = place_of_digest(digest);
    sha2::Digest::update(&mut hashers[place], digest.as_bytes().as_slice());
}

/// What each hasher hashed.
#[tactic(auto, unfolding(crate::specs::Buckets::bucket_list))]
fn finish(alloc: Global, hashers: Vec<Sha256>) -> Result<ListOf<Digest>, AllocError>
    ensures { (digests : List (List ℕ)) → AllHold hashers.items digests
        → IfOk result (λ buckets. buckets ≡ bucket_list digests) }
{
    let mut buckets = Vec::with_capacity(alloc, BUCKET_COUNT)?;
    for hasher in hashers {
        buckets.push(Digest::of(sha2::Digest::finalize(hasher)))?;
    }
    Ok(ListOf::of(buckets))
}

/// For each first byte, the SHA-256 of those of some digests that begin with it, in the order
/// given.
pub fn buckets_of(alloc: Global, digests: &Digests) -> Result<ListOf<Digest>, AllocError>
    ensures { IfOk result (λ buckets. buckets ≡ bucket_list digests.now) }
{
    let mut hashers = new_hashers(alloc)?;
    let arrays = digests.as_arrays();
    for bytes in arrays {
        feed(&mut hashers, &Digest::of(*bytes));
    }
    finish(alloc, hashers)
}

/// Whether a first byte is one of some.
pub(crate) fn has_place(places: &[u8], place: usize) -> bool
    ensures { result ≡ list_any (λ p. p == place) places.now }
{
    for other in places {
        if *other as usize == place {
            return true;
        }
    }
    false
}

/// What a list of buckets tells in a place, which is nothing behind its end.
fn told_in(buckets: &[Digest], place: usize) -> &[u8]
    ensures { result.now ≡ get_or buckets.now place [] }
{
    match buckets.get(place) {
        Some(digest) => digest.as_bytes().as_slice(),
        None => &[],
    }
}

fn is_unequal(own: &[Digest], theirs: &[Digest], place: usize) -> bool
    ensures { result ≡ is_unequal_in own.now theirs.now place }
{
    told_in(own, place) != told_in(theirs, place)
}

/// The first bytes of which two lists of buckets tell different things, ascending.
#[tactic(auto, unfolding(crate::specs::Buckets::unequal))]
pub fn unequal(alloc: Global, own: &[Digest], theirs: &[Digest]) -> Result<Octets, AllocError>
    ensures { IfOk result (λ places. places ≡ unequal_in own.now theirs.now) }
{
    let mut places = Vec::new(alloc);
    for place in 0..BUCKET_COUNT {
        if !is_unequal(own, theirs, place) {
            continue;
        }
        places.push(place as u8)?;
    }
    Ok(Octets::of(places))
}
