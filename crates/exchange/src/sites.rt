//! What is told of a site in an exchange.

ghost use Rattle.std.specs.Prelude.{◌≡◌, ◌++◌, ◌==◌, IfOk, OnOk, filter};
ghost use Rattle.exchange.specs.Held.{offered, offered_in, spoken_of, place_of, lacked, held_of, is_held};
ghost use Rattle.exchange.specs.Buckets.{bucket_list};
ghost use Rattle.exchange.specs.Places.{front_at, end_at};

use crate::buckets::{buckets_of, has_place, place_of_digest};
use crate::version::Version;
use exchange_frames::{BUCKET_COUNT, DIGEST_LENGTH, Digests, DigestsMut};
use octets::ListOf;
use operation::Digest;
use records::RecordedOp;
use site_state::Site;
use std::alloc::{AllocError, Global};
use std::collections::BTreeMap;
use std::ops::Bound;

/// The digests of the operations of a tree that a version speaks of.
fn digests_of_tree(
    alloc: Global,
    version: Version,
    tree: &BTreeMap<Digest, RecordedOp>,
) -> Result<Digests, AllocError>
    ensures { IfOk result (λ digests. digests ≡ spoken_of version tree.now.entries) }
{
    let mut digests = DigestsMut::with_capacity(alloc, tree.len())?;
    for (digest, op) in tree.iter() {
        if version.speaks_of(op) {
            digests.push(digest)?;
        }
    }
    digests.freeze()
}

/// The least digest that begins with a byte.
fn front_of(place: u8) -> Digest
    ensures { result ≡ front_at place }
{
    let mut bytes = [0; DIGEST_LENGTH];
    bytes[0] = place;
    Digest::of(bytes)
}

/// Where the digests that begin with a byte end.
fn end_of(place: u8) -> Bound<Digest>
    ensures { result ≡ end_at place }
{
    if place == 255 {
        return Bound::Unbounded;
    }
    Bound::Excluded(front_of(place + 1))
}

/// Puts those of a site's digests that begin with a byte behind others, as their range has them.
fn put_in_place(
    version: Version,
    place: u8,
    site: &Site,
    digests: &mut DigestsMut,
) -> Result<(), AllocError>
    ensures { OnOk result (digests.new ≡ digests.old
        ++ filter (λ d. place_of d == place) (offered version site.now)) }
{
    site.see_lawful();
    for (digest, op) in site
        .tree()
        .range((Bound::Included(front_of(place)), end_of(place)))
    {
        if version.speaks_of(op) && place_of_digest(digest) == place as usize {
            digests.push(digest)?;
        }
    }
    Ok(())
}

/// The digests of a site's operations that a version speaks of, ascending.
pub fn digests_of_site(alloc: Global, version: Version, site: &Site) -> Result<Digests, AllocError>
    ensures { IfOk result (λ digests. digests ≡ offered version site.now) }
{
    digests_of_tree(alloc, version, site.tree())
}

/// Those of them that begin with one of these bytes, ascending.
pub fn digests_of_site_in(
    alloc: Global,
    version: Version,
    places: &[u8],
    site: &Site,
) -> Result<Digests, AllocError>
    ensures { IfOk result (λ digests. digests ≡ offered_in version places.now site.now) }
{
    site.see_lawful();
    let mut digests = DigestsMut::with_capacity(alloc, 0)?;
    for place in 0..BUCKET_COUNT {
        if !has_place(places, place) {
            continue;
        }
        put_in_place(version, place as u8, site, &mut digests)?;
    }
    let frozen = digests.freeze()?;
    Ok(frozen)
}

/// The buckets of a site's operations that a version speaks of.
pub fn buckets_of_site(
    alloc: Global,
    version: Version,
    site: &Site,
) -> Result<ListOf<Digest>, AllocError>
    ensures { IfOk result (λ buckets. buckets ≡ bucket_list (offered version site.now)) }
{
    let digests = digests_of_site(alloc, version, site)?;
    buckets_of(alloc, &digests)
}

/// Those of some digests that a site does not have, in the order given.
pub fn missing_of_site(alloc: Global, site: &Site, digests: &Digests) -> Result<Digests, AllocError>
    ensures { IfOk result (λ missing. missing ≡ lacked site.now digests.now) }
{
    let mut missing = DigestsMut::with_capacity(alloc, digests.len())?;
    let arrays = digests.as_arrays();
    for bytes in arrays {
        let digest = Digest::of(*bytes);
        if !site.has(&digest) {
            missing.push(&digest)?;
        }
    }
    let frozen = missing.freeze()?;
    Ok(frozen)
}

/// Whether a site has an operation under a digest of which a version speaks.
fn has_spoken(version: Version, site: &Site, digest: &Digest) -> bool
    ensures { result ≡ is_held version site.now digest.now }
{
    match site.op(digest) {
        None => false,
        Some(op) => version.speaks_of(op),
    }
}

/// Those of some digests under which a site has an operation of which a version speaks, in the
/// order given.
pub fn held_of_site(
    alloc: Global,
    version: Version,
    site: &Site,
    digests: &Digests,
) -> Result<Digests, AllocError>
    ensures { IfOk result (λ held. held ≡ held_of version digests.now site.now) }
{
    let mut held = DigestsMut::with_capacity(alloc, digests.len())?;
    let arrays = digests.as_arrays();
    for bytes in arrays {
        let digest = Digest::of(*bytes);
        if has_spoken(version, site, &digest) {
            held.push(&digest)?;
        }
    }
    let frozen = held.freeze()?;
    Ok(frozen)
}
