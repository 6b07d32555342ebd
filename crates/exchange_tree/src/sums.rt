//! The sum of a node, and those of its children.

ghost use Rattle.std.specs.Prelude.{◌≡◌, ◌≤◌, ◌+◌, ◌++◌, ◌<◌, List, ℕ, IfOk, true, length, nat_lt};
ghost use Rattle.std.specs.List.{list_all, range_with_len};
ghost use Rattle.sha2.specs.Sha256.{sha256};
ghost use Rattle.sha2.specs.Hashers.{Holds256};
ghost use Rattle.exchange_frames.specs.Spelling.{digests_text};
ghost use Rattle.exchange_tree.specs.Nodes.{beneath, child as child_in};
ghost use Rattle.exchange_tree.specs.Sums.{told, told_text, ArePlacesOf, AreKept, kept_list, upper_text};
ghost use Rattle.exchange_tree.specs.Sums.{sum_of, child_sums};

use crate::kept_sums::KeptSums;
use crate::nodes::{CHILD_COUNT, KEPT_DEPTH, PLACE_COUNT};
use crate::ranges::{range_of, sum_of_digests};
use exchange_frames::Digests;
use operation::Digest;
use sha2::Sha256;
use std::alloc::{AllocError, Global};

/// Whether each of some bytes is a hexadecimal digit.
fn are_digits(node: &[u8]) -> bool
    ensures { result ≡ list_all (λ d. nat_lt d CHILD_COUNT) node.now }
{
    for digit in node {
        if *digit as usize >= CHILD_COUNT {
            return false;
        }
    }
    true
}

/// The first place beneath a node, and how many are.
fn places_of(node: &[u8]) -> (usize, usize)
    requires digits { list_all (λ d. nat_lt d CHILD_COUNT) node.now ≡ true }
    requires short { length node.now ≤ KEPT_DEPTH }
    ensures { ArePlacesOf node.now result.0 result.1 }
{
    match node {
        [] => (0, PLACE_COUNT),
        [a] => (*a as usize * 4096, 4096),
        [a, b] => (*a as usize * 4096 + *b as usize * 256, 256),
        [a, b, c] => (
            *a as usize * 4096 + *b as usize * 256 + *c as usize * 16,
            16,
        ),
        [a, b, c, d, ..] => (
            *a as usize * 4096 + *b as usize * 256 + *c as usize * 16 + *d as usize,
            1,
        ),
    }
}

/// Hashes a kept sum behind the two bytes of its place, and nothing where it is of nothing.
fn feed(hasher: &mut Sha256, place: usize, kept: &Option<Digest>)
    requires { place < PLACE_COUNT }
    ensures { (m : List ℕ) → Holds256 hasher.old m → Holds256 hasher.new (m ++ told place kept.now) }
{
    match kept {
        Some(sum) => {
            let bytes = [(place / 256) as u8, (place % 256) as u8];
            sha2::Digest::update(hasher, bytes.as_slice());
            sha2::Digest::update(hasher, sum.as_bytes().as_slice());
        }
        None => {}
    }
}

/// The SHA-256 of the kept sums of so many places, each behind its two bytes.
fn sum_of_kept(kept: &[Option<Digest>], first: usize, count: usize) -> Digest
    requires bound { first + count ≤ length kept.now }
    requires places { length kept.now ≤ PLACE_COUNT }
    ensures { result ≡ sha256 (told_text kept.now (range_with_len first count)) }
{
    let mut hasher = <Sha256 as sha2::Digest>::new();
    for place in first..first + count {
        feed(&mut hasher, place, &kept[place]);
    }
    Digest::of(sha2::Digest::finalize(hasher))
}

/// The sum of a node above the places.
fn upper_sum(kept: &KeptSums, node: &[u8]) -> Digest
    requires { length node.now < KEPT_DEPTH }
    ensures { (digests : List (List ℕ)) → kept.now ≡ kept_list digests
        → result ≡ sha256 (upper_text digests node.now) }
{
    if !are_digits(node) {
        return sum_of_digests(&[]);
    }
    let (first, count) = places_of(node);
    sum_of_kept(kept.as_slice(), first, count)
}

/// The sum of the node of a place.
fn place_sum(kept: &KeptSums, node: &[u8]) -> Digest
    requires digits { list_all (λ d. nat_lt d CHILD_COUNT) node.now ≡ true }
    requires long { length node.now ≡ KEPT_DEPTH }
    ensures { (digests : List (List ℕ)) → kept.now ≡ kept_list digests
        → result ≡ sha256 (digests_text (beneath node.now digests)) }
{
    let (first, _) = places_of(node);
    match &kept.as_slice()[first] {
        Some(sum) => *sum,
        None => sum_of_digests(&[]),
    }
}

/// The sum of a node over some digests that ascend, of which the sums are kept. Of the kept sums
/// those beneath the node are read, and of the digests those beneath it, where it lies below the
/// places. It takes no memory.
///
/// Beneath a node with a byte of 16 or more, or of more than 64 digits, lies nothing: its sum is
/// the SHA-256 of no bytes.
pub fn sum(kept: &KeptSums, digests: &Digests, node: &[u8]) -> Digest
    requires { AreKept kept.now digests.now }
    ensures { result ≡ sum_of digests.now node.now }
{
    if node.len() < KEPT_DEPTH {
        return upper_sum(kept, node);
    }
    if node.len() == KEPT_DEPTH && are_digits(node) {
        return place_sum(kept, node);
    }
    sum_of_digests(range_of(digests.as_arrays(), node))
}

/// A child of a node.
fn child_of(alloc: Global, node: &[u8], digit: u8) -> Result<Vec<u8>, AllocError>
    ensures { IfOk result (λ child. child.items ≡ child_in node.now digit) }
{
    let mut child = Vec::from_slice(alloc, node)?;
    child.push(digit)?;
    Ok(child)
}

/// The sums of the 16 children of a node, by their digits, over some digests that ascend, of which
/// the sums are kept. The one error is want of memory.
pub fn children(
    alloc: Global,
    kept: &KeptSums,
    digests: &Digests,
    node: &[u8],
) -> Result<Vec<Digest>, AllocError>
    requires { AreKept kept.now digests.now }
    ensures { IfOk result (λ sums. sums.items ≡ child_sums digests.now node.now) }
{
    let mut sums = Vec::with_capacity(alloc, CHILD_COUNT)?;
    for digit in 0..CHILD_COUNT {
        let child = child_of(alloc, node, digit as u8)?;
        sums.push(sum(kept, digests, child.as_slice()))?;
    }
    Ok(sums)
}
