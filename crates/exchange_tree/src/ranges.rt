//! The digests beneath a node, as a range of digests that ascend, found by halves.

ghost use Rattle.std.specs.Prelude.{◌≡◌, ◌≤◌, ◌/◌, ◌%◌, ◌==◌, length, drop, true, false, if◌then◌else◌};
ghost use Rattle.std.specs.List.Sorted.{IsStrictlySortedBy, IsPartitionPoint};
ghost use Rattle.sha2.specs.Sha256.{sha256};
ghost use Rattle.octets.specs.Texts.{text_cmp};
ghost use Rattle.exchange_frames.specs.Spelling.{digests_text};
ghost use Rattle.exchange_tree.specs.Nodes.{digits_of, beneath};
ghost use Rattle.exchange_tree.specs.Ranges.{head_cmp, node_cmp, is_before, is_through};

use exchange_frames::{DIGEST_LENGTH, Digests};
use operation::Digest;
use std::cmp::Ordering;

/// The hexadecimal digit of a byte that stands at a place: the high one where that is even.
fn half(byte: u8, at: usize) -> u8
    ensures { result ≡ (if at % 2 == 0 then byte / 16 else byte % 16) }
{
    if at % 2 == 0 { byte / 16 } else { byte % 16 }
}

/// How the hexadecimal digit of a text at a place compares with another; none is the least.
fn order_at(bytes: &[u8], at: usize, digit: u8) -> Ordering
    ensures { result ≡ head_cmp (drop at (digits_of bytes.now)) digit }
{
    if at / 2 >= bytes.len() {
        return Ordering::Less;
    }
    half(bytes[at / 2], at).cmp(&digit)
}

/// How the digits of a text compare with those of a node.
fn order_to(bytes: &[u8], node: &[u8]) -> Ordering
    ensures { result ≡ node_cmp (digits_of bytes.now) node.now }
{
    for at in 0..node.len() {
        let order = order_at(bytes, at, node[at]);
        if order != Ordering::Equal {
            return order;
        }
    }
    Ordering::Equal
}

/// How many of some digests that ascend come before all that lie beneath a node.
fn count_before(digests: &[[u8; DIGEST_LENGTH]], node: &[u8]) -> usize
    requires { IsStrictlySortedBy text_cmp digests.now }
    ensures bound { result ≤ length digests.now }
    ensures point { IsPartitionPoint (λ d. is_before node.now d ≡ true)
        (λ d. is_before node.now d ≡ false) digests.now result }
{
    digests.partition_point(
        |digest: &[u8; DIGEST_LENGTH]| -> bool
            ensures { result ≡ is_before node.entry.now digest.now }
        { order_to(digest.as_slice(), node) == Ordering::Less },
    )
}

/// How many of some digests that ascend do not come behind all that lie beneath a node.
fn count_through(digests: &[[u8; DIGEST_LENGTH]], node: &[u8]) -> usize
    requires { IsStrictlySortedBy text_cmp digests.now }
    ensures bound { result ≤ length digests.now }
    ensures point { IsPartitionPoint (λ d. is_through node.now d ≡ true)
        (λ d. is_through node.now d ≡ false) digests.now result }
{
    digests.partition_point(
        |digest: &[u8; DIGEST_LENGTH]| -> bool
            ensures { result ≡ is_through node.entry.now digest.now }
        { order_to(digest.as_slice(), node) != Ordering::Greater },
    )
}

/// Those of some digests that ascend that lie beneath a node, where they lie. They are found by two
/// searches by halves.
pub(crate) fn range_of<'a>(
    digests: &'a [[u8; DIGEST_LENGTH]],
    node: &[u8],
) -> &'a [[u8; DIGEST_LENGTH]]
    requires { IsStrictlySortedBy text_cmp digests.now }
    ensures { result.now ≡ beneath node.now digests.now }
{
    let (_, behind) = digests.split_at(count_before(digests, node));
    let (beneath, _) = behind.split_at(count_through(behind, node));
    beneath
}

/// How many of some digests that ascend lie beneath a node. They are counted by two searches by
/// halves, and it takes no memory.
pub fn count_beneath(digests: &Digests, node: &[u8]) -> usize
    requires { IsStrictlySortedBy text_cmp digests.now }
    ensures { result ≡ length (beneath node.now digests.now) }
{
    range_of(digests.as_arrays(), node).len()
}

/// The SHA-256 of digests, one behind the other (FIPS 180-4).
pub(crate) fn sum_of_digests(digests: &[[u8; DIGEST_LENGTH]]) -> Digest
    ensures { result ≡ sha256 (digests_text digests.now) }
{
    Digest::of(<sha2::Sha256 as sha2::Digest>::digest(digests.as_flattened()))
}
