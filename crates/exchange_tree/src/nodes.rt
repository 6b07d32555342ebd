//! Nodes and places.

ghost use Rattle.std.specs.Prelude.{◌≡◌};
ghost use Rattle.exchange_tree.specs.Taking.{place_of};

use operation::Digest;

/// How many children a node has, one for each hexadecimal digit.
pub const CHILD_COUNT: usize = 16;

/// How many digits a digest has. A node of so many has no children.
pub const DEEPEST: usize = 64;

/// How many digits the node of a place has, whose sum is kept.
pub const KEPT_DEPTH: usize = 4;

/// How many places there are, one for each two bytes with which a digest can begin.
pub const PLACE_COUNT: usize = 65_536;

/// The place of a digest: its first two bytes, as one number, the first byte high.
pub fn place_of_digest(digest: &Digest) -> u16
    ensures { result ≡ place_of digest.now }
{
    let bytes = digest.as_bytes();
    bytes[0] as u16 * 256 + bytes[1] as u16
}
