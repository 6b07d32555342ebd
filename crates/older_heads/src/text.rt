//! The text of a group, as an older file has it.

ghost use Rattle.std.specs.Prelude.{◌≡◌, ◌↔◌, IsTrue};
ghost use Rattle.std.specs.Int.{w64, to_le_bytes};
ghost use Rattle.sha2.specs.Sha256.{sha256};
ghost use Rattle.older_heads.specs.Groups.{begins_older};

use sha2::{Digest, Sha256};

/// The number that eight bytes spell, low byte first.
pub(crate) fn number_in(bytes: &[u8; 8]) -> u64
    ensures { to_le_bytes w64 result ≡ bytes.now }
{
    u64::from_le_bytes(*bytes)
}

/// The sum of a group.
fn sum_of(group: &[u8]) -> [u8; 32]
    ensures { result ≡ sha256 group.now }
{
    Sha256::digest(group)
}

/// Whether a group has a sum.
pub(crate) fn has_sum(group: &[u8], sum: &[u8; 32]) -> bool
    ensures { IsTrue result ↔ (sha256 group.now ≡ sum.now) }
{
    sum_of(group).as_slice() == sum.as_slice()
}

/// Whether the first eight bytes of a file are those of an older one.
pub(crate) fn begins_older(front: &[u8; 8]) -> bool
    ensures { result ≡ begins_older front.now }
{
    if front[6] != 0 || front[7] != 0 {
        return false;
    }
    front[0] == 1 || (front[0] == 0 && u64::from_le_bytes(*front) != 0)
}
