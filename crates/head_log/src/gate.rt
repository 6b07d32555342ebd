//! The gate before a group: what it is, and where it stands.

ghost use Rattle.std.specs.Prelude.{◌≡◌, ◌+◌, ◌<◌, ◌^◌, List, length};
ghost use Rattle.head_log.specs.Groups.{first_gate, gate_after, is_shut, sum_of};

use crate::text::sum_of;

/// A gate whose group is on the disk. Each of its bits is another than that of one which is shut.
pub const OPEN: u64 = 0xE471_9A2D_C659_A36C;

/// A gate behind which no group is yet.
pub const SHUT: u64 = 0x1B8E_65D2_39A6_5C93;

/// How many bits of a shut gate may be changed.
const MOST_CHANGED: u32 = 16;

/// Whether eight bytes are a shut gate.
#[tactic(auto, unfolding(crate::specs::Groups::is_shut))]
pub(crate) fn is_shut(gate: &[u8; 8]) -> bool
    ensures { result ≡ is_shut gate.now }
{
    (u64::from_le_bytes(*gate) ^ SHUT).count_ones() <= MOST_CHANGED
}

/// A gate of a file: at which byte it stands, and the sum of the group before it.
#[derive(Clone, Copy, Debug)]
pub struct Gate {
    pub at: usize,
    pub prior: [u8; 32],
}

impl Gate {
    /// The gate of the first group. There is none before it, and its sum is all zeros.
    pub fn first() -> Gate
        ensures { result ≡ first_gate }
    {
        Gate {
            at: 0,
            prior: [0; 32],
        }
    }

    /// The gate behind a group.
    pub(crate) fn after(&self, group: &[u8]) -> Gate
        requires room { self.now.at + 48 + length group.now < 2 ^ 64 }
        ensures next { result ≡ gate_after self.now group.now }
        ensures sum { result.prior ≡ sum_of self.now.prior group.now }
        ensures place { result.at ≡ self.now.at + 48 + length group.now }
    {
        Gate {
            at: self.at + 48 + group.len(),
            prior: sum_of(&self.prior, group),
        }
    }
}
