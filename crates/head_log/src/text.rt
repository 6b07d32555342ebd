//! The text of a group, as the file has it.

ghost use Rattle.std.specs.Prelude.{◌≡◌, ◌↔◌, ◌++◌, IfOk, IsTrue};
ghost use Rattle.std.specs.Int.{w64, to_le_bytes};
ghost use Rattle.head_log.specs.Groups.{shut_gate, sum_of, text_with};

use crate::gate::SHUT;
use sha2::Sha256;
use std::alloc::{AllocError, Global};

/// The number that eight bytes spell, low byte first.
pub(crate) fn number_in(bytes: &[u8; 8]) -> u64
    ensures { to_le_bytes w64 result ≡ bytes.now }
{
    u64::from_le_bytes(*bytes)
}

/// The sum of a group behind the one that has another sum.
#[tactic(auto, unfolding(crate::specs::Groups::sum_of))]
pub(crate) fn sum_of(prior: &[u8; 32], group: &[u8]) -> [u8; 32]
    ensures { result ≡ sum_of prior.now group.now }
{
    let mut hasher = <Sha256 as sha2::Digest>::new();
    sha2::Digest::update(&mut hasher, prior.as_slice());
    sha2::Digest::update(&mut hasher, group);
    sha2::Digest::finalize(hasher)
}

/// Whether a group has a sum, behind the one that has another.
pub(crate) fn has_sum(prior: &[u8; 32], group: &[u8], sum: &[u8; 32]) -> bool
    ensures { IsTrue result ↔ (sum_of prior.now group.now ≡ sum.now) }
{
    sum_of(prior, group).as_slice() == sum.as_slice()
}

/// A group behind its length and its sum, and the shut gate of the next one.
#[tactic(auto, unfolding(crate::specs::Groups::text_with))]
pub(crate) fn shut(alloc: Global, sum: &[u8; 32], group: &[u8]) -> Result<Vec<u8>, AllocError>
    ensures { IfOk result (λ text. text.items ≡ text_with sum.now group.now ++ shut_gate) }
{
    let mut text = Vec::new(alloc);
    text.extend_from_slice(&(group.len() as u64).to_le_bytes())?;
    text.extend_from_slice(sum.as_slice())?;
    text.extend_from_slice(group)?;
    text.extend_from_slice(&SHUT.to_le_bytes())?;
    Ok(text)
}
