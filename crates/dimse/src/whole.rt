//! Texts that are whole.

ghost use Rattle.std.specs.Prelude.{◌≡◌, ◌++◌, IfOk};

use bytes::Bytes;
use octets::Octets;
use std::alloc::AllocError;

/// Half of the longest P-DATA-TF that is read, in bytes, its header among them.
const HALF_OF_A_PDU: usize = 32_771;

/// A text with one fragment more.
///
/// A text that came whole shares the bytes of its PDU where it is more than half of them, whatever
/// their length is; a smaller one is copied, so that what is kept of it does not keep its PDU
/// (docs/DECISIONS.md, "Shared buffers").
pub(crate) fn closed(text: Octets, fragment: Bytes) -> Result<Bytes, AllocError>
    ensures { IfOk result (λ whole. whole ≡ text ++ fragment) }
{
    if text.is_empty() && fragment.len() > HALF_OF_A_PDU {
        return Ok(fragment);
    }
    let mut text = text;
    text.extend_from_slice(fragment.as_slice())?;
    Ok(Bytes::from_vec(text.into_vec())?)
}
