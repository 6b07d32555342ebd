//! Digests in one buffer.

ghost use Rattle.std.specs.Prelude.{◌≡◌, ◌++◌, ◌∷◌, ◌==◌, ◌*◌, [], length, IfOk, OnOk, OnErr};
ghost use Rattle.octets.specs.Texts.{text_cmp};
ghost use Rattle.exchange_frames.specs.Digests.{digests_in as in_text, IsWhole as IsWholeText};
ghost use Rattle.exchange_frames.specs.Reading.{cut};
ghost use Rattle.exchange_frames.specs.Spelling.{ascends, digests_text};

use crate::reader::DIGEST_LENGTH;
use bytes::Bytes;
use operation::Digest;
use std::alloc::{AllocError, Global};
use std::cmp::Ordering;
use std::marker::Model;

/// Digests of 32 bytes each, one behind the other in one buffer, which their owners share.
/// Contracts see the list of them.
#[derive(Debug, Drop)]
pub struct Digests {
    text: Bytes,
}

impl Model for Digests {
    ghost use Rattle.std.specs.Prelude.{List, ℕ};
    ghost use Rattle.exchange_frames.specs.Digests.{digests_in, IsWhole};

    ghost Value = { List (List ℕ) };

    ghost view = { λ d. digests_in d.text };

    ghost invariant = { λ d. IsWhole d.text };
}

/// Whether arrays ascend as texts do.
fn arrays_ascend(arrays: &[[u8; DIGEST_LENGTH]]) -> bool
    ensures { result ≡ ascends text_cmp arrays.now }
{
    for at in 1..arrays.len() {
        if arrays[at - 1].cmp(&arrays[at]) != Ordering::Less {
            return false;
        }
    }
    true
}

/// Puts a digest behind others.
pub(crate) fn put_digest(out: &mut Vec<u8>, bytes: &[u8; DIGEST_LENGTH]) -> Result<(), AllocError>
    ensures text { OnOk result (out.new.items ≡ out.old.items ++ bytes.now) }
    ensures long { length bytes.now ≡ DIGEST_LENGTH }
    ensures kept { OnErr result (out.new.items ≡ out.old.items) }
{
    out.extend_from_slice(bytes.as_slice())
}

impl Digests {
    /// The digests of a text of that many.
    pub(crate) fn cut(text: Bytes, count: usize) -> Digests
        requires { length text ≡ DIGEST_LENGTH * count }
        ensures { result ≡ cut count text }
    {
        Digests { text }
    }

    /// None. It takes no memory.
    pub fn new() -> Digests
        ensures { result ≡ [] }
    {
        Digests { text: Bytes::new() }
    }

    /// The bytes of each digest, where they lie.
    pub fn as_arrays(&self) -> &[[u8; DIGEST_LENGTH]]
        ensures { result.now ≡ self.now }
    {
        let (arrays, _) = self.text.as_slice().as_chunks::<DIGEST_LENGTH>();
        arrays
    }

    /// How many digests these are.
    pub fn len(&self) -> usize
        ensures { result ≡ length self.now }
    {
        self.as_arrays().len()
    }

    pub fn is_empty(&self) -> bool
        ensures { result ≡ (length self.now == 0) }
    {
        self.as_arrays().is_empty()
    }

    /// Whether each is greater than the one before it.
    pub fn ascend(&self) -> bool
        ensures { result ≡ ascends text_cmp self.now }
    {
        arrays_ascend(self.as_arrays())
    }

    /// A second owner of the same buffer.
    pub fn share(&self) -> Result<Digests, AllocError>
        ensures { IfOk result (λ shared. shared ≡ self.now) }
    {
        Ok(Digests {
            text: self.text.clone()?,
        })
    }

    /// The buffer: the digests, one behind the other.
    pub(crate) fn text(&self) -> &Bytes
        ensures text { result.now ≡ digests_text self.now }
        ensures whole { IsWholeText result.now }
        ensures digests { in_text result.now ≡ self.now }
        ensures long { length result.now ≡ DIGEST_LENGTH * length self.now }
    {
        &self.text
    }
}

/// Digests that are put together, one behind the other in one buffer. Contracts see the list of
/// them.
#[derive(Debug, Drop)]
pub struct DigestsMut {
    text: Vec<u8>,
}

impl Model for DigestsMut {
    ghost use Rattle.std.specs.Prelude.{List, ℕ};
    ghost use Rattle.exchange_frames.specs.Digests.{digests_in, IsWhole};

    ghost Value = { List (List ℕ) };

    ghost view = { λ d. digests_in d.text.items };

    ghost invariant = { λ d. IsWhole d.text.items };
}

impl DigestsMut {
    /// None yet, with room for so many.
    pub fn with_capacity(alloc: Global, count: usize) -> Result<DigestsMut, AllocError>
        ensures { IfOk result (λ digests. digests ≡ []) }
    {
        Ok(DigestsMut {
            text: Vec::with_capacity(alloc, count.saturating_mul(DIGEST_LENGTH))?,
        })
    }

    /// Puts a digest behind the others.
    pub fn push(&mut self, digest: &Digest) -> Result<(), AllocError>
        ensures { OnOk result (self.new ≡ self.old ++ digest.now ∷ []) }
    {
        put_digest(&mut self.text, digest.as_bytes())?;
        Ok(())
    }

    /// Puts digests behind the others.
    pub fn append(&mut self, digests: &Digests) -> Result<(), AllocError>
        ensures { OnOk result (self.new ≡ self.old ++ digests.now) }
    {
        self.text.extend_from_slice(digests.text().as_slice())?;
        Ok(())
    }

    /// The digests, in the same buffer.
    pub fn freeze(self) -> Result<Digests, AllocError>
        ensures { IfOk result (λ digests. digests ≡ self) }
    {
        Ok(Digests {
            text: Bytes::from_vec(self.text)?,
        })
    }
}
