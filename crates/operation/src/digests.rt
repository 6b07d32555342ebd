//! Digests, the names of operations.

ghost use Rattle.std.specs.Prelude.{◌≡◌, length, List, ℕ, IfOk, string_bytes};
ghost use Rattle.octets.specs.Bytes.{IsBytes};
ghost use Rattle.hex.specs.Hex.{encode_lower};

use std::alloc::{AllocError, Global};
use std::marker::Model;

/// The SHA-256 of an operation's spelling (FIPS 180-4), ordered as its 32 bytes.
#[derive(Clone, Copy, Debug, PartialEq, Eq, PartialOrd, Ord)]
pub struct Digest {
    bytes: [u8; 32],
}

impl Model for Digest {
    ghost use Rattle.std.specs.Prelude.{List, ℕ};

    ghost Value = { List ℕ };

    ghost view = { λ d. d.bytes };

    ghost inverse = { λ d. record { bytes = d } };
}

/// Each of some bytes is one. Nothing is done: this is a fact for callers.
fn see_bytes_of(bytes: &[u8])
    ensures { IsBytes bytes.now }
{}

impl Digest {
    /// The digest of these bytes.
    pub fn of(bytes: [u8; 32]) -> Digest
        ensures { result ≡ bytes }
    {
        Digest { bytes }
    }

    pub fn as_bytes(&self) -> &[u8; 32]
        ensures { result.now ≡ self.now }
    {
        &self.bytes
    }

    /// It has 32 bytes. Nothing is done: this is a fact for callers.
    pub fn see_bytes(&self)
        ensures long { length self.now ≡ 32 }
        ensures bytes { IsBytes self.now }
    {
        see_bytes_of(self.bytes.as_slice());
    }

    /// 64 lower-case hexadecimal digits.
    pub fn text(&self, alloc: Global) -> Result<String, AllocError>
        ensures { IfOk result (λ text. string_bytes text ≡ encode_lower self.now) }
    {
        hex::encode(alloc, self.bytes.as_slice())
    }
}
