//! The texts of cells.

ghost use Rattle.std.specs.Prelude.{◌≡◌, IfOk};
ghost use Rattle.hex.specs.Hex.{encode_lower};
ghost use Rattle.site_tables.specs.Cells.{yes_no};

use octets::Octets;
use operation::Digest;
use std::alloc::{AllocError, Global};

/// A digest in hexadecimal digits.
pub(crate) fn hex_digits(alloc: Global, digest: &Digest) -> Result<Octets, AllocError>
    ensures { IfOk result (λ text. text ≡ encode_lower digest.now) }
{
    let text = digest.text(alloc)?;
    Octets::from_slice(alloc, text.as_bytes())
}

/// The word for whether something is so.
pub(crate) fn word(alloc: Global, is_so: bool) -> Result<Octets, AllocError>
    ensures { IfOk result (λ text. text ≡ yes_no is_so) }
{
    if is_so {
        return Octets::from_slice(alloc, b"yes");
    }
    Octets::from_slice(alloc, b"no")
}
