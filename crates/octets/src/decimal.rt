//! Numbers in decimal digits.

ghost use Rattle.std.specs.Prelude.{◌≡◌, ◌++◌, IfOk, OnOk};
ghost use Rattle.std.specs.Fmt.{decimal};

use crate::octets_type::Octets;
use std::alloc::{AllocError, Global};

/// Adds a number in decimal digits, without zeros before it.
pub fn put_digits(alloc: Global, out: &mut Vec<u8>, number: u64) -> Result<(), AllocError>
    ensures { OnOk result (out.new.items ≡ out.old.items ++ decimal number) }
{
    let digits = number.to_string(alloc)?;
    out.extend_from_slice(digits.as_bytes())
}

/// A number in decimal digits, without zeros before it.
pub fn digits(alloc: Global, number: u64) -> Result<Octets, AllocError>
    ensures { IfOk result (λ text. text ≡ decimal number) }
{
    let text = number.to_string(alloc)?;
    Octets::from_slice(alloc, text.as_bytes())
}
