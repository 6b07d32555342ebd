//! Texts one behind the other, parted by a byte, as the values of an element are (PS3.5, section
//! 6.4).

ghost use Rattle.std.specs.Prelude.{◌≡◌, ◌++◌, ◌∷◌, if◌then◌else◌, IfOk, OnOk};
ghost use Rattle.std.specs.List.{join_with_byte};

use crate::octets_type::Octets;
use std::alloc::{AllocError, Global};

/// Adds a text to others, behind the separator where it is not the first.
fn add(bytes: &mut Vec<u8>, separator: u8, is_first: bool, text: &[u8]) -> Result<(), AllocError>
    ensures { OnOk result (bytes.new.items ≡
        bytes.old.items ++ (if is_first then text.now else separator ∷ text.now)) }
{
    if !is_first {
        bytes.push(separator)?;
    }
    bytes.extend_from_slice(text)
}

/// Some texts, with a separator between each two: a backslash, where they are the values of one
/// element.
pub fn joined(alloc: Global, separator: u8, texts: &[Octets]) -> Result<Octets, AllocError>
    ensures { IfOk result (λ text. text ≡ join_with_byte separator texts.now) }
{
    let mut bytes = Vec::new(alloc);
    for (i, text) in texts.iter().enumerate() {
        add(&mut bytes, separator, i == 0, text.as_slice())?;
    }
    Ok(Octets::of(bytes))
}
