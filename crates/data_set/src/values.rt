//! Values and items by their tag, among the elements of a data set or of an item.

ghost use Rattle.std.specs.Prelude.{◌≡◌, IfOk};
ghost use Rattle.std.specs.Option.{option_map};
ghost use Rattle.data_set.specs.Values.{padded, pad_of, with_tag, value_in, items_in};
ghost use Rattle.data_set.specs.Seen.{bytes_seen, items_seen};

use crate::element::Element;
use octets::{Octets, trimmed};
use std::alloc::{AllocError, Global};

/// The element with this tag.
pub fn element_of(elements: &[Element], tag: u32) -> Option<&Element>
    ensures { option_map (λ element. element.now) result ≡ with_tag tag elements.now }
{
    elements.iter().find(|element| element.tag() == tag)
}

/// The value of an element without its padding, or `None` where it is missing or a sequence.
pub fn value_of(elements: &[Element], tag: u32) -> Option<&[u8]>
    ensures { bytes_seen result ≡ value_in tag elements.now }
{
    let found = element_of(elements, tag)?;
    let stored = found.stored()?;
    Some(trimmed(stored))
}

/// The items of a sequence, or `None` where it is missing or holds a value.
pub fn items_of(elements: &[Element], tag: u32) -> Option<&[Vec<Element>]>
    ensures { items_seen result ≡ items_in tag elements.now }
{
    let found = element_of(elements, tag)?;
    found.items()
}

/// What pads a value of this value representation: 00 for UI, and a space otherwise.
fn pad_for(vr: [u8; 2]) -> u8
    ensures { result ≡ pad_of vr }
{
    if vr == *b"UI" { 0x00 } else { b' ' }
}

/// A value padded to even length (PS3.5, section 6.2): with 00 for UI, with a space otherwise.
pub fn padded_of(alloc: Global, vr: [u8; 2], value: &[u8]) -> Result<Octets, AllocError>
    ensures { IfOk result (λ octets. octets ≡ padded vr value.now) }
{
    if value.len() % 2 == 0 {
        return Octets::from_slice(alloc, value);
    }
    let mut bytes = Vec::with_capacity(alloc, value.len() + 1)?;
    bytes.extend_from_slice(value)?;
    bytes.push(pad_for(vr))?;
    Ok(Octets::of(bytes))
}
