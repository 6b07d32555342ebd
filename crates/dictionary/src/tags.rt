//! Tags: a group and an element, of 16 bits each (PS3.5, section 7.1.1), as one number, and the
//! four bytes that spell them in data sets and in command sets.

ghost use Rattle.std.specs.Prelude.{◌≡◌, ◌++◌, OnOk};
ghost use Rattle.dictionary.specs.Tags.{tag_from, tag_text, is_above};

use std::alloc::AllocError;

/// The tag that four bytes spell: group and element, each with the low byte first.
pub fn tag_of(g0: u8, g1: u8, e0: u8, e1: u8) -> u32
    ensures { result ≡ tag_from g0 g1 e0 e1 }
{
    let group = u16::from_le_bytes([g0, g1]);
    let element = u16::from_le_bytes([e0, e1]);
    u32::from(group) * 65536 + u32::from(element)
}

/// Puts a tag at the end: group and element, each with the low byte first.
pub fn put_tag(out: &mut Vec<u8>, tag: u32) -> Result<(), AllocError>
    ensures { OnOk result (out.new.items ≡ out.old.items ++ tag_text tag) }
{
    let group = (tag / 65536) as u16;
    let element = (tag % 65536) as u16;
    out.extend_from_slice(&group.to_le_bytes())?;
    out.extend_from_slice(&element.to_le_bytes())?;
    Ok(())
}

/// Whether a tag may come behind another, and any where none came before: tags ascend.
pub fn is_after(previous: Option<u32>, tag: u32) -> bool
    ensures { result ≡ is_above previous tag }
{
    match previous {
        None => true,
        Some(last) => last < tag,
    }
}
