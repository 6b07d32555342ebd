//! Text within HTML.

ghost use Rattle.std.specs.Prelude.{◌≡◌, ◌<◌, ◌++◌, OnOk};
ghost use Rattle.std.specs.Char.{digit_char};
ghost use Rattle.std.specs.List.{flat_map};
ghost use Rattle.archive_page.specs.Escaping.{is_plain as is_plain_in, escape_byte, escaped};

use crate::characters::text_of;
use std::alloc::{AllocError, Global};

/// Whether a byte can make no markup and is no control character.
fn is_plain(byte: u8) -> bool
    ensures { result ≡ is_plain_in byte }
{
    !(byte < 32 || byte == 127 || matches!(byte, b'"' | b'&' | b'\'' | b'<' | b'>'))
}

/// A hexadecimal digit.
fn digit(value: u8) -> u8
    requires { value < 16 }
    ensures { result ≡ digit_char value }
{
    if value < 10 { 48 + value } else { 87 + value }
}

/// Puts a byte, or the reference that stands for it (HTML, section 13.1.4).
#[tactic(auto, unfolding(crate::specs::Escaping::escape_byte))]
fn put_byte(out: &mut Vec<u8>, byte: u8) -> Result<(), AllocError>
    ensures { OnOk result (out.new.items ≡ out.old.items ++ escape_byte byte) }
{
    if is_plain(byte) {
        out.push(byte)?;
        return Ok(());
    }
    let reference = [b'&', b'#', b'x', digit(byte / 16), digit(byte % 16), b';'];
    out.extend_from_slice(reference.as_slice())
}

/// Puts the bytes of a text, each as it is or as the reference that stands for it.
fn put_bytes(out: &mut Vec<u8>, text: &[u8]) -> Result<(), AllocError>
    ensures { OnOk result (out.new.items ≡ out.old.items ++ flat_map escape_byte text.now) }
{
    for byte in text {
        put_byte(out, *byte)?;
    }
    Ok(())
}

/// Puts the text of a value as HTML shows it, within an element or an attribute in quotes.
#[tactic(auto, unfolding(crate::specs::Escaping::escaped))]
pub fn put_escaped(alloc: Global, out: &mut Vec<u8>, value: &[u8]) -> Result<(), AllocError>
    ensures { OnOk result (out.new.items ≡ out.old.items ++ escaped value.now) }
{
    let text = text_of(alloc, value)?;
    put_bytes(out, text.as_bytes())
}
