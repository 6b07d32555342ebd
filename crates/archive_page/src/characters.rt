//! The text of a value, in UTF-8.

ghost use Rattle.std.specs.Prelude.{◌≡◌, IfOk, OnOk, ◌++◌};
ghost use Rattle.std.specs.Char.{encode_utf8};
ghost use Rattle.std.specs.List.{flat_map};
ghost use Rattle.std.specs.String.{string_bytes};
ghost use Rattle.archive_page.specs.Characters.{text_of as text_in};

use std::alloc::{AllocError, Global};
use std::str::from_utf8;

/// A character of Latin-1 for each byte.
fn of_latin_1(alloc: Global, value: &[u8]) -> Result<String, AllocError>
    ensures { IfOk result (λ text. string_bytes text ≡ flat_map encode_utf8 value.now) }
{
    let mut text = String::new(alloc);
    for byte in value {
        text.push(char::from(*byte))?;
    }
    Ok(text)
}

/// The text of a value: its own bytes where they are UTF-8, and else a character of Latin-1 for
/// each. The archive converts no character set (docs/DECISIONS.md,
/// "Text in a page").
pub fn text_of(alloc: Global, value: &[u8]) -> Result<String, AllocError>
    ensures { IfOk result (λ text. string_bytes text ≡ text_in value.now) }
{
    match from_utf8(value) {
        Ok(text) => String::from_str(alloc, text),
        Err(_) => of_latin_1(alloc, value),
    }
}
