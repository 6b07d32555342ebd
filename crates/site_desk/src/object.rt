//! The four words in an object of JSON (RFC 8259, section 4).

ghost use Rattle.std.specs.Prelude.{◌≡◌, IfOk};
ghost use Rattle.std.specs.Option.{option_copied};
ghost use Rattle.json.specs.Value.{value_view};
ghost use Rattle.site_desk.specs.Objects.{text_in, words_at, Tells};

use crate::words::Words;
use json::{Error, Scratch, Value};
use octets::Octets;
use std::alloc::{AllocError, Global};

/// The text of the member of a name, where it has one.
fn text<'a>(value: &Value<'a>, name: &str) -> Option<&'a [u8]>
    ensures { option_copied result ≡ text_in name.now (value_view value.now) }
{
    let member = value.get(name)?;
    let text = member.as_str()?;
    Some(text.as_bytes())
}

/// The four words of an object that has each. Of two members of one name the last counts.
fn object_words(alloc: Global, value: &Value<'_>) -> Result<Option<Words>, AllocError>
    ensures { IfOk result (λ words. words ≡ words_at (value_view value.now)) }
{
    let Some(target) = text(value, "target") else {
        return Ok(None);
    };
    let Some(key) = text(value, "key") else {
        return Ok(None);
    };
    let Some(tag) = text(value, "tag") else {
        return Ok(None);
    };
    let Some(value) = text(value, "value") else {
        return Ok(None);
    };
    Ok(Some(Words {
        target: Octets::from_slice(alloc, target)?,
        key: Octets::from_slice(alloc, key)?,
        tag: Octets::from_slice(alloc, tag)?,
        value: Octets::from_slice(alloc, value)?,
    }))
}

/// The four words of a text that is such an object.
pub(crate) fn text_words(alloc: Global, text: &[u8]) -> Result<Option<Words>, AllocError>
    ensures { IfOk result (Tells text.now) }
{
    let mut scratch = Scratch::new(alloc);
    match Value::from_slice(alloc, text, &mut scratch) {
        Ok(value) => object_words(alloc, &value),
        Err(Error::OutOfMemory) => Err(AllocError),
        Err(_invalid) => Ok(None),
    }
}
