//! The four words in a form (URL Standard, section 5.1).

ghost use Rattle.std.specs.Prelude.{◌≡◌, ℕ, IfOk, Option, length};
ghost use Rattle.std.specs.List.{find};
ghost use Rattle.std.specs.Option.{option_copied, option_map};
ghost use Rattle.form_urlencoded.specs.Form.{raw_pairs as raw_pairs_of};
ghost use Rattle.octets.specs.Texts.{same};
ghost use Rattle.site_desk.specs.Forms.{is_named, text_of, first_in, words_in};

use crate::words::Words;
use form_urlencoded::{decode, raw_pairs};
use octets::Octets;
use std::alloc::{AllocError, Global};

fn is(text: &[u8], word: &[u8]) -> bool
    ensures { result ≡ same text.now word.now }
{
    text == word
}

/// What stands behind the first key of a name, if it stands there, still encoded.
fn first<'a>(form: &'a [u8], name: &[u8]) -> Option<&'a [u8]>
    ensures { option_copied result ≡ first_in name.now (raw_pairs_of form.now) }
{
    for (key, value) in raw_pairs(form) {
        if is(key, name) {
            return Some(value);
        }
    }
    None
}

/// How many pairs a form has.
fn pairs(form: &[u8]) -> usize
    ensures { result ≡ length (raw_pairs_of form.now) }
{
    let mut count = 0;
    for (_key, _value) in raw_pairs(form) {
        count += 1;
    }
    count
}

/// A value as a form has it, decoded.
fn decoded(alloc: Global, value: &[u8]) -> Result<Octets, AllocError>
    ensures { IfOk result (λ text. text ≡ text_of value.now) }
{
    let text = decode(alloc, value)?;
    Octets::from_slice(alloc, text.as_bytes())
}

/// The four words of a form that has each once, and nothing else.
pub(crate) fn form_words(alloc: Global, form: &[u8]) -> Result<Option<Words>, AllocError>
    ensures { IfOk result (λ words. words ≡ words_in (raw_pairs_of form.now)) }
{
    if pairs(form) != 4 {
        return Ok(None);
    }
    let Some(target) = first(form, b"target") else {
        return Ok(None);
    };
    let Some(key) = first(form, b"key") else {
        return Ok(None);
    };
    let Some(tag) = first(form, b"tag") else {
        return Ok(None);
    };
    let Some(value) = first(form, b"value") else {
        return Ok(None);
    };
    Ok(Some(Words {
        target: decoded(alloc, target)?,
        key: decoded(alloc, key)?,
        tag: decoded(alloc, tag)?,
        value: decoded(alloc, value)?,
    }))
}
