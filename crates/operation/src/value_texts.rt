//! Values of elements as bytes. Numbers are spelled with the high byte first.

ghost use Rattle.std.specs.Prelude.{◌≡◌, ◌≢◌, ◌++◌, ◌∷◌, [], ◌<◌, ◌≤◌, ◌*◌, ◌^◌, List, ℕ, None, Some, length};
ghost use Rattle.std.specs.Prelude.{IfOk, IfSome, OnOk};
ghost use Rattle.operation.specs.KeyValues.{bytes_of, values_at};
ghost use Rattle.operation.specs.RecordTexts.{AreFit, value_text, values_text};

use crate::key_values::{KeyValues, Place, put};
use octets::{ListOf, Octets};
use std::alloc::{AllocError, Global};

/// Writes a value with its tag behind others.
fn put_value(out: &mut Vec<u8>, tag: u32, value: &[u8]) -> Result<(), AllocError>
    requires { length value.now < 2 ^ 32 }
    ensures { OnOk result (out.new.items ≡ out.old.items ++ value_text tag value.now) }
{
    out.extend_from_slice(&tag.to_be_bytes())?;
    out.extend_from_slice(&(value.len() as u32).to_be_bytes())?;
    out.extend_from_slice(value)
}

/// Writes the values that a text has at places.
#[tactic(auto, unfolding(crate::specs::RecordTexts::values_text))]
fn put_places(out: &mut Vec<u8>, text: &[u8], places: &[Place]) -> Result<(), AllocError>
    requires { bytes_of places.now ≤ length text.now }
    ensures text { OnOk result (out.new.items
        ≡ out.old.items ++ values_text (values_at places.now text.now)) }
    ensures fit { OnOk result (AreFit (values_at places.now text.now)) }
{
    match places {
        [] => Ok(()),
        [place, places @ ..] => {
            let (value, behind) = text.split_at(place.length as usize);
            put_value(out, place.tag, value)?;
            put_places(out, behind, places)
        }
    }
}

/// Writes values behind others.
pub(crate) fn put_values(out: &mut Vec<u8>, values: &KeyValues) -> Result<(), AllocError>
    ensures text { OnOk result (out.new.items ≡ out.old.items ++ values_text values.now) }
    ensures fit { OnOk result (AreFit values.now) }
{
    put_places(out, values.text.as_slice(), values.places.as_slice())
}

/// The tag and the value at the front of a text, and what stands behind them.
fn front_value(text: &[u8]) -> Option<(u32, &[u8], &[u8])>
    ensures parts { IfSome result (λ x. text.now ≡ value_text x.0 x.1.now ++ x.2.now) }
    ensures tag { IfSome result (λ x. x.0 < 2 ^ 32) }
    ensures fits { IfSome result (λ x. length x.1.now < 2 ^ 32) }
    ensures shorter { IfSome result (λ x. length x.2.now < length text.now) }
    ensures none { (tag : ℕ) (value rest : List ℕ) → tag < 2 ^ 32 → length value < 2 ^ 32
        → text.now ≡ value_text tag value ++ rest → result ≢ None }
{
    match text {
        [a, b, c, d, e, f, g, h, rest @ ..] => {
            let tag = u32::from_be_bytes([*a, *b, *c, *d]);
            let size = u32::from_be_bytes([*e, *f, *g, *h]) as usize;
            if rest.len() < size {
                return None;
            }
            let (value, behind) = rest.split_at(size);
            Some((tag, value, behind))
        }
        _ => None,
    }
}

/// The values that a text has, if it has nothing else.
pub(crate) fn values_of(alloc: Global, text: &[u8]) -> Result<Option<KeyValues>, AllocError>
    ensures { (values : List (ℕ × List ℕ)) → AreFit values → text.now ≡ values_text values
        → IfOk result (λ found. found ≡ Some values) }
{
    let mut bytes = Vec::new(alloc);
    let mut places = Vec::new(alloc);
    let mut rest = text;
    'values: while !rest.is_empty() {
        let Some((tag, value, behind)) = front_value(rest) else {
            return Ok(None);
        };
        put(&mut bytes, &mut places, tag, value)?;
        rest = behind;
    }
    bytes.shrink_to_fit();
    places.shrink_to_fit();
    Ok(Some(KeyValues {
        text: Octets::of(bytes),
        places: ListOf::of(places),
    }))
}
