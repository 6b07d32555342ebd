//! The values that a content keeps, all in one text.

ghost use Rattle.std.specs.Prelude.{◌≡◌, ◌++◌, ◌∷◌, [], ◌<◌, ◌≤◌, ◌↔◌, length, IfOk, OnOk, IsTrue};
ghost use Rattle.std.specs.List.{filter_map};
ghost use Rattle.std.specs.Option.{option_map};
ghost use Rattle.data_set.specs.Lengths.{FitsTrees};
ghost use Rattle.data_set.specs.Tree.{trees_of};
ghost use Rattle.operation.specs.Contents.{tagged};
ghost use Rattle.operation.specs.KeyValues.{bytes_in, bytes_of, values_at};
ghost use Rattle.operation.specs.Parts.{value_at, value_or_empty};

use data_set::{Element, value_of};
use octets::{ListOf, Octets};
use std::alloc::{AllocError, Global};
use std::marker::Model;

/// An element's tag, and how many bytes of the text its value has. They begin where those of the
/// place before it end.
#[derive(Debug, Drop)]
pub(crate) struct Place {
    pub(crate) tag: u32,
    pub(crate) length: u32,
}

impl Model for Place {
    ghost use Rattle.std.specs.Prelude.{ℕ};

    ghost Value = { ℕ × ℕ };

    ghost view = { λ p. (p.tag, p.length) };
}

/// The trimmed values of elements that queries know, each with its tag.
///
/// All of them stand in one text, one behind the other, and the places say which is which: two
/// blocks of memory, neither with room to spare.
#[derive(Debug, Drop)]
pub struct KeyValues {
    pub(crate) text: Octets,
    pub(crate) places: ListOf<Place>,
}

impl Model for KeyValues {
    ghost use Rattle.std.specs.Prelude.{◌≡◌, length, List, ℕ};
    ghost use Rattle.operation.specs.KeyValues.{bytes_of, values_at};

    ghost Value = { List (ℕ × List ℕ) };

    ghost view = { λ k. values_at k.places k.text };

    ghost invariant = { λ k. bytes_of k.places ≡ length k.text };
}

fn value_under<'a>(text: &'a [u8], places: &[Place], tag: u32) -> Option<&'a [u8]>
    requires { bytes_of places.now ≤ length text.now }
    ensures { option_map (λ v. v.now) result ≡ value_at tag (values_at places.now text.now) }
{
    let mut rest = text;
    for place in places {
        let (value, behind) = rest.split_at(place.length as usize);
        if place.tag == tag {
            return Some(value);
        }
        rest = behind;
    }
    None
}

fn same_places(these: &[Place], those: &[Place]) -> bool
    ensures { IsTrue result ↔ (these.now ≡ those.now) }
{
    match (these, those) {
        ([], []) => true,
        ([], [_, ..]) => false,
        ([_, ..], []) => false,
        ([a, these @ ..], [b, those @ ..]) => {
            a.tag == b.tag && a.length == b.length && same_places(these, those)
        }
    }
}

impl KeyValues {
    /// The value under a tag, if there is one.
    pub fn value(&self, tag: u32) -> Option<&[u8]>
        ensures { option_map (λ v. v.now) result ≡ value_at tag self.now }
    {
        value_under(self.text.as_slice(), self.places.as_slice(), tag)
    }

    /// The same, empty where there is none.
    pub fn value_or_empty(&self, tag: u32) -> &[u8]
        ensures { result.now ≡ value_or_empty (value_at tag self.now) }
    {
        match self.value(tag) {
            Some(value) => value,
            None => &[],
        }
    }

    /// Whether both have the same values under the same tags.
    pub fn equals(&self, other: &KeyValues) -> bool
        ensures { IsTrue result ↔ (self.now ≡ other.now) }
    {
        same_places(self.places.as_slice(), other.places.as_slice())
            && self.text.equals(&other.text)
    }
}

/// Puts a value behind the others.
pub(crate) fn put(
    text: &mut Vec<u8>,
    places: &mut Vec<Place>,
    tag: u32,
    value: &[u8],
) -> Result<(), AllocError>
    requires filled { bytes_of places.old.items ≡ length text.old.items }
    requires fits { length value.now < 4294967296 }
    ensures filled { OnOk result (bytes_of places.new.items ≡ length text.new.items) }
    ensures added { OnOk result (values_at places.new.items text.new.items
        ≡ values_at places.old.items text.old.items ++ (tag, value.now) ∷ []) }
{
    text.extend_from_slice(value)?;
    places.push(Place {
        tag,
        length: value.len() as u32,
    })?;
    Ok(())
}

/// How many of the tags have a value, and how many bytes these values have together.
fn room_for(tags: &[u32], elements: &[Element]) -> (usize, usize)
    requires few { length tags.now ≤ 64 }
    requires fit { FitsTrees (trees_of elements.now) }
    ensures values { result.0
        ≡ length (filter_map (λ tag. tagged tag elements.now) tags.now) }
    ensures bytes { result.1
        ≡ bytes_in (filter_map (λ tag. tagged tag elements.now) tags.now) }
{
    let mut values = 0;
    let mut bytes = 0;
    for tag in tags {
        if let Some(value) = value_of(elements, *tag) {
            values += 1;
            bytes += value.len();
        }
    }
    (values, bytes)
}

/// The values that elements have under these tags. Each is copied once.
pub(crate) fn values_under(
    alloc: Global,
    tags: &[u32],
    elements: &[Element],
) -> Result<KeyValues, AllocError>
    requires few { length tags.now ≤ 64 }
    requires fit { FitsTrees (trees_of elements.now) }
    ensures { IfOk result (λ values. values
        ≡ filter_map (λ tag. tagged tag elements.now) tags.now) }
{
    let (values, bytes) = room_for(tags, elements);
    let mut places = Vec::with_capacity(alloc, values)?;
    let mut text = Vec::with_capacity(alloc, bytes)?;
    for tag in tags {
        if let Some(value) = value_of(elements, *tag) {
            put(&mut text, &mut places, *tag, value)?;
        }
    }
    Ok(KeyValues {
        text: Octets::of(text),
        places: ListOf::of(places),
    })
}
