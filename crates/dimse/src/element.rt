//! The elements of a command set, one after the other (PS3.7, section 6.3.1).

ghost use Rattle.std.specs.Prelude.{◌≡◌, ◌++◌, List, length, find, ◌==◌, IfOk, IfErr};
ghost use Rattle.std.specs.Option.{option_map};
ghost use Rattle.dimse.specs.Fault.{Gives};
ghost use Rattle.dictionary.specs.Tags.{is_above, tag_from};
ghost use Rattle.dimse.specs.Elements.{Element as Parts, IsElement, AreElements, element_text, text_of, value_of};
ghost use Rattle.dimse.specs.Elements.{element_at};
ghost use Rattle.dimse.specs.Command.{SpellsElements};
ghost use Rattle.dimse.specs.Refusal.{RefusesElements};

use crate::fault::DimseFault;
use dictionary::{is_after, tag_of};
use std::alloc::Global;
use std::marker::Model;

/// An element of a command set: its tag, group and element in one number, and its value.
#[derive(Drop)]
pub(crate) struct Element<'a> {
    tag: u32,
    value: &'a [u8],
}

impl<'a> Model for Element<'a> {
    ghost use Rattle.dimse.specs.Elements.{Element as Parts};

    ghost Value = { Parts };

    ghost view = { λ e. record { tag = e.tag; value = e.value.now } };
}

impl<'a> Element<'a> {
    pub(crate) fn tag(&self) -> u32
        ensures { result ≡ self.now.tag }
    {
        self.tag
    }

    pub(crate) fn value(&self) -> &'a [u8]
        ensures { result.now ≡ self.now.value }
    {
        self.value
    }
}

/// The element at the front, and what comes behind it.
#[tactic(auto, unfolding(crate::specs::Elements::element_at))]
fn element_of(previous: Option<u32>, text: &[u8]) -> Result<(Element<'_>, &[u8]), DimseFault>
    ensures { Gives (λ x. (x.0, x.1.now)) result (element_at previous text.now) }
{
    let [g0, g1, e0, e1, l0, l1, l2, l3, rest @ ..] = text else {
        return Err(DimseFault::BadCommand);
    };
    let tag = tag_of(*g0, *g1, *e0, *e1);
    let size = u32::from_le_bytes([*l0, *l1, *l2, *l3]) as usize;
    if !is_after(previous, tag) || rest.len() < size {
        return Err(DimseFault::BadCommand);
    }
    let (value, rest) = rest.split_at(size);
    Ok((Element { tag, value }, rest))
}

/// The same, as the text spells it.
fn next_element(previous: Option<u32>, text: &[u8]) -> Result<(Element<'_>, &[u8]), DimseFault>
    ensures given { Gives (λ x. (x.0, x.1.now)) result (element_at previous text.now) }
    ensures found { IfOk result (λ x. IsElement previous x.0
        × (text.now ≡ element_text x.0 ++ x.1.now)) }
{
    element_of(previous, text)
}

/// All elements of a text, in their order.
pub(crate) fn elements_of(alloc: Global, text: &[u8]) -> Result<Vec<Element<'_>>, DimseFault>
    ensures found { IfOk result (λ es. SpellsElements text.now es.items) }
    ensures refused { IfErr result (RefusesElements text.now) }
{
    let mut elements = Vec::new(alloc);
    let mut previous = None;
    let mut rest = text;
    while !rest.is_empty() {
        let (element, after) = next_element(previous, rest)?;
        previous = Some(element.tag());
        elements.push(element)?;
        rest = after;
    }
    Ok(elements)
}
