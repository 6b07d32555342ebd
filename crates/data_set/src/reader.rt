//! Reading what a text spells, in one pass (PS3.5, sections 7.1 and 7.5).
//!
//! The functions of the cycle go one level down for each sequence, of which at most 16 stand in one
//! another, so their recursion ends there whatever bytes come. A value is copied once, into its
//! element.

ghost use Rattle.std.specs.Prelude.{◌≡◌, ℕ, List, Option, length, map, ◌<◌, ◌≤◌, Ok, Err, IfOk, IfErr, IsTrue};
ghost use Rattle.octets.specs.Gives.{Told, Gives};
ghost use Rattle.data_set.specs.declared.fault.SetFault.{SetFault};
ghost use Rattle.data_set.specs.Fault.{is_memory};
ghost use Rattle.data_set.specs.Tree.{Tree};
ghost use Rattle.data_set.specs.Header.{is_place};
ghost use Rattle.data_set.specs.Tags.{item_end, sequence_end};
ghost use Rattle.data_set.specs.Texts.{IsElement, IsItem, Elements, Items, Body, Spells, HasFault};
ghost use Rattle.data_set.specs.Seen.{TellsAt, lists_of};

use crate::element::Element;
use crate::fault::SetFault;
use crate::header::{Closing, end_of, front_of, item_of};
use crate::set::DataSet;
use crate::syntax::Syntax;
use crate::vr::UNDEFINED_LENGTH;
use dictionary::{ITEM_DELIMITATION_ITEM, SEQUENCE_DELIMITATION_ITEM};
use octets::Octets;
use std::alloc::Global;

/// How many sequences may stand around an element (docs/DECISIONS.md, "Depth of sequences").
const DEEPEST: u8 = 16;

/// One element, in which so many sequences may stand in one another.
#[cycle(reading)]
fn read_element(
    alloc: Global,
    depth: u8,
    syntax: Syntax,
    previous: Option<u32>,
    text: &[u8],
) -> Result<(Element, &[u8]), SetFault>
    ensures exact { TellsAt (λ e. e) result (IsElement depth syntax previous text.now) }
    ensures shorter { IfOk result (λ x. length x.1.now < length text.now) }
{
    let (front, rest) = front_of(syntax, previous, text)?;
    match front.inner {
        None => {
            let (value, rest) = rest.split_at(front.size as usize);
            let value = Octets::from_slice(alloc, value)?;
            Ok((Element::leaf(front.tag, front.vr, value), rest))
        }
        Some(inner) => {
            let (items, rest) = read_sequence(alloc, depth, inner, front.size, rest)?;
            Ok((Element::sequence(front.tag, front.vr, items), rest))
        }
    }
}

/// The items of a sequence, of a length or up to its end.
#[cycle(reading)]
fn read_sequence(
    alloc: Global,
    depth: u8,
    syntax: Syntax,
    size: u32,
    text: &[u8],
) -> Result<(Vec<Vec<Element>>, &[u8]), SetFault>
    requires { IsTrue (is_place size text.now) }
    ensures exact { TellsAt (λ v. lists_of v.items) result
        (Body (Items depth syntax) sequence_end size text.now) }
    ensures shorter { IfOk result (λ x. length x.1.now ≤ length text.now) }
{
    if size == UNDEFINED_LENGTH {
        return read_items(
            alloc,
            depth,
            syntax,
            Closing::End(SEQUENCE_DELIMITATION_ITEM),
            text,
        );
    }
    let (place, after) = text.split_at(size as usize);
    let (items, _) = read_items(alloc, depth, syntax, Closing::Filled, place)?;
    Ok((items, after))
}

/// Items up to their end.
#[cycle(reading)]
fn read_items(
    alloc: Global,
    depth: u8,
    syntax: Syntax,
    closing: Closing,
    text: &[u8],
) -> Result<(Vec<Vec<Element>>, &[u8]), SetFault>
    ensures exact { TellsAt (λ v. lists_of v.items) result (Items depth syntax closing text.now) }
    ensures shorter { IfOk result (λ x. length x.1.now ≤ length text.now) }
{
    let mut items = Vec::new(alloc);
    let mut left = text;
    loop {
        if let Some(after) = end_of(closing, left) {
            return Ok((items, after));
        }
        let (elements, rest) = read_item(alloc, depth, syntax, left)?;
        items.push(elements)?;
        left = rest;
    }
}

/// One item, of a length or up to its end.
#[cycle(reading)]
fn read_item(
    alloc: Global,
    depth: u8,
    syntax: Syntax,
    text: &[u8],
) -> Result<(Vec<Element>, &[u8]), SetFault>
    ensures exact { (previous : Option ℕ) →
        TellsAt (λ v. v.items) result (IsItem depth syntax previous text.now) }
    ensures shorter { IfOk result (λ x. length x.1.now < length text.now) }
{
    let (size, rest) = item_of(depth, text)?;
    if size == UNDEFINED_LENGTH {
        return read_elements(
            alloc,
            depth - 1,
            syntax,
            Closing::End(ITEM_DELIMITATION_ITEM),
            rest,
        );
    }
    let (place, after) = rest.split_at(size as usize);
    let (elements, _) = read_elements(alloc, depth - 1, syntax, Closing::Filled, place)?;
    Ok((elements, after))
}

/// Elements up to their end.
#[cycle(reading)]
fn read_elements(
    alloc: Global,
    depth: u8,
    syntax: Syntax,
    closing: Closing,
    text: &[u8],
) -> Result<(Vec<Element>, &[u8]), SetFault>
    ensures exact { TellsAt (λ v. v.items) result (Elements depth syntax closing text.now) }
    ensures shorter { IfOk result (λ x. length x.1.now ≤ length text.now) }
{
    let mut elements = Vec::new(alloc);
    let mut previous = None;
    let mut left = text;
    loop {
        if let Some(after) = end_of(closing, left) {
            return Ok((elements, after));
        }
        let (element, rest) = read_element(alloc, depth, syntax, previous, left)?;
        previous = Some(element.tag());
        elements.push(element)?;
        left = rest;
    }
}

/// Reads the data set that a text spells, the whole text.
///
/// The limit of 64 MiB is that of a content, and is tested there.
pub fn read(alloc: Global, syntax: Syntax, text: &[u8]) -> Result<DataSet, SetFault>
    // What is read is spelled.
    ensures syntax { IfOk result (λ d. d.syntax ≡ syntax) }
    ensures found { IfOk result (λ d. Spells syntax text.now d.elements) }
    // What is spelled is read.
    ensures only { (ts : List Tree) →
        Spells syntax text.now ts → Gives is_memory (λ d. d.elements) result (Ok ts) }

    // A fault is that of the first element that offends.
    ensures fault { IfErr result (λ e. Told is_memory e (HasFault syntax text.now)) }
    ensures faulty { (f : SetFault) →
        HasFault syntax text.now f → Gives is_memory (λ d. d.elements) result (Err f) }
{
    let (elements, _) = read_elements(alloc, DEEPEST, syntax, Closing::Filled, text)?;
    Ok(DataSet::of(syntax, elements))
}
