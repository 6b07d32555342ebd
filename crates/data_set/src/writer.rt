//! Writing data sets, with sequences and items of undefined length (PS3.5, section 7.5.2).
//!
//! Elements and items are written by loops, and the functions of the cycle go one level down for
//! each sequence, so their recursion is no deeper than the 16 levels of a data set.

ghost use Rattle.std.specs.Prelude.{◌≡◌, ◌++◌, ◌∷◌, [], OnOk, IfOk, Some};
ghost use Rattle.data_set.specs.Tree.{rows_of, trees_of};
ghost use Rattle.dictionary.specs.Tags.{tag_text};
ghost use Rattle.data_set.specs.Spelling.{FitsHead};
ghost use Rattle.data_set.specs.Texts.{Spells};
ghost use Rattle.data_set.specs.Written.{head_of, end_text, text_of, text_tree, text_rows, text_trees};
ghost use Rattle.data_set.specs.Seen.{lists_of};
ghost use Rattle.data_set.specs.Lengths.{FitsTree, FitsRows, FitsTrees};

use crate::element::{Content, Element};
use crate::set::DataSet;
use crate::vr::{UNDEFINED_LENGTH, has_short_length};
use dictionary::{ITEM, ITEM_DELIMITATION_ITEM, SEQUENCE_DELIMITATION_ITEM, put_tag};
use std::alloc::{AllocError, Global};

/// Puts a value representation and a length at the end (PS3.5, section 7.1.2).
fn put_pair(out: &mut Vec<u8>, a: u8, b: u8, size: u32) -> Result<(), AllocError>
    requires { FitsHead (Some (a ∷ b ∷ [])) size }
    ensures { OnOk result (out.new.items ≡
        out.old.items ++ head_of (Some (a ∷ b ∷ [])) size) }
{
    if has_short_length(a, b) {
        let [c, d] = (size as u16).to_le_bytes();
        out.extend_from_slice(&[a, b, c, d])
    } else {
        let [c, d, e, f] = size.to_le_bytes();
        out.extend_from_slice(&[a, b, 0x00, 0x00, c, d, e, f])
    }
}

/// Puts what stands between a tag and a value at the end.
fn put_head(out: &mut Vec<u8>, vr: Option<[u8; 2]>, size: u32) -> Result<(), AllocError>
    requires { FitsHead vr size }
    ensures { OnOk result (out.new.items ≡ out.old.items ++ head_of vr size) }
{
    match vr {
        None => out.extend_from_slice(&size.to_le_bytes()),
        Some(pair) => {
            let [a, b] = pair;
            put_pair(out, a, b, size)
        }
    }
}

/// Puts the end of an item or of a sequence at the end.
fn put_end(out: &mut Vec<u8>, tag: u32) -> Result<(), AllocError>
    ensures { OnOk result (out.new.items ≡ out.old.items ++ end_text tag) }
{
    put_tag(out, tag)?;
    out.extend_from_slice(&[0x00, 0x00, 0x00, 0x00])
}

/// Puts one element at the end.
#[cycle(writing)]
fn put_element(out: &mut Vec<u8>, element: &Element) -> Result<(), AllocError>
    requires { FitsTree element.now }
    ensures { OnOk result (out.new.items ≡ out.old.items ++ text_tree element.now) }
{
    put_tag(out, element.tag)?;
    match &element.content {
        Content::Bytes(value) => {
            put_head(out, element.vr, value.len() as u32)?;
            out.extend_from_slice(value.as_slice())
        }
        Content::Items(items) => {
            put_head(out, element.vr, UNDEFINED_LENGTH)?;
            put_items(out, items.as_slice())?;
            put_end(out, SEQUENCE_DELIMITATION_ITEM)
        }
    }
}

/// Puts items at the end, one after the other.
#[cycle(writing)]
fn put_items(out: &mut Vec<u8>, items: &[Vec<Element>]) -> Result<(), AllocError>
    requires { FitsRows (rows_of (lists_of items.now)) }
    ensures { OnOk result (out.new.items ≡
        out.old.items ++ text_rows (rows_of (lists_of items.now))) }
{
    for item in items {
        put_tag(out, ITEM)?;
        out.extend_from_slice(&UNDEFINED_LENGTH.to_le_bytes())?;
        put_elements(out, item.as_slice())?;
        put_end(out, ITEM_DELIMITATION_ITEM)?;
    }
    Ok(())
}

/// Puts elements at the end, one after the other.
#[cycle(writing)]
fn put_elements(out: &mut Vec<u8>, elements: &[Element]) -> Result<(), AllocError>
    requires { FitsTrees (trees_of elements.now) }
    ensures { OnOk result (out.new.items ≡ out.old.items ++ text_trees (trees_of elements.now)) }
{
    for element in elements {
        put_element(out, element)?;
    }
    Ok(())
}

/// Writes the text of a data set.
pub fn write(alloc: Global, set: &DataSet) -> Result<Vec<u8>, AllocError>
    ensures exact { IfOk result (λ text. text.items ≡ text_of set.now.elements) }
    // It is read again.
    ensures again { IfOk result (λ text. Spells set.now.syntax text.items set.now.elements) }
{
    let mut out = Vec::new(alloc);
    put_elements(&mut out, set.elements())?;
    Ok(out)
}
