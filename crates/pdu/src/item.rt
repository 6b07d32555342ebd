//! Items and sub-items (PS3.8, section 9.3.2; PS3.7, annex D).

ghost use Rattle.std.specs.Prelude.{◌≡◌, ◌≢◌, ◌≤◌, List, ℕ, [], ◌∷◌, length, drop, Result, IfSome, IsNone};
ghost use Rattle.pdu.specs.declared.fault.PduFault.{PduFault};
ghost use Rattle.pdu.specs.Fault.{Gives};
ghost use Rattle.pdu.specs.Grammar.{contents_of};
ghost use Rattle.pdu.specs.Reading.{item_at, pieces_of, each_at, sole_at};

use crate::fault::PduFault;
use bytes::Bytes;
use octets::ListOf;
use std::alloc::Global;

pub(crate) const APPLICATION_CONTEXT: u8 = 0x10;

/// A presentation context that is proposed, in an A-ASSOCIATE-RQ.
pub(crate) const PROPOSED_CONTEXT: u8 = 0x20;

/// A presentation context that is answered, in an A-ASSOCIATE-AC.
pub(crate) const ANSWERED_CONTEXT: u8 = 0x21;

pub(crate) const ABSTRACT_SYNTAX: u8 = 0x30;

pub(crate) const TRANSFER_SYNTAX: u8 = 0x40;

pub(crate) const USER_INFORMATION: u8 = 0x50;

pub(crate) const MAXIMUM_LENGTH: u8 = 0x51;

pub(crate) const IMPLEMENTATION_CLASS: u8 = 0x52;

pub(crate) const ROLE_SELECTION: u8 = 0x54;

/// A type, and what stands behind the length.
#[derive(Debug, Drop)]
pub(crate) struct Item {
    pub kind: u8,
    pub content: Bytes,
}

/// What an item's content says.
pub(crate) trait Content: Drop {
    ghost content_at: { List ℕ → Result Self PduFault };

    fn read(alloc: Global, content: &Bytes) -> Result<Self, PduFault>
        ensures { Gives result (content_at content.now) };
}

/// The item at the front, and what comes behind it.
fn item_of(text: Bytes) -> Result<(Item, Bytes), PduFault>
    ensures { Gives result (item_at text) }
{
    let [kind, _, high, low, ..] = text.as_slice() else {
        return Err(PduFault::BadItem);
    };
    let kind = *kind;
    let size = u16::from_be_bytes([*high, *low]) as usize;
    let mut content = text;
    content.advance(4);
    if content.len() < size {
        return Err(PduFault::BadItem);
    }
    let rest = content.split_off(size)?;
    Ok((Item { kind, content }, rest))
}

/// The items that fill a text, in order.
fn items_of(alloc: Global, text: Bytes) -> Result<ListOf<Item>, PduFault>
    ensures { Gives result (pieces_of item_at text) }
{
    let mut items = ListOf::new(alloc);
    let mut rest = text;
    while !rest.is_empty() {
        let (item, after) = item_of(rest)?;
        items.push(item)?;
        rest = after;
    }
    Ok(items)
}

/// The items that fill what comes behind some bytes.
pub(crate) fn items_behind(
    alloc: Global,
    body: &Bytes,
    front: usize,
) -> Result<ListOf<Item>, PduFault>
    requires { front ≤ length body.now }
    ensures { Gives result (pieces_of item_at (drop front body.now)) }
{
    let mut text = body.slice(..)?;
    text.advance(front);
    items_of(alloc, text)
}

/// What the items of one kind say, in order.
pub(crate) fn each_of<C: Content>(
    alloc: Global,
    items: &[Item],
    kind: u8,
) -> Result<ListOf<C>, PduFault>
    ensures { Gives result (each_at C.content_at (contents_of kind items.now)) }
{
    let mut found = ListOf::new(alloc);
    for item in items {
        if item.kind == kind {
            found.push(C::read(alloc, &item.content)?)?;
        }
    }
    Ok(found)
}

/// What the only item of one kind says.
pub(crate) fn sole_of<C: Content>(alloc: Global, items: &[Item], kind: u8) -> Result<C, PduFault>
    ensures { Gives result (sole_at C.content_at (contents_of kind items.now)) }
{
    let Some(content) = sole_content(items, kind) else {
        return Err(PduFault::BadItem);
    };
    C::read(alloc, content)
}

/// The content of the only item of one kind, where there is one and no other.
fn sole_content(items: &[Item], kind: u8) -> Option<&Bytes>
    ensures found { IfSome result (λ content. contents_of kind items.now ≡ content.now ∷ []) }
    ensures none { IsNone result → length (contents_of kind items.now) ≢ 1 }
{
    let mut found = None;
    for item in items {
        if item.kind == kind {
            if found.is_some() {
                return None;
            }
            found = Some(&item.content);
        }
    }
    found
}
