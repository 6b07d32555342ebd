//! The header at the front of a text, and what offends in it (PS3.5, sections 7.1 and 7.5).

ghost use Rattle.std.specs.Prelude.{◌≡◌, ◌∷◌, [], ◌<◌, ◌≤◌, length, Ok, None, IfOk, IfSome, IsTrue};
ghost use Rattle.std.specs.Option.{option_map};
ghost use Rattle.data_set.specs.Header.{implicit_header, explicit_header, long_size, short_size, header_at, offence};
ghost use Rattle.data_set.specs.Header.{is_place, front_at, item_at, eight_at, end_at};
ghost use Rattle.data_set.specs.Spelling.{Begins, BeginsItem};
ghost use Rattle.data_set.specs.Seen.{GivesAt, bytes_seen};

use crate::fault::SetFault;
use crate::syntax::Syntax;
use crate::tags::{has_reserved_group, is_item_or_end};
use crate::vr::{
    UNDEFINED_LENGTH, has_no_length, has_short_length, has_wrong_vr, is_capital_letter,
    syntax_inside,
};
use dictionary::{ITEM, is_after, tag_of};

/// What stands before a value.
#[derive(Clone, Copy, Debug)]
pub struct Header {
    pub tag: u32,
    pub vr: Option<[u8; 2]>,
    pub size: u32,
}

/// The same of an element in which nothing offends, with the syntax of its items.
#[derive(Clone, Copy, Debug)]
pub struct Front {
    pub tag: u32,
    pub vr: Option<[u8; 2]>,
    /// `None` where the element holds a value.
    pub inner: Option<Syntax>,
    pub size: u32,
}

/// What ends a sequence or an item: that its length is filled, or an end with this tag.
#[derive(Clone, Copy, Debug)]
pub enum Closing {
    Filled,
    End(u32),
}

/// Tag and length (PS3.5, section 7.1.3).
fn implicit(text: &[u8]) -> Result<(Header, &[u8]), SetFault>
    ensures exact { GivesAt result (implicit_header text.now) }
    ensures shorter { IfOk result (λ x. length x.1.now < length text.now) }
{
    match text {
        [g0, g1, e0, e1, l0, l1, l2, l3, rest @ ..] => {
            let header = Header {
                tag: tag_of(*g0, *g1, *e0, *e1),
                vr: None,
                size: u32::from_le_bytes([*l0, *l1, *l2, *l3]),
            };
            Ok((header, rest))
        }
        _ => Err(SetFault::Truncated),
    }
}

/// Behind tag and value representation: two reserved bytes, which may be any, and a length of four.
fn long(tag: u32, a: u8, b: u8, text: &[u8]) -> Result<(Header, &[u8]), SetFault>
    ensures exact { GivesAt result (long_size tag (a ∷ b ∷ []) text.now) }
    ensures shorter { IfOk result (λ x. length x.1.now < length text.now) }
{
    match text {
        [_, _, l0, l1, l2, l3, rest @ ..] => {
            let header = Header {
                tag,
                vr: Some([a, b]),
                size: u32::from_le_bytes([*l0, *l1, *l2, *l3]),
            };
            Ok((header, rest))
        }
        _ => Err(SetFault::Truncated),
    }
}

/// Behind any other: a length of two bytes.
fn short(tag: u32, a: u8, b: u8, text: &[u8]) -> Result<(Header, &[u8]), SetFault>
    ensures exact { GivesAt result (short_size tag (a ∷ b ∷ []) text.now) }
    ensures shorter { IfOk result (λ x. length x.1.now < length text.now) }
{
    match text {
        [l0, l1, rest @ ..] => {
            let header = Header {
                tag,
                vr: Some([a, b]),
                size: u32::from(u16::from_le_bytes([*l0, *l1])),
            };
            Ok((header, rest))
        }
        _ => Err(SetFault::Truncated),
    }
}

/// Tag, value representation and length (PS3.5, section 7.1.2). A tag of group FFFE, and what is
/// no value representation, have eight bytes (docs/DECISIONS.md, "Headers of eight bytes").
fn explicit(text: &[u8]) -> Result<(Header, &[u8]), SetFault>
    ensures exact { GivesAt result (explicit_header text.now) }
    ensures shorter { IfOk result (λ x. length x.1.now < length text.now) }
{
    match text {
        [g0, g1, e0, e1, a, b, rest @ ..] => {
            let tag = tag_of(*g0, *g1, *e0, *e1);
            let capitals = is_capital_letter(*a) && is_capital_letter(*b);
            if !is_item_or_end(tag) && capitals && !has_short_length(*a, *b) {
                long(tag, *a, *b, rest)
            } else {
                short(tag, *a, *b, rest)
            }
        }
        _ => Err(SetFault::Truncated),
    }
}

/// The header as the syntax spells it.
#[tactic(auto, unfolding(crate::specs::Header::header_at))]
fn header_of(syntax: Syntax, text: &[u8]) -> Result<(Header, &[u8]), SetFault>
    ensures exact { GivesAt result (header_at syntax text.now) }
    ensures shorter { IfOk result (λ x. length x.1.now < length text.now) }
{
    match syntax {
        Syntax::Implicit => implicit(text),
        Syntax::Explicit => explicit(text),
    }
}

/// What offends in a header, if anything does.
#[tactic(auto, unfolding(crate::specs::Header::offence))]
fn offence_of(previous: Option<u32>, header: &Header) -> Option<SetFault>
    ensures { result ≡ offence previous header.now }
{
    let tag = header.tag;
    if is_item_or_end(tag) || !is_after(previous, tag) {
        return Some(SetFault::Order);
    }
    if has_reserved_group(tag) {
        return Some(SetFault::Group);
    }
    if has_wrong_vr(tag, header.vr) {
        return Some(SetFault::BadVr);
    }
    let inner = syntax_inside(tag, header.vr, header.size);
    if has_no_length(tag, inner, header.size) {
        return Some(SetFault::Undefined);
    }
    None
}

/// Whether what has this length, or an end, may stand in a place.
pub fn is_within(size: u32, text: &[u8]) -> bool
    ensures { result ≡ is_place size text.now }
{
    size == UNDEFINED_LENGTH || size as usize <= text.len()
}

/// The header of an element at the front, with the syntax of its items, and what comes behind it.
#[tactic(auto, unfolding(crate::specs::Header::front_at))]
fn front_read(
    syntax: Syntax,
    previous: Option<u32>,
    text: &[u8],
) -> Result<(Front, &[u8]), SetFault>
    ensures exact { GivesAt result (front_at syntax previous text.now) }
    ensures shorter { IfOk result (λ x. length x.1.now < length text.now) }
    ensures placed { IfOk result (λ x. IsTrue (is_place x.0.size x.1.now)) }
    ensures sized { IfOk result (λ x. x.0.inner ≡ None → x.0.size ≤ length x.1.now) }
{
    let (header, rest) = header_of(syntax, text)?;
    if let Some(fault) = offence_of(previous, &header) {
        return Err(fault);
    }
    if !is_within(header.size, rest) {
        return Err(SetFault::Truncated);
    }
    let front = Front {
        tag: header.tag,
        vr: header.vr,
        inner: syntax_inside(header.tag, header.vr, header.size),
        size: header.size,
    };
    Ok((front, rest))
}

/// The length of the item at the front, and what comes behind its header.
#[tactic(auto, unfolding(crate::specs::Header::item_at))]
fn item_read(depth: u8, text: &[u8]) -> Result<(u32, &[u8]), SetFault>
    ensures exact { GivesAt result (item_at depth text.now) }
    ensures shorter { IfOk result (λ x. length x.1.now < length text.now) }
    ensures placed { IfOk result (λ x. IsTrue (is_place x.0 x.1.now)) }
    ensures deep { IfOk result (λ x. 0 < depth) }
{
    let (header, rest) = header_of(Syntax::Implicit, text)?;
    if header.tag != ITEM {
        return Err(SetFault::Order);
    }
    if depth == 0 {
        return Err(SetFault::Depth);
    }
    if !is_within(header.size, rest) {
        return Err(SetFault::Truncated);
    }
    Ok((header.size, rest))
}

/// What comes behind the end that is awaited, if it stands at the front.
#[tactic(auto, unfolding(crate::specs::Header::end_at))]
pub fn end_of(closing: Closing, text: &[u8]) -> Option<&[u8]>
    ensures exact { bytes_seen result ≡ end_at closing text.now }
    ensures shorter { IfSome result (λ x. length x.now ≤ length text.now) }
{
    match closing {
        Closing::Filled => {
            if text.is_empty() {
                return Some(text);
            }
            None
        }
        Closing::End(tag) => {
            if let Some((found, size, rest)) = eight(text) {
                if found == tag && size == 0 {
                    return Some(rest);
                }
            }
            None
        }
    }
}

/// A tag and a length, and what comes behind them.
#[tactic(auto, unfolding(crate::specs::Header::eight_at))]
fn eight(text: &[u8]) -> Option<(u32, u32, &[u8])>
    ensures exact { option_map (λ x. (x.0, (x.1, x.2.now))) result ≡ eight_at text.now }
    ensures shorter { IfSome result (λ x. length x.2.now ≤ length text.now) }
{
    match text {
        [g0, g1, e0, e1, l0, l1, l2, l3, rest @ ..] => {
            let tag = tag_of(*g0, *g1, *e0, *e1);
            let size = u32::from_le_bytes([*l0, *l1, *l2, *l3]);
            Some((tag, size, rest))
        }
        _ => None,
    }
}

/// The same, as the grammar has it.
pub fn front_of(
    syntax: Syntax,
    previous: Option<u32>,
    text: &[u8],
) -> Result<(Front, &[u8]), SetFault>
    ensures exact { GivesAt result (front_at syntax previous text.now) }
    ensures stands { IfOk result (λ x. Begins syntax previous text.now x.0 x.1.now) }
    ensures shorter { IfOk result (λ x. length x.1.now < length text.now) }
    ensures placed { IfOk result (λ x. IsTrue (is_place x.0.size x.1.now)) }
    ensures sized { IfOk result (λ x. x.0.inner ≡ None → x.0.size ≤ length x.1.now) }
{
    front_read(syntax, previous, text)
}

/// The same, as the grammar has it.
pub fn item_of(depth: u8, text: &[u8]) -> Result<(u32, &[u8]), SetFault>
    ensures exact { GivesAt result (item_at depth text.now) }
    ensures stands { IfOk result (λ x. BeginsItem depth text.now x.0 x.1.now) }
    ensures shorter { IfOk result (λ x. length x.1.now < length text.now) }
    ensures placed { IfOk result (λ x. IsTrue (is_place x.0 x.1.now)) }
    ensures deep { IfOk result (λ x. 0 < depth) }
{
    item_read(depth, text)
}
