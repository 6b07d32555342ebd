//! Value representations (PS3.5, sections 6.2 and 7.1.2).

ghost use Rattle.std.specs.Prelude.{◌≡◌};
ghost use Rattle.data_set.specs.Vr.{is_capital, is_short, has_bad_vr, inner_syntax, is_undefined};

use crate::syntax::Syntax;
use crate::tags::is_sequence_tag;
use dictionary::PIXEL_DATA;

/// The length that is no length: an end follows (PS3.5, section 7.1.1).
pub const UNDEFINED_LENGTH: u32 = 0xffff_ffff;

/// Whether a byte is one of `A` to `Z`.
pub fn is_capital_letter(c: u8) -> bool
    ensures { result ≡ is_capital c }
{
    c.is_ascii_uppercase()
}

/// Whether the length behind this value representation has two bytes (PS3.5, section 7.1.2).
#[tactic(auto, unfolding(crate::specs::Vr::is_short))]
pub fn has_short_length(a: u8, b: u8) -> bool
    ensures { result ≡ is_short a b }
{
    matches!(
        (a, b),
        (b'A', b'E' | b'S' | b'T')
            | (b'C', b'S')
            | (b'D', b'A' | b'S' | b'T')
            | (b'F', b'L' | b'D')
            | (b'I', b'S')
            | (b'L', b'O' | b'T')
            | (b'P', b'N')
            | (b'S', b'H' | b'L' | b'S' | b'T')
            | (b'T', b'M')
            | (b'U', b'I' | b'L' | b'S')
    )
}

/// Whether a value representation is no two capital letters, or not one that its tag may have.
pub fn has_wrong_vr(tag: u32, vr: Option<[u8; 2]>) -> bool
    ensures { result ≡ has_bad_vr tag vr }
{
    match vr {
        None => false,
        Some(pair) => {
            let [a, b] = pair;
            let capitals = is_capital_letter(a) && is_capital_letter(b);
            let may_hold_items = matches!((a, b), (b'S', b'Q') | (b'U', b'N'));
            !capitals || (is_sequence_tag(tag) && !may_hold_items)
        }
    }
}

/// The syntax of the items of a sequence, or `None` where the element holds a value.
///
/// The items of an UN are implicit (PS3.5, section 6.2.2).
pub fn syntax_inside(tag: u32, vr: Option<[u8; 2]>, size: u32) -> Option<Syntax>
    ensures { result ≡ inner_syntax tag vr size }
{
    let named = size == UNDEFINED_LENGTH || is_sequence_tag(tag);
    match vr {
        None => {
            if named {
                return Some(Syntax::Implicit);
            }
            None
        }
        Some(pair) => {
            if pair == *b"SQ" {
                return Some(Syntax::Explicit);
            }
            if pair == *b"UN" && named {
                return Some(Syntax::Implicit);
            }
            None
        }
    }
}

/// Whether a length is undefined where it may not be, or pixel data is a sequence
/// (docs/DECISIONS.md, "Undefined lengths").
pub fn has_no_length(tag: u32, inner: Option<Syntax>, size: u32) -> bool
    ensures { result ≡ is_undefined tag inner size }
{
    match inner {
        None => size == UNDEFINED_LENGTH,
        Some(_) => tag == PIXEL_DATA,
    }
}
