//! Marks of a text: which bytes stand side by side in it.
//!
//! A run of bytes has no mark that a text lacks in which it stands. So a text that lacks one of
//! them need not be read.
ghost use Rattle.std.specs.Prelude.{◌≡◌};
ghost use Rattle.study_index.specs.Marks.{mark_of, marks_behind as marks_behind_in, marks_of as marks_of_in};
ghost use Rattle.study_index.specs.Marks.{value_marks as value_marks_in};

use crate::short_text::ShortText;

// One of 32 bits.
fn mark(first: u8, second: u8) -> u32
    ensures { result ≡ mark_of first second }
{
    1 << ((first as u32 * 11 + second as u32) % 32)
}

fn marks_behind(first: u8, text: &[u8]) -> u32
    ensures { result ≡ marks_behind_in first text.now }
{
    match text {
        [] => 0,
        [second, text @ ..] => mark(first, *second) | marks_behind(*second, text),
    }
}

/// The marks of each two bytes that stand side by side in a text.
pub fn marks_of(text: &[u8]) -> u32
    ensures { result ≡ marks_of_in text.now }
{
    match text {
        [] => 0,
        [first, text @ ..] => marks_behind(*first, text),
    }
}

/// The marks of a value, of which 64 bytes at most are known.
pub fn value_marks(value: &ShortText) -> u32
    ensures { result ≡ value_marks_in value.now }
{
    if value.as_slice().len() >= 64 {
        return u32::MAX;
    }
    marks_of(value.as_slice())
}
