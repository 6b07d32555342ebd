//! A run of bytes that is looked for in the values of leads.
ghost use Rattle.std.specs.Prelude.{◌≡◌, List, ℕ, false, map};
ghost use Rattle.study_index.specs.Leads.{led_byte, begins_with, has_run as has_run_in, may_have};
ghost use Rattle.study_index.specs.Marks.{value_marks};

use crate::marks::marks_of;
use crate::short_text::ShortText;
use std::marker::Model;

/// A run of at most 64 bytes, and its marks, by which most values are told that lack it.
#[derive(Drop)]
pub struct Needle {
    run: ShortText,
    marks: u32,
}

impl Model for Needle {
    ghost use Rattle.std.specs.Prelude.{◌≡◌};
    ghost use Rattle.study_index.specs.Leads.{Text};
    ghost use Rattle.study_index.specs.Marks.{marks_of};

    ghost Value = { Text };

    ghost view = { λ n. n.run };

    ghost invariant = { λ n. n.marks ≡ marks_of n.run };
}

/// A byte as it is led from.
pub fn byte_as_led(folds: bool, byte: u8) -> u8
    ensures { result ≡ led_byte folds byte }
{
    if folds {
        byte.to_ascii_uppercase()
    } else {
        byte
    }
}

// Whether a text, each byte of it as it is led from, begins with a run.
fn begins(folds: bool, run: &[u8], text: &[u8]) -> bool
    ensures { result ≡ begins_with run.now (map (led_byte folds) text.now) }
{
    match (run, text) {
        ([], _) => true,
        ([_, ..], []) => false,
        ([first, run @ ..], [byte, text @ ..]) => {
            *first == byte_as_led(folds, *byte) && begins(folds, run, text)
        }
    }
}

// Whether a run stands in a text, each byte of it as it is led from.
fn has_run(folds: bool, run: &[u8], text: &[u8]) -> bool
    ensures { result ≡ has_run_in run.now (map (led_byte folds) text.now) }
{
    match text {
        [] => begins(folds, run, text),
        [_, rest @ ..] => begins(folds, run, text) || has_run(folds, run, rest),
    }
}

impl Needle {
    /// This run.
    pub fn of(run: &ShortText) -> Needle
        ensures { result ≡ run.now }
    {
        Needle {
            run: run.duplicate(),
            marks: marks_of(run.as_slice()),
        }
    }

    /// Whether a value has all its marks. One that has not lacks it.
    pub fn is_marked(&self, marks: u32) -> bool
        ensures lacking { (value : List ℕ) → marks ≡ value_marks value → result ≡ false
            → may_have self.now value ≡ false }
    {
        self.marks | marks == marks
    }

    /// Whether it may stand in a text, each byte of it as it is led from, of which 64 bytes at most
    /// are known.
    pub fn may_stand_in(&self, folds: bool, text: &[u8]) -> bool
        ensures { result ≡ may_have self.now (map (led_byte folds) text.now) }
    {
        text.len() >= 64 || has_run(folds, self.run.as_slice(), text)
    }
}
