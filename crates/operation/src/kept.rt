//! What is kept of a content: all but its bytes.

ghost use Rattle.std.specs.Prelude.{◌≡◌, ◌↔◌, IsTrue};

use crate::key_values::KeyValues;
use data_set::Syntax;
use rejection_note::Note;
use std::marker::Model;

/// What the copies of a content and its records share. The class and the instance are values that
/// are kept.
#[derive(Debug, Drop)]
pub(crate) struct Kept {
    pub syntax: Syntax,
    /// How many bytes the data set has.
    pub size: usize,
    pub values: KeyValues,
    pub note: Option<Note>,
}

impl Model for Kept {
    ghost use Rattle.dictionary.specs.declared.elements.TheConstants.{SOP_CLASS_UID, SOP_INSTANCE_UID};
    ghost use Rattle.operation.specs.Parts.{KeptParts, value_at, value_or_empty};

    ghost Value = { KeptParts };

    ghost view = { λ k. record {
      class = value_or_empty (value_at SOP_CLASS_UID k.values);
      instance = value_or_empty (value_at SOP_INSTANCE_UID k.values);
      syntax = k.syntax;
      size = k.size;
      values = k.values;
      note = k.note;
    } };
}

pub(crate) fn same_notes(this: &Option<Note>, other: &Option<Note>) -> bool
    ensures { IsTrue result ↔ (this.now ≡ other.now) }
{
    match (this, other) {
        (None, None) => true,
        (Some(a), Some(b)) => a.equals(b),
        (None, Some(_)) => false,
        (Some(_), None) => false,
    }
}
