//! Contents: stored data sets.

ghost use Rattle.std.specs.Prelude.{◌≡◌, ◌≤◌, ◌↔◌, length, List, ℕ, IfOk, IsTrue, Option};
ghost use Rattle.std.specs.Option.{option_map, option_copied};
ghost use Rattle.operation.specs.Parts.{value_at, own_value};
ghost use Rattle.operation.specs.Contents.{IsContent};

use crate::kept::{Kept, same_notes};
use bytes::Bytes;
use data_set::Syntax;
use dictionary::{SOP_CLASS_UID, SOP_INSTANCE_UID};
use rejection_note::Note;
use std::alloc::{AllocError, Global};
use std::marker::Model;
use std::sync::Arc;

/// A stored data set with its SOP class, SOP instance and transfer syntax (PS3.4, annex B).
///
/// Its copies share its bytes, and they and its records all that is kept of them.
#[derive(Debug, Drop)]
pub struct Content {
    pub(crate) kept: Arc<Kept, Global>,
    pub(crate) body: Bytes,
}

impl Model for Content {
    ghost use Rattle.std.specs.Prelude.{◌≡◌, length};
    ghost use Rattle.std.specs.Arc.{arc_value};
    ghost use Rattle.operation.specs.Parts.{ContentParts, with_body};
    ghost use Rattle.operation.specs.Code.{content_code};
    ghost use Rattle.operation.specs.Contents.{IsContent};

    ghost Value = { ContentParts };

    ghost coded = { content_code };

    ghost view = { λ c. with_body (arc_value c.kept) c.body };

    ghost invariant = { λ c. IsContent (with_body (arc_value c.kept) c.body)
        × ((arc_value c.kept).size ≡ length c.body) };
}

impl Content {
    /// A second owner of the same content, which shares all of it.
    pub fn copy(&self, _alloc: Global) -> Result<Content, AllocError>
        ensures { IfOk result (λ copy. copy ≡ self.now) }
    {
        Ok(Content {
            kept: Arc::try_clone(&self.kept)?,
            body: self.body.clone()?,
        })
    }

    /// Whether both are one content.
    pub fn equals(&self, other: &Content) -> bool
        ensures { IsTrue result ↔ (self.now ≡ other.now) }
    {
        self.kept.syntax == other.kept.syntax
            && self.body.as_slice() == other.body.as_slice()
            && self.kept.values.equals(&other.kept.values)
            && same_notes(&self.kept.note, &other.kept.note)
    }

    pub fn class(&self) -> &[u8]
        ensures value { result.now ≡ self.now.class }
        ensures short { length result.now ≤ 64 }
    {
        self.kept.values.value_or_empty(SOP_CLASS_UID)
    }

    pub fn instance(&self) -> &[u8]
        ensures value { result.now ≡ self.now.instance }
        ensures short { length result.now ≤ 64 }
    {
        self.kept.values.value_or_empty(SOP_INSTANCE_UID)
    }

    pub fn syntax(&self) -> Syntax
        ensures { result ≡ self.now.syntax }
    {
        self.kept.syntax
    }

    /// The bytes of the data set, as they came.
    pub fn body(&self) -> &Bytes
        ensures value { result.now ≡ self.now.body }
        ensures short { length result.now ≤ 67108864 }
        ensures content { IsContent self.now }
    {
        &self.body
    }

    /// The content's own trimmed value of an element that queries know, if it has one.
    pub fn value(&self, tag: u32) -> Option<&[u8]>
        ensures { option_map (λ v. v.now) result ≡ value_at tag self.now.values }
    {
        self.kept.values.value(tag)
    }

    /// The same, empty where the element is missing or holds items.
    pub fn own_value(&self, tag: u32) -> &[u8]
        ensures { result.now ≡ own_value self.now tag }
    {
        self.kept.values.value_or_empty(tag)
    }

    /// What the content says as a rejection note, if it is one.
    pub fn note(&self) -> &Option<Note>
        ensures { result.now ≡ self.now.note }
    {
        &self.kept.note
    }
}
