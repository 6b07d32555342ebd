//! What is kept of a content.

ghost use Rattle.std.specs.Prelude.{◌≡◌, ◌↔◌, IfOk, IsTrue};
ghost use Rattle.std.specs.Option.{option_map};
ghost use Rattle.operation.specs.Parts.{value_at, value_or_empty};
ghost use Rattle.operation.specs.Spelling.{digest_of};
ghost use Rattle.operation.specs.declared.op.Op.TheVariants.{Content as a_content};
ghost use Rattle.operation.specs.RecordParts.{content_record};

use crate::kept::{Kept, same_notes};
use crate::{Content, Digest};
use data_set::Syntax;
use dictionary::{SOP_CLASS_UID, SOP_INSTANCE_UID};
use rejection_note::Note;
use std::alloc::{AllocError, Global};
use std::marker::Model;
use std::sync::Arc;

/// A content without its bytes, with its digest, and how many bytes there are.
///
/// Its copies share all but the digest, and the content shares it with them.
#[derive(Debug, Drop)]
pub struct ContentRecord {
    pub(crate) digest: Digest,
    pub(crate) kept: Arc<Kept, Global>,
}

impl Model for ContentRecord {
    ghost use Rattle.std.specs.Arc.{arc_value};
    ghost use Rattle.operation.specs.RecordParts.{ContentRecordParts, under_digest};

    ghost Value = { ContentRecordParts };

    ghost view = { λ r. under_digest r.digest (arc_value r.kept) };
}

impl ContentRecord {
    /// What is kept of a content, under its digest. Nothing is hashed or copied: all but the digest
    /// is shared with the content.
    pub fn of(digest: &Digest, content: &Content) -> Result<ContentRecord, AllocError>
        requires own { digest.now ≡ digest_of (a_content content.now) }
        ensures { IfOk result (λ kept. kept ≡ content_record content.now) }
    {
        Ok(ContentRecord {
            digest: *digest,
            kept: Arc::try_clone(&content.kept)?,
        })
    }

    /// A second owner of the same record, which shares all of it.
    pub fn copy(&self) -> Result<ContentRecord, AllocError>
        ensures { IfOk result (λ copy. copy ≡ self.now) }
    {
        Ok(ContentRecord {
            digest: self.digest,
            kept: Arc::try_clone(&self.kept)?,
        })
    }

    /// The digest of the content.
    pub fn digest(&self) -> &Digest
        ensures { result.now ≡ self.now.digest }
    {
        &self.digest
    }

    pub fn class(&self) -> &[u8]
        ensures { result.now ≡ self.now.class }
    {
        self.kept.values.value_or_empty(SOP_CLASS_UID)
    }

    pub fn instance(&self) -> &[u8]
        ensures { result.now ≡ self.now.instance }
    {
        self.kept.values.value_or_empty(SOP_INSTANCE_UID)
    }

    pub fn syntax(&self) -> Syntax
        ensures { result ≡ self.now.syntax }
    {
        self.kept.syntax
    }

    /// How many bytes the data set has.
    pub fn size(&self) -> usize
        ensures { result ≡ self.now.size }
    {
        self.kept.size
    }

    /// The content's own trimmed value of an element that queries know, if it has one.
    pub fn value(&self, tag: u32) -> Option<&[u8]>
        ensures { option_map (λ v. v.now) result ≡ value_at tag self.now.values }
    {
        self.kept.values.value(tag)
    }

    /// The same, empty where the element is missing or holds items.
    pub fn own_value(&self, tag: u32) -> &[u8]
        ensures { result.now ≡ value_or_empty (value_at tag self.now.values) }
    {
        self.kept.values.value_or_empty(tag)
    }

    /// What the content says as a rejection note, if it is one.
    pub fn note(&self) -> &Option<Note>
        ensures { result.now ≡ self.now.note }
    {
        &self.kept.note
    }

    /// Whether both are one record.
    pub fn equals(&self, other: &ContentRecord) -> bool
        ensures { IsTrue result ↔ (self.now ≡ other.now) }
    {
        self.digest == other.digest
            && self.kept.syntax == other.kept.syntax
            && self.kept.size == other.kept.size
            && self.kept.values.equals(&other.kept.values)
            && same_notes(&self.kept.note, &other.kept.note)
    }
}
