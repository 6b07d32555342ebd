//! Contents of which the record alone is held.

ghost use Rattle.std.specs.Prelude.{◌≡◌, ◌≤◌, ◌↔◌, ◌++◌, None, Some, length, IfOk, IsTrue, OnOk};
ghost use Rattle.std.specs.Option.{option_map};
ghost use Rattle.operation.specs.Parts.{ContentParts, value_at, own_value};
ghost use Rattle.operation.specs.RecordParts.{content_record};
ghost use Rattle.operation.specs.RecordTexts.{FitsText, record_text};
ghost use Rattle.operation.specs.Spelling.{digest_of};
ghost use Rattle.operation.specs.declared.op.Op.TheVariants.{Content as a_content};
ghost use Rattle.records.specs.StandIn.{HasLengths, IsStandIn, stand_in};

use data_set::Syntax;
use octets::LONGEST_DATA_SET;
use operation::{Content, ContentRecord, Digest};
use rejection_note::Note;
use std::alloc::{AllocError, Global};
use std::marker::Model;
use std::sync::Arc;

/// A content of which the record alone is held: all but its bytes.
///
/// Contracts see the content that stands for those of this record: the first, in the order of their
/// bytes. Where no two contents have one digest, it is the content that was recorded.
///
/// Its copies share the record with its digest, so that a copy takes 8 bytes.
#[derive(Debug)]
pub struct RecordedContent {
    record: Arc<ContentRecord, Global>,
}

impl Model for RecordedContent {
    ghost use Rattle.operation.specs.Parts.{ContentParts};
    ghost use Rattle.operation.specs.Code.{content_code};
    ghost use Rattle.records.specs.StandIn.{IsRecord, content_of};

    ghost Value = { ContentParts };

    ghost coded = { content_code };

    ghost use Rattle.std.specs.Arc.{arc_value};

    ghost view = { λ r. content_of (arc_value r.record) };

    ghost invariant = { λ r. IsRecord (arc_value r.record) };
}

// It is written out, so that a caller does not prove again how each part is dropped.
impl Drop for RecordedContent {
    fn drop(self) {
        let RecordedContent { record: _ } = self;
    }
}

/// Whether the class and the instance of a record have the lengths of UIDs, and its data set is no
/// longer than any.
fn has_lengths(kept: &ContentRecord) -> bool
    ensures { IsTrue result ↔ HasLengths kept.now }
{
    kept.class().len() <= 64 && kept.instance().len() <= 64 && kept.size() <= LONGEST_DATA_SET
}

impl RecordedContent {
    /// The record of a content, under its digest. Nothing is hashed or copied: all but the digest
    /// is shared with the content.
    pub fn of(
        alloc: Global,
        digest: &Digest,
        content: &Content,
    ) -> Result<RecordedContent, AllocError>
        requires own { digest.now ≡ digest_of (a_content content.now) }
        ensures { IfOk result (λ recorded. recorded ≡ stand_in content.now) }
    {
        let _ = content.body();
        Ok(RecordedContent {
            record: Arc::new(alloc, ContentRecord::of(digest, content)?)?,
        })
    }

    /// A second owner of the same record, which shares all of it.
    pub fn copy(&self) -> Result<RecordedContent, AllocError>
        ensures { IfOk result (λ copy. copy ≡ self.now) }
    {
        Ok(RecordedContent {
            record: Arc::try_clone(&self.record)?,
        })
    }

    /// The record that is held.
    pub fn record(&self) -> &ContentRecord
        ensures { result.now ≡ content_record self.now }
    {
        &self.record
    }

    /// The digest of the content.
    pub fn digest(&self) -> &Digest
        ensures { result.now ≡ digest_of (a_content self.now) }
    {
        self.record().digest()
    }

    pub fn class(&self) -> &[u8]
        ensures value { result.now ≡ self.now.class }
        ensures short { length result.now ≤ 64 }
    {
        self.see_recorded();
        self.record.class()
    }

    pub fn instance(&self) -> &[u8]
        ensures value { result.now ≡ self.now.instance }
        ensures short { length result.now ≤ 64 }
    {
        self.see_recorded();
        self.record.instance()
    }

    pub fn syntax(&self) -> Syntax
        ensures { result ≡ self.now.syntax }
    {
        self.record.syntax()
    }

    /// How many bytes the data set has.
    pub fn size(&self) -> usize
        ensures { result ≡ length self.now.body }
    {
        self.record().size()
    }

    /// The content's own trimmed value of an element that queries know, if it has one.
    pub fn value(&self, tag: u32) -> Option<&[u8]>
        ensures { option_map (λ v. v.now) result ≡ value_at tag self.now.values }
    {
        self.record.value(tag)
    }

    /// The same, empty where the element is missing or holds items.
    pub fn own_value(&self, tag: u32) -> &[u8]
        ensures { result.now ≡ own_value self.now tag }
    {
        self.record.own_value(tag)
    }

    /// What the content says as a rejection note, if it is one.
    pub fn note(&self) -> &Option<Note>
        ensures { result.now ≡ self.now.note }
    {
        self.record.note()
    }

    /// Whether both are one content.
    pub fn equals(&self, other: &RecordedContent) -> bool
        ensures { IsTrue result ↔ (self.now ≡ other.now) }
    {
        self.see_recorded();
        other.see_recorded();
        self.record().equals(other.record())
    }

    /// Writes the record behind other bytes, but for its note. So `decode` reads the record of a
    /// content again that is no rejection note.
    pub fn encode(&self, out: &mut Vec<u8>) -> Result<(), AllocError>
        ensures text { OnOk result
            (out.new.items ≡ out.old.items ++ record_text (content_record self.now)) }
        ensures fits { OnOk result (FitsText (content_record self.now)) }
    {
        self.record().encode(out)
    }

    /// The content of the record that bytes spell, which is no rejection note; `None` where they
    /// spell none that a content can have.
    pub fn decode(alloc: Global, text: &[u8]) -> Result<Option<RecordedContent>, AllocError>
        ensures { (c : ContentParts) → IsStandIn c → FitsText (content_record c) → c.note ≡ None
            → text.now ≡ record_text (content_record c) → IfOk result (λ found. found ≡ Some c) }
    {
        let Some(record) = ContentRecord::decode(alloc, text)? else {
            return Ok(None);
        };
        if !has_lengths(&record) {
            return Ok(None);
        }
        Ok(Some(RecordedContent {
            record: Arc::new(alloc, record)?,
        }))
    }

    /// Its record is lawful, and it stands for those that have it. Nothing is done: this is a fact
    /// for callers.
    pub fn see_recorded(&self)
        ensures { IsStandIn self.now }
    {
        let _ = self.record.size();
    }
}
