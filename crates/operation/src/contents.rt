//! Which data sets are contents (docs/DECISIONS.md, "Contents").

ghost use Rattle.std.specs.Prelude.{◌≡◌, Ok, Err, IfOk, IfErr};
ghost use Rattle.octets.specs.Gives.{Tells, Told, Gives};
ghost use Rattle.octets.specs.Padding.{without_padding};
ghost use Rattle.data_set.specs.Lengths.{FitsTrees};
ghost use Rattle.data_set.specs.Texts.{Spells};
ghost use Rattle.data_set.specs.Tree.{trees_of};
ghost use Rattle.data_set.specs.Values.{value_in};
ghost use Rattle.operation.specs.declared.fault.OpFault.{OpFault};
ghost use Rattle.operation.specs.Fault.{is_memory};
ghost use Rattle.operation.specs.Parts.{ContentParts};
ghost use Rattle.operation.specs.Contents.{has_uids, names_itself, is_uid_value, is_value, values_in, IsOutcome};
ghost use Rattle.operation.specs.Contents.{IsContent, IsRefused, IsShort, draft_of, drafted, kept_of};

use crate::content::Content;
use crate::draft::Draft;
use crate::fault::OpFault;
use crate::kept::Kept;
use crate::key_values::{KeyValues, values_under};
use bytes::Bytes;
use data_set::{DataSet, Element, Syntax, read, value_of};
use dictionary::{Role, SERIES_INSTANCE_UID, SOP_CLASS_UID, SOP_INSTANCE_UID, STUDY_INSTANCE_UID};
use octets::{LONGEST_DATA_SET, Octets, is_uid, without_padding};
use rejection_note::{Note, note_of};
use std::alloc::{AllocError, Global};
use std::sync::Arc;

/// What a content keeps of its elements.
fn key_values(alloc: Global, elements: &[Element]) -> Result<KeyValues, AllocError>
    requires { FitsTrees (trees_of elements.now) }
    ensures { IfOk result (λ values. values ≡ values_in elements.now) }
{
    values_under(alloc, Role::kept_tags(), elements)
}

fn has_uid(elements: &[Element], tag: u32) -> bool
    ensures { result ≡ is_uid_value (value_in tag elements.now) }
{
    match value_of(elements, tag) {
        None => false,
        Some(value) => is_uid(value),
    }
}

fn has_value(elements: &[Element], tag: u32, text: &[u8]) -> bool
    ensures { result ≡ is_value text.now (value_in tag elements.now) }
{
    match value_of(elements, tag) {
        None => false,
        Some(value) => value == text,
    }
}

fn has_all_uids(draft: &Draft, elements: &[Element]) -> bool
    ensures { result ≡ has_uids draft.now.class draft.now.instance elements.now }
{
    is_uid(draft.class.as_slice())
        && is_uid(draft.instance.as_slice())
        && has_uid(elements, SOP_CLASS_UID)
        && has_uid(elements, SOP_INSTANCE_UID)
        && has_uid(elements, STUDY_INSTANCE_UID)
        && has_uid(elements, SERIES_INSTANCE_UID)
}

fn is_named_so(draft: &Draft, elements: &[Element]) -> bool
    ensures { result ≡ names_itself draft.now.class draft.now.instance elements.now }
{
    has_value(elements, SOP_CLASS_UID, draft.class.as_slice())
        && has_value(elements, SOP_INSTANCE_UID, draft.instance.as_slice())
}

/// What a content keeps of the elements of a draft's data set, where nothing in them offends.
fn kept_of_set(
    alloc: Global,
    draft: &Draft,
    set: &DataSet,
) -> Result<(KeyValues, Option<Note>), OpFault>
    requires short { IsShort draft.now }
    requires spelled { Spells draft.now.syntax draft.now.body set.now.elements }
    ensures { Tells is_memory (λ x. kept_of draft.now x.0 x.1) result (IsOutcome draft.now) }
{
    let elements = set.elements();
    if !has_all_uids(draft, elements) {
        return Err(OpFault::NoUid);
    }
    if !is_named_so(draft, elements) {
        return Err(OpFault::Mismatch);
    }
    let note = note_of(alloc, draft.class.as_slice(), set)?;
    let values = key_values(alloc, elements)?;
    Ok((values, note))
}

/// The same of a draft. Its data set is read once.
fn kept_of_draft(alloc: Global, draft: &Draft) -> Result<(KeyValues, Option<Note>), OpFault>
    ensures { Tells is_memory (λ x. kept_of draft.now x.0 x.1) result (IsOutcome draft.now) }
{
    if draft.body.len() > LONGEST_DATA_SET {
        return Err(OpFault::TooLong);
    }
    let set = read(alloc, draft.syntax, draft.body.as_slice())?;
    kept_of_set(alloc, draft, &set)
}

/// The content of a draft.
pub fn content_from(alloc: Global, draft: Draft) -> Result<Content, OpFault>
    ensures { Tells is_memory (λ content. content) result (IsOutcome draft) }
{
    let (values, note) = kept_of_draft(alloc, &draft)?;
    let Draft { syntax, body, .. } = draft;
    let kept = Kept {
        syntax,
        size: body.len(),
        values,
        note,
    };
    Ok(Content {
        kept: Arc::new(alloc, kept)?,
        body,
    })
}

fn unpadded(text: Octets) -> Octets
    ensures { result ≡ without_padding text }
{
    let len = without_padding(text.as_slice()).len();
    let mut bytes = text.into_vec();
    bytes.truncate(len);
    Octets::of(bytes)
}

/// The content of a data set with its SOP class, its SOP instance and its transfer syntax. Padding
/// at the ends of class and instance is dropped (PS3.5, section 9.1). No byte of the data set is
/// copied into the content.
pub fn content_of(
    alloc: Global,
    class: Octets,
    instance: Octets,
    syntax: Syntax,
    body: Bytes,
) -> Result<Content, OpFault>
    // What is made is a content of these parts.
    ensures parts { IfOk result (λ c. draft_of c ≡ drafted class instance syntax body) }
    ensures found { IfOk result IsContent }
    // A content of these parts is made, unless memory ran out.
    ensures only { (c : ContentParts) → IsContent c
        → draft_of c ≡ drafted class instance syntax body
        → Gives is_memory (λ content. content) result (Ok c) }

    // Each fault, exactly where it is: TooLong, BadSet, NoUid, Mismatch, BadNote.
    ensures fault { IfErr result (λ e. Told is_memory e
        (IsRefused (drafted class instance syntax body))) }
    ensures faulty { (f : OpFault) → IsRefused (drafted class instance syntax body) f
        → Gives is_memory (λ content. content) result (Err f) }
{
    content_from(
        alloc,
        Draft {
            class: unpadded(class),
            instance: unpadded(instance),
            syntax,
            body,
        },
    )
}
