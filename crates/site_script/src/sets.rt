//! The data sets of the contents that a script makes (docs/DECISIONS.md, "The contents of a
//! script").

ghost use Rattle.std.specs.Prelude.{◌≡◌, ◌++◌, ◌∷◌, [], ◌≤◌, IfOk, OnOk, length, map};
ghost use Rattle.octets.specs.Gives.{Gives};
ghost use Rattle.data_set.specs.Written.{IsSet};
ghost use Rattle.data_set.specs.declared.syntax.Syntax.TheVariants.{Implicit};
ghost use Rattle.operation.specs.Fault.{is_memory};
ghost use Rattle.site_script.specs.Sets.{valued, sop_elements, patient_elements, study_elements};
ghost use Rattle.site_script.specs.Sets.{image_elements as image_elements_of, note_elements as note_elements_of};
ghost use Rattle.site_script.specs.Sets.{note_series as note_series_of, title_sequence as title_sequence_of};
ghost use Rattle.site_script.specs.Sets.{named as named_by, images_sequence as images_sequence_of};
ghost use Rattle.site_script.specs.Sets.{series_sequence as series_sequence_of};
ghost use Rattle.site_script.specs.Sets.{evidence_sequence as evidence_sequence_of, made_of, image_made, note_made};

use crate::command::{ImageLine, NoteLine};
use bytes::Bytes;
use data_set::{DataSet, Element, Syntax, padded_of, write};
use dictionary::{
    CODE_VALUE, CODING_SCHEME_DCM, CODING_SCHEME_DESIGNATOR, CONCEPT_NAME_CODE_SEQUENCE,
    CT_IMAGE_STORAGE, CURRENT_REQUESTED_PROCEDURE_EVIDENCE_SEQUENCE,
    KEY_OBJECT_SELECTION_DOCUMENT_STORAGE, MODALITY, PATIENT_ID, PATIENT_NAME,
    REFERENCED_SERIES_SEQUENCE, REFERENCED_SOP_INSTANCE_UID, REFERENCED_SOP_SEQUENCE,
    SERIES_INSTANCE_UID, SOP_CLASS_UID, SOP_INSTANCE_UID, STUDY_INSTANCE_UID, vr_of,
};
use octets::Octets;
use operation::{Content, OpFault, content_of};
use std::alloc::{AllocError, Global};

/// Puts an element that holds a value, padded as its value representation asks.
fn put(alloc: Global, out: &mut Vec<Element>, tag: u32, value: &[u8]) -> Result<(), AllocError>
    ensures { OnOk result (out.new.items ≡ out.old.items ++ valued tag value.now ∷ []) }
{
    let value = padded_of(alloc, vr_of(tag), value)?;
    out.push(Element::leaf(tag, None, value))?;
    Ok(())
}

/// Class, instance and modality.
fn put_sop(
    alloc: Global,
    out: &mut Vec<Element>,
    class: &[u8],
    instance: &[u8],
    modality: &[u8],
) -> Result<(), AllocError>
    ensures { OnOk result (out.new.items
        ≡ out.old.items ++ sop_elements class.now instance.now modality.now) }
{
    put(alloc, out, SOP_CLASS_UID, class)?;
    put(alloc, out, SOP_INSTANCE_UID, instance)?;
    put(alloc, out, MODALITY, modality)
}

/// The patient's name and ID.
fn put_patient(
    alloc: Global,
    out: &mut Vec<Element>,
    name: &[u8],
    patient: &[u8],
) -> Result<(), AllocError>
    ensures { OnOk result (out.new.items ≡ out.old.items ++ patient_elements name.now patient.now) }
{
    put(alloc, out, PATIENT_NAME, name)?;
    put(alloc, out, PATIENT_ID, patient)
}

/// Study and series.
fn put_study(
    alloc: Global,
    out: &mut Vec<Element>,
    study: &[u8],
    series: &[u8],
) -> Result<(), AllocError>
    ensures { OnOk result (out.new.items ≡ out.old.items ++ study_elements study.now series.now) }
{
    put(alloc, out, STUDY_INSTANCE_UID, study)?;
    put(alloc, out, SERIES_INSTANCE_UID, series)
}

/// The elements of an image.
#[tactic(auto, unfolding(crate::specs::Sets::image_elements))]
fn image_elements(alloc: Global, line: &ImageLine) -> Result<Vec<Element>, AllocError>
    ensures { IfOk result (λ elements. elements.items ≡ image_elements_of line.now) }
{
    let mut out = Vec::new(alloc);
    let instance = line.instance.as_slice();
    put_sop(alloc, &mut out, &CT_IMAGE_STORAGE, instance, b"CT")?;
    put_patient(
        alloc,
        &mut out,
        line.name.as_slice(),
        line.patient.as_slice(),
    )?;
    put_study(
        alloc,
        &mut out,
        line.study.as_slice(),
        line.series.as_slice(),
    )?;
    Ok(out)
}

/// The series of a note: its own UID with ".0" after it.
fn note_series(alloc: Global, line: &NoteLine) -> Result<Octets, AllocError>
    ensures { IfOk result (λ series. series ≡ note_series_of line.now) }
{
    let mut series = Vec::from_slice(alloc, line.note.as_slice())?;
    series.extend_from_slice(b".0")?;
    Ok(Octets::of(series))
}

/// One item, and nothing else.
fn one_item(alloc: Global, elements: Vec<Element>) -> Result<Vec<Vec<Element>>, AllocError>
    ensures { IfOk result (λ items. map (λ item. item.items) items.items ≡ elements.items ∷ []) }
{
    let mut items = Vec::new(alloc);
    items.push(elements)?;
    Ok(items)
}

/// The title, in the coding scheme DCM.
fn title_sequence(alloc: Global, title: &[u8]) -> Result<Element, AllocError>
    ensures { IfOk result (λ element. element ≡ title_sequence_of title.now) }
{
    let mut item = Vec::new(alloc);
    put(alloc, &mut item, CODE_VALUE, title)?;
    put(
        alloc,
        &mut item,
        CODING_SCHEME_DESIGNATOR,
        &CODING_SCHEME_DCM,
    )?;
    Ok(Element::sequence(CONCEPT_NAME_CODE_SEQUENCE, None, one_item(alloc, item)?))
}

/// An item that names an instance.
fn named(alloc: Global, uid: &[u8]) -> Result<Vec<Element>, AllocError>
    ensures { IfOk result (λ item. item.items ≡ named_by uid.now) }
{
    let mut item = Vec::new(alloc);
    put(alloc, &mut item, REFERENCED_SOP_INSTANCE_UID, uid)?;
    Ok(item)
}

/// The items that name instances.
fn images_sequence(alloc: Global, uids: &[Octets]) -> Result<Element, AllocError>
    ensures { IfOk result (λ element. element ≡ images_sequence_of uids.now) }
{
    let mut items = Vec::with_capacity(alloc, uids.len())?;
    for uid in uids {
        items.push(named(alloc, uid.as_slice())?)?;
    }
    Ok(Element::sequence(REFERENCED_SOP_SEQUENCE, None, items))
}

/// The series, with the instances that it names.
fn series_sequence(alloc: Global, uids: &[Octets], series: &[u8]) -> Result<Element, AllocError>
    ensures { IfOk result (λ element. element ≡ series_sequence_of uids.now series.now) }
{
    let mut item = Vec::new(alloc);
    item.push(images_sequence(alloc, uids)?)?;
    put(alloc, &mut item, SERIES_INSTANCE_UID, series)?;
    Ok(Element::sequence(REFERENCED_SERIES_SEQUENCE, None, one_item(alloc, item)?))
}

/// The evidence: the study, with its series.
fn evidence_sequence(
    alloc: Global,
    uids: &[Octets],
    series: &[u8],
    study: &[u8],
) -> Result<Element, AllocError>
    ensures { IfOk result (λ element. element
        ≡ evidence_sequence_of uids.now series.now study.now) }
{
    let mut item = Vec::new(alloc);
    item.push(series_sequence(alloc, uids, series)?)?;
    put(alloc, &mut item, STUDY_INSTANCE_UID, study)?;
    Ok(Element::sequence(
        CURRENT_REQUESTED_PROCEDURE_EVIDENCE_SEQUENCE,
        None,
        one_item(alloc, item)?,
    ))
}

/// The elements of a note.
#[tactic(auto, unfolding(crate::specs::Sets::note_elements))]
fn note_elements(alloc: Global, line: &NoteLine) -> Result<Vec<Element>, AllocError>
    ensures { IfOk result (λ elements. elements.items ≡ note_elements_of line.now) }
{
    let mut out = Vec::new(alloc);
    let series = note_series(alloc, line)?;
    let (study, series) = (line.study.as_slice(), series.as_slice());
    put_sop(
        alloc,
        &mut out,
        &KEY_OBJECT_SELECTION_DOCUMENT_STORAGE,
        line.note.as_slice(),
        b"KO",
    )?;
    put_study(alloc, &mut out, study, series)?;
    out.push(title_sequence(alloc, line.title.as_slice())?)?;
    out.push(evidence_sequence(alloc, line.covers.as_slice(), series, study)?)?;
    Ok(out)
}

/// The content that these elements make, or why they make none.
fn content_from(
    alloc: Global,
    class: &[u8],
    instance: &[u8],
    elements: Vec<Element>,
) -> Result<Content, OpFault>
    requires { IsSet Implicit elements.items }
    ensures { Gives is_memory (λ content. content) result
        (made_of class.now instance.now elements.items) }
{
    let set = DataSet::of(Syntax::Implicit, elements);
    let text = write(alloc, &set)?;
    let body = Bytes::from_vec(text)?;
    let class = Octets::from_slice(alloc, class)?;
    let instance = Octets::from_slice(alloc, instance)?;
    content_of(alloc, class, instance, Syntax::Implicit, body)
}

/// The content of an `image` line.
#[tactic(auto, unfolding(crate::specs::Sets::image_made))]
pub fn image_content(alloc: Global, line: &ImageLine) -> Result<Content, OpFault>
    requires { IsSet Implicit (image_elements_of line.now) }
    ensures { Gives is_memory (λ content. content) result (image_made line.now) }
{
    let elements = image_elements(alloc, line)?;
    content_from(alloc, &CT_IMAGE_STORAGE, line.instance.as_slice(), elements)
}

/// The content of a `note` line.
#[tactic(auto, unfolding(crate::specs::Sets::note_made))]
pub fn note_content(alloc: Global, line: &NoteLine) -> Result<Content, OpFault>
    requires { IsSet Implicit (note_elements_of line.now) }
    ensures { Gives is_memory (λ content. content) result (note_made line.now) }
{
    let elements = note_elements(alloc, line)?;
    content_from(
        alloc,
        &KEY_OBJECT_SELECTION_DOCUMENT_STORAGE,
        line.note.as_slice(),
        elements,
    )
}
