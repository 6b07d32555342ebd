//! What a Key Object Selection names: (0040,A375) > (0008,1115) > (0008,1199) > (0008,1155)
//! (PS3.3, section C.17.6.2; the references, section C.17.2.1).

ghost use Rattle.std.specs.Prelude.{◌≡◌, ◌++◌, OnOk, IfOk, map};
ghost use Rattle.rejection_note.specs.Notes.{named, named_by_images, named_by_series, named_by_studies};

use data_set::{Element, items_of, value_of};
use dictionary::{
    CURRENT_REQUESTED_PROCEDURE_EVIDENCE_SEQUENCE, REFERENCED_SERIES_SEQUENCE,
    REFERENCED_SOP_INSTANCE_UID, REFERENCED_SOP_SEQUENCE,
};
use octets::Octets;
use std::alloc::{AllocError, Global};

fn push_images(
    alloc: Global,
    found: &mut Vec<Octets>,
    items: &[Vec<Element>],
) -> Result<(), AllocError>
    ensures { OnOk result (found.new.items
        ≡ found.old.items ++ named_by_images (map (λ item. item.items) items.now)) }
{
    for item in items {
        // An item that names nothing is passed over.
        if let Some(uid) = value_of(item, REFERENCED_SOP_INSTANCE_UID) {
            found.push(Octets::from_slice(alloc, uid)?)?;
        }
    }
    Ok(())
}

fn push_series(
    alloc: Global,
    found: &mut Vec<Octets>,
    items: &[Vec<Element>],
) -> Result<(), AllocError>
    ensures { OnOk result (found.new.items
        ≡ found.old.items ++ named_by_series (map (λ item. item.items) items.now)) }
{
    for item in items {
        if let Some(images) = items_of(item, REFERENCED_SOP_SEQUENCE) {
            push_images(alloc, found, images)?;
        }
    }
    Ok(())
}

fn push_studies(
    alloc: Global,
    found: &mut Vec<Octets>,
    items: &[Vec<Element>],
) -> Result<(), AllocError>
    ensures { OnOk result (found.new.items
        ≡ found.old.items ++ named_by_studies (map (λ item. item.items) items.now)) }
{
    for item in items {
        if let Some(series) = items_of(item, REFERENCED_SERIES_SEQUENCE) {
            push_series(alloc, found, series)?;
        }
    }
    Ok(())
}

/// The UIDs that a document names, in its order.
pub fn named_uids(alloc: Global, elements: &[Element]) -> Result<Vec<Octets>, AllocError>
    ensures { IfOk result (λ uids. uids.items ≡ named elements.now) }
{
    let mut found = Vec::new(alloc);
    if let Some(studies) = items_of(elements, CURRENT_REQUESTED_PROCEDURE_EVIDENCE_SEQUENCE) {
        push_studies(alloc, &mut found, studies)?;
    }
    Ok(found)
}
