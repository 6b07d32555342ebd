//! Which data sets are rejection notes.

ghost use Rattle.std.specs.Prelude.{◌≡◌, Ok};
ghost use Rattle.std.specs.List.{list_all};
ghost use Rattle.octets.specs.Uid.{is_uid_text};
ghost use Rattle.octets.specs.Gives.{Gives};
ghost use Rattle.rejection_note.specs.Fault.{is_memory};
ghost use Rattle.rejection_note.specs.Notes.{note_in, note_of_title, named};

use crate::covers::named_uids;
use crate::fault::NoteFault;
use crate::note::Note;
use crate::title::{NoteTitle, title_in};
use data_set::{DataSet, Element, items_of};
use dictionary::{CONCEPT_NAME_CODE_SEQUENCE, KEY_OBJECT_SELECTION_DOCUMENT_STORAGE};
use octets::{ListOf, Octets, ascending, is_uid};
use std::alloc::Global;

fn are_uids(uids: &[Octets]) -> bool
    ensures { result ≡ list_all is_uid_text uids.now }
{
    uids.iter().all(|uid| is_uid(uid.as_slice()))
}

/// What a document of this title covers.
fn note_of_uids(title: NoteTitle, uids: Vec<Octets>) -> Result<Option<Note>, NoteFault>
    ensures { result ≡ note_of_title (Some title) uids.items }
{
    if uids.is_empty() || !are_uids(uids.as_slice()) {
        return Err(NoteFault::NoReference);
    }
    Ok(Some(Note {
        title,
        covers: ListOf::of(ascending(uids)),
    }))
}

/// The rejection note that a data set of this SOP class is. Another class, and a document of
/// another title, is none. The class is compared as it stands, without padding.
#[tactic(auto, unfolding(crate::specs::Notes::note_in))]
pub fn note_of(alloc: Global, class: &[u8], set: &DataSet) -> Result<Option<Note>, NoteFault>
    ensures { Gives is_memory (λ note. note) result (note_in class.now set.now.elements) }
{
    if class != KEY_OBJECT_SELECTION_DOCUMENT_STORAGE.as_slice() {
        return Ok(None);
    }
    let elements = set.elements();
    let title = match items_of(elements, CONCEPT_NAME_CODE_SEQUENCE) {
        None => return Err(NoteFault::NoTitle),
        Some([]) => return Err(NoteFault::NoTitle),
        Some([item, ..]) => title_in(item),
    };
    match title {
        None => Ok(None),
        Some(title) => note_of_uids(title, named_uids(alloc, elements)?),
    }
}
