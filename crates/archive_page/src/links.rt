//! The links between the pages of what a search finds, and the paths of the pages of studies.

ghost use Rattle.std.specs.Prelude.{◌≡◌, ◌++◌, IfOk, OnOk};
ghost use Rattle.form_urlencoded.specs.Form.{byte_serialize as serialized};
ghost use Rattle.archive_page.specs.Links.{pair_text, patient_keys, study_keys, link_to, pages_of, suffix_of};
ghost use Rattle.archive_page.specs.Links.{study_path as study_path_of};

use crate::search::Search;
use crate::subject::{Form, Subject};
use form_urlencoded::byte_serialize;
use octets::{Octets, put_digits};
use std::alloc::{AllocError, Global};

/// How many studies stand on a page.
pub const PAGE_LENGTH: u64 = 50;

/// Puts a value as a form writes it (URL Standard, section 5.2).
fn put_encoded(out: &mut Vec<u8>, value: &[u8]) -> Result<(), AllocError>
    ensures { OnOk result (out.new.items ≡ out.old.items ++ serialized value.now) }
{
    for piece in byte_serialize(value) {
        out.extend_from_slice(piece.as_bytes())?;
    }
    Ok(())
}

/// Puts a key and its value, and what parts them from the next, unless the value is empty.
#[tactic(auto, unfolding(crate::specs::Links::pair_text))]
fn put_pair(out: &mut Vec<u8>, name: &[u8], value: &[u8]) -> Result<(), AllocError>
    ensures { OnOk result (out.new.items ≡ out.old.items ++ pair_text name.now value.now) }
{
    if value.is_empty() {
        return Ok(());
    }
    out.extend_from_slice(name)?;
    out.extend_from_slice(b"=")?;
    put_encoded(out, value)?;
    out.extend_from_slice(b"&")
}

/// Puts the keys of a patient that are not empty.
#[tactic(auto, unfolding(crate::specs::Links::patient_keys))]
fn put_patient(out: &mut Vec<u8>, search: &Search) -> Result<(), AllocError>
    ensures { OnOk result (out.new.items ≡ out.old.items ++ patient_keys search.now) }
{
    put_pair(out, b"PatientName", search.name.as_slice())?;
    put_pair(out, b"PatientID", search.patient.as_slice())
}

/// Puts those of a study.
#[tactic(auto, unfolding(crate::specs::Links::study_keys))]
fn put_study(out: &mut Vec<u8>, search: &Search) -> Result<(), AllocError>
    ensures { OnOk result (out.new.items ≡ out.old.items ++ study_keys search.now) }
{
    put_pair(out, b"StudyDate", search.date.as_slice())?;
    put_pair(out, b"AccessionNumber", search.accession.as_slice())?;
    put_pair(out, b"Modality", search.modality.as_slice())
}

/// The path and the query of a page of what a search finds.
#[tactic(auto, unfolding(crate::specs::Links::link_to))]
pub(crate) fn link(
    alloc: Global,
    form: Form,
    search: &Search,
    page: u64,
) -> Result<Octets, AllocError>
    ensures { IfOk result (λ link. link ≡ link_to form search.now page) }
{
    let mut out = Vec::new(alloc);
    out.extend_from_slice(Subject::Studies.path(form))?;
    out.extend_from_slice(b"?")?;
    put_patient(&mut out, search)?;
    put_study(&mut out, search)?;
    out.extend_from_slice(b"page=")?;
    put_digits(alloc, &mut out, page)?;
    Ok(Octets::of(out))
}

/// What stands behind the name of a study in the path of its page.
fn suffix(form: Form) -> &'static [u8]
    ensures { result.now ≡ suffix_of form }
{
    match form {
        Form::Html => b"",
        Form::Json => b".json",
    }
}

/// The path of the page of a study.
#[tactic(auto, unfolding(crate::specs::Links::study_path))]
pub(crate) fn study_path(alloc: Global, form: Form, uid: &[u8]) -> Result<Octets, AllocError>
    ensures { IfOk result (λ path. path ≡ study_path_of form uid.now) }
{
    let mut out = Vec::new(alloc);
    out.extend_from_slice(b"/study/")?;
    put_encoded(&mut out, uid)?;
    out.extend_from_slice(suffix(form))?;
    Ok(Octets::of(out))
}

/// How many pages so many studies have: one at least.
pub(crate) fn pages(total: u64) -> u64
    ensures { result ≡ pages_of total }
{
    total.saturating_sub(1) / PAGE_LENGTH + 1
}
