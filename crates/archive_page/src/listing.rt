//! A page of what a search for studies finds.

ghost use Rattle.std.specs.Prelude.{◌≡◌, ◌++◌, IfOk, OnOk, map};
ghost use Rattle.archive_page.specs.Listings.{listing_heading, search_input, patient_inputs, study_inputs};
ghost use Rattle.archive_page.specs.Listings.{search_form, turning_link, previous_link, next_link, turning_links};
ghost use Rattle.archive_page.specs.Listings.{page_place, turning, below_listing, listing_page};

use crate::escaping::put_escaped;
use crate::form::{ACCESSION, BUTTON, DATE, FORM, MODALITY, NAME, PATIENT};
use crate::frame::{END, LINK};
use crate::links::{link, pages};
use crate::pages::put_above;
use crate::search::Search;
use crate::subject::{Form, Subject};
use crate::tables::put_linked_table;
use octets::{ListOf, Octets, put_digits};
use std::alloc::{AllocError, Global};

/// A page of what a search finds.
#[derive(Debug, Drop)]
pub struct Listing {
    pub search: Search,
    /// How many studies it finds in all.
    pub total: u64,
    /// The rows of this page.
    pub rows: ListOf<ListOf<Octets>>,
}

/// What stands above the columns.
pub(crate) fn heading() -> &'static [&'static str]
    ensures { map (λ word. word.now) result.now ≡ listing_heading }
{
    &[
        "STUDY",
        "PATIENT",
        "NAME",
        "DATE",
        "ACCESSION",
        "MODALITIES",
        "SERIES",
        "INSTANCES",
        "REJECTED",
    ]
}

/// Puts a field of the form, which is opened so, with what was searched for (HTML, section 4.10.5).
#[tactic(auto, unfolding(crate::specs::Listings::search_input))]
fn put_input(
    alloc: Global,
    out: &mut Vec<u8>,
    opening: &[u8],
    value: &[u8],
) -> Result<(), AllocError>
    ensures { OnOk result (out.new.items ≡ out.old.items ++ search_input opening.now value.now) }
{
    out.extend_from_slice(opening)?;
    put_escaped(alloc, out, value)?;
    out.extend_from_slice(b"\"></label>\n")
}

/// Puts the fields of a patient.
#[tactic(auto, unfolding(crate::specs::Listings::patient_inputs))]
fn put_patient(alloc: Global, out: &mut Vec<u8>, search: &Search) -> Result<(), AllocError>
    ensures { OnOk result (out.new.items ≡ out.old.items ++ patient_inputs search.now) }
{
    put_input(alloc, out, NAME.as_slice(), search.name.as_slice())?;
    put_input(alloc, out, PATIENT.as_slice(), search.patient.as_slice())
}

/// Puts those of a study.
#[tactic(auto, unfolding(crate::specs::Listings::study_inputs))]
fn put_study(alloc: Global, out: &mut Vec<u8>, search: &Search) -> Result<(), AllocError>
    ensures { OnOk result (out.new.items ≡ out.old.items ++ study_inputs search.now) }
{
    let accession = search.accession.as_slice();
    put_input(alloc, out, DATE.as_slice(), search.date.as_slice())?;
    put_input(alloc, out, ACCESSION.as_slice(), accession)?;
    put_input(alloc, out, MODALITY.as_slice(), search.modality.as_slice())
}

/// Puts the form that asks for a search (HTML, section 4.10.3).
#[tactic(auto, unfolding(crate::specs::Listings::search_form))]
fn put_form(alloc: Global, out: &mut Vec<u8>, search: &Search) -> Result<(), AllocError>
    ensures { OnOk result (out.new.items ≡ out.old.items ++ search_form search.now) }
{
    out.extend_from_slice(FORM.as_slice())?;
    put_patient(alloc, out, search)?;
    put_study(alloc, out, search)?;
    out.extend_from_slice(BUTTON.as_slice())
}

/// Puts a link to a page of what a search finds.
#[tactic(auto, unfolding(crate::specs::Listings::turning_link))]
fn put_link(
    alloc: Global,
    out: &mut Vec<u8>,
    search: &Search,
    page: u64,
    words: &[u8],
) -> Result<(), AllocError>
    ensures { OnOk result
        (out.new.items ≡ out.old.items ++ turning_link search.now page words.now) }
{
    let target = link(alloc, Form::Html, search, page)?;
    out.extend_from_slice(b"<a href=\"")?;
    put_escaped(alloc, out, target.as_slice())?;
    out.extend_from_slice(b"\">")?;
    out.extend_from_slice(words)?;
    out.extend_from_slice(b"</a>\n")
}

#[tactic(auto, unfolding(crate::specs::Listings::previous_link))]
fn put_previous(alloc: Global, out: &mut Vec<u8>, search: &Search) -> Result<(), AllocError>
    ensures { OnOk result (out.new.items ≡ out.old.items ++ previous_link search.now) }
{
    let page = u64::from(search.page);
    if page < 2 {
        return Ok(());
    }
    put_link(alloc, out, search, page - 1, b"Previous")
}

#[tactic(auto, unfolding(crate::specs::Listings::next_link))]
fn put_next(alloc: Global, out: &mut Vec<u8>, search: &Search, total: u64) -> Result<(), AllocError>
    ensures { OnOk result (out.new.items ≡ out.old.items ++ next_link search.now total) }
{
    let page = u64::from(search.page);
    if page < pages(total) {
        return put_link(alloc, out, search, page + 1, b"Next");
    }
    Ok(())
}

/// Puts the links to the pages beside a page.
#[tactic(auto, unfolding(crate::specs::Listings::turning_links))]
fn put_links(
    alloc: Global,
    out: &mut Vec<u8>,
    search: &Search,
    total: u64,
) -> Result<(), AllocError>
    ensures { OnOk result (out.new.items ≡ out.old.items ++ turning_links search.now total) }
{
    out.extend_from_slice(b"<p>")?;
    put_previous(alloc, out, search)?;
    put_next(alloc, out, search, total)?;
    out.extend_from_slice(b"</p>\n")
}

/// Puts which page it is, of how many.
#[tactic(auto, unfolding(crate::specs::Listings::page_place))]
fn put_place(alloc: Global, out: &mut Vec<u8>, page: u64, total: u64) -> Result<(), AllocError>
    ensures { OnOk result (out.new.items ≡ out.old.items ++ page_place page total) }
{
    out.extend_from_slice(b"<p>Page ")?;
    put_digits(alloc, out, page)?;
    out.extend_from_slice(b" of ")?;
    put_digits(alloc, out, pages(total))
}

/// Puts which page it is, of how many, how many studies there are, and the links to the pages
/// beside it.
#[tactic(auto, unfolding(crate::specs::Listings::turning))]
fn put_turning(
    alloc: Global,
    out: &mut Vec<u8>,
    search: &Search,
    total: u64,
) -> Result<(), AllocError>
    ensures { OnOk result (out.new.items ≡ out.old.items ++ turning search.now total) }
{
    put_place(alloc, out, u64::from(search.page), total)?;
    out.extend_from_slice(b", studies: ")?;
    put_digits(alloc, out, total)?;
    out.extend_from_slice(b"</p>\n")?;
    put_links(alloc, out, search, total)
}

/// Puts what stands below: a link to the same page in JSON.
#[tactic(auto, unfolding(crate::specs::Listings::below_listing))]
fn put_below(alloc: Global, out: &mut Vec<u8>, search: &Search) -> Result<(), AllocError>
    ensures { OnOk result (out.new.items ≡ out.old.items ++ below_listing search.now) }
{
    let target = link(alloc, Form::Json, search, u64::from(search.page))?;
    out.extend_from_slice(LINK.as_slice())?;
    put_escaped(alloc, out, target.as_slice())?;
    out.extend_from_slice(END.as_slice())
}

/// A page of what a search finds in HTML: the form with the search, the rows, and the links to the
/// pages beside it.
#[tactic(auto, unfolding(crate::specs::Listings::listing_page))]
pub(crate) fn listing_in_html(alloc: Global, listing: &Listing) -> Result<Vec<u8>, AllocError>
    ensures { IfOk result (λ text. text.items ≡ listing_page listing.now) }
{
    let search = &listing.search;
    let mut out = Vec::new(alloc);
    put_above(&mut out, Subject::Studies)?;
    put_form(alloc, &mut out, search)?;
    put_linked_table(alloc, &mut out, heading(), listing.rows.as_slice())?;
    put_turning(alloc, &mut out, search, listing.total)?;
    put_below(alloc, &mut out, search)?;
    Ok(out)
}
