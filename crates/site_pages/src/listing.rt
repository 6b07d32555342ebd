//! A page of the studies that a search finds.

ghost use Rattle.std.specs.Prelude.{◌≡◌, codes, IfOk, List, take};
ghost use Rattle.operation.specs.declared.op.Op.{Op};
ghost use Rattle.archive_page.specs.declared.links.TheConstants.{PAGE_LENGTH};
ghost use Rattle.archive_query.specs.Found.{rows_found};
ghost use Rattle.archive_page.specs.Answers.{listing_answer as listing_answer_of};
ghost use Rattle.site_tables.specs.Studies.{value_or_none, AreTaken};
ghost use Rattle.site_pages.specs.StudiesPages.{modalities as modalities_in, has_modality as has_modality_in};
ghost use Rattle.site_pages.specs.StudiesPages.{of_modality as of_modality_in, page_of as page_in};
ghost use Rattle.site_pages.specs.StudiesPages.{query_of as query_in, listing_with, listing_of};

use archive_page::{Answer as Page, Form, Listing, PAGE_LENGTH, Search, listing_answer};
use archive_query::{Answer, Answers, Query};
use data_set::DataSet;
use dictionary::{
    ACCESSION_NUMBER, MODALITIES_IN_STUDY, NUMBER_OF_STUDY_RELATED_INSTANCES,
    NUMBER_OF_STUDY_RELATED_SERIES, PATIENT_ID, PATIENT_NAME, STUDY_DATE, STUDY_INSTANCE_UID,
};
use key_matching::{Matching, matches, members_of};
use octets::{ListOf, Octets};
use site_tables::TakenStudies;
use std::alloc::{AllocError, Global};

/// What is told of each study, besides how many of its instances are rejected.
const TOLD: [u32; 8] = [
    STUDY_INSTANCE_UID,
    PATIENT_ID,
    PATIENT_NAME,
    STUDY_DATE,
    ACCESSION_NUMBER,
    MODALITIES_IN_STUDY,
    NUMBER_OF_STUDY_RELATED_SERIES,
    NUMBER_OF_STUDY_RELATED_INSTANCES,
];

/// The trimmed modalities of an answered study, as it has them.
fn modalities_text(set: &DataSet) -> &[u8]
    ensures { result.now ≡ value_or_none MODALITIES_IN_STUDY set.now }
{
    match set.value(MODALITIES_IN_STUDY) {
        None => &[],
        Some(value) => value,
    }
}

/// The modalities of an answered study.
fn modalities(alloc: Global, answer: &Answer) -> Result<Vec<Octets>, AllocError>
    ensures { IfOk result (λ found. found.items ≡ modalities_in answer.now) }
{
    let set = answer.to_set(alloc)?;
    members_of(alloc, modalities_text(&set))
}

/// Whether one of the modalities of an answered study matches a key.
fn has_modality(alloc: Global, key: &[u8], answer: &Answer) -> Result<bool, AllocError>
    ensures { IfOk result (λ has. has ≡ has_modality_in key.now answer.now) }
{
    let modalities = modalities(alloc, answer)?;
    for modality in modalities.as_slice() {
        if matches(Matching::WildCard, key, modality.as_slice()) {
            return Ok(true);
        }
    }
    Ok(false)
}

/// Those of some answered studies that have the modality that is searched for.
fn of_modality(
    alloc: Global,
    search: &Search,
    mut answers: Answers,
) -> Result<Vec<Answer>, AllocError>
    ensures { IfOk result (λ found. found.items ≡ of_modality_in search.now answers) }
{
    let key = search.modality.as_slice();
    let mut found = Vec::new(alloc);
    while let Some(answer) = answers.next()? {
        if has_modality(alloc, key, &answer)? {
            found.push(answer)?;
        }
    }
    Ok(found)
}

/// The first of some answers that stand on one page.
fn front(answers: &[Answer]) -> &[Answer]
    ensures { result.now ≡ take PAGE_LENGTH answers.now }
{
    if answers.len() <= PAGE_LENGTH as usize {
        return answers;
    }
    let (front, _) = answers.split_at(PAGE_LENGTH as usize);
    front
}

/// Those of some answers that stand on a page.
#[tactic(auto, using(crate::proofs::ListingLaws::none_left))]
fn page_of(page: u32, answers: &[Answer]) -> &[Answer]
    ensures { result.now ≡ page_in page answers.now }
{
    let before = u64::from(page.saturating_sub(1)) * PAGE_LENGTH;
    if before >= answers.len() as u64 {
        return &[];
    }
    let (_, behind) = answers.split_at(before as usize);
    front(behind)
}

/// The page of what a search finds, which this query is, by what was taken.
fn taken_page(
    alloc: Global,
    search: Search,
    query: &Query,
    taken: &TakenStudies,
) -> Result<Listing, AllocError>
    ensures { IfOk result (λ listing. listing ≡ listing_with taken.now.rejected search
        (of_modality_in search (rows_found (codes "ARCHIVE") query.now taken.now.found))) }
{
    let answers = taken.answers(alloc, query)?;
    let found = of_modality(alloc, &search, answers)?;
    let shown = page_of(search.page, found.as_slice());
    let rows = taken.rows(alloc, TOLD.as_slice(), shown)?;
    let total = found.len() as u64;
    Ok(Listing {
        search,
        total,
        rows: ListOf::of(rows),
    })
}

/// The page of what a search finds, which this query is: that of each set of which this was taken.
pub fn listed(
    alloc: Global,
    form: Form,
    search: Search,
    query: &Query,
    taken: &TakenStudies,
) -> Result<Page, AllocError>
    requires { query.now ≡ query_in search }
    ensures { IfOk result (λ answer. (ops : List Op) → AreTaken query.now ops taken.now
        → answer ≡ listing_answer_of form (listing_of search ops)) }
{
    let listing = taken_page(alloc, search, query, taken)?;
    listing_answer(alloc, form, &listing)
}
