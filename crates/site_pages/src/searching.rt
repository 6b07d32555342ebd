//! A search for studies as a query of a C-FIND (PS3.4, section C.4.1).

ghost use Rattle.std.specs.Prelude.{◌≡◌, IfOk};
ghost use Rattle.site_pages.specs.StudiesPages.{key_of as key_in, query_of as query_in};
ghost use Rattle.site_pages.specs.StudiesPages.{has_bad_date as has_bad_date_in, Reads};

use archive_page::{Answer, Search, SearchFault, Status, refusal};
use archive_query::{Asked, Level, Matching, Query};
use dictionary::{
    ACCESSION_NUMBER, MODALITIES_IN_STUDY, NUMBER_OF_STUDY_RELATED_INSTANCES,
    NUMBER_OF_STUDY_RELATED_SERIES, PATIENT_ID, PATIENT_NAME, STUDY_DATE,
};
use key_matching::{is_of_form, is_universal};
use octets::{ListOf, Octets};
use std::alloc::{AllocError, Global};

/// Why a search by this date is refused.
const BAD_DATE: [u8; 87] =
    *b"A study date is YYYYMMDD, or a range: two such with a - between, or one with a - at it.";

/// What a query for studies says.
#[derive(Drop)]
pub enum Searched {
    Found(Search),
    /// It says no search, and is answered with why.
    Refused(Answer),
}

fn key(alloc: Global, tag: u32, matching: Matching, text: &Octets) -> Result<Asked, AllocError>
    ensures { IfOk result (λ asked. asked ≡ key_in tag matching text.now) }
{
    Ok(Asked {
        tag,
        matching,
        key: text.copy(alloc)?,
    })
}

/// The query that a search is, for all that is told of each study (PS3.4, section C.6.2.1).
pub fn query_of(alloc: Global, search: &Search) -> Result<Query, AllocError>
    ensures { IfOk result (λ query. query ≡ query_in search.now) }
{
    let all = Octets::of(Vec::new(alloc));
    let mut keys = ListOf::new(alloc);
    keys.push(key(alloc, STUDY_DATE, Matching::Dates, &search.date)?)?;
    keys.push(key(
        alloc,
        ACCESSION_NUMBER,
        Matching::WildCard,
        &search.accession,
    )?)?;
    keys.push(key(alloc, MODALITIES_IN_STUDY, Matching::Answered, &all)?)?;
    keys.push(key(alloc, PATIENT_NAME, Matching::Name, &search.name)?)?;
    keys.push(key(alloc, PATIENT_ID, Matching::WildCard, &search.patient)?)?;
    keys.push(key(
        alloc,
        NUMBER_OF_STUDY_RELATED_SERIES,
        Matching::Answered,
        &all,
    )?)?;
    keys.push(key(
        alloc,
        NUMBER_OF_STUDY_RELATED_INSTANCES,
        Matching::Answered,
        &all,
    )?)?;
    Ok(Query {
        level: Level::Study,
        study: Octets::of(Vec::new(alloc)),
        series: Octets::of(Vec::new(alloc)),
        asked: keys,
        partial: false,
    })
}

/// Whether the date that is searched for is neither a date nor a range of dates.
fn has_bad_date(search: &Search) -> bool
    ensures { result ≡ has_bad_date_in search.now }
{
    let date = search.date.as_slice();
    !is_universal(date) && !is_of_form(Matching::Dates, date)
}

/// The search that a query says, or the answer of 400 with the reason where it says none.
pub fn search_of(alloc: Global, query: &[u8]) -> Result<Searched, AllocError>
    ensures { IfOk result (Reads query.now) }
{
    match Search::read(alloc, query) {
        Err(SearchFault::Memory) => Err(AllocError),
        Err(SearchFault::UnknownKey) => {
            let words = SearchFault::UnknownKey.words();
            let answer = refusal(alloc, Status::BadRequest, words)?;
            Ok(Searched::Refused(answer))
        }
        Err(SearchFault::NoPage) => {
            let words = SearchFault::NoPage.words();
            let answer = refusal(alloc, Status::BadRequest, words)?;
            Ok(Searched::Refused(answer))
        }
        Ok(search) => {
            if has_bad_date(&search) {
                let answer = refusal(alloc, Status::BadRequest, BAD_DATE.as_slice())?;
                return Ok(Searched::Refused(answer));
            }
            Ok(Searched::Found(search))
        }
    }
}
