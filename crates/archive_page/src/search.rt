//! A search for studies, as the query of a request says it (RFC 3986, section 3.4): a form of pairs
//! (URL Standard, section 5.1).

ghost use Rattle.std.specs.Prelude.{◌≡◌, ℕ, IfOk, Option};
ghost use Rattle.std.specs.List.{find, list_all};
ghost use Rattle.std.specs.Option.{option_copied, option_map};
ghost use Rattle.form_urlencoded.specs.Form.{raw_pairs as raw_pairs_of};
ghost use Rattle.octets.specs.Gives.{Gives};
ghost use Rattle.octets.specs.Texts.{same};
ghost use Rattle.archive_page.specs.Searches.{is_named, text_of, value_under, value_or_none, is_known, with_digit};
ghost use Rattle.archive_page.specs.Searches.{number_in, page_in, search_in, is_memory, words_of};

use form_urlencoded::{decode, raw_pairs};
use octets::{Octets, trimmed};
use std::alloc::{AllocError, Global};
use thiserror::Error;

/// What is searched for among the studies, and which page of what is found. An empty key matches
/// each study.
#[derive(Debug, Drop)]
pub struct Search {
    /// (0010,0010) Patient's Name
    pub name: Octets,
    /// (0010,0020) Patient ID
    pub patient: Octets,
    /// (0008,0020) Study Date
    pub date: Octets,
    /// (0008,0050) Accession Number
    pub accession: Octets,
    /// (0008,0060) Modality, of any series of the study
    pub modality: Octets,
    /// From 1 on.
    pub page: u32,
}

/// Why a query says no search.
#[derive(Clone, Copy, Debug, PartialEq, Eq, Error)]
pub enum SearchFault {
    #[error("studies are not searched by a key of this name")]
    UnknownKey,
    #[error("page is no number from 1 to 999999999")]
    NoPage,
    #[error("there is no memory left")]
    Memory,
}

impl From<AllocError> for SearchFault {
    ghost use Rattle.archive_page.specs.declared.search.SearchFault.TheVariants.{Memory};

    ghost from_gives = { λ _ e. e ≡ Memory };

    fn from(_error: AllocError) -> SearchFault {
        SearchFault::Memory
    }
}

impl SearchFault {
    /// The reason, in words.
    pub fn words(self) -> &'static [u8]
        ensures { result.now ≡ words_of self }
    {
        match self {
            SearchFault::UnknownKey => {
                b"Studies are searched by PatientName, PatientID, StudyDate, AccessionNumber, Modality and page."
            }
            SearchFault::NoPage => b"A page is a number from 1 to 999999999.",
            SearchFault::Memory => b"There is no memory left.",
        }
    }
}

fn is(text: &[u8], word: &[u8]) -> bool
    ensures { result ≡ same text.now word.now }
{
    text == word
}

/// What stands behind the first key of a name, if it stands there, still encoded.
fn first<'a>(query: &'a [u8], name: &[u8]) -> Option<&'a [u8]>
    ensures { option_copied result
        ≡ option_map (λ pair. pair.1) (find (is_named name.now) (raw_pairs_of query.now)) }
{
    for (key, value) in raw_pairs(query) {
        if is(key, name) {
            return Some(value);
        }
    }
    None
}

/// A value as a form or a path has it, decoded (URL Standard, section 5.1) and trimmed.
pub fn decoded(alloc: Global, value: &[u8]) -> Result<Octets, AllocError>
    ensures { IfOk result (λ text. text ≡ text_of value.now) }
{
    let text = decode(alloc, value)?;
    Octets::from_slice(alloc, trimmed(text.as_bytes()))
}

/// The value of the first key of a name, empty where there is none.
fn value(alloc: Global, query: &[u8], name: &[u8]) -> Result<Octets, AllocError>
    ensures { IfOk result (λ text. text ≡ value_under name.now (raw_pairs_of query.now)) }
{
    match first(query, name) {
        None => Ok(Octets::of(Vec::new(alloc))),
        Some(value) => decoded(alloc, value),
    }
}

/// Whether studies are searched by a key of this name.
fn is_key(name: &[u8]) -> bool
    ensures { result ≡ is_known name.now }
{
    is(name, b"PatientName")
        || is(name, b"PatientID")
        || is(name, b"StudyDate")
        || is(name, b"AccessionNumber")
        || is(name, b"Modality")
        || is(name, b"page")
}

/// Whether all keys are such.
fn has_keys_only(query: &[u8]) -> bool
    ensures { result ≡ list_all (λ pair. is_known pair.0) (raw_pairs_of query.now) }
{
    for (key, _value) in raw_pairs(query) {
        if !is_key(key) {
            return false;
        }
    }
    true
}

/// A number with one digit more, below a thousand million.
fn next(number: u32, byte: u8) -> Option<u32>
    ensures { result ≡ with_digit number byte }
{
    if byte < 48 || byte > 57 || number >= 100_000_000 {
        return None;
    }
    Some(number * 10 + u32::from(byte - 48))
}

/// The number that a text writes in decimal digits, below a thousand million.
fn number(text: &[u8]) -> Option<u32>
    ensures { result ≡ number_in 0 text.now }
{
    let mut number = 0;
    for byte in text {
        match next(number, *byte) {
            None => return None,
            Some(longer) => number = longer,
        }
    }
    Some(number)
}

/// The page that a text names: the first where it is empty.
fn page(text: &[u8]) -> Result<u32, SearchFault>
    ensures { result ≡ page_in text.now }
{
    if text.is_empty() {
        return Ok(1);
    }
    match number(text) {
        None => Err(SearchFault::NoPage),
        Some(number) => {
            if number == 0 {
                return Err(SearchFault::NoPage);
            }
            Ok(number)
        }
    }
}

impl Search {
    /// The search that a query says, or the first that holds of: a key has a name that no search
    /// has; the page is no number from 1 to 999999999. Of two keys of one name the first counts.
    pub fn read(alloc: Global, query: &[u8]) -> Result<Search, SearchFault>
        ensures search { Gives is_memory (λ search. search) result (search_in query.now) }
    {
        if !has_keys_only(query) {
            return Err(SearchFault::UnknownKey);
        }
        let named = value(alloc, query, b"page")?;
        let page = page(named.as_slice())?;
        Ok(Search {
            name: value(alloc, query, b"PatientName")?,
            patient: value(alloc, query, b"PatientID")?,
            date: value(alloc, query, b"StudyDate")?,
            accession: value(alloc, query, b"AccessionNumber")?,
            modality: value(alloc, query, b"Modality")?,
            page,
        })
    }
}
