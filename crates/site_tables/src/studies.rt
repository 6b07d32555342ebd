//! The studies.

ghost use Rattle.std.specs.Prelude.{◌≡◌, ◌++◌, codes, IfOk, OnOk, map, length};
ghost use Rattle.std.specs.Fmt.{decimal};
ghost use Rattle.std.specs.Option.{option_copied};
ghost use Rattle.archive_query.specs.Found.{rows_found as rows_found_in};
ghost use Rattle.site_state.specs.Site.{ops_of};
ghost use Rattle.site_tables.specs.Studies.{asked_of as asked_in, study_query as query_in, pick_of_short};
ghost use Rattle.site_tables.specs.Studies.{rejected_picks as rejected_in, row_with, rows_taken};
ghost use Rattle.site_tables.specs.Studies.{study_pair, row_by, value_or_none, AreTaken};
ghost use Rattle.site_tables.specs.Under.{pairs, held_under, AreInOrder, Holds};

use crate::copies::{copies_of, references};
use crate::rejected::covered_uids;
use crate::table::Row;
use crate::under::{Under, put_in_order, run_under};
use archive_model::{View, study};
use archive_query::{
    Answer, Answers, Asked, Found, Level, Matching, PreparedQuery, Query, rows_found, take,
};
use data_set::DataSet;
use dictionary::{
    NUMBER_OF_STUDY_RELATED_INSTANCES, NUMBER_OF_STUDY_RELATED_SERIES, PATIENT_ID, PATIENT_NAME,
    STUDY_DATE, STUDY_INSTANCE_UID,
};
use octets::{ListOf, Octets, digits};
use records::RecordedContent;
use site_state::Site;
use std::alloc::{AllocError, Global};
use study_index::ShortText;

/// What a look takes for rows of studies: what the rows of a query are made of, and the picks of
/// the UIDs that notes name.
#[derive(Drop)]
pub struct TakenStudies {
    found: Found,
    rejected: ListOf<RecordedContent>,
}

/// What is told of each study, besides how many of its instances are rejected.
const TOLD: [u32; 6] = [
    STUDY_INSTANCE_UID,
    PATIENT_ID,
    PATIENT_NAME,
    STUDY_DATE,
    NUMBER_OF_STUDY_RELATED_SERIES,
    NUMBER_OF_STUDY_RELATED_INSTANCES,
];

/// A universal key (PS3.4, section C.2.2.2.3).
pub(crate) fn asked(alloc: Global, tag: u32, matching: Matching) -> Asked
    ensures { result ≡ asked_in tag matching }
{
    Asked {
        tag,
        matching,
        key: Octets::of(Vec::new(alloc)),
    }
}

/// The query for what is told of all studies (PS3.4, section C.6.2.1).
fn study_query(alloc: Global) -> Result<Query, AllocError>
    ensures { IfOk result (λ query. query ≡ query_in) }
{
    let mut keys = ListOf::new(alloc);
    keys.push(asked(alloc, STUDY_DATE, Matching::Dates))?;
    keys.push(asked(alloc, PATIENT_NAME, Matching::Name))?;
    keys.push(asked(alloc, PATIENT_ID, Matching::WildCard))?;
    keys.push(asked(alloc, NUMBER_OF_STUDY_RELATED_SERIES, Matching::Answered))?;
    keys.push(asked(alloc, NUMBER_OF_STUDY_RELATED_INSTANCES, Matching::Answered))?;
    Ok(Query {
        level: Level::Study,
        study: Octets::of(Vec::new(alloc)),
        series: Octets::of(Vec::new(alloc)),
        asked: keys,
        partial: false,
    })
}

/// The pick of a SOP Instance UID, which has at most 64 bytes.
fn pick<'a>(site: &'a Site, uid: &[u8]) -> Option<&'a RecordedContent>
    ensures { option_copied result ≡ pick_of_short (ops_of site.now) uid.now }
{
    match ShortText::of(uid) {
        None => None,
        Some(uid) => site.pick(&uid),
    }
}

/// The picks of the UIDs that notes name.
fn rejected_picks<'a>(alloc: Global, site: &'a Site) -> Result<Vec<&'a RecordedContent>, AllocError>
    ensures { IfOk result (λ found. map (λ c. c.now) found.items
        ≡ rejected_in (ops_of site.now)) }
{
    let uids = covered_uids(alloc, site)?;
    let mut found = Vec::new(alloc);
    for uid in uids.as_slice() {
        if let Some(content) = pick(site, uid.as_slice()) {
            found.push(content)?;
        }
    }
    Ok(found)
}

/// Some contents, each under its study.
fn under_studies<'a>(
    alloc: Global,
    contents: &[&'a RecordedContent],
) -> Result<Vec<Under<'a, RecordedContent>>, AllocError>
    ensures { IfOk result (λ found. pairs found.items
        ≡ map study_pair (map (λ c. c.now) contents.now)) }
{
    let mut found = Vec::with_capacity(alloc, contents.len())?;
    for content in contents {
        found.push(Under {
            uid: study(content),
            held: *content,
        })?;
    }
    Ok(found)
}

/// The same, in the order of the studies.
fn by_study<'a>(
    alloc: Global,
    contents: &[&'a RecordedContent],
) -> Result<Vec<Under<'a, RecordedContent>>, AllocError>
    ensures { IfOk result (λ found.
        Holds (map study_pair (map (λ c. c.now) contents.now)) found.items) }
{
    let mut entries = under_studies(alloc, contents)?;
    put_in_order(&mut entries)?;
    Ok(entries)
}

/// How many contents lie under a study, in decimal digits.
fn count_of_study(
    alloc: Global,
    entries: &[Under<'_, RecordedContent>],
    uid: &[u8],
) -> Result<Octets, AllocError>
    requires { AreInOrder entries.now }
    ensures { IfOk result (λ text. text
        ≡ decimal (length (held_under uid.now (pairs entries.now)))) }
{
    digits(alloc, run_under(entries, uid).len() as u64)
}

/// The trimmed value of an element, empty where there is none.
pub(crate) fn value(set: &DataSet, tag: u32) -> &[u8]
    ensures { result.now ≡ value_or_none tag set.now }
{
    match set.value(tag) {
        None => &[],
        Some(value) => value,
    }
}

/// Puts the values of some elements into the cells of a row.
fn put_values(alloc: Global, set: &DataSet, tags: &[u32], cells: &mut Row) -> Result<(), AllocError>
    ensures { OnOk result
        (cells.new ≡ cells.old ++ map (λ tag. value_or_none tag set.now) tags.now) }
{
    for tag in tags {
        cells.push(Octets::from_slice(alloc, value(set, *tag))?)?;
    }
    Ok(())
}

/// The row of a study that is answered.
fn row(
    alloc: Global,
    tags: &[u32],
    entries: &[Under<'_, RecordedContent>],
    set: &DataSet,
) -> Result<Row, AllocError>
    requires { AreInOrder entries.now }
    ensures { IfOk result (λ row. row ≡ row_by tags.now entries.now set.now) }
{
    let mut cells = ListOf::new(alloc);
    put_values(alloc, set, tags, &mut cells)?;
    cells.push(count_of_study(alloc, entries, value(set, STUDY_INSTANCE_UID))?)?;
    Ok(cells)
}

/// The rows of what is answered.
fn rows_at(
    alloc: Global,
    tags: &[u32],
    entries: &[Under<'_, RecordedContent>],
    answers: &[Answer],
) -> Result<Vec<Row>, AllocError>
    requires { AreInOrder entries.now }
    ensures { IfOk result (λ rows. rows.items ≡ map (row_by tags.now entries.now) answers.now) }
{
    let mut rows = Vec::with_capacity(alloc, answers.len())?;
    for answer in answers {
        let set = answer.to_set(alloc)?;
        rows.push(row(alloc, tags, entries, &set)?)?;
    }
    Ok(rows)
}

impl TakenStudies {
    /// Takes from a site, in ARCHIVE, what rows of the studies are made of that a query finds.
    pub fn of(
        alloc: Global,
        site: &Site,
        prepared: &PreparedQuery,
    ) -> Result<TakenStudies, AllocError>
        ensures { IfOk result (AreTaken prepared.now (ops_of site.now)) }
    {
        let rejected = rejected_picks(alloc, site)?;
        Ok(TakenStudies {
            found: take(alloc, site, View::Archive, prepared)?,
            rejected: ListOf::of(copies_of(alloc, &rejected)?),
        })
    }

    /// What a C-FIND with this query answers to the called title ARCHIVE, by what was taken.
    pub fn answers(&self, alloc: Global, query: &Query) -> Result<Answers, AllocError>
        ensures { IfOk result (λ answers. answers
            ≡ rows_found_in (codes "ARCHIVE") query.now self.now.found) }
    {
        rows_found(alloc, &self.found, b"ARCHIVE", query)
    }

    /// The rows of some of these answers: the values of each under some tags, and how many
    /// instances of its study are rejected.
    pub fn rows(
        &self,
        alloc: Global,
        tags: &[u32],
        answers: &[Answer],
    ) -> Result<Vec<Row>, AllocError>
        ensures { IfOk result (λ rows. rows.items
            ≡ map (row_with tags.now self.now.rejected) answers.now) }
    {
        let rejected = references(alloc, self.rejected.as_slice())?;
        let entries = by_study(alloc, &rejected)?;
        let rows = rows_at(alloc, tags, &entries, answers)?;
        Ok(rows)
    }
}

/// Takes what the rows of all studies are made of.
pub(crate) fn take_studies(alloc: Global, site: &Site) -> Result<TakenStudies, AllocError>
    ensures { IfOk result (AreTaken query_in (ops_of site.now)) }
{
    let query = study_query(alloc)?;
    let prepared = PreparedQuery::of(alloc, &query)?;
    let taken = TakenStudies::of(alloc, site, &prepared)?;
    Ok(taken)
}

/// The rows of what was taken.
pub(crate) fn rows_of_studies(alloc: Global, taken: &TakenStudies) -> Result<Vec<Row>, AllocError>
    ensures { IfOk result (λ rows. rows.items ≡ rows_taken taken.now) }
{
    let query = study_query(alloc)?;
    let answers = taken.answers(alloc, &query)?;
    let answers = answers.into_vec(alloc)?;
    taken.rows(alloc, TOLD.as_slice(), &answers)
}
