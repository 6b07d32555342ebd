//! What is told of a study itself: its patient, its date and the like, and what is in it.

ghost use Rattle.std.specs.Prelude.{◌≡◌, ◌++◌, ◌∷◌, [], IfOk, OnOk};
ghost use Rattle.site_state.specs.Site.{ops_of};
ghost use Rattle.site_tables.specs.StudyFacts.{study_keys, patient_keys, uid_keys, fact_query as fact_query_in};
ghost use Rattle.site_tables.specs.StudyFacts.{fact_row, patient_rows, moment_rows, order_rows, count_rows};
ghost use Rattle.site_tables.specs.StudyFacts.{fact_rows as fact_rows_of, facts_of as facts_in, no_facts as none_of};
ghost use Rattle.site_tables.specs.StudyFacts.{facts_among as facts_among_of, facts_by as facts_by_of, IsFound};

use crate::studies::{asked, value};
use crate::table::Row;
use archive_model::View;
use archive_query::{
    Answer, Asked, Found, Level, Matching, PreparedQuery, Query, rows_found, take,
};
use data_set::DataSet;
use dictionary::{
    ACCESSION_NUMBER, MODALITIES_IN_STUDY, NUMBER_OF_STUDY_RELATED_INSTANCES,
    NUMBER_OF_STUDY_RELATED_SERIES, PATIENT_BIRTH_DATE, PATIENT_ID, PATIENT_NAME, PATIENT_SEX,
    REFERRING_PHYSICIAN_NAME, STUDY_DATE, STUDY_DESCRIPTION, STUDY_ID, STUDY_INSTANCE_UID,
    STUDY_TIME,
};
use octets::{ListOf, Octets};
use site_state::Site;
use std::alloc::{AllocError, Global};

/// What is told of a study itself.
#[derive(Debug, Drop)]
pub struct StudyFacts {
    /// (0010,0010) Patient's Name
    pub name: Octets,
    /// (0008,0020) Study Date
    pub date: Octets,
    /// Of each attribute what it is, and its value.
    pub rows: ListOf<Row>,
}

/// Puts the keys that tell of the study.
fn put_study_keys(alloc: Global, keys: &mut ListOf<Asked>) -> Result<(), AllocError>
    ensures { OnOk result (keys.new ≡ keys.old ++ study_keys) }
{
    keys.push(asked(alloc, STUDY_DATE, Matching::Dates))?;
    keys.push(asked(alloc, STUDY_TIME, Matching::Times))?;
    keys.push(asked(alloc, ACCESSION_NUMBER, Matching::WildCard))?;
    keys.push(asked(alloc, MODALITIES_IN_STUDY, Matching::Answered))?;
    keys.push(asked(alloc, REFERRING_PHYSICIAN_NAME, Matching::WildCard))?;
    keys.push(asked(alloc, STUDY_DESCRIPTION, Matching::WildCard))?;
    Ok(())
}

/// Puts those that tell of its patient.
fn put_patient_keys(alloc: Global, keys: &mut ListOf<Asked>) -> Result<(), AllocError>
    ensures { OnOk result (keys.new ≡ keys.old ++ patient_keys) }
{
    keys.push(asked(alloc, PATIENT_NAME, Matching::Name))?;
    keys.push(asked(alloc, PATIENT_ID, Matching::WildCard))?;
    keys.push(asked(alloc, PATIENT_BIRTH_DATE, Matching::Dates))?;
    keys.push(asked(alloc, PATIENT_SEX, Matching::WildCard))?;
    Ok(())
}

/// The study as a key, by its UID (PS3.4, section C.2.2.2.2).
fn uid_key(alloc: Global, uid: &[u8]) -> Result<Asked, AllocError>
    ensures { IfOk result (λ asked. asked ≡ record {
      tag = STUDY_INSTANCE_UID;
      matching = Matching.Uids;
      key = uid.now;
    }) }
{
    Ok(Asked {
        tag: STUDY_INSTANCE_UID,
        matching: Matching::Uids,
        key: Octets::from_slice(alloc, uid)?,
    })
}

/// Puts the study as a key, its ID, and how many series and instances there are.
fn put_uid_keys(alloc: Global, uid: &[u8], keys: &mut ListOf<Asked>) -> Result<(), AllocError>
    ensures { OnOk result (keys.new ≡ keys.old ++ uid_keys uid.now) }
{
    keys.push(uid_key(alloc, uid)?)?;
    keys.push(asked(alloc, STUDY_ID, Matching::WildCard))?;
    keys.push(asked(alloc, NUMBER_OF_STUDY_RELATED_SERIES, Matching::Answered))?;
    keys.push(asked(alloc, NUMBER_OF_STUDY_RELATED_INSTANCES, Matching::Answered))?;
    Ok(())
}

/// The query for what is told of a study (PS3.4, section C.6.2.1).
fn fact_query(alloc: Global, uid: &[u8]) -> Result<Query, AllocError>
    ensures { IfOk result (λ query. query ≡ fact_query_in uid.now) }
{
    let mut keys = ListOf::new(alloc);
    put_study_keys(alloc, &mut keys)?;
    put_patient_keys(alloc, &mut keys)?;
    put_uid_keys(alloc, uid, &mut keys)?;
    Ok(Query {
        level: Level::Study,
        study: Octets::of(Vec::new(alloc)),
        series: Octets::of(Vec::new(alloc)),
        asked: keys,
        partial: false,
    })
}

/// Words that a proof takes by their names.
const DESCRIPTION: [u8; 11] = *b"description";

const REFERRING_PHYSICIAN: [u8; 19] = *b"referring physician";

const ACCESSION: [u8; 16] = *b"accession number";

/// Puts the row of an attribute.
#[tactic(auto, unfolding(crate::specs::StudyFacts::fact_row))]
fn put_fact(
    alloc: Global,
    what: &[u8],
    tag: u32,
    set: &DataSet,
    rows: &mut ListOf<Row>,
) -> Result<(), AllocError>
    ensures { OnOk result (rows.new ≡ rows.old ++ fact_row what.now tag set.now ∷ []) }
{
    let mut row = ListOf::new(alloc);
    row.push(Octets::from_slice(alloc, what)?)?;
    row.push(Octets::from_slice(alloc, value(set, tag))?)?;
    rows.push(row)?;
    Ok(())
}

/// Puts what is told of the patient of a study.
fn put_patient(alloc: Global, set: &DataSet, rows: &mut ListOf<Row>) -> Result<(), AllocError>
    ensures { OnOk result (rows.new ≡ rows.old ++ patient_rows set.now) }
{
    put_fact(alloc, b"patient", PATIENT_NAME, set, rows)?;
    put_fact(alloc, b"patient ID", PATIENT_ID, set, rows)?;
    put_fact(alloc, b"birth date", PATIENT_BIRTH_DATE, set, rows)?;
    put_fact(alloc, b"sex", PATIENT_SEX, set, rows)
}

/// Puts what is told of when the study is, and of what.
fn put_moment(alloc: Global, set: &DataSet, rows: &mut ListOf<Row>) -> Result<(), AllocError>
    ensures { OnOk result (rows.new ≡ rows.old ++ moment_rows set.now) }
{
    put_fact(alloc, b"date", STUDY_DATE, set, rows)?;
    put_fact(alloc, b"time", STUDY_TIME, set, rows)?;
    put_fact(alloc, DESCRIPTION.as_slice(), STUDY_DESCRIPTION, set, rows)
}

/// Puts what is told of its order.
fn put_order(alloc: Global, set: &DataSet, rows: &mut ListOf<Row>) -> Result<(), AllocError>
    ensures { OnOk result (rows.new ≡ rows.old ++ order_rows set.now) }
{
    put_fact(
        alloc,
        REFERRING_PHYSICIAN.as_slice(),
        REFERRING_PHYSICIAN_NAME,
        set,
        rows,
    )?;
    put_fact(alloc, ACCESSION.as_slice(), ACCESSION_NUMBER, set, rows)?;
    put_fact(alloc, b"study ID", STUDY_ID, set, rows)
}

/// Puts what is told of what is in it.
fn put_counts(alloc: Global, set: &DataSet, rows: &mut ListOf<Row>) -> Result<(), AllocError>
    ensures { OnOk result (rows.new ≡ rows.old ++ count_rows set.now) }
{
    put_fact(alloc, b"modalities", MODALITIES_IN_STUDY, set, rows)?;
    put_fact(alloc, b"series", NUMBER_OF_STUDY_RELATED_SERIES, set, rows)?;
    put_fact(
        alloc,
        b"instances",
        NUMBER_OF_STUDY_RELATED_INSTANCES,
        set,
        rows,
    )
}

/// The rows of what is told of an answered study.
#[tactic(auto, unfolding(crate::specs::StudyFacts::fact_rows))]
fn fact_rows(alloc: Global, set: &DataSet) -> Result<ListOf<Row>, AllocError>
    ensures { IfOk result (λ rows. rows ≡ fact_rows_of set.now) }
{
    let mut rows = ListOf::new(alloc);
    put_patient(alloc, set, &mut rows)?;
    put_moment(alloc, set, &mut rows)?;
    put_order(alloc, set, &mut rows)?;
    put_counts(alloc, set, &mut rows)?;
    Ok(rows)
}

/// What an answered study tells of itself.
fn facts_of(alloc: Global, set: &DataSet) -> Result<StudyFacts, AllocError>
    ensures { IfOk result (λ facts. facts ≡ facts_in set.now) }
{
    Ok(StudyFacts {
        name: Octets::from_slice(alloc, value(set, PATIENT_NAME))?,
        date: Octets::from_slice(alloc, value(set, STUDY_DATE))?,
        rows: fact_rows(alloc, set)?,
    })
}

/// What is told where nothing is answered.
fn no_facts(alloc: Global) -> StudyFacts
    ensures { result ≡ none_of }
{
    StudyFacts {
        name: Octets::of(Vec::new(alloc)),
        date: Octets::of(Vec::new(alloc)),
        rows: ListOf::new(alloc),
    }
}

/// What the first of some answered studies that has this UID tells of itself. A key of several UIDs,
/// or an empty one, finds others too.
fn facts_among(alloc: Global, uid: &[u8], answers: &[Answer]) -> Result<StudyFacts, AllocError>
    ensures { IfOk result (λ facts. facts ≡ facts_among_of uid.now answers.now) }
{
    for answer in answers {
        let set = answer.to_set(alloc)?;
        if value(&set, STUDY_INSTANCE_UID) == uid {
            return facts_of(alloc, &set);
        }
    }
    Ok(no_facts(alloc))
}

/// Takes what a C-FIND for a study takes in AUDIT.
pub(crate) fn take_facts(alloc: Global, site: &Site, uid: &[u8]) -> Result<Found, AllocError>
    ensures { IfOk result (IsFound uid.now (ops_of site.now)) }
{
    let query = fact_query(alloc, uid)?;
    let prepared = PreparedQuery::of(alloc, &query)?;
    let found = take(alloc, site, View::Audit, &prepared)?;
    Ok(found)
}

/// What is told of a study, by what was taken.
pub(crate) fn facts_by(alloc: Global, uid: &[u8], found: &Found) -> Result<StudyFacts, AllocError>
    ensures { IfOk result (λ facts. facts ≡ facts_by_of uid.now found.now) }
{
    let query = fact_query(alloc, uid)?;
    let answers = rows_found(alloc, found, b"AUDIT", &query)?;
    let answers = answers.into_vec(alloc)?;
    facts_among(alloc, uid, answers.as_slice())
}
