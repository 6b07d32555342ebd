//! Queries, as the identifier of a C-FIND says them (PS3.4, section C.4.1.1.3).

ghost use Rattle.std.specs.Prelude.{◌≡◌, ◌↔◌, IfOk, IsTrue};
ghost use Rattle.std.specs.List.{filter_map, list_any};
ghost use Rattle.octets.specs.Gives.{Gives};
ghost use Rattle.data_set.specs.Values.{value_in};
ghost use Rattle.dictionary.specs.declared.elements.TheConstants.{QUERY_RETRIEVE_LEVEL};
ghost use Rattle.archive_model.specs.Fault.{is_memory};
ghost use Rattle.archive_model.specs.Query.{level_named, level_in, uid_from, upper_uid as upper_uid_in, key_text};
ghost use Rattle.archive_model.specs.Query.{is_counted as is_counted_in, is_answered_only as is_answered_only_in};
ghost use Rattle.archive_model.specs.Query.{makes_partial as makes_partial_in, is_partial_at as is_partial_in};
ghost use Rattle.archive_model.specs.Query.{is_bad as is_bad_in, is_bad_at as is_bad_at_in, asked_of as asked_in};
ghost use Rattle.archive_model.specs.Query.{query_of};

use crate::asked::Asked;
use crate::fault::QueryFault;
use crate::key::{Level, matching_of};
use data_set::{DataSet, Element};
use dictionary::{
    QUERY_RETRIEVE_LEVEL, RETRIEVE_AE_TITLE, SERIES_INSTANCE_UID, SPECIFIC_CHARACTER_SET,
    STUDY_INSTANCE_UID,
};
use key_matching::{Matching, is_of_form, is_universal};
use octets::{ListOf, Octets, is_uid, trimmed};
use std::alloc::{AllocError, Global};

/// A query: its level, the study and the series that it names, and what it asks.
#[derive(Debug, Drop)]
pub struct Query {
    pub level: Level,
    /// The study, at SERIES and IMAGE; else empty.
    pub study: Octets,
    /// The series, at IMAGE; else empty.
    pub series: Octets,
    /// The supported keys, in ascending tags.
    pub asked: ListOf<Asked>,
    /// Whether some key is not supported, or a key that is answered only is not empty.
    pub partial: bool,
}

fn level_of_word(word: &[u8]) -> Result<Level, QueryFault>
    ensures { result ≡ level_named word.now }
{
    if word == Level::Study.word() {
        return Ok(Level::Study);
    }
    if word == Level::Series.word() {
        return Ok(Level::Series);
    }
    if word == Level::Image.word() {
        return Ok(Level::Image);
    }
    Err(QueryFault::NoLevel)
}

/// The level that an identifier names, (0008,0052).
pub fn level_of(set: &DataSet) -> Result<Level, QueryFault>
    ensures { result ≡ level_in (value_in QUERY_RETRIEVE_LEVEL set.now.elements) }
{
    match set.value(QUERY_RETRIEVE_LEVEL) {
        None => Err(QueryFault::NoLevel),
        Some(word) => level_of_word(word),
    }
}

/// A unique key above the level, which names exactly one UID; empty where none is named.
pub fn upper_uid(
    alloc: Global,
    set: &DataSet,
    is_named: bool,
    tag: u32,
) -> Result<Octets, QueryFault>
    ensures { Gives is_memory (λ uid. uid) result (upper_uid_in is_named tag set.now.elements) }
{
    if !is_named {
        return Ok(Octets::of(Vec::new(alloc)));
    }
    match set.value(tag) {
        None => Err(QueryFault::MissingUpperKey),
        Some(uid) => one_uid(alloc, uid),
    }
}

fn one_uid(alloc: Global, uid: &[u8]) -> Result<Octets, QueryFault>
    ensures { Gives is_memory (λ uid. uid) result (uid_from uid.now) }
{
    if !is_uid(uid) {
        return Err(QueryFault::MissingUpperKey);
    }
    Ok(Octets::from_slice(alloc, uid)?)
}

/// The trimmed text of a key, empty where it holds items.
fn text_of(element: &Element) -> &[u8]
    ensures { result.now ≡ key_text element.now }
{
    match element.stored() {
        None => &[],
        Some(value) => trimmed(value),
    }
}

/// Whether an element is a key at all, and none of the levels above.
fn is_counted(level: Level, tag: u32) -> bool
    ensures { result ≡ is_counted_in level tag }
{
    if tag % 65536 == 0 || tag == SPECIFIC_CHARACTER_SET || tag == QUERY_RETRIEVE_LEVEL {
        return false;
    }
    if tag == RETRIEVE_AE_TITLE || (level.names_study() && tag == STUDY_INSTANCE_UID) {
        return false;
    }
    !(level.names_series() && tag == SERIES_INSTANCE_UID)
}

fn is_answered_only(matching: Matching) -> bool
    ensures { result ≡ is_answered_only_in matching }
{
    match matching {
        Matching::Answered => true,
        Matching::Dates => false,
        Matching::Times => false,
        Matching::WildCard => false,
        Matching::Name => false,
        Matching::Uids => false,
        Matching::Single => false,
    }
}

fn makes_partial(matching: Option<Matching>, key: &[u8]) -> bool
    ensures { result ≡ makes_partial_in matching key.now }
{
    match matching {
        None => true,
        Some(matching) => is_answered_only(matching) && !key.is_empty(),
    }
}

fn is_partial_at(level: Level, element: &Element) -> bool
    ensures { result ≡ is_partial_in level element.now }
{
    let tag = element.tag();
    is_counted(level, tag) && makes_partial(matching_of(level, tag), text_of(element))
}

fn is_partial(level: Level, elements: &[Element]) -> bool
    ensures { result ≡ list_any (is_partial_in level) elements.now }
{
    elements.iter().any(|element| is_partial_at(level, element))
}

fn is_bad(matching: Option<Matching>, key: &[u8]) -> bool
    ensures { result ≡ is_bad_in matching key.now }
{
    match matching {
        None => false,
        Some(matching) => !is_universal(key) && !is_of_form(matching, key),
    }
}

fn is_bad_at(level: Level, element: &Element) -> bool
    ensures { result ≡ is_bad_at_in level element.now }
{
    is_bad(matching_of(level, element.tag()), text_of(element))
}

fn has_bad_key(level: Level, elements: &[Element]) -> bool
    ensures { result ≡ list_any (is_bad_at_in level) elements.now }
{
    elements.iter().any(|element| is_bad_at(level, element))
}

fn asked_at(alloc: Global, level: Level, element: &Element) -> Result<Option<Asked>, AllocError>
    ensures { IfOk result (λ asked. asked ≡ asked_in level element.now) }
{
    let tag = element.tag();
    match matching_of(level, tag) {
        None => Ok(None),
        Some(matching) => Ok(Some(Asked {
            tag,
            matching,
            key: Octets::from_slice(alloc, text_of(element))?,
        })),
    }
}

fn asked_keys(alloc: Global, level: Level, elements: &[Element]) -> Result<Vec<Asked>, AllocError>
    ensures { IfOk result (λ asked. asked.items ≡ filter_map (asked_in level) elements.now) }
{
    let mut keys = Vec::new(alloc);
    for element in elements {
        if let Some(asked) = asked_at(alloc, level, element)? {
            keys.push(asked)?;
        }
    }
    Ok(keys)
}

impl Query {
    /// The query that an identifier says, or the first that holds of: the level (0008,0052) is none
    /// of STUDY, SERIES and IMAGE; a unique key above the level is not exactly one UID; a key that
    /// is not universal has no form that its matching has.
    #[tactic(auto, unfolding(crate::specs::Query::query_of))]
    pub fn read(alloc: Global, set: &DataSet) -> Result<Query, QueryFault>
        ensures query { Gives is_memory (λ query. query) result (query_of set.now.elements) }
    {
        let level = level_of(set)?;
        let study = upper_uid(alloc, set, level.names_study(), STUDY_INSTANCE_UID)?;
        let series = upper_uid(alloc, set, level.names_series(), SERIES_INSTANCE_UID)?;
        let elements = set.elements();
        if has_bad_key(level, elements) {
            return Err(QueryFault::BadKey);
        }
        let asked = asked_keys(alloc, level, elements)?;
        Ok(Query {
            level,
            study,
            series,
            asked: ListOf::of(asked),
            partial: is_partial(level, elements),
        })
    }

    /// Whether some key is not supported, or a key that is answered only is not empty: the rows are
    /// then answered with FF01H (PS3.4, section C.4.1.1.4).
    pub fn partial(&self) -> bool
        ensures { result ≡ self.now.partial }
    {
        self.partial
    }
}
