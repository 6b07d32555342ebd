//! Among which contents the answers to a query are: what the index has of the studies or the series
//! that it lists, or of the studies that the leads of one of its keys come to.

ghost use Rattle.std.specs.Prelude.{◌≡◌, ◌&&◌, ◌||◌, [], ◌∷◌, List, ℕ, IfOk, OnOk, map};
ghost use Rattle.std.specs.List.{filter_map, list_any};
ghost use Rattle.std.specs.List.Sorted.{IsStrictlySortedBy};
ghost use Rattle.std.specs.Option.{option_copied, option_map};
ghost use Rattle.std.specs.BTreeMap.{is_at};
ghost use Rattle.octets.specs.Members.{Has};
ghost use Rattle.octets.specs.Texts.{text_cmp};
ghost use Rattle.archive_model.specs.Shown.{shown_at};
ghost use Rattle.join_laws.specs.GrowSet.{union_of};
ghost use Rattle.study_index.specs.Keys.{has};
ghost use Rattle.study_index.specs.Live.{pick_at, is_of_study, is_of_series as is_of_series_in};
ghost use Rattle.site_state.specs.Site.{ops_of};
ghost use Rattle.study_index.specs.Leads.{is_walked};
ghost use Rattle.archive_query.specs.Candidates.{is_of_some, is_of_some_series, is_listed_series};
ghost use Rattle.archive_query.specs.Candidates.{is_walked_at_series, is_walked_at_image, listed_of};
ghost use Rattle.archive_query.specs.Candidates.{cut_texts as cut_texts_in, is_of_walked, AreByOne, AreWalked};
ghost use Rattle.archive_query.specs.Candidates.{AreAtStudy, AreAt, AreCandidates};
ghost use Rattle.archive_query.specs.Leads.{is_candidate, IsOneOf};

use crate::prepared::PreparedQuery;
use crate::walks::KeyWalk;
use archive_model::{Level, View};
use octets::Octets;
use records::RecordedContent;
use site_state::Site;
use std::alloc::{AllocError, Global};
use std::collections::BTreeSet;
use study_index::{Index, Pick, ShortText, put_uid};

/// How many leads of a walk are counted. Of walks that have more each, one with a needle is taken.
const COUNTED: usize = 512;

/// Puts the SOP Instance UIDs of what is of some studies into a set. What was put in before memory
/// was refused stays.
pub fn put_studies(
    index: &Index,
    studies: &[Octets],
    uids: &mut BTreeSet<ShortText>,
) -> Result<(), AllocError>
    ensures { OnOk result ((uid : List ℕ) → has text_cmp uids.new.keys uid ≡
        (has text_cmp uids.old.keys uid
        || is_of_some studies.now (pick_at uid index.now.picks))) }
{
    for study in studies {
        index.put_study(&ShortText::cut(study.as_slice()), uids)?;
    }
    Ok(())
}

/// Puts the SOP Instance UIDs of what is of some series of a study into a set. What was put in
/// before memory was refused stays.
pub fn put_some_series(
    index: &Index,
    study: &ShortText,
    series: &[Octets],
    uids: &mut BTreeSet<ShortText>,
) -> Result<(), AllocError>
    ensures { OnOk result ((uid : List ℕ) → has text_cmp uids.new.keys uid ≡
        (has text_cmp uids.old.keys uid
        || is_of_some_series study.now series.now (pick_at uid index.now.picks))) }
{
    for one in series {
        index.put_series(study, &ShortText::cut(one.as_slice()), uids)?;
    }
    Ok(())
}

/// Puts in what is of series that a key lists, each looked up once, or of one without a name.
fn put_listed_series(
    index: &Index,
    study: &ShortText,
    series: &[Octets],
    uids: &mut BTreeSet<ShortText>,
) -> Result<(), AllocError>
    ensures { OnOk result ((uid : List ℕ) → has text_cmp uids.new.keys uid ≡
        (has text_cmp uids.old.keys uid
        || is_listed_series study.now series.now (pick_at uid index.now.picks))) }
{
    index.put_series(study, &ShortText::empty(), uids)?;
    put_some_series(index, study, series, uids)?;
    Ok(())
}

/// How many leads a walk has, with those of the values of no bytes, counted up to a limit; above
/// it, a walk with a needle has the fewest.
fn size_of(index: &Index, walk: &KeyWalk) -> Result<usize, AllocError> {
    let none = index.count_led(&walk.none, COUNTED)?;
    let some = index.count_led(&walk.walk, COUNTED)?;
    let size = none.saturating_add(some);
    if size >= COUNTED && walk.walk.needle.as_slice().is_empty() {
        return Ok(usize::MAX);
    }
    Ok(size)
}

/// The walk that has the fewest leads, of one and others.
fn smaller<'w>(
    index: &Index,
    first: &'w KeyWalk,
    others: &'w [KeyWalk],
) -> Result<&'w KeyWalk, AllocError>
    ensures { IfOk result (λ one. Has (first.now ∷ others.now) one.now) }
{
    let mut one = first;
    let mut least = size_of(index, first)?;
    for walk in others {
        let size = size_of(index, walk)?;
        if size < least {
            one = walk;
            least = size;
        }
    }
    Ok(one)
}

/// The walk that has the fewest leads, if there is one.
fn smallest<'w>(index: &Index, walks: &'w [KeyWalk]) -> Result<Option<&'w KeyWalk>, AllocError>
    ensures { IfOk result (λ one. IsOneOf walks.now (option_copied one)) }
{
    match walks {
        [] => Ok(None),
        [first, others @ ..] => {
            let one = smaller(index, first, others)?;
            Ok(Some(one))
        }
    }
}

/// The studies that a walk comes to, and those of a value of no bytes, which every key matches.
fn led_studies(
    alloc: Global,
    index: &Index,
    walk: &KeyWalk,
) -> Result<BTreeSet<ShortText>, AllocError>
    ensures { IfOk result (λ studies. (s : List ℕ) → has text_cmp studies.keys s
        ≡ is_candidate walk.now.0 (is_walked walk.now.1) index.now.leads s) }
{
    let mut studies = BTreeSet::new(alloc);
    index.put_led(&walk.none, &mut studies)?;
    index.put_led(&walk.walk, &mut studies)?;
    Ok(studies)
}

/// Puts in what is of some studies, of each of which an index knows 64 bytes.
fn put_each(
    index: &Index,
    studies: &BTreeSet<ShortText>,
    uids: &mut BTreeSet<ShortText>,
) -> Result<(), AllocError>
    ensures { OnOk result ((uid : List ℕ) → has text_cmp uids.new.keys uid ≡
        (has text_cmp uids.old.keys uid || list_any
        (λ study. is_of_study study (pick_at uid index.now.picks)) studies.now.keys)) }
{
    for study in studies.iter() {
        index.put_study(study, uids)?;
    }
    Ok(())
}

/// The studies that the smallest of some walks comes to, or none to tell, where there is no walk.
fn studies_by_one(
    alloc: Global,
    index: &Index,
    walks: &[KeyWalk],
) -> Result<Option<BTreeSet<ShortText>>, AllocError>
    ensures { IfOk result (λ studies. AreByOne walks.now index.now
        (option_map (λ s. s.keys) studies)) }
{
    match smallest(index, walks)? {
        None => Ok(None),
        Some(walk) => {
            let studies = led_studies(alloc, index, walk)?;
            Ok(Some(studies))
        }
    }
}

/// 64 bytes of each of some texts, and the text of no bytes, which each key matches.
fn cut_texts(alloc: Global, texts: &[Octets]) -> Result<BTreeSet<ShortText>, AllocError>
    ensures { IfOk result (λ found. found.keys ≡
        union_of text_cmp [] (cut_texts_in texts.now)) }
{
    let mut found = BTreeSet::new(alloc);
    put_uid(&mut found, &ShortText::empty())?;
    for text in texts {
        put_uid(&mut found, &ShortText::cut(text.as_slice()))?;
    }
    Ok(found)
}

/// The studies that are walked, or none to tell, where all are.
pub(crate) fn walked_studies(
    alloc: Global,
    index: &Index,
    prepared: &PreparedQuery,
) -> Result<Option<BTreeSet<ShortText>>, AllocError>
    ensures { IfOk result (λ studies. AreWalked (listed_of prepared.now) prepared.now index.now
        (option_map (λ s. s.keys) studies)) }
{
    match prepared.listed() {
        None => {
            let studies = studies_by_one(alloc, index, prepared.walks())?;
            Ok(studies)
        }
        Some(listed) => {
            let studies = cut_texts(alloc, listed)?;
            Ok(Some(studies))
        }
    }
}

pub(crate) fn lent(studies: &Option<BTreeSet<ShortText>>) -> Option<&BTreeSet<ShortText>>
    ensures { option_map (λ s. s.now.keys) result ≡ option_map (λ s. s.keys) studies.now }
{
    match studies {
        None => None,
        Some(studies) => Some(studies),
    }
}

/// Puts in what is of the studies that are walked.
fn put_walked(
    index: &Index,
    studies: Option<&BTreeSet<ShortText>>,
    uids: &mut BTreeSet<ShortText>,
) -> Result<(), AllocError>
    ensures { OnOk result ((uid : List ℕ) → has text_cmp uids.new.keys uid ≡
        (has text_cmp uids.old.keys uid
        || is_of_walked (option_map (λ s. s.now.keys) studies.entry) index.now uid)) }
{
    match studies {
        None => index.put_all(uids),
        Some(studies) => put_each(index, studies, uids),
    }
}

/// Puts in the candidates at STUDY.
fn put_at_study(
    alloc: Global,
    index: &Index,
    prepared: &PreparedQuery,
    uids: &mut BTreeSet<ShortText>,
) -> Result<(), AllocError>
    ensures { OnOk result (AreAtStudy prepared.now index.now uids.old.keys uids.new.keys) }
{
    let studies = walked_studies(alloc, index, prepared)?;
    put_walked(index, lent(&studies), uids)?;
    Ok(())
}

/// Puts in the candidates at SERIES, by the key that lists series of the study, if there is one.
fn put_at_series(
    index: &Index,
    study: &ShortText,
    listed: Option<&[Octets]>,
    uids: &mut BTreeSet<ShortText>,
) -> Result<(), AllocError>
    ensures { OnOk result ((uid : List ℕ) → has text_cmp uids.new.keys uid ≡
        (has text_cmp uids.old.keys uid || is_walked_at_series
        (option_map (λ l. l.now) listed.entry) study.now (pick_at uid index.now.picks))) }
{
    match listed {
        None => index.put_study(study, uids),
        Some(series) => put_listed_series(index, study, series, uids),
    }
}

/// Whether a pick is of a series of a study.
fn is_of_series(pick: Option<&Pick>, study: &ShortText, series: &ShortText) -> bool
    ensures { result ≡ is_of_series_in study.now series.now (option_copied pick.entry) }
{
    match pick {
        None => false,
        Some(pick) => pick.study() == study.as_slice() && pick.series() == series.as_slice(),
    }
}

/// Puts in an instance, where its pick is of a series of a study.
fn put_instance(
    index: &Index,
    study: &ShortText,
    series: &ShortText,
    one: &ShortText,
    uids: &mut BTreeSet<ShortText>,
) -> Result<(), AllocError>
    ensures { OnOk result ((uid : List ℕ) → has text_cmp uids.new.keys uid ≡
        (has text_cmp uids.old.keys uid || (is_of_series_in study.now series.now
        (pick_at uid index.now.picks) && is_at (text_cmp uid) one.now))) }
{
    if !is_of_series(index.pick(one), study, series) {
        return Ok(());
    }
    put_uid(uids, one)?;
    Ok(())
}

/// Puts in those of some instances whose picks are of a series of a study, each looked up once.
fn put_instances(
    index: &Index,
    study: &ShortText,
    series: &ShortText,
    instances: &BTreeSet<ShortText>,
    uids: &mut BTreeSet<ShortText>,
) -> Result<(), AllocError>
    ensures { OnOk result ((uid : List ℕ) → has text_cmp uids.new.keys uid ≡
        (has text_cmp uids.old.keys uid || (is_of_series_in study.now series.now
        (pick_at uid index.now.picks) && has text_cmp instances.now.keys uid))) }
{
    for one in instances.iter() {
        put_instance(index, study, series, one, uids)?;
    }
    Ok(())
}

/// Puts in the candidates at IMAGE, by the key that lists instances of the series, if there is one.
fn put_at_image(
    alloc: Global,
    index: &Index,
    study: &ShortText,
    series: &ShortText,
    listed: Option<&[Octets]>,
    uids: &mut BTreeSet<ShortText>,
) -> Result<(), AllocError>
    ensures { OnOk result ((uid : List ℕ) → has text_cmp uids.new.keys uid ≡
        (has text_cmp uids.old.keys uid || is_walked_at_image
        (option_map (λ l. l.now) listed.entry) study.now series.now index.now uid)) }
{
    match listed {
        None => index.put_series(study, series, uids),
        Some(listed) => {
            let instances = cut_texts(alloc, listed)?;
            put_instances(index, study, series, &instances, uids)?;
            Ok(())
        }
    }
}

/// Puts in the candidates of a query.
fn put_reached(
    alloc: Global,
    index: &Index,
    prepared: &PreparedQuery,
    uids: &mut BTreeSet<ShortText>,
) -> Result<(), AllocError>
    ensures { OnOk result (AreAt prepared.now.level prepared.now index.now
        uids.old.keys uids.new.keys) }
{
    let query = prepared.query();
    let study = ShortText::cut(query.study.as_slice());
    match query.level {
        Level::Study => put_at_study(alloc, index, prepared, uids),
        Level::Series => {
            put_at_series(index, &study, prepared.listed(), uids)?;
            Ok(())
        }
        Level::Image => {
            let series = ShortText::cut(query.series.as_slice());
            put_at_image(alloc, index, &study, &series, prepared.listed(), uids)?;
            Ok(())
        }
    }
}

/// The SOP Instance UIDs of the candidates of a query, ascending.
pub(crate) fn candidates(
    alloc: Global,
    index: &Index,
    prepared: &PreparedQuery,
) -> Result<BTreeSet<ShortText>, AllocError>
    ensures { IfOk result (λ uids. AreCandidates prepared.now index.now uids.keys) }
{
    let mut uids = BTreeSet::new(alloc);
    put_reached(alloc, index, prepared, &mut uids)?;
    Ok(uids)
}

/// What a view shows of some SOP Instance UIDs.
pub fn shown_of<'a>(
    alloc: Global,
    site: &'a Site,
    view: View,
    uids: &BTreeSet<ShortText>,
) -> Result<Vec<&'a RecordedContent>, AllocError>
    ensures found { IfOk result (λ found. map (λ c. c.now) found.items
        ≡ filter_map (shown_at view (ops_of site.now)) uids.now.keys) }
    ensures ordered { IfOk result (λ _. IsStrictlySortedBy text_cmp uids.now.keys) }
{
    let mut found = Vec::new(alloc);
    for uid in uids.iter() {
        if let Some(content) = site.shown(view, uid) {
            found.push(content)?;
        }
    }
    Ok(found)
}
