//! The contents of which rows are made where no count is asked: of each series the first that is
//! shown.

ghost use Rattle.std.specs.Prelude.{◌≡◌, ◌++◌, None, OnOk, IfOk, map};
ghost use Rattle.std.specs.List.{flat_map};
ghost use Rattle.std.specs.Option.{option_copied, option_map};
ghost use Rattle.archive_model.specs.Shown.{shown_at};
ghost use Rattle.site_state.specs.Site.{ops_of};
ghost use Rattle.archive_query.specs.Firsts.{is_counted_tag as is_counted_tag_in, is_counted as is_counted_in};
ghost use Rattle.archive_query.specs.Firsts.{is_in_series as is_in_series_in, firsts, firsts_in_study, firsts_of};

use archive_model::{Query, View};
use dictionary::{
    MODALITIES_IN_STUDY, NUMBER_OF_SERIES_RELATED_INSTANCES, NUMBER_OF_STUDY_RELATED_INSTANCES,
    NUMBER_OF_STUDY_RELATED_SERIES,
};
use records::RecordedContent;
use site_state::Site;
use std::alloc::{AllocError, Global};
use std::collections::BTreeSet;
use study_index::{Index, Place, ShortText};

fn is_counted_tag(tag: u32) -> bool
    ensures { result ≡ is_counted_tag_in tag }
{
    tag == MODALITIES_IN_STUDY
        || tag == NUMBER_OF_STUDY_RELATED_SERIES
        || tag == NUMBER_OF_STUDY_RELATED_INSTANCES
        || tag == NUMBER_OF_SERIES_RELATED_INSTANCES
}

/// Whether a query asks for what is told of all contents of a row.
pub(crate) fn is_counted(query: &Query) -> bool
    ensures { result ≡ is_counted_in query.now }
{
    query
        .asked
        .as_slice()
        .iter()
        .any(|asked| is_counted_tag(asked.tag))
}

/// Whether a place is of the series of the one that was taken last. An index knows 64 bytes of a
/// UID, so two of 64 may be of two series.
fn is_in_series(last: Option<&Place>, place: &Place) -> bool
    ensures { result ≡ is_in_series_in (option_copied last.entry) place.now }
{
    match last {
        None => false,
        Some(last) => {
            last.study() == place.study()
                && last.series() == place.series()
                && place.study().len() < 64
                && place.series().len() < 64
        }
    }
}

/// Puts, of each series of some places, the first instance that a view shows.
fn put_firsts<'a>(
    site: &'a Site,
    view: View,
    places: &[&Place],
    found: &mut Vec<&'a RecordedContent>,
) -> Result<(), AllocError>
    ensures { OnOk result (map (λ c. c.now) found.new.items ≡ map (λ c. c.now) found.old.items
        ++ firsts (shown_at view (ops_of site.now)) None (map (λ p. p.now) places.now)) }
{
    let mut last: Option<&Place> = None;
    for place in places {
        let place: &Place = place;
        if is_in_series(last, place) {
            continue;
        }
        if let Some(content) = site.shown(view, &ShortText::whole(place.instance())) {
            found.push(content)?;
            last = Some(place);
        }
    }
    Ok(())
}

/// The same of all series of a study.
fn put_in_study<'a>(
    alloc: Global,
    site: &'a Site,
    index: &Index,
    view: View,
    study: &ShortText,
    found: &mut Vec<&'a RecordedContent>,
) -> Result<(), AllocError>
    ensures { OnOk result (map (λ c. c.now) found.new.items ≡ map (λ c. c.now) found.old.items
        ++ firsts_in_study (shown_at view (ops_of site.now)) index.now.picks study.now) }
{
    let places = index.places_in(alloc, study)?;
    put_firsts(site, view, &places, found)?;
    Ok(())
}

/// Of each series of a study the first instance that a view shows.
pub(crate) fn of_study<'a>(
    alloc: Global,
    site: &'a Site,
    index: &Index,
    view: View,
    study: &ShortText,
) -> Result<Vec<&'a RecordedContent>, AllocError>
    ensures { IfOk result (λ found. map (λ c. c.now) found.items ≡ firsts_in_study
        (shown_at view (ops_of site.now)) index.now.picks study.now) }
{
    let mut found = Vec::new(alloc);
    put_in_study(alloc, site, index, view, study, &mut found)?;
    Ok(found)
}

/// Of each series of some studies the first instance that a view shows.
fn in_studies<'a>(
    alloc: Global,
    site: &'a Site,
    index: &Index,
    view: View,
    studies: &BTreeSet<ShortText>,
) -> Result<Vec<&'a RecordedContent>, AllocError>
    ensures { IfOk result (λ found. map (λ c. c.now) found.items ≡ flat_map
        (firsts_in_study (shown_at view (ops_of site.now)) index.now.picks) studies.now.keys) }
{
    let mut found = Vec::new(alloc);
    for study in studies.iter() {
        put_in_study(alloc, site, index, view, study, &mut found)?;
    }
    Ok(found)
}

/// Of each series of some studies the first instance that a view shows, or of all studies.
pub(crate) fn of_studies<'a>(
    alloc: Global,
    site: &'a Site,
    index: &Index,
    view: View,
    studies: Option<&BTreeSet<ShortText>>,
) -> Result<Vec<&'a RecordedContent>, AllocError>
    ensures { IfOk result (λ found. map (λ c. c.now) found.items ≡ firsts_of
        (shown_at view (ops_of site.now)) index.now.picks
        (option_map (λ s. s.now.keys) studies.entry)) }
{
    match studies {
        None => {
            let places = index.places(alloc)?;
            let mut found = Vec::new(alloc);
            put_firsts(site, view, &places, &mut found)?;
            Ok(found)
        }
        Some(studies) => in_studies(alloc, site, index, view, studies),
    }
}
