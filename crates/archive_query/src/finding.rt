//! C-FIND over a site (PS3.4, section C.4.1): what is needed is taken from the site at once, and
//! the rows are made of that.

ghost use Rattle.std.specs.Prelude.{◌≡◌, false, List, ℕ, IfOk, map};
ghost use Rattle.site_state.specs.Site.{ops_of};
ghost use Rattle.archive_model.specs.Rows.{rows_of};
ghost use Rattle.archive_query.specs.Found.{rows_found as rows_found_in, AreEnough};
ghost use Rattle.archive_query.specs.Firsts.{is_counted as is_counted_in};

use crate::candidates::{candidates, lent, shown_of, walked_studies};
use crate::firsts::{is_counted, of_studies, of_study};
use crate::fixes::Fixes;
use crate::grouping::sort_by_instance;
use crate::groups::named;
use crate::prepared::PreparedQuery;
use crate::rows::rows_among;
use archive_model::{Answers, Level, Query, View};
use join_laws::Join;
use records::RecordedContent;
use site_state::Site;
use std::alloc::{AllocError, Global};
use std::marker::Model;
use study_index::ShortText;

/// What is taken from a site for the rows of a query: contents, whose bytes it shares with the
/// site, and the values that corrections give them.
#[derive(Drop)]
pub struct Found {
    contents: Vec<RecordedContent>,
    fixes: Fixes,
}

impl Model for Found {
    ghost use Rattle.archive_query.specs.Found.{FoundValue};

    ghost Value = { FoundValue };

    ghost view = { λ f. (f.contents.items, f.fixes) };
}

/// What a view shows of the study and the series that a query names, among its candidates, which
/// are let go here.
fn reached_all<'a>(
    alloc: Global,
    site: &'a Site,
    view: View,
    prepared: &PreparedQuery,
) -> Result<Vec<&'a RecordedContent>, AllocError>
    ensures { IfOk result (λ found. AreEnough view prepared.now (ops_of site.now)
        (map (λ c. c.now) found.items)) }
{
    site.see_lawful();
    let uids = candidates(alloc, site.index(), prepared)?;
    let shown = shown_of(alloc, site, view, &uids)?;
    let named = named(alloc, prepared.query(), &shown)?;
    Ok(named)
}

/// Of each series of the studies that are walked what is shown first, by ascending SOP Instance
/// UID.
fn reached_first<'a>(
    alloc: Global,
    site: &'a Site,
    view: View,
    prepared: &PreparedQuery,
) -> Result<Vec<&'a RecordedContent>, AllocError>
    requires counted { is_counted_in prepared.now ≡ false }
    requires level { prepared.now.level ≡ Level.Study }
    ensures { IfOk result (λ found. AreEnough view prepared.now (ops_of site.now)
        (map (λ c. c.now) found.items)) }
{
    site.see_lawful();
    let index = site.index();
    index.held();
    let studies = walked_studies(alloc, index, prepared)?;
    let mut found = of_studies(alloc, site, index, view, lent(&studies))?;
    sort_by_instance(&mut found)?;
    let named = named(alloc, prepared.query(), &found)?;
    Ok(named)
}

/// Of each series of the study that a query names what is shown first, by ascending SOP Instance
/// UID.
fn reached_in_study<'a>(
    alloc: Global,
    site: &'a Site,
    view: View,
    prepared: &PreparedQuery,
) -> Result<Vec<&'a RecordedContent>, AllocError>
    requires counted { is_counted_in prepared.now ≡ false }
    requires level { prepared.now.level ≡ Level.Series }
    ensures { IfOk result (λ found. AreEnough view prepared.now (ops_of site.now)
        (map (λ c. c.now) found.items)) }
{
    site.see_lawful();
    let index = site.index();
    index.held();
    let query = prepared.query();
    let study = ShortText::cut(query.study.as_slice());
    let mut found = of_study(alloc, site, index, view, &study)?;
    sort_by_instance(&mut found)?;
    let named = named(alloc, query, &found)?;
    Ok(named)
}

/// What is taken for the rows of a query. Where no count is asked, only the first content of each
/// series is, at STUDY, and at SERIES of a study of which no series are listed.
fn reached<'a>(
    alloc: Global,
    site: &'a Site,
    view: View,
    prepared: &PreparedQuery,
) -> Result<Vec<&'a RecordedContent>, AllocError>
    ensures { IfOk result (λ found. AreEnough view prepared.now (ops_of site.now)
        (map (λ c. c.now) found.items)) }
{
    let query = prepared.query();
    match query.level {
        Level::Study => {
            if is_counted(query) {
                return reached_all(alloc, site, view, prepared);
            }
            reached_first(alloc, site, view, prepared)
        }
        Level::Series => {
            if is_counted(query) || prepared.listed().is_some() {
                return reached_all(alloc, site, view, prepared);
            }
            reached_in_study(alloc, site, view, prepared)
        }
        Level::Image => reached_all(alloc, site, view, prepared),
    }
}

/// Second owners of some contents.
fn copies_of(
    alloc: Global,
    contents: &[&RecordedContent],
) -> Result<Vec<RecordedContent>, AllocError>
    ensures { IfOk result (λ copies. copies.items ≡ map (λ c. c.now) contents.now) }
{
    let mut copies = Vec::with_capacity(alloc, contents.len())?;
    for content in contents {
        copies.push(content.copy()?)?;
    }
    Ok(copies)
}

fn references<'a>(
    alloc: Global,
    contents: &'a [RecordedContent],
) -> Result<Vec<&'a RecordedContent>, AllocError>
    ensures { IfOk result (λ found. map (λ c. c.now) found.items ≡ contents.now) }
{
    let mut found = Vec::with_capacity(alloc, contents.len())?;
    for content in contents {
        found.push(content)?;
    }
    Ok(found)
}

/// Takes from a site what the rows of a query are made of. No key is matched, and nothing goes by
/// the length of one.
pub fn take(
    alloc: Global,
    site: &Site,
    view: View,
    prepared: &PreparedQuery,
) -> Result<Found, AllocError>
    ensures { IfOk result (λ found. (called : List ℕ) → rows_found_in called prepared.now found
        ≡ rows_of view called prepared.now (ops_of site.now)) }
{
    let contents = reached(alloc, site, view, prepared)?;
    let fixes = Fixes::of(alloc, site, prepared.query(), &contents)?;
    let contents = copies_of(alloc, &contents)?;
    Ok(Found { contents, fixes })
}

/// The rows of what was taken, by ascending UID of the query's level.
///
/// The called title is answered in each row as (0008,0054) Retrieve AE Title.
pub fn rows_found(
    alloc: Global,
    found: &Found,
    called: &[u8],
    query: &Query,
) -> Result<Answers, AllocError>
    ensures { IfOk result (λ rows. rows ≡ rows_found_in called.now query.now found.now) }
{
    let contents = references(alloc, &found.contents)?;
    rows_among(alloc, &found.fixes, called, query, contents)
}

/// The rows that a site answers to a query in a view, by ascending UID of the query's level.
///
/// The called title is answered in each row as (0008,0054) Retrieve AE Title.
pub fn find(
    alloc: Global,
    site: &Site,
    view: View,
    called: &[u8],
    query: &Query,
) -> Result<Answers, AllocError>
    ensures { IfOk result (λ rows. rows ≡
        rows_of view called.now query.now (ops_of site.now)) }
{
    let prepared = PreparedQuery::of(alloc, query)?;
    let found = take(alloc, site, view, &prepared)?;
    rows_found(alloc, &found, called, query)
}
