//! Among which contents those of a selection are: what the index has of the studies or the series
//! that it names, or the instances that it names.

ghost use Rattle.std.specs.Prelude.{◌≡◌, ◌||◌, true, take, List, ℕ, IfOk, OnOk};
ghost use Rattle.octets.specs.Texts.{text_cmp, ascending as ascending_of};
ghost use Rattle.join_laws.specs.GrowSet.{union_of};
ghost use Rattle.study_index.specs.Keys.{has};
ghost use Rattle.study_index.specs.Live.{pick_at};
ghost use Rattle.archive_query.specs.Candidates.{is_of_some, is_of_some_series};
ghost use Rattle.archive_query.specs.SelectedPlaces.{ReachesAll};

use crate::candidates::{put_some_series, put_studies};
use archive_model::{Level, Selection};
use octets::{Octets, ascending};
use std::alloc::{AllocError, Global};
use std::collections::BTreeSet;
use study_index::{Index, ShortText};

/// Some UIDs ascending, each once, so that none is looked up again.
fn each_once(alloc: Global, uids: &[Octets]) -> Result<Vec<Octets>, AllocError>
    ensures { IfOk result (λ found. found.items ≡ ascending_of uids.now) }
{
    let mut copies = Vec::with_capacity(alloc, uids.len())?;
    for uid in uids {
        copies.push(Octets::from_slice(alloc, uid.as_slice())?)?;
    }
    Ok(ascending(copies))
}

/// Puts in what is of the studies that are named.
fn put_named_studies(
    alloc: Global,
    index: &Index,
    named: &[Octets],
    uids: &mut BTreeSet<ShortText>,
) -> Result<(), AllocError>
    ensures { OnOk result ((uid : List ℕ) → has text_cmp uids.new.keys uid ≡
        (has text_cmp uids.old.keys uid || is_of_some named.now (pick_at uid index.now.picks))) }
{
    let each = each_once(alloc, named)?;
    put_studies(index, &each, uids)?;
    Ok(())
}

/// Puts in what is of the series of a study that are named.
fn put_named_series(
    alloc: Global,
    index: &Index,
    study: &ShortText,
    named: &[Octets],
    uids: &mut BTreeSet<ShortText>,
) -> Result<(), AllocError>
    ensures { OnOk result ((uid : List ℕ) → has text_cmp uids.new.keys uid ≡
        (has text_cmp uids.old.keys uid
        || is_of_some_series study.now named.now (pick_at uid index.now.picks))) }
{
    let each = each_once(alloc, named)?;
    put_some_series(index, study, &each, uids)?;
    Ok(())
}

/// Puts in some UIDs. False where one of them has more than 64 bytes, which no UID has (PS3.5,
/// section 9.1).
fn put_instances(instances: &[Octets], uids: &mut BTreeSet<ShortText>) -> Result<bool, AllocError>
    ensures { IfOk result (λ all. all ≡ true →
        uids.new.keys ≡ union_of text_cmp uids.old.keys instances.now) }
{
    for instance in instances {
        let Some(uid) = ShortText::of(instance.as_slice()) else {
            return Ok(false);
        };
        uids.insert(uid)?;
    }
    Ok(true)
}

/// Puts in what is of the series that a selection of instances names above its level.
fn put_series(
    index: &Index,
    study: &ShortText,
    selection: &Selection,
    uids: &mut BTreeSet<ShortText>,
) -> Result<(), AllocError>
    requires level { selection.now.level ≡ Level.Image }
    requires study { study.now ≡ take 64 selection.now.study }
    ensures { OnOk result (ReachesAll selection.now index.now.picks uids.new.keys) }
{
    index.put_series(study, &ShortText::cut(selection.series.as_slice()), uids)
}

/// Puts in the candidates of a selection.
fn put_reached(
    alloc: Global,
    index: &Index,
    selection: &Selection,
    uids: &mut BTreeSet<ShortText>,
) -> Result<(), AllocError>
    ensures { OnOk result (ReachesAll selection.now index.now.picks uids.new.keys) }
{
    let named = selection.uids.as_slice();
    let study = ShortText::cut(selection.study.as_slice());
    match selection.level {
        Level::Study => put_named_studies(alloc, index, named, uids),
        Level::Series => put_named_series(alloc, index, &study, named, uids),
        Level::Image => {
            if put_instances(named, uids)? {
                return Ok(());
            }
            put_series(index, &study, selection, uids)
        }
    }
}

/// SOP Instance UIDs, ascending, among which those of a selection are.
pub fn candidates(
    alloc: Global,
    index: &Index,
    selection: &Selection,
) -> Result<BTreeSet<ShortText>, AllocError>
    ensures { IfOk result (λ uids. ReachesAll selection.now index.now.picks uids.keys) }
{
    let mut uids = BTreeSet::new(alloc);
    put_reached(alloc, index, selection, &mut uids)?;
    Ok(uids)
}
