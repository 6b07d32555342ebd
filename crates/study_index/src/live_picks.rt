//! Picks, with a live list of their places.
ghost use Rattle.std.specs.Prelude.{◌≡◌, [], ◌++◌, ◌||◌, ℕ, List, OnOk, OnErr, IfOk, Option, None, Some};
ghost use Rattle.std.specs.Option.{option_copied};
ghost use Rattle.std.specs.Map.{keys_of};
ghost use Rattle.std.specs.Cmp.Lexicographic.{nat_list_cmp_total};
ghost use Rattle.octets.specs.Texts.{text_cmp};
ghost use Rattle.join_laws.specs.Least.{least_of};
ghost use Rattle.join_laws.specs.GrowSet.{union_of};
ghost use Rattle.join_laws.specs.MapOf.{IsMapOf, entry};
ghost use Rattle.study_index.specs.Live.{pick_at, picks_joined, tree_of, is_moved, pick_cmp};
ghost use Rattle.study_index.specs.Live.{gained, lost, gains, losses};
ghost use Rattle.study_index.specs.Live.{study_start, series_start, instance_start};
ghost use Rattle.study_index.specs.Live.{HasStudy, HasSeries, HasInstance, IsNext};
ghost use Rattle.study_index.specs.Keys.{has};
ghost use Rattle.study_index.specs.Live.{is_of_study, front_of, end_of, a_place};
ghost use Rattle.study_index.specs.Live.{is_of_series, front_of_series, end_of_series};
ghost use Rattle.study_index.specs.Proved.Picks.{picks_laws};

use crate::pick::Pick;
use crate::place::{Place, PlaceParts};
use crate::short_text::ShortText;
use crate::tree::{first_from, put_all, put_between, put_uid, take_all};
use join_laws::{Join, Least, MapOf};
use std::alloc::{AllocError, Global};
use std::collections::{BTreeMap, BTreeSet};
use std::marker::Model;
use std::ops::Bound;

/// The least pick of each SOP Instance UID.
pub type Picks = MapOf<ShortText, Least<Pick>>;

/// Picks, and the places of all of them, ascending. Seen as the picks alone: the list is a function
/// of them.
#[derive(Drop)]
pub struct LivePicks {
    pub(crate) picks: MapOf<ShortText, Least<Pick>>,
    pub(crate) tree: BTreeSet<Place>,
    pub(crate) alloc: Global,
}

impl Model for LivePicks {
    ghost use Rattle.std.specs.Prelude.{◌≡◌, List, Option};
    ghost use Rattle.study_index.specs.Live.{Text, Pick, tree_of};

    ghost Value = { List (Text × Option Pick) };

    ghost view = { λ a. a.picks };

    ghost invariant = { λ a. a.tree.keys ≡ tree_of a.picks };
}

// The pick of an instance.
fn pick_of<'a>(picks: &'a Picks, instance: &ShortText) -> Option<&'a Pick>
    ensures { option_copied result ≡ pick_at instance.now picks.now }
{
    match picks.value(instance) {
        Some(least) => least.get(),
        None => None,
    }
}

// The lesser of two that may be absent.
fn lesser<'a>(this: Option<&'a Pick>, other: Option<&'a Pick>) -> Option<&'a Pick>
    ensures { option_copied result ≡ least_of pick_cmp (option_copied this.entry)
        (option_copied other.entry) }
{
    match (this, other) {
        (None, other) => other,
        (Some(this), None) => Some(this),
        (Some(this), Some(other)) => {
            if other < this {
                Some(other)
            } else {
                Some(this)
            }
        }
    }
}

fn is_elsewhere(before: &Pick, after: &Pick) -> bool
    ensures { result ≡ is_moved (Some before.now) (Some after.now) }
{
    !(before.study() == after.study() && before.series() == after.series())
}

fn is_moved(before: Option<&Pick>, after: Option<&Pick>) -> bool
    ensures { result ≡ is_moved (option_copied before.entry) (option_copied after.entry) }
{
    match (before, after) {
        (None, None) => false,
        (None, Some(_)) => true,
        (Some(_), None) => true,
        (Some(before), Some(after)) => is_elsewhere(before, after),
    }
}

// Notes what the list gains and loses where a pick comes in.
fn note(
    alloc: Global,
    picks: &Picks,
    fresh: &mut Vec<Place>,
    stale: &mut Vec<Place>,
    instance: &ShortText,
    other: Option<&Pick>,
) -> Result<(), AllocError>
    ensures fresh { OnOk result (fresh.new.items ≡
        fresh.old.items ++
        gained instance.now (pick_at instance.now picks.now) (option_copied other.entry)) }
    ensures stale { OnOk result (stale.new.items ≡
        stale.old.items ++
        lost instance.now (pick_at instance.now picks.now) (option_copied other.entry)) }
{
    let before = pick_of(picks, instance);
    let after = lesser(before, other);
    if !is_moved(before, after) {
        return Ok(());
    }
    if let Some(pick) = after {
        fresh.push(Place::of(alloc, instance, pick)?)?;
    }
    if let Some(pick) = before {
        stale.push(Place::of(alloc, instance, pick)?)?;
    }
    Ok(())
}

// What the list gains and loses where all other picks come in.
fn changes(
    alloc: Global,
    picks: &Picks,
    other: &BTreeMap<ShortText, Least<Pick>>,
) -> Result<(Vec<Place>, Vec<Place>), AllocError>
    ensures fresh { IfOk result (λ both. both.0.items ≡ gains picks.now other.now.entries) }
    ensures stale { IfOk result (λ both. both.1.items ≡ losses picks.now other.now.entries) }
{
    let mut fresh = Vec::new(alloc);
    let mut stale = Vec::new(alloc);
    for (instance, least) in other {
        note(alloc, picks, &mut fresh, &mut stale, instance, least.get())?;
    }
    Ok((fresh, stale))
}

// Takes in other picks, and brings the list to what the joined picks say. First the list gains what
// it will have, which memory may refuse; then it loses what it will not have, which takes none.
fn join_parts(
    alloc: Global,
    picks: &mut Picks,
    tree: &mut BTreeSet<Place>,
    other: &Picks,
) -> Result<(), AllocError>
    requires { tree.now.keys ≡ tree_of picks.now }
    ensures ok { OnOk result (picks.new ≡ picks_joined picks.old other.now) }
    ensures refused { OnErr result (picks.new ≡ picks.old) }
    ensures live { tree.new.keys ≡ tree_of picks.new }
{
    picks.held();
    other.held();
    let (fresh, stale) = changes(alloc, picks, other.get())?;
    put_all(tree, &fresh)?;
    if let Err(refused) = picks.join_with(other) {
        take_all(tree, &fresh);
        return Err(refused);
    }
    take_all(tree, &stale);
    Ok(())
}

// Puts all instances that have a pick into a set.
fn put_keys(
    picks: &BTreeMap<ShortText, Least<Pick>>,
    uids: &mut BTreeSet<ShortText>,
) -> Result<(), AllocError>
    ensures { OnOk result (uids.new.keys ≡
        union_of text_cmp uids.old.keys (keys_of picks.now.entries)) }
{
    for (instance, _) in picks {
        put_uid(uids, instance)?;
    }
    Ok(())
}

// Where the places of a study begin.
pub(crate) fn front_of(alloc: Global, study: &ShortText) -> Result<Place, AllocError>
    ensures { IfOk result (λ front. front ≡ front_of study.now) }
{
    let parts = PlaceParts {
        study: study.duplicate(),
        study_end: 0,
        series: ShortText::empty(),
        series_end: 0,
        instance: ShortText::empty(),
    };
    Place::given(alloc, parts)
}

// Where they end.
pub(crate) fn end_of(alloc: Global, study: &ShortText) -> Result<Place, AllocError>
    ensures { IfOk result (λ end. end ≡ end_of study.now) }
{
    let parts = PlaceParts {
        study: study.duplicate(),
        study_end: 1,
        series: ShortText::empty(),
        series_end: 0,
        instance: ShortText::empty(),
    };
    Place::given(alloc, parts)
}

// Where an instance of a series of a study stands. The places of the series begin at the empty one.
fn place_at(
    alloc: Global,
    study: &ShortText,
    series: &ShortText,
    instance: ShortText,
) -> Result<Place, AllocError>
    ensures { IfOk result (λ place. place ≡ a_place study.now series.now instance) }
{
    let parts = PlaceParts {
        study: study.duplicate(),
        study_end: 0,
        series: series.duplicate(),
        series_end: 0,
        instance,
    };
    Place::given(alloc, parts)
}

// Where the places of a series of a study begin.
fn front_of_series(
    alloc: Global,
    study: &ShortText,
    series: &ShortText,
) -> Result<Place, AllocError>
    ensures { IfOk result (λ front. front ≡ front_of_series study.now series.now) }
{
    place_at(alloc, study, series, ShortText::empty())
}

// Where they end.
fn end_of_series(alloc: Global, study: &ShortText, series: &ShortText) -> Result<Place, AllocError>
    ensures { IfOk result (λ end. end ≡ end_of_series study.now series.now) }
{
    let parts = PlaceParts {
        study: study.duplicate(),
        study_end: 0,
        series: series.duplicate(),
        series_end: 1,
        instance: ShortText::empty(),
    };
    Place::given(alloc, parts)
}

// Past all that stands in the study `after`.
fn study_start(alloc: Global, after: Option<&ShortText>) -> Result<Bound<Place>, AllocError>
    ensures { IfOk result (λ start. start ≡ study_start (option_copied after.entry)) }
{
    match after {
        None => Ok(Bound::Unbounded),
        Some(study) => Ok(Bound::Excluded(end_of(alloc, study)?)),
    }
}

// In the study, past all that stands in the series `after`.
fn series_start(
    alloc: Global,
    study: &ShortText,
    after: Option<&ShortText>,
) -> Result<Bound<Place>, AllocError>
    ensures { IfOk result (λ start. start ≡ series_start study.now (option_copied after.entry)) }
{
    match after {
        None => Ok(Bound::Included(front_of(alloc, study)?)),
        Some(series) => Ok(Bound::Excluded(end_of_series(alloc, study, series)?)),
    }
}

// In the series of the study, past the instance `after`.
fn instance_start(
    alloc: Global,
    study: &ShortText,
    series: &ShortText,
    after: Option<&ShortText>,
) -> Result<Bound<Place>, AllocError>
    ensures { IfOk result (λ start. start ≡
        instance_start study.now series.now (option_copied after.entry)) }
{
    match after {
        None => Ok(Bound::Included(front_of_series(alloc, study, series)?)),
        Some(instance) => Ok(Bound::Excluded(place_at(
            alloc,
            study,
            series,
            instance.duplicate(),
        )?)),
    }
}

impl Join for LivePicks {
    ghost IsHeld = { IsMapOf text_cmp (λ _. Unit {0}) };

    ghost joined = { picks_joined };

    ghost laws = { picks_laws };

    fn held(&self) {
        self.picks.held();
    }

    fn join_with(&mut self, other: &LivePicks) -> Result<(), AllocError> {
        join_parts(self.alloc, &mut self.picks, &mut self.tree, &other.picks)
    }
}

impl LivePicks {
    /// No picks. It takes no memory.
    pub fn empty(alloc: Global) -> LivePicks
        ensures { result ≡ [] }
    {
        LivePicks {
            picks: MapOf::empty(alloc),
            tree: BTreeSet::new(alloc),
            alloc,
        }
    }

    /// Takes in the pick of one content. Where memory is refused, all stays as it was.
    pub fn add(&mut self, instance: ShortText, pick: Pick) -> Result<(), AllocError>
        ensures ok { OnOk result (self.new ≡ picks_joined self.old (entry instance (Some pick))) }
        ensures refused { OnErr result (self.new ≡ self.old) }
    {
        let one = MapOf::of(self.alloc, instance, Least::of(pick))?;
        join_parts(self.alloc, &mut self.picks, &mut self.tree, &one)
    }

    /// The pick of an instance.
    pub fn pick(&self, instance: &ShortText) -> Option<&Pick>
        ensures { option_copied result ≡ pick_at instance.now self.now }
    {
        pick_of(&self.picks, instance)
    }

    /// The least study past `after`, or the first where there is none.
    pub fn next_study(&self, after: Option<&ShortText>) -> Result<Option<ShortText>, AllocError>
        ensures { IfOk result (λ next.
            IsNext (HasStudy self.now) (option_copied after.entry) next) }
    {
        self.picks.held();
        let start = study_start(self.alloc, after)?;
        match first_from(&self.tree, start) {
            None => Ok(None),
            Some(place) => Ok(Some(ShortText::whole(place.study()))),
        }
    }

    /// The least series of a study past `after`, or the first where there is none.
    pub fn next_series(
        &self,
        study: &ShortText,
        after: Option<&ShortText>,
    ) -> Result<Option<ShortText>, AllocError>
        ensures { IfOk result (λ next.
            IsNext (HasSeries self.now study.now) (option_copied after.entry) next) }
    {
        self.picks.held();
        let start = series_start(self.alloc, study, after)?;
        match first_from(&self.tree, start) {
            None => Ok(None),
            Some(place) => {
                if !study.has_bytes(place.study()) {
                    return Ok(None);
                }
                Ok(Some(ShortText::whole(place.series())))
            }
        }
    }

    /// The least instance of a series past `after`, or the first where there is none.
    pub fn next_instance(
        &self,
        study: &ShortText,
        series: &ShortText,
        after: Option<&ShortText>,
    ) -> Result<Option<ShortText>, AllocError>
        ensures { IfOk result (λ next.
            IsNext (HasInstance self.now study.now series.now) (option_copied after.entry) next) }
    {
        self.picks.held();
        let start = instance_start(self.alloc, study, series, after)?;
        match first_from(&self.tree, start) {
            None => Ok(None),
            Some(place) => {
                if !study.has_bytes(place.study()) {
                    return Ok(None);
                }
                if !series.has_bytes(place.series()) {
                    return Ok(None);
                }
                Ok(Some(ShortText::whole(place.instance())))
            }
        }
    }

    /// Puts the instances of a study's picks into a set.
    pub fn put_study(
        &self,
        study: &ShortText,
        uids: &mut BTreeSet<ShortText>,
    ) -> Result<(), AllocError>
        ensures { OnOk result ((uid : List ℕ) → has text_cmp uids.new.keys uid
            ≡ (has text_cmp uids.old.keys uid || is_of_study study.now (pick_at uid self.now))) }
    {
        self.picks.held();
        let front = front_of(self.alloc, study)?;
        let end = end_of(self.alloc, study)?;
        put_between(&self.tree, front, end, uids)?;
        Ok(())
    }

    /// Puts the instances of the picks of a series of a study into a set.
    pub fn put_series(
        &self,
        study: &ShortText,
        series: &ShortText,
        uids: &mut BTreeSet<ShortText>,
    ) -> Result<(), AllocError>
        ensures { OnOk result ((uid : List ℕ) → has text_cmp uids.new.keys uid
            ≡ (has text_cmp uids.old.keys uid
            || is_of_series study.now series.now (pick_at uid self.now))) }
    {
        self.picks.held();
        let front = front_of_series(self.alloc, study, series)?;
        let end = end_of_series(self.alloc, study, series)?;
        put_between(&self.tree, front, end, uids)?;
        Ok(())
    }

    /// Puts the instances of all picks into a set.
    pub fn put_all(&self, uids: &mut BTreeSet<ShortText>) -> Result<(), AllocError>
        ensures { OnOk result ((uid : List ℕ) → has text_cmp uids.new.keys uid
            ≡ (has text_cmp uids.old.keys uid || has text_cmp (keys_of self.now) uid)) }
    {
        put_keys(self.picks.get(), uids)?;
        Ok(())
    }
}
