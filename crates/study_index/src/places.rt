//! The places of picks, as lists.
ghost use Rattle.std.specs.Prelude.{◌≡◌, IfOk, map};
ghost use Rattle.std.specs.BTreeMap.Range.{IsLeBy};
ghost use Rattle.std.specs.List.{filter};
ghost use Rattle.study_index.specs.Live.{place_cmp, is_between, tree_of, places_in_study};

use crate::live_picks::{LivePicks, end_of, front_of};
use crate::place::Place;
use crate::short_text::ShortText;
use std::alloc::{AllocError, Global};
use std::collections::BTreeSet;
use std::ops::Bound;

// The places from a front on and before an end.
fn between<'a>(
    alloc: Global,
    tree: &'a BTreeSet<Place>,
    front: Place,
    end: Place,
) -> Result<Vec<&'a Place>, AllocError>
    requires { IsLeBy place_cmp front end }
    ensures { IfOk result (λ found. map (λ p. p.now) found.items ≡
        filter (is_between front end) tree.now.keys) }
{
    let mut found = Vec::new(alloc);
    for place in tree.range((Bound::Included(front), Bound::Excluded(end))) {
        found.push(place)?;
    }
    Ok(found)
}

// All places.
fn all<'a>(alloc: Global, tree: &'a BTreeSet<Place>) -> Result<Vec<&'a Place>, AllocError>
    ensures { IfOk result (λ found. map (λ p. p.now) found.items ≡ tree.now.keys) }
{
    let mut found = Vec::with_capacity(alloc, tree.len())?;
    for place in tree.iter() {
        found.push(place)?;
    }
    Ok(found)
}

impl LivePicks {
    /// The places of a study's picks, ascending.
    pub fn places_in(&self, alloc: Global, study: &ShortText) -> Result<Vec<&Place>, AllocError>
        ensures { IfOk result (λ found. map (λ p. p.now) found.items ≡
            places_in_study study.now self.now) }
    {
        let front = front_of(alloc, study)?;
        let end = end_of(alloc, study)?;
        between(alloc, &self.tree, front, end)
    }

    /// The places of all picks, ascending.
    pub fn places(&self, alloc: Global) -> Result<Vec<&Place>, AllocError>
        ensures { IfOk result (λ found. map (λ p. p.now) found.items ≡ tree_of self.now) }
    {
        all(alloc, &self.tree)
    }
}
