//! The list of places, as a tree.
ghost use Rattle.std.specs.Prelude.{◌≡◌, map, OnOk, OnErr, IfNone, IfSome, IsTrue, false, not, ◌&&◌, ◌||◌};
ghost use Rattle.std.specs.BTreeMap.Range.{IsFromStart, IsLeBy};
ghost use Rattle.std.specs.List.Sorted.{IsStrictlySortedBy};
ghost use Rattle.std.specs.BTreeSet.{insert_key};
ghost use Rattle.study_index.specs.Keys.{has, AreApart};
ghost use Rattle.std.specs.List.{filter};
ghost use Rattle.octets.specs.Texts.{text_cmp};
ghost use Rattle.join_laws.specs.GrowSet.{union_of};
ghost use Rattle.study_index.specs.Live.{Place as APlace, place_cmp, instance_of, is_between};

use crate::place::Place;
use crate::short_text::ShortText;
use std::alloc::AllocError;
use std::collections::BTreeSet;
use std::ops::Bound;

/// Takes places out. This takes no memory.
pub fn take_all(tree: &mut BTreeSet<Place>, gone: &[Place])
    ensures left { (place : APlace) → has place_cmp tree.new.keys place
        ≡ (has place_cmp tree.old.keys place && not (has place_cmp gone.now place)) }
    ensures ordered { IsStrictlySortedBy place_cmp tree.new.keys }
{
    let _ = tree.len();
    for place in gone {
        let _ = tree.remove(place);
    }
}

// Puts a copy of a place in. Where memory is refused, the tree stays as it was.
fn put(tree: &mut BTreeSet<Place>, place: &Place) -> Result<(), AllocError>
    ensures ok { OnOk result (tree.new.keys ≡ insert_key place_cmp tree.old.keys place.now) }
    ensures refused { OnErr result (tree.new.keys ≡ tree.old.keys) }
    ensures ordered { IsStrictlySortedBy place_cmp tree.new.keys }
{
    let _ = tree.len();
    tree.insert(place.copy()?)?;
    Ok(())
}

/// Puts in places that are not there, the last one first: a tree is searched from its least key on.
/// Where memory is refused, the tree stays as it was.
pub fn put_all(tree: &mut BTreeSet<Place>, fresh: &[Place]) -> Result<(), AllocError>
    requires { AreApart place_cmp tree.now.keys fresh.now }
    ensures ok { OnOk result ((place : APlace) → has place_cmp tree.new.keys place
        ≡ (has place_cmp tree.old.keys place || has place_cmp fresh.now place)) }
    ensures refused { OnErr result (tree.new.keys ≡ tree.old.keys) }
    ensures ordered { IsStrictlySortedBy place_cmp tree.new.keys }
{
    let _ = tree.len();
    let mut rest = fresh.iter();
    while let Some(place) = rest.next_back() {
        if let Err(refused) = put(tree, place) {
            take_all(tree, fresh);
            return Err(refused);
        }
    }
    Ok(())
}

/// The least place from a start on.
pub fn first_from(tree: &BTreeSet<Place>, start: Bound<Place>) -> Option<&Place>
    ensures none { IfNone result ((place : APlace) →
        IsFromStart place_cmp start place → has place_cmp tree.now.keys place ≡ false) }
    ensures found { IfSome result (λ first.
        IsFromStart place_cmp start first.now × IsTrue (has place_cmp tree.now.keys first.now)) }
    ensures least { IfSome result (λ first. (place : APlace) → IsFromStart place_cmp start place →
        IsTrue (has place_cmp tree.now.keys place) → IsLeBy place_cmp first.now place) }
{
    match tree.range((start, Bound::Unbounded)).next() {
        Some(place) => Some(place),
        None => None,
    }
}

/// Puts a copy of a UID into a set. Where memory is refused, the set stays as it was.
pub fn put_uid(uids: &mut BTreeSet<ShortText>, uid: &ShortText) -> Result<(), AllocError>
    ensures { OnOk result (uids.new.keys ≡ insert_key text_cmp uids.old.keys uid.now) }
{
    uids.insert(uid.duplicate())?;
    Ok(())
}

/// Puts the instances of the places from a front on and before an end into a set.
pub fn put_between(
    tree: &BTreeSet<Place>,
    front: Place,
    end: Place,
    uids: &mut BTreeSet<ShortText>,
) -> Result<(), AllocError>
    requires { IsLeBy place_cmp front end }
    ensures { OnOk result (uids.new.keys ≡ union_of text_cmp uids.old.keys
        (map instance_of (filter (is_between front end) tree.now.keys))) }
{
    for place in tree.range((Bound::Included(front), Bound::Excluded(end))) {
        put_uid(uids, &ShortText::whole(place.instance()))?;
    }
    Ok(())
}
