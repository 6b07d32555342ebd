//! Maps whose values are joined key by key.
ghost use Rattle.std.specs.Prelude.{◌≡◌, List, [], OnOk, OnErr, IfOk, None, Some};
ghost use Rattle.std.specs.List.Sorted.{IsStrictlySortedBy};
ghost use Rattle.std.specs.Map.{keys_of, lookup, set_value};
ghost use Rattle.std.specs.Option.{option_copied, is_some};
ghost use Rattle.std.specs.BTreeMap.{is_at};
ghost use Rattle.join_laws.specs.Journal.{undone, undone_at};
ghost use Rattle.join_laws.specs.MapOf.{AllHeld, IsMapOf, IsUndoAt};
ghost use Rattle.join_laws.specs.MapOf.{put_joined, map_joined, entry, entry_of};
ghost use Rattle.join_laws.specs.Proved.Maps.{map_laws, map_summary_laws};

use crate::element::{Copies, Exact};
use crate::join::Join;
use crate::summary::Summary;
use crate::undoes::Undoes;
use std::alloc::{AllocError, Global};
use std::collections::BTreeMap;
use std::marker::Model;

/// A map from keys to values that are joined where both maps have the key. It is seen as its
/// entries, with the keys ascending.
///
/// A key that is absent counts as one with the value of nothing. A join looks each key of the other
/// map up once. So that it can go back where memory is refused, it copies each value that it joins
/// to; an operation that is added copies none.
pub struct MapOf<K: Ord, J: Join> {
    map: BTreeMap<K, J>,
    alloc: Global,
}

impl<K: Ord, J: Join> Model for MapOf<K, J> {
    ghost use Rattle.std.specs.Prelude.{List};
    ghost use Rattle.join_laws.specs.MapOf.{AllHeld};

    ghost Value = { List (K × J) };

    ghost view = { λ a. a.map.entries };

    ghost invariant = { λ a. AllHeld J.IsHeld a.map.entries };
}

impl<K: Ord + Drop, J: Join> Drop for MapOf<K, J> {
    fn drop(self) {
        let MapOf { map, alloc: _ } = self;
        drop(map);
    }
}

impl<K: Exact, J: Join> MapOf<K, J> {
    /// The map of no keys.
    pub fn empty(alloc: Global) -> MapOf<K, J>
        ensures { result ≡ [] }
    {
        MapOf {
            map: BTreeMap::new(alloc),
            alloc,
        }
    }

    /// The map of one key with its value.
    pub fn of(alloc: Global, key: K, value: J) -> Result<MapOf<K, J>, AllocError>
        ensures { IfOk result (λ map. map ≡ entry key value) }
    {
        value.held();
        let mut map = BTreeMap::new(alloc);
        map.insert(key, value)?;
        Ok(MapOf { map, alloc })
    }

    /// The entries, in the order of their keys.
    pub fn get(&self) -> &BTreeMap<K, J>
        ensures { result.now.entries ≡ self.now }
    {
        &self.map
    }

    /// The value at a key, or `None` where the key is absent.
    pub fn value(&self, key: &K) -> Option<&J>
        ensures { option_copied result ≡ lookup (is_at (K.cmp key.now)) self.now }
    {
        self.map.get(key)
    }

    /// Whether the key is there.
    pub fn contains(&self, key: &K) -> bool
        ensures { result ≡ is_some (lookup (is_at (K.cmp key.now)) self.now) }
    {
        self.map.contains_key(key)
    }
}

// Puts in a copy of a value at a key that is absent. Where memory is refused, the map stays as it
// was.
fn put_first<K: Exact, J: Join + Copies>(
    into: &mut BTreeMap<K, J>,
    key: &K,
    value: &J,
) -> Result<(), AllocError>
    requires absent { lookup (is_at (K.cmp key.now)) into.old.entries ≡ None }
    ensures ok { OnOk result (into.new.entries ≡
        put_joined K.cmp J.joined into.old.entries key.now value.now) }
    ensures refused { OnErr result (into.new.entries ≡ into.old.entries) }
{
    let entry = (key.copy()?, value.copy()?);
    into.insert(entry.0, entry.1)?;
    Ok(())
}

// Takes in a value at a key. Where memory is refused, the map stays as it was.
fn put<K: Exact, J: Join + Copies>(
    into: &mut BTreeMap<K, J>,
    key: &K,
    value: &J,
) -> Result<(), AllocError>
    ensures ok { OnOk result (into.new.entries ≡
        put_joined K.cmp J.joined into.old.entries key.now value.now) }
    ensures refused { OnErr result (into.new.entries ≡ into.old.entries) }
{
    match into.get_mut(key) {
        Some(there) => there.join_with(value),
        None => put_first(into, key, value),
    }
}

// Takes in each entry of the other map, the last one first: a tree is searched from its least key
// on. What was taken in before memory was refused stays.
fn put_all<K: Exact, J: Join + Copies>(
    into: &mut BTreeMap<K, J>,
    other: &BTreeMap<K, J>,
) -> Result<(), AllocError>
    ensures ok { OnOk result (into.new.entries ≡
        map_joined K.cmp J.joined into.old.entries other.now.entries) }
    ensures ordered { IsStrictlySortedBy K.cmp (keys_of other.now.entries) }
{
    let _ = into.len();
    let _ = other.len();
    let mut rest = other.iter();
    while let Some((key, value)) = rest.next_back() {
        put(into, key, value)?;
    }
    Ok(())
}

// A copy of the map.
fn copied<K: Exact, J: Join + Copies>(
    alloc: Global,
    map: &BTreeMap<K, J>,
) -> Result<BTreeMap<K, J>, AllocError>
    ensures { IfOk result (λ copy. copy.entries ≡ map.now.entries) }
{
    let mut copy = BTreeMap::new(alloc);
    put_all(&mut copy, map)?;
    Ok(copy)
}

impl<K: Exact, J: Join + Copies> Copies for MapOf<K, J> {
    fn copy(&self) -> Result<MapOf<K, J>, AllocError> {
        Ok(MapOf {
            map: copied(self.alloc, &self.map)?,
            alloc: self.alloc,
        })
    }
}

// Puts back what was at a key, or takes the key out where it was absent.
fn put_back<K: Exact, J: Drop>(map: &mut BTreeMap<K, J>, key: &K, before: Option<J>)
    ensures { map.new.entries ≡ undone_at K.cmp key.now before map.old.entries }
{
    match before {
        None => {
            let _ = map.remove(key);
        }
        Some(value) => match map.get_mut(key) {
            Some(there) => *there = value,
            None => {}
        },
    }
}

// Takes the writes back, the last one first.
fn take_back<K: Exact, J: Drop>(map: &mut BTreeMap<K, J>, notes: Vec<(&K, Option<J>)>)
    ensures { map.new.entries ≡ undone K.cmp notes.entry.items map.old.entries }
{
    let mut left = notes;
    while let Some(note) = left.pop() {
        let (key, before) = note;
        put_back(map, key, before);
    }
}

// Takes in a value where there is one, and notes what was there. What is there then, written into
// a map at the key, leads back by the notes, also where memory is refused.
fn join_there<'a, K: Exact, J: Join + Copies>(
    there: &mut J,
    notes: &mut Vec<(&'a K, Option<J>)>,
    key: &'a K,
    value: &J,
) -> Result<(), AllocError>
    ensures ok { OnOk result (there.new ≡ J.joined there.old value.now) }
    ensures noted { (entries : List (K × J)) →
        lookup (is_at (K.cmp key.now)) entries ≡ Some there.old →
        undone K.cmp notes.new.items (set_value (is_at (K.cmp key.now)) entries there.new) ≡
        undone K.cmp notes.old.items entries }
{
    let before = there.copy()?;
    notes.push((key, Some(before)))?;
    there.join_with(value)?;
    Ok(())
}

// Notes that a key is absent, and puts in a copy of a value at it. Where memory is refused, the
// notes still lead back.
fn put_first_noted<'a, K: Exact, J: Join + Copies>(
    into: &mut BTreeMap<K, J>,
    notes: &mut Vec<(&'a K, Option<J>)>,
    key: &'a K,
    value: &J,
) -> Result<(), AllocError>
    requires absent { lookup (is_at (K.cmp key.now)) into.old.entries ≡ None }
    ensures ok { OnOk result (into.new.entries ≡
        put_joined K.cmp J.joined into.old.entries key.now value.now) }
    ensures noted { undone K.cmp notes.new.items into.new.entries ≡
        undone K.cmp notes.old.items into.old.entries }
{
    notes.push((key, None))?;
    put_first(into, key, value)?;
    Ok(())
}

// Takes in a value at a key, and notes what was there. Where memory is refused, the notes still
// lead back.
fn put_noted<'a, K: Exact, J: Join + Copies>(
    into: &mut BTreeMap<K, J>,
    notes: &mut Vec<(&'a K, Option<J>)>,
    key: &'a K,
    value: &J,
) -> Result<(), AllocError>
    ensures ok { OnOk result (into.new.entries ≡
        put_joined K.cmp J.joined into.old.entries key.now value.now) }
    ensures noted { undone K.cmp notes.new.items into.new.entries ≡
        undone K.cmp notes.old.items into.old.entries }
{
    match into.get_mut(key) {
        Some(there) => join_there(there, notes, key, value),
        None => put_first_noted(into, notes, key, value),
    }
}

// Takes in each entry of the other map, the last one first, and notes what was there. Where memory
// is refused, the map stays as it was.
fn join_maps<'a, K: Exact, J: Join + Copies>(
    alloc: Global,
    into: &mut BTreeMap<K, J>,
    other: &'a BTreeMap<K, J>,
) -> Result<Vec<(&'a K, Option<J>)>, AllocError>
    ensures ok { OnOk result (into.new.entries ≡
        map_joined K.cmp J.joined into.old.entries other.now.entries) }
    ensures noted { IfOk result (λ notes. undone K.cmp notes.items into.new.entries
        ≡ into.old.entries) }
    ensures refused { OnErr result (into.new.entries ≡ into.old.entries) }
{
    let mut notes = Vec::with_capacity(alloc, other.len())?;
    let _ = into.len();
    let mut rest = other.iter();
    while let Some((key, value)) = rest.next_back() {
        if let Err(refused) = put_noted(into, &mut notes, key, value) {
            take_back(into, notes);
            return Err(refused);
        }
    }
    Ok(notes)
}

impl<K: Exact, J: Join + Copies> MapOf<K, J> {
    /// Takes in each entry of the other map, and answers what was at each key of it. Where memory
    /// is refused, the map stays as it was.
    pub fn join_noted<'a>(
        &mut self,
        other: &'a MapOf<K, J>,
    ) -> Result<Vec<(&'a K, Option<J>)>, AllocError>
        ensures ok { OnOk result (self.new ≡ map_joined K.cmp J.joined self.old other.now) }
        ensures noted { IfOk result (λ notes. undone K.cmp notes.items self.new ≡ self.old) }
        ensures refused { OnErr result (self.new ≡ self.old) }
    {
        Ok(join_maps(self.alloc, &mut self.map, &other.map)?)
    }

    /// Writes back what was at the keys of a join, the last one first. This takes no memory.
    pub fn take_back(&mut self, notes: Vec<(&K, Option<J>)>)
        requires { AllHeld J.IsHeld (undone K.cmp notes.items self.now) }
        ensures { self.new ≡ undone K.cmp notes.entry.items self.old }
    {
        take_back(&mut self.map, notes);
    }
}

impl<K: Exact, J: Join + Copies> Join for MapOf<K, J> {
    ghost IsHeld = { IsMapOf K.cmp J.IsHeld };

    ghost joined = { map_joined K.cmp J.joined };

    ghost laws = { map_laws K.total K.exact J.laws };

    fn join_with(&mut self, other: &MapOf<K, J>) -> Result<(), AllocError> {
        let _ = self.join_noted(other)?;
        Ok(())
    }

    fn held(&self) {
        let _ = self.map.len();
    }
}

// Takes in an operation at a key that is absent. Where memory is refused, the map stays as it was.
fn add_first<K: Exact, O, J: Summary<O>>(
    alloc: Global,
    into: &mut BTreeMap<K, J>,
    key: &K,
    op: &O,
) -> Result<(), AllocError>
    requires absent { lookup (is_at (K.cmp key.now)) into.old.entries ≡ None }
    ensures ok { OnOk result (into.new.entries ≡
        put_joined K.cmp J.joined into.old.entries key.now (J.of_one op.now)) }
    ensures refused { OnErr result (into.new.entries ≡ into.old.entries) }
{
    let mut value = J::empty(alloc);
    value.add(op)?;
    into.insert(key.copy()?, value)?;
    Ok(())
}

// Takes in an operation at a key. Where memory is refused, the map stays as it was.
fn add_at<K: Exact, O, J: Summary<O>>(
    alloc: Global,
    into: &mut BTreeMap<K, J>,
    key: &K,
    op: &O,
) -> Result<(), AllocError>
    ensures ok { OnOk result (into.new.entries ≡
        put_joined K.cmp J.joined into.old.entries key.now (J.of_one op.now)) }
    ensures refused { OnErr result (into.new.entries ≡ into.old.entries) }
{
    match into.get_mut(key) {
        Some(there) => there.add(op),
        None => add_first(alloc, into, key, op),
    }
}

impl<K: Exact, O, J: Summary<O> + Copies> Summary<(K, O)> for MapOf<K, J> {
    ghost nothing = { [] };

    ghost of_one = { entry_of J.of_one };

    ghost summary_laws = { map_summary_laws K.total K.exact J.laws J.summary_laws };

    fn empty(alloc: Global) -> MapOf<K, J> {
        MapOf::empty(alloc)
    }

    fn add(&mut self, op: &(K, O)) -> Result<(), AllocError> {
        add_at(self.alloc, &mut self.map, &op.0, &op.1)?;
        Ok(())
    }
}

// Takes in an operation at a key, and answers what takes it back, or `None` where the key was
// absent. Where memory is refused, the map stays as it was.
fn add_undoable<K: Exact, O, J: Undoes<O>>(
    alloc: Global,
    into: &mut BTreeMap<K, J>,
    key: &K,
    op: &O,
) -> Result<Option<J::Undo>, AllocError>
    ensures ok { OnOk result (into.new.entries ≡
        put_joined K.cmp J.joined into.old.entries key.now (J.of_one op.now)) }
    ensures undo { IfOk result (λ undo.
        IsUndoAt J.TakesBack op.now (lookup (is_at (K.cmp key.now)) into.old.entries) undo) }
    ensures refused { OnErr result (into.new.entries ≡ into.old.entries) }
{
    match into.get_mut(key) {
        Some(there) => Ok(Some(there.add_with_undo(op)?)),
        None => {
            add_first(alloc, into, key, op)?;
            Ok(None)
        }
    }
}

// Takes back the operation that was taken in last, where the key was there before.
fn undo_there<K: Exact, O, J: Undoes<O>>(map: &mut BTreeMap<K, J>, key: &K, op: &O, undo: J::Undo)
    ensures back { (before : List (K × J)) (value : J) → IsMapOf K.cmp J.IsHeld before →
        lookup (is_at (K.cmp key.now)) before ≡ Some value → J.TakesBack value op.now undo →
        map.old.entries ≡ put_joined K.cmp J.joined before key.now (J.of_one op.now) →
        map.new.entries ≡ before }
    ensures held { AllHeld J.IsHeld map.old.entries → AllHeld J.IsHeld map.new.entries }
{
    match map.get_mut(key) {
        Some(there) => {
            there.undo(op, undo);
            there.held();
        }
        None => {}
    }
}

// Takes back the operation that was taken in last, at the key.
fn undo_at<K: Exact, O, J: Undoes<O>>(
    map: &mut BTreeMap<K, J>,
    key: &K,
    op: &O,
    undo: Option<J::Undo>,
)
    ensures back { (before : List (K × J)) → IsMapOf K.cmp J.IsHeld before →
        IsUndoAt J.TakesBack op.now (lookup (is_at (K.cmp key.now)) before) undo →
        map.old.entries ≡ put_joined K.cmp J.joined before key.now (J.of_one op.now) →
        map.new.entries ≡ before }
    ensures held { AllHeld J.IsHeld map.old.entries → AllHeld J.IsHeld map.new.entries }
{
    match undo {
        Some(undo) => undo_there(map, key, op, undo),
        None => {
            let _ = map.remove(key);
        }
    }
}

impl<K: Exact, O, J: Undoes<O> + Copies> Undoes<(K, O)> for MapOf<K, J> {
    type Undo = Option<J::Undo>;

    ghost TakesBack = { λ before op undo.
        IsUndoAt J.TakesBack op.1 (lookup (is_at (K.cmp op.0)) before) undo };

    fn add_with_undo(&mut self, op: &(K, O)) -> Result<Option<J::Undo>, AllocError> {
        Ok(add_undoable(self.alloc, &mut self.map, &op.0, &op.1)?)
    }

    fn undo(&mut self, op: &(K, O), undo: Option<J::Undo>) {
        undo_at(&mut self.map, &op.0, &op.1, undo);
    }
}
