//! Sets that only grow.
ghost use Rattle.std.specs.Prelude.{◌≡◌, ◌↔◌, [], ◌∷◌, OnOk, OnErr, IfOk, IsTrue, Contains, not};
ghost use Rattle.std.specs.List.Sorted.{IsStrictlySortedBy};
ghost use Rattle.std.specs.List.{list_any};
ghost use Rattle.std.specs.BTreeMap.{is_at};
ghost use Rattle.std.specs.BTreeSet.{insert_key};
ghost use Rattle.join_laws.specs.Journal.{taken_out};
ghost use Rattle.join_laws.specs.GrowSet.{union_of, only};
ghost use Rattle.join_laws.specs.Proved.Sets.{set_laws, set_summary_laws};

use crate::element::{Copies, Exact};
use crate::join::Join;
use crate::summary::Summary;
use crate::undoes::Undoes;
use std::alloc::{AllocError, Global};
use std::collections::BTreeSet;
use std::marker::Model;

/// A set of keys, which joins by union. It is seen as its keys, ascending.
///
/// A join looks each key of the other set up once, where it puts it in.
pub struct GrowSet<K: Ord> {
    keys: BTreeSet<K>,
    alloc: Global,
}

impl<K: Ord> Model for GrowSet<K> {
    ghost use Rattle.std.specs.Prelude.{List};

    ghost Value = { List K };

    ghost view = { λ a. a.keys.keys };
}

impl<K: Ord + Drop> Drop for GrowSet<K> {
    fn drop(self) {
        let GrowSet { keys, alloc: _ } = self;
        drop(keys);
    }
}

impl<K: Exact> GrowSet<K> {
    /// The set of no keys.
    pub fn empty(alloc: Global) -> GrowSet<K>
        ensures { result ≡ [] }
    {
        GrowSet {
            keys: BTreeSet::new(alloc),
            alloc,
        }
    }

    /// The set of one key.
    pub fn of(alloc: Global, key: K) -> Result<GrowSet<K>, AllocError>
        ensures { IfOk result (λ set. set ≡ only key) }
    {
        let mut keys = BTreeSet::new(alloc);
        keys.insert(key)?;
        Ok(GrowSet { keys, alloc })
    }

    /// The keys, ascending.
    pub fn get(&self) -> &BTreeSet<K>
        ensures { result.now.keys ≡ self.now }
    {
        &self.keys
    }

    /// Whether the set has the key.
    pub fn contains(&self, key: &K) -> bool
        ensures { IsTrue result ↔ Contains self.now key.now }
    {
        self.keys.contains(key)
    }
}

// Puts in a copy of each key of the other set, the last one first: a tree is searched from its
// least key on. What was put in before memory was refused stays.
fn put_all<K: Exact>(into: &mut BTreeSet<K>, other: &BTreeSet<K>) -> Result<(), AllocError>
    ensures ok { OnOk result (into.new.keys ≡ union_of K.cmp into.old.keys other.now.keys) }
    ensures ordered { IsStrictlySortedBy K.cmp other.now.keys }
{
    let _ = into.len();
    let _ = other.len();
    let mut rest = other.iter();
    while let Some(key) = rest.next_back() {
        into.insert(key.copy()?)?;
    }
    Ok(())
}

impl<K: Exact> Copies for GrowSet<K> {
    fn copy(&self) -> Result<GrowSet<K>, AllocError> {
        let mut keys = BTreeSet::new(self.alloc);
        put_all(&mut keys, &self.keys)?;
        Ok(GrowSet {
            keys,
            alloc: self.alloc,
        })
    }
}

// Takes the keys out, the last one first.
fn take_out<K: Exact>(from: &mut BTreeSet<K>, added: Vec<&K>)
    ensures { from.new.keys ≡ taken_out K.cmp added.entry.items from.old.keys }
{
    let mut left = added;
    while let Some(key) = left.pop() {
        let _ = from.remove(key);
    }
}

// Puts in a copy of a key, and notes the key if it was absent. Where memory is refused, the notes
// still lead back.
fn put_noted<'a, K: Exact>(
    into: &mut BTreeSet<K>,
    added: &mut Vec<&'a K>,
    key: &'a K,
) -> Result<(), AllocError>
    ensures ok { OnOk result (into.new.keys ≡ insert_key K.cmp into.old.keys key.now) }
    ensures noted { taken_out K.cmp added.new.items into.new.keys ≡
        taken_out K.cmp added.old.items into.old.keys }
{
    let copy = key.copy()?;
    added.push(key)?;
    let absent = into.insert(copy)?;
    if !absent {
        let _ = added.pop();
    }
    Ok(())
}

// Puts in a copy of each key of the other set, the last one first, and notes those that were
// absent. Where memory is refused, the set stays as it was.
fn join_sets<'a, K: Exact>(
    alloc: Global,
    into: &mut BTreeSet<K>,
    other: &'a BTreeSet<K>,
) -> Result<Vec<&'a K>, AllocError>
    ensures ok { OnOk result (into.new.keys ≡ union_of K.cmp into.old.keys other.now.keys) }
    ensures noted { IfOk result (λ added. taken_out K.cmp added.items into.new.keys
        ≡ into.old.keys) }
    ensures refused { OnErr result (into.new.keys ≡ into.old.keys) }
{
    let mut added = Vec::with_capacity(alloc, other.len())?;
    let _ = into.len();
    let mut rest = other.iter();
    while let Some(key) = rest.next_back() {
        if let Err(refused) = put_noted(into, &mut added, key) {
            take_out(into, added);
            return Err(refused);
        }
    }
    Ok(added)
}

impl<K: Exact> GrowSet<K> {
    /// Takes in what the other holds, and answers the keys that were absent. Where memory is
    /// refused, the set stays as it was.
    pub fn join_noted<'a>(&mut self, other: &'a GrowSet<K>) -> Result<Vec<&'a K>, AllocError>
        ensures ok { OnOk result (self.new ≡ union_of K.cmp self.old other.now) }
        ensures noted { IfOk result (λ added. taken_out K.cmp added.items self.new ≡ self.old) }
        ensures refused { OnErr result (self.new ≡ self.old) }
    {
        Ok(join_sets(self.alloc, &mut self.keys, &other.keys)?)
    }

    /// Takes out the keys that a join put in, the last one first. This takes no memory.
    pub fn take_out(&mut self, added: Vec<&K>)
        ensures { self.new ≡ taken_out K.cmp added.entry.items self.old }
    {
        take_out(&mut self.keys, added);
    }
}

impl<K: Exact> Join for GrowSet<K> {
    ghost IsHeld = { IsStrictlySortedBy K.cmp };

    ghost joined = { union_of K.cmp };

    ghost laws = { set_laws K.total K.exact };

    fn held(&self) {
        let _ = self.keys.len();
    }

    fn join_with(&mut self, other: &GrowSet<K>) -> Result<(), AllocError> {
        let _ = self.join_noted(other)?;
        Ok(())
    }
}

impl<K: Exact> Summary<K> for GrowSet<K> {
    ghost nothing = { [] };

    ghost of_one = { only };

    ghost summary_laws = { set_summary_laws K.total K.exact };

    fn empty(alloc: Global) -> GrowSet<K> {
        GrowSet::empty(alloc)
    }

    fn add(&mut self, key: &K) -> Result<(), AllocError> {
        let _ = self.keys.insert(key.copy()?)?;
        Ok(())
    }
}

impl<K: Exact> Undoes<K> for GrowSet<K> {
    /// Whether the key was absent.
    type Undo = bool;

    ghost TakesBack = { λ before key absent. absent ≡ not (list_any (is_at (K.cmp key)) before) };

    fn add_with_undo(&mut self, key: &K) -> Result<bool, AllocError> {
        Ok(self.keys.insert(key.copy()?)?)
    }

    fn undo(&mut self, key: &K, undo: bool) {
        if undo {
            let _ = self.keys.remove(key);
        }
    }
}
