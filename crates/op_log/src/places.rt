//! The places of operations, in memory, each under its digest.

ghost use Rattle.std.specs.Prelude.{◌≡◌, ◌≢◌, [], None, Some, ◌≤◌, ◌<◌, List, take, map, length, slice_get, IfSome, OnOk, OnErr};
ghost use Rattle.op_log.specs.Heads.{Head};
ghost use Rattle.op_log.specs.Kept.{HaveOwnDigests, first_under, with_head};
ghost use Rattle.op_log.specs.Places.{HasDigestAt, head_at, head_by};
ghost use Rattle.op_log.specs.Staged.{AreThere, IsUndone};

use crate::place::Place;
use indexmap::IndexMap;
use operation::Digest;
use std::alloc::{AllocError, Global};
use std::marker::Model;

/// Places in the order in which they came. Contracts see them as heads.
pub(crate) struct Places {
    table: IndexMap<[u8; 32], Place>,
    alloc: Global,
}

impl Model for Places {
    ghost use Rattle.std.specs.Prelude.{List, map};
    ghost use Rattle.std.specs.Coded.{coded_list};
    ghost use Rattle.op_log.specs.Heads.{Head, head_code};
    ghost use Rattle.op_log.specs.Places.{head_at};

    ghost Value = { List Head };

    ghost coded = { coded_list head_code };

    ghost view = { λ p. map head_at p.table.entries };
}

// It is written out, so that a caller does not prove again how each part is dropped.
impl Drop for Places {
    fn drop(self) {
        let Places { table, alloc: _ } = self;
        drop(table);
    }
}

impl Places {
    pub(crate) fn new(alloc: Global) -> Places
        ensures { result ≡ [] }
    {
        Places {
            table: IndexMap::new(alloc),
            alloc,
        }
    }

    /// Where memory for places is taken.
    pub(crate) fn alloc(&self) -> Global {
        self.alloc
    }

    pub(crate) fn len(&self) -> usize
        ensures { result ≡ length self.now }
    {
        self.table.len()
    }

    /// No two have one digest. Nothing is done: this is a fact for callers.
    pub(crate) fn see_own_digests(&self)
        ensures { HaveOwnDigests self.now }
    {
        let _ = self.table.len();
    }

    /// The place under a digest.
    pub(crate) fn find(&self, digest: &Digest) -> Option<&Place>
        ensures found { IfSome result (λ place. first_under digest.now self.now
            ≡ Some (head_by digest.now place.now)) }
        ensures none { result ≡ None → first_under digest.now self.now ≡ None }
    {
        self.table.get(digest.as_bytes())
    }

    /// The index of the head with a digest.
    pub(crate) fn index_of(&self, digest: &Digest) -> Option<usize>
        ensures found { IfSome result (λ index. HasDigestAt self.now index digest.now) }
        ensures within { IfSome result (λ index. index < length self.now) }
        ensures none { result ≡ None → first_under digest.now self.now ≡ None }
    {
        self.table.get_index_of(digest.as_bytes())
    }

    /// The digest and the place at an index.
    pub(crate) fn at(&self, index: usize) -> Option<(&[u8; 32], &Place)>
        ensures found { IfSome result (λ x. slice_get self.now index
            ≡ Some (head_by x.0.now x.1.now)) }
        ensures none { result ≡ None → length self.now ≤ index }
    {
        self.table.get_index(index)
    }

    /// Adds a place under a digest, in the place of the one that is there, or else behind the others.
    pub(crate) fn put(&mut self, digest: &Digest, place: Place) -> Result<(), AllocError>
        ensures put { OnOk result (self.new ≡ with_head self.old (head_by digest.now place)) }
        ensures refused { OnErr result (self.new ≡ self.old) }
    {
        self.table.insert(*digest.as_bytes(), place)?;
        Ok(())
    }

    /// The same under a digest that has a place. This takes no memory.
    fn put_back(&mut self, kept: (Digest, Place))
        requires { first_under kept.0 self.old ≢ None }
        ensures { self.new ≡ with_head self.old (head_at kept) }
    {
        let (digest, place) = kept;
        match self.table.insert(*digest.as_bytes(), place) {
            Ok(_replaced) => {}
            Err(_refused) => unreachable!(),
        }
    }

    /// Forgets all behind the first ones. This takes no memory.
    fn truncate(&mut self, len: usize)
        ensures { self.new ≡ take len self.old }
    {
        self.table.truncate(len);
    }

    /// Puts back what was replaced, the last first, and forgets all behind the first ones. This
    /// takes no memory.
    pub(crate) fn restore(&mut self, len: usize, replaced: Vec<(Digest, Place)>)
        requires { AreThere self.old (map head_at replaced.items) }
        ensures { (first : List Head) → len ≡ length first
            → IsUndone first self.old (map head_at replaced.items) → self.new ≡ first }
    {
        let mut left = replaced;
        'replaced: while let Some(last) = left.pop() {
            self.put_back(last);
        }
        self.truncate(len);
    }
}
