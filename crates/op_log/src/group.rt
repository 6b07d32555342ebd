//! A group of operations that are put together.

ghost use Rattle.std.specs.Prelude.{◌≡◌, List, OnOk};
ghost use Rattle.op_log.specs.Heads.{Head};
ghost use Rattle.op_log.specs.Kept.{with_head};
ghost use Rattle.op_log.specs.Staged.{IsBegun, IsUndone, replaced_in};

use crate::kept::Kept;
use crate::place::Place;
use crate::places::Places;
use octets::Octets;
use operation::Digest;
use std::alloc::{AllocError, Global};

/// What is staged of a group before it stands.
#[derive(Drop)]
pub(crate) struct Group {
    /// The heads of what is new, one behind the other.
    pub(crate) text: Vec<u8>,
    /// What is told of each operation.
    pub(crate) kepts: Vec<Kept>,
    /// The places in memory that were replaced, each under its digest, in the order of that.
    pub(crate) replaced: Vec<(Digest, Place)>,
    pub(crate) alloc: Global,
}

impl Group {
    /// A group of no operation.
    pub(crate) fn new(alloc: Global) -> Group
        ensures { IsBegun result }
    {
        Group {
            text: Vec::new(alloc),
            kepts: Vec::new(alloc),
            replaced: Vec::new(alloc),
            alloc,
        }
    }

    /// Keeps the place under a digest, if there is one, so that it can be put back.
    pub(crate) fn keep(&mut self, places: &Places, digest: &Digest) -> Result<(), AllocError>
        ensures same { (first : List Head) → IsUndone first places.now (replaced_in self.old)
            → IsUndone first places.now (replaced_in self.new) }
        ensures next { OnOk result ((first : List Head) (h : Head) → h.digest ≡ digest.now
            → IsUndone first places.now (replaced_in self.old)
            → IsUndone first (with_head places.now h) (replaced_in self.new)) }
        ensures text { self.new.text ≡ self.old.text }
        ensures kepts { self.new.kepts ≡ self.old.kepts }
    {
        let Some(place) = places.find(digest) else {
            return Ok(());
        };
        let copy = Place {
            front: Octets::from_slice(self.alloc, place.front.as_slice())?,
            at: place.at,
            size: place.size,
        };
        self.replaced.push((*digest, copy))?;
        Ok(())
    }
}
