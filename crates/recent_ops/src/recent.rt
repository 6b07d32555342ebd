//! Operations under their digests, the one used last first.

ghost use Rattle.std.specs.Prelude.{◌≡◌, ◌↔◌, ◌≤◌, ◌+◌, None, Ok, OnOk, OnErr, IfOk, IfSome, [], IsTrue, is_some};
ghost use Rattle.operation.specs.Spelling.{digest_of};
ghost use Rattle.recent_ops.specs.Recent.{total_of, held_under, op_under, first, used_last, shrunk, with_held, is_new};

use crate::held::Weighed;
use lru::LruCache;
use operation::{Digest, Digested};
use std::alloc::{AllocError, Global};
use std::marker::Model;

/// Operations under their digests, the one used last first, and how many bytes of memory each is
/// said to take. All together never take more than there is room for.
pub struct Recent {
    ops: LruCache<[u8; 32], Weighed>,
    bytes: usize,
    room: usize,
}

impl Model for Recent {
    ghost use Rattle.std.specs.Map.{values_of};
    ghost use Rattle.recent_ops.specs.Recent.{RecentOps, recent_code, IsKept};

    ghost Value = { RecentOps };

    ghost coded = { recent_code };

    ghost view = { λ r. record { held = values_of r.ops.entries; room = r.room } };

    ghost invariant = { λ r. IsKept r.ops.entries r.ops.cap r.bytes r.room };
}

// It is written out, so that a caller does not prove again how each part is dropped.
impl Drop for Recent {
    fn drop(self) {
        let Recent {
            ops,
            bytes: _,
            room: _,
        } = self;
        drop(ops);
    }
}

impl Recent {
    /// Nothing yet, and room for so many bytes.
    pub fn new(alloc: Global, room: usize) -> Result<Recent, AllocError>
        ensures { IfOk result (λ recent. recent ≡ record { held = []; room = room }) }
    {
        Ok(Recent {
            ops: LruCache::unbounded(alloc)?,
            bytes: 0,
            room,
        })
    }

    /// How many bytes there is room for.
    pub fn room(&self) -> usize
        ensures { result ≡ self.now.room }
    {
        self.room
    }

    /// How many bytes the operations take that are held.
    pub fn bytes(&self) -> usize
        ensures sum { result ≡ total_of self.now.held }
        ensures fits { result ≤ self.now.room }
    {
        self.bytes
    }

    /// The operation with a digest, if it is held. It is then the one used last, also where there
    /// is no memory for the answer. Its bytes are shared, and nothing is hashed.
    pub fn find(&mut self, alloc: Global, digest: &Digest) -> Result<Option<Digested>, AllocError>
        ensures told { IfOk result (λ found. IfSome found (λ op. digest_of op ≡ digest.now)) }
        ensures found { IfOk result (λ found. found ≡ op_under digest.now self.old.held) }
        ensures none { (result ≡ Ok None) ↔ (op_under digest.now self.old.held ≡ None) }
        ensures used { self.new ≡ used_last digest.now self.old }
    {
        self.use_last(digest);
        self.copy_of(alloc, digest)
    }

    /// Holds an operation, as the one used last, where it is new and there is room for it. The
    /// least recently used ones go, no more of them than must.
    pub fn keep(&mut self, op: Digested, weight: usize) -> Result<(), AllocError>
        ensures kept { OnOk result (self.new ≡ with_held op weight self.old) }
        // There was no memory for one more. What went for it stays away.
        ensures refused { OnErr result (self.new ≡ shrunk weight self.old) }
        ensures new { OnErr result (IsTrue (is_new op weight self.old)) }
    {
        if self.holds(op.digest()) {
            return Ok(());
        }
        if weight > self.room {
            return Ok(());
        }
        self.make_room(weight);
        self.add(op, weight)
    }

    /// Makes the operation with a digest the one used last.
    fn use_last(&mut self, digest: &Digest)
        ensures { self.new ≡ used_last digest.now self.old }
    {
        self.ops.promote(digest.as_bytes());
    }

    /// A copy of the operation with a digest.
    fn copy_of(&self, alloc: Global, digest: &Digest) -> Result<Option<Digested>, AllocError>
        ensures found { IfOk result (λ found. found ≡ op_under digest.now self.now.held) }
        ensures none { op_under digest.now self.now.held ≡ None → result ≡ Ok None }
    {
        match self.ops.peek(digest.as_bytes()) {
            Some(held) => Ok(Some(held.op.copy(alloc)?)),
            None => Ok(None),
        }
    }

    /// Whether an operation with a digest is held.
    fn holds(&self, digest: &Digest) -> bool
        ensures { result ≡ is_some (held_under digest.now self.now.held) }
    {
        self.ops.contains(digest.as_bytes())
    }

    /// The least recently used operations go, until there is room for so many bytes.
    fn make_room(&mut self, weight: usize)
        requires { weight ≤ self.old.room }
        ensures { self.new ≡ shrunk weight self.old }
    {
        let most = self.room - weight;
        while self.bytes > most {
            match self.ops.pop_lru() {
                Some((_, gone)) => self.bytes -= gone.weight,
                None => return,
            }
        }
    }

    /// Puts an operation first, which is not held and for which there is room.
    fn add(&mut self, op: Digested, weight: usize) -> Result<(), AllocError>
        requires new { held_under (digest_of op) self.old.held ≡ None }
        requires fits { total_of self.old.held + weight ≤ self.old.room }
        ensures added { OnOk result (self.new ≡ first op weight self.old) }
        ensures refused { OnErr result (self.new ≡ self.old) }
    {
        // No more entries are held than one could count, so none goes when the cache is full.
        let _ = self.ops.len();
        let bytes = self.bytes + weight;
        self.ops
            .put(*op.digest().as_bytes(), Weighed { op, weight })?;
        self.bytes = bytes;
        Ok(())
    }
}
