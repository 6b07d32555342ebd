//! Shelves that tell nothing of what they hold.

ghost use Rattle.std.specs.Prelude.{◌≡◌, ◌⊎◌, IfErr, IfOk, IfSome};
ghost use Rattle.operation.specs.Spelling.{digest_of};
ghost use Rattle.op_shelf.specs.declared.fault.ShelfFault.TheVariants.{Memory};

use op_shelf::{Keep, Kept, ShelfFault, StoreCause};
use operation::{Digest, Digested, Op};
use std::alloc::Global;

/// A shelf that counts what it is asked to keep, takes so many of it, and loads what it took.
pub(crate) struct Counting {
    pub asked: u64,
    room: u64,
    kept: Vec<Digested>,
    alloc: Global,
}

// It is written out, so that a caller does not prove again how each part is dropped.
impl Drop for Counting {
    fn drop(self) {
        let Counting {
            asked: _,
            room: _,
            kept: _,
            alloc: _,
        } = self;
    }
}

impl Counting {
    /// One that holds nothing, and has room for so many.
    pub(crate) fn new(alloc: Global, room: u64) -> Counting {
        Counting {
            asked: 0,
            room,
            kept: Vec::new(alloc),
            alloc,
        }
    }
}

/// A second owner of the operation of a digest, if one of these is it.
fn found(alloc: Global, ops: &[Digested], digest: &Digest) -> Result<Option<Digested>, ShelfFault>
    ensures told { IfOk result (λ found. IfSome found (λ op. digest_of op ≡ digest.now)) }
    ensures memory { IfErr result (λ fault. fault ≡ Memory) }
{
    for op in ops {
        if op.digest() == digest {
            return Ok(Some(op.copy(alloc)?));
        }
    }
    Ok(None)
}

impl Keep for Counting {
    ghost use Rattle.std.specs.Prelude.{◌≡◌, ◌⊎◌, ◌≤◌, ⊤};
    ghost use Rattle.op_shelf.specs.declared.fault.ShelfFault.TheVariants.{Memory};

    ghost is_up = { λ _. ⊥ };

    ghost holds = { λ _ _. ⊥ };

    ghost lasts = { λ _ _. ⊥ };

    // It has no room for one more, or lacks memory, and takes no group.
    ghost refuses = { λ before _ _ fault. (before.room ≤ before.asked) ⊎ (fault ≡ Memory) };

    ghost refuses_group = { λ _ _ _ _. ⊤ };

    ghost refuses_load = { λ _ _ _ fault. fault ≡ Memory };

    fn put(&mut self, op: &Op) -> Result<Kept, ShelfFault> {
        let op = Digested::of(op.copy(self.alloc)?);
        self.put_digested(&op)
    }

    fn put_digested(&mut self, op: &Digested) -> Result<Kept, ShelfFault> {
        self.asked = self.asked.saturating_add(1);
        if self.asked > self.room {
            return Err(ShelfFault::Store(StoreCause::Other));
        }
        self.kept.push(op.copy(self.alloc)?)?;
        Ok(Kept::New)
    }

    // It takes no group, so each of one comes alone.
    fn put_many(&mut self, _ops: &[Digested]) -> Result<Vec<Kept>, ShelfFault> {
        Err(ShelfFault::Store(StoreCause::Other))
    }

    fn load(&mut self, digest: &Digest) -> Result<Option<Digested>, ShelfFault> {
        found(self.alloc, &self.kept, digest)
    }

    fn read(&mut self, digest: &Digest) -> Result<Option<Op>, ShelfFault> {
        let Some(op) = found(self.alloc, &self.kept, digest)? else {
            return Ok(None);
        };
        Ok(Some(op.into_op()))
    }
}
