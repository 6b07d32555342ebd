//! Shelves.

ghost use Rattle.std.specs.Prelude.{◌≡◌, ◌⊎◌, ◌∷◌, [], pos, map, All, None, Ok, Err, IfOk, IfSome, IsErrOf};
ghost use Rattle.std.specs.Prelude.{OnOk, OnErr, IsSorted};
ghost use Rattle.sqlite.specs.declared.types.Value.TheVariants.{Int};
ghost use Rattle.sqlite.specs.Held.{Held, held_code, state};
ghost use Rattle.sqlite.specs.State.{IsUnchanged, Survives};
ghost use Rattle.sqlite.specs.Tree.{Trees};
ghost use Rattle.operation.specs.Reading.{IsOp};
ghost use Rattle.operation.specs.Spelling.{digest_of};
ghost use Rattle.op_shelf.specs.Entries.{Holds, Lists, HasBadRow, entry_of, entry_under, own_entry, digest_text};
ghost use Rattle.op_shelf.specs.Fault.{IfStore};
ghost use Rattle.op_shelf.specs.Loading.{AreAmiss, IsNotLoaded, at_digest};
ghost use Rattle.op_shelf.specs.Putting.{PutsEntry, PutsGroup};
ghost use Rattle.op_shelf.specs.Recording.{Records};
ghost use Rattle.op_shelf.specs.States.{IfClean, IsUnready, KeepsAll, IsNotShown, rows_of, rows_left, count_of};
ghost use Rattle.op_shelf.specs.States.{digest_cmp};
ghost use Rattle.op_shelf.specs.Texts.{all_text, kind_text};

use crate::fault::{ShelfFault, StoreCause};
use crate::group::put_group;
use crate::kept::Kept;
use crate::loading::{load_op, read_op};
use crate::readable::all_records;
use crate::statements::kind_rows;
use crate::table::{is_ready, put_entry};
use crate::walk::all_ops;
use operation::{Digest, Digested, Op, encode};
use records::RecordedOp;
use sqlite::{Alter, Connection};
use std::alloc::Global;
use std::marker::Model;

/// A table of operations, each under its digest. Contracts see it as its connection.
pub struct Shelf<S: Alter> {
    pub(crate) database: Connection<S>,
    pub(crate) alloc: Global,
}

impl<S: Alter> Model for Shelf<S> {
    ghost Value = { Held S };

    ghost coded = { held_code S.code };

    ghost view = { λ s. s.database };
}

// It is written out, so that a caller does not prove again how each part is dropped.
impl<S: Alter + Drop> Drop for Shelf<S> {
    fn drop(self) {
        let Shelf {
            database: _,
            alloc: _,
        } = self;
    }
}

impl<S: Alter + Drop> Shelf<S> {
    /// The connection, which `close_files` closes.
    pub fn into_connection(self) -> Connection<S>
        ensures { result ≡ self }
    {
        let Shelf { database, alloc: _ } = self;
        database
    }
}

impl<S: Alter> Shelf<S> {
    /// Puts an operation on the shelf, and syncs it. It is hashed here, and put as
    /// `put_digested` does: New adds exactly it, Known finds it there, a refusal changes nothing.
    pub fn put(&mut self, op: &Op) -> Result<Kept, ShelfFault>
        ensures { PutsEntry S.Store self.old self.new (digest_text op.now) (entry_of op.now) result }
    {
        let digested = Digested::of(op.copy(self.alloc)?);
        self.put_digested(&digested)
    }

    /// Puts an operation on the shelf under the digest that it has, and syncs it. It mends a row
    /// there whose bytes have not the digest: it is put in its place, and New. Nothing but such a
    /// row is hashed. The data set is copied once, into the spelling that is stored.
    pub fn put_digested(&mut self, op: &Digested) -> Result<Kept, ShelfFault>
        ensures { PutsEntry S.Store self.old self.new (digest_text op.now) (entry_of op.now) result }
    {
        let name = op.digest().text(self.alloc)?;
        let body = encode(self.alloc, op.op())?;
        put_entry(&mut self.database, self.alloc, name.as_str(), &body)
    }

    /// Puts a group of operations on the shelf, one after another, in one transaction, and syncs it
    /// once. It tells of each whether it was there. Nothing is hashed, and one spelling at a time
    /// is in memory.
    pub fn put_many(&mut self, ops: &[Digested]) -> Result<Vec<Kept>, ShelfFault>
        ensures puts { PutsGroup S.Store self.old self.new ops.now result }

        // After Ok every crash leaves all of the group.
        ensures durable { IfClean S.Store self.old self.new (λ s t. OnOk result
            ((trees : Trees) → t.may_leave trees → All (Holds (rows_left t trees)) ops.now)) }
    {
        if !is_ready(&self.database) {
            return Err(ShelfFault::Store(StoreCause::Other));
        }
        put_group(&mut self.database, self.alloc, ops)
    }

    /// The operations of the shelf, ascending by digest. Each is hashed once, to test its row, and
    /// comes with its digest.
    pub fn all(&mut self) -> Result<Vec<Digested>, ShelfFault>
        ensures all { IfClean S.Store self.old self.new (λ s t.
            IfOk result (λ ops. Lists (rows_of s) ops.items)) }
        ensures ascending { IfClean S.Store self.old self.new (λ s t.
            IfOk result (λ ops. IsSorted digest_cmp (map entry_of ops.items))) }
        ensures same { IfClean S.Store self.old self.new (λ s t. OnOk result (IsUnchanged s t)) }
        ensures refused { IfClean S.Store self.old self.new (λ s t. OnErr result (KeepsAll s t)) }

        // Each fault, only where it is.
        ensures bad_row { IfClean S.Store self.old self.new (λ s t.
            IsErrOf result ShelfFault.BadRow → HasBadRow (rows_of s)) }
        ensures store { IfClean S.Store self.old self.new (λ s t. IfStore result (λ why.
            IsUnready why s ⊎ IsNotShown why all_text [] s t)) }
        ensures crash { Survives (state S.Store self.old) (state S.Store self.new) (λ _. ⊥) }
    {
        if !is_ready(&self.database) {
            return Err(ShelfFault::Store(StoreCause::Other));
        }
        all_ops(&mut self.database, self.alloc)
    }

    /// The records of the operations of the shelf, ascending by digest. Each operation is read and
    /// hashed once, to test its row, and let go before the next is read. They stand for the
    /// operations that are there.
    pub fn records(&mut self) -> Result<Vec<RecordedOp>, ShelfFault>
        ensures all { IfClean S.Store self.old self.new (λ s t.
            IfOk result (λ recorded. Records (rows_of s) recorded.items)) }
        ensures ascending { IfClean S.Store self.old self.new (λ s t.
            IfOk result (λ recorded. IsSorted digest_cmp (map own_entry recorded.items))) }
        ensures same { IfClean S.Store self.old self.new (λ s t. OnOk result (IsUnchanged s t)) }
        ensures refused { IfClean S.Store self.old self.new (λ s t. OnErr result (KeepsAll s t)) }

        // Each fault, only where it is.
        ensures bad_row { IfClean S.Store self.old self.new (λ s t.
            IsErrOf result ShelfFault.BadRow → HasBadRow (rows_of s)) }
        ensures store { IfClean S.Store self.old self.new (λ s t. IfStore result (λ why.
            IsUnready why s ⊎ IsNotShown why all_text [] s t)) }
        ensures crash { Survives (state S.Store self.old) (state S.Store self.new) (λ _. ⊥) }
    {
        if !is_ready(&self.database) {
            return Err(ShelfFault::Store(StoreCause::Other));
        }
        all_records(&mut self.database, self.alloc)
    }

    /// The operation of a digest, if one is there. Its row is looked up by the index of the digests
    /// and tested: whatever the disk returns, none of another digest is answered.
    pub fn load(&mut self, digest: &Digest) -> Result<Option<Digested>, ShelfFault>
        ensures told { IfOk result (λ found. IfSome found (λ op. digest_of op ≡ digest.now)) }
        ensures found { IfClean S.Store self.old self.new (λ s t. IfOk result (λ found.
            IfSome found (λ op. at_digest digest.now (rows_of s) ≡ entry_of op ∷ []))) }
        ensures lawful { IfOk result (λ found. IfSome found IsOp) }
        ensures none { IfClean S.Store self.old self.new (λ s t.
            result ≡ Ok None → at_digest digest.now (rows_of s) ≡ []) }
        ensures same { IfClean S.Store self.old self.new (λ s t. OnOk result (IsUnchanged s t)) }
        ensures refused { IfClean S.Store self.old self.new (λ s t. OnErr result (KeepsAll s t)) }

        // Each fault, only where it is.
        ensures bad_row { IfClean S.Store self.old self.new (λ s t.
            IsErrOf result ShelfFault.BadRow
            → AreAmiss digest.now (at_digest digest.now (rows_of s))) }
        ensures store { IfClean S.Store self.old self.new (λ s t.
            IfStore result (λ why. IsNotLoaded why digest.now s t)) }
        ensures crash { Survives (state S.Store self.old) (state S.Store self.new) (λ _. ⊥) }
    {
        if !is_ready(&self.database) {
            return Err(ShelfFault::Store(StoreCause::Other));
        }
        load_op(&mut self.database, self.alloc, digest)
    }

    /// The operation that is read under a digest, if a row is there. Nobody has hashed it: where
    /// the disk changed its bytes, and they still read as an operation, it is one of another
    /// digest.
    pub fn read(&mut self, digest: &Digest) -> Result<Option<Op>, ShelfFault>
        ensures found { IfClean S.Store self.old self.new (λ s t. IfOk result (λ found. IfSome found
            (λ op. at_digest digest.now (rows_of s) ≡ entry_under digest.now op ∷ []))) }
        ensures lawful { IfOk result (λ found. IfSome found IsOp) }
        ensures none { IfClean S.Store self.old self.new (λ s t.
            result ≡ Ok None → at_digest digest.now (rows_of s) ≡ []) }
        ensures same { IfClean S.Store self.old self.new (λ s t. OnOk result (IsUnchanged s t)) }
        ensures refused { IfClean S.Store self.old self.new (λ s t. OnErr result (KeepsAll s t)) }

        // Each fault, only where it is.
        ensures bad_row { IfClean S.Store self.old self.new (λ s t.
            IsErrOf result ShelfFault.BadRow
            → AreAmiss digest.now (at_digest digest.now (rows_of s))) }
        ensures store { IfClean S.Store self.old self.new (λ s t.
            IfStore result (λ why. IsNotLoaded why digest.now s t)) }
        ensures crash { Survives (state S.Store self.old) (state S.Store self.new) (λ _. ⊥) }
    {
        if !is_ready(&self.database) {
            return Err(ShelfFault::Store(StoreCause::Other));
        }
        read_op(&mut self.database, self.alloc, digest)
    }

    /// How many operations of a kind the table has.
    pub fn count_kind(&mut self, kind: u8) -> Result<u64, ShelfFault>
        ensures count { IfClean S.Store self.old self.new (λ s t.
            IfOk result (λ count. count ≡ count_of kind (rows_of s))) }
        ensures same { IfClean S.Store self.old self.new (λ s t. OnOk result (IsUnchanged s t)) }
        ensures refused { IfClean S.Store self.old self.new (λ s t. OnErr result (KeepsAll s t)) }
        ensures store { IfClean S.Store self.old self.new (λ s t. IfStore result (λ why.
            IsUnready why s ⊎ IsNotShown why kind_text (Int (pos kind) ∷ []) s t)) }
        ensures crash { Survives (state S.Store self.old) (state S.Store self.new) (λ _. ⊥) }
    {
        if !is_ready(&self.database) {
            return Err(ShelfFault::Store(StoreCause::Other));
        }
        let entries = kind_rows(&mut self.database, kind)?;
        Ok(entries.len() as u64)
    }
}
