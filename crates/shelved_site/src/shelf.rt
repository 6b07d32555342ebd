//! A shelf as an archive's store.

ghost use Rattle.std.specs.Prelude.{◌≡◌, map, IfOk, IfErr};
ghost use Rattle.shelved_site.specs.Readable.{unread_in};

use crate::store::Store;
use crate::unreadable::{Readable, of_rows};
use op_shelf::{Keep, Kept, Shelf, ShelfFault, Testing, Verified};
use operation::{Digested, Op};
use records::RecordedOp;
use sqlite::Alter;

/// What can be read of a shelf, and what is told of its other rows.
fn told_of_rows(told: op_shelf::Readable) -> Result<Readable, ShelfFault>
    ensures told { IfOk result (λ found. (found.recorded.items ≡ told.recorded.items)
        × (found.unreadable.items ≡ map unread_in told.unreadable.items)) }
    ensures memory { IfErr result (λ fault. fault ≡ ShelfFault.Memory) }
{
    let op_shelf::Readable {
        recorded,
        unreadable,
    } = told;
    let alloc = *unreadable.allocator();
    Ok(Readable {
        recorded,
        unreadable: of_rows(alloc, unreadable)?,
    })
}

impl<S: Alter> Store for Shelf<S> {
    ghost use Rattle.sqlite.specs.Held.{state};
    ghost use Rattle.sqlite.specs.State.{HasCleanDisk, IsUnchanged};
    ghost use Rattle.sqlite.specs.Tree.{Trees};
    ghost use Rattle.op_shelf.specs.Damage.{AreVerified};
    ghost use Rattle.op_shelf.specs.Entries.{Holds};
    ghost use Rattle.op_shelf.specs.States.{KeepsAll, count_of, rows_left, rows_of, tree_in};
    ghost use Rattle.std.proofs.Common.{ap, subst, sym, ◌∙◌};
    ghost use Rattle.sqlite.specs.Effect.{Database};
    ghost use Rattle.shelved_site.specs.declared.unreadable.Unreadable.{Unreadable as Unread};
    ghost use Rattle.shelved_site.specs.Proved.Shelves.{alike_in, shows_in};
    ghost use Rattle.shelved_site.specs.Readable.{ShowsRows};
    ghost use Rattle.shelved_site.specs.Refusing.{ShelfRefusesAll, ShelfRefusesCount};

    ghost is_clean = { λ s. HasCleanDisk (state S.Store s) };

    ghost shows = { λ s told ops. ShowsRows (rows_of (state S.Store s)) told ops };

    ghost reads = { λ s t told ops. ShowsRows (rows_of (state S.Store s)) told ops };

    ghost count = { λ s kind. count_of kind (rows_of (state S.Store s)) };

    ghost verifies = { λ s t count told. AreVerified (rows_of (state S.Store s)) count told };

    ghost is_same = { λ s t. IsUnchanged (state S.Store s) (state S.Store t) };

    ghost spares = { λ s t. KeepsAll (state S.Store s) (state S.Store t) };

    ghost is_left = { λ s op. (trees : Trees) → (state S.Store s).may_leave trees
        → Holds (rows_left (state S.Store s) trees) op };

    ghost refuses_all = { λ s t fault.
        ShelfRefusesAll (state S.Store s) (state S.Store t) fault };

    ghost refuses_count = { λ s kind t fault.
        ShelfRefusesCount (state S.Store s) kind (state S.Store t) fault };

    ghost alike = { λ s a b same held. alike_in _ a b same held };

    ghost read_shows = { λ s t told ops read. read };

    ghost found_shows = { λ s told ops others shown found.
        shows_in _ told ops others shown found };

    ghost memory_refuses = { λ s t digest. tt };

    ghost same_spared = { λ s t same opens. (same.0.was_open, same.0.now_is) };

    ghost same_spares = { λ s t u same spared opens.
        (same.0.was_open, (spared opens).1 ∙ same.0.now_is) };

    ghost same_same = { λ s t u one two. (
      record {
        was_open = one.0.was_open;
        is_open = two.0.is_open;
        now_is = two.0.now_is ∙ one.0.now_is;
        committed_is = two.0.committed_is ∙ one.0.committed_is;
        mode = two.0.mode ∙ one.0.mode;
      },
      record {
        changes = two.1.changes ∙ one.1.changes;
        last_rowid = two.1.last_rowid ∙ one.1.last_rowid;
      },
      two.2 ∙ one.2,
    ) };

    ghost same_shows = { λ s t same told ops shown. subst
        (λ (d : Database). ShowsRows (d.trees (tree_in d.schema)) told ops)
        (sym same.0.now_is) shown };

    ghost same_count = { λ s t same kind.
        ap (λ (d : Database). count_of kind (d.trees (tree_in d.schema))) same.0.now_is };

    fn readable(&mut self) -> Result<Readable, ShelfFault> {
        match Shelf::readable(self) {
            Ok(told) => told_of_rows(told),
            Err(fault) => Err(fault),
        }
    }

    fn load_recorded(&mut self, recorded: &RecordedOp) -> Result<Digested, ShelfFault> {
        match Shelf::load(self, recorded.digest()) {
            Ok(Some(op)) => Ok(op),
            Ok(None) => Err(ShelfFault::BadRow),
            Err(fault) => Err(fault),
        }
    }

    fn count_kind(&mut self, kind: u8) -> Result<u64, ShelfFault> {
        Shelf::count_kind(self, kind)
    }

    fn verify<T: Testing>(&mut self, hearing: &T) -> Result<Verified, ShelfFault> {
        Shelf::verify(self, hearing)
    }

    fn add(&mut self, op: &Op) -> Result<Kept, ShelfFault> {
        Shelf::put(self, op)
    }
}
