//! A put into the table, over any connection.

ghost use Rattle.std.specs.Prelude.{◌≡◌, ◌↔◌, ◌∷◌, [], true, false, All, Ok, IsErrOf, IsTrue, OnOk, OnErr};
ghost use Rattle.sqlite.specs.declared.types.Value.TheVariants.{Text};
ghost use Rattle.sqlite.specs.Held.{state};
ghost use Rattle.sqlite.specs.State.{IsUnchanged, Survives};
ghost use Rattle.op_shelf.specs.Entries.{IsWhole, entry_by};
ghost use Rattle.op_shelf.specs.Fault.{IfStore};
ghost use Rattle.op_shelf.specs.Migration.{IsOlder};
ghost use Rattle.op_shelf.specs.Putting.{PutsEntry};
ghost use Rattle.op_shelf.specs.States.{IfClean, IsBare, IsReady, IsKnown, HasOther, Spares, IsNotShown, under, rows_of};
ghost use Rattle.op_shelf.specs.Table.{IsShelf};
ghost use Rattle.op_shelf.specs.Texts.{held_text};

use crate::fault::{ShelfFault, StoreCause};
use crate::group::replace_alone;
use crate::kept::Kept;
use crate::rows::find_in;
use crate::schema::{is_bare, is_older, is_shelf};
use crate::statements::held_rows;
use sqlite::{Alter, Connection};
use std::alloc::Global;

/// Whether the table stands alone and no transaction is open. A failure of the disk may have closed
/// the database, and then nothing is known of its schema.
pub(crate) fn is_ready<S: Alter>(database: &Connection<S>) -> bool
    ensures { IsTrue result ↔ IsReady (state S.Store database.now) }
{
    is_shelf(database.schema()) && database.is_autocommit()
}

/// Whether no table is there and no transaction is open.
pub(crate) fn is_blank<S: Alter>(database: &Connection<S>) -> bool
    ensures { IsTrue result ↔ IsBare (state S.Store database.now) }
{
    is_bare(database.schema()) && database.is_autocommit()
}

/// Whether the older table stands alone, and no transaction is open.
pub(crate) fn is_aged<S: Alter>(database: &Connection<S>) -> bool
    ensures { IsTrue result ↔ IsOlder (state S.Store database.now) }
{
    is_older(database.schema()) && database.is_autocommit()
}

/// Whether an entry is there.
fn find<S: Alter>(
    database: &mut Connection<S>,
    alloc: Global,
    digest: &str,
    body: &[u8],
) -> Result<bool, ShelfFault>
    requires shelf { IsShelf (state S.Store database.old).now.schema }
    ensures spoiled { IfClean S.Store database.old database.new (λ s t.
        result ≡ Ok false → All (λ e. ¬ IsWhole e) (under digest.now (rows_of s))) }
    ensures known { IfClean S.Store database.old database.new (λ s t.
        result ≡ Ok true → IsKnown s t digest.now (entry_by digest.now body.now)) }
    ensures other { IfClean S.Store database.old database.new (λ s t.
        IsErrOf result ShelfFault.BadRow
        → HasOther (rows_of s) digest.now (entry_by digest.now body.now)) }
    ensures same { IfClean S.Store database.old database.new (λ s t.
        OnOk result (IsUnchanged s t)) }
    ensures refused { IfClean S.Store database.old database.new (λ s t. OnErr result (Spares s t)) }
    ensures mode { (state S.Store database.old).in_transaction ≡ false
        → (state S.Store database.new).in_transaction ≡ false }
    ensures store { IfClean S.Store database.old database.new (λ s t.
        IfStore result (λ why. IsNotShown why held_text (Text digest.now ∷ []) s t)) }
    ensures crash { Survives (state S.Store database.old) (state S.Store database.new) (λ _. ⊥) }
{
    let held = held_rows(database, digest)?;
    find_in(alloc, &held, digest.as_bytes(), body)
}

/// Puts an entry where none that has the bytes of its digest is there.
pub(crate) fn put_entry<S: Alter>(
    database: &mut Connection<S>,
    alloc: Global,
    digest: &str,
    body: &[u8],
) -> Result<Kept, ShelfFault>
    ensures { PutsEntry S.Store database.old database.new digest.now
        (entry_by digest.now body.now) result }
{
    if !is_ready(database) {
        return Err(ShelfFault::Store(StoreCause::Other));
    }
    if find(database, alloc, digest, body)? {
        return Ok(Kept::Known);
    }
    replace_alone(database, digest.as_bytes(), body)?;
    Ok(Kept::New)
}
