//! The statements on the table. Each function makes one call of the database.

ghost use Rattle.std.specs.Prelude.{◌≡◌, ◌∷◌, [], pos, length, false, IfOk, IfErr, OnOk, OnErr, Err, IsPermutation};
ghost use Rattle.sqlite.specs.declared.types.Value.TheVariants.{Int, Text};
ghost use Rattle.sqlite.specs.Given.{IsPlain};
ghost use Rattle.sqlite.specs.Held.{state};
ghost use Rattle.sqlite.specs.Listing.{understood};
ghost use Rattle.sqlite.specs.State.{HasCleanDisk, IsUnchanged, Survives, Shown, FailsToQuery, Executes};
ghost use Rattle.sqlite.specs.Values.{bound};
ghost use Rattle.op_shelf.specs.Older.{older_schema, pairs};
ghost use Rattle.op_shelf.specs.States.{rows_of, IfClean, Spares, under, count_of, IsBare, IsMade};
ghost use Rattle.op_shelf.specs.Table.{IsShelf};
ghost use Rattle.op_shelf.specs.Texts.{create_text, held_text, kind_text, older_text};

use sqlite::types::ValueRef;
use sqlite::{Alter, Connection, Error, Row, params};

/// The rows that a text shows which writes nothing.
fn select<S: Alter>(
    database: &mut Connection<S>,
    text: &str,
    values: &[ValueRef<'_>],
) -> Result<Vec<Row>, Error>
    requires plain { IsPlain (understood (state S.Store database.old).now.schema text.now) }
    ensures shown { IfClean S.Store database.old database.new (λ s t.
        IfOk result (λ rows. Shown text.now (bound values.now) s t rows.items)) }
    ensures same { IfClean S.Store database.old database.new (λ s t.
        OnOk result (IsUnchanged s t)) }
    ensures refused { IfClean S.Store database.old database.new (λ s t. OnErr result (Spares s t)) }
    ensures cause { IfClean S.Store database.old database.new (λ s t.
        IfErr result (FailsToQuery text.now (bound values.now) s t)) }
    ensures mode { (state S.Store database.old).in_transaction ≡ false
        → (state S.Store database.new).in_transaction ≡ false }
    ensures crash { Survives (state S.Store database.old) (state S.Store database.new) (λ _. ⊥) }
{
    database.query_all(text, values)
}

/// The rows of the older table, each a digest's text and bytes.
pub(crate) fn older_rows<S: Alter>(database: &mut Connection<S>) -> Result<Vec<Row>, Error>
    requires older { (state S.Store database.old).now.schema ≡ older_schema }
    ensures rows { IfClean S.Store database.old database.new (λ s t.
        IfOk result (λ rows. IsPermutation (pairs (s.now.trees 0)) rows.items)) }
    ensures same { IfClean S.Store database.old database.new (λ s t.
        OnOk result (IsUnchanged s t)) }
    ensures refused { IfClean S.Store database.old database.new (λ s t. OnErr result (Spares s t)) }
    ensures cause { IfClean S.Store database.old database.new (λ s t.
        IfErr result (FailsToQuery older_text [] s t)) }
    ensures mode { (state S.Store database.old).in_transaction ≡ false
        → (state S.Store database.new).in_transaction ≡ false }
    ensures crash { Survives (state S.Store database.old) (state S.Store database.new) (λ _. ⊥) }
{
    select(database, "SELECT digest, body FROM ops", &[])
}

/// The entries under a digest.
pub(crate) fn held_rows<S: Alter>(
    database: &mut Connection<S>,
    digest: &str,
) -> Result<Vec<Row>, Error>
    requires shelf { IsShelf (state S.Store database.old).now.schema }
    ensures rows { IfClean S.Store database.old database.new (λ s t.
        IfOk result (λ rows. IsPermutation (under digest.now (rows_of s)) rows.items)) }
    ensures same { IfClean S.Store database.old database.new (λ s t.
        OnOk result (IsUnchanged s t)) }
    ensures refused { IfClean S.Store database.old database.new (λ s t. OnErr result (Spares s t)) }
    ensures cause { IfClean S.Store database.old database.new (λ s t.
        IfErr result (FailsToQuery held_text (Text digest.now ∷ []) s t)) }
    ensures mode { (state S.Store database.old).in_transaction ≡ false
        → (state S.Store database.new).in_transaction ≡ false }
    ensures crash { Survives (state S.Store database.old) (state S.Store database.new) (λ _. ⊥) }
{
    select(
        database,
        "SELECT digest, kind, body FROM ops2 WHERE digest = ?1",
        params![digest],
    )
}

/// As many rows as there are entries of a kind.
pub(crate) fn kind_rows<S: Alter>(database: &mut Connection<S>, kind: u8) -> Result<Vec<Row>, Error>
    requires shelf { IsShelf (state S.Store database.old).now.schema }
    ensures count { IfClean S.Store database.old database.new (λ s t.
        IfOk result (λ rows. length rows.items ≡ count_of kind (rows_of s))) }
    ensures same { IfClean S.Store database.old database.new (λ s t.
        OnOk result (IsUnchanged s t)) }
    ensures refused { IfClean S.Store database.old database.new (λ s t. OnErr result (Spares s t)) }
    ensures cause { IfClean S.Store database.old database.new (λ s t.
        IfErr result (FailsToQuery kind_text (Int (pos kind) ∷ []) s t)) }
    ensures crash { Survives (state S.Store database.old) (state S.Store database.new) (λ _. ⊥) }
{
    select(
        database,
        "SELECT kind FROM ops2 WHERE kind = ?1",
        params![u32::from(kind)],
    )
}

/// Makes the table in an empty database, and commits it.
pub(crate) fn create<S: Alter>(database: &mut Connection<S>) -> Result<usize, Error>
    requires bare { IsBare (state S.Store database.old) }
    ensures made { IfClean S.Store database.old database.new (λ s t. OnOk result (IsMade s t)) }
    ensures refused { IfClean S.Store database.old database.new (λ s t. OnErr result (Spares s t)) }
    ensures cause { IfClean S.Store database.old database.new (λ s t.
        IfErr result (λ e. Executes create_text [] s t (Err e))) }
    ensures crash { Survives (state S.Store database.old) (state S.Store database.new) (λ trees.
        trees 0 ≡ []) }
{
    database.execute(
        "CREATE TABLE ops2 (digest TEXT PRIMARY KEY, kind INTEGER NOT NULL, body BLOB NOT NULL)",
        &[],
    )
}
