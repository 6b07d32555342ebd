//! Which schemas are those of a shelf.

ghost use Rattle.std.specs.Prelude.{◌≡◌, ◌↔◌, ◌⊎◌, ◌∷◌, ◌+◌, [], true, false, codes, IsTrue};
ghost use Rattle.sqlite.specs.Collation.TheVariants.{Binary};
ghost use Rattle.sqlite.specs.declared.types.Value.TheVariants.{Null};
ghost use Rattle.op_shelf.specs.Table.{digest_column, kind_column, body_column, ops2, index_of, AreTrees, AreParts};
ghost use Rattle.op_shelf.specs.Table.{IsShelf, no_schema};
ghost use Rattle.op_shelf.specs.Older.{ops, ops_index, older_schema, AreOlderParts};

use sqlite_items::Items;
use sqlite_schema::schema::{Column, Index, Kind, Schema, Stamps, Table};
use sqlite_value::keys::{Collation, Order};
use sqlite_value::value::Value;

fn is_null(value: &Value) -> bool
    ensures { IsTrue result ↔ (value.now ≡ Null) }
{
    matches!(value, Value::Null)
}

fn is_column(column: &Column, name: &[u8], kind: Kind, not_null: bool) -> bool
    ensures { IsTrue result ↔ (column.now ≡ record {
      name = name.now;
      kind = kind;
      is_strict = false;
      not_null = not_null;
      default = Null;
      collation = Binary;
    }) }
{
    column.name.as_slice() == name
        && column.kind == kind
        && !column.is_strict
        && column.not_null == not_null
        && is_null(&column.default)
        && column.collation == Collation::Binary
}

fn are_columns(columns: &[Column]) -> bool
    ensures { IsTrue result ↔ (columns.now ≡ digest_column ∷ kind_column ∷ body_column ∷ []) }
{
    match columns {
        [digest, kind, body] => is_column(digest, b"digest", Kind::Text, false)
            && is_column(kind, b"kind", Kind::Integer, true)
            && is_column(body, b"body", Kind::Any, true),
        _ => false,
    }
}

fn has_no_stamps(stamps: &Stamps) -> bool
    ensures { IsTrue result ↔ (stamps.now ≡ record { places = []; terms = []; formats = [] }) }
{
    stamps.places.is_empty() && stamps.terms.roots.is_empty() && stamps.formats.is_empty()
}

fn are_keys(primary: &[usize]) -> bool
    ensures { IsTrue result ↔ (primary.now ≡ 1 ∷ []) }
{
    match primary {
        [1] => true,
        _ => false,
    }
}

fn are_uniques(uniques: &[Items<usize>]) -> bool
    ensures { IsTrue result ↔ (uniques.now ≡ (1 ∷ []) ∷ []) }
{
    match uniques {
        [only] => are_keys(only.as_slice()),
        _ => false,
    }
}

fn is_plain(order: Order) -> bool
    ensures { IsTrue result ↔ (order ≡ record { digits = 0 }) }
{
    order.digits == 0
}

fn are_orders(orders: &[Order]) -> bool
    ensures { IsTrue result ↔ (orders.now ≡ (record { digits = 0 }) ∷ []) }
{
    match orders {
        [only] => is_plain(*only),
        _ => false,
    }
}

fn is_table(table: &Table) -> bool
    ensures { IsTrue result ↔ (table.now ≡ ops2 table.now.tree table.now.checks) }
{
    table.name.as_slice() == b"ops2".as_slice()
        && are_columns(table.columns.as_slice())
        && table.key.is_none()
        && are_keys(table.primary.as_slice())
        && are_uniques(table.uniques.as_slice())
        && are_orders(table.orders.as_slice())
        && table.references.is_empty()
        && table.computed.is_empty()
        && has_no_stamps(&table.stamps)
        && !table.is_counted
}

fn is_index(index: &Index) -> bool
    ensures { IsTrue result ↔ (index.now ≡ index_of index.now) }
{
    index.name.as_slice() == b"sqlite_autoindex_ops2_1".as_slice()
        && are_keys(index.columns.as_slice())
        && is_plain(index.order)
        && index.is_unique
}

fn have_trees(table: &Table, index: &Index) -> bool
    ensures { IsTrue result ↔ AreTrees table.now.tree index.now }
{
    match (table.tree, index.tree, index.table) {
        (0, 1, 0) | (2, 3, 2) => true,
        _ => false,
    }
}

/// Whether these are the parts of a schema of a shelf.
fn are_parts(schema: &Schema, table: &Table, index: &Index) -> bool
    ensures { IsTrue result ↔ AreParts schema.now table.now index.now }
{
    if !schema.views.is_empty() {
        return false;
    }
    if !is_table(table) {
        return false;
    }
    if !is_index(index) {
        return false;
    }
    have_trees(table, index)
}

/// Whether a schema is that of a shelf. Of the table's CHECK nothing is asked.
pub(crate) fn is_shelf(schema: &Schema) -> bool
    ensures { IsTrue result ↔ IsShelf schema.now }
{
    match (schema.tables.as_slice(), schema.indexes.as_slice()) {
        ([table], [index]) => are_parts(schema, table, index),
        _ => false,
    }
}

/// Whether a schema has nothing.
pub(crate) fn is_bare(schema: &Schema) -> bool
    ensures { IsTrue result ↔ (schema.now ≡ no_schema) }
{
    schema.tables.is_empty() && schema.indexes.is_empty() && schema.views.is_empty()
}

fn are_older_columns(columns: &[Column]) -> bool
    ensures { IsTrue result ↔ (columns.now ≡ digest_column ∷ body_column ∷ []) }
{
    match columns {
        [digest, body] => is_column(digest, b"digest", Kind::Text, false)
            && is_column(body, b"body", Kind::Any, true),
        _ => false,
    }
}

fn is_older_table(table: &Table) -> bool
    ensures { IsTrue result ↔ (table.now ≡ ops) }
{
    table.name.as_slice() == b"ops".as_slice()
        && table.tree == 0
        && are_older_columns(table.columns.as_slice())
        && table.key.is_none()
        && are_keys(table.primary.as_slice())
        && are_uniques(table.uniques.as_slice())
        && are_orders(table.orders.as_slice())
        && table.checks.roots.is_empty()
        && table.references.is_empty()
        && table.computed.is_empty()
        && has_no_stamps(&table.stamps)
        && !table.is_counted
}

fn is_older_index(index: &Index) -> bool
    ensures { IsTrue result ↔ (index.now ≡ ops_index) }
{
    index.name.as_slice() == b"sqlite_autoindex_ops_1".as_slice()
        && index.tree == 1
        && index.table == 0
        && are_keys(index.columns.as_slice())
        && is_plain(index.order)
        && index.is_unique
}

fn are_older_parts(schema: &Schema, table: &Table, index: &Index) -> bool
    ensures { IsTrue result ↔ AreOlderParts schema.now table.now index.now }
{
    schema.views.is_empty() && is_older_table(table) && is_older_index(index)
}

/// Whether a schema has the older table alone.
pub(crate) fn is_older(schema: &Schema) -> bool
    ensures { IsTrue result ↔ (schema.now ≡ older_schema) }
{
    match (schema.tables.as_slice(), schema.indexes.as_slice()) {
        ([table], [index]) => are_older_parts(schema, table, index),
        _ => false,
    }
}
