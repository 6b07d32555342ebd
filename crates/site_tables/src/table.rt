//! The tables by name.

ghost use Rattle.std.specs.Prelude.{◌≡◌, IfOk, map};
ghost use Rattle.site_state.specs.Site.{ops_of};
ghost use Rattle.site_tables.specs.Tables.{heading_of, IsTable};

use crate::taken::TakenTable;
use octets::{ListOf, Octets};
use site_state::Site;
use std::alloc::{AllocError, Global};

/// The texts of the cells of a row.
pub type Row = ListOf<Octets>;

/// What a table tells of a site.
#[derive(Clone, Copy, Debug, PartialEq, Eq)]
pub enum Table {
    /// The contents of each flagged UID.
    Conflicts,
    /// What notes name.
    Rejected,
    Corrections,
    Studies,
}

impl Table {
    /// What stands above the columns.
    pub fn heading(self) -> &'static [&'static str]
        ensures { map (λ word. word.now) result.now ≡ heading_of self }
    {
        match self {
            Table::Conflicts => &["INSTANCE", "DIGEST", "BYTES", "STUDY", "PICK"],
            Table::Rejected => &["INSTANCE", "TITLES", "NOTES"],
            Table::Corrections => &["TARGET", "KEY", "TAG", "VALUE", "COUNTER", "SITE", "COUNTS"],
            Table::Studies => &[
                "STUDY",
                "PATIENT",
                "NAME",
                "DATE",
                "SERIES",
                "INSTANCES",
                "REJECTED",
            ],
        }
    }
}

/// The rows of a table.
pub fn rows_of_table(alloc: Global, site: &Site, table: Table) -> Result<Vec<Row>, AllocError>
    ensures { IfOk result (λ rows. IsTable table (ops_of site.now) rows.items) }
{
    let taken = TakenTable::of(alloc, site, table)?;
    taken.rows(alloc)
}
