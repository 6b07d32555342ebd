//! What a look takes of a site for the rows of a table.

ghost use Rattle.std.specs.Prelude.{◌≡◌, IfOk};
ghost use Rattle.site_state.specs.Site.{ops_of};
ghost use Rattle.site_tables.specs.Tables.{IsTable, rows_of_taken};

use crate::conflicts::{Flagged, rows_of_conflicts, take_conflicts};
use crate::corrections::{Stamped, rows_of_corrections, take_corrections};
use crate::rejected::{rows_of_notes, take_notes};
use crate::studies::{TakenStudies, rows_of_studies, take_studies};
use crate::table::{Row, Table};
use octets::ListOf;
use records::RecordedContent;
use site_state::Site;
use std::alloc::{AllocError, Global};

/// What is taken of a site for the rows of a table: second owners of what the table concerns, and
/// what the site says of each. No cell is written for it, and no data set is hashed.
#[derive(Drop)]
pub enum TakenTable {
    Conflicts(ListOf<Flagged>),
    Rejected(ListOf<RecordedContent>),
    Corrections(ListOf<Stamped>),
    Studies(TakenStudies),
}

impl TakenTable {
    /// Takes what a table concerns.
    #[tactic(auto, using(crate::proofs::StudyLaws::taken_are))]
    pub fn of(alloc: Global, site: &Site, table: Table) -> Result<TakenTable, AllocError>
        ensures { IfOk result (λ taken. IsTable table (ops_of site.now) (rows_of_taken taken)) }
    {
        match table {
            Table::Conflicts => {
                let found = take_conflicts(alloc, site)?;
                Ok(TakenTable::Conflicts(ListOf::of(found)))
            }
            Table::Rejected => {
                let notes = take_notes(alloc, site)?;
                Ok(TakenTable::Rejected(ListOf::of(notes)))
            }
            Table::Corrections => {
                let found = take_corrections(alloc, site)?;
                Ok(TakenTable::Corrections(ListOf::of(found)))
            }
            Table::Studies => {
                let taken = take_studies(alloc, site)?;
                Ok(TakenTable::Studies(taken))
            }
        }
    }

    /// The rows, without the site.
    pub fn rows(&self, alloc: Global) -> Result<Vec<Row>, AllocError>
        ensures { IfOk result (λ rows. rows.items ≡ rows_of_taken self.now) }
    {
        match self {
            TakenTable::Conflicts(found) => rows_of_conflicts(alloc, found.as_slice()),
            TakenTable::Rejected(notes) => rows_of_notes(alloc, notes.as_slice()),
            TakenTable::Corrections(found) => rows_of_corrections(alloc, found.as_slice()),
            TakenTable::Studies(taken) => rows_of_studies(alloc, taken),
        }
    }
}
