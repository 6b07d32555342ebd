//! What an operator asks of a site, as tables: the contents of each flagged UID, what notes reject,
//! the corrections, and the studies.
//!
//! A row is the texts of its cells. Each table is written in `specs/` from the operations alone, so
//! sites that hold the same have the same tables. As text a table is aligned for a terminal, or has
//! tab-separated values.
#![tactic(auto)]

mod aligned;
mod cells;
mod conflicts;
mod copies;
mod corrections;
mod laws;
mod rejected;
mod separated;
mod studies;
mod study;
mod study_facts;
mod table;
mod taken;
mod under;

pub use aligned::align;
pub use laws::{a_study_is_told_as_it_is_found, the_rejected_are_what_is_covered};
pub use rejected::{rows_of_uids, take_notes};
pub use separated::separate;
pub use studies::TakenStudies;
pub use study::TakenStudy;
pub use study_facts::StudyFacts;
pub use table::{Row, Table, rows_of_table};
pub use taken::TakenTable;
