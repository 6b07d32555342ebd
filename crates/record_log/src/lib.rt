//! The records of contents in one file, so that a start need not read their data sets.
//!
//! The file is a hint: whoever needs the contents themselves has them elsewhere. It has groups,
//! each behind its sum, and a group has the entries of contents that are no rejection notes, one
//! behind the other. What the clauses say of records that are read they say if nobody else writes
//! the file and the disk returns what was written.
#![tactic(auto)]

mod adding;
mod entries;
mod laws;
mod log;
mod opening;
mod reading;

pub use adding::add_told;
pub use laws::{what_a_file_stands_for_is_kept, what_is_kept_is_told};
pub use log::RecordLog;
pub use opening::{Told, open_told};
pub use reading::all_told;
