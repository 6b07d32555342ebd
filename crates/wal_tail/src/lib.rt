//! What a write-ahead log has behind its end (SQLite's database file format, section 4).
//!
//! A log ends before its first frame that is not valid, by SQLite's rule without a word. Whether
//! frames of the log's own stand there, which a crash leaves of one transaction at most, is told
//! here from its bytes alone. Nothing is written, and any bytes may come.
#![tactic(auto)]

mod frames;
mod header;
mod numbers;
mod tail;

pub use header::is_header_lost;
pub use tail::{Lost, lost_behind};
