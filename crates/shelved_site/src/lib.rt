//! A site whose operations stand in a store, which is a shelf or a log: what the store makes of the
//! site at a start, the report of both, corrections, which the site stamps and the store then
//! keeps, what a shelf and a log have in common, and the way from one into another.
//!
//! Nothing here opens a file: each call takes the store that its caller opened.
#![tactic(auto)]

mod correcting;
mod fault;
mod fingerprinting;
mod keeping;
mod known;
mod laws;
mod log_records;
mod log_store;
mod moving;
mod reading;
mod reporting;
mod shelf;
mod store;
mod taking;
mod telling;
mod unreadable;
mod verifying;

pub use correcting::{Corrected, correct_on, correct_with};
pub use fault::ShelvedFault;
pub use fingerprinting::{equal_sets_have_equal_fingerprints, fingerprint};
pub use keeping::KeptLog;
pub use laws::{records_tell_of_their_operations, the_same_puts_keep_the_same, what_lasts_is_left};
pub use log_records::{hub_on_log, site_on_log};
pub use moving::{Following, MoveFault, Moved, move_all};
pub use reporting::{Report, report_on, report_with, table_on};
pub use store::Store;
pub use taking::{Asked, Begun, Hearing, Sited, hub_on, site_of, site_on};
pub use telling::fault as shelf_fault;
pub use unreadable::{Readable, Unreadable};
