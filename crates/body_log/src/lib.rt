//! Bodies in one file, one behind the other, which a crash does not lose.
//!
//! A file that only grows, over the kit's `sqlite_disk`. Nothing below its end is written again.
//! What its clauses say of bytes that are read they say if nobody else writes the file and the
//! disk returns what was written.
#![tactic(auto)]

mod fault;
mod laws;
mod log;
mod refused;

pub use fault::BodyFault;
pub use laws::what_lasts_goes_on_to_last;
pub use log::BodyLog;
pub use refused::Refused;
