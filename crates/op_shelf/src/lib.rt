//! Operations on disk, which a crash does not lose.
//!
//! A shelf is a table of operations over the kit's `sqlite`, in its write-ahead log, with a sync at
//! every commit. What its clauses say of values they say if nobody else writes the file and the
//! disk returns what was written.
#![tactic(auto)]

mod clearing;
mod damaged;
mod fault;
mod group;
mod keep;
mod kept;
mod loading;
mod migration;
mod open;
mod order;
mod readable;
mod rows;
mod schema;
mod shelf;
mod statements;
mod table;
mod verifying;
mod walk;

pub use damaged::{Damaged, Testing, Verified};
pub use fault::{ShelfFault, StoreCause};
pub use keep::Keep;
pub use kept::Kept;
pub use open::make_ready;
pub use readable::Readable;
pub use shelf::Shelf;
pub use walk::limits_are_these;
