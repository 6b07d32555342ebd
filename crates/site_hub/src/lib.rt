//! A running site: one writer, and many readers that wait for nobody.
//!
//! A site is kept in two copies (`left_right`). The keeper adds operations at the back of one
//! history and publishes; a pass looks at what is published, takes no lock, and never sees less
//! than it has seen before. The history itself is in the proofs alone: what is published knows
//! which beginning of it it stands for (docs/DECISIONS.md, "Where the history of a hub lives").
#![tactic(auto)]

mod book;
mod closing;
mod correcting;
mod entry;
mod fault;
mod keeper;
mod laws;
mod looking;
mod numbers;
mod opened;
mod pair;
mod pass;
mod questions;
mod refusals;
mod shared;
mod snapshot;
mod told;

pub use book::{Front, HubName};
pub use closing::{CloseFault, close};
pub use correcting::next_correction;
pub use entry::{Entry, Log, Logged};
pub use fault::HubFault;
pub use keeper::Keeper;
pub use laws::{counters_of_corrections_rise, running_sites_that_hold_the_same_answer_alike};
pub use looking::Question;
pub use numbers::limits_are_these;
pub use opened::{Opened, open};
pub use pair::Shows;
pub use pass::Pass;
pub use shared::{correct, store};
pub use snapshot::{Item, Snapshot};
pub use told::Told;
