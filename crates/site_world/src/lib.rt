//! Several sites and the steps between them.
//!
//! Sites tell each other what they hold by messages, which stay deliverable for ever; what each
//! message leads to is `specs/Messages.antt`.
#![tactic(auto)]

mod fault;
mod headline;
mod looking;
mod message;
mod step;
mod world;

pub use fault::WorldFault;
pub use headline::{
    a_finished_round_gives_all, order_is_free, rounds_each_way_make_equal,
    what_is_rejected_is_in_no_row, what_is_told_to_be_one_is_one,
};
pub use step::{Seen, Step};
pub use world::{MOST_SITES, World};
