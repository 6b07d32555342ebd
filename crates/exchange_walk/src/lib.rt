//! What a site answers to a WALK, and what a whole walk finds.
//!
//! A caller says the sums of the root's children. Each side answers the splits that it heard: for
//! each child whose own sum is another it says an entry, a place where it holds few digests there,
//! or a split. A walk without splits is the last; its places, and those before, are where the two
//! sets differ. Values come in and values go out: nothing here reads a socket.
#![tactic(auto)]

mod answering;
mod answers;
mod hearing;
mod laws;
mod numbers;
mod splits;
mod summed;

pub use answering::{answer, root};
pub use answers::Answer;
pub use hearing::is_answer_to;
pub use laws::{
    a_site_tells_its_own_sums, a_walk_ends, a_whole_walk_finds_what_one_lacks,
    an_answer_finds_what_one_lacks, entries_lie_beneath_what_was_told,
};
pub use numbers::largest_place_is_this;
pub use splits::{has_splits, places};
pub use summed::LARGEST_PLACE;
