//! The sums of a tree of 16 over a set of digests, by which two sites find what one of them lacks.
//!
//! A node is a list of hexadecimal digits, one in a byte, each below 16; a digest lies beneath it
//! where its 64 digits begin with them. Each node has a sum. Two sites compare the sums of a node's
//! 16 children, and walk on where they are unequal. The sums of the nodes of four digits, the
//! places, are kept: those above are made of them, and those below of the digests of their range.
#![tactic(auto)]

mod comparing;
mod kept_sums;
mod laws;
mod nodes;
mod numbers;
mod ranges;
mod sums;

pub use comparing::differing;
pub use kept_sums::KeptSums;
pub use laws::{
    a_digest_is_beneath_one_child, a_digest_is_taken_in_its_place, a_step_finds_what_one_lacks,
    equal_digests_meet_the_premise_of_nodes, texts_that_are_told_apart_meet_the_premise_of_nodes,
};
pub use nodes::{CHILD_COUNT, DEEPEST, KEPT_DEPTH, PLACE_COUNT, place_of_digest};
pub use numbers::limits_of_nodes_are_these;
pub use ranges::count_beneath;
pub use sums::{children, sum};
