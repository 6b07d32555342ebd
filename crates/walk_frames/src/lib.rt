//! The frame WALK: what two sites tell each other of a tree of sums over the digests that they
//! hold. Its body is read and written here.
//!
//! A node is a front of a digest, in hexadecimal digits; its sum is of the digests that begin so. A
//! walk has an entry for each node at which the sums of two sites differ: a place, which is split
//! no further, or a split, with the sums of the node's 16 children. The entries ascend strictly, and
//! none lies within another. Bytes come in and values go out: nothing here reads a socket. What
//! reads and what writes cite one spelling.
#![tactic(auto)]

mod entry;
mod laws;
mod node;
mod numbers;
mod reader;
mod sums;
mod walk;
mod writer;

pub use entry::Entry;
pub use laws::{
    a_walk_is_spelled_so, no_walk_is_longer, none_lies_within_another,
    what_is_written_is_read_again,
};
pub use node::{CHILDREN, MOST_DIGITS, Node};
pub use numbers::{a_body_is_short_enough, limits_are_these};
pub use reader::{a_text_spells_one_walk, read_walk};
pub use sums::Sums;
pub use walk::{LONGEST_WALK, MOST_ENTRIES, WALK, Walk};
pub use writer::write_walk;
