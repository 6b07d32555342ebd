//! Reads files of groups in the older form, and copies them into logs of groups.
//!
//! The file has, for each group in order, and numbers low byte first: a gate, one byte, which is 1
//! where the group counts; the length of the group, eight bytes; the SHA-256 (FIPS 180-4) of the
//! group, 32 bytes; the group. The groups end at the first gate that is not 1. Nothing is written
//! in this form. What the clauses say of groups that are read they say if nobody else writes the
//! file and the disk returns what was written.
#![tactic(auto)]

mod hiding;
mod laws;
mod log;
mod reading;
mod renewing;
mod text;
mod walk;

pub use laws::{
    a_file_of_groups_is_not_cut, a_short_file_has_no_group, groups_are_read_in_order,
    no_group_is_read_behind_the_last, the_two_forms_are_told_apart,
};
pub use log::{OlderHeads, is_older};
pub use renewing::{RenewFault, renew};
