//! Groups of heads in one file, one behind the other: a crash leaves a group whole or not at all.
//!
//! The file has, for each group in order, and numbers low byte first:
//!
//! - a gate of eight bytes, which says whether the group counts;
//! - the length of the group, eight bytes;
//! - the SHA-256 (FIPS 180-4) of the sum of the group before it, and of the group: 32 bytes. In
//!   place of the sum before the first group stand 32 zeros;
//! - the group.
//!
//! The groups end at the first gate that is shut: at most 16 of its 64 bits are none of those of a
//! shut gate. A gate is opened when its group is on the disk. Each bit of an open gate is another
//! than that of a shut one, so a changed bit, or a gate that a crash tore, shuts none. Where a gate
//! is not shut and no whole group stands behind it, the file is damaged there. As each sum takes in
//! the one before it, no group can be put in the place of another.
//!
//! What the clauses say of groups that are read they say if nobody else writes the file and the
//! disk returns what was written.
#![tactic(auto)]

mod adding;
mod fault;
mod found;
mod gate;
mod laws;
mod log;
mod reading;
mod refused;
mod text;
mod walk;

pub use fault::HeadFault;
pub use found::Found;
pub use gate::Gate;
pub use laws::{
    a_file_of_groups_is_not_cut, gates_are_told_apart, groups_are_read_in_order,
    groups_up_to_the_end_are_all, no_group_is_read_behind_the_last, what_a_crash_leaves_is_not_cut,
};
pub use log::HeadLog;
pub use refused::Refused;
