//! The script that drives the sites of a world, and what it prints.
//!
//! What a line does and prints is `specs/Script.antt`, and what is printed for a whole input
//! `specs/Output.antt`: `simulate` reads the input and writes that.
#![tactic(auto)]

mod laws;
mod print;
mod progress;
mod run;
mod script;

pub use laws::{a_script_is_a_run, lines_are_parted_by_their_ends};
pub use run::{SimFault, simulate};
