//! What the lines of a script ask for, and the contents, queries and selections that they
//! make.
//!
//! A line is read without a site: its words say a command, and nothing here knows what a site holds
//! or which names are taken.
#![tactic(auto)]

mod command;
mod identifier;
mod key;
mod laws;
mod name;
mod number;
mod retrieve;
mod sets;
mod tag;
mod verb;
mod word;

pub use command::{Command, CorrectLine, FindLine, GetLine, ImageLine, NoteLine, command_of};
pub use identifier::query_in;
pub use key::Key;
pub use laws::words_are_parted_by_spaces;
pub use name::target_in;
pub use retrieve::{script_accepts, selection_in};
pub use sets::{image_content, note_content};
pub use tag::tag_in;
