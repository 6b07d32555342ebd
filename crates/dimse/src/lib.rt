//! DIMSE messages: their command sets, and the fragments that they come in (PS3.7, PS3.8 annex E).
//!
//! A message is a command set and, where that announces one, a data set. Each is cut into fragments
//! of presentation data values; `Assembler::feed` puts them together, and `Fragments` cuts them one
//! by one.
//! Nothing here reads a socket, and no data set is read.
#![tactic(auto)]

mod assembler;
mod command;
mod command_field;
mod element;
mod fault;
mod fragment;
mod fragments;
mod laws;
mod message;
mod numbers;
mod reader;
mod response;
mod status;
mod whole;
mod writer;

pub use assembler::Assembler;
pub use command::{Command, DATA_SET_FOLLOWS, LONGEST_COMMAND};
pub use command_field::{CommandField, UnknownField};
pub use dictionary::NO_DATA_SET;
pub use fault::DimseFault;
pub use fragments::Fragments;
pub use laws::{
    a_cut_text_is_the_same_text, a_response_can_be_written, cuts_do_not_matter,
    each_text_has_an_outcome, messages_are_those_spelled, nothing_is_taken_after_a_fault,
    what_is_spelled_is_answered,
};
pub use message::Message;
pub use numbers::limits_are_these;
pub use reader::read_command;
pub use status::Status;
pub use writer::write_command;
