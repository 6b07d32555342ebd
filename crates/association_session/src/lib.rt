//! An association as a machine: PDUs and replies of a port come in, and deeds go out.
//!
//! A session has no reader, no writer and no port. `Session::on` is told what was read, or what the
//! port replied, and answers what is done: PDUs are sent, the gate is reached, the port is asked,
//! the connection is closed. What an association does for all that it hears is `Talks` of
//! `specs/Talks.antt`, and what each message is answered are the tables of `association_services`.
#![tactic(auto)]

mod association;
mod deed;
mod deeds;
mod event;
mod hearing;
mod laws;
mod limit;
mod link;
mod numbers;
mod pending_response;
mod replies;
mod row;
mod session;
mod telling;

pub use association_services::{Call, Finding, Getting, PortFault, Reply};
pub use deed::{Deed, Moment};
pub use deeds::Deeds;
pub use event::SessionEvent;
pub use laws::{
    a_cancelled_get_begins_no_more, a_response_stands_behind_its_call, each_request_has_a_response,
    each_request_has_one_response, more_is_only_added, no_row_of_a_partial_query_is_a_full_one,
    nothing_is_asked_after_goodbye, there_is_one_list_of_deeds,
};
pub use numbers::limits_are_these;
pub use session::Session;
