//! The acceptor's side of the DICOM upper layer (PS3.8, section 9.2), without its timers.
//!
//! Events come in and actions go out: nothing here reads a socket. `negotiate` decides on a
//! request, `Acceptor::on` is the table of the states in use, row for row.
#![tactic(auto)]

mod acceptor;
mod admission;
mod answer;
mod decision;
mod event;
mod laws;
mod numbers;
mod table;
mod titles;

pub use acceptor::{Acceptor, Settled};
pub use answer::is_storage_class;
pub use decision::{Decision, negotiate};
pub use event::{Action, Event};
pub use laws::{
    a_p_data_is_handed_on_whole, a_p_data_is_ignored_after_goodbye,
    no_event_after_goodbye_hands_on, only_a_p_data_of_an_association_is_handed_on,
};
pub use numbers::acceptances_say_these;
pub use table::{
    State, accepts_nothing_after_an_acceptance, answers_once, never_hands_on_after_goodbye,
    never_hands_on_before_an_acceptance,
};
pub use titles::{Title, Titles};
