//! Associations over any reader, writer and port (PS3.8; PS3.7).
//!
//! `run_association` reads PDUs, tells a session of them, and does its deeds in order: what is sent
//! is written, a call goes to a port, and a gate lets a test hold an association up. Each of them
//! is a type parameter, so that what was done can be said of what was read and replied. The deeds
//! are those of `association_session`; what is heard of the bytes is `specs/Hearing.antt`.
#![tactic(auto)]

mod act;
mod end;
mod fault;
mod gate;
mod inbox;
mod laws;
mod numbers;
mod outbox;
mod piece;
mod port;
mod run;
mod sides;

pub use end::End;
pub use fault::RunFault;
pub use gate::{Gate, OpenGate};
pub use laws::{a_get_carries_what_is_sent_of_the_set, a_load_brings_what_was_listed};
pub use numbers::limits_are_these;
pub use outbox::Outbox;
pub use port::Port;
pub use run::run_association;
