//! The desk of a running site: a correction that a request asks for is made, put on the shelf,
//! taken by the hub, and then answered, over any reader and writer.
//!
//! Its stamp comes next over what a look of the pass sees, and over what this desk has made: so no
//! two corrections of a desk have one stamp, also where the hub has not taken the first yet. The
//! connection (HTTP, RFC 9112) is the kit's, which refuses with a status of 4xx or 5xx what is no
//! request. An answer ends it, so that no peer holds the thread beyond its request; a 503 without
//! words, which takes no memory, does not. What a request says are four words, as `archive correct`
//! has them.
//!
//! Who asks a running site is here too: the requests for a correction and for a page, and what
//! their answers tell.
#![tactic(auto)]

mod answer;
mod ask_fault;
mod asking;
mod desk;
mod fault;
mod form;
mod heard;
mod limits;
mod making;
mod object;
mod outcome;
mod posted;
mod requests;
mod responses;
mod sending;
mod serving;
mod stamps;
mod tabled;
mod top;
mod words;

pub use answer::{Answer, Made, Status, answered};
pub use ask_fault::AskFault;
pub use asking::{Kind, asked};
pub use desk::SiteDesk;
pub use fault::DeskFault;
pub use outcome::outcome_of;
pub use posted::Posted;
pub use sending::{FourWords, correction_request, page_request};
pub use serving::serve_desk;
pub use stamps::Stamps;
pub use tabled::{Told, number_in, page_of};
pub use words::{Words, read};
