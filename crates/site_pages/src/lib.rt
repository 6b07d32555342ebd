//! The pages of a running site: each is made of the operations that the site holds, of its name,
//! and of what its server knows of itself, and is answered over any reader and writer.
//!
//! A look of a pass takes what a page is made of and ends; it waits for nobody and changes nothing.
//! Rows, texts and markup are made behind it, so that no publish waits for them. The connection
//! (HTTP, RFC 9112) is the kit's, which refuses with a status of 4xx or 5xx what is no request. An
//! answer ends it, so that no peer holds the thread beyond its request; a 503 without words, which
//! takes no memory, does not.
//!
//! What a server counts is here too: what has ended comes in, and numbers go out, without a clock.
//! A number that would overrun stays at the greatest that a u64 has. A second is one of the server:
//! how many have passed since it began.
#![tactic(auto)]

mod counting;
mod counts;
mod ends;
mod facts;
mod families;
mod hub_serving;
mod hub_source;
mod limits;
mod listing;
mod looking;
mod looks;
mod meters;
mod pages;
mod responses;
mod samples;
mod searching;
mod serving;
mod source;
mod study;
mod tables;
mod tally;

pub use counting::{association_end_of, met_of, not_reached};
pub use counts::site_answer;
pub use ends::{AssociationEnd, AssociationEnds, ExchangeEnd, ExchangeEnds};
pub use facts::{Meeting, copied_meetings, enter_meeting, facts_of, note_caller, note_meeting};
pub use hub_serving::serve_hub_pages;
pub use hub_source::HubPages;
pub use listing::listed;
pub use looking::{CountsOf, StudiesOf, StudyOf, TableOf};
pub use meters::{Met, Meters, Way};
pub use pages::Pages;
pub use samples::{Reading, Sizes, samples_of};
pub use searching::{Searched, query_of, search_of};
pub use serving::serve_pages;
pub use source::Source;
pub use study::study_page;
pub use tables::{subject_of, table_answer};
pub use tally::Tally;
