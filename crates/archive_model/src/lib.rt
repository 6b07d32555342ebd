//! What an archive shows, said over a plain set of operations: what is picked, covered and shown,
//! the rows of a C-FIND and what a C-GET sends (PS3.4, section C.4).
//!
//! In `specs/` a set is the list of its operations, ascending by digest, and each definition is a
//! filter of that list: it knows no site, no index and no order of arrival. `Query::read` says what
//! the identifier of a C-FIND asks, and `Selection::read` that of a C-GET; what is answered are
//! `rows_of` and `sendings_of`. An instance that is to be sent is held as a `Prepared`, of which
//! its bytes are made when its turn comes. What holds of the definitions is said in `laws.rt` and
//! in `sending_laws.rt`, and in `record_laws.rt` that what is shown needs no byte of a data set.
#![tactic(auto)]

mod accepts;
mod answer;
mod answers;
mod asked;
mod block;
mod change;
mod corrected;
mod fault;
mod index;
mod key;
mod keys;
mod laws;
mod listed;
mod prepared;
mod query;
mod reading;
mod record_laws;
mod selection;
mod sending;
mod sending_laws;
mod texts;
mod view;

pub use accepts::{Accepted, Accepts, Form, syntax_of};
pub use answer::Answer;
pub use answers::{Answers, AnswersMut};
pub use asked::Asked;
pub use change::Change;
pub use corrected::corrected_tags;
pub use dictionary::Matching;
pub use fault::QueryFault;
pub use index::title_code;
pub use key::Level;
pub use keys::{modality, patient, series, study};
pub use laws::{
    an_audit_shows_every_pick, coercion_puts_in_what_differs, representatives_have_the_least_uid,
    the_greatest_correction_is_last, the_pick_has_the_least_digest, titles_say_what_is_covered,
    what_a_note_names_is_covered, what_is_flagged_has_two_contents,
    what_is_shown_is_picked_and_uncovered,
};
pub use listed::Listed;
pub use prepared::Prepared;
pub use query::{Query, level_of, upper_uid};
pub use reading::stored;
pub use record_laws::{
    a_correction_needs_no_bytes, a_row_needs_no_bytes, an_index_needs_no_bytes,
    what_is_picked_needs_no_bytes, what_is_shown_needs_no_bytes, what_is_to_be_sent_needs_no_bytes,
    what_stands_for_others_needs_no_bytes,
};
pub use selection::Selection;
pub use sending::Sending;
pub use sending_laws::what_is_sent_is_made_of_what_is_prepared;
pub use texts::ascending;
pub use view::{View, hides, is_hiding};
