//! Answers to C-FIND and to C-GET over a site (PS3.4, sections C.4.1 and C.4.3).
//!
//! The rows are `rows_of` of `archive_model`. A query is made ready first, as a `PreparedQuery`;
//! `take` takes what its rows are made of, found by walking the site's index, and `rows_found`
//! makes them of that, without the site.
//!
//! What a C-GET sends is what a view shows of a selection, corrected, in a transfer syntax that is
//! accepted. A data set that needs no change is the stored one, whose bytes are shared with the
//! site. `list` finds what is to be sent and holds no byte of a data set, so that each can be
//! loaded when its turn comes; `get` loads and makes them all at once, over a site in memory that
//! has the whole operations.
#![tactic(auto)]

mod candidates;
mod cell;
mod changes;
mod column;
mod finding;
mod firsts;
mod fixes;
mod getting;
mod grouping;
mod groups;
mod keys;
mod laws;
mod listing;
mod prepared;
mod preparing;
mod rows;
mod selected;
mod selected_places;
mod sending;
mod sending_laws;
mod walks;

pub use archive_model::{
    Accepted, Accepts, Answer, Answers, Asked, Level, Listed, Matching, Prepared, Query,
    QueryFault, Selection, Sending, level_of, upper_uid,
};
pub use candidates::{put_some_series, put_studies, shown_of};
pub use finding::{Found, find, rows_found, take};
pub use fixes::Fixes;
pub use getting::get;
pub use groups::uid_at;
pub use laws::same_sites_answer_alike;
pub use listing::list;
pub use prepared::PreparedQuery;
pub use preparing::shown_selected;
pub use sending_laws::{
    same_sites_send_alike, what_is_rejected_is_not_sent, what_is_sent_is_computed,
    what_is_sent_is_shown, what_is_sent_reads_again_corrected,
    what_needs_nothing_is_sent_as_it_came,
};
