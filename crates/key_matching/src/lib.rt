//! Which values the key of a query matches, on bytes (PS3.4, section C.2.2.2).
//!
//! A wild-card key takes as many steps as it and the value are long; a run between two `*` that
//! folds or has a `?` takes up to its length times that of the value.
#![tactic(auto)]

mod prepared;
mod range;
mod value_match;
mod wild_card;

pub use dictionary::Matching;
pub use prepared::{PreparedKey, is_uids};
pub use range::ends;
pub use value_match::{is_of_form, is_universal, matches, members_of};
