//! Values that are joined in any order and any number of times.
//!
//! A [`Join`] type says what two of its values come to together, and proves that neither the order
//! nor a repeat is seen in it. A [`Summary`] is such a value of a list of operations, so that it is
//! what the set of the operations alone says, and one that [`Undoes`] takes the last one back.
//! `specs/Laws.antt` has the laws.
#![tactic(auto)]

pub mod element;
pub mod greatest;
pub mod grow_set;
pub mod join;
pub mod laws;
pub mod least;
pub mod map_of;
pub mod pair_of;
pub mod summary;
pub mod undoes;

pub use element::{Copies, Exact};
pub use greatest::Greatest;
pub use grow_set::GrowSet;
pub use join::Join;
pub use laws::{
    greatest_is_above_both, least_is_below_neither, maps_are_joined_key_by_key,
    union_has_the_keys_of_both,
};
pub use least::Least;
pub use map_of::MapOf;
pub use pair_of::PairOf;
pub use summary::{Summary, fold_ops};
pub use undoes::Undoes;
