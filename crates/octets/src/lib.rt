//! Bytes and lists as contracts see them, what is asked of texts everywhere (padding, UIDs, order,
//! printable bytes, texts parted by a separator, numbers in digits), and the words in which every
//! codec says its contract.
//!
//! A `Vec` in a field would show its capacity and its place to a clause that compares. The types
//! here show only what they hold: `Octets` its bytes, `ListOf<T>` its elements. Both are made from
//! a `Vec` and give it back, and neither takes memory for that.
#![tactic(auto)]

mod decimal;
mod graphic;
mod joining;
mod limits;
mod list_of;
mod octets_type;
mod padding;
mod texts;
mod uid;

pub use decimal::{digits, put_digits};
pub use graphic::are_graphic;
pub use joining::joined;
pub use limits::{LONGEST_DATA_SET, longest_data_set_is_this};
pub use list_of::ListOf;
pub use octets_type::Octets;
pub use padding::{trimmed, without_padding};
pub use texts::{ascending, ascending_texts_are_the_same_in_order};
pub use uid::is_uid;
