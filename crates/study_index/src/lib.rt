//! What queries look up in a set of operations, kept as a joined value.
//!
//! An [`Index`] takes operations in one by one, and other indexes whole; neither the order nor a
//! repeat is seen in it. `specs/Definition.antt` says what it is from the set alone. Of each SOP
//! Instance UID it keeps the pick of least digest ([`LivePicks`](live_picks)), and beside the picks
//! a list of their places, which is a function of them and is never built anew; it is walked by
//! study, series and instance. Picks, places and leads share the contents, and keep no texts of
//! their own.
#![tactic(auto)]

mod adding;
mod copies;
mod entries;
mod fixes;
mod index;
mod laws;
mod lead_walk;
mod leads;
mod live_picks;
mod marks;
mod needle;
mod pick;
mod place;
mod places;
mod short_text;
mod tree;
mod walk;

pub use fixes::Fix;
pub use index::Index;
pub use laws::a_walk_comes_to_all_places;
pub use lead_walk::LeadWalk;
pub use leads::{Lead, led};
pub use pick::Pick;
pub use place::Place;
pub use short_text::ShortText;
pub use tree::put_uid;
