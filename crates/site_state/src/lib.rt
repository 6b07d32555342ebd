//! One site of the archive: a set of operations, and nothing else.
//!
//! Contracts see a site as the finite map from digests to operations. No order of arrival is in it,
//! so sites that took the same operations are equal, and so is what is defined over their
//! operations.
//!
//! A `Site` holds records: of each operation all but the bytes of its data set, seen as what stands
//! for it (`records`). A `WholeSite` holds the operations too, for sites that are kept in memory.
#![tactic(auto)]

mod copying;
mod counts;
mod fault;
mod laws;
mod site;
mod tree;
mod whole_site;

pub use counts::Counts;
pub use fault::SiteFault;
pub use laws::{
    a_note_before_its_images_hides_as_one_after, operations_ascend_by_digest,
    order_and_repeats_are_free, records_say_the_same, taking_adds_the_operation, union_is_a_join,
};
pub use operation::Taken;
pub use site::Site;
pub use whole_site::WholeSite;
