//! Data sets in two transfer syntaxes (PS3.5, section 7 and annex A).
//!
//! `read` takes the texts of the grammar of `specs/Texts.antt` and no others, and tells the fault
//! of the first element that offends.
#![tactic(auto)]

mod conversion;
mod corrections;
mod element;
mod fault;
mod header;
mod laws;
mod reader;
mod replaced;
mod set;
mod syntax;
mod tags;
mod values;
mod vr;
mod writer;

pub use corrections::correction_vr;
pub use element::{Content, Element};
pub use fault::SetFault;
pub use laws::{
    a_conversion_keeps_values, a_set_is_what_a_text_spells, a_value_put_in_is_read_again,
    each_text_has_an_outcome, no_fault_where_spelled, one_fault, one_reading,
    what_is_spelled_is_computed,
};
pub use reader::read;
pub use set::DataSet;
pub use syntax::Syntax;
pub use tags::{has_reserved_group, is_item_or_end, is_sequence_tag};
pub use values::{element_of, items_of, padded_of, value_of};
pub use writer::write;
