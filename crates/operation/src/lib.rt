//! Operations, the atoms of a site: contents and corrections, the one spelling of each, and its
//! digest; and the record of each, which is all of it but the bytes of a data set, with its digest.
//! An operation that is read from elsewhere is the one that was asked for where its record is.
#![tactic(auto)]

mod content;
mod content_record;
mod contents;
mod correction;
mod decoding;
mod digested;
mod digests;
mod draft;
mod encoding;
mod fault;
mod hashing;
mod kept;
mod key_values;
mod laws;
mod op;
mod record;
mod record_laws;
mod record_texts;
mod stamp;
mod taken;
mod target;
mod value_texts;

pub use content::Content;
pub use content_record::ContentRecord;
pub use contents::content_of;
pub use correction::{Correction, correction_of};
pub use decoding::decode;
pub use digested::Digested;
pub use digests::Digest;
pub use encoding::encode;
pub use fault::OpFault;
pub use hashing::digest;
pub use laws::{
    a_patient_is_corrected_in_its_group_alone, a_series_is_corrected_by_its_description_alone,
    a_text_has_one_outcome, each_text_has_an_outcome, spellings_tell_operations_apart,
};
pub use op::Op;
pub use record::Record;
pub use record_laws::{a_digest_is_a_hash, a_record_names_one_operation};
pub use stamp::Stamp;
pub use taken::Taken;
pub use target::Target;
