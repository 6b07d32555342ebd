//! Operations in two files that only grow, which a crash does not part.
//!
//! The data sets of contents lie in one file, and what else operations are spelled with lies in the
//! other, in groups. A data set is on the disk before the group that leads to it. An operation that
//! can't be read, since the disk fails or its bytes have another digest, costs no other: the others
//! are recorded, and where it is put again it is read again. What the clauses say of values that are
//! read they say if nobody else writes the files and the disk returns what was written. What a real
//! file holds no clause says: `std::fs` has none of it.
#![tactic(auto)]

mod cut;
mod fault;
mod fetched;
mod fetching;
mod filling;
mod finding;
mod folder;
mod folder_fault;
mod folder_refused;
mod group;
mod head;
mod kept;
mod laws;
mod lengthening;
mod listing;
mod loading;
mod log;
mod older_folder;
mod place;
mod places;
mod putting;
mod readable;
mod record;
mod record_loading;
mod recording;
mod refused;
mod renewing;
mod staging;
mod telling;
mod told_contents;
mod verifying;
mod walking;

pub use fault::LogFault;
pub use folder::{FolderFile, FolderLog, OpenedFolder, log_in, open_folder, records_file};
pub use folder_fault::FolderFault;
pub use folder_refused::FolderRefused;
pub use kept::Kept;
pub use laws::{
    the_last_head_of_a_digest_counts, what_is_told_truly_stands, what_is_whole_is_readable,
};
pub use log::OpLog;
pub use readable::Readable;
pub use record::Record;
pub use record_loading::load;
pub use refused::Refused;
