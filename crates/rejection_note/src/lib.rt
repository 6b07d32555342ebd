//! Rejection notes: Key Object Selection documents that hide images (PS3.3, section C.17.6; IHE
//! RAD-66).
//!
//! `note_of` says whether a data set is one, of which title, and which instances it covers.
#![tactic(auto)]

mod covers;
mod fault;
mod note;
mod notes;
mod title;

pub use fault::NoteFault;
pub use note::Note;
pub use notes::note_of;
pub use title::NoteTitle;
