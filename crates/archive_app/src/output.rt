//! What the commands of the program `archive` print, and how they end.

mod cause;
mod ending;
mod held;
mod lines;
mod notes;
mod unread;
mod verified;

pub use cause::{
    Cause, FileCause, NetCause, a_full_disk_is_told_as_one, file_cause_in_error, file_cause_of,
    listen_cause_of, place_of, reach_cause_of, words_of,
};
pub use ending::{CommandFault, Ending, ending_of, status_of_refusal};
pub use held::{held_in, is_more, missing_of};
pub(crate) use lines::put_count;
pub use lines::{line_of_stamp, lines_of, lines_of_exchange, lines_of_move};
pub use notes::{Note, is_other, lacks_log, names_folder, words_of_note};
pub use unread::words_of_unread;
pub use verified::{ended_of_verify, lines_of_verify};
