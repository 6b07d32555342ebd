//! The log beside a file, before the file is opened.
//!
//! SQLite ends a log at its first frame that is not valid, without a word, and an open goes on
//! there. The first byte of a frame's salts is written last, behind a sync, so a crash leaves no
//! bad frame with the log's salts.

ghost use Rattle.std.specs.Prelude.{◌≡◌};
ghost use Rattle.archive_app.specs.Tails.{HasRest, IsWhole, LosesFrames};
ghost use Rattle.archive_app.specs.declared.log_tail.Tail.TheVariants as tails;

use crate::output::{CommandFault, FileCause, Note};
use crate::refused::{Refused, note};
use crate::viewing::log_at_rest;
use op_shelf::{ShelfFault, StoreCause};
use std::rt::HostRuntime;
use wal_tail::{is_header_lost, lost_behind};

/// What a log has behind its end.
#[derive(Clone, Copy, Debug, PartialEq, Eq)]
pub enum Tail {
    /// Nothing of its own.
    Whole,
    /// Frames that a crash in a long transaction leaves, or a disk that changed.
    Rest,
    /// Frames that an open would lose, and that no crash left so.
    Lost,
}

/// What a log has behind its end.
fn tail_of(log: &[u8]) -> Tail
    ensures whole { result ≡ tails.Whole → IsWhole log.now }
    ensures rest { result ≡ tails.Rest → HasRest log.now }
    ensures lost { result ≡ tails.Lost → LosesFrames log.now }
{
    if is_header_lost(log) {
        return Tail::Lost;
    }
    match lost_behind(log) {
        Some(lost) if lost.is_own => Tail::Lost,
        Some(_) => Tail::Rest,
        None => Tail::Whole,
    }
}

/// What the log beside a file has behind its end. One that can't be read, or that another program
/// may write, is left to the open, which is refused.
pub fn tail_beside(rt: &HostRuntime, file: &str) -> Tail {
    match log_at_rest(rt, file) {
        Ok(log) => tail_of(log.as_slice()),
        Err(_unread) => Tail::Whole,
    }
}

/// The fault of a file whose log has frames that an open would lose.
pub fn refused_for_frames<'a>(file: &'a str) -> Refused<'a> {
    let fault = CommandFault::Shelf(ShelfFault::Store(StoreCause::Damaged));
    Refused::file(file, fault, FileCause::LostFrames)
}

/// Refuses a file of whose log an open would lose what may count, and says where frames stand
/// behind its end.
pub fn see_tail<'a>(rt: &HostRuntime, file: &'a str) -> Result<(), Refused<'a>> {
    match tail_beside(rt, file) {
        Tail::Whole => Ok(()),
        Tail::Rest => {
            note(rt, file, Note::RestOfLog);
            Ok(())
        }
        Tail::Lost => Err(refused_for_frames(file)),
    }
}
