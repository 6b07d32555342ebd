//! Why a command is refused, and what of.

ghost use Rattle.std.specs.Prelude.{◌≡◌, ◌↔◌, IsNone};

use crate::output::{
    Cause, CommandFault, FileCause, NetCause, Note, place_of, words_of, words_of_note,
    words_of_unread,
};
use op_shelf::ShelfFault;
use shelved_site::Unreadable;
use std::rt::HostRuntime;

/// The fault of a command, the file or the address that it is about, and why it came.
#[derive(Clone, Copy)]
pub struct Refused<'a> {
    pub fault: CommandFault,
    pub about: &'a str,
    pub cause: Cause,
}

impl<'a> Refused<'a> {
    /// Of which no more is known than the fault.
    pub fn of(about: &'a str, fault: CommandFault) -> Refused<'a>
        ensures about { result.about ≡ about.entry }
    {
        Refused {
            fault,
            about,
            cause: Cause::Fault(fault),
        }
    }

    pub fn file(about: &'a str, fault: CommandFault, cause: FileCause) -> Refused<'a> {
        Refused {
            fault,
            about,
            cause: Cause::File(cause),
        }
    }

    pub fn net(about: &'a str, fault: CommandFault, cause: NetCause) -> Refused<'a>
        ensures about { result.about ≡ about.entry }
    {
        Refused {
            fault,
            about,
            cause: Cause::Net(cause),
        }
    }

    /// The line in words, and the place in a file where that is known. One that standard error
    /// refuses is dropped.
    pub fn tell(self, rt: &HostRuntime) {
        let words = words_of(self.cause);
        match place_of(self.cause) {
            None => say(rt, self.about, words),
            Some(at) => {
                let about = self.about;
                let _ = eprintln!(rt; "archive: {about}: {words} {at}");
            }
        }
    }
}

/// What is done, of which no more is known than the fault where it is refused.
pub fn about<'a, T, E: Into<CommandFault> + Drop>(
    about: &'a str,
    done: Result<T, E>,
) -> Result<T, Refused<'a>> {
    match done {
        Ok(done) => Ok(done),
        Err(fault) => Err(Refused::of(about, fault.into())),
    }
}

/// A line on standard error: what it is about, and words. One that is refused is dropped.
fn say(rt: &HostRuntime, about: &str, words: &str) {
    if about.is_empty() {
        let _ = eprintln!(rt; "archive: {words}");
    } else {
        let _ = eprintln!(rt; "archive: {about}: {words}");
    }
}

/// What is said of an operation that can't be read where memory for its words is refused.
const UNTOLD: &str = "can't be read: an operation";

/// An operation of a file that can't be read.
pub fn note_unread(rt: &HostRuntime, file: &str, unread: &Unreadable) {
    match words_of_unread(rt.alloc(), unread) {
        Ok(words) => say(rt, file, str::from_utf8(words.as_slice()).unwrap_or(UNTOLD)),
        Err(_refused) => say(rt, file, UNTOLD),
    }
}

/// How many operations of a file can't be read, where some can't.
pub fn note_count(rt: &HostRuntime, file: &str, count: u64) {
    if count > 0 {
        let _ = eprintln!(rt; "archive: {file}: can't be read: {count} in all");
    }
}

/// What a command that was done prints on standard output, and the fault with which it ends behind
/// that.
#[derive(Drop)]
pub struct Done<'a> {
    pub text: Vec<u8>,
    pub behind: Option<Refused<'a>>,
}

/// What a command was done without: so many operations can't be read, and so many more are missing
/// that the archive has held.
#[derive(Clone, Copy)]
pub struct Lacks {
    pub unread: u64,
    pub missing: u64,
}

/// The fault with which a command ends that was done without some operations of a file.
pub fn ended_without<'a>(file: &'a str, lacks: Lacks) -> Option<Refused<'a>>
    ensures { IsNone result ↔ ((lacks.unread ≡ 0) × (lacks.missing ≡ 0)) }
{
    let fault = CommandFault::Shelf(ShelfFault::BadRow);
    if lacks.missing != 0 {
        let cause = FileCause::Missing(lacks.missing as usize);
        return Some(Refused::file(file, fault, cause));
    }
    if lacks.unread != 0 {
        return Some(Refused::file(file, fault, FileCause::Unreadable));
    }
    None
}

/// A command that was done without some operations of a file, which is said.
pub fn done_without<'a>(rt: &HostRuntime, file: &'a str, text: Vec<u8>, lacks: Lacks) -> Done<'a> {
    note_count(rt, file, lacks.unread);
    Done {
        text,
        behind: ended_without(file, lacks),
    }
}

/// A note on a file.
pub fn note(rt: &HostRuntime, file: &str, note: Note) {
    say(rt, file, words_of_note(note));
}
