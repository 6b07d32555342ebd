//! The words of a command line, and what they ask for.
#![tactic(auto)]

ghost use Rattle.std.specs.Prelude.{◌≡◌, ◌↔◌, IsTrue, IfOk};
ghost use Rattle.clap.specs.Values.{kind_of};
ghost use Rattle.command_line.specs.There.{IsWellAsked};

mod commands;
mod found;
mod reading;
mod refusals;
mod rows;
mod serve;
mod serving;
mod there;

use crate::commands::archive_command;
use crate::reading::{Unread, read_wanted};
use crate::refusals::Refusal;
use clap::error::ErrorKind;
use clap::{ArgMatches, Command, Error};
use std::alloc::{AllocError, Global};
pub use there::{CorrectingAt, ReportingAt, Wanted};

/// Whether words were refused for want of memory, and not for what they say.
pub fn is_want_of_memory(error: &Error) -> bool
    ensures { IsTrue result ↔ kind_of error.now ≡ ErrorKind.OutOfMemory }
{
    error.kind() == ErrorKind::OutOfMemory
}

/// The words of a command line, by the names of what stands in them.
fn matches_of<'a>(
    command: &mut Command<'a>,
    words: &'a [&'a str],
) -> Result<ArgMatches<'a>, Error> {
    command.try_get_matches_from_mut(words)
}

/// The words of a command line that are refused.
fn refused<'a>(command: &mut Command<'a>, refusal: Refusal) -> Result<Error, AllocError> {
    command.error(refusal.kind, refusal.text)
}

/// What words ask for.
fn asked_of<'a>(
    alloc: Global,
    command: &mut Command<'a>,
    words: &'a [&'a str],
) -> Result<Wanted<'a>, Error>
    ensures asked { IfOk result IsWellAsked }
{
    let found = matches_of(command, words)?;
    match read_wanted(alloc, &found) {
        Ok(wanted) => Ok(wanted),
        Err(Unread::Refused(refusal)) => Err(refused(command, refusal)?),
        Err(Unread::Memory) => Err(Error::from(AllocError)),
    }
}

/// What the words of a command line ask for, the program's name first.
pub fn read_words<'a>(alloc: Global, words: &'a [&'a str]) -> Result<Wanted<'a>, Error>
    ensures asked { IfOk result IsWellAsked }
{
    let mut command = archive_command(alloc)?;
    asked_of(alloc, &mut command, words)
}
