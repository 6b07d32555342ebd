//! How many operations an archive has held, in a file of its own: `held` in a folder, and beside a
//! file one with its name and `.held`.
//!
//! An older copy in the place of a file, and one that was cut between two of its groups, are whole:
//! no sum tells. So a server writes how many operations there are at its start, at its end, and as
//! associations and exchanges end; a command that exchanges or corrects does so too. Where there
//! are fewer later, some are missing, and a rejection may be one. What a crash leaves has no fewer:
//! each was on the disk when it was counted.

ghost use Rattle.std.specs.Prelude.{◌≡◌, ◌+◌, ◌<◌, ◌^◌, IfOk};

use crate::file::beside;
use crate::folder::{is_folder, within};
use crate::output::{CommandFault, FileCause, Note, held_in, is_more, missing_of};
use crate::refused::{Refused, note};
use archive_server::{Held, text_of_held};
use op_shelf::ShelfFault;
use shelved_site::Store;
use std::alloc::AllocError;
use std::fs::{self, File, OpenOptions};
use std::io::{self, ErrorKind, Read, Write};
use std::rt::HostRuntime;

/// How many bytes of the file are read: more than two lines have.
const MOST: u64 = 64;

/// How many operations a store has, of whatever kind.
fn count_in<S: Store>(store: &mut S) -> Result<u64, ShelfFault>
    ensures count { S.is_clean store.new
        → S.count store.old 1 + S.count store.old 2 + S.count store.old 3 < 2 ^ 64
        → IfOk result (λ n. n ≡ S.count store.old 1 + S.count store.old 2 + S.count store.old 3) }
{
    let contents = store.count_kind(1)?;
    let corrections = store.count_kind(2)?;
    let rejections = store.count_kind(3)?;
    Ok(
        contents
            .saturating_add(corrections)
            .saturating_add(rejections),
    )
}

/// The path of the file of an archive.
fn path_of(rt: &HostRuntime, file: &str) -> Result<String, AllocError> {
    if is_folder(rt, file) {
        return within(rt, file, "held");
    }
    beside(rt, file, ".held")
}

/// The first bytes of a file, where it is there.
fn text_in(rt: &HostRuntime, path: &str) -> io::Result<Option<Vec<u8>>> {
    let opened = match File::open(rt, path) {
        Ok(opened) => opened,
        Err(error) if error.kind() == ErrorKind::NotFound => return Ok(None),
        Err(error) => return Err(error),
    };
    let mut text = Vec::new(rt.alloc());
    opened.take(MOST).read_to_end(&mut text)?;
    Ok(Some(text))
}

/// How many operations an archive has held, as far as its file tells, and whether that is there and
/// tells nothing.
fn told_in(rt: &HostRuntime, path: &str) -> (Option<u64>, bool) {
    let text = match text_in(rt, path) {
        Ok(None) => return (None, false),
        Ok(Some(text)) => text,
        Err(_unread) => Vec::new(rt.alloc()),
    };
    let held = held_in(text.as_slice());
    (held, held.is_none())
}

/// The same, where one that tells nothing is said to be damaged.
fn held_by(rt: &HostRuntime, file: &str, path: &str) -> Option<u64> {
    let (held, is_damaged) = told_in(rt, path);
    if is_damaged {
        note(rt, file, Note::DamagedHeld);
    }
    held
}

/// Writes how many operations an archive has. The file is whole at each moment: a crash leaves the
/// one that was there, or this.
fn write_held(rt: &HostRuntime, path: &str, count: u64) -> io::Result<()> {
    let text = text_of_held(rt.alloc(), count)?;
    let new = format!(in rt.alloc(); "{path}.new")?;
    let mut opened = OpenOptions::new()
        .write(true)
        .create(true)
        .truncate(true)
        .open(rt, new.as_str())?;
    opened.write_all(text.as_slice())?;
    opened.sync_all()?;
    fs::rename(rt, new.as_str(), path)
}

/// How many operations an archive has, as far as its store can count them, and how many are missing
/// of those that it has held, as far as its file tells.
#[derive(Clone, Copy)]
pub struct Counted {
    pub count: Option<u64>,
    pub missing: u64,
}

/// What is counted of an archive.
pub fn counted_in<S: Store>(rt: &HostRuntime, file: &str, store: &mut S) -> Counted {
    let (Ok(path), Ok(count)) = (path_of(rt, file), count_in(store)) else {
        return Counted {
            count: None,
            missing: 0,
        };
    };
    Counted {
        count: Some(count),
        missing: missing_of(held_by(rt, file, path.as_str()), count),
    }
}

/// How many of the operations that an archive has held are missing from its store.
pub fn missing_in<S: Store>(rt: &HostRuntime, file: &str, store: &mut S) -> u64 {
    counted_in(rt, file, store).missing
}

/// Writes how many operations an archive has, where it is known to have held less. Where that can't
/// be written, this is said.
fn raise(rt: &HostRuntime, file: &str, path: &str, count: u64) {
    if is_more(told_in(rt, path).0, count) {
        match write_held(rt, path, count) {
            Ok(()) => {}
            Err(_refused) => note(rt, file, Note::NoHeld),
        }
    }
}

/// The same of a store, of which it says how many operations are missing.
pub fn keep_held<S: Store>(rt: &HostRuntime, file: &str, store: &mut S) -> u64 {
    let counted = counted_in(rt, file, store);
    if let (Ok(path), Some(count)) = (path_of(rt, file), counted.count) {
        raise(rt, file, path.as_str(), count);
    }
    counted.missing
}

/// The file of an archive that is served, once it says how many operations there are, to be raised
/// by what comes. There is none where some can't be read or are missing: one that is mended is none
/// more than were held.
pub fn held_open(rt: &HostRuntime, file: &str, counted: Counted, unread: usize) -> Option<Held> {
    let path = path_of(rt, file).ok()?;
    raise(rt, file, path.as_str(), counted.count?);
    if unread != 0 || counted.missing != 0 {
        return None;
    }
    let count = held_in(text_in(rt, path.as_str()).ok()??.as_slice())?;
    let opened = OpenOptions::new().write(true).open(rt, path.as_str());
    Some(Held::new(opened.ok()?, count))
}

/// The fault of an archive from which so many operations are missing.
pub fn refused_for_missing<'a>(file: &'a str, missing: u64) -> Refused<'a> {
    let fault = CommandFault::Shelf(ShelfFault::BadRow);
    Refused::file(file, fault, FileCause::Missing(missing as usize))
}

/// Refuses an archive from which operations are missing.
pub fn refuse_missing<'a, S: Store>(
    rt: &HostRuntime,
    file: &'a str,
    store: &mut S,
) -> Result<(), Refused<'a>> {
    match missing_in(rt, file, store) {
        0 => Ok(()),
        missing => Err(refused_for_missing(file, missing)),
    }
}
