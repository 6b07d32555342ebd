//! The file of a site's shelf, where it is only read: without a right to write, and without making
//! a log beside it.

ghost use Rattle.std.specs.Prelude.{IfOk, IsTrue};
ghost use Rattle.sqlite_disk.specs.Memory.{memory_is_usable};

use crate::file::{OnStore, beside, is_new, note_log, on_database, on_shelf, refused};
use crate::folder::{is_folder, log_to_view, on_log};
use crate::log_tail::{Tail, tail_beside};
use crate::output::{CommandFault, FileCause, Note, file_cause_of, is_other};
use crate::refused::{Refused, note};
use op_shelf::{ShelfFault, StoreCause};
use os::RangeLock;
use sqlite::{Connection, Files, Options};
use sqlite_disk::{Disk, Memory as InMemory};
use std::alloc::Global;
use std::fs::{File, OpenOptions};
use std::hash::{BuildHasher, RandomState};
use std::io::{ErrorKind, Read};
use std::os::fd::AsRawFd;
use std::rt::HostRuntime;
use std::{fs, io};

/// Where SQLite's locks of a file begin, and how many bytes they are: a program that has the file
/// open holds one of them.
const LOCKS: u64 = 1_073_741_824;

const LOCKED: u64 = 512;

/// Where its locks of a log begin, in the file `-shm` beside it, and how many bytes those are that
/// a program holds while it writes the log, or copies it into the file.
const LOG_LOCKS: u64 = 120;

const LOG_LOCKED: u64 = 3;

/// A file in memory that has these bytes.
fn memory_of(alloc: Global, bytes: &[u8]) -> io::Result<InMemory>
    ensures { IfOk result (λ memory. IsTrue (memory_is_usable memory)) }
{
    let mut memory = InMemory::new(alloc);
    if !bytes.is_empty() {
        memory.write_at(0, bytes)?;
    }
    Ok(memory)
}

/// The bytes of an open file.
fn bytes_of(alloc: Global, mut file: &File) -> io::Result<Vec<u8>> {
    let mut bytes = Vec::new(alloc);
    file.read_to_end(&mut bytes)?;
    Ok(bytes)
}

/// A file beside another one, open, where it is there.
fn open_beside(rt: &HostRuntime, file: &str, more: &str) -> io::Result<Option<File>> {
    let path = beside(rt, file, more)?;
    match File::open(rt, path.as_str()) {
        Ok(opened) => Ok(Some(opened)),
        Err(error) if error.kind() == ErrorKind::NotFound => Ok(None),
        Err(error) => Err(error),
    }
}

/// The bytes of the log of a file, which has none where it is not there.
fn log_of(rt: &HostRuntime, file: &str) -> io::Result<Vec<u8>> {
    match open_beside(rt, file, "-wal")? {
        Some(log) => bytes_of(rt.alloc(), &log),
        None => Ok(Vec::new(rt.alloc())),
    }
}

/// Whether a journal is beside a file which only SQLite can play back.
fn has_journal(rt: &HostRuntime, file: &str) -> io::Result<bool> {
    let Some(journal) = open_beside(rt, file, "-journal")? else {
        return Ok(false);
    };
    let mut first = Vec::new(rt.alloc());
    journal.take(1).read_to_end(&mut first)?;
    Ok(first.first().copied().unwrap_or(0) != 0)
}

/// Why a file is not locked: another program has it open, or the system can't lock it.
fn unlocked() -> io::Error {
    let error = io::Error::from_raw_os_error(os::errno());
    if error.kind() == ErrorKind::WouldBlock {
        return ErrorKind::ResourceBusy.into();
    }
    error
}

/// Locks some bytes of a file for as long as it is open, beside others that only read.
fn lock(opened: &File, from: u64, count: u64) -> io::Result<()> {
    if os::try_lock_range(opened.as_raw_fd(), RangeLock::Shared, from, count) != 0 {
        return Err(unlocked());
    }
    Ok(())
}

/// What keeps other programs from writing the log of a file while it is open, where some may.
fn log_locked(rt: &HostRuntime, file: &str) -> io::Result<Option<File>> {
    let shared = open_beside(rt, file, "-shm")?;
    if let Some(opened) = &shared {
        lock(opened, LOG_LOCKS, LOG_LOCKED)?;
    }
    Ok(shared)
}

/// A file and its log, copied while no program writes them.
fn copied(rt: &HostRuntime, file: &str) -> io::Result<Files<InMemory>>
    ensures log { IfOk result (λ files. IsTrue (memory_is_usable files.log)) }
    ensures db { IfOk result (λ files. IsTrue (memory_is_usable files.db)) }
{
    let opened = File::open(rt, file)?;
    lock(&opened, LOCKS, LOCKED)?;
    let _held = log_locked(rt, file)?;
    if has_journal(rt, file)? {
        return Err(ErrorKind::AlreadyExists.into());
    }
    let (db, log) = (bytes_of(rt.alloc(), &opened)?, log_of(rt, file)?);
    if is_other(db.as_slice()) {
        return Err(ErrorKind::InvalidData.into());
    }
    Ok(Files {
        log: memory_of(rt.alloc(), log.as_slice())?,
        db: memory_of(rt.alloc(), db.as_slice())?,
    })
}

/// The bytes of the log of a file, while no program writes it.
pub fn log_at_rest(rt: &HostRuntime, file: &str) -> io::Result<Vec<u8>> {
    let opened = File::open(rt, file)?;
    lock(&opened, LOCKS, LOCKED)?;
    let _held = log_locked(rt, file)?;
    log_of(rt, file)
}

/// Why a file is not read.
fn unread<'a>(file: &'a str, kind: ErrorKind) -> Refused<'a> {
    let fault = CommandFault::Shelf(ShelfFault::Store(StoreCause::Other));
    match kind {
        ErrorKind::OutOfMemory => Refused::of(file, CommandFault::Shelf(ShelfFault::Memory)),
        ErrorKind::ResourceBusy => Refused::file(file, fault, FileCause::InUse),
        ErrorKind::AlreadyExists => Refused::file(file, fault, FileCause::Journal),
        ErrorKind::InvalidData => Refused::file(file, fault, FileCause::OtherKind),
        kind => Refused::file(file, fault, file_cause_of(kind)),
    }
}

/// A copy of a file, and how it is opened.
fn copy_of<'a>(rt: &HostRuntime, file: &'a str) -> Result<(Files<InMemory>, Options), Refused<'a>>
    ensures log { IfOk result (λ copy. IsTrue (memory_is_usable copy.0.log)) }
    ensures db { IfOk result (λ copy. IsTrue (memory_is_usable copy.0.db)) }
{
    let files = match copied(rt, file) {
        Ok(files) => files,
        Err(error) => return Err(unread(file, error.kind())),
    };
    let Ok(seed) = RandomState::new(rt) else {
        return Err(unread(file, ErrorKind::Other));
    };
    Ok((files, Options::new(seed.hash_one(&0u8))))
}

/// Does a command's work on a copy of the operations in a file.
fn on_copy<'a, W: OnStore + Drop>(
    rt: &HostRuntime,
    file: &'a str,
    work: W,
) -> Result<W::Told, Refused<'a>> {
    let (files, options) = copy_of(rt, file)?;
    match Connection::open_files(rt.alloc(), files, options) {
        Ok(database) => on_database(rt, file, database, work),
        Err((error, _left)) => Err(refused(rt, file, error)),
    }
}

/// Whether a file can be opened to be read and written, as it stands.
fn is_open_to(rt: &HostRuntime, file: &str) -> bool {
    OpenOptions::new()
        .read(true)
        .write(true)
        .open(rt, file)
        .is_ok()
}

/// Whether a file has bytes.
fn has_bytes(rt: &HostRuntime, file: &str) -> bool {
    match fs::metadata(rt, file) {
        Ok(found) => found.len() > 0,
        Err(_unknown) => false,
    }
}

/// Whether opening a file makes nothing: it has bytes, its log is beside it, and both may be
/// written.
fn has_both(rt: &HostRuntime, file: &str) -> bool {
    let Ok(log) = beside(rt, file, "-wal") else {
        return false;
    };
    has_bytes(rt, file)
        && !is_new(rt, log.as_str())
        && is_open_to(rt, log.as_str())
        && is_open_to(rt, file)
}

/// Does a command's work on the operations in a file or a folder, of which nothing is changed, but
/// that a table of older programs becomes that of today. Where opening a file would make another,
/// or lose what its log has, or there is no right to write it, the work is done on a copy in
/// memory. A folder is opened as it stands.
pub fn view_file<'a, W: OnStore + Drop>(
    rt: &HostRuntime,
    file: &'a str,
    work: W,
) -> Result<W::Told, Refused<'a>> {
    if is_folder(rt, file) {
        return Ok(on_log(log_to_view(rt, file)?, work));
    }
    if tail_beside(rt, file) == Tail::Lost {
        note(rt, file, Note::LostFrames);
        return on_copy(rt, file, work);
    }
    if has_both(rt, file) {
        return on_shelf(rt, file, work);
    }
    note_log(rt, file);
    on_copy(rt, file, work)
}
