//! The file of a site's shelf.

use crate::folder::{is_folder, log_to_fill, on_log};
use crate::log_tail::see_tail;
use crate::output::{
    CommandFault, FileCause, Note, file_cause_in_error, file_cause_of, is_other, lacks_log,
};
use crate::refused::{Refused, note};
use op_shelf::{Shelf, ShelfFault, StoreCause, make_ready};
use shelved_site::Store;
use sqlite::{Alter, Connection, Error, Wary};
use std::alloc::AllocError;
use std::fs;
use std::fs::{File, OpenOptions};
use std::io::{ErrorKind, Read};
use std::os::unix::fs::MetadataExt;
use std::rt::HostRuntime;

/// How many bytes of a file tell what it holds.
const FRONT: u64 = 20;

/// What a command does on the operations of its archive. It does so on any store: what is said of a
/// store is proved again by each function that names one, and so few do.
pub trait OnStore {
    type Told;

    fn on<S: Store + Drop + Send>(self, store: S) -> Self::Told;
}

/// The first bytes of a file, where it can be read.
pub fn front_of(rt: &HostRuntime, file: &str) -> Option<Vec<u8>> {
    let Ok(opened) = File::open(rt, file) else {
        return None;
    };
    let mut front = Vec::new(rt.alloc());
    match opened.take(FRONT).read_to_end(&mut front) {
        Ok(_) => Some(front),
        Err(_unread) => None,
    }
}

/// The path of a file beside another one, whose name goes on so: where a link leads, as the
/// database has it.
pub fn beside(rt: &HostRuntime, file: &str, more: &str) -> Result<String, AllocError> {
    match fs::canonicalize(rt, file) {
        Ok(found) => {
            let found = found.as_str();
            format!(in rt.alloc(); "{found}{more}")
        }
        Err(_unknown) => format!(in rt.alloc(); "{file}{more}"),
    }
}

/// Whether a file is not there, so that opening its shelf makes it.
pub fn is_new(rt: &HostRuntime, file: &str) -> bool {
    matches!(fs::exists(rt, file), Ok(false))
}

/// Says where a file that is there may lack its log.
pub fn note_log(rt: &HostRuntime, file: &str) {
    let (Some(front), Ok(log)) = (front_of(rt, file), beside(rt, file, "-wal")) else {
        return;
    };
    if lacks_log(front.as_slice(), !is_new(rt, log.as_str())) {
        note(rt, file, Note::WithoutLog);
    }
}

/// Why a file that is not there could not be made, as far as its folder tells: that is not there,
/// or has a link of this name. All else is told as want of a right, also a disk that is full or
/// read-only.
fn cause_of_absence(rt: &HostRuntime, file: &str) -> FileCause {
    if fs::symlink_metadata(rt, file).is_ok() {
        return FileCause::Link;
    }
    let folder = match file.rsplit_once('/') {
        None => ".",
        Some(("", _)) => "/",
        Some((folder, _)) => folder,
    };
    if is_new(rt, folder) {
        return FileCause::NoFolder;
    }
    FileCause::NoRights
}

/// Why an open file can't be a site's, where its kind or its names tell.
fn cause_of_kind(opened: &File) -> Option<FileCause> {
    match opened.metadata() {
        Ok(found) if found.is_file() && found.nlink() == 1 => None,
        _ => Some(FileCause::NotPlain),
    }
}

/// Why a file can't be opened to be read and written, where that is so.
fn cause_of_open(rt: &HostRuntime, file: &str) -> Option<FileCause> {
    match OpenOptions::new().read(true).write(true).open(rt, file) {
        Ok(opened) => cause_of_kind(&opened),
        Err(error) if error.kind() == ErrorKind::NotFound => Some(cause_of_absence(rt, file)),
        Err(error) => Some(file_cause_of(error.kind())),
    }
}

/// Why a file that can be opened has none beside it that can: a journal that is there, or no right
/// to make a log.
fn cause_beside(rt: &HostRuntime, file: &str) -> FileCause {
    let (Ok(journal), Ok(log)) = (beside(rt, file, "-journal"), beside(rt, file, "-wal")) else {
        return FileCause::Unopened;
    };
    if !is_new(rt, journal.as_str()) {
        return FileCause::Journal;
    }
    match OpenOptions::new()
        .read(true)
        .write(true)
        .open(rt, log.as_str())
    {
        Ok(_opened) => FileCause::NotPlain,
        Err(error) if error.kind() == ErrorKind::NotFound => FileCause::NoRights,
        Err(error) => file_cause_of(error.kind()),
    }
}

/// Why a file is not opened, as the system and its error tell.
fn cause_of(rt: &HostRuntime, file: &str, error: Error) -> FileCause {
    if let Some(cause) = file_cause_in_error(error) {
        return cause;
    }
    match cause_of_open(rt, file) {
        Some(cause) => cause,
        None => cause_beside(rt, file),
    }
}

/// A shelf over a connection, or why there is none: a database that has a table is another
/// program's.
pub fn adopted<'a, S: Alter + Drop>(
    rt: &HostRuntime,
    file: &'a str,
    mut database: Connection<S>,
) -> Result<Shelf<S>, Refused<'a>> {
    match make_ready(&mut database, rt.alloc()) {
        Ok(()) => {}
        Err(ShelfFault::Store(StoreCause::Other)) if !database.schema().tables.is_empty() => {
            let fault = CommandFault::Shelf(ShelfFault::Store(StoreCause::Other));
            return Err(Refused::file(file, fault, FileCause::OtherDatabase));
        }
        Err(fault) => return Err(Refused::of(file, CommandFault::Shelf(fault))),
    }
    match Shelf::adopt(rt.alloc(), database) {
        Ok(shelf) => Ok(shelf),
        Err(fault) => Err(Refused::of(file, CommandFault::Shelf(fault))),
    }
}

/// The fault of a database that is not opened.
pub fn refused<'a>(rt: &HostRuntime, file: &'a str, error: Error) -> Refused<'a> {
    match ShelfFault::from(error) {
        ShelfFault::Store(why) => {
            let fault = CommandFault::Shelf(ShelfFault::Store(why));
            Refused::file(file, fault, cause_of(rt, file, error))
        }
        fault => Refused::of(file, CommandFault::Shelf(fault)),
    }
}

/// Refuses a file that is there and of another kind, before anything is made beside it, and one of
/// whose log an open would lose what may count; and says where a file may lack its log.
pub fn see_kind<'a>(rt: &HostRuntime, file: &'a str) -> Result<(), Refused<'a>> {
    let Some(front) = front_of(rt, file) else {
        return Ok(());
    };
    if is_other(front.as_slice()) {
        let fault = CommandFault::Shelf(ShelfFault::Store(StoreCause::Other));
        return Err(Refused::file(file, fault, FileCause::OtherKind));
    }
    see_tail(rt, file)?;
    note_log(rt, file);
    Ok(())
}

/// Does a command's work on the shelf over a connection.
pub fn on_database<'a, S: Alter + Drop + Send, W: OnStore + Drop>(
    rt: &HostRuntime,
    file: &'a str,
    database: Connection<S>,
    work: W,
) -> Result<W::Told, Refused<'a>> {
    match adopted(rt, file, database) {
        Ok(shelf) => Ok(work.on(shelf)),
        Err(refused) => Err(refused),
    }
}

/// Does a command's work on the operations in a file, of which nothing is supposed, and which is
/// made where it is not there.
pub fn on_shelf<'a, W: OnStore + Drop>(
    rt: &HostRuntime,
    file: &'a str,
    work: W,
) -> Result<W::Told, Refused<'a>> {
    see_kind(rt, file)?;
    match Connection::open_from(rt, file, false, Wary) {
        Ok(database) => on_database(rt, file, database, work),
        Err((error, _left)) => Err(refused(rt, file, error)),
    }
}

/// Does a command's work on the operations in a file or a folder. What is not there is made: as a
/// folder where its name ends with a slash, and else as a file. Each kind of store is named by a
/// function of its own.
pub fn on_file<'a, W: OnStore + Drop>(
    rt: &HostRuntime,
    file: &'a str,
    work: W,
) -> Result<W::Told, Refused<'a>> {
    if is_folder(rt, file) {
        return Ok(on_log(log_to_fill(rt, file)?, work));
    }
    on_shelf(rt, file, work)
}
