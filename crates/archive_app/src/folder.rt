//! The folder of a site's log.

ghost use Rattle.std.specs.Prelude.{IsTrue};
ghost use Rattle.archive_app.specs.Notes.{names_folder as names_folder_in};

use crate::file::{OnStore, is_new};
use crate::output::{CommandFault, FileCause, Note, file_cause_of, names_folder};
use crate::progress::Progress;
use crate::refused::{Refused, about, note, note_unread};
use head_log::{HeadFault, HeadLog};
use op_log::{
    FolderFault, FolderFile, FolderLog, LogFault, OpenedFolder, open_folder, records_file,
};
use op_shelf::{ShelfFault, StoreCause};
use record_log::{Told, all_told, open_told};
use records::RecordedContent;
use shelved_site::{Following, Hearing, KeptLog, Sited, Unreadable, shelf_fault, site_on_log};
use sqlite::Wary;
use std::alloc::AllocError;
use std::fs;
use std::io::ErrorKind;
use std::rt::HostRuntime;
use std::thread::Threads;

/// Whether a path is that of a folder: its name ends so, or it is one.
pub fn is_folder(rt: &HostRuntime, file: &str) -> bool
    ensures named { IsTrue (names_folder_in file.now) → IsTrue result }
{
    if names_folder(file) {
        return true;
    }
    match fs::metadata(rt, file) {
        Ok(found) => found.is_dir(),
        Err(_unknown) => false,
    }
}

/// The path of a file in a folder.
pub fn within(rt: &HostRuntime, folder: &str, name: &str) -> Result<String, AllocError> {
    format!(in rt.alloc(); "{folder}/{name}")
}

/// Whether a folder has the heads of a log.
fn has_heads(rt: &HostRuntime, folder: &str) -> bool {
    match within(rt, folder, "heads") {
        Ok(heads) => !is_new(rt, heads.as_str()),
        Err(_refused) => true,
    }
}

/// How many bytes a file of a folder has, where it is there.
fn length_of(rt: &HostRuntime, folder: &str, name: &str) -> Option<u64> {
    let path = within(rt, folder, name).ok()?;
    match fs::metadata(rt, path.as_str()) {
        Ok(found) => Some(found.len()),
        Err(_unknown) => None,
    }
}

/// The most bytes that a file of groups has while no group is in it: those of a shut gate.
const NO_GROUP: u64 = 8;

/// Whether records are beside a log. A file that has none, or less, would be begun.
fn has_records(rt: &HostRuntime, folder: &str) -> bool {
    length_of(rt, folder, "records").unwrap_or(0) > NO_GROUP
}

/// Whether a log has heads, and no file that they lead to.
fn lacks_bodies(rt: &HostRuntime, folder: &str) -> bool {
    length_of(rt, folder, "heads").unwrap_or(0) > NO_GROUP
        && length_of(rt, folder, "bodies").is_none()
}

/// Whether data sets are in a folder, and nothing leads to them: as a copy that broke off leaves
/// it, or a crash in the first put.
fn lacks_heads(rt: &HostRuntime, folder: &str) -> bool {
    length_of(rt, folder, "heads").unwrap_or(0) <= NO_GROUP
        && length_of(rt, folder, "bodies").unwrap_or(0) > 1
}

/// Whether something is in a folder, as far as that is known.
fn is_filled(rt: &HostRuntime, folder: &str) -> bool {
    match fs::read_dir(rt, folder) {
        Ok(mut found) => found.next().is_some(),
        Err(_unknown) => false,
    }
}

/// Whether a folder has something else in it than a log.
fn is_other_folder(rt: &HostRuntime, folder: &str) -> bool {
    !has_heads(rt, folder) && is_filled(rt, folder)
}

/// Whether an archive is not there, so that opening it makes it: a file that is not there, or a
/// folder that is not or has nothing in it.
pub fn is_absent(rt: &HostRuntime, file: &str) -> bool {
    if is_folder(rt, file) {
        return !has_heads(rt, file) && !is_filled(rt, file);
    }
    is_new(rt, file)
}

/// The fault of a folder that is refused for a cause.
fn refused_for<'a>(folder: &'a str, cause: FileCause) -> Refused<'a> {
    let fault = CommandFault::Shelf(ShelfFault::Store(StoreCause::Other));
    Refused::file(folder, fault, cause)
}

/// The fault of a log that is not opened.
fn refused_log<'a>(folder: &'a str, fault: LogFault) -> Refused<'a> {
    let told = CommandFault::Shelf(shelf_fault(fault));
    match fault {
        LogFault::DamagedHeads(at) => Refused::file(folder, told, FileCause::Heads(at)),
        _ => Refused::of(folder, told),
    }
}

/// The fault of a folder whose log is not opened.
fn refused<'a>(folder: &'a str, fault: FolderFault) -> Refused<'a> {
    match fault {
        FolderFault::System(error) if error.kind() == ErrorKind::OutOfMemory => {
            Refused::of(folder, CommandFault::Shelf(ShelfFault::Memory))
        }
        FolderFault::System(error) => refused_for(folder, file_cause_of(error.kind())),
        FolderFault::Busy => refused_for(folder, FileCause::InUse),
        FolderFault::Journal => refused_for(folder, FileCause::Journal),
        FolderFault::Log(fault) => refused_log(folder, fault),
        FolderFault::Memory => Refused::of(folder, CommandFault::Shelf(ShelfFault::Memory)),
    }
}

/// Why a folder may not be a log's, where that is so.
fn refusal_of<'a>(rt: &HostRuntime, folder: &'a str) -> Option<Refused<'a>> {
    if is_other_folder(rt, folder) {
        return Some(refused_for(folder, FileCause::Folder));
    }
    if lacks_bodies(rt, folder) {
        let fault = CommandFault::Shelf(shelf_fault(LogFault::DamagedHeads(0)));
        return Some(Refused::file(folder, fault, FileCause::NoBodies));
    }
    None
}

/// Opens the log in a folder, of which nothing is supposed. The folder is made where it is not
/// there; one that has something else in it, or heads without data sets, is refused before anything
/// is made. What is of the older form is renewed, and data sets that end too soon are lengthened,
/// once its records are gone, so that each image is read: both are said.
pub fn log_in<'a>(rt: &HostRuntime, folder: &'a str) -> Result<FolderLog, Refused<'a>> {
    if let Some(refused) = refusal_of(rt, folder) {
        return Err(refused);
    }
    if lacks_heads(rt, folder) {
        note(rt, folder, Note::NoHeads);
    }
    match open_folder(rt, folder) {
        Ok(
            OpenedFolder {
                log,
                is_renewed,
                hid_a_group,
                lacked_bodies,
            },
        ) => {
            if is_renewed {
                note(rt, folder, Note::RenewedHeads);
            }
            if hid_a_group {
                note(rt, folder, Note::HiddenGroup);
            }
            if lacked_bodies {
                note(rt, folder, Note::ShortBodies);
            }
            Ok(log)
        }
        Err(fault) => Err(refused(folder, fault)),
    }
}

/// Who hears of what is read of a file or a folder.
#[derive(Drop)]
pub struct Starting<'a> {
    rt: &'a HostRuntime,
    file: &'a str,
    progress: Progress<'a>,
}

impl<'a> Starting<'a> {
    /// Its operations are read.
    pub fn begins(rt: &'a HostRuntime, file: &'a str) -> Starting<'a> {
        let progress = Progress::of(rt);
        progress.begins(file);
        Starting { rt, file, progress }
    }
}

impl Hearing for Starting<'_> {
    fn has_read(&self, operations: usize) {
        self.progress.has_read(operations);
    }

    fn cannot_read(&self, unreadable: &Unreadable) {
        note_unread(self.rt, self.file, unreadable);
    }

    fn has_other_records(&self) {
        note(self.rt, self.file, Note::OtherRecords);
    }
}

impl Following for Starting<'_> {
    fn has_read(&self, operations: usize) {
        self.progress.moves(operations);
    }

    fn cannot_read(&self, unreadable: &Unreadable) {
        note_unread(self.rt, self.file, unreadable);
    }

    fn has_put(&self, operations: usize) {
        self.progress.has_put(operations);
    }
}

/// What the file of records in the folder of a log tells, and what adds to it. Why it tells nothing
/// is said on standard error.
pub fn records_in(rt: &HostRuntime, folder: &str) -> Told<FolderFile> {
    let alloc = rt.alloc();
    let told = match records_file(rt, folder, Wary) {
        Ok(file) => open_told(alloc, file),
        Err(_refused) => Told::none(alloc, HeadFault::Disk),
    };
    match told.fault {
        None => {}
        Some(HeadFault::Damaged(_)) => note(rt, folder, Note::DamagedRecords),
        Some(_) => note(rt, folder, Note::NoRecords),
    }
    told
}

/// What the records in a folder tell, or nothing where there are none, or none that can be read.
/// They are neither made nor begun anew.
fn told_to_view(rt: &HostRuntime, folder: &str) -> Vec<RecordedContent> {
    let alloc = rt.alloc();
    if !has_records(rt, folder) {
        return Vec::new(alloc);
    }
    let Ok(file) = records_file(rt, folder, Wary) else {
        return Vec::new(alloc);
    };
    let Ok(mut records) = HeadLog::over(alloc, file) else {
        return Vec::new(alloc);
    };
    match all_told(alloc, &mut records) {
        Ok(contents) => contents,
        Err(_unread) => Vec::new(alloc),
    }
}

/// The log in a folder as a command's store.
pub type FolderStore = KeptLog<FolderFile, FolderFile>;

/// The log in a folder, of which nothing is changed. The two files without a byte that the database
/// makes beside each of its files are made where they are not there.
pub fn log_to_view<'a>(rt: &HostRuntime, folder: &'a str) -> Result<FolderStore, Refused<'a>> {
    Ok(KeptLog::of(rt.alloc(), log_in(rt, folder)?))
}

/// The log in a folder, to which a command adds. Where it is empty what is added is recorded beside
/// it, so that no start need read it; where it is not, records of what comes last would stand
/// before those of the rest, which a start adds.
pub fn log_to_fill<'a>(rt: &HostRuntime, folder: &'a str) -> Result<FolderStore, Refused<'a>> {
    let log = log_in(rt, folder)?;
    if log.len() > 0 {
        return Ok(KeptLog::of(rt.alloc(), log));
    }
    let Told {
        contents,
        records,
        fault: _,
    } = records_in(rt, folder);
    if !contents.is_empty() {
        return Ok(KeptLog::of(rt.alloc(), log));
    }
    Ok(KeptLog::beside(rt.alloc(), log, records))
}

/// The site of a log, of which some contents are told, and the log.
fn sited<'a, T: Threads + Sync>(
    rt: &HostRuntime,
    threads: &T,
    folder: &'a str,
    mut log: FolderStore,
    told: &[RecordedContent],
) -> Result<(Sited, FolderStore), Refused<'a>> {
    let starting = Starting::begins(rt, folder);
    match about(
        folder,
        site_on_log(rt.alloc(), threads, &mut log, told, &starting),
    ) {
        Ok(sited) => Ok((sited, log)),
        Err(refused) => Err(refused),
    }
}

/// The site of the log in a folder, and the log. What is told beside it is not read, and nothing of
/// both is changed.
pub fn site_to_view<'a, T: Threads + Sync>(
    rt: &HostRuntime,
    threads: &T,
    folder: &'a str,
) -> Result<(Sited, FolderStore), Refused<'a>> {
    let log = log_to_view(rt, folder)?;
    let told = told_to_view(rt, folder);
    sited(rt, threads, folder, log, told.as_slice())
}

/// The same, where what is added to the log is recorded beside it.
pub fn site_in<'a, T: Threads + Sync>(
    rt: &HostRuntime,
    threads: &T,
    folder: &'a str,
) -> Result<(Sited, FolderStore), Refused<'a>> {
    let log = log_in(rt, folder)?;
    let Told {
        contents,
        records,
        fault: _,
    } = records_in(rt, folder);
    let log = KeptLog::beside(rt.alloc(), log, records);
    sited(rt, threads, folder, log, contents.as_slice())
}

/// Does a command's work on a log.
pub fn on_log<W: OnStore + Drop>(log: FolderStore, work: W) -> W::Told {
    work.on(log)
}
