//! A log in a folder: the files `heads` and `bodies`, and beside each the second file that the port
//! makes, which stays empty. Beside them a third one, `records`, is kept of what a start need not
//! read again.

ghost use Rattle.std.specs.Prelude.{◌≡◌, ℕ, false, List, IfErr, IfOk, IfSome, IsSome, IsTrue};
ghost use Rattle.op_log.specs.declared.fault.LogFault.{LogFault};
ghost use Rattle.op_log.specs.Fault.{IsNoLog, IsOfOpen};
ghost use Rattle.op_log.specs.Folder.{file_is_clean, file_leaves};
ghost use Rattle.op_log.specs.Heads.{Head};
ghost use Rattle.op_log.specs.Kept.{StandsFor};
ghost use Rattle.op_log.specs.Walking.{AreOfLog};
ghost use Rattle.sqlite_std_file.specs.File.{file_is_usable, IsFresh};

use crate::fault::LogFault;
use crate::folder_fault::FolderFault;
use crate::folder_refused::FolderRefused;
use crate::lengthening::{lengthened, reached};
use crate::log::OpLog;
use crate::older_folder::{remove, renew_folder};
use crate::refused::Refused;
use sqlite_disk::Files;
use sqlite_std_file::{FileFrom, Start, Wary, open};
use std::fs::{self, File};
use std::io;
use std::rt::HostRuntime;

/// A file in a folder, of which nothing is supposed.
pub type FolderFile = FileFrom<Wary>;

/// A log in a folder, of which nothing is supposed.
pub type FolderLog = OpLog<FolderFile, FolderFile>;

/// A log in a folder that was opened, and whether its heads were of the older form until then. A
/// whole group may have stood behind the gate at which they ended, which does not count: it was
/// being added when the archive was stopped, or its gate was changed. Then the older file is kept
/// beside the new one, under its name with `.older` behind it.
///
/// And whether its data sets ended before its heads lead: then what lay behind that end can't be
/// read until it is put again.
#[derive(Drop)]
pub struct OpenedFolder {
    pub log: FolderLog,
    pub is_renewed: bool,
    pub hid_a_group: bool,
    pub lacked_bodies: bool,
}

/// Makes the folder if it is not there. Afterwards its name is on the disk.
fn make_folder(rt: &HostRuntime, folder: &str) -> io::Result<()> {
    match fs::create_dir(rt, folder) {
        Err(error) if error.kind() != io::ErrorKind::AlreadyExists => return Err(error),
        _ => {}
    }
    let mut above = fs::canonicalize(rt, folder)?;
    above.pop();
    File::open(rt, above.as_str())?.sync_all()
}

/// The file at a path. It is made if it is not there, and locked until it is dropped. The port
/// syncs the folder that it is in, before anything is written.
pub(crate) fn file_at<S: Start>(
    rt: &HostRuntime,
    path: &str,
    start: S,
) -> Result<FileFrom<S>, FolderFault>
    ensures usable { IfOk result (λ file. IsTrue (file_is_usable S.Start file)) }
    ensures fresh { IfOk result (IsFresh false) }
    ensures fault { IfErr result IsNoLog }
{
    let files = open(rt, path, start)?;
    let Files { log: _, db } = files;
    Ok(db)
}

/// The file of a name in a folder, likewise.
pub(crate) fn file_in<S: Start>(
    rt: &HostRuntime,
    folder: &str,
    name: &str,
    start: S,
) -> Result<FileFrom<S>, FolderFault>
    ensures usable { IfOk result (λ file. IsTrue (file_is_usable S.Start file)) }
    ensures fresh { IfOk result (IsFresh false) }
    ensures fault { IfErr result IsNoLog }
{
    let path = format!(in rt.alloc(); "{folder}/{name}")?;
    file_at(rt, path.as_str(), start)
}

/// The files of a folder, which is made if it is not there.
fn files_in<H: Start, B: Start>(
    rt: &HostRuntime,
    folder: &str,
    heads: H,
    bodies: B,
) -> Result<(FileFrom<H>, FileFrom<B>), FolderFault>
    ensures usable { IfOk result (λ files. IsTrue (file_is_usable H.Start files.0)
        × IsTrue (file_is_usable B.Start files.1)) }
    ensures fresh { IfOk result (λ files. IsFresh false files.0 × IsFresh false files.1) }
    ensures fault { IfErr result IsNoLog }
{
    make_folder(rt, folder)?;
    let heads = file_in(rt, folder, "heads", heads)?;
    let bodies = file_in(rt, folder, "bodies", bodies)?;
    Ok((heads, bodies))
}

/// The log in a folder whose files hold what is supposed of them. Where both files were opened and
/// are none of a log, they are handed back.
pub fn log_in<H: Start, B: Start>(
    rt: &HostRuntime,
    folder: &str,
    heads: H,
    bodies: B,
) -> Result<OpLog<FileFrom<H>, FileFrom<B>>, FolderRefused<H, B>>
    // All that the file of heads stood for, in order.
    ensures found { IfOk result (λ log. IsTrue (file_is_clean H.Start log.heads)
        → (them : List Head) → StandsFor H.Start.db them → log.places ≡ them) }
    ensures open { IfOk result (λ log. IsTrue log.is_open) }
    // Files that come back stand for what they stood for, after a crash too.
    ensures kept { IfErr result (λ refused. IfSome refused.files (λ files.
        IsTrue (file_is_clean H.Start files.0) → (them : List Head) → StandsFor H.Start.db them
        → (c : List ℕ) → file_leaves H.Start files.0 c → StandsFor c them)) }
    // They come back where they are none of a log, and only then they are told as damaged.
    ensures log { IfErr result (λ refused. (f : LogFault) → refused.fault ≡ FolderFault.Log f
        → IsOfOpen f × IsSome refused.files) }
    ensures damaged { IfErr result (λ refused. IfSome refused.files (λ files. (n : ℕ)
        → refused.fault ≡ FolderFault.Log (LogFault.DamagedHeads n)
        → IsTrue (file_is_clean H.Start files.0) → IsTrue (file_is_clean B.Start files.1)
        → (them : List Head) → ¬ AreOfLog H.Start.db B.Start.db them)) }
{
    let (heads, bodies) = match files_in(rt, folder, heads, bodies) {
        Ok(files) => files,
        Err(fault) => return Err(FolderRefused { fault, files: None }),
    };
    match OpLog::open(rt.alloc(), heads, bodies) {
        Ok(log) => Ok(log),
        Err(
            Refused {
                fault,
                heads,
                bodies,
            },
        ) => Err(FolderRefused {
            fault: FolderFault::Log(fault),
            files: Some((heads, bodies)),
        }),
    }
}

/// Removes the records beside a log, which tell of operations that its data sets may lack.
/// Afterwards that is on the disk.
fn forget_records(rt: &HostRuntime, folder: &str) -> Result<(), FolderFault> {
    let records = format!(in rt.alloc(); "{folder}/records")?;
    remove(rt, records.as_str())?;
    File::open(rt, folder)?.sync_all()?;
    Ok(())
}

/// The log of files that were handed back since their heads lead behind the end of the data sets.
/// Its records go before these are lengthened: a stop between leaves what is opened so once more.
fn open_lengthened(
    rt: &HostRuntime,
    folder: &str,
    files: (FolderFile, FolderFile),
) -> Result<FolderLog, FolderFault>
    ensures open { IfOk result (λ log. IsTrue log.is_open) }
{
    let (heads, bodies) = files;
    let (heads, reach) = reached(rt.alloc(), heads)?;
    forget_records(rt, folder)?;
    let bodies = lengthened(bodies, reach)?;
    match OpLog::open(rt.alloc(), heads, bodies) {
        Ok(log) => Ok(log),
        Err(refused) => Err(FolderFault::Log(refused.fault)),
    }
}

/// The log in a folder, and whether its data sets ended before its heads lead.
fn open_files(rt: &HostRuntime, folder: &str) -> Result<(FolderLog, bool), FolderFault>
    ensures open { IfOk result (λ opened. IsTrue opened.0.is_open) }
{
    let FolderRefused { fault, files } = match log_in(rt, folder, Wary, Wary) {
        Ok(log) => return Ok((log, false)),
        Err(refused) => refused,
    };
    match (fault, files) {
        (FolderFault::Log(LogFault::DamagedHeads(_)), Some(files)) => {
            Ok((open_lengthened(rt, folder, files)?, true))
        }
        _ => Err(fault),
    }
}

/// Opens the log in a folder, of which nothing is supposed. The folder and its files are made where
/// they are not there, and those of the older form are renewed: where one of these is refused, it
/// stays as it is. Data sets that end before whole heads lead are lengthened to there, once the
/// records beside them, which told of what these lack, are gone. It is `Busy` while another program,
/// or this one, has them open.
pub fn open_folder(rt: &HostRuntime, folder: &str) -> Result<OpenedFolder, FolderFault>
    ensures open { IfOk result (λ opened. IsTrue opened.log.is_open) }
{
    let older = renew_folder(rt, folder)?;
    let (log, lacked_bodies) = open_files(rt, folder)?;
    Ok(OpenedFolder {
        log,
        is_renewed: older.is_some(),
        hid_a_group: matches!(older, Some((_, true))),
        lacked_bodies,
    })
}

/// The file of records in the folder of a log, which holds what is supposed of it. It is made where
/// it is not there, and it is `Busy` while another program, or this one, has it open.
pub fn records_file<S: Start>(
    rt: &HostRuntime,
    folder: &str,
    start: S,
) -> Result<FileFrom<S>, FolderFault>
    ensures usable { IfOk result (λ file. IsTrue (file_is_usable S.Start file)) }
    ensures fault { IfErr result IsNoLog }
{
    file_in(rt, folder, "records", start)
}
