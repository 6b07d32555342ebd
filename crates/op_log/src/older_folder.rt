//! Renews the files of a folder that are of the older form, when the log in it is opened.
//!
//! The groups of such a file are copied into a new one beside it, which has the name of the file
//! with `.new` behind it; each is synced. Then the new one gets the name of the older one, and the
//! folder is synced. So a crash leaves the older file or a new one that has all its groups, and
//! perhaps a part of a new one beside it, which the next renewal removes.
//!
//! What is held when: `bodies` is locked before the older file is opened, and until the new one has
//! its name. So of two programs one renews, and the other, if it comes later, opens what has the
//! name then. The older file is locked until the log has both its files: who had opened it before
//! it lost its name is told that it is in use, and writes nothing into it.

ghost use Rattle.std.specs.Prelude.{◌≡◌, IfOk, IsTrue};
ghost use Rattle.sqlite_std_file.specs.File.{file_is_usable};

use crate::fault::LogFault;
use crate::folder::{FolderFile, file_at, file_in};
use crate::folder_fault::FolderFault;
use crate::renewing::renewed;
use head_log::Refused;
use older_heads::is_older;
use sqlite_std_file::{FileFrom, Start, Wary};
use std::alloc::AllocError;
use std::fs::{self, File, OpenOptions, Permissions};
use std::io::{self, ErrorKind, Read};
use std::os::unix::fs::{MetadataExt, OpenOptionsExt, PermissionsExt, fchown};
use std::path::PathBuf;
use std::rt::HostRuntime;

/// The first byte of a file of more than eight; `None` of one that is shorter, or no plain file.
fn first_byte(rt: &HostRuntime, folder: &str, name: &str) -> Result<Option<u8>, FolderFault> {
    let path = format!(in rt.alloc(); "{folder}/{name}")?;
    let found = fs::metadata(rt, path.as_str())?;
    if !found.is_file() || found.len() < 9 {
        return Ok(None);
    }
    let mut front = [0];
    File::open(rt, path.as_str())?.read_exact(&mut front)?;
    Ok(Some(front[0]))
}

/// Whether a file of a folder has to be looked at, since it may be of the older form: most are not,
/// and are neither locked nor opened twice.
fn may_be_older(rt: &HostRuntime, folder: &str, name: &str) -> bool {
    match first_byte(rt, folder, name) {
        Ok(Some(first)) => first < 2,
        _ => false,
    }
}

/// Removes a file, if it is there.
pub(crate) fn remove(rt: &HostRuntime, path: &str) -> io::Result<()> {
    match fs::remove_file(rt, path) {
        Err(error) if error.kind() != ErrorKind::NotFound => Err(error),
        _ => Ok(()),
    }
}

/// The file that the port makes beside one.
fn second_of(rt: &HostRuntime, path: &str) -> Result<String, AllocError> {
    format!(in rt.alloc(); "{path}-wal")
}

/// Removes a file that is made anew, and what the port made beside it.
fn remove_both(rt: &HostRuntime, path: &str) -> Result<(), FolderFault> {
    let second = second_of(rt, path)?;
    remove(rt, second.as_str())?;
    remove(rt, path)?;
    Ok(())
}

/// What only root may do is left undone by others.
fn unless_denied(outcome: io::Result<()>) -> io::Result<()> {
    match outcome {
        Err(error) if error.kind() == ErrorKind::PermissionDenied => Ok(()),
        other => other,
    }
}

/// Makes a file of no byte that has the owner and the mode of another.
fn make_like(rt: &HostRuntime, path: &str, other: &str) -> io::Result<()> {
    let found = fs::metadata(rt, other)?;
    let file = OpenOptions::new()
        .read(true)
        .write(true)
        .create_new(true)
        .mode(0o600)
        .open(rt, path)?;
    unless_denied(fchown(&file, None, Some(found.gid())))?;
    unless_denied(fchown(&file, Some(found.uid()), None))?;
    file.set_permissions(Permissions::from_mode(found.mode() & 0o777))
}

/// A new file of no byte at a path, in place of what a crash left there.
fn begun_at<S: Start>(
    rt: &HostRuntime,
    path: &str,
    other: &str,
    start: S,
) -> Result<FileFrom<S>, FolderFault>
    ensures usable { IfOk result (λ file. IsTrue (file_is_usable S.Start file)) }
{
    remove_both(rt, path)?;
    make_like(rt, path, other)?;
    file_at(rt, path, start)
}

/// Gives a new file the name of an older one. Afterwards that is on the disk.
fn replace(rt: &HostRuntime, new: &str, path: PathBuf) -> Result<(), FolderFault> {
    let second = second_of(rt, new)?;
    remove(rt, second.as_str())?;
    fs::rename(rt, new, path.as_str())?;
    let mut folder = path;
    folder.pop();
    File::open(rt, folder.as_str())?.sync_all()?;
    Ok(())
}

/// Keeps an older file under another name, in place of what had it.
fn keep(rt: &HostRuntime, path: &str) -> Result<(), FolderFault> {
    let kept = format!(in rt.alloc(); "{path}.older")?;
    let kept = kept.as_str();
    remove(rt, kept)?;
    make_like(rt, kept, path)?;
    fs::copy(rt, path, kept)?;
    File::open(rt, kept)?.sync_all()?;
    Ok(())
}

/// The groups of an older file, in a new one that has its name then. The older one comes back, and
/// whether it has a whole group more, which does not count: then it is kept, if that is asked for.
fn renew_at<O: Start, N: Start>(
    rt: &HostRuntime,
    older: FileFrom<O>,
    start: N,
    keeps: bool,
    new: &str,
    path: PathBuf,
) -> Result<(FileFrom<O>, bool), FolderFault>
    requires usable { IsTrue (file_is_usable O.Start older) }
{
    let file = begun_at(rt, new, path.as_str(), start)?;
    match renewed(rt.alloc(), older, file) {
        Ok((older, file, hides)) => {
            if keeps && hides {
                keep(rt, path.as_str())?;
            }
            replace(rt, new, path)?;
            drop(file);
            Ok((older, hides))
        }
        Err(Refused { fault, disk: _ }) => Err(FolderFault::Log(LogFault::from(fault))),
    }
}

/// Renews a file of a folder where it is of the older form. The older one comes back, locked still,
/// and whether it has a group more.
fn renew_file<O: Start, N: Start>(
    rt: &HostRuntime,
    folder: &str,
    name: &str,
    older: O,
    start: N,
    keeps: bool,
) -> Result<Option<(FileFrom<O>, bool)>, FolderFault> {
    if !may_be_older(rt, folder, name) {
        return Ok(None);
    }
    let mut older = file_in(rt, folder, name, older)?;
    if !is_older(&mut older)? {
        return Ok(None);
    }
    let path = format!(in rt.alloc(); "{folder}/{name}")?;
    let path = fs::canonicalize(rt, path.as_str())?;
    let text = path.as_str();
    let new = format!(in rt.alloc(); "{text}.new")?;
    match renew_at(rt, older, start, keeps, new.as_str(), path) {
        Ok(renewed) => Ok(Some(renewed)),
        Err(fault) => {
            // What it was refused for is told, and not what its removal is.
            let _removed = remove_both(rt, new.as_str());
            Err(fault)
        }
    }
}

/// Renews the files of a folder that are of the older form. Where its heads were, they come back,
/// locked still, and whether they have a group more. Records that are refused stay as they are: who
/// reads them tells why they are none.
pub(crate) fn renew_folder(
    rt: &HostRuntime,
    folder: &str,
) -> Result<Option<(FolderFile, bool)>, FolderFault> {
    if !may_be_older(rt, folder, "heads") && !may_be_older(rt, folder, "records") {
        return Ok(None);
    }
    let bodies = file_in(rt, folder, "bodies", Wary)?;
    let older = renew_file(rt, folder, "heads", Wary, Wary, true)?;
    let _records = renew_file(rt, folder, "records", Wary, Wary, false);
    drop(bodies);
    Ok(older)
}
