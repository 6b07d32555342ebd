//! Why a command is refused, in words: the second line on standard error.

ghost use Rattle.std.specs.Prelude.{◌≡◌};
ghost use Rattle.archive_app.specs.Causes.{place_in};
ghost use Rattle.archive_app.specs.Causes.{SaysFullOfAFullDisk, words_of_file, words_of_net, words_of_part};
ghost use Rattle.archive_app.specs.Causes.{words_of_fault, words_of as words_in, file_cause_of as file_cause_in};
ghost use Rattle.archive_app.specs.Causes.{file_cause_in_error, listen_cause_of as listen_cause_in};
ghost use Rattle.archive_app.specs.Causes.{reach_cause_of as reach_cause_in};

use crate::output::ending::CommandFault;
use archive_server::{NetFault, words_of_shelf};
use association_run::RunFault;
use command_words::Part;
use exchange::ExchangeFault;
use site_desk::AskFault;
use site_hub::HubFault;
use site_simulation::SimFault;
use site_state::SiteFault;
use sqlite::{Error, ErrorCode};
use std::io::ErrorKind;

/// Why a file is refused.
#[derive(Clone, Copy, Debug, PartialEq, Eq)]
pub enum FileCause {
    InUse,
    /// It is not there, and is not to be made.
    Absent,
    /// It is a folder that has something else in it.
    Folder,
    NoFolder,
    /// It is a symbolic link to what is not there.
    Link,
    NoRights,
    ReadOnly,
    /// It is a device, say, or has a second name.
    NotPlain,
    OtherKind,
    OtherDatabase,
    Damaged,
    /// At this byte of its heads they are none that are written.
    Heads(usize),
    /// It has heads, and no file of the data sets that they lead to.
    NoBodies,
    Journal,
    Full,
    /// The disk failed, for another cause than want of room.
    Failed,
    /// It was not opened, and no more is known.
    Unopened,
    /// Some of its operations can't be read.
    Unreadable,
    /// One of them may be a rejection note.
    Hidden,
    /// Its log has frames behind a bad one, which an open would cut off.
    LostFrames,
    /// So many of the operations that it has held are not there, at least.
    Missing(usize),
}

/// Why an address is refused.
#[derive(Clone, Copy, Debug, PartialEq, Eq)]
pub enum NetCause {
    InUse,
    NotHere,
    NoRights,
    /// Nothing can listen there, and no more is known.
    Unheard,
    Nobody,
    NoAnswer,
    NoWay,
    /// It is not reached, and no more is known.
    Unreached,
    /// It said nothing for as long as it may.
    Silent,
}

/// Why a command is refused, as far as it is known.
#[derive(Clone, Copy, Debug, PartialEq, Eq)]
pub enum Cause {
    File(FileCause),
    Net(NetCause),
    /// This part of a correction may not be.
    Part(Part),
    /// No more is known than the fault.
    Fault(CommandFault),
}

/// Why a file is refused, by the kind of the system's error.
pub fn file_cause_of(kind: ErrorKind) -> FileCause
    ensures { result ≡ file_cause_in kind }
{
    match kind {
        ErrorKind::NotFound => FileCause::NoFolder,
        ErrorKind::NotADirectory => FileCause::NoFolder,
        ErrorKind::PermissionDenied => FileCause::NoRights,
        ErrorKind::IsADirectory => FileCause::Folder,
        ErrorKind::ReadOnlyFilesystem => FileCause::ReadOnly,
        ErrorKind::StorageFull => FileCause::Full,
        ErrorKind::QuotaExceeded => FileCause::Full,
        ErrorKind::Unsupported => FileCause::NotPlain,
        _ => FileCause::Unopened,
    }
}

/// Why a file is refused, by the database's error, or `None` where that says nothing of a cause.
pub fn file_cause_in_error(error: Error) -> Option<FileCause>
    ensures { result ≡ file_cause_in_error error }
{
    match error {
        Error::SqliteFailure(ErrorCode::DatabaseBusy) => Some(FileCause::InUse),
        Error::SqliteFailure(ErrorCode::NotADatabase) => Some(FileCause::Damaged),
        Error::SqliteFailure(ErrorCode::DatabaseCorrupt) => Some(FileCause::Damaged),
        Error::SqliteFailure(ErrorCode::DiskFull) => Some(FileCause::Full),
        Error::SqliteFailure(ErrorCode::SystemIoFailure) => Some(FileCause::Failed),
        _ => None,
    }
}

/// Why nothing can listen at an address, by the kind of the system's error.
pub fn listen_cause_of(kind: ErrorKind) -> NetCause
    ensures { result ≡ listen_cause_in kind }
{
    match kind {
        ErrorKind::AddrInUse => NetCause::InUse,
        ErrorKind::AddrNotAvailable => NetCause::NotHere,
        ErrorKind::PermissionDenied => NetCause::NoRights,
        _ => NetCause::Unheard,
    }
}

/// Why a peer is not reached, likewise.
pub fn reach_cause_of(kind: ErrorKind) -> NetCause
    ensures { result ≡ reach_cause_in kind }
{
    match kind {
        ErrorKind::ConnectionRefused => NetCause::Nobody,
        ErrorKind::TimedOut => NetCause::NoAnswer,
        ErrorKind::WouldBlock => NetCause::NoAnswer,
        ErrorKind::HostUnreachable => NetCause::NoWay,
        ErrorKind::NetworkUnreachable => NetCause::NoWay,
        _ => NetCause::Unreached,
    }
}

fn words_of_file(cause: FileCause) -> &'static str
    ensures { result.now ≡ words_of_file cause }
{
    match cause {
        FileCause::InUse => "another program has it open",
        FileCause::Absent => "it is not there",
        FileCause::Folder => "it is a folder, and no archive's",
        FileCause::NoFolder => "its folder is not there",
        FileCause::Link => "it is a link that leads nowhere",
        FileCause::NoRights => "no right to read and write it, or to make files in its folder",
        FileCause::ReadOnly => "its file system is read-only",
        FileCause::NotPlain => "it is no plain file, or has a second name",
        FileCause::OtherKind => "it is no archive's file",
        FileCause::OtherDatabase => "it is another program's database",
        FileCause::Damaged => "it is damaged, or no archive's file",
        FileCause::Heads(_) => "its file heads is damaged, at byte",
        FileCause::NoBodies => "its file bodies is not there",
        FileCause::Journal => "a rollback journal is beside it: open it with sqlite3 first",
        FileCause::Full => "the disk is full",
        FileCause::Failed => "the disk failed",
        FileCause::Unopened => "it could not be opened",
        FileCause::Unreadable => "some of its operations can't be read",
        FileCause::Hidden =>
            "a rejection note may be among what can't be read: archive exchange with another \
            site, or a restore, mends it; --show-without serves without it",
        FileCause::LostFrames =>
            "its -wal is damaged, and an open would lose frames: archive move brings out the rest",
        FileCause::Missing(_) =>
            "it held more operations, as where an older copy is in its place: archive exchange \
            with another site brings them, --show-without serves without; missing:",
    }
}

fn words_of_net(cause: NetCause) -> &'static str
    ensures { result.now ≡ words_of_net cause }
{
    match cause {
        NetCause::InUse => "the port is in use",
        NetCause::NotHere => "it is no address of this machine",
        NetCause::NoRights => "no right to listen at this port",
        NetCause::Unheard => "nothing can listen there",
        NetCause::Nobody => "nobody listens there",
        NetCause::NoAnswer => "it did not answer in time",
        NetCause::NoWay => "no way leads there",
        NetCause::Unreached => "it could not be reached",
        NetCause::Silent => "it said nothing for as long as it may",
    }
}

fn words_of_part(part: Part) -> &'static str
    ensures { result.now ≡ words_of_part part }
{
    match part {
        Part::Key => "KEY is no UID, or no Patient ID, that a target can have",
        Part::Tag => "TAG is no attribute of this target that can be corrected",
        Part::Value =>
            "VALUE is longer than 64, or has a byte or an outer space that it may not have",
    }
}

fn words_of_script(fault: SimFault) -> &'static str
    ensures { result.now ≡ words_of_fault (CommandFault.Simulate fault) }
{
    match fault {
        SimFault::Read => "standard input could not be read",
        SimFault::Write => "standard output could not be written",
        SimFault::LongLine => "a line is longer than 65,536 bytes",
        SimFault::Memory => "memory was refused",
        SimFault::Turns => "the script does not end",
    }
}

fn words_of_site(fault: SiteFault) -> &'static str
    ensures { result.now ≡ words_of_fault (CommandFault.Site fault) }
{
    match fault {
        SiteFault::Collision => "two different operations have one digest",
        SiteFault::Memory => "memory was refused",
    }
}

fn words_of_hub(fault: HubFault) -> &'static str
    ensures { result.now ≡ words_of_fault (CommandFault.Hub fault) }
{
    match fault {
        HubFault::Busy => "the site was busy",
        HubFault::Collision => "two different operations have one digest",
        HubFault::Memory => "memory was refused",
        HubFault::StampsSpent => "the last counter of stamps is used",
        HubFault::Torn => "its workers do not agree on what it has",
        HubFault::Pending => "memory was refused",
        HubFault::BadCorrection => "a part of the correction may not be",
    }
}

fn words_of_run(fault: RunFault) -> &'static str
    ensures { result.now ≡ words_of_fault (CommandFault.Run fault) }
{
    match fault {
        RunFault::Read => "a peer went away, or fell silent, in an association",
        RunFault::Write => "a peer went away, or took nothing, in an association",
        RunFault::Memory => "memory was refused",
        RunFault::Turns => "an association does not end",
    }
}

fn words_of_exchange(fault: ExchangeFault) -> &'static str
    ensures { result.now ≡ words_of_fault (CommandFault.Exchange fault) }
{
    match fault {
        ExchangeFault::BadFrame =>
            "it sent what is no frame, or one out of its turn, or closed too soon",
        ExchangeFault::TooLong => "a frame is longer than is read or written",
        ExchangeFault::Stranger => "it sent an operation that was not asked for",
        ExchangeFault::Io => "the connection broke off",
        ExchangeFault::Memory => "memory was refused",
        ExchangeFault::Turns => "the exchange does not end",
        ExchangeFault::Refused => "an operation was refused: by a disk, or for an equal digest",
    }
}

fn words_of_refused(fault: NetFault) -> &'static str
    ensures { result.now ≡ words_of_fault (CommandFault.Net fault) }
{
    match fault {
        NetFault::Listen => "nothing can listen there",
        NetFault::Accept => "a connection could not be accepted",
        NetFault::Connect => "it could not be reached",
    }
}

fn words_of_ask(fault: AskFault) -> &'static str
    ensures { result.now ≡ words_of_fault (CommandFault.Ask fault) }
{
    match fault {
        AskFault::Broken => "the connection broke off",
        AskFault::TooLong => "its answer is longer than 64 MiB, or has too many pages",
        AskFault::NoAnswer => "it answered what no running site does",
        AskFault::Memory => "memory was refused",
        AskFault::Refused(why) => why.words(),
        AskFault::Unready => "it cannot tell that now: ask again",
        AskFault::Unsaid => "it could not say what came of it: it may be corrected",
    }
}

fn words_of_fault(fault: CommandFault) -> &'static str
    ensures { result.now ≡ words_of_fault fault }
{
    match fault {
        CommandFault::Simulate(fault) => words_of_script(fault),
        CommandFault::Shelf(fault) => words_of_shelf(fault),
        CommandFault::Site(fault) => words_of_site(fault),
        CommandFault::Hub(fault) => words_of_hub(fault),
        CommandFault::Run(fault) => words_of_run(fault),
        CommandFault::Exchange(fault) => words_of_exchange(fault),
        CommandFault::Net(fault) => words_of_refused(fault),
        CommandFault::Ask(fault) => words_of_ask(fault),
    }
}

/// Of a shelf that refused a command says that the disk is full exactly where the database said
/// that there is no room: a law, said as the contract of a function with nothing to do.
pub fn a_full_disk_is_told_as_one()
    ensures { SaysFullOfAFullDisk }
{}

/// The number behind the words of a cause, where it has one: the byte of a file, or how many
/// operations are missing.
pub fn place_of(cause: Cause) -> Option<usize>
    ensures { result ≡ place_in cause }
{
    match cause {
        Cause::File(FileCause::Heads(at)) => Some(at),
        Cause::File(FileCause::Missing(count)) => Some(count),
        _ => None,
    }
}

/// A cause in words. It takes no memory.
pub fn words_of(cause: Cause) -> &'static str
    ensures { result.now ≡ words_in cause }
{
    match cause {
        Cause::File(cause) => words_of_file(cause),
        Cause::Net(cause) => words_of_net(cause),
        Cause::Part(part) => words_of_part(part),
        Cause::Fault(fault) => words_of_fault(fault),
    }
}
