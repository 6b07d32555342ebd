//! What a command says beside its answer, on standard error.

ghost use Rattle.std.specs.Prelude.{◌≡◌};
ghost use Rattle.archive_app.specs.Notes.{words_of_note, is_database as is_database_in, is_other as is_other_in};
ghost use Rattle.archive_app.specs.Notes.{lacks_log as lacks_log_in, names_folder as names_folder_in};

/// What a command says beside its answer.
#[derive(Clone, Copy, Debug, PartialEq, Eq)]
pub enum Note {
    /// What is reported stands in a folder.
    InLog,
    /// A file or a folder is served that was not there.
    Made,
    /// The log is not beside a file that may have had one.
    WithoutLog,
    /// The records beside a log can't be read: they are damaged, or the system refuses them.
    DamagedRecords,
    NoRecords,
    /// What leads to the data sets in a folder is empty, and these are there.
    NoHeads,
    /// What leads to the data sets in a folder was in the older form.
    RenewedHeads,
    /// A whole group stood there behind the gate at which the others end.
    HiddenGroup,
    /// The data sets in a folder ended before what leads to them.
    ShortBodies,
    /// What says how many operations there have been is damaged, or can't be written.
    DamagedHeld,
    NoHeld,
    /// The records do not follow the log.
    OtherRecords,
    /// It is served although a rejection note may be among what can't be read.
    ShownWithout,
    /// The log beside a file is damaged, and what stands behind the damage is not read.
    LostFrames,
    /// Frames stand behind the end of the log, as a crash leaves them.
    RestOfLog,
    /// A correction's value is no date or no time that a query matches.
    NoDate,
    NoTime,
    /// Nothing at the site is of a correction's target.
    UnknownStudy,
    UnknownPatient,
    UnknownSeries,
}

/// A note in words. It takes no memory.
pub fn words_of_note(note: Note) -> &'static str
    ensures { result.now ≡ words_of_note note }
{
    match note {
        Note::InLog => "its operations stand in a log",
        Note::Made => "it was not there, and is made",
        Note::WithoutLog =>
            "its -wal is not beside it: without it what came last is missing, unless sqlite3 closed it",
        Note::DamagedRecords =>
            "its file records is damaged, and begun anew: this start reads each image",
        Note::NoRecords => "its file records is not used: this start reads each image",
        Note::NoHeads => "its file heads is empty, and bodies is not: what was there is not read",
        Note::RenewedHeads => "its file heads was of an older form, and is renewed",
        Note::HiddenGroup =>
            "its older heads have a group behind their end, which does not count: see heads.older",
        Note::ShortBodies =>
            "its file bodies ended too soon: what it lacks can't be read till it comes again",
        Note::DamagedHeld => "its file held is damaged: whether operations are missing isn't known",
        Note::NoHeld =>
            "its file held can't be written: operations that go missing may not be told",
        Note::OtherRecords =>
            "its file records does not follow its log: remove it, and the next start makes it anew",
        Note::ShownWithout =>
            "warning: it is served without what can't be read: what a note hides may be shown",
        Note::LostFrames => "its -wal is damaged: what stands behind the damage is not read",
        Note::RestOfLog =>
            "frames stand behind the end of its -wal: a crash left them, or a disk that changed",
        Note::NoDate => "warning: VALUE is no date that a query matches, such as 20240229",
        Note::NoTime => "warning: VALUE is no time that a query matches, such as 101530",
        Note::UnknownStudy => "warning: it has nothing of this study, or not yet",
        Note::UnknownPatient => "warning: it has nothing of this patient, or not yet",
        Note::UnknownSeries => "warning: it has nothing of this series, or not yet",
    }
}

/// What the file of a SQLite database begins with.
const HEAD: &[u8] = b"SQLite format 3\0";

/// Whether the first bytes of a file are those of a database.
fn is_database(head: &[u8]) -> bool
    ensures { result ≡ is_database_in head.now }
{
    head.starts_with(HEAD)
}

/// Whether a file that begins so holds no database: it is not empty, and begins otherwise.
pub fn is_other(head: &[u8]) -> bool
    ensures { result ≡ is_other_in head.now }
{
    !head.is_empty() && !is_database(head)
}

/// Whether a file that begins so may have had a log, and has none beside it. The archive leaves one
/// beside each of its files; sqlite3 takes it in and removes it where it closes the file.
pub fn lacks_log(head: &[u8], has_log: bool) -> bool
    ensures { result ≡ lacks_log_in head.now has_log }
{
    !has_log && (head.is_empty() || (is_database(head) && head.get(18) == Some(&2)))
}

/// Whether the name of an archive is that of a folder, also where none is there: it ends with a
/// slash.
pub fn names_folder(name: &str) -> bool
    ensures { result ≡ names_folder_in name.now }
{
    name.as_bytes().ends_with(b"/")
}
