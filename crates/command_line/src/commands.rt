//! The commands of the program, with their words and options.

use crate::refusals::{BAD_AT, BAD_PEER};
use crate::rows::{CommandRow, FLAG, Form, Row, VALUE, WORD, command_of};
use crate::serve::SERVE_ROWS;
use clap::Command;
use std::alloc::{AllocError, Global};

/// What the program is.
const ABOUT: &str = "A DICOM archive of several sites";

/// The version that `--version` tells.
const VERSION: &str = "1.0";

const SIMULATE: &str = "Answers a script, in which several sites exchange";

const SIMULATE_LONG: &str = "\
Answers the script on standard input, in which sites take images, corrections
and rejection notes and exchange them.

Example: archive simulate < rejected.script";

const REPORT: &str = "Counts the operations in FILE, or tells a table of its site";

const REPORT_LONG: &str = "\
Counts the operations in FILE, and tells the SOP Instance UIDs of which it has
two contents or more. With one of --conflicts, --rejected, --corrections and
--studies it tells a table instead, aligned for reading, and with --tsv parted
by tabs. FILE is only read, but that a table of older programs becomes that of
today; one that is not there is refused.

With --at FILE is left out: the running site whose pages are at ADDR tells the
table, as its text of UTF-8, or how many operations, contents and corrections it
has; its pages tell no fingerprint, and without a table neither how many
corrections are of series nor which UIDs are flagged.

Examples: archive report ops.db --studies
          archive report --at 127.0.0.1:11180 --studies";

const CORRECT: &str = "Corrects an attribute of a study, a patient or a series";

const CORRECT_LONG: &str = "\
Corrects an attribute of a study, a patient or a series in FILE, which is made
where it is not there, and prints the correction's stamp once it is stored. It
warns of a date or a time that no query matches, and of a target of which FILE
has nothing.

With --at FILE and --site are left out: the running site whose desk is at ADDR
makes the correction, and warns of nothing.

Examples: archive correct ops.db --site 1 study 1.2.1 00100010 ROE^ANN
          archive correct --at 127.0.0.1:11181 study 1.2.1 00100010 ROE^ANN";

const SERVE: &str = "Serves FILE to DICOM clients, and exchanges with other sites";

const SERVE_LONG: &str = "\
Serves the operations in FILE, which is made where it is not there, to C-ECHO,
C-STORE, C-FIND and C-GET under the called titles ARCHIVE, QUALITY and AUDIT,
for ever, or with --each until each worker has accepted so many associations.

With --exchange it also serves --rounds exchanges, in which another site calls.
With --peer it meanwhile calls another site, waits --every seconds and calls it
again; one that does not answer is called again all the same. A peer that says
nothing for --idle seconds is let go.

With --page it answers browsers of this machine with what the site holds, or of
the networks of --page-allow. With --desk an administrator of this machine, or of
the networks of --desk-allow, corrects attributes while it runs; --site is the
number of the site, which no other site may have.

With --allow only peers of these networks may come, such as 10.1.0.0/16; a
connection from elsewhere is closed unread. With --calling only requestors that
call themselves so are answered; others are rejected.

Example: archive serve site.db --listen 127.0.0.1:11112 \\
             --exchange 127.0.0.1:11113 --rounds 1000 \\
             --peer 127.0.0.1:11115 --every 30";

const EXCHANGE: &str = "Exchanges operations with another site, once";

const EXCHANGE_LONG: &str = "\
Exchanges operations with the site that serves exchanges at ADDR: it is given
what it lacks of those in FILE, and FILE, which is made where it is not there,
takes what the site has. Prints how many were given, how many taken that were
new, and whether all came that were asked for.

Example: archive exchange ops.db --peer 127.0.0.1:11113";

const MOVE: &str = "Brings all operations of one archive into another";

const MOVE_LONG: &str = "\
Brings all operations of FROM into TO, which is made where it is not there: as
a folder where its name ends with a slash, and else as a file. What TO has stays
and is not written again, so that a move that broke off is begun anew. FROM is
only read, but that a table of older programs becomes that of today. Prints how
many operations FROM has, and how many were new in TO.

Example: archive move site.db site/";

const VERIFY: &str = "Tests each operation in FILE against its digest";

const VERIFY_LONG: &str = "\
Tests each operation in FILE against its digest, and prints how many there are,
a line \"damaged DIGEST INSTANCE\" for each that is not the one of its digest,
and how many these are; with one or more of them the status is 1. FILE is only
read, but that a table of older programs becomes that of today, and is refused
where it is not there.

Example: archive verify site/";

/// The file or folder of a command.
pub(crate) const FILE: Row = Row {
    name: "FILE",
    line: "The file with the operations, or their folder, as in site/",
    ..WORD
};

/// How long a wait for a peer lasts at most.
pub(crate) const IDLE: Row = Row {
    name: "idle",
    value: "SECONDS",
    // Up to a day.
    form: Form::Number(0, 86_400),
    line: "How long a peer may be silent [default: 60]",
    whole: Some(
        "How long a peer may say nothing, or take nothing, before it is let \
        go,{n}0 to 86400 seconds, 0 for ever{n}{n}[default: 60]",
    ),
    ..VALUE
};

/// The number of the site that makes a correction.
pub(crate) const SITE_NUMBER: Row = Row {
    name: "site",
    value: "N",
    form: Form::Number(1, 65_535),
    line: "The number of the site, 1 to 65535",
    ..VALUE
};

/// Where a running site is asked, in the place of a file.
const AT: Row = Row {
    name: "at",
    value: "ADDR",
    form: Form::Address(BAD_AT),
    line: "Where a running site is asked, in place of FILE",
    ..VALUE
};

/// An option that names a table, of which one may be given.
const TABLE: Row = Row {
    group: Some("table"),
    ..FLAG
};

/// The words and options of `report`.
pub(crate) const REPORT_ROWS: &[Row] = &[
    Row {
        without: Some("at"),
        ..FILE
    },
    Row {
        without: Some("fingerprint"),
        ..AT
    },
    Row {
        name: "conflicts",
        line: "The contents of UIDs that have two or more",
        ..TABLE
    },
    Row {
        name: "rejected",
        line: "The UIDs that rejection notes name",
        ..TABLE
    },
    Row {
        name: "corrections",
        line: "The corrections, and which of them count",
        ..TABLE
    },
    Row {
        name: "studies",
        line: "The studies that ARCHIVE shows, corrected",
        ..TABLE
    },
    Row {
        name: "tsv",
        beside: Some("table"),
        line: "Parts the cells of the table by tabs",
        ..FLAG
    },
    Row {
        name: "fingerprint",
        without: Some("table"),
        line: "One number for all operations, which sites that hold the same have alike",
        ..FLAG
    },
];

/// The words and options of `correct`. With `--at` each word stands in the place of the one before
/// it, so that the last place is empty.
pub(crate) const CORRECT_ROWS: &[Row] = &[
    FILE,
    AT,
    Row {
        needed: true,
        without: Some("at"),
        ..SITE_NUMBER
    },
    Row {
        name: "TARGET",
        line: "study, patient or series",
        ..WORD
    },
    Row {
        name: "KEY",
        line: "Its Study Instance UID, Patient ID or Series Instance UID",
        ..WORD
    },
    Row {
        name: "TAG",
        line: "The attribute, in eight hexadecimal digits",
        ..WORD
    },
    Row {
        name: "VALUE",
        without: Some("at"),
        line: "Its new value, behind -- where it begins with -",
        ..WORD
    },
];

/// The words and options of `exchange`, in the order of its help.
pub(crate) const EXCHANGE_ROWS: &[Row] = &[
    FILE,
    Row {
        name: "peer",
        value: "ADDR",
        form: Form::Address(BAD_PEER),
        needed: true,
        line: "Where the other site serves exchanges",
        ..VALUE
    },
    Row {
        name: "peer-version",
        value: "N",
        form: Form::Number(1, 2),
        line: "The version of the other site [default: 2]",
        whole: Some(
            "The version that the other site speaks: 1 for one that knows no \
            HELLO{n}{n}[default: 2]",
        ),
        ..VALUE
    },
    IDLE,
];

const MOVE_ROWS: &[Row] = &[
    Row {
        name: "FROM",
        line: "The archive that is read",
        ..WORD
    },
    Row {
        name: "TO",
        line: "The archive that is filled",
        ..WORD
    },
];

/// The words of `verify`.
const VERIFY_ROWS: &[Row] = &[FILE];

/// With one command more.
fn with<'a>(
    alloc: Global,
    command: Command<'a>,
    told: CommandRow,
) -> Result<Command<'a>, AllocError> {
    command.subcommand(command_of(alloc, &told)?)
}

/// With the commands that answer with a text, or make a correction.
fn with_answers<'a>(alloc: Global, command: Command<'a>) -> Result<Command<'a>, AllocError> {
    let command = with(
        alloc,
        command,
        CommandRow {
            name: "simulate",
            line: SIMULATE,
            whole: SIMULATE_LONG,
            rows: &[],
        },
    )?;
    let command = with(
        alloc,
        command,
        CommandRow {
            name: "report",
            line: REPORT,
            whole: REPORT_LONG,
            rows: REPORT_ROWS,
        },
    )?;
    with(
        alloc,
        command,
        CommandRow {
            name: "correct",
            line: CORRECT,
            whole: CORRECT_LONG,
            rows: CORRECT_ROWS,
        },
    )
}

/// With the commands that meet other machines.
fn with_meetings<'a>(alloc: Global, command: Command<'a>) -> Result<Command<'a>, AllocError> {
    let command = with(
        alloc,
        command,
        CommandRow {
            name: "serve",
            line: SERVE,
            whole: SERVE_LONG,
            rows: SERVE_ROWS,
        },
    )?;
    with(
        alloc,
        command,
        CommandRow {
            name: "exchange",
            line: EXCHANGE,
            whole: EXCHANGE_LONG,
            rows: EXCHANGE_ROWS,
        },
    )
}

/// With the commands that go through an archive.
fn with_walks<'a>(alloc: Global, command: Command<'a>) -> Result<Command<'a>, AllocError> {
    let command = with(
        alloc,
        command,
        CommandRow {
            name: "move",
            line: MOVE,
            whole: MOVE_LONG,
            rows: MOVE_ROWS,
        },
    )?;
    with(
        alloc,
        command,
        CommandRow {
            name: "verify",
            line: VERIFY,
            whole: VERIFY_LONG,
            rows: VERIFY_ROWS,
        },
    )
}

/// The command line of the program. Its commands are no table: one constant that holds them all is
/// a larger term than the prover goes through.
pub(crate) fn archive_command<'a>(alloc: Global) -> Result<Command<'a>, AllocError> {
    let command = Command::new(alloc, "archive")
        .about(ABOUT)
        .version(VERSION)
        .subcommand_required(true);
    let command = with_answers(alloc, command)?;
    let command = with_meetings(alloc, command)?;
    with_walks(alloc, command)
}
