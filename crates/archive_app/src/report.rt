//! `archive report`: counts the operations in a file or a folder, or tells a table of its site.

use crate::file::OnStore;
use crate::folder::{Starting, is_absent, is_folder, site_to_view};
use crate::held::missing_in;
use crate::output::{CommandFault, FileCause, Note, lines_of};
use crate::refused::{Done, Lacks, Refused, about, done_without, note};
use crate::viewing::view_file;
use command_words::Reporting;
use op_shelf::{ShelfFault, StoreCause};
use shelved_site::{Report, ShelvedFault, Store, report_on, report_with, table_on};
use site_tables::{Row, Table, align, rows_of_table, separate};
use std::alloc::{AllocError, Global};
use std::rt::HostRuntime;
use std::thread::Threads;

/// What is told of an archive, and without what.
type Partly<T> = (T, Lacks);

/// The report of a store.
#[derive(Drop)]
struct Counting<'h> {
    rt: &'h HostRuntime,
    file: &'h str,
    starting: Starting<'h>,
}

impl<'h> OnStore for Counting<'h> {
    type Told = Result<Partly<Report>, ShelvedFault>;

    fn on<S: Store + Drop + Send>(self, mut store: S) -> Result<Partly<Report>, ShelvedFault> {
        let Counting { rt, file, starting } = self;
        let missing = missing_in(rt, file, &mut store);
        let (report, unreadable) = report_on(rt.alloc(), &mut store, &starting)?;
        let unread = unreadable.len() as u64;
        Ok((report, Lacks { unread, missing }))
    }
}

/// The report of a folder.
fn report_in_folder<'a, T: Threads + Sync>(
    rt: &HostRuntime,
    threads: &T,
    folder: &'a str,
) -> Result<Partly<Report>, Refused<'a>> {
    let (sited, mut log) = site_to_view(rt, threads, folder)?;
    let missing = missing_in(rt, folder, &mut log);
    let report = about(folder, report_with(rt.alloc(), &mut log, &sited.site))?;
    let unread = sited.unreadable.len() as u64;
    Ok((report, Lacks { unread, missing }))
}

fn report_in<'a, T: Threads + Sync>(
    rt: &HostRuntime,
    threads: &T,
    file: &'a str,
) -> Result<Partly<Report>, Refused<'a>> {
    if is_folder(rt, file) {
        return report_in_folder(rt, threads, file);
    }
    let counting = Counting {
        rt,
        file,
        starting: Starting::begins(rt, file),
    };
    about(file, view_file(rt, file, counting)?)
}

/// The counts of the operations in a file.
fn counts<'a, T: Threads + Sync>(
    rt: &HostRuntime,
    threads: &T,
    file: &'a str,
    is_fingerprinted: bool,
) -> Result<Partly<Vec<u8>>, Refused<'a>> {
    let (report, lacks) = report_in(rt, threads, file)?;
    if is_folder(rt, file) {
        note(rt, file, Note::InLog);
    }
    let lines = lines_of(rt.alloc(), &report, is_fingerprinted);
    Ok((about(file, lines)?, lacks))
}

/// A table of a store.
#[derive(Drop)]
struct Telling<'h> {
    rt: &'h HostRuntime,
    file: &'h str,
    table: Table,
    starting: Starting<'h>,
}

impl<'h> OnStore for Telling<'h> {
    type Told = Result<Partly<Vec<Row>>, ShelvedFault>;

    fn on<S: Store + Drop + Send>(self, mut store: S) -> Result<Partly<Vec<Row>>, ShelvedFault> {
        let Telling {
            rt,
            file,
            table,
            starting,
        } = self;
        let missing = missing_in(rt, file, &mut store);
        let (rows, unreadable) = table_on(rt.alloc(), &mut store, table, &starting)?;
        let unread = unreadable.len() as u64;
        Ok((rows, Lacks { unread, missing }))
    }
}

/// The rows of a table of a folder.
fn rows_in_folder<'a, T: Threads + Sync>(
    rt: &HostRuntime,
    threads: &T,
    folder: &'a str,
    table: Table,
) -> Result<Partly<Vec<Row>>, Refused<'a>> {
    let (sited, mut log) = site_to_view(rt, threads, folder)?;
    let missing = missing_in(rt, folder, &mut log);
    let rows = about(folder, rows_of_table(rt.alloc(), &sited.site, table))?;
    let unread = sited.unreadable.len() as u64;
    Ok((rows, Lacks { unread, missing }))
}

fn rows_in<'a, T: Threads + Sync>(
    rt: &HostRuntime,
    threads: &T,
    file: &'a str,
    table: Table,
) -> Result<Partly<Vec<Row>>, Refused<'a>> {
    if is_folder(rt, file) {
        return rows_in_folder(rt, threads, file, table);
    }
    let telling = Telling {
        rt,
        file,
        table,
        starting: Starting::begins(rt, file),
    };
    about(file, view_file(rt, file, telling)?)
}

/// The rows of a table as text.
pub fn text_of(
    alloc: Global,
    table: Table,
    rows: &[Row],
    is_separated: bool,
) -> Result<Vec<u8>, AllocError> {
    if is_separated {
        return separate(alloc, table.heading(), rows);
    }
    align(alloc, table.heading(), rows)
}

/// A table of the site whose operations are in a file.
fn told<'a, T: Threads + Sync>(
    rt: &HostRuntime,
    threads: &T,
    file: &'a str,
    table: Table,
    is_separated: bool,
) -> Result<Partly<Vec<u8>>, Refused<'a>> {
    let (rows, lacks) = rows_in(rt, threads, file, table)?;
    let text = text_of(rt.alloc(), table, rows.as_slice(), is_separated);
    Ok((about(file, text)?, lacks))
}

/// The report of the operations in a file, of which nothing is changed, but that a table of older
/// programs becomes that of today. One that is not there is refused, and is not made. It is made
/// without those that can't be read or are missing, and then ends with a fault.
pub fn report<'a, T: Threads + Sync>(
    rt: &HostRuntime,
    threads: &T,
    reporting: Reporting<'a>,
) -> Result<Done<'a>, Refused<'a>> {
    let Reporting {
        file,
        table,
        separated,
        fingerprint,
    } = reporting;
    if is_absent(rt, file) {
        let fault = CommandFault::Shelf(ShelfFault::Store(StoreCause::Other));
        return Err(Refused::file(file, fault, FileCause::Absent));
    }
    let (text, lacks) = match table {
        None => counts(rt, threads, file, fingerprint)?,
        Some(table) => told(rt, threads, file, table, separated)?,
    };
    Ok(done_without(rt, file, text, lacks))
}
