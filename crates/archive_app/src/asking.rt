//! `archive correct --at` and `archive report --at`: what is asked of a running site.

use crate::exchanging::connect_to;
use crate::output::{CommandFault, NetCause, line_of_stamp, put_count};
use crate::refused::{Refused, about};
use crate::report::text_of;
use archive_server::Wire;
use command_line::{CorrectingAt, ReportingAt};
use operation::Stamp;
use site_desk::{
    AskFault, FourWords, Told, correction_request, number_in, outcome_of, page_of, page_request,
};
use site_tables::Row;
use std::alloc::Global;
use std::io::{ErrorKind, Read, Write};
use std::net::{Net, TcpListener, TcpStream};
use std::rt::HostRuntime;

/// The most bytes of an answer that are read: 64 MiB.
const MOST: u64 = 67_108_864;

/// How many seconds a wait for the site lasts at most.
const IDLE: u32 = 60;

/// The most pages that are read of one table.
const MOST_PAGES: u64 = 1_000_000;

/// What stands above the columns of the page of a site.
const COUNTS: &[&str] = &["WHAT", "VALUE"];

/// Sends a request, and reads all that comes until the site closes.
fn answer_on(alloc: Global, wire: &Wire, request: &[u8]) -> Result<Vec<u8>, AskFault> {
    let mut writer = wire;
    if writer.write_all(request).is_err() {
        return Err(AskFault::Broken);
    }
    let mut text = Vec::new(alloc);
    let mut reader = Read::take(wire, MOST + 1);
    match reader.read_to_end(&mut text) {
        Err(error) if error.kind() == ErrorKind::OutOfMemory => return Err(AskFault::Memory),
        Err(_) | Ok(0) => return Err(AskFault::Broken),
        Ok(_) => {}
    }
    if text.len() as u64 > MOST {
        return Err(AskFault::TooLong);
    }
    Ok(text)
}

/// What the site at an address answers, in whole.
fn ask<'a, R: Net<Listener = TcpListener, Stream = TcpStream>>(
    rt: &HostRuntime,
    net: &R,
    at: &'a str,
    request: &[u8],
) -> Result<Vec<u8>, Refused<'a>> {
    let wire = connect_to(net, at, IDLE)?;
    match answer_on(rt.alloc(), &wire, request) {
        Ok(text) => Ok(text),
        Err(fault) if wire.is_silent() => {
            Err(Refused::net(at, CommandFault::Ask(fault), NetCause::Silent))
        }
        Err(fault) => Err(Refused::of(at, CommandFault::Ask(fault))),
    }
}

/// Corrects at the desk of a running site, and says the correction's stamp.
pub fn correct_at<'a, R: Net<Listener = TcpListener, Stream = TcpStream>>(
    rt: &HostRuntime,
    net: &R,
    correcting: CorrectingAt<'a>,
) -> Result<Vec<u8>, Refused<'a>> {
    let at = correcting.at;
    let four = FourWords {
        target: correcting.target,
        key: correcting.key,
        tag: correcting.tag,
        value: correcting.value,
    };
    let request = about(at, correction_request(rt.alloc(), at, four))?;
    let text = ask(rt, net, at, request.as_slice())?;
    let made = about(at, outcome_of(rt.alloc(), text.as_slice()))?;
    let stamp = Stamp {
        counter: made.counter,
        site: made.site,
    };
    about(at, line_of_stamp(rt.alloc(), stamp))
}

/// A page of a report of a running site.
fn page_at<'a, R: Net<Listener = TcpListener, Stream = TcpStream>>(
    rt: &HostRuntime,
    net: &R,
    reporting: ReportingAt<'a>,
    page: u64,
) -> Result<Told, Refused<'a>> {
    let at = reporting.at;
    let heading = match reporting.table {
        None => COUNTS,
        Some(table) => table.heading(),
    };
    let request = about(at, page_request(rt.alloc(), at, reporting.path(), page))?;
    let text = ask(rt, net, at, request.as_slice())?;
    about(at, page_of(rt.alloc(), heading, text.as_slice()))
}

/// The rows of all pages, in order.
fn rows_at<'a, R: Net<Listener = TcpListener, Stream = TcpStream>>(
    rt: &HostRuntime,
    net: &R,
    reporting: ReportingAt<'a>,
) -> Result<Vec<Row>, Refused<'a>> {
    let mut rows = Vec::new(rt.alloc());
    for page in 1..=MOST_PAGES {
        let mut told = page_at(rt, net, reporting, page)?;
        let is_last = told.pages <= page || told.rows.is_empty();
        about(reporting.at, rows.append(&mut told.rows))?;
        if is_last {
            return Ok(rows);
        }
    }
    Err(Refused::of(reporting.at, CommandFault::Ask(AskFault::TooLong)))
}

/// How many operations of each kind rows tell.
fn counts_in(alloc: Global, rows: &[Row]) -> Result<Vec<u8>, AskFault> {
    let (Some(operations), Some(contents), Some(corrections)) = (
        number_in(rows, b"operations"),
        number_in(rows, b"contents"),
        number_in(rows, b"corrections"),
    ) else {
        return Err(AskFault::NoAnswer);
    };
    let mut out = Vec::new(alloc);
    put_count(alloc, &mut out, b"operations", operations)?;
    put_count(alloc, &mut out, b"contents", contents)?;
    put_count(alloc, &mut out, b"corrections", corrections)?;
    Ok(out)
}

/// The report of a running site, as its pages tell it.
pub fn report_at<'a, R: Net<Listener = TcpListener, Stream = TcpStream>>(
    rt: &HostRuntime,
    net: &R,
    reporting: ReportingAt<'a>,
) -> Result<Vec<u8>, Refused<'a>> {
    let alloc = rt.alloc();
    let at = reporting.at;
    let rows = rows_at(rt, net, reporting)?;
    match reporting.table {
        None => about(at, counts_in(alloc, rows.as_slice())),
        Some(table) => about(
            at,
            text_of(alloc, table, rows.as_slice(), reporting.separated),
        ),
    }
}
