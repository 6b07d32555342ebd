//! What the words of a command ask for.

ghost use Rattle.std.specs.Prelude.{◌≡◌, IfOk, codes};
ghost use Rattle.clap.specs.Simple.{subcommand_rows_of};
ghost use Rattle.command_words.specs.Words.{HasSite, IsInRange};
ghost use Rattle.command_line.specs.Found.{rows_in, number_at};
ghost use Rattle.command_line.specs.Reading.{table_at, ReportsAs, ReportsAtAs, CorrectsAs};
ghost use Rattle.command_line.specs.Reading.{CorrectsAtAs, role_for, ExchangesAs, MovesAs};
ghost use Rattle.command_line.specs.Reading.{VerifiesAs, IsAskedBy, IsWantedBy, IsWantedOf};
ghost use Rattle.command_line.specs.There.{NamesChange, IsWellAsked};

use crate::commands::{CORRECT_ROWS, EXCHANGE_ROWS, REPORT_ROWS};
use crate::found::{command_in, given, has, number, short, text};
use crate::refusals::{BAD_FORM, Refusal, WITHOUT_COMMAND, refusal_of};
use crate::rows::Row;
use crate::serving::{idle_in, read_serve};
use crate::there::{CorrectingAt, ReportingAt, Wanted};
use clap::ArgMatches;
use command_words::{Asked, Correcting, Exchanging, Moving, Reporting, Verifying, change_in};
use exchange::Role;
use site_tables::Table;
use std::alloc::{AllocError, AllocFailed, Global};

/// Why the words of a command ask for nothing.
#[derive(Clone, Copy)]
pub(crate) enum Unread {
    /// They may not be so.
    Refused(Refusal),
    /// There is no memory left.
    Memory,
}

impl From<AllocError> for Unread {
    fn from(_error: AllocError) -> Unread {
        Unread::Memory
    }
}

impl<T: Drop> From<AllocFailed<T>> for Unread {
    fn from(_error: AllocFailed<T>) -> Unread {
        Unread::Memory
    }
}

/// Refuses where a value has not its form.
pub(crate) fn tested(found: &ArgMatches<'_>, rows: &[Row]) -> Result<(), Unread> {
    match refusal_of(found, rows) {
        Some(refusal) => Err(Unread::Refused(refusal)),
        None => Ok(()),
    }
}

/// The table that an option names, if one does.
fn table_in(found: &ArgMatches<'_>) -> Option<Table>
    ensures { result ≡ table_at (rows_in found.now) }
{
    if has(found, "conflicts") {
        return Some(Table::Conflicts);
    }
    if has(found, "rejected") {
        return Some(Table::Rejected);
    }
    if has(found, "corrections") {
        return Some(Table::Corrections);
    }
    if has(found, "studies") {
        return Some(Table::Studies);
    }
    None
}

/// What the words behind `report` ask for.
fn read_report<'a>(found: &ArgMatches<'a>) -> Reporting<'a>
    ensures { ReportsAs (rows_in found.now) result }
{
    Reporting {
        file: text(found, "FILE"),
        table: table_in(found),
        separated: has(found, "tsv"),
        fingerprint: has(found, "fingerprint"),
    }
}

/// What the words behind `correct` ask for, if they have its form.
fn read_correct<'a>(alloc: Global, found: &ArgMatches<'a>) -> Result<Correcting<'a>, Unread>
    ensures site { IfOk result HasSite }
    ensures words { IfOk result (CorrectsAs (rows_in found.now)) }
{
    let kind = text(found, "TARGET");
    let key = text(found, "KEY");
    let tag = text(found, "TAG");
    let value = text(found, "VALUE");
    let change = change_in(alloc, kind, key, tag, value)?;
    match (short(found, "site"), change) {
        (None | Some(0), _) | (_, None) => Err(Unread::Refused(BAD_FORM)),
        (Some(site), Some(change)) => Ok(Correcting {
            file: text(found, "FILE"),
            site,
            change,
        }),
    }
}

/// The side of an exchange that is taken.
fn role_in(found: &ArgMatches<'_>) -> Role
    ensures { result ≡ role_for (number_at (rows_in found.now) (codes "peer-version")) }
{
    match number(found, "peer-version") {
        Some(1) => Role::OldCaller,
        _ => Role::Caller,
    }
}

/// What the words behind `exchange` ask for, if its address has its form.
fn read_exchange<'a>(found: &ArgMatches<'a>) -> Result<Exchanging<'a>, Unread>
    ensures { IfOk result (ExchangesAs (rows_in found.now)) }
{
    tested(found, EXCHANGE_ROWS)?;
    Ok(Exchanging {
        file: text(found, "FILE"),
        peer: text(found, "peer"),
        role: role_in(found),
        idle: idle_in(found),
    })
}

/// What the words behind `move` ask for.
fn read_move<'a>(found: &ArgMatches<'a>) -> Moving<'a>
    ensures { MovesAs (rows_in found.now) result }
{
    Moving {
        from: text(found, "FROM"),
        to: text(found, "TO"),
    }
}

/// What the words behind `verify` ask for.
fn read_verify<'a>(found: &ArgMatches<'a>) -> Verifying<'a>
    ensures { VerifiesAs (rows_in found.now) result }
{
    Verifying {
        file: text(found, "FILE"),
    }
}

/// What a command asks for, by its name and what was found of the words behind it, if these have
/// their form.
fn read_command<'a>(alloc: Global, name: &str, found: &ArgMatches<'a>) -> Result<Asked<'a>, Unread>
    ensures ranges { IfOk result IsInRange }
    ensures words { IfOk result (IsAskedBy name.now (rows_in found.now)) }
{
    match name {
        "report" => Ok(Asked::Report(read_report(found))),
        "correct" => Ok(Asked::Correct(read_correct(alloc, found)?)),
        "serve" => Ok(Asked::Serve(read_serve(alloc, found)?)),
        "exchange" => Ok(Asked::Exchange(read_exchange(found)?)),
        "move" => Ok(Asked::Move(read_move(found))),
        "verify" => Ok(Asked::Verify(read_verify(found))),
        "simulate" => Ok(Asked::Simulate),
        _ => Err(Unread::Refused(WITHOUT_COMMAND)),
    }
}

/// What the words behind `correct --at` ask for, if they have its form. The file is left out, so
/// that each word stands in the place of the one before it.
fn read_correct_at<'a>(
    alloc: Global,
    found: &ArgMatches<'a>,
    at: &'a str,
) -> Result<CorrectingAt<'a>, Unread>
    ensures change { IfOk result NamesChange }
    ensures at { IfOk result (λ correcting. correcting.at.now ≡ at.now) }
    ensures words { IfOk result (CorrectsAtAs (rows_in found.now)) }
{
    tested(found, CORRECT_ROWS)?;
    let target = text(found, "FILE");
    let key = text(found, "TARGET");
    let tag = text(found, "KEY");
    let value = text(found, "TAG");
    match change_in(alloc, target, key, tag, value)? {
        None => Err(Unread::Refused(BAD_FORM)),
        Some(_change) => Ok(CorrectingAt {
            at,
            target,
            key,
            tag,
            value,
        }),
    }
}

/// What the words behind `report --at` ask for, if the address has its form.
fn read_report_at<'a>(found: &ArgMatches<'a>, at: &'a str) -> Result<ReportingAt<'a>, Unread>
    ensures at { IfOk result (λ reporting. reporting.at.now ≡ at.now) }
    ensures words { IfOk result (ReportsAtAs (rows_in found.now)) }
{
    tested(found, REPORT_ROWS)?;
    Ok(ReportingAt {
        at,
        table: table_in(found),
        separated: has(found, "tsv"),
    })
}

/// What a command asks for, here or of a running site, by its name and what was found of the words
/// behind it.
fn read_named<'a>(alloc: Global, name: &str, found: &ArgMatches<'a>) -> Result<Wanted<'a>, Unread>
    ensures asked { IfOk result IsWellAsked }
    ensures words { IfOk result (IsWantedBy name.now (rows_in found.now)) }
{
    match (name, given(found, "at")) {
        ("report", Some(at)) => Ok(Wanted::ReportAt(read_report_at(found, at)?)),
        ("correct", Some(at)) => Ok(Wanted::CorrectAt(read_correct_at(alloc, found, at)?)),
        _ => Ok(Wanted::Here(read_command(alloc, name, found)?)),
    }
}

/// What the words of a command ask for, here or of a running site.
pub(crate) fn read_wanted<'a>(alloc: Global, found: &ArgMatches<'a>) -> Result<Wanted<'a>, Unread>
    ensures asked { IfOk result IsWellAsked }
    ensures words { IfOk result (IsWantedOf (subcommand_rows_of found.now)) }
{
    match command_in(found) {
        None => Err(Unread::Refused(WITHOUT_COMMAND)),
        Some((name, words)) => read_named(alloc, name, words),
    }
}
