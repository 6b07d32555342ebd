//! The server that the words behind `serve` ask for.

ghost use Rattle.std.specs.Prelude.{◌≡◌, ◌↔◌, ◌+◌, ◌≤◌, ◌^◌, IsTrue, IsNone, IfOk, IfNone, IfSome};
ghost use Rattle.std.specs.Prelude.{OnOk, vec_len, map};
ghost use Rattle.command_words.specs.Words.{HasPlaces, HasDeskSite, threads_at};
ghost use Rattle.command_line.specs.Found.{rows_in, all_at};
ghost use Rattle.command_line.specs.Serving.{rounds_at, exchange_workers_at, idle_at, IsDeskAt};
ghost use Rattle.command_line.specs.Serving.{AreNetworks, IsGuarded, ServesBy, HasLists, ServesAs};

use crate::found::{given, has, number, short, text, texts};
use crate::reading::{Unread, tested};
use crate::refusals::{BAD_NETWORK, BAD_SITE, OPEN_EXCHANGE, Refusal, TOO_MANY};
use crate::serve::SERVE_ROWS;
use clap::ArgMatches;
use command_words::{DeskAt, Network, Serving, read_network};
use std::alloc::Global;

/// The most passes of a server: each worker, worker of exchanges and peer has one, the page and the
/// desk too.
const MOST_PASSES: usize = 64;

/// How many exchanges are to be served: none without an address for them.
fn rounds_in(found: &ArgMatches<'_>) -> u32
    ensures { result ≡ rounds_at (rows_in found.now) }
{
    match (given(found, "exchange"), number(found, "rounds")) {
        (Some(_), Some(rounds)) => rounds,
        _ => 0,
    }
}

/// How many exchanges are to be served at once.
fn exchange_workers_in(found: &ArgMatches<'_>) -> u16
    ensures { result ≡ exchange_workers_at (rows_in found.now) }
{
    match rounds_in(found) {
        0 => 0,
        _ => short(found, "exchange-workers").unwrap_or(2),
    }
}

/// How long a wait for a peer lasts at most, in seconds.
pub(crate) fn idle_in(found: &ArgMatches<'_>) -> u32
    ensures { result ≡ idle_at (rows_in found.now) }
{
    number(found, "idle").unwrap_or(60)
}

/// Where corrections are asked for, if anywhere. The site has number 0 where none is named.
fn desk_in<'a>(found: &ArgMatches<'a>) -> Option<DeskAt<'a>>
    ensures { IsDeskAt (rows_in found.now) result }
{
    let address = given(found, "desk")?;
    Some(DeskAt {
        address,
        site: short(found, "site").unwrap_or(0),
    })
}

/// What a server has beside its workers: its peers, its page and its desk, where it has these.
fn others_of(serving: &Serving<'_>) -> Option<usize>
    ensures some { IfSome result (λ others. others
        ≡ vec_len serving.now.peers + threads_at serving.now.page + threads_at serving.now.desk) }
    ensures none { IfNone result (2 ^ 64
        ≤ vec_len serving.now.peers + threads_at serving.now.page + threads_at serving.now.desk) }
{
    let more = serving.peers.len().checked_add(serving.paging())?;
    more.checked_add(serving.correcting())
}

/// Whether these workers, those of exchanges and these others are no more than a hub has passes
/// for.
fn fits(workers: u16, exchange_workers: u16, others: usize) -> bool
    ensures { IsTrue result ↔ (workers + exchange_workers + others ≤ 64) }
{
    let serving = workers as usize + exchange_workers as usize;
    serving <= MOST_PASSES && others <= MOST_PASSES - serving
}

/// Whether a server has a worker, and a hub has passes for all that it has.
fn has_places(serving: &Serving<'_>) -> bool
    ensures { IsTrue result ↔ HasPlaces serving.now }
{
    match others_of(serving) {
        None => false,
        Some(others) => {
            serving.workers != 0 && fits(serving.workers, serving.exchange_workers, others)
        }
    }
}

/// Whether a site that is corrected at a desk has a number.
fn has_desk_site(serving: &Serving<'_>) -> bool
    ensures { IsTrue result ↔ HasDeskSite serving.now.desk }
{
    match serving.desk {
        None => true,
        Some(desk) => desk.site != 0,
    }
}

/// What the addresses of this machine begin with, which no other reaches (RFC 1122, section
/// 3.2.1.3).
const LOOPBACK: &[u8] = b"127.";

/// Whether those who may exchange are of this machine, or of networks that are named: who exchanges
/// hears every image, and may correct and reject.
fn is_guarded(serving: &Serving<'_>) -> bool
    ensures { IsTrue result ↔ IsGuarded serving.now }
{
    serving.rounds == 0
        || !serving.exchange_allowed.is_empty()
        || serving.exchange.as_bytes().starts_with(LOOPBACK)
}

/// Why there is no such server, by its numbers and by who may exchange.
fn refusal_in(serving: &Serving<'_>) -> Option<Refusal>
    ensures places { IsNone result → HasPlaces serving.now }
    ensures site { IsNone result → HasDeskSite serving.now.desk }
    ensures guarded { IsNone result → IsGuarded serving.now }
    ensures none { HasPlaces serving.now → HasDeskSite serving.now.desk → IsGuarded serving.now
        → IsNone result }
{
    if !is_guarded(serving) {
        return Some(OPEN_EXCHANGE);
    }
    if !has_desk_site(serving) {
        return Some(BAD_SITE);
    }
    if !has_places(serving) {
        return Some(TOO_MANY);
    }
    None
}

/// The networks of an option.
fn networks_in(alloc: Global, found: &ArgMatches<'_>, name: &str) -> Result<Vec<Network>, Unread>
    ensures { IfOk result (λ networks. AreNetworks
        (all_at (rows_in found.now) name.now) networks.items) }
{
    let mut networks = Vec::new(alloc);
    let written = texts(found, name).unwrap_or(&[]);
    for text in written {
        let Some(network) = read_network(text) else {
            return Err(Unread::Refused(BAD_NETWORK));
        };
        networks.push(network)?;
    }
    Ok(networks)
}

/// The texts of an option.
fn texts_in<'a>(alloc: Global, found: &ArgMatches<'a>, name: &str) -> Result<Vec<&'a str>, Unread>
    ensures { IfOk result (λ list. map (λ text. text.now) list.items
        ≡ all_at (rows_in found.now) name.now) }
{
    let mut list = Vec::new(alloc);
    list.extend_from_slice(texts(found, name).unwrap_or(&[]))?;
    Ok(list)
}

/// Reads the options of a server that may be given again and again.
fn read_lists<'a>(
    alloc: Global,
    found: &ArgMatches<'a>,
    serving: &mut Serving<'a>,
) -> Result<(), Unread>
    ensures lists { OnOk result (HasLists (rows_in found.now) serving.new) }
    ensures once { OnOk result (ServesBy (rows_in found.now) serving.old
        → ServesBy (rows_in found.now) serving.new) }
{
    serving.peers = texts_in(alloc, found, "peer")?;
    serving.allowed = networks_in(alloc, found, "allow")?;
    serving.exchange_allowed = networks_in(alloc, found, "exchange-allow")?;
    serving.page_allowed = networks_in(alloc, found, "page-allow")?;
    serving.desk_allowed = networks_in(alloc, found, "desk-allow")?;
    serving.names = texts_in(alloc, found, "name")?;
    serving.callers = texts_in(alloc, found, "calling")?;
    serving.quality_callers = texts_in(alloc, found, "quality-calling")?;
    serving.audit_callers = texts_in(alloc, found, "audit-calling")?;
    Ok(())
}

/// A server as its other words and options ask for it.
fn server_of<'a>(alloc: Global, found: &ArgMatches<'a>) -> Serving<'a>
    ensures { ServesBy (rows_in found.now) result }
{
    Serving {
        file: text(found, "FILE"),
        listen: text(found, "listen"),
        workers: short(found, "workers").unwrap_or(8),
        each: number(found, "each"),
        exchange: text(found, "exchange"),
        rounds: rounds_in(found),
        exchange_workers: exchange_workers_in(found),
        page: given(found, "page"),
        desk: desk_in(found),
        peers: Vec::new(alloc),
        every: number(found, "every").unwrap_or(60),
        allowed: Vec::new(alloc),
        exchange_allowed: Vec::new(alloc),
        page_allowed: Vec::new(alloc),
        desk_allowed: Vec::new(alloc),
        names: Vec::new(alloc),
        callers: Vec::new(alloc),
        quality_callers: Vec::new(alloc),
        audit_callers: Vec::new(alloc),
        cache: number(found, "cache").unwrap_or(32),
        idle: idle_in(found),
        ends_with_input: has(found, "until-end-of-input"),
        shows_without: has(found, "show-without"),
        is_verbose: has(found, "verbose"),
    }
}

/// What the words behind `serve` ask for, if its values have their form and its numbers room.
pub(crate) fn read_serve<'a>(alloc: Global, found: &ArgMatches<'a>) -> Result<Serving<'a>, Unread>
    ensures places { IfOk result HasPlaces }
    ensures site { IfOk result (λ serving. HasDeskSite serving.desk) }
    ensures guarded { IfOk result IsGuarded }
    ensures words { IfOk result (ServesAs (rows_in found.now)) }
{
    tested(found, SERVE_ROWS)?;
    let mut serving = server_of(alloc, found);
    read_lists(alloc, found, &mut serving)?;
    match refusal_in(&serving) {
        Some(refusal) => Err(Unread::Refused(refusal)),
        None => Ok(serving),
    }
}
