//! The hub of a site that is served: how it is opened over a store, and closed behind what was
//! served.

ghost use Rattle.std.specs.Prelude.{◌≡◌, ◌≤◌, [], Ok, IfOk};
ghost use Rattle.command_words.specs.Words.{HasPlaces};
ghost use Rattle.shelved_site.specs.Keeping.{IsUp, log_of};
ghost use Rattle.shelved_site.specs.Readable.{shown_in};
ghost use Rattle.shelved_site.specs.Told.{IsOpenedOn};

use crate::duties::passes_for;
use crate::folder::Starting;
use crate::output::{CommandFault, FileCause, Note};
use crate::refused::{Refused, note, note_count};
use archive_server::{ServeFault, Served};
use command_words::Serving;
use op_shelf::ShelfFault;
use records::RecordedContent;
use shelved_site::{Asked, Begun, KeptLog, ShelvedFault, Store, hub_on, hub_on_log};
use site_hub::{CloseFault, HubFault, HubName, Keeper, Pass, Snapshot, close};
use sqlite_disk::Disk;
use std::rt::HostRuntime;
use std::sync::{Mutex, Wait};
use std::thread::Threads;

/// The number of the site for a keeper that makes no correction: a desk has that which is named.
const SITE: u16 = 1;

/// What is asked of a hub that is served so.
fn asked_by(serving: &Serving<'_>) -> Asked
    requires places { HasPlaces serving.now }
    ensures number { 1 ≤ result.number }
    ensures passes { (1 ≤ result.passes) × (result.passes ≤ 64) }
{
    Asked {
        number: SITE,
        passes: passes_for(serving),
        shows_without: serving.shows_without,
    }
}

/// A hub that was opened, or why none was. What can't be read was said, and is counted.
fn begun<'a, R: Wait + Drop>(
    host: &HostRuntime,
    serving: &Serving<'a>,
    opened: Result<Begun<R>, ShelvedFault>,
) -> Result<Begun<R>, Refused<'a>>
    ensures { IfOk result (λ begun. opened ≡ Ok begun) }
{
    let file = serving.file;
    match opened {
        Ok(begun) => {
            note_count(host, file, begun.unreadable.len() as u64);
            if begun.unreadable.iter().any(|one| one.may_hide) {
                note(host, file, Note::ShownWithout);
            }
            Ok(begun)
        }
        Err(ShelvedFault::Hidden) => {
            let fault = CommandFault::Shelf(ShelfFault::BadRow);
            Err(Refused::file(file, fault, FileCause::Hidden))
        }
        Err(fault) => Err(Refused::of(file, CommandFault::from(fault))),
    }
}

/// The hub of a site whose operations stand in a store.
pub fn hub_of<'r, 'a, R: Wait, S: Store>(
    host: &HostRuntime,
    rt: &'r R,
    serving: &Serving<'a>,
    store: &mut S,
) -> Result<Begun<&'r R>, Refused<'a>>
    requires places { HasPlaces serving.now }
    ensures site { S.is_clean store.new → IfOk result (λ begun.
        IsOpenedOn (S.shows store.new) begun.unreadable.items [] begun.opened.opening) }
{
    let starting = Starting::begins(host, serving.file);
    let opened = hub_on(host.alloc(), rt, store, asked_by(serving), &starting);
    begun(host, serving, opened)
}

/// The same of a log, of which some contents are told.
pub fn hub_of_log<'r, 'a, R: Wait + Threads + Sync, H: Disk + Drop, B: Disk>(
    host: &HostRuntime,
    rt: &'r R,
    serving: &Serving<'a>,
    log: &mut KeptLog<H, B>,
    told: &[RecordedContent],
) -> Result<Begun<&'r R>, Refused<'a>>
    requires places { HasPlaces serving.now }
    ensures site { IsUp H.Disk B.Disk (log_of log.new) → IfOk result (λ begun.
        IsOpenedOn (shown_in B.Disk (log_of log.new)) begun.unreadable.items told.now
        begun.opened.opening) }
{
    let starting = Starting::begins(host, serving.file);
    let asked = asked_by(serving);
    let opened = hub_on_log(host.alloc(), rt, rt, log, told, asked, &starting);
    begun(host, serving, opened)
}

/// The fault of what was served, and else of the closing.
fn first_of(fault: Option<ServeFault>, closed: Option<HubFault>) -> Result<(), CommandFault> {
    match (fault, closed) {
        (Some(fault), _) => Err(CommandFault::from(fault)),
        (None, Some(fault)) => Err(CommandFault::from(fault)),
        (None, None) => Ok(()),
    }
}

/// What was served: how many associations were accepted, and the first fault.
pub struct Count {
    pub accepted: u64,
    pub ended: Result<(), CommandFault>,
}

/// Closes a hub. A keeper that is not closed is dropped by a lock, which holds it.
fn close_hub<H: HubName, R: Wait>(
    keeper: Keeper<H, Snapshot<H>, &R>,
    passes: Vec<Pass<H>>,
) -> Option<HubFault> {
    match close(keeper, passes) {
        Ok((_site, _log)) => None,
        Err(back) => {
            let CloseFault {
                keeper,
                passes: _,
                fault,
            } = back;
            let _locked = Mutex::new(keeper);
            Some(fault)
        }
    }
}

/// What was served, with the hub closed behind it.
pub fn closed_behind<H: HubName, R: Wait>(
    served: Served<H>,
    keeper: Keeper<H, Snapshot<H>, &R>,
) -> Count {
    let Served {
        accepted,
        passes,
        fault,
    } = served;
    let closed = close_hub(keeper, passes);
    Count {
        accepted,
        ended: first_of(fault, closed),
    }
}
