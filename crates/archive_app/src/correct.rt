//! `archive correct`: corrects an attribute in a file or a folder.

use crate::file::{OnStore, on_shelf};
use crate::folder::{Starting, is_absent, is_folder, site_in};
use crate::held::{keep_held, refuse_missing};
use crate::output::{Cause, CommandFault, Note, line_of_stamp};
use crate::refused::{Done, Lacks, Refused, about, done_without, note};
use command_words::{Change, Correcting, Part, bad_part, unmatched};
use key_matching::Matching;
use operation::Target;
use shelved_site::{Corrected, Store, correct_on, correct_with};
use site_hub::{HubFault, next_correction};
use site_state::Site;
use std::alloc::Global;
use std::rt::HostRuntime;
use std::thread::Threads;

/// Refuses what no site of this number may correct.
fn refuse_first(alloc: Global, site: u16, change: &Change) -> Result<(), CommandFault> {
    let (target, value) = (change.target.copy(alloc)?, change.value.copy(alloc)?);
    let none = Site::new(alloc);
    let _made = next_correction(&none, site, target, change.tag, value)?;
    Ok(())
}

/// What a correction says beside its stamp, of its value.
fn note_of_value(change: &Change) -> Option<Note> {
    match unmatched(change.tag, change.value.as_slice()) {
        Some(Matching::Dates) => Some(Note::NoDate),
        Some(_times) => Some(Note::NoTime),
        None => None,
    }
}

/// What it says of its target, where the site has nothing of it.
fn note_of_target(target: &Target) -> Note {
    match target {
        Target::Study(_) => Note::UnknownStudy,
        Target::Patient(_) => Note::UnknownPatient,
        Target::Series(_) => Note::UnknownSeries,
    }
}

/// A correction that a site makes.
#[derive(Drop)]
struct Making<'h, 'a> {
    rt: &'h HostRuntime,
    file: &'a str,
    site: u16,
    change: Change,
}

/// A correction that was made, and without how many operations.
type Made = (Corrected, u64);

impl<'h, 'a> OnStore for Making<'h, 'a> {
    type Told = Result<Made, Refused<'a>>;

    fn on<S: Store + Drop + Send>(self, mut store: S) -> Result<Made, Refused<'a>> {
        let Making {
            rt,
            file,
            site,
            change,
        } = self;
        let Change { target, tag, value } = change;
        refuse_missing(rt, file, &mut store)?;
        let (alloc, starting) = (rt.alloc(), Starting::begins(rt, file));
        let made = correct_on(alloc, &mut store, site, target, tag, value, &starting);
        let made = about(file, made)?;
        keep_held(rt, file, &mut store);
        Ok((made, 0))
    }
}

/// Makes a correction in a folder.
fn made_in_folder<'a, T: Threads + Sync>(
    rt: &HostRuntime,
    threads: &T,
    folder: &'a str,
    number: u16,
    change: Change,
) -> Result<Made, Refused<'a>> {
    let Change { target, tag, value } = change;
    let (sited, mut log) = site_in(rt, threads, folder)?;
    refuse_missing(rt, folder, &mut log)?;
    let made = about(
        folder,
        correct_with(&mut log, &sited.site, number, target, tag, value),
    )?;
    keep_held(rt, folder, &mut log);
    Ok((made, sited.unreadable.len() as u64))
}

/// Makes a correction in a file. Where the file is not there, what may not be corrected is refused
/// before one is made.
fn made<'a, T: Threads + Sync>(
    rt: &HostRuntime,
    threads: &T,
    file: &'a str,
    site: u16,
    change: Change,
) -> Result<Made, Refused<'a>> {
    if is_absent(rt, file) {
        about(file, refuse_first(rt.alloc(), site, &change))?;
    }
    if is_folder(rt, file) {
        return made_in_folder(rt, threads, file, site, change);
    }
    let making = Making {
        rt,
        file,
        site,
        change,
    };
    on_shelf(rt, file, making)?
}

/// Why a correction is refused: the part of it that may not be, where it is for one.
fn with_part<'a>(refused: Refused<'a>, bad: Option<Part>) -> Refused<'a> {
    match (refused.fault, bad) {
        (CommandFault::Hub(HubFault::BadCorrection), Some(part)) => Refused {
            cause: Cause::Part(part),
            ..refused
        },
        _ => refused,
    }
}

/// Makes a correction, and says its stamp once the file has it. It warns of a value that no query
/// matches, and of a target of which the site has nothing. Where operations are missing, or a row
/// of a file can't be read, none is made, since its stamp may have been given; of a folder, whose
/// corrections stand in its heads, the site is without what can't
/// be read, and then it ends with a fault.
pub fn correct<'a, T: Threads + Sync>(
    rt: &HostRuntime,
    threads: &T,
    correcting: Correcting<'a>,
) -> Result<Done<'a>, Refused<'a>> {
    let Correcting { file, site, change } = correcting;
    let (of_value, of_target) = (note_of_value(&change), note_of_target(&change.target));
    let bad = about(file, bad_part(rt.alloc(), &change))?;
    let (made, unread) = match made(rt, threads, file, site, change) {
        Ok(made) => made,
        Err(refused) => return Err(with_part(refused, bad)),
    };
    if let Some(of_value) = of_value {
        note(rt, file, of_value);
    }
    if !made.is_known {
        note(rt, file, of_target);
    }
    let text = about(file, line_of_stamp(rt.alloc(), made.stamp))?;
    Ok(done_without(rt, file, text, Lacks { unread, missing: 0 }))
}
