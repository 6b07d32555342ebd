//! What a line of a script asks for.

ghost use Rattle.std.specs.Prelude.{◌≡◌, IfOk};
ghost use Rattle.site_script.specs.Fitting.{IsShort, MakesSets};
ghost use Rattle.site_script.specs.Commands.{offer_in as offer_in_words, buckets_in as buckets_in_words};
ghost use Rattle.site_script.specs.Commands.{deliver_in as deliver_in_words, old_in as old_in_words};
ghost use Rattle.site_script.specs.Commands.{site_in as site_in_words, image_in as image_in_words, image_parts};
ghost use Rattle.site_script.specs.Commands.{note_in as note_in_words, correct_in as correct_in_words};
ghost use Rattle.site_script.specs.Commands.{find_in as find_in_words, get_in as get_in_words};
ghost use Rattle.site_script.specs.Commands.{same_in as same_in_words, flagged_in as flagged_in_words};
ghost use Rattle.site_script.specs.Commands.{asked as asked_by, command_in as command_in_words};
ghost use Rattle.site_script.specs.Commands.{command_of as command_of_line};

use crate::key::{Key, keys_in};
use crate::name::{is_site_name, target_in, view_in};
use crate::number::number_in;
use crate::retrieve::named_keys;
use crate::tag::tag_in;
use crate::verb::{Verb, verb_of};
use crate::word::{uid_in, uids_in, words_of};
use archive_model::View;
use octets::{ListOf, Octets};
use operation::Target;
use std::alloc::{AllocError, Global};

/// The content that an `image` line makes, and the site that takes it.
#[derive(Debug, Drop)]
pub struct ImageLine {
    pub site: Octets,
    pub study: Octets,
    pub series: Octets,
    pub instance: Octets,
    pub patient: Octets,
    pub name: Octets,
}

/// The note that a `note` line makes, and the site that takes it.
#[derive(Debug, Drop)]
pub struct NoteLine {
    pub site: Octets,
    pub title: Octets,
    pub study: Octets,
    pub note: Octets,
    pub covers: ListOf<Octets>,
}

/// The correction that a `correct` line makes, and the site where it is made.
#[derive(Debug, Drop)]
pub struct CorrectLine {
    pub site: Octets,
    pub target: Target,
    pub tag: u32,
    pub value: Octets,
}

/// The query that a `find` line asks, and the site that answers.
#[derive(Debug, Drop)]
pub struct FindLine {
    pub site: Octets,
    pub view: View,
    /// The level and what is asked, ascending by tag.
    pub keys: ListOf<Key>,
}

/// The selection that a `get` line asks for, and the site that answers.
#[derive(Debug, Drop)]
pub struct GetLine {
    pub site: Octets,
    pub view: View,
    /// The level and the UIDs that are named, ascending by tag.
    pub keys: ListOf<Key>,
}

/// What a line asks for.
#[derive(Debug, Drop)]
pub enum Command {
    /// An empty line or a comment.
    Skip,
    /// A line of no form.
    Bad,
    Site(Octets),
    Image(ImageLine),
    Note(NoteLine),
    Correct(CorrectLine),
    Find(FindLine),
    Get(GetLine),
    /// The first site offers all that it holds to the second.
    Offer(Octets, Octets),
    /// So it does by what is told of the digests of each first byte.
    Buckets(Octets, Octets),
    /// The message of a number comes to its site.
    Deliver(u64),
    /// A site knows no corrections of series.
    Old(Octets),
    Same(Octets, Octets),
    Flagged(Octets),
}

fn site_in(alloc: Global, words: &[Octets]) -> Result<Command, AllocError>
    ensures { IfOk result (λ command. command ≡ site_in_words words.now) }
{
    match words {
        [name] => {
            if is_site_name(name.as_slice()) {
                return Ok(Command::Site(name.copy(alloc)?));
            }
            Ok(Command::Bad)
        }
        _ => Ok(Command::Bad),
    }
}

/// The parts of an `image` line.
fn image_line(
    alloc: Global,
    site: &Octets,
    study: &Octets,
    series: &Octets,
    instance: &Octets,
    patient: &Octets,
    name: &Octets,
) -> Result<ImageLine, AllocError>
    ensures { IfOk result (λ line. line
        ≡ image_parts site.now study.now series.now instance.now patient.now name.now) }
{
    Ok(ImageLine {
        site: site.copy(alloc)?,
        study: uid_in(alloc, study)?,
        series: uid_in(alloc, series)?,
        instance: uid_in(alloc, instance)?,
        patient: patient.copy(alloc)?,
        name: name.copy(alloc)?,
    })
}

fn image_in(alloc: Global, words: &[Octets]) -> Result<Command, AllocError>
    ensures { IfOk result (λ command. command ≡ image_in_words words.now) }
{
    match words {
        [site, study, series, instance, patient, name] => {
            let line = image_line(alloc, site, study, series, instance, patient, name)?;
            Ok(Command::Image(line))
        }
        _ => Ok(Command::Bad),
    }
}

fn note_in(alloc: Global, words: &[Octets]) -> Result<Command, AllocError>
    ensures { IfOk result (λ command. command ≡ note_in_words words.now) }
{
    match words {
        [site, title, study, note, uids @ ..] => {
            if uids.is_empty() {
                return Ok(Command::Bad);
            }
            Ok(Command::Note(NoteLine {
                site: site.copy(alloc)?,
                title: title.copy(alloc)?,
                study: uid_in(alloc, study)?,
                note: uid_in(alloc, note)?,
                covers: ListOf::of(uids_in(alloc, uids)?),
            }))
        }
        _ => Ok(Command::Bad),
    }
}

fn correct_in(alloc: Global, words: &[Octets]) -> Result<Command, AllocError>
    ensures { IfOk result (λ command. command ≡ correct_in_words words.now) }
{
    match words {
        [site, kind, key, tag, value] => {
            let Some(target) = target_in(alloc, kind.as_slice(), key)? else {
                return Ok(Command::Bad);
            };
            let Some(tag) = tag_in(tag.as_slice()) else {
                return Ok(Command::Bad);
            };
            Ok(Command::Correct(CorrectLine {
                site: site.copy(alloc)?,
                target,
                tag,
                value: value.copy(alloc)?,
            }))
        }
        _ => Ok(Command::Bad),
    }
}

fn find_in(alloc: Global, words: &[Octets]) -> Result<Command, AllocError>
    ensures { IfOk result (λ command. command ≡ find_in_words words.now) }
{
    match words {
        [site, view, level, keys @ ..] => {
            let Some(view) = view_in(view.as_slice()) else {
                return Ok(Command::Bad);
            };
            let Some(keys) = keys_in(alloc, level, keys)? else {
                return Ok(Command::Bad);
            };
            Ok(Command::Find(FindLine {
                site: site.copy(alloc)?,
                view,
                keys: ListOf::of(keys),
            }))
        }
        _ => Ok(Command::Bad),
    }
}

fn get_in(alloc: Global, words: &[Octets]) -> Result<Command, AllocError>
    ensures { IfOk result (λ command. command ≡ get_in_words words.now) }
{
    match words {
        [site, view, level, uids @ ..] => {
            if uids.is_empty() {
                return Ok(Command::Bad);
            }
            let Some(view) = view_in(view.as_slice()) else {
                return Ok(Command::Bad);
            };
            let uids = uids_in(alloc, uids)?;
            Ok(Command::Get(GetLine {
                site: site.copy(alloc)?,
                view,
                keys: ListOf::of(named_keys(alloc, level, uids.as_slice())?),
            }))
        }
        _ => Ok(Command::Bad),
    }
}

fn offer_in(alloc: Global, words: &[Octets]) -> Result<Command, AllocError>
    ensures { IfOk result (λ command. command ≡ offer_in_words words.now) }
{
    match words {
        [from, to] => Ok(Command::Offer(from.copy(alloc)?, to.copy(alloc)?)),
        _ => Ok(Command::Bad),
    }
}

fn buckets_in(alloc: Global, words: &[Octets]) -> Result<Command, AllocError>
    ensures { IfOk result (λ command. command ≡ buckets_in_words words.now) }
{
    match words {
        [from, to] => Ok(Command::Buckets(from.copy(alloc)?, to.copy(alloc)?)),
        _ => Ok(Command::Bad),
    }
}

fn deliver_in(words: &[Octets]) -> Command
    ensures { result ≡ deliver_in_words words.now }
{
    match words {
        [word] => match number_in(word.as_slice()) {
            Some(number) => Command::Deliver(number),
            None => Command::Bad,
        },
        _ => Command::Bad,
    }
}

fn old_in(alloc: Global, words: &[Octets]) -> Result<Command, AllocError>
    ensures { IfOk result (λ command. command ≡ old_in_words words.now) }
{
    match words {
        [site] => Ok(Command::Old(site.copy(alloc)?)),
        _ => Ok(Command::Bad),
    }
}

fn same_in(alloc: Global, words: &[Octets]) -> Result<Command, AllocError>
    ensures { IfOk result (λ command. command ≡ same_in_words words.now) }
{
    match words {
        [a, b] => Ok(Command::Same(a.copy(alloc)?, b.copy(alloc)?)),
        _ => Ok(Command::Bad),
    }
}

fn flagged_in(alloc: Global, words: &[Octets]) -> Result<Command, AllocError>
    ensures { IfOk result (λ command. command ≡ flagged_in_words words.now) }
{
    match words {
        [site] => Ok(Command::Flagged(site.copy(alloc)?)),
        _ => Ok(Command::Bad),
    }
}

/// What the words behind a first word ask for.
fn asked(alloc: Global, verb: Verb, words: &[Octets]) -> Result<Command, AllocError>
    ensures { IfOk result (λ command. command ≡ asked_by verb words.now) }
{
    match verb {
        Verb::Site => site_in(alloc, words),
        Verb::Image => image_in(alloc, words),
        Verb::Note => note_in(alloc, words),
        Verb::Correct => correct_in(alloc, words),
        Verb::Find => find_in(alloc, words),
        Verb::Get => get_in(alloc, words),
        Verb::Offer => offer_in(alloc, words),
        Verb::Buckets => buckets_in(alloc, words),
        Verb::Deliver => Ok(deliver_in(words)),
        Verb::Old => old_in(alloc, words),
        Verb::Same => same_in(alloc, words),
        Verb::Flagged => flagged_in(alloc, words),
        Verb::Other => Ok(Command::Bad),
    }
}

fn command_in(alloc: Global, words: &[Octets]) -> Result<Command, AllocError>
    ensures { IfOk result (λ command. command ≡ command_in_words words.now) }
{
    match words {
        [] => Ok(Command::Bad),
        [word, words @ ..] => asked(alloc, verb_of(word.as_slice()), words),
    }
}

/// What a line asks for: nothing, where it is empty or begins with `#`.
///
/// A line of 65,536 bytes or fewer makes elements that a data set may have.
pub fn command_of(alloc: Global, line: &[u8]) -> Result<Command, AllocError>
    ensures command { IfOk result (λ command. command ≡ command_of_line line.now) }
    ensures lawful { IsShort line.now → IfOk result MakesSets }
{
    match line {
        [] => Ok(Command::Skip),
        [byte, ..] => {
            if *byte == b'#' {
                return Ok(Command::Skip);
            }
            let words = words_of(alloc, line)?;
            command_in(alloc, words.as_slice())
        }
    }
}
