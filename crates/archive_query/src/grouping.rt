//! The contents under each UID of a level, by one sort.

ghost use Rattle.std.specs.Prelude.{◌≡◌, ◌+◌, ◌<◌, ◌≤◌, ◌∷◌, length, List, ℕ, map, IfOk, OnOk};
ghost use Rattle.archive_model.specs.Texts.{same, text_cmp};
ghost use Rattle.archive_query.specs.Grouping.{leading, groups_by, Ascends, IsRun};
ghost use Rattle.archive_model.specs.Rows.{uid_at as uid_in};

use crate::groups::uid_at;
use archive_model::Level;
use records::RecordedContent;
use std::alloc::{AllocError, Global};
use std::cmp::Ordering;

fn by_study(a: &RecordedContent, b: &RecordedContent) -> Ordering
    ensures { result ≡ text_cmp (uid_in Level.Study a.now) (uid_in Level.Study b.now) }
{
    uid_at(Level::Study, a).cmp(uid_at(Level::Study, b))
}

fn by_series(a: &RecordedContent, b: &RecordedContent) -> Ordering
    ensures { result ≡ text_cmp (uid_in Level.Series a.now) (uid_in Level.Series b.now) }
{
    uid_at(Level::Series, a).cmp(uid_at(Level::Series, b))
}

fn by_instance(a: &RecordedContent, b: &RecordedContent) -> Ordering
    ensures { result ≡ text_cmp (uid_in Level.Image a.now) (uid_in Level.Image b.now) }
{
    uid_at(Level::Image, a).cmp(uid_at(Level::Image, b))
}

fn sort_by_study(contents: &mut Vec<&RecordedContent>) -> Result<(), AllocError>
    ensures ascends { OnOk result (Ascends (λ c. uid_in Level.Study c.now) contents.new.items) }
    ensures groups { OnOk result (groups_by (λ c. uid_in Level.Study c.now) contents.new.items
        ≡ groups_by (λ c. uid_in Level.Study c.now) contents.old.items) }
{
    contents.sort_by(|a, b| by_study(a, b))?;
    Ok(())
}

fn sort_by_series(contents: &mut Vec<&RecordedContent>) -> Result<(), AllocError>
    ensures ascends { OnOk result (Ascends (λ c. uid_in Level.Series c.now) contents.new.items) }
    ensures groups { OnOk result (groups_by (λ c. uid_in Level.Series c.now) contents.new.items
        ≡ groups_by (λ c. uid_in Level.Series c.now) contents.old.items) }
{
    contents.sort_by(|a, b| by_series(a, b))?;
    Ok(())
}

pub(crate) fn sort_by_instance(contents: &mut Vec<&RecordedContent>) -> Result<(), AllocError>
    ensures ascends { OnOk result (Ascends (λ c. uid_in Level.Image c.now) contents.new.items) }
    ensures groups { OnOk result (groups_by (λ c. uid_in Level.Image c.now) contents.new.items
        ≡ groups_by (λ c. uid_in Level.Image c.now) contents.old.items) }
{
    contents.sort_by(|a, b| by_instance(a, b))?;
    Ok(())
}

/// These contents by ascending UID; those of one UID stay in their order.
pub(crate) fn by_uid<'a>(
    level: Level,
    contents: Vec<&'a RecordedContent>,
) -> Result<Vec<&'a RecordedContent>, AllocError>
    ensures ascends { IfOk result (λ sorted. Ascends (λ c. uid_in level c.now) sorted.items) }
    ensures groups { IfOk result (λ sorted. groups_by (λ c. uid_in level c.now) sorted.items
        ≡ groups_by (λ c. uid_in level c.now) contents.entry.items) }
{
    let mut sorted = contents;
    match level {
        Level::Study => {
            sort_by_study(&mut sorted)?;
            Ok(sorted)
        }
        Level::Series => {
            sort_by_series(&mut sorted)?;
            Ok(sorted)
        }
        Level::Image => {
            sort_by_instance(&mut sorted)?;
            Ok(sorted)
        }
    }
}

/// How many contents at the front have a UID.
fn run_length(level: Level, uid: &[u8], contents: &[&RecordedContent]) -> usize
    ensures counted { result ≡ leading (λ c. same (uid_in level c.now) uid.now) contents.now }
    ensures within { result ≤ length contents.now }
{
    let mut count = 0;
    for content in contents {
        if uid_at(level, content) != uid {
            return count;
        }
        count += 1;
    }
    count
}

/// The run of one UID at the front.
fn first_run<'s, 'a>(level: Level, sorted: &'s [&'a RecordedContent]) -> &'s [&'a RecordedContent]
    requires some { 0 < length sorted.now }
    requires ascends { Ascends (λ c. uid_in level c.now) sorted.now }
    ensures run { IsRun (λ c. uid_in level c.now) result.now sorted.now }
{
    let uid = uid_at(level, sorted[0]);
    let length = run_length(level, uid, sorted);
    &sorted[..length]
}

/// The contents of each UID, of contents by ascending UID.
pub(crate) fn groups_of<'s, 'a>(
    alloc: Global,
    level: Level,
    sorted: &'s [&'a RecordedContent],
) -> Result<Vec<&'s [&'a RecordedContent]>, AllocError>
    requires { Ascends (λ c. uid_in level c.now) sorted.now }
    ensures { IfOk result (λ groups. map (λ g. g.now) groups.items ≡
        groups_by (λ c. uid_in level c.now) sorted.now) }
{
    let mut groups = Vec::new(alloc);
    let mut start = 0;
    while start < sorted.len() {
        let run = first_run(level, &sorted[start..]);
        groups.push(run)?;
        start += run.len();
    }
    Ok(groups)
}
