//! Which contents each row is about.

ghost use Rattle.std.specs.Prelude.{◌≡◌, IfOk, map, filter, not, length, ◌==◌};
ghost use Rattle.operation.specs.Parts.{ContentParts};
ghost use Rattle.archive_model.specs.Rows.{uid_at as uid_in, is_named as is_named_in, named as named_in};
ghost use Rattle.archive_model.specs.Rows.{modalities_of as modalities_in};
ghost use Rattle.archive_model.specs.Texts.{ascending as ascending_of};
ghost use Rattle.archive_model.specs.Contents.{series_of as series_in};

use archive_model::{Level, Query, ascending, modality, series, study};
use octets::Octets;
use records::RecordedContent;
use std::alloc::{AllocError, Global};

/// The UID of a content at a level.
pub fn uid_at(level: Level, content: &RecordedContent) -> &[u8]
    ensures { result.now ≡ uid_in level content.now }
{
    match level {
        Level::Study => study(content),
        Level::Series => series(content),
        Level::Image => content.instance(),
    }
}

/// Whether a content is of the study and the series that a query names.
fn is_named(query: &Query, content: &RecordedContent) -> bool
    ensures { result ≡ is_named_in query.now content.now }
{
    (!query.level.names_study() || study(content) == query.study.as_slice())
        && (!query.level.names_series() || series(content) == query.series.as_slice())
}

/// What is shown of the study and the series that a query names.
pub(crate) fn named<'a>(
    alloc: Global,
    query: &Query,
    shown: &[&'a RecordedContent],
) -> Result<Vec<&'a RecordedContent>, AllocError>
    ensures { IfOk result (λ found. map (λ c. c.now) found.items ≡
        named_in query.now (map (λ c. c.now) shown.now)) }
{
    let mut found = Vec::new(alloc);
    for content in shown {
        let content: &'a RecordedContent = content;
        if is_named(query, content) {
            found.push(content)?;
        }
    }
    Ok(found)
}

/// How many series some contents are of.
pub(crate) fn count_series(
    alloc: Global,
    contents: &[&RecordedContent],
) -> Result<usize, AllocError>
    ensures { IfOk result (λ count. count ≡
        length (ascending_of (map series_in (map (λ c. c.now) contents.now)))) }
{
    let mut uids = Vec::new(alloc);
    for content in contents {
        uids.push(series(content))?;
    }
    let distinct = ascending(alloc, &uids)?;
    Ok(distinct.len())
}

/// The distinct modalities, but for the empty one, ascending.
pub(crate) fn modalities_of(
    alloc: Global,
    contents: &[&RecordedContent],
) -> Result<Vec<Octets>, AllocError>
    ensures { IfOk result (λ found. found.items ≡ modalities_in (map (λ c. c.now) contents.now)) }
{
    let mut found = Vec::new(alloc);
    for content in contents {
        if !modality(content).is_empty() {
            found.push(modality(content))?;
        }
    }
    ascending(alloc, &found)
}
