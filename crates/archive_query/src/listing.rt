//! What a C-GET lists of a site, before any data set is loaded (PS3.4, section C.4.3).

ghost use Rattle.std.specs.Prelude.{◌≡◌, IfOk, map};
ghost use Rattle.archive_model.specs.Listed.{listed as listed_in, list_of};
ghost use Rattle.archive_model.specs.Preparing.{prepared_for};
ghost use Rattle.site_state.specs.Site.{ops_of};

use crate::changes::changes;
use crate::preparing::shown_selected;
use archive_model::{Listed, Selection, View};
use records::RecordedContent;
use site_state::Site;
use std::alloc::{AllocError, Global};

/// The record of a content, with what corrections change of it.
fn listed(alloc: Global, site: &Site, content: &RecordedContent) -> Result<Listed, AllocError>
    ensures { IfOk result (λ listed. listed ≡
        listed_in (prepared_for (ops_of site.now) content.now)) }
{
    Ok(Listed {
        content: content.record().copy()?,
        changes: changes(alloc, site, content)?,
    })
}

/// The same of some contents, in their order.
fn listed_all(
    alloc: Global,
    site: &Site,
    contents: &[&RecordedContent],
) -> Result<Vec<Listed>, AllocError>
    ensures { IfOk result (λ found. found.items ≡
        map listed_in (map (prepared_for (ops_of site.now)) (map (λ c. c.now) contents.now))) }
{
    let mut found = Vec::with_capacity(alloc, contents.len())?;
    for content in contents {
        found.push(listed(alloc, site, content)?)?;
    }
    Ok(found)
}

/// What a C-GET lists of a selection in a view, by ascending SOP Instance UID: the record of each
/// content that is shown and selected, with what corrections change of it.
///
/// It holds no byte of a data set, so that a caller can load each by its record when its turn
/// comes, and let it go when it was sent. Nothing is hashed.
pub fn list(
    alloc: Global,
    site: &Site,
    view: View,
    selection: &Selection,
) -> Result<Vec<Listed>, AllocError>
    ensures listed { IfOk result (λ found.
        found.items ≡ list_of view selection.now (ops_of site.now)) }
{
    let contents = shown_selected(alloc, site, view, selection)?;
    let found = listed_all(alloc, site, &contents)?;
    Ok(found)
}
