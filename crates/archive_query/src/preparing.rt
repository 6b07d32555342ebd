//! What is shown of a site and selected by a C-GET (PS3.4, section C.4.3).

ghost use Rattle.std.specs.Prelude.{◌≡◌, IfOk, map};
ghost use Rattle.site_state.specs.Site.{ops_of};
ghost use Rattle.archive_model.specs.Selection.{selected as selected_in};
ghost use Rattle.archive_model.specs.Shown.{shown};

use crate::candidates::shown_of;
use crate::selected::selected;
use crate::selected_places::candidates;
use archive_model::{Selection, View};
use records::RecordedContent;
use site_state::Site;
use std::alloc::{AllocError, Global};

/// What is shown and selected, by ascending SOP Instance UID.
pub fn shown_selected<'a>(
    alloc: Global,
    site: &'a Site,
    view: View,
    selection: &Selection,
) -> Result<Vec<&'a RecordedContent>, AllocError>
    ensures { IfOk result (λ found. map (λ c. c.now) found.items ≡
        selected_in selection.now (shown view (ops_of site.now))) }
{
    let uids = candidates(alloc, site.index(), selection)?;
    let contents = shown_of(alloc, site, view, &uids)?;
    let found = selected(alloc, selection, &contents)?;
    Ok(found)
}
