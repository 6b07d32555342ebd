//! C-GET over a site in memory (PS3.4, section C.4.3).

ghost use Rattle.std.specs.Prelude.{◌≡◌, IfOk};
ghost use Rattle.std.specs.List.{filter_map};
ghost use Rattle.std.specs.Option.{option_copied};
ghost use Rattle.archive_model.specs.Contents.{content_in as content_in_op};
ghost use Rattle.archive_model.specs.Sending.{Gets, sendings_of};
ghost use Rattle.archive_query.specs.Loaded.{loaded_of};
ghost use Rattle.site_state.specs.Hidden.{content_held};
ghost use Rattle.site_state.specs.Site.{held_at, ops_of};

use crate::listing::list;
use crate::sending::sendings;
use archive_model::{Accepts, Listed, Prepared, Selection, Sending, View};
use operation::{Content, Digest, Op};
use site_state::WholeSite;
use std::alloc::{AllocError, Global};

/// The content in an operation.
fn content_in(op: &Op) -> Option<&Content>
    ensures { option_copied result ≡ content_in_op op.now }
{
    match op {
        Op::Content(content) => Some(content),
        Op::Correction(_) => None,
    }
}

/// The content of a digest.
fn content_of<'a>(site: &'a WholeSite, digest: &Digest) -> Option<&'a Content>
    ensures { option_copied result ≡ content_held (held_at site.now digest.now) }
{
    match site.op(digest) {
        None => None,
        Some(op) => content_in(op),
    }
}

/// An instance that is listed, with its content.
fn loaded(alloc: Global, site: &WholeSite, listed: Listed) -> Result<Option<Prepared>, AllocError>
    ensures { IfOk result (λ prepared. prepared ≡ loaded_of site.now listed) }
{
    match content_of(site, listed.content.digest()) {
        None => Ok(None),
        Some(content) => {
            let content = content.copy(alloc)?;
            Ok(Some(listed.with(content)))
        }
    }
}

/// The same of some instances, in their order.
fn loaded_all(
    alloc: Global,
    site: &WholeSite,
    listed: Vec<Listed>,
) -> Result<Vec<Prepared>, AllocError>
    ensures { IfOk result (λ found. found.items ≡ filter_map (loaded_of site.now) listed.items) }
{
    let mut found = Vec::with_capacity(alloc, listed.len())?;
    for instance in listed {
        if let Some(prepared) = loaded(alloc, site, instance)? {
            found.push(prepared)?;
        }
    }
    Ok(found)
}

/// What a site sends of a selection in a view, by ascending SOP Instance UID: what its records
/// list, with the contents that it holds.
///
/// Each data set is corrected. It goes out in its own transfer syntax where that is accepted for
/// its class, else converted to the implicit one where it is explicit and that is accepted, else
/// not at all. A data set that needs no change is the stored one, whose bytes are shared.
pub fn get(
    alloc: Global,
    site: &WholeSite,
    view: View,
    selection: &Selection,
    accepts: &Accepts,
) -> Result<Vec<Sending>, AllocError>
    ensures gets { IfOk result (λ found.
        Gets view selection.now accepts.now (ops_of site.now) found.items) }
    ensures computed { IfOk result (λ found.
        found.items ≡ sendings_of view selection.now accepts.now (ops_of site.now)) }
{
    site.see_lawful();
    let listed = list(alloc, site.site(), view, selection)?;
    let prepared = loaded_all(alloc, site, listed)?;
    let found = sendings(alloc, accepts, &prepared)?;
    Ok(found)
}
