//! What a site of a world answers to a query.

ghost use Rattle.std.specs.Prelude.{◌≡◌, IfOk};
ghost use Rattle.archive_model.specs.Rows.{rows_of};
ghost use Rattle.site_state.specs.Site.{ops_of};
ghost use Rattle.site_world.specs.Steps.{IsTold, told_of_looking, title_of as title_of_view};

use crate::fault::WorldFault;
use crate::step::Seen;
use archive_model::View;
use archive_query::{Answers, Query, find};
use octets::ListOf;
use site_state::WholeSite;
use std::alloc::{AllocError, Global};

/// The called title of a view.
fn title_of(view: View) -> &'static [u8]
    ensures { result.now ≡ title_of_view view }
{
    match view {
        View::Archive => b"ARCHIVE",
        View::Quality => b"QUALITY",
        View::Audit => b"AUDIT",
    }
}

/// The rows of a query at a site: those of its records.
fn rows_at(
    alloc: Global,
    site: &WholeSite,
    view: View,
    query: &Query,
) -> Result<Answers, AllocError>
    ensures { IfOk result (λ rows. rows ≡
        rows_of view (title_of_view view) query.now (ops_of site.now)) }
{
    let rows = find(alloc, site.site(), view, title_of(view), query)?;
    Ok(rows)
}

/// A step that asks, at its site.
pub fn look_at(
    alloc: Global,
    site: &WholeSite,
    view: View,
    query: &Query,
) -> Result<Seen, WorldFault>
    ensures { IsTold site.now (told_of_looking site.now view query.now) result site.now }
{
    let rows = rows_at(alloc, site, view, query)?;
    Ok(Seen::Rows(ListOf::of(rows.into_vec(alloc)?)))
}
