//! What a report tells of a store.

ghost use Rattle.std.specs.Prelude.{◌≡◌, IfOk, OnOk, OnErr};
ghost use Rattle.site_state.specs.Site.{ops_of};
ghost use Rattle.site_tables.specs.Tables.{IsTable};
ghost use Rattle.shelved_site.specs.Reports.{reported, IsReport, IsTableOf, SERIES_KIND};

use crate::Store;
use crate::fault::ShelvedFault;
use crate::fingerprinting::fingerprint;
use crate::taking::{Hearing, Sited, site_on};
use crate::unreadable::Unreadable;
use octets::{ListOf, Octets};
use operation::Digest;
use site_state::{Counts, Site, SiteFault};
use site_tables::{Row, Table, rows_of_table};
use std::alloc::Global;

/// The kind of a correction of a series, as the store counts it.
const SERIES: u8 = 3;

/// How many operations there are of each kind, which SOP Instance UIDs have two contents or more,
/// and one number for them all.
#[derive(Debug, Drop)]
pub struct Report {
    pub counts: Counts,
    /// Those of the corrections that are of a series.
    pub series: u64,
    /// Ascending.
    pub flagged: ListOf<Octets>,
    pub fingerprint: Digest,
}

/// The report of a site whose store counts so many corrections of series.
fn report_of(alloc: Global, site: &Site, series: u64) -> Result<Report, SiteFault>
    ensures report { IfOk result (λ report. report ≡ reported site.now series) }
{
    Ok(Report {
        counts: site.counts(),
        series,
        flagged: ListOf::of(site.flagged(alloc)?),
        fingerprint: fingerprint(site),
    })
}

/// The report of a site whose operations stand in a store, which stays as it is.
pub fn report_with<S: Store>(
    alloc: Global,
    store: &mut S,
    site: &Site,
) -> Result<Report, ShelvedFault>
    ensures report { S.is_clean store.new → IfOk result
        (λ report. report ≡ reported site.now (S.count store.old SERIES_KIND)) }
    // It is as it was at any time since which nothing has changed.
    ensures same { S.is_clean store.new → (first : S) → S.is_same first store.old
        → OnOk result (S.is_same first store.new) }
    ensures refused { S.is_clean store.new → (first : S) → S.is_same first store.old
        → OnErr result (S.spares first store.new) }
    ensures clean { S.is_clean store.new → S.is_clean store.old }
{
    let series = store.count_kind(SERIES)?;
    let report = report_of(alloc, site, series)?;
    Ok(report)
}

/// The report of the site that those of a store's operations make which can be read, and what is
/// told of the others. The store stays as it is.
pub fn report_on<S: Store, H: Hearing>(
    alloc: Global,
    store: &mut S,
    hearing: &H,
) -> Result<(Report, Vec<Unreadable>), ShelvedFault>
    ensures report { S.is_clean store.new → IfOk result (λ told. IsReport
        (S.shows store.old told.1.items) (S.count store.old SERIES_KIND) told.0) }
    ensures same { S.is_clean store.new → OnOk result (S.is_same store.old store.new) }
    ensures refused { S.is_clean store.new → OnErr result (S.spares store.old store.new) }
    ensures clean { S.is_clean store.new → S.is_clean store.old }
{
    let Sited { site, unreadable } = site_on(alloc, store, hearing)?;
    let report = report_with(alloc, store, &site)?;
    Ok((report, unreadable))
}

/// The rows of a table over a site.
fn rows_in(alloc: Global, site: &Site, table: Table) -> Result<Vec<Row>, SiteFault>
    ensures { IfOk result (λ rows. IsTable table (ops_of site.now) rows.items) }
{
    let rows = rows_of_table(alloc, site, table)?;
    Ok(rows)
}

/// The rows of a table over the site that those of a store's operations make which can be read, and
/// what is told of the others. The store stays as it is.
pub fn table_on<S: Store, H: Hearing>(
    alloc: Global,
    store: &mut S,
    table: Table,
    hearing: &H,
) -> Result<(Vec<Row>, Vec<Unreadable>), ShelvedFault>
    ensures table { S.is_clean store.new → IfOk result (λ told. IsTableOf
        (S.shows store.old told.1.items) table told.0.items) }
    ensures same { S.is_clean store.new → OnOk result (S.is_same store.old store.new) }
    ensures refused { S.is_clean store.new → OnErr result (S.spares store.old store.new) }
    ensures clean { S.is_clean store.new → S.is_clean store.old }
{
    let Sited { site, unreadable } = site_on(alloc, store, hearing)?;
    let rows = rows_in(alloc, &site, table)?;
    Ok((rows, unreadable))
}
