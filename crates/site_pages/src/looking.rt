//! What pages ask of a site, each in one look.

ghost use Rattle.std.specs.Prelude.{◌≡◌};
ghost use Rattle.site_state.specs.Site.{ops_of, counts_of};
ghost use Rattle.site_tables.specs.Studies.{AreTaken};
ghost use Rattle.site_tables.specs.Study.{IsTakenStudy};
ghost use Rattle.site_tables.specs.Tables.{IsTable, rows_of_taken};

use archive_query::PreparedQuery;
use site_hub::Question;
use site_state::{Counts, Site};
use site_tables::{Table, TakenStudies, TakenStudy, TakenTable};
use std::alloc::{AllocError, Global};

/// Asks how many operations are held of each kind.
#[derive(Clone, Copy)]
pub struct CountsOf;

impl Question<Counts> for CountsOf {
    ghost answers = { λ q set counts. counts ≡ counts_of (ops_of set) };

    fn answer(&self, _alloc: Global, site: &Site) -> Result<Counts, AllocError> {
        Ok(site.counts())
    }
}

/// Asks for what the rows of a table are made of.
#[derive(Clone, Copy)]
pub struct TableOf {
    pub table: Table,
}

impl Question<TakenTable> for TableOf {
    ghost answers = { λ q set taken. IsTable q.table (ops_of set) (rows_of_taken taken) };

    fn answer(&self, alloc: Global, site: &Site) -> Result<TakenTable, AllocError> {
        TakenTable::of(alloc, site, self.table)
    }
}

/// Asks for what rows of the studies are made of that a query finds.
#[derive(Clone, Copy)]
pub struct StudiesOf<'a> {
    pub query: &'a PreparedQuery<'a>,
}

impl<'a> Question<TakenStudies> for StudiesOf<'a> {
    ghost answers = { λ q set taken. AreTaken q.query.now (ops_of set) taken };

    fn answer(&self, alloc: Global, site: &Site) -> Result<TakenStudies, AllocError> {
        TakenStudies::of(alloc, site, self.query)
    }
}

/// Asks for what the page of a study is made of.
#[derive(Clone, Copy)]
pub struct StudyOf<'a> {
    pub uid: &'a [u8],
}

impl<'a> Question<TakenStudy> for StudyOf<'a> {
    ghost answers = { λ q set taken. IsTakenStudy q.uid.now (ops_of set) taken };

    fn answer(&self, alloc: Global, site: &Site) -> Result<TakenStudy, AllocError> {
        TakenStudy::of(alloc, site, self.uid)
    }
}
