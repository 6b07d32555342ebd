//! What passes ask of a site, each in one look.
ghost use Rattle.std.specs.Prelude.{◌≡◌, List, ℕ, IfOk};
ghost use Rattle.std.specs.Option.{option_copied};
ghost use Rattle.site_state.specs.Site.{ops_of, held_at, digests_of};
ghost use Rattle.archive_model.specs.Rows.{rows_of};
ghost use Rattle.archive_query.specs.Found.{rows_found};
ghost use Rattle.archive_model.specs.Listed.{list_of};
ghost use Rattle.site_hub.specs.History.{missing_from};

use crate::looking::Question;
use archive_model::View;
use archive_query::{Found, Listed, PreparedQuery, Selection, list, take};
use operation::Digest;
use records::RecordedOp;
use site_state::Site;
use std::alloc::{AllocError, Global};

/// Asks for what the rows of a C-FIND are made of.
#[derive(Clone, Copy)]
pub(crate) struct Finding<'a> {
    pub view: View,
    pub query: &'a PreparedQuery<'a>,
}

impl<'a> Question<Found> for Finding<'a> {
    ghost answers = { λ q set found. (called : List ℕ) →
        rows_found called q.query.now found ≡ rows_of q.view called q.query.now (ops_of set) };

    fn answer(&self, alloc: Global, site: &Site) -> Result<Found, AllocError> {
        take(alloc, site, self.view, self.query)
    }
}

/// Asks for what a C-GET lists.
#[derive(Clone, Copy)]
pub(crate) struct Listing<'a> {
    pub view: View,
    pub selection: &'a Selection,
}

impl<'a> Question<Vec<Listed>> for Listing<'a> {
    ghost answers = { λ q set found.
        found.items ≡ list_of q.view q.selection.now (ops_of set) };

    fn answer(&self, alloc: Global, site: &Site) -> Result<Vec<Listed>, AllocError> {
        list(alloc, site, self.view, self.selection)
    }
}

/// Asks which of some digests are not held.
#[derive(Clone, Copy)]
pub(crate) struct Missing<'a> {
    pub digests: &'a [Digest],
}

impl<'a> Question<Vec<Digest>> for Missing<'a> {
    ghost answers = { λ q set missing. missing.items ≡ missing_from set q.digests.now };

    #[tactic(auto, unfolding(crate::specs::History::missing_from))]
    fn answer(&self, alloc: Global, site: &Site) -> Result<Vec<Digest>, AllocError> {
        site.missing(alloc, self.digests)
    }
}

/// Asks for the digests of all operations.
#[derive(Clone, Copy)]
pub(crate) struct AllDigests;

impl Question<Vec<Digest>> for AllDigests {
    ghost answers = { λ q set digests. digests.items ≡ digests_of set };

    fn answer(&self, alloc: Global, site: &Site) -> Result<Vec<Digest>, AllocError> {
        site.digests(alloc)
    }
}

/// Asks for a second owner of the record of the operation of a digest.
#[derive(Clone, Copy)]
pub(crate) struct OpOf<'a> {
    pub digest: &'a Digest,
}

impl<'a> Question<Option<RecordedOp>> for OpOf<'a> {
    ghost answers = { λ q set op. op ≡ held_at set q.digest.now };

    fn answer(&self, alloc: Global, site: &Site) -> Result<Option<RecordedOp>, AllocError> {
        copy_of(alloc, site.op(self.digest))
    }
}

/// A copy of an operation, if there is one.
fn copy_of(alloc: Global, op: Option<&RecordedOp>) -> Result<Option<RecordedOp>, AllocError>
    ensures { IfOk result (λ copy. copy ≡ option_copied op.entry) }
{
    match op {
        None => Ok(None),
        Some(op) => Ok(Some(op.copy(alloc)?)),
    }
}
