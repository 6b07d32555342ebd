//! Readers, each with what it has seen and its own entries.
ghost use Rattle.std.specs.Prelude.{◌≡◌, ◌⊎◌, Err, IfOk, IfErr};
ghost use mathlib.Core.List.{IsPrefix};
ghost use Rattle.site_state.specs.Site.{ops_of, held_at, digests_of};
ghost use Rattle.archive_model.specs.Rows.{rows_of};
ghost use Rattle.archive_model.specs.Listed.{list_of};
ghost use Rattle.site_hub.specs.Fault.{IsLookFault};
ghost use Rattle.site_hub.specs.History.{set_of, missing_from, IsHistory};
ghost use Rattle.site_hub.specs.Hub.{HasKept, HasLooked};
ghost use Rattle.operation.specs.Spelling.{digest_of};
ghost use Rattle.records.specs.StandIn.{op_in};
ghost use Rattle.site_hub.specs.Refused.{Tells};

use crate::book::{Front, HubName};
use crate::fault::HubFault;
use crate::questions::{AllDigests, Finding, Listing, Missing, OpOf};
use crate::refusals::Refusals;
use crate::snapshot::Snapshot;
use crate::told::Told;
use archive_model::View;
use archive_query::{Answers, Listed, PreparedQuery, Query, Selection, rows_found};
use left_right::ReadHandle;
use operation::{Digest, Digested};
use records::RecordedOp;
use std::alloc::Global;
use std::marker::Model;

/// A place from which a hub is looked at. It waits for nobody.
///
/// Each look answers over a history that begins with all that the pass had seen, and which is seen
/// from then on, also where memory was refused for the answer. A look is `Busy`, and changes
/// nothing but the count of refusals, where the copy that is published is older than that, or no
/// copy can be entered, and nowhere else.
pub struct Pass<H: HubName> {
    pub(crate) reader: ReadHandle<Snapshot<H>>,
    pub(crate) number: u64,
    pub(crate) seen: Front<H>,
    pub(crate) mine: Vec<Digest>,
    pub(crate) refusals: Refusals,
    pub(crate) alloc: Global,
}

impl<H: HubName> Model for Pass<H> {
    ghost use Rattle.site_hub.specs.Hub.{Seat};

    ghost Value = { Seat };

    ghost view = { λ p. record {
      number = p.number;
      seen = p.seen;
      mine = p.mine.items;
      refused = p.refusals.count;
    } };
}

// It is written out, so that a caller does not prove again how each part is dropped.
impl<H: HubName> Drop for Pass<H> {
    fn drop(self) {
        let Pass {
            reader: _,
            number: _,
            seen: _,
            mine: _,
            refusals: _,
            alloc: _,
        } = self;
    }
}

// A query, made ready.
fn prepared(alloc: Global, query: &Query) -> Result<PreparedQuery<'_>, HubFault>
    ensures prepared { IfOk result (λ prepared. prepared ≡ query.now) }
    ensures memory { IfErr result (λ fault. fault ≡ HubFault.Memory) }
{
    match PreparedQuery::of(alloc, query) {
        Ok(prepared) => Ok(prepared),
        Err(_refused) => Err(HubFault::Memory),
    }
}

impl<H: HubName> Pass<H> {
    /// What every history keeps. Nothing is done: these are facts for callers.
    pub fn see_history(&self)
        ensures { IsHistory H.opening self.now.seen }
    {
        self.seen.see_history();
    }

    /// The record of an operation, which a keeper can take for the pass.
    pub fn record(&self, op: &Digested) -> Result<RecordedOp, HubFault>
        ensures stands { IfOk result (λ recorded. recorded ≡ op_in op.now) }
        ensures digest { digest_of (op_in op.now) ≡ digest_of op.now }
        ensures memory { IfErr result (λ fault. fault ≡ HubFault.Memory) }
    {
        match RecordedOp::of(self.alloc, op) {
            Ok(recorded) => Ok(recorded),
            Err(_refused) => Err(HubFault::Memory),
        }
    }

    /// From now on a look holds all that was told.
    pub fn learn(&mut self, told: Told<H>)
        ensures longer { (self.new.seen ≡ self.old.seen) ⊎ (self.new.seen ≡ told.reached) }
        ensures told { IsPrefix told.reached self.new.seen }
        ensures looked { HasLooked self.old self.new }
    {
        self.seen = self.seen.longer(&told.front);
    }

    /// The rows of a C-FIND (PS3.4, section C.4.1). Its keys are made ready; then one look takes
    /// what the rows are made of; keys are matched, and rows made, behind it.
    pub fn find(&mut self, view: View, called: &[u8], query: &Query) -> Result<Answers, HubFault>
        ensures rows { IfOk result (λ rows. rows ≡
            rows_of view called.now query.now (ops_of (set_of H.opening self.new.seen))) }
        ensures looked { HasLooked self.old self.new }
        ensures fault { IfErr result IsLookFault }
        ensures busy { result ≡ Err HubFault.Busy → HasKept self.old self.new }
        ensures counted { Tells result self.old.refused self.new.refused }
    {
        let prepared = prepared(self.alloc, query)?;
        let found = self.look(&Finding {
            view,
            query: &prepared,
        })?;
        match rows_found(self.alloc, &found, called, query) {
            Ok(rows) => Ok(rows),
            Err(_refused) => Err(HubFault::Memory),
        }
    }

    /// What a C-GET lists, before any data set is loaded (PS3.4, section C.4.3): it holds no byte
    /// of one.
    pub fn list(&mut self, view: View, selection: &Selection) -> Result<Vec<Listed>, HubFault>
        ensures listed { IfOk result (λ found. found.items ≡ list_of view selection.now
            (ops_of (set_of H.opening self.new.seen))) }
        ensures looked { HasLooked self.old self.new }
        ensures fault { IfErr result IsLookFault }
        ensures busy { result ≡ Err HubFault.Busy → HasKept self.old self.new }
        ensures counted { Tells result self.old.refused self.new.refused }
    {
        self.look(&Listing { view, selection })
    }

    /// Those of some digests that are not held, in the order given.
    pub fn missing(&mut self, digests: &[Digest]) -> Result<Vec<Digest>, HubFault>
        ensures missing { IfOk result (λ missing. missing.items ≡
            missing_from (set_of H.opening self.new.seen) digests.now) }
        ensures looked { HasLooked self.old self.new }
        ensures fault { IfErr result IsLookFault }
        ensures busy { result ≡ Err HubFault.Busy → HasKept self.old self.new }
        ensures counted { Tells result self.old.refused self.new.refused }
    {
        self.look(&Missing { digests })
    }

    /// The digests of all operations, ascending.
    pub fn digests(&mut self) -> Result<Vec<Digest>, HubFault>
        ensures digests { IfOk result (λ digests. digests.items ≡
            digests_of (set_of H.opening self.new.seen)) }
        ensures looked { HasLooked self.old self.new }
        ensures fault { IfErr result IsLookFault }
        ensures busy { result ≡ Err HubFault.Busy → HasKept self.old self.new }
        ensures counted { Tells result self.old.refused self.new.refused }
    {
        self.look(&AllDigests)
    }

    /// A second owner of the operation of a digest.
    pub fn op(&mut self, digest: &Digest) -> Result<Option<RecordedOp>, HubFault>
        ensures found { IfOk result (λ op. op ≡
            held_at (set_of H.opening self.new.seen) digest.now) }
        ensures looked { HasLooked self.old self.new }
        ensures fault { IfErr result IsLookFault }
        ensures busy { result ≡ Err HubFault.Busy → HasKept self.old self.new }
        ensures counted { Tells result self.old.refused self.new.refused }
    {
        self.look(&OpOf { digest })
    }
}
