//! A site in memory with the whole operations.

ghost use Rattle.std.specs.Prelude.{◌≡◌, ◌≢◌, ◌↔◌, cond, List, ℕ, Some, None, Ok, Err, OnOk, OnErr, IfOk, IfSome, IsTrue};
ghost use Rattle.std.specs.Prelude.{map, filter};
ghost use Rattle.std.specs.BTreeMap.{is_at};
ghost use Rattle.std.specs.Option.{option_copied};
ghost use Rattle.std.specs.FinMap as finmap;
ghost use Rattle.archive_model.specs.Contents.{flagged as flagged_in};
ghost use Rattle.operation.specs.Spelling.{digest_of};
ghost use Rattle.site_state.specs.Site.{IsSite, digests_of, is_missing as is_missing_in, ops_of, held_at};
ghost use Rattle.site_state.specs.Site.{with_op, IsClash, Takes, top_counter_of, counts_of, entry_at, digest_cmp};
ghost use Rattle.site_state.specs.Site.{of_entries};
ghost use Rattle.site_state.specs.Whole.{recorded as recorded_in};

use crate::counts::Counts;
use crate::fault::SiteFault;
use crate::site::Site;
use octets::Octets;
use operation::{Digest, Digested, Op, Taken};
use records::RecordedOp;
use std::alloc::{AllocError, Global};
use std::collections::BTreeMap;
use std::marker::Model;

/// The operations of a site, each whole and under its digest, with the site of their records.
///
/// Contracts see the map of the whole operations. What is looked up is looked up in the records,
/// which say the same (`records_say_the_same`).
pub struct WholeSite {
    operations: BTreeMap<Digest, Op>,
    site: Site,
    alloc: Global,
}

impl Model for WholeSite {
    ghost use Rattle.std.specs.Prelude.{◌≡◌};
    ghost use Rattle.std.specs.FinMap as finmap;
    ghost use Rattle.std.specs.Coded.{coded_list, coded_ℕ};
    ghost use Rattle.operation.specs.OpCode.{op_code};
    ghost use Rattle.site_state.specs.Site.{Map, IsSite};
    ghost use Rattle.site_state.specs.Whole.{recorded};

    ghost Value = { Map };

    ghost coded = { finmap.code (coded_list coded_ℕ) op_code };

    ghost view = { λ s. finmap.from_entries s.operations.entries };

    ghost invariant = { λ s. IsSite (finmap.from_entries s.operations.entries)
        × (s.site ≡ recorded (finmap.from_entries s.operations.entries)) };
}

// It is written out, so that a caller does not prove again how each part is dropped.
impl Drop for WholeSite {
    fn drop(self) {
        let WholeSite {
            operations: _,
            site: _,
            alloc: _,
        } = self;
    }
}

// Puts an operation under its digest, and its record into the site. A refusal leaves both as they
// were.
fn put_in(
    tree: &mut BTreeMap<Digest, Op>,
    site: &mut Site,
    digest: Digest,
    op: Op,
    recorded: RecordedOp,
) -> Result<(), AllocError>
    requires own { digest ≡ digest_of recorded }
    requires absent { entry_at digest tree.now.entries ≡ None }
    requires unknown { held_at site.now digest ≡ None }
    ensures held { OnOk result ((d : List ℕ) → entry_at d tree.new.entries
        ≡ cond (is_at (digest_cmp digest) d) (Some op) (entry_at d tree.old.entries)) }
    ensures taken { OnOk result (site.new ≡ finmap.insert site.old digest recorded) }
    ensures kept { OnErr result (of_entries tree.new.entries ≡ of_entries tree.old.entries) }
    ensures site_kept { OnErr result (site.new ≡ site.old) }
{
    tree.insert(digest, op)?;
    match site.take(recorded) {
        Ok(_taken) => Ok(()),
        Err(_refused) => {
            let _ = tree.remove(&digest);
            Err(AllocError)
        }
    }
}

impl WholeSite {
    /// A site that holds nothing. It takes no memory.
    pub fn new(alloc: Global) -> WholeSite
        ensures { result ≡ finmap.empty }
    {
        WholeSite {
            operations: BTreeMap::new(alloc),
            site: Site::new(alloc),
            alloc,
        }
    }

    /// The site of the records of these operations.
    pub fn site(&self) -> &Site
        ensures { result.now ≡ recorded_in self.now }
    {
        &self.site
    }

    /// Whether an operation of this digest is held.
    pub fn has(&self, digest: &Digest) -> bool
        ensures { IsTrue result ↔ (held_at self.now digest.now ≢ None) }
    {
        self.operations.contains_key(digest)
    }

    /// The operation of a digest.
    pub fn op(&self, digest: &Digest) -> Option<&Op>
        ensures found { option_copied result ≡ held_at self.now digest.now }
        ensures own { IfSome result (λ op. digest.now ≡ digest_of op.now) }
    {
        self.operations.get(digest)
    }

    /// The operations under their digests, ascending, as they stand.
    pub fn tree(&self) -> &BTreeMap<Digest, Op>
        ensures { result.now.entries ≡ finmap.entries self.now }
    {
        let _ = self.operations.len();
        &self.operations
    }

    /// Takes an operation, once.
    pub fn take(&mut self, op: Op) -> Result<Taken, SiteFault>
        // Each answer, exactly where it is given.
        ensures new { result ≡ Ok Taken.New → held_at self.old (digest_of op) ≡ None }
        ensures known { (result ≡ Ok Taken.Known) ↔ (held_at self.old (digest_of op) ≡ Some op) }
        ensures collision { (result ≡ Err SiteFault.Collision) ↔ IsClash self.old op }
        ensures memory { result ≡ Err SiteFault.Memory → held_at self.old (digest_of op) ≡ None }

        // What the site holds then.
        ensures added { result ≡ Ok Taken.New → self.new ≡ with_op self.old op }
        ensures same { result ≡ Ok Taken.Known → self.new ≡ self.old }
        ensures kept { OnErr result (self.new ≡ self.old) }
        ensures takes { Takes self.old op result self.new }
    {
        self.take_digested(Digested::of(op))
    }

    /// Takes an operation whose digest is known, once. Nothing is hashed.
    pub fn take_digested(&mut self, op: Digested) -> Result<Taken, SiteFault>
        // Each answer, exactly where it is given.
        ensures new { result ≡ Ok Taken.New → held_at self.old (digest_of op) ≡ None }
        ensures known { (result ≡ Ok Taken.Known) ↔ (held_at self.old (digest_of op) ≡ Some op) }
        ensures collision { (result ≡ Err SiteFault.Collision) ↔ IsClash self.old op }
        ensures memory { result ≡ Err SiteFault.Memory → held_at self.old (digest_of op) ≡ None }

        // What the site holds then.
        ensures added { result ≡ Ok Taken.New → self.new ≡ with_op self.old op }
        ensures same { result ≡ Ok Taken.Known → self.new ≡ self.old }
        ensures kept { OnErr result (self.new ≡ self.old) }
        ensures takes { Takes self.old op result self.new }
    {
        self.take_once(op)
    }

    fn take_once(&mut self, digested: Digested) -> Result<Taken, SiteFault>
        ensures { Takes self.old digested result self.new }
    {
        if let Some(held) = self.operations.get(digested.digest()) {
            if held.equals(digested.op()) {
                return Ok(Taken::Known);
            }
            return Err(SiteFault::Collision);
        }
        let recorded = RecordedOp::of(self.alloc, &digested)?;
        let (digest, op) = digested.into_parts();
        put_in(&mut self.operations, &mut self.site, digest, op, recorded)?;
        Ok(Taken::New)
    }

    /// Each operation that is held lies under its digest. Nothing is done: this is a fact for
    /// callers.
    pub fn see_lawful(&self)
        ensures own { IsSite self.now }
    {
        let _ = self.operations.len();
    }

    /// Whether both sites hold the same.
    pub fn same(&self, other: &WholeSite) -> bool
        ensures { IsTrue result ↔ (self.now ≡ other.now) }
    {
        let mut others = other.operations.values();
        for op in self.operations.values() {
            match others.next() {
                None => return false,
                Some(other_op) => {
                    if !op.equals(other_op) {
                        return false;
                    }
                }
            }
        }
        others.next().is_none()
    }

    /// Every operation, ascending by digest.
    pub fn operations(&self, alloc: Global) -> Result<Vec<&Op>, AllocError>
        ensures { IfOk result (λ ops. map (λ o. o.now) ops.items ≡ ops_of self.now) }
    {
        let mut ops = Vec::with_capacity(alloc, self.operations.len())?;
        for op in self.operations.values() {
            ops.push(op)?;
        }
        Ok(ops)
    }

    /// The digests of all operations, ascending.
    pub fn digests(&self, alloc: Global) -> Result<Vec<Digest>, AllocError>
        ensures { IfOk result (λ digests. digests.items ≡ digests_of self.now) }
    {
        let digests = self.site().digests(alloc)?;
        Ok(digests)
    }

    /// Those of some digests that are not held, in the order given.
    pub fn missing(&self, alloc: Global, digests: &[Digest]) -> Result<Vec<Digest>, AllocError>
        ensures { IfOk result (λ missing. missing.items
            ≡ filter (is_missing_in self.now) digests.now) }
    {
        let missing = self.site().missing(alloc, digests)?;
        Ok(missing)
    }

    /// The flagged SOP Instance UIDs, ascending.
    pub fn flagged(&self, alloc: Global) -> Result<Vec<Octets>, AllocError>
        ensures { IfOk result (λ uids. uids.items ≡ flagged_in (ops_of self.now)) }
    {
        let uids = self.site().flagged(alloc)?;
        Ok(uids)
    }

    /// The greatest counter of the corrections that are held, 0 where none is.
    pub fn top_counter(&self) -> u64
        ensures { result ≡ top_counter_of (ops_of self.now) }
    {
        self.site().top_counter()
    }

    /// How many operations are held, and of which kind.
    pub fn counts(&self) -> Counts
        ensures { result ≡ counts_of (ops_of self.now) }
    {
        self.site().counts()
    }
}
