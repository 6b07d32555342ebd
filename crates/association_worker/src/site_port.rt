//! A site in memory as a port.

ghost use Rattle.std.specs.Prelude.{◌≡◌, ◌≢◌, ◌⊎◌, ◌++◌, ◌∷◌, [], Err, Some, None};
ghost use Rattle.std.specs.Prelude.{OnOk, OnErr, IfOk, IfErr, MatchResult};
ghost use Rattle.std.specs.FinMap as finmap;
ghost use Rattle.operation.specs.declared.op.Op.TheVariants.{Content as AContent};
ghost use Rattle.operation.specs.Spelling.{digest_of};
ghost use Rattle.operation.specs.Parts.{ContentParts};
ghost use Rattle.operation.specs.RecordParts.{content_record};
ghost use Rattle.records.specs.StandIn.{op_in};
ghost use Rattle.archive_model.specs.Rows.{rows_of};
ghost use Rattle.site_state.specs.Site.{IsSite, IsClash, ops_of, held_at};
ghost use Rattle.site_state.specs.Whole.{recorded};
ghost use Rattle.site_hub.specs.Hub.{WasHeld};
ghost use Rattle.archive_model.specs.Listed.{list_of, IsOfRecord};
ghost use Rattle.association_run.specs.Port.{Stores, Finds, Gets, Loads};
ghost use Rattle.association_worker.specs.Port.{PortParts, recorded_in, fault_of_site, IsUnheld, TakesRecord};

use crate::loading::loaded;
use archive_model::{Answers, Listed, Query, Selection, View};
use archive_query::{find, list};
use association_run::Port;
use association_session::PortFault;
use octets::ListOf;
use operation::{Content, ContentRecord, Digest, Digested, Op, Taken};
use records::RecordedOp;
use site_state::{Site, SiteFault, WholeSite};
use std::alloc::Global;
use std::marker::Model;

/// A site in memory, which no one else changes, and the digests of its own stores. Contracts see
/// its whole operations; as a port it holds what stands for them.
#[derive(Drop)]
pub struct SitePort {
    alloc: Global,
    site: WholeSite,
    own: Vec<Digest>,
}

impl Model for SitePort {
    ghost use Rattle.association_worker.specs.Port.{PortParts, port_code};

    ghost Value = { PortParts };

    ghost coded = { port_code };

    ghost view = { λ p. record { site = p.site; own = p.own.items } };
}

fn port_fault(fault: SiteFault) -> PortFault
    ensures { result ≡ fault_of_site fault }
{
    match fault {
        SiteFault::Collision => PortFault::Collision,
        SiteFault::Memory => PortFault::Memory,
    }
}

/// Puts an operation's digest at the end.
fn put_digest(own: &mut Vec<Digest>, op: &Digested) -> Result<(), PortFault>
    ensures put { OnOk result (own.new.items ≡ own.old.items ++ digest_of op.now ∷ []) }
    ensures kept { OnErr result (own.new.items ≡ own.old.items) }
    ensures memory { IfErr result (λ fault. fault ≡ PortFault.Memory) }
{
    match own.push(*op.digest()) {
        Ok(()) => Ok(()),
        Err(_refused) => Err(PortFault::Memory),
    }
}

/// Whether an operation is held, as its record tells, or `Collision` where its digest is held with
/// another record.
#[tactic(auto, using(crate::proofs::PortLaws::clashes))]
fn check(site: &Site, op: &RecordedOp) -> Result<Taken, SiteFault>
    ensures { MatchResult result (WasHeld site.now op.now)
        (λ fault. (fault ≡ SiteFault.Collision) × IsClash site.now op.now) }
{
    match site.op(op.digest()) {
        None => Ok(Taken::New),
        Some(held) => {
            if held.equals(op) {
                return Ok(Taken::Known);
            }
            Err(SiteFault::Collision)
        }
    }
}

/// Takes an operation, once: what is held of its record is it. Its bytes are compared with no
/// others.
fn take_once(alloc: Global, site: &mut WholeSite, op: Digested) -> Result<Taken, SiteFault>
    ensures takes { IfOk result (λ taken. TakesRecord site.old op taken site.new) }
    ensures collision { result ≡ Err SiteFault.Collision →
        IsClash (recorded site.old) (op_in op) }
    ensures kept { OnErr result (site.new ≡ site.old) }
    // What stands for it has its digest.
    ensures digest { digest_of (op_in op) ≡ digest_of op }
{
    let kept = RecordedOp::of(alloc, &op)?;
    match check(site.site(), &kept)? {
        Taken::Known => Ok(Taken::Known),
        Taken::New => site.take_digested(op),
    }
}

/// The content of a record, out of the operation that is held under its digest.
fn loaded_copy(alloc: Global, op: &Op, asked: &ContentRecord) -> Result<Content, PortFault>
    requires { asked.now.digest ≡ digest_of op.now }
    ensures loaded { IfOk result (λ content.
        (op.now ≡ AContent content) × IsOfRecord asked.now content) }
    ensures shelf { result ≡ Err PortFault.Shelf → (content : ContentParts) →
        op.now ≡ AContent content → content_record content ≢ asked.now }
    ensures fault { IfErr result (λ fault.
        (fault ≡ PortFault.Memory) ⊎ (fault ≡ PortFault.Shelf)) }
{
    match op.copy(alloc) {
        Ok(op) => loaded(op, asked),
        Err(_refused) => Err(PortFault::Memory),
    }
}

impl SitePort {
    /// A site that holds nothing. It takes no memory.
    pub fn new(alloc: Global) -> SitePort
        ensures { result ≡ record { site = finmap.empty; own = [] } }
    {
        SitePort {
            alloc,
            site: WholeSite::new(alloc),
            own: Vec::new(alloc),
        }
    }

    /// What is held.
    pub fn site(&self) -> &WholeSite
        ensures { result.now ≡ self.now.site }
    {
        &self.site
    }

    /// The digests of the contents that were stored, in order.
    pub fn own(&self) -> &[Digest]
        ensures { result.now ≡ self.now.own }
    {
        self.own.as_slice()
    }

    /// The rows that the site answers to a query.
    pub fn rows(&self, called: &[u8], view: View, query: &Query) -> Result<Answers, PortFault>
        ensures found { IfOk result (λ rows. rows ≡
            rows_of view called.now query.now (ops_of self.now.site)) }
        ensures fault { IfErr result (λ fault. fault ≡ PortFault.Memory) }
    {
        match find(self.alloc, self.site.site(), view, called, query) {
            Ok(rows) => Ok(rows),
            Err(_refused) => Err(PortFault::Memory),
        }
    }

    /// What the site lists of a selection.
    pub fn listed(&self, view: View, selection: &Selection) -> Result<ListOf<Listed>, PortFault>
        ensures listed { IfOk result (λ listed. listed ≡
            list_of view selection.now (ops_of self.now.site)) }
        ensures fault { IfErr result (λ fault. fault ≡ PortFault.Memory) }
    {
        match list(self.alloc, self.site.site(), view, selection) {
            Ok(listed) => Ok(ListOf::of(listed)),
            Err(_refused) => Err(PortFault::Memory),
        }
    }

    /// The content of a record, which shares the bytes of the data set with the site. There is none
    /// exactly where the shelf is told of.
    pub fn content(&self, asked: &ContentRecord) -> Result<Content, PortFault>
        ensures loaded { IfOk result (λ content. (held_at self.now.site asked.now.digest
            ≡ Some (AContent content)) × IsOfRecord asked.now content) }
        ensures none { held_at self.now.site asked.now.digest ≡ None →
            result ≡ Err PortFault.Shelf }
        ensures shelf { result ≡ Err PortFault.Shelf → (content : ContentParts) →
            held_at self.now.site asked.now.digest ≡ Some (AContent content) →
            content_record content ≢ asked.now }
        ensures fault { IfErr result (λ fault.
            (fault ≡ PortFault.Memory) ⊎ (fault ≡ PortFault.Shelf)) }
        // Each operation lies under its own digest.
        ensures lawful { IsSite self.now.site }
    {
        self.site.see_lawful();
        match self.site.op(asked.digest()) {
            None => Err(PortFault::Shelf),
            Some(op) => loaded_copy(self.alloc, op, asked),
        }
    }

    /// Takes a content, once, as its record tells it from others. A refusal leaves everything as it
    /// was.
    pub fn take(&mut self, content: Content) -> Result<Taken, PortFault>
        ensures takes { IfOk result (λ taken.
            TakesRecord self.old.site (AContent content) taken self.new.site) }
        ensures listed { OnOk result (self.new.own
            ≡ self.old.own ++ digest_of (AContent content) ∷ []) }
        ensures collision { result ≡ Err PortFault.Collision →
            IsClash (recorded self.old.site) (op_in (AContent content)) }
        // It is never busy, and has no shelf.
        ensures fault { IfErr result (λ fault.
            (fault ≡ PortFault.Collision) ⊎ (fault ≡ PortFault.Memory)) }
        ensures kept { OnErr result (self.new ≡ self.old) }
        // Each operation lies under its own digest, and what stands for one has it too.
        ensures lawful { IsSite self.old.site }
        ensures recorded { IsSite (recorded self.old.site) }
        ensures digest { OnOk result
            (digest_of (op_in (AContent content)) ≡ digest_of (AContent content)) }
    {
        self.site.see_lawful();
        self.site.site().see_lawful();
        let op = Digested::of(Op::Content(content));
        put_digest(&mut self.own, &op)?;
        match take_once(self.alloc, &mut self.site, op) {
            Ok(taken) => Ok(taken),
            Err(fault) => {
                self.own.pop();
                Err(port_fault(fault))
            }
        }
    }
}

impl Port for SitePort {
    ghost ops = { recorded_in };

    ghost own = { λ p. p.own };

    fn store(&mut self, content: Content) -> Result<Taken, PortFault>
        ensures stores { Stores recorded_in (λ (p : PortParts). p.own) self.old
            (op_in (AContent content)) result self.new }

        // It does what `take` does.
        ensures takes { IfOk result (λ taken.
            TakesRecord self.old.site (AContent content) taken self.new.site) }
        ensures listed { OnOk result (self.new.own
            ≡ self.old.own ++ digest_of (AContent content) ∷ []) }
        ensures collision { result ≡ Err PortFault.Collision →
            IsClash (recorded self.old.site) (op_in (AContent content)) }
        ensures fault { IfErr result (λ fault.
            (fault ≡ PortFault.Collision) ⊎ (fault ≡ PortFault.Memory)) }
        ensures kept { OnErr result (self.new ≡ self.old) }
    {
        self.take(content)
    }

    fn find(&mut self, called: &[u8], view: View, query: &Query) -> Result<Answers, PortFault>
        ensures finds { Finds recorded_in (λ (p : PortParts). p.own) self.old
            (record { called = called.now; view = view; query = query.now }) result self.new }

        // It is the site's own `find`, and is never busy.
        ensures found { IfOk result (λ rows. rows ≡
            rows_of view called.now query.now (ops_of self.old.site)) }
        ensures fault { IfErr result (λ fault. fault ≡ PortFault.Memory) }
        ensures kept { self.new ≡ self.old }
    {
        self.rows(called, view, query)
    }

    fn get(&mut self, view: View, selection: &Selection) -> Result<ListOf<Listed>, PortFault>
        ensures gets { Gets recorded_in (λ (p : PortParts). p.own) self.old
            (record { view = view; selection = selection.now }) result self.new }

        // It is the site's own `list`, and is never busy.
        ensures listed { IfOk result (λ listed. listed ≡
            list_of view selection.now (ops_of self.old.site)) }
        ensures fault { IfErr result (λ fault. fault ≡ PortFault.Memory) }
        ensures kept { self.new ≡ self.old }
    {
        self.listed(view, selection)
    }

    fn load(&mut self, asked: &ContentRecord) -> Result<Content, PortFault>
        ensures loads { Loads recorded_in (λ (p : PortParts). p.own) self.old asked.now result
            self.new }

        // It is never busy, and the shelf is told of exactly where none of the record is held.
        ensures none { held_at self.old.site asked.now.digest ≡ None →
            result ≡ Err PortFault.Shelf }
        ensures shelf { result ≡ Err PortFault.Shelf →
            IsUnheld (ops_of self.old.site) asked.now }
        ensures fault { IfErr result (λ fault.
            (fault ≡ PortFault.Memory) ⊎ (fault ≡ PortFault.Shelf)) }
        ensures kept { self.new ≡ self.old }
    {
        self.content(asked)
    }
}
