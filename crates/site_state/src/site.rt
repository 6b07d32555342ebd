//! One site.

ghost use Rattle.std.specs.Prelude.{◌≡◌, ◌≢◌, ◌↔◌, List, ℕ, Some, None, Ok, Err, OnOk, OnErr, IfOk, IfSome, IsTrue};
ghost use Rattle.std.specs.Prelude.{map, filter};
ghost use Rattle.archive_model.specs.Contents.{flagged as flagged_in, pick as pick_in};
ghost use Rattle.archive_model.specs.Covered.{is_covered as is_covered_in};
ghost use Rattle.archive_model.specs.Shown.{shown_at};
ghost use Rattle.archive_model.specs.Attributes.{attribute as attribute_in};
ghost use Rattle.std.specs.Option.{option_copied};
ghost use Rattle.std.specs.FinMap as finmap;
ghost use Rattle.std.specs.List.Sorted.{IsStrictlySortedBy};
ghost use Rattle.octets.specs.Texts.{text_cmp};
ghost use Rattle.operation.specs.Spelling.{digest_of};
ghost use Rattle.site_state.specs.Site.{IsSite, Map, digests_of, is_missing as is_missing_in, ops_of, held_at};
ghost use Rattle.site_state.specs.Site.{with_op, IsClash, Takes, counter_of as counter_of_op, top_counter_of};
ghost use Rattle.site_state.specs.Site.{counts_of};
ghost use Rattle.study_index.specs.Definition.{IsIndexOf, index_value, IsLawful, AreLawful};
ghost use Rattle.site_state.specs.Union.{union, DoClash, Agree};
ghost use Rattle.site_state.specs.Hidden.{hides_under, is_hidden as is_hidden_in, content_held};

use crate::counts::Counts;
use crate::fault::SiteFault;
use crate::tree::{do_clash, merge_in, take_in};
use archive_model::{View, hides, is_hiding};
use join_laws::Join;
use octets::Octets;
use operation::{Digest, Taken};
use records::{Parts, RecordedContent, RecordedOp};
use rejection_note::NoteTitle;
use std::alloc::{AllocError, Global};
use std::collections::{BTreeMap, BTreeSet};
use std::marker::Model;
use study_index::{Index, ShortText};

mod lending;

/// The operations of a site, each under its digest, with their index and the greatest counter of
/// its corrections.
pub struct Site {
    operations: BTreeMap<Digest, RecordedOp>,
    index: Index,
    top: u64,
    alloc: Global,
}

impl Model for Site {
    ghost use Rattle.std.specs.FinMap as finmap;
    ghost use Rattle.std.specs.Coded.{coded_list, coded_ℕ};
    ghost use Rattle.operation.specs.OpCode.{op_code};
    ghost use Rattle.site_state.specs.Site.{Map, IsSite, HasTop, HasIndex, HasLawful};

    ghost Value = { Map };

    ghost coded = { finmap.code (coded_list coded_ℕ) op_code };

    ghost view = { λ s. finmap.from_entries s.operations.entries };

    ghost invariant = { λ s. IsSite (finmap.from_entries s.operations.entries)
        × HasTop (finmap.from_entries s.operations.entries) s.top
        × HasIndex (finmap.from_entries s.operations.entries) s.index
        × HasLawful (finmap.from_entries s.operations.entries) };
}

// It is written out, so that a caller does not prove again how each part is dropped.
impl Drop for Site {
    fn drop(self) {
        let Site {
            operations: _,
            index: _,
            top: _,
            alloc: _,
        } = self;
    }
}

/// The counter of a correction, and 0 of a content.
fn counter_of(op: &RecordedOp) -> u64
    ensures { result ≡ counter_of_op op.now }
{
    match op.parts() {
        Parts::Content(_) => 0,
        Parts::Correction(recorded) => recorded.correction().stamp().counter,
    }
}

/// An operation keeps true what it may hold.
fn see_lawful(op: &RecordedOp)
    ensures { IsLawful op.now }
{
    op.see_recorded();
}

// The bytes of some UIDs, ascending.
fn octets_of(alloc: Global, uids: &BTreeSet<ShortText>) -> Result<Vec<Octets>, AllocError>
    ensures all { IfOk result (λ texts. texts.items ≡ uids.now.keys) }
    ensures ordered { IfOk result (λ _. IsStrictlySortedBy text_cmp uids.now.keys) }
{
    let mut texts = Vec::new(alloc);
    for uid in uids.iter() {
        texts.push(Octets::from_slice(alloc, uid.as_slice())?)?;
    }
    Ok(texts)
}

impl Site {
    /// A site that holds nothing. It takes no memory.
    pub fn new(alloc: Global) -> Site
        ensures { result ≡ finmap.empty }
    {
        Site {
            operations: BTreeMap::new(alloc),
            index: Index::new(alloc),
            top: 0,
            alloc,
        }
    }

    /// Whether an operation of this digest is held.
    pub fn has(&self, digest: &Digest) -> bool
        ensures { IsTrue result ↔ (held_at self.now digest.now ≢ None) }
    {
        self.operations.contains_key(digest)
    }

    /// The operation of a digest.
    pub fn op(&self, digest: &Digest) -> Option<&RecordedOp>
        ensures found { option_copied result ≡ held_at self.now digest.now }
        ensures own { IfSome result (λ op. digest.now ≡ digest_of op.now) }
    {
        self.operations.get(digest)
    }

    /// Takes an operation, once. Nothing is hashed.
    pub fn take(&mut self, op: RecordedOp) -> Result<Taken, SiteFault>
        // Each answer, exactly where it is given.
        ensures new { result ≡ Ok Taken.New → held_at self.old (digest_of op) ≡ None }
        ensures known { (result ≡ Ok Taken.Known) ↔ (held_at self.old (digest_of op) ≡ Some op) }
        ensures collision { (result ≡ Err SiteFault.Collision) ↔ IsClash self.old op }
        ensures memory { result ≡ Err SiteFault.Memory → held_at self.old (digest_of op) ≡ None }

        // What the site holds then.
        ensures added { result ≡ Ok Taken.New → self.new ≡ with_op self.old op }
        ensures same { result ≡ Ok Taken.Known → self.new ≡ self.old }
        ensures kept { OnErr result (self.new ≡ self.old) }
        ensures takes { Takes self.old op result self.new }
    {
        let digest = *op.digest();
        self.take_under(digest, op)
    }

    /// Takes an operation under its digest.
    fn take_under(&mut self, digest: Digest, op: RecordedOp) -> Result<Taken, SiteFault>
        requires { digest ≡ digest_of op }
        ensures { Takes self.old op result self.new }
    {
        if let Some(held) = self.operations.get(&digest) {
            if held.equals(&op) {
                return Ok(Taken::Known);
            }
            return Err(SiteFault::Collision);
        }
        let counter = counter_of(&op);
        see_lawful(&op);
        take_in(&mut self.operations, &mut self.index, digest, op)?;
        self.top = self.top.max(counter);
        Ok(Taken::New)
    }

    /// Takes in all that another site holds. A refusal leaves the site as it was.
    pub fn merge(&mut self, other: &Site) -> Result<(), SiteFault>
        ensures merged { OnOk result (self.new ≡ union self.old other.now) }
        ensures agreed { OnOk result (Agree self.old other.now) }
        ensures collision { (result ≡ Err SiteFault.Collision) ↔ DoClash self.old other.now }
        ensures kept { OnErr result (self.new ≡ self.old) }
    {
        if do_clash(&self.operations, &other.operations) {
            return Err(SiteFault::Collision);
        }
        merge_in(
            self.alloc,
            &mut self.operations,
            &mut self.index,
            &other.operations,
            &other.index,
        )?;
        self.top = self.top.max(other.top);
        Ok(())
    }

    /// What queries look up in the operations: picks, copies, the titles under which UIDs are
    /// named, the greatest corrections, and the walk by study, series and instance. It has what the
    /// operations put there and nothing else.
    pub fn index(&self) -> &Index
        ensures value { result.now ≡ index_value (ops_of self.now) }
        ensures says { IsIndexOf (ops_of self.now) result.now }
    {
        &self.index
    }

    /// Each operation that is held lies under its digest, and has what every operation keeps true
    /// of its parts. Nothing is done: these are facts for callers.
    pub fn see_lawful(&self)
        ensures own { IsSite self.now }
        ensures lawful { AreLawful (ops_of self.now) }
    {
        let _ = self.operations.len();
    }

    // The content of a digest.
    fn content_under(&self, digest: &Digest) -> Option<&RecordedContent>
        ensures { option_copied result ≡ content_held (held_at self.now digest.now) }
    {
        match self.op(digest) {
            None => None,
            Some(op) => op.content(),
        }
    }

    /// The pick of a SOP Instance UID, by two look-ups.
    pub fn pick(&self, uid: &ShortText) -> Option<&RecordedContent>
        ensures { option_copied result ≡ pick_in uid.now (ops_of self.now) }
    {
        self.see_lawful();
        match self.index().pick(uid) {
            None => None,
            Some(picked) => self.content_under(picked.digest()),
        }
    }

    // Whether notes of a title name a UID and hide.
    fn is_hidden_by(&self, view: View, uid: &ShortText, title: NoteTitle) -> bool
        ensures { result ≡ hides_under view (ops_of self.now) uid.now title }
    {
        let _ = uid.as_slice();
        if !hides(view, title) {
            return false;
        }
        self.index().covered_by(uid, title)
    }

    // Whether notes of one of the titles do.
    fn is_hidden(&self, view: View, uid: &ShortText) -> bool
        ensures { result ≡ is_hidden_in view (ops_of self.now) uid.now }
    {
        self.is_hidden_by(view, uid, NoteTitle::Quality)
            || self.is_hidden_by(view, uid, NoteTitle::Safety)
            || self.is_hidden_by(view, uid, NoteTitle::Worklist)
            || self.is_hidden_by(view, uid, NoteTitle::Expired)
    }

    /// Whether a UID is covered in a view, by one look-up for each title.
    pub fn is_covered(&self, view: View, uid: &ShortText) -> bool
        ensures { result ≡ is_covered_in view (ops_of self.now) uid.now }
    {
        self.is_hidden(view, uid)
    }

    /// What a view shows of a SOP Instance UID, by look-ups.
    pub fn shown(&self, view: View, uid: &ShortText) -> Option<&RecordedContent>
        ensures { option_copied result ≡ shown_at view (ops_of self.now) uid.now }
    {
        if self.is_covered(view, uid) {
            return None;
        }
        match self.pick(uid) {
            None => None,
            Some(content) => {
                if is_hiding(view, content.note()) {
                    return None;
                }
                Some(content)
            }
        }
    }

    /// An attribute of a content, corrected, by one look-up for each kind of target.
    pub fn attribute<'a>(&'a self, content: &'a RecordedContent, tag: u32) -> &'a [u8]
        ensures { result.now ≡ attribute_in (ops_of self.now) content.now tag }
    {
        self.see_lawful();
        match self.index().latest(content, tag) {
            Some(fix) => fix.value.as_slice(),
            None => content.own_value(tag),
        }
    }

    /// Whether both sites hold the same.
    pub fn same(&self, other: &Site) -> bool
        ensures { IsTrue result ↔ (self.now ≡ other.now) }
    {
        let mut others = other.operations.values();
        for op in self.operations.values() {
            match others.next() {
                None => return false,
                Some(other_op) => {
                    if !op.equals(other_op) {
                        return false;
                    }
                }
            }
        }
        others.next().is_none()
    }

    /// Every operation, ascending by digest.
    pub fn operations(&self, alloc: Global) -> Result<Vec<&RecordedOp>, AllocError>
        ensures { IfOk result (λ ops. map (λ o. o.now) ops.items ≡ ops_of self.now) }
    {
        let mut ops = Vec::with_capacity(alloc, self.operations.len())?;
        for op in self.operations.values() {
            ops.push(op)?;
        }
        Ok(ops)
    }

    /// The digests of all operations, ascending.
    pub fn digests(&self, alloc: Global) -> Result<Vec<Digest>, AllocError>
        ensures { IfOk result (λ digests. digests.items ≡ digests_of self.now) }
    {
        let mut digests = Vec::with_capacity(alloc, self.operations.len())?;
        for digest in self.operations.keys() {
            digests.push(*digest)?;
        }
        Ok(digests)
    }

    fn is_missing(&self, digest: &Digest) -> bool
        ensures { result ≡ is_missing_in self.now digest.now }
    {
        !self.operations.contains_key(digest)
    }

    /// Those of some digests that are not held, in the order given.
    pub fn missing(&self, alloc: Global, digests: &[Digest]) -> Result<Vec<Digest>, AllocError>
        ensures { IfOk result (λ missing. missing.items
            ≡ filter (is_missing_in self.now) digests.now) }
    {
        let mut missing = Vec::new(alloc);
        for digest in digests {
            if self.is_missing(digest) {
                missing.push(*digest)?;
            }
        }
        Ok(missing)
    }

    /// The flagged SOP Instance UIDs, ascending, by one pass over the copies of the index.
    pub fn flagged(&self, alloc: Global) -> Result<Vec<Octets>, AllocError>
        ensures { IfOk result (λ uids. uids.items ≡ flagged_in (ops_of self.now)) }
    {
        self.see_lawful();
        let mut uids = BTreeSet::new(alloc);
        let index = self.index();
        index.held();
        index.put_flagged(&mut uids)?;
        let texts = octets_of(alloc, &uids)?;
        Ok(texts)
    }

    /// The greatest counter of the corrections that are held, 0 where none is.
    pub fn top_counter(&self) -> u64
        ensures { result ≡ top_counter_of (ops_of self.now) }
    {
        self.top
    }

    /// How many operations are held, and of which kind, by what is kept.
    pub fn counts(&self) -> Counts
        ensures { result ≡ counts_of (ops_of self.now) }
    {
        let operations = self.operations.len();
        let contents = self.index.content_count();
        Counts {
            operations,
            contents,
            corrections: operations - contents,
        }
    }
}
