//! Trees of operations, each under a digest: what a site keeps.

ghost use Rattle.std.specs.Prelude.{◌≡◌, [], ◌∷◌, List, ℕ, cond, None, Some, OnOk, OnErr, IfOk, MatchBool};
ghost use Rattle.std.specs.FinMap as finmap;
ghost use Rattle.std.specs.BTreeMap.{is_at};
ghost use Rattle.operation.specs.Spelling.{digest_of};
ghost use Rattle.study_index.specs.Index.{index_joined, index_of};
ghost use Rattle.site_state.specs.Site.{digest_cmp, of_entries, entry_at, index_with, HasOther, HasNoOther};
ghost use Rattle.site_state.specs.Union.{union, DoClash, Agree};
ghost use Rattle.site_state.specs.Journal.{without};

use join_laws::{Join, Summary};
use operation::Digest;
use records::RecordedOp;
use std::alloc::{AllocError, Global};
use std::collections::BTreeMap;
use study_index::Index;

/// Whether another operation is held under a digest.
fn has_other(tree: &BTreeMap<Digest, RecordedOp>, digest: &Digest, op: &RecordedOp) -> bool
    ensures { let m = of_entries tree.now.entries in
        MatchBool result (HasOther m digest.now op.now) (HasNoOther m digest.now op.now) }
{
    match tree.get(digest) {
        None => false,
        Some(held) => !held.equals(op),
    }
}

/// Whether both hold a digest, with different operations.
pub fn do_clash(these: &BTreeMap<Digest, RecordedOp>, those: &BTreeMap<Digest, RecordedOp>) -> bool
    ensures { let m = of_entries these.now.entries in let n = of_entries those.now.entries in
        MatchBool result (DoClash m n) (Agree m n) }
{
    for (digest, op) in those.iter() {
        if has_other(these, digest, op) {
            return true;
        }
    }
    false
}

// Takes the operation of a digest out.
fn take_one_out(tree: &mut BTreeMap<Digest, RecordedOp>, digest: &Digest)
    ensures { of_entries tree.new.entries
        ≡ finmap.remove (of_entries tree.old.entries) digest.now }
{
    let _ = tree.remove(digest);
}

// Takes the operations of some digests out, the last one first. This takes no memory.
fn take_out(tree: &mut BTreeMap<Digest, RecordedOp>, added: Vec<&Digest>)
    ensures { of_entries tree.new.entries
        ≡ without added.entry.items (of_entries tree.old.entries) }
{
    let mut left = added;
    while let Some(digest) = left.pop() {
        take_one_out(tree, digest);
    }
}

// Adds a copy of an operation and notes its digest, unless that is there. Where memory is refused,
// the notes still lead back.
fn add_copy<'a>(
    alloc: Global,
    tree: &mut BTreeMap<Digest, RecordedOp>,
    added: &mut Vec<&'a Digest>,
    digest: &'a Digest,
    op: &RecordedOp,
) -> Result<(), AllocError>
    ensures ok { OnOk result (of_entries tree.new.entries
        ≡ union (of_entries tree.old.entries) (of_entries ((digest.now, op.now) ∷ []))) }
    ensures noted { without added.new.items (of_entries tree.new.entries)
        ≡ without added.old.items (of_entries tree.old.entries) }
{
    if tree.contains_key(digest) {
        return Ok(());
    }
    let copy = op.copy(alloc)?;
    added.push(digest)?;
    tree.insert(*digest, copy)?;
    Ok(())
}

/// Adds copies of those operations whose digest is not there, the last one first, and answers these
/// digests. The bytes of data sets are shared. A refusal leaves the tree as it was.
fn add_copies<'a>(
    alloc: Global,
    tree: &mut BTreeMap<Digest, RecordedOp>,
    source: &'a BTreeMap<Digest, RecordedOp>,
) -> Result<Vec<&'a Digest>, AllocError>
    ensures ok { OnOk result (of_entries tree.new.entries
        ≡ union (of_entries tree.old.entries) (of_entries source.now.entries)) }
    ensures noted { IfOk result (λ added. without added.items (of_entries tree.new.entries)
        ≡ of_entries tree.old.entries) }
    ensures kept { OnErr result (of_entries tree.new.entries ≡ of_entries tree.old.entries) }
{
    let mut added = Vec::with_capacity(alloc, source.len())?;
    let mut rest = source.iter();
    while let Some((digest, op)) = rest.next_back() {
        if let Err(refused) = add_copy(alloc, tree, &mut added, digest, op) {
            take_out(tree, added);
            return Err(refused);
        }
    }
    Ok(added)
}

/// Adds what another tree holds, and its index. A refusal leaves both as they were.
pub fn merge_in(
    alloc: Global,
    tree: &mut BTreeMap<Digest, RecordedOp>,
    index: &mut Index,
    source: &BTreeMap<Digest, RecordedOp>,
    other: &Index,
) -> Result<(), AllocError>
    ensures merged { OnOk result (of_entries tree.new.entries
        ≡ union (of_entries tree.old.entries) (of_entries source.now.entries)) }
    ensures indexed { OnOk result (index.new ≡ index_joined index.old other.now) }
    ensures kept { OnErr result (of_entries tree.new.entries ≡ of_entries tree.old.entries) }
    ensures index_kept { OnErr result (index.new ≡ index.old) }
{
    let taken = add_copies(alloc, tree, source)?;
    if let Err(refused) = index.join_with(other) {
        take_out(tree, taken);
        return Err(refused);
    }
    Ok(())
}

/// Adds what is held under a digest to an index. A refusal leaves the index as it was.
fn add_held(
    tree: &BTreeMap<Digest, RecordedOp>,
    index: &mut Index,
    digest: Digest,
) -> Result<(), AllocError>
    ensures ok { OnOk result (index.new ≡ index_with index.old (entry_at digest tree.now.entries)) }
    ensures kept { OnErr result (index.new ≡ index.old) }
{
    match tree.get(&digest) {
        None => Ok(()),
        Some(op) => index.add(op),
    }
}

/// Puts an operation that is not there under its digest, and adds it to the index. A refusal leaves
/// both as they were.
pub fn take_in(
    tree: &mut BTreeMap<Digest, RecordedOp>,
    index: &mut Index,
    digest: Digest,
    op: RecordedOp,
) -> Result<(), AllocError>
    requires own { digest ≡ digest_of op }
    requires absent { entry_at digest tree.now.entries ≡ None }
    ensures held { OnOk result ((d : List ℕ) → entry_at d tree.new.entries
        ≡ cond (is_at (digest_cmp digest) d) (Some op) (entry_at d tree.old.entries)) }
    ensures indexed { OnOk result (index.new ≡ index_joined index.old (index_of op)) }
    ensures kept { OnErr result (of_entries tree.new.entries ≡ of_entries tree.old.entries) }
    ensures index_kept { OnErr result (index.new ≡ index.old) }
{
    tree.insert(digest, op)?;
    if let Err(refused) = add_held(tree, index, digest) {
        let _ = tree.remove(&digest);
        return Err(refused);
    }
    Ok(())
}
