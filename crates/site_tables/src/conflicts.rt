//! The contents of each flagged UID.

ghost use Rattle.std.specs.Prelude.{◌≡◌, ◌++◌, true, IfOk, OnOk, map};
ghost use Rattle.std.specs.List.{filter_map};
ghost use Rattle.std.specs.Option.{option_map};
ghost use Rattle.archive_model.specs.Contents.{pick as pick_in};
ghost use Rattle.site_state.specs.Site.{ops_of};
ghost use Rattle.site_tables.specs.Conflicts.{digest_if, is_this as is_this_in, with_pick as with_pick_in};
ghost use Rattle.site_tables.specs.Conflicts.{conflict_row as row_of, conflicts_in, conflicts_among, conflicts_of};
ghost use Rattle.site_tables.specs.Conflicts.{conflicts as conflicts_all, instance_pair};
ghost use Rattle.site_tables.specs.Under.{pair_of, pairs, has_under, own_pair, AreInOrder, Holds};

use crate::cells::{hex_digits, word};
use crate::table::Row;
use crate::under::{Under, put_in_order, run_under, those_under};
use archive_model::study;
use octets::{ListOf, Octets, digits};
use operation::Digest;
use records::{Parts, RecordedContent, RecordedOp};
use site_state::Site;
use std::alloc::{AllocError, Global};
use study_index::ShortText;

/// A content of a flagged SOP Instance UID, and the digest of the pick of the UID.
#[derive(Drop)]
pub struct Flagged {
    content: RecordedContent,
    pick: Option<Digest>,
}

/// The digest of the pick of a content's SOP Instance UID.
fn pick_of(site: &Site, content: &RecordedContent) -> Option<Digest>
    ensures { result ≡ digest_if (pick_in content.now.instance (ops_of site.now)) }
{
    match site.index().pick(&ShortText::whole(content.instance())) {
        None => None,
        Some(picked) => Some(*picked.digest()),
    }
}

/// A second owner of a content, with the digest of the pick of its SOP Instance UID.
fn with_pick(site: &Site, content: &RecordedContent) -> Result<Flagged, AllocError>
    ensures { IfOk result (λ flagged. flagged ≡ with_pick_in (ops_of site.now) content.now) }
{
    Ok(Flagged {
        content: content.copy()?,
        pick: pick_of(site, content),
    })
}

/// Puts an operation that is a content of a SOP Instance UID.
fn put_conflict(
    site: &Site,
    uid: &[u8],
    op: &RecordedOp,
    found: &mut Vec<Flagged>,
) -> Result<(), AllocError>
    ensures { OnOk result (found.new.items ≡
        found.old.items ++ conflicts_in (ops_of site.now) uid.now op.now) }
{
    match op.parts() {
        Parts::Correction(_) => Ok(()),
        Parts::Content(content) => {
            if content.instance() != uid {
                return Ok(());
            }
            found.push(with_pick(site, content)?)?;
            Ok(())
        }
    }
}

/// Puts the contents of a SOP Instance UID among some operations.
fn put_conflicts(
    site: &Site,
    uid: &[u8],
    ops: &[&RecordedOp],
    found: &mut Vec<Flagged>,
) -> Result<(), AllocError>
    ensures { OnOk result (found.new.items ≡ found.old.items
        ++ conflicts_among (ops_of site.now) uid.now (map (λ o. o.now) ops.now)) }
{
    for op in ops {
        put_conflict(site, uid, op, found)?;
    }
    Ok(())
}

/// Whether a UID is one of these.
fn is_marked(marks: &[Under<'_, Octets>], uid: &[u8]) -> bool
    requires { AreInOrder marks.now }
    ensures { result ≡ has_under uid.now (pairs marks.now) }
{
    !run_under(marks, uid).is_empty()
}

/// An operation under its SOP Instance UID, where it is a content of one of these.
fn under_instance<'a>(
    marks: &[Under<'_, Octets>],
    op: &'a RecordedOp,
) -> Option<Under<'a, RecordedOp>>
    requires { AreInOrder marks.now }
    ensures { option_map pair_of result ≡ instance_pair (pairs marks.now) op.now }
{
    match op.parts() {
        Parts::Correction(_) => None,
        Parts::Content(content) => {
            if !is_marked(marks, content.instance()) {
                return None;
            }
            Some(Under {
                uid: content.instance(),
                held: op,
            })
        }
    }
}

/// Those of some operations that are contents of one of these, each under its SOP Instance UID.
fn under_instances<'a>(
    alloc: Global,
    marks: &[Under<'_, Octets>],
    ops: &[&'a RecordedOp],
) -> Result<Vec<Under<'a, RecordedOp>>, AllocError>
    requires { AreInOrder marks.now }
    ensures { IfOk result (λ found. pairs found.items
        ≡ filter_map (instance_pair (pairs marks.now)) (map (λ o. o.now) ops.now)) }
{
    let mut found = Vec::new(alloc);
    for op in ops {
        if let Some(entry) = under_instance(marks, op) {
            found.push(entry)?;
        }
    }
    Ok(found)
}

/// The same, in the order of these UIDs.
fn by_instance<'a>(
    alloc: Global,
    marks: &[Under<'_, Octets>],
    ops: &[&'a RecordedOp],
) -> Result<Vec<Under<'a, RecordedOp>>, AllocError>
    requires { AreInOrder marks.now }
    ensures { IfOk result (λ found. Holds
        (filter_map (instance_pair (pairs marks.now)) (map (λ o. o.now) ops.now)) found.items) }
{
    let mut entries = under_instances(alloc, marks, ops)?;
    put_in_order(&mut entries)?;
    Ok(entries)
}

/// Each of some UIDs under itself.
fn under_themselves(alloc: Global, uids: &[Octets]) -> Result<Vec<Under<'_, Octets>>, AllocError>
    ensures { IfOk result (λ marks. pairs marks.items ≡ map own_pair uids.now) }
{
    let mut marks = Vec::with_capacity(alloc, uids.len())?;
    for uid in uids {
        marks.push(Under {
            uid: uid.as_slice(),
            held: uid,
        })?;
    }
    Ok(marks)
}

/// The same, in their order.
fn marks_of(alloc: Global, uids: &[Octets]) -> Result<Vec<Under<'_, Octets>>, AllocError>
    ensures { IfOk result (λ marks. Holds (map own_pair uids.now) marks.items) }
{
    let mut marks = under_themselves(alloc, uids)?;
    put_in_order(&mut marks)?;
    Ok(marks)
}

/// Puts the contents of a SOP Instance UID, which is one of those that are marked.
fn put_conflicts_of(
    alloc: Global,
    site: &Site,
    uid: &[u8],
    marks: &[Under<'_, Octets>],
    entries: &[Under<'_, RecordedOp>],
    found: &mut Vec<Flagged>,
) -> Result<(), AllocError>
    requires marked { has_under uid.now (pairs marks.now) ≡ true }
    requires held { Holds (filter_map (instance_pair (pairs marks.now)) (ops_of site.now))
        entries.now }
    ensures { OnOk result (found.new.items ≡
        found.old.items ++ conflicts_of (ops_of site.now) uid.now) }
{
    let ops = those_under(alloc, entries, uid)?;
    put_conflicts(site, uid, &ops, found)
}

/// Second owners of the contents of each flagged SOP Instance UID, ascending, and of one UID
/// ascending by digest. Nothing is hashed, and what is of no flagged UID is passed over.
pub(crate) fn take_conflicts(alloc: Global, site: &Site) -> Result<Vec<Flagged>, AllocError>
    ensures { IfOk result (λ found. found.items ≡ conflicts_all (ops_of site.now)) }
{
    let uids = site.flagged(alloc)?;
    let mut found = Vec::new(alloc);
    let ops = site.operations(alloc)?;
    let marks = marks_of(alloc, &uids)?;
    let entries = by_instance(alloc, &marks, &ops)?;
    for uid in uids.as_slice() {
        put_conflicts_of(alloc, site, uid.as_slice(), &marks, &entries, &mut found)?;
    }
    Ok(found)
}

/// Whether this is a digest, if there is one.
fn is_this(other: &Option<Digest>, digest: &Digest) -> bool
    ensures { result ≡ is_this_in other.now digest.now }
{
    match other {
        None => false,
        Some(other) => other.as_bytes() == digest.as_bytes(),
    }
}

/// The row of a content of a flagged SOP Instance UID.
fn row(alloc: Global, flagged: &Flagged) -> Result<Row, AllocError>
    ensures { IfOk result (λ row. row ≡ row_of flagged.now) }
{
    let content = &flagged.content;
    let digest = content.digest();
    let mut cells = ListOf::new(alloc);
    cells.push(Octets::from_slice(alloc, content.instance())?)?;
    cells.push(hex_digits(alloc, digest)?)?;
    cells.push(digits(alloc, content.size() as u64)?)?;
    cells.push(Octets::from_slice(alloc, study(content))?)?;
    cells.push(word(alloc, is_this(&flagged.pick, digest))?)?;
    Ok(cells)
}

/// The rows of what was taken.
pub(crate) fn rows_of_conflicts(alloc: Global, found: &[Flagged]) -> Result<Vec<Row>, AllocError>
    ensures { IfOk result (λ rows. rows.items ≡ map row_of found.now) }
{
    let mut rows = Vec::with_capacity(alloc, found.len())?;
    for flagged in found {
        rows.push(row(alloc, flagged)?)?;
    }
    Ok(rows)
}
