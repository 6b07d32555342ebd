//! What rejection notes name (IHE RAD-66).

ghost use Rattle.std.specs.Prelude.{◌≡◌, ◌++◌, IfOk, OnOk, map};
ghost use Rattle.std.specs.List.{flat_map};
ghost use Rattle.std.specs.Option.{option_copied};
ghost use Rattle.archive_model.specs.Covered.{is_among as is_among_in};
ghost use Rattle.archive_model.specs.Index.{names_under as names_under_in};
ghost use Rattle.site_state.specs.Site.{ops_of};
ghost use Rattle.site_tables.specs.Rejected.{note_of, notes_of, named_by, covered_uids as covered_in};
ghost use Rattle.site_tables.specs.Rejected.{is_naming as is_naming_in, naming as naming_in};
ghost use Rattle.site_tables.specs.Rejected.{is_titled as is_titled_in, code_under, codes as codes_in};
ghost use Rattle.site_tables.specs.Rejected.{rejected_row as row_of, rows_named as rows_in};
ghost use Rattle.site_tables.specs.Rejected.{named_pairs, row_by};
ghost use Rattle.site_tables.specs.Under.{pairs, AreInOrder, Holds};

use crate::copies::{copies_of, references};
use crate::table::Row;
use crate::under::{Under, put_in_order, those_under};
use archive_model::title_code;
use octets::{ListOf, Octets, ascending, digits, joined};
use records::{Parts, RecordedContent, RecordedOp};
use rejection_note::{Note, NoteTitle};
use site_state::Site;
use std::alloc::{AllocError, Global};

/// The content in an operation, where it is a note.
fn note_in(op: &RecordedOp) -> Option<&RecordedContent>
    ensures { option_copied result ≡ note_of op.now }
{
    match op.parts() {
        Parts::Correction(_) => None,
        Parts::Content(content) => match content.note() {
            None => None,
            Some(_) => Some(content),
        },
    }
}

/// The contents among some operations that are notes.
fn notes_in<'a>(
    alloc: Global,
    ops: &[&'a RecordedOp],
) -> Result<Vec<&'a RecordedContent>, AllocError>
    ensures { IfOk result (λ found. map (λ c. c.now) found.items
        ≡ notes_of (map (λ o. o.now) ops.now)) }
{
    let mut found = Vec::new(alloc);
    for op in ops {
        if let Some(content) = note_in(op) {
            found.push(content)?;
        }
    }
    Ok(found)
}

/// Puts copies of some UIDs.
fn put_all(alloc: Global, uids: &mut Vec<Octets>, more: &[Octets]) -> Result<(), AllocError>
    ensures { OnOk result (uids.new.items ≡ uids.old.items ++ more.now) }
{
    for uid in more {
        uids.push(uid.copy(alloc)?)?;
    }
    Ok(())
}

/// Puts what a content names as a note.
fn put_named(
    alloc: Global,
    uids: &mut Vec<Octets>,
    content: &RecordedContent,
) -> Result<(), AllocError>
    ensures { OnOk result (uids.new.items ≡ uids.old.items ++ named_by content.now.note) }
{
    match content.note() {
        None => Ok(()),
        Some(note) => put_all(alloc, uids, note.covers.as_slice()),
    }
}

/// The UIDs that some notes name, ascending, each once.
fn uids_named(alloc: Global, notes: &[&RecordedContent]) -> Result<Vec<Octets>, AllocError>
    ensures { IfOk result (λ uids. uids.items ≡ covered_in (map (λ c. c.now) notes.now)) }
{
    let mut uids = Vec::new(alloc);
    for note in notes {
        put_named(alloc, &mut uids, note)?;
    }
    Ok(ascending(uids))
}

/// Whether a UID is one of these.
fn is_among(uids: &[Octets], uid: &[u8]) -> bool
    ensures { result ≡ is_among_in uids.now uid.now }
{
    uids.iter().any(|one| one.as_slice() == uid)
}

/// Whether a content is a note that names a UID.
fn is_naming(content: &RecordedContent, uid: &[u8]) -> bool
    ensures { result ≡ is_naming_in uid.now content.now }
{
    match content.note() {
        None => false,
        Some(note) => is_among(note.covers.as_slice(), uid),
    }
}

/// Whether what a content says as a note names a UID under a title.
fn names_under(title: NoteTitle, uid: &[u8], note: &Option<Note>) -> bool
    ensures { result ≡ names_under_in title uid.now note.now }
{
    match note {
        None => false,
        Some(note) => {
            title_code(note.title) == title_code(title) && is_among(note.covers.as_slice(), uid)
        }
    }
}

/// The SOP Instance UIDs of the notes that name a UID, ascending, each once.
fn naming(alloc: Global, notes: &[&RecordedContent], uid: &[u8]) -> Result<Vec<Octets>, AllocError>
    ensures { IfOk result (λ found. found.items ≡ naming_in uid.now (map (λ c. c.now) notes.now)) }
{
    let mut found = Vec::new(alloc);
    for note in notes {
        if is_naming(note, uid) {
            found.push(Octets::from_slice(alloc, note.instance())?)?;
        }
    }
    Ok(ascending(found))
}

/// Whether some note names a UID under a title.
fn is_titled(notes: &[&RecordedContent], uid: &[u8], title: NoteTitle) -> bool
    ensures { result ≡ is_titled_in uid.now (map (λ c. c.now) notes.now) title }
{
    for note in notes {
        if names_under(title, uid, note.note()) {
            return true;
        }
    }
    false
}

/// Puts the code of a title under which some note names a UID.
fn put_code(
    alloc: Global,
    notes: &[&RecordedContent],
    uid: &[u8],
    title: NoteTitle,
    codes: &mut Vec<Octets>,
) -> Result<(), AllocError>
    ensures { OnOk result (codes.new.items ≡
        codes.old.items ++ code_under uid.now (map (λ c. c.now) notes.now) title) }
{
    if is_titled(notes, uid, title) {
        codes.push(digits(alloc, u64::from(title_code(title)))?)?;
    }
    Ok(())
}

/// The codes of the titles under which notes name a UID, ascending (PS3.16, CID 7010).
fn codes(alloc: Global, notes: &[&RecordedContent], uid: &[u8]) -> Result<Vec<Octets>, AllocError>
    ensures { IfOk result (λ codes. codes.items
        ≡ codes_in uid.now (map (λ c. c.now) notes.now)) }
{
    let mut codes = Vec::new(alloc);
    put_code(alloc, notes, uid, NoteTitle::Quality, &mut codes)?;
    put_code(alloc, notes, uid, NoteTitle::Safety, &mut codes)?;
    put_code(alloc, notes, uid, NoteTitle::Worklist, &mut codes)?;
    put_code(alloc, notes, uid, NoteTitle::Expired, &mut codes)?;
    Ok(codes)
}

/// Puts the cells of a UID that some of these notes name.
fn put_row(
    alloc: Global,
    notes: &[&RecordedContent],
    uid: &[u8],
    cells: &mut Row,
) -> Result<(), AllocError>
    ensures { OnOk result
        (cells.new ≡ cells.old ++ row_of (map (λ c. c.now) notes.now) uid.now) }
{
    let codes = codes(alloc, notes, uid)?;
    let naming = naming(alloc, notes, uid)?;
    cells.push(Octets::from_slice(alloc, uid)?)?;
    cells.push(joined(alloc, b' ', &codes)?)?;
    cells.push(joined(alloc, b' ', &naming)?)?;
    Ok(())
}

/// Puts a note under some UIDs.
fn put_under<'a>(
    uids: &'a [Octets],
    note: &'a RecordedContent,
    entries: &mut Vec<Under<'a, RecordedContent>>,
) -> Result<(), AllocError>
    ensures { OnOk result (pairs entries.new.items
        ≡ pairs entries.old.items ++ map (λ u. (u, note.now)) uids.now) }
{
    for uid in uids {
        entries.push(Under {
            uid: uid.as_slice(),
            held: note,
        })?;
    }
    Ok(())
}

/// Puts a note under each UID that it names.
fn put_under_named<'a>(
    note: &'a RecordedContent,
    entries: &mut Vec<Under<'a, RecordedContent>>,
) -> Result<(), AllocError>
    ensures { OnOk result (pairs entries.new.items
        ≡ pairs entries.old.items ++ named_pairs note.now) }
{
    match note.note() {
        None => Ok(()),
        Some(said) => put_under(said.covers.as_slice(), note, entries),
    }
}

/// Some notes, under each UID that they name.
fn under_named<'a>(
    alloc: Global,
    notes: &[&'a RecordedContent],
) -> Result<Vec<Under<'a, RecordedContent>>, AllocError>
    ensures { IfOk result (λ found. pairs found.items
        ≡ flat_map named_pairs (map (λ c. c.now) notes.now)) }
{
    let mut found = Vec::new(alloc);
    for note in notes {
        put_under_named(note, &mut found)?;
    }
    Ok(found)
}

/// The same, in the order of these UIDs.
pub(crate) fn by_named<'a>(
    alloc: Global,
    notes: &[&'a RecordedContent],
) -> Result<Vec<Under<'a, RecordedContent>>, AllocError>
    ensures { IfOk result (λ found.
        Holds (flat_map named_pairs (map (λ c. c.now) notes.now)) found.items) }
{
    let mut entries = under_named(alloc, notes)?;
    put_in_order(&mut entries)?;
    Ok(entries)
}

/// Puts the cells of a UID, by the notes that lie under it.
pub(crate) fn put_row_at(
    alloc: Global,
    entries: &[Under<'_, RecordedContent>],
    uid: &[u8],
    cells: &mut Row,
) -> Result<(), AllocError>
    requires { AreInOrder entries.now }
    ensures { OnOk result (cells.new ≡ cells.old ++ row_by entries.now uid.now) }
{
    let notes = those_under(alloc, entries, uid)?;
    put_row(alloc, &notes, uid, cells)
}

/// The row of a UID, by the notes that lie under it.
fn row_at(
    alloc: Global,
    entries: &[Under<'_, RecordedContent>],
    uid: &[u8],
) -> Result<Row, AllocError>
    requires { AreInOrder entries.now }
    ensures { IfOk result (λ row. row ≡ row_by entries.now uid.now) }
{
    let mut cells = ListOf::new(alloc);
    put_row_at(alloc, entries, uid, &mut cells)?;
    Ok(cells)
}

/// The rows of some UIDs.
fn rows_at(
    alloc: Global,
    entries: &[Under<'_, RecordedContent>],
    uids: &[Octets],
) -> Result<Vec<Row>, AllocError>
    requires { AreInOrder entries.now }
    ensures { IfOk result (λ rows. rows.items ≡ map (row_by entries.now) uids.now) }
{
    let mut rows = Vec::with_capacity(alloc, uids.len())?;
    for uid in uids {
        rows.push(row_at(alloc, entries, uid.as_slice())?)?;
    }
    Ok(rows)
}

/// The UIDs that notes name, ascending, each once: what ARCHIVE does not show.
pub(crate) fn covered_uids(alloc: Global, site: &Site) -> Result<Vec<Octets>, AllocError>
    ensures { IfOk result (λ uids. uids.items ≡ covered_in (notes_of (ops_of site.now))) }
{
    let ops = site.operations(alloc)?;
    let notes = notes_in(alloc, &ops)?;
    let uids = uids_named(alloc, &notes)?;
    Ok(uids)
}

/// Second owners of the notes of a site.
pub fn take_notes(alloc: Global, site: &Site) -> Result<Vec<RecordedContent>, AllocError>
    ensures { IfOk result (λ notes. notes.items ≡ notes_of (ops_of site.now)) }
{
    let ops = site.operations(alloc)?;
    let notes = notes_in(alloc, &ops)?;
    let taken = copies_of(alloc, &notes)?;
    Ok(taken)
}

/// Of each of some SOP Instance UIDs, in their order: the UID, the codes of the titles of those of
/// some notes that name it, and the SOP Instance UIDs of these notes.
pub fn rows_of_uids(
    alloc: Global,
    taken: &[RecordedContent],
    uids: &[Octets],
) -> Result<Vec<Row>, AllocError>
    ensures { IfOk result (λ rows. rows.items ≡ map (row_of taken.now) uids.now) }
{
    let notes = references(alloc, taken)?;
    let entries = by_named(alloc, &notes)?;
    let rows = rows_at(alloc, &entries, uids)?;
    Ok(rows)
}

/// The rows of the UIDs that some notes name.
pub(crate) fn rows_of_notes(
    alloc: Global,
    taken: &[RecordedContent],
) -> Result<Vec<Row>, AllocError>
    ensures { IfOk result (λ rows. rows.items ≡ rows_in taken.now) }
{
    let notes = references(alloc, taken)?;
    let uids = uids_named(alloc, &notes)?;
    rows_of_uids(alloc, taken, &uids)
}
