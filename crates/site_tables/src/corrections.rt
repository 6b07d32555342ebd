//! The corrections, and which of them count.

ghost use Rattle.std.specs.Prelude.{◌≡◌, ◌≤◌, IfOk, OnOk, map, length};
ghost use Rattle.std.specs.List.Sorted.{IsPermutation};
ghost use Rattle.std.specs.Int.{w32, to_be_bytes};
ghost use Rattle.hex.specs.Hex.{encode_lower};
ghost use Rattle.operation.specs.Parts.{key_of as key_in};
ghost use Rattle.archive_model.specs.Attributes.{corrections as corrections_in};
ghost use Rattle.site_state.specs.Site.{ops_of};
ghost use Rattle.site_tables.specs.Corrections.{kind_word, target_cmp, order_cmp, AreInOrder, counts as counts_in};
ghost use Rattle.site_tables.specs.Corrections.{with_count as with_count_in, correction_row as row_of};
ghost use Rattle.site_tables.specs.Corrections.{AreCorrections};

use crate::cells::word;
use crate::table::Row;
use octets::{ListOf, Octets, digits};
use operation::{Correction, Target};
use records::RecordedOp;
use site_state::Site;
use std::alloc::{AllocError, Global};
use std::cmp::Ordering;

/// A correction, and whether it counts.
#[derive(Drop)]
pub struct Stamped {
    pub(crate) correction: Correction,
    counts: bool,
}

/// The corrections among some operations.
fn corrections_of<'a>(
    alloc: Global,
    ops: &[&'a RecordedOp],
) -> Result<Vec<&'a Correction>, AllocError>
    ensures { IfOk result (λ found. map (λ k. k.now) found.items
        ≡ corrections_in (map (λ o. o.now) ops.now)) }
{
    let mut found = Vec::new(alloc);
    for op in ops {
        if let Some(correction) = op.correction() {
            found.push(correction)?;
        }
    }
    Ok(found)
}

/// The word for the kind of a target.
fn kind_of(target: &Target) -> &'static [u8]
    ensures { result.now ≡ kind_word target.now }
{
    match target {
        Target::Study(_) => b"study",
        Target::Patient(_) => b"patient",
        Target::Series(_) => b"series",
    }
}

/// The key of a target.
fn key_of(target: &Target) -> &[u8]
    ensures { result.now ≡ key_in target.now }
{
    match target {
        Target::Study(key) => key.as_slice(),
        Target::Patient(key) => key.as_slice(),
        Target::Series(key) => key.as_slice(),
    }
}

/// The order of targets: by the word for their kind, then by key.
fn by_target(a: &Target, b: &Target) -> Ordering
    ensures { result ≡ target_cmp a.now b.now }
{
    kind_of(a).cmp(kind_of(b)).then(key_of(a).cmp(key_of(b)))
}

/// The order of the rows: by target, by tag, by counter, by site, by value.
fn by_order(a: &Correction, b: &Correction) -> Ordering
    ensures { result ≡ order_cmp a.now b.now }
{
    let (s, t) = (a.stamp(), b.stamp());
    let within = s.site.cmp(&t.site).then(a.value().cmp(b.value()));
    let stamped = s.counter.cmp(&t.counter).then(within);
    let tagged = a.tag().cmp(&b.tag()).then(stamped);
    by_target(a.target(), b.target()).then(tagged)
}

/// Puts corrections in the order of the rows.
fn put_in_order(corrections: &mut Vec<&Correction>)
    ensures same { IsPermutation corrections.old.items corrections.new.items }
    ensures ordered { AreInOrder (map (λ k. k.now) corrections.new.items) }
{
    corrections.sort_unstable_by(|a, b| by_order(a, b));
}

/// Whether a correction is the greatest of its target and tag.
fn counts(site: &Site, correction: &Correction) -> bool
    ensures { result ≡ counts_in (ops_of site.now) correction.now }
{
    let stamp = correction.stamp();
    match site.index().fix(correction.target(), correction.tag()) {
        None => false,
        Some(fix) => {
            fix.counter == stamp.counter
                && fix.site == stamp.site
                && fix.value.as_slice() == correction.value()
        }
    }
}

/// A tag in eight hexadecimal digits.
fn tag_digits(alloc: Global, tag: u32) -> Result<Octets, AllocError>
    ensures { IfOk result (λ text. text ≡ encode_lower (to_be_bytes w32 tag)) }
{
    let text = hex::encode(alloc, tag.to_be_bytes().as_slice())?;
    Octets::from_slice(alloc, text.as_bytes())
}

/// A second owner of a correction, with whether it counts.
fn with_count(alloc: Global, site: &Site, correction: &Correction) -> Result<Stamped, AllocError>
    ensures { IfOk result (λ stamped. stamped ≡ with_count_in (ops_of site.now) correction.now) }
{
    Ok(Stamped {
        correction: correction.copy(alloc)?,
        counts: counts(site, correction),
    })
}

/// Some corrections, each with whether it counts.
fn with_counts(
    alloc: Global,
    site: &Site,
    corrections: &[&Correction],
) -> Result<Vec<Stamped>, AllocError>
    ensures { IfOk result (λ found. found.items
        ≡ map (with_count_in (ops_of site.now)) (map (λ k. k.now) corrections.now)) }
{
    let mut found = Vec::with_capacity(alloc, corrections.len())?;
    for correction in corrections {
        found.push(with_count(alloc, site, correction)?)?;
    }
    Ok(found)
}

/// Second owners of the corrections of a site, in the order of the rows, each with whether it
/// counts.
pub(crate) fn take_corrections(alloc: Global, site: &Site) -> Result<Vec<Stamped>, AllocError>
    ensures { IfOk result (λ found. AreCorrections (ops_of site.now) found.items) }
{
    let ops = site.operations(alloc)?;
    let mut corrections = corrections_of(alloc, &ops)?;
    put_in_order(&mut corrections);
    let found = with_counts(alloc, site, &corrections)?;
    Ok(found)
}

/// The row of a correction.
pub(crate) fn row(alloc: Global, stamped: &Stamped) -> Result<Row, AllocError>
    ensures { IfOk result (λ row. row ≡ row_of stamped.now) }
{
    let correction = &stamped.correction;
    let target = correction.target();
    let stamp = correction.stamp();
    let mut cells = ListOf::new(alloc);
    cells.push(Octets::from_slice(alloc, kind_of(target))?)?;
    cells.push(Octets::from_slice(alloc, key_of(target))?)?;
    cells.push(tag_digits(alloc, correction.tag())?)?;
    cells.push(Octets::from_slice(alloc, correction.value())?)?;
    cells.push(digits(alloc, stamp.counter)?)?;
    cells.push(digits(alloc, u64::from(stamp.site))?)?;
    cells.push(word(alloc, stamped.counts)?)?;
    Ok(cells)
}

/// The rows of what was taken.
pub(crate) fn rows_of_corrections(alloc: Global, found: &[Stamped]) -> Result<Vec<Row>, AllocError>
    ensures { IfOk result (λ rows. rows.items ≡ map row_of found.now) }
{
    let mut rows = Vec::with_capacity(alloc, found.len())?;
    for stamped in found {
        rows.push(row(alloc, stamped)?)?;
    }
    Ok(rows)
}
