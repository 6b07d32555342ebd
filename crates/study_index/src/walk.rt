//! From values to studies: what operations give, and where a walk comes to.
ghost use Rattle.std.specs.Prelude.{◌≡◌, ◌<◌, ◌≤◌, ◌&&◌, ◌||◌, List, ℕ, OnOk, IfOk, length, map};
ghost use Rattle.std.specs.List.{filter};
ghost use Rattle.std.specs.BTreeMap.{is_at};
ghost use Rattle.octets.specs.Texts.{text_cmp};
ghost use Rattle.operation.specs.declared.op.Op.TheVariants.{Content as a_content, Correction as a_correction};
ghost use Rattle.join_laws.specs.GrowSet.{union_of};
ghost use Rattle.study_index.specs.Keys.{has};
ghost use Rattle.study_index.specs.Leads.{lead_cmp, leads_of, stored_lead, is_between, is_led, is_walked, walk_of};
ghost use Rattle.study_index.specs.Leads.{may_have as may_have_in, is_homed, leads_to, home_front as home_front_in};
ghost use Rattle.study_index.specs.Leads.{home_end as home_end_in};

use crate::lead_walk::LeadWalk;
use crate::leads::{Lead, led};
use crate::needle::Needle;
use crate::short_text::ShortText;
use dictionary::{ACCESSION_NUMBER, PATIENT_ID, PATIENT_NAME, STUDY_DATE, STUDY_ID};
use join_laws::{Copies, GrowSet, Summary};
use operation::{Correction, Target};
use records::RecordedContent;
use std::alloc::{AllocError, Global};
use std::collections::BTreeSet;
use std::ops::Bound;

// Puts in what leads from the values of some attributes.
fn add_stored(
    alloc: Global,
    leads: &mut GrowSet<Lead>,
    content: &RecordedContent,
    tags: &[u32],
) -> Result<(), AllocError>
    ensures { OnOk result (leads.new ≡
        union_of lead_cmp leads.old (map (stored_lead content.now) tags.now)) }
{
    for tag in tags {
        leads.add(&Lead::stored(alloc, *tag, content)?)?;
    }
    Ok(())
}

/// What a content gives: its values lead to its study.
pub fn stored_by(alloc: Global, content: &RecordedContent) -> Result<GrowSet<Lead>, AllocError>
    ensures { IfOk result (λ leads. leads ≡ leads_of (a_content content.now)) }
{
    let mut leads = GrowSet::empty(alloc);
    let tags = [
        STUDY_DATE,
        ACCESSION_NUMBER,
        PATIENT_NAME,
        PATIENT_ID,
        STUDY_ID,
    ];
    add_stored(alloc, &mut leads, content, &tags)?;
    Ok(leads)
}

/// What a correction gives: its value leads to its study, or to the studies of its patient.
pub fn given_by(alloc: Global, correction: &Correction) -> Result<GrowSet<Lead>, AllocError>
    ensures { IfOk result (λ leads. leads ≡ leads_of (a_correction correction.now)) }
{
    let tag = correction.tag();
    let value = led(tag, correction.value());
    let (kind, key) = match correction.target() {
        Target::Study(key) => (1, ShortText::cut(key.as_slice())),
        Target::Patient(key) => (2, ShortText::cut(key.as_slice())),
        Target::Series(_) => return Ok(GrowSet::empty(alloc)),
    };
    GrowSet::of(alloc, Lead::given(alloc, tag, value, kind, key)?)
}

// Puts in a study.
fn put(studies: &mut BTreeSet<ShortText>, study: ShortText) -> Result<(), AllocError>
    ensures { OnOk result ((s : List ℕ) → has text_cmp studies.new.keys s ≡
        (has text_cmp studies.old.keys s || is_at (text_cmp s) study)) }
{
    studies.insert(study)?;
    Ok(())
}

fn home_front(alloc: Global, patient: &ShortText) -> Result<Lead, AllocError>
    ensures { IfOk result (λ front. front ≡ home_front_in patient.now) }
{
    Lead::given(
        alloc,
        PATIENT_ID,
        patient.duplicate(),
        1,
        ShortText::empty(),
    )
}

fn home_end(alloc: Global, patient: &ShortText) -> Result<Lead, AllocError>
    ensures { IfOk result (λ end. end ≡ home_end_in patient.now) }
{
    Lead::given(
        alloc,
        PATIENT_ID,
        patient.duplicate(),
        2,
        ShortText::empty(),
    )
}

// Puts in the studies of a patient, by the ID that is stored.
fn put_homes(
    alloc: Global,
    leads: &BTreeSet<Lead>,
    patient: &ShortText,
    studies: &mut BTreeSet<ShortText>,
) -> Result<(), AllocError>
    ensures { OnOk result ((s : List ℕ) → has text_cmp studies.new.keys s ≡
        (has text_cmp studies.old.keys s || is_homed leads.now.keys s patient.now)) }
{
    let front = home_front(alloc, patient)?;
    let end = home_end(alloc, patient)?;
    for lead in leads.range((Bound::Included(front), Bound::Excluded(end))) {
        put(studies, lead.key())?;
    }
    Ok(())
}

// Puts in what a lead leads to.
fn put_target(
    leads: &BTreeSet<Lead>,
    lead: &Lead,
    studies: &mut BTreeSet<ShortText>,
) -> Result<(), AllocError>
    ensures { OnOk result ((s : List ℕ) → has text_cmp studies.new.keys s ≡
        (has text_cmp studies.old.keys s || leads_to leads.now.keys s lead.now)) }
{
    let key = lead.key();
    if lead.kind() == 2 {
        return put_homes(lead.alloc(), leads, &key, studies);
    }
    put(studies, key)
}

// Puts in what a lead leads to, where a needle may stand in its value.
fn put_near(
    leads: &BTreeSet<Lead>,
    lead: &Lead,
    needle: &Needle,
    studies: &mut BTreeSet<ShortText>,
) -> Result<(), AllocError>
    ensures { OnOk result ((s : List ℕ) → has text_cmp studies.new.keys s ≡
        (has text_cmp studies.old.keys s
        || (may_have_in needle.now lead.now.value && leads_to leads.now.keys s lead.now))) }
{
    if !lead.may_have(needle) {
        return Ok(());
    }
    put_target(leads, lead, studies)
}

// Puts in the studies that the leads of a walk come to.
fn put_between(
    leads: &BTreeSet<Lead>,
    front: Lead,
    end: Lead,
    needle: &Needle,
    studies: &mut BTreeSet<ShortText>,
) -> Result<(), AllocError>
    ensures { OnOk result ((s : List ℕ) → has text_cmp studies.new.keys s ≡
        (has text_cmp studies.old.keys s
        || is_led (is_walked (walk_of front end needle.now)) leads.now.keys s)) }
{
    if front.cmp(&end).is_gt() {
        return Ok(());
    }
    for lead in leads.range((Bound::Included(front), Bound::Excluded(end))) {
        put_near(leads, lead, needle, studies)?;
    }
    Ok(())
}

/// Puts in the studies that the leads of a walk come to.
pub fn put_led(
    leads: &BTreeSet<Lead>,
    walk: &LeadWalk,
    studies: &mut BTreeSet<ShortText>,
) -> Result<(), AllocError>
    ensures { OnOk result ((s : List ℕ) → has text_cmp studies.new.keys s ≡
        (has text_cmp studies.old.keys s || is_led (is_walked walk.now) leads.now.keys s)) }
{
    let front = walk.front.copy()?;
    let end = walk.end.copy()?;
    put_between(leads, front, end, &Needle::of(&walk.needle), studies)?;
    Ok(())
}

// How many leads stand from a front on and before an end, counted up to a limit.
fn count_between(leads: &BTreeSet<Lead>, front: Lead, end: Lead, most: usize) -> usize
    ensures most { result ≤ most }
    ensures counted { result < most → result ≡
        length (filter (is_between front end) leads.now.keys) }
{
    if front.cmp(&end).is_gt() {
        return 0;
    }
    let mut count = 0;
    for _ in leads.range((Bound::Included(front), Bound::Excluded(end))) {
        if count == most {
            return most;
        }
        count += 1;
    }
    count
}

/// How many leads stand from the front of a walk on and before its end, counted up to a limit.
pub fn count_led(leads: &BTreeSet<Lead>, walk: &LeadWalk, most: usize) -> Result<usize, AllocError>
    ensures most { IfOk result (λ count. count ≤ most) }
    ensures counted { IfOk result (λ count. count < most → count ≡
        length (filter (is_between walk.now.front walk.now.end) leads.now.keys)) }
{
    let front = walk.front.copy()?;
    let end = walk.end.copy()?;
    Ok(count_between(leads, front, end, most))
}
