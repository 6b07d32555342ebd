//! A study: what is told of it, its instances, what of it is rejected, and the corrections of its
//! attributes.

ghost use Rattle.std.specs.Prelude.{◌≡◌, ◌==◌, IfOk, length, map};
ghost use Rattle.std.specs.List.{filter};
ghost use Rattle.std.specs.Option.{is_some};
ghost use Rattle.archive_model.specs.Attributes.{is_target_of};
ghost use Rattle.archive_model.specs.Shown.{shown_at};
ghost use Rattle.archive_model.specs.declared.view.View.TheVariants.{Archive};
ghost use Rattle.site_state.specs.Site.{ops_of};
ghost use Rattle.site_tables.specs.Study.{selection_of, with_shown as with_shown_in, instances_of as instances_in};
ghost use Rattle.site_tables.specs.Study.{IsTakenStudy};
ghost use Rattle.site_tables.specs.Study.{instance_row as instance_row_of, instance_row_by};
ghost use Rattle.site_tables.specs.Study.{instance_rows as instance_rows_of};
ghost use Rattle.site_tables.specs.Study.{is_of as is_of_in, concerns as concerns_in};
ghost use Rattle.site_tables.specs.Study.{stored_values as stored_values_in, change_row as change_row_of};
ghost use Rattle.site_tables.specs.Study.{change_rows as change_rows_of};
ghost use Rattle.site_tables.specs.StudyFacts.{facts_by as facts_by_of};
ghost use Rattle.site_tables.specs.Under.{AreInOrder};

use crate::cells::word;
use crate::copies::references;
use crate::corrections::{Stamped, row as correction_row, take_corrections};
use crate::rejected::{by_named, put_row_at, take_notes};
use crate::study_facts::{StudyFacts, facts_by, take_facts};
use crate::table::Row;
use crate::under::Under;
use archive_model::{View, patient, series, study};
use archive_query::{Found, Level, Selection, shown_selected};
use octets::{ListOf, Octets, ascending, joined};
use operation::{Correction, Target};
use records::RecordedContent;
use site_state::Site;
use std::alloc::{AllocError, Global};
use study_index::ShortText;

/// An instance of a study, and whether ARCHIVE shows it.
#[derive(Drop)]
pub struct Instance {
    content: RecordedContent,
    shown: bool,
}

/// What a look takes of a study: what is told of it, its instances, and the notes and the
/// corrections of the site.
#[derive(Drop)]
pub struct TakenStudy {
    found: Found,
    instances: ListOf<Instance>,
    notes: ListOf<RecordedContent>,
    corrections: ListOf<Stamped>,
}

/// What a C-GET of a study selects (PS3.4, section C.4.3.1.3).
fn selection(alloc: Global, uid: &[u8]) -> Result<Selection, AllocError>
    ensures { IfOk result (λ selection. selection ≡ selection_of uid.now) }
{
    let mut uids = ListOf::new(alloc);
    uids.push(Octets::from_slice(alloc, uid)?)?;
    Ok(Selection {
        level: Level::Study,
        study: Octets::of(Vec::new(alloc)),
        series: Octets::of(Vec::new(alloc)),
        uids,
    })
}

/// Whether ARCHIVE shows the SOP Instance UID of a content.
fn is_shown(site: &Site, content: &RecordedContent) -> bool
    ensures { result ≡ is_some (shown_at Archive (ops_of site.now) content.now.instance) }
{
    match site.shown(View::Archive, &ShortText::whole(content.instance())) {
        None => false,
        Some(_) => true,
    }
}

/// A second owner of a content, with whether ARCHIVE shows its SOP Instance UID.
fn with_shown(site: &Site, content: &RecordedContent) -> Result<Instance, AllocError>
    ensures { IfOk result (λ one. one ≡ with_shown_in (ops_of site.now) content.now) }
{
    Ok(Instance {
        content: content.copy()?,
        shown: is_shown(site, content),
    })
}

/// The instances of some contents.
fn instances(
    alloc: Global,
    site: &Site,
    contents: &[&RecordedContent],
) -> Result<Vec<Instance>, AllocError>
    ensures { IfOk result (λ found. found.items
        ≡ map (with_shown_in (ops_of site.now)) (map (λ c. c.now) contents.now)) }
{
    let mut found = Vec::with_capacity(alloc, contents.len())?;
    for content in contents {
        found.push(with_shown(site, content)?)?;
    }
    Ok(found)
}

/// The instances of a study, by ascending SOP Instance UID, as the index has them.
fn take_instances(alloc: Global, site: &Site, uid: &[u8]) -> Result<Vec<Instance>, AllocError>
    ensures { IfOk result (λ found. found.items ≡ instances_in uid.now (ops_of site.now)) }
{
    let selection = selection(alloc, uid)?;
    let contents = shown_selected(alloc, site, View::Audit, &selection)?;
    let found = instances(alloc, site, &contents)?;
    Ok(found)
}

/// The row of an instance, by the notes that lie under each UID.
fn instance_row(
    alloc: Global,
    entries: &[Under<'_, RecordedContent>],
    instance: &Instance,
) -> Result<Row, AllocError>
    requires { AreInOrder entries.now }
    ensures { IfOk result (λ row. row ≡ instance_row_by entries.now instance.now) }
{
    let content = &instance.content;
    let mut cells = ListOf::new(alloc);
    cells.push(Octets::from_slice(alloc, series(content))?)?;
    put_row_at(alloc, entries, content.instance(), &mut cells)?;
    cells.push(word(alloc, instance.shown)?)?;
    Ok(cells)
}

/// The rows of some instances, by the notes that lie under each UID.
fn instance_rows_at(
    alloc: Global,
    entries: &[Under<'_, RecordedContent>],
    instances: &[Instance],
) -> Result<Vec<Row>, AllocError>
    requires { AreInOrder entries.now }
    ensures { IfOk result (λ rows. rows.items
        ≡ map (instance_row_by entries.now) instances.now) }
{
    let mut rows = Vec::with_capacity(alloc, instances.len())?;
    for instance in instances {
        rows.push(instance_row(alloc, entries, instance)?)?;
    }
    Ok(rows)
}

/// Whether a content is one of a target.
fn is_target(content: &RecordedContent, target: &Target) -> bool
    ensures { result ≡ is_target_of content.now target.now }
{
    match target {
        Target::Study(key) => study(content) == key.as_slice(),
        Target::Patient(key) => patient(content) == key.as_slice(),
        Target::Series(key) => series(content) == key.as_slice(),
    }
}

/// Whether a correction's target has an instance.
fn is_of(correction: &Correction, instance: &Instance) -> bool
    ensures { result ≡ is_of_in correction.now instance.now }
{
    is_target(&instance.content, correction.target())
}

/// Whether a correction's target has one of some instances.
fn concerns(instances: &[Instance], stamped: &Stamped) -> bool
    ensures { result ≡ concerns_in instances.now stamped.now }
{
    let correction = &stamped.correction;
    instances.iter().any(|one| is_of(correction, one))
}

/// The stored values of what a correction corrects, ascending, each once.
fn stored_values(
    alloc: Global,
    instances: &[Instance],
    correction: &Correction,
) -> Result<Vec<Octets>, AllocError>
    ensures { IfOk result (λ found. found.items ≡ stored_values_in instances.now correction.now) }
{
    let tag = correction.tag();
    let mut found = Vec::new(alloc);
    for instance in instances {
        if is_of(correction, instance) {
            found.push(Octets::from_slice(alloc, instance.content.own_value(tag))?)?;
        }
    }
    Ok(ascending(found))
}

/// The row of a correction, with the stored values.
fn change_row(alloc: Global, instances: &[Instance], stamped: &Stamped) -> Result<Row, AllocError>
    ensures { IfOk result (λ row. row ≡ change_row_of instances.now stamped.now) }
{
    let stored = stored_values(alloc, instances, &stamped.correction)?;
    let mut cells = correction_row(alloc, stamped)?;
    cells.push(joined(alloc, b'\\', &stored)?)?;
    Ok(cells)
}

/// The rows of those of some corrections whose target has one of some instances.
fn change_rows_at(
    alloc: Global,
    instances: &[Instance],
    corrections: &[Stamped],
) -> Result<Vec<Row>, AllocError>
    ensures { IfOk result (λ rows. rows.items ≡ map (change_row_of instances.now)
        (filter (concerns_in instances.now) corrections.now)) }
{
    let mut rows = Vec::new(alloc);
    for stamped in corrections {
        if concerns(instances, stamped) {
            rows.push(change_row(alloc, instances, stamped)?)?;
        }
    }
    Ok(rows)
}

impl TakenStudy {
    /// Takes what the page of a study is made of.
    pub fn of(alloc: Global, site: &Site, uid: &[u8]) -> Result<TakenStudy, AllocError>
        ensures { IfOk result (IsTakenStudy uid.now (ops_of site.now)) }
    {
        let found = take_facts(alloc, site, uid)?;
        let instances = take_instances(alloc, site, uid)?;
        let notes = take_notes(alloc, site)?;
        let corrections = take_corrections(alloc, site)?;
        Ok(TakenStudy {
            found,
            instances: ListOf::of(instances),
            notes: ListOf::of(notes),
            corrections: ListOf::of(corrections),
        })
    }

    /// Whether the site has no instance of the study.
    pub fn is_empty(&self) -> bool
        ensures { result ≡ (length self.now.instances == 0) }
    {
        self.instances.is_empty()
    }

    /// What a C-FIND for this study, of which this was taken, answers to the called title AUDIT: the
    /// patient, the attributes of the study, and what is in it.
    pub fn facts(&self, alloc: Global, uid: &[u8]) -> Result<StudyFacts, AllocError>
        ensures { IfOk result (λ facts. facts ≡ facts_by_of uid.now self.now.found) }
    {
        facts_by(alloc, uid, &self.found)
    }

    /// Of each instance of the study, by ascending SOP Instance UID: the series, the UID, the codes
    /// of the titles of the notes that name it, these notes, and whether ARCHIVE shows it.
    pub fn instance_rows(&self, alloc: Global) -> Result<Vec<Row>, AllocError>
        ensures { IfOk result (λ rows. rows.items ≡ instance_rows_of self.now) }
    {
        let notes = references(alloc, self.notes.as_slice())?;
        let entries = by_named(alloc, &notes)?;
        let rows = instance_rows_at(alloc, &entries, self.instances.as_slice())?;
        Ok(rows)
    }

    /// Of each correction whose target has an instance of the study, in the order of corrections:
    /// its row among the corrections, and the stored values of what it corrects.
    pub fn change_rows(&self, alloc: Global) -> Result<Vec<Row>, AllocError>
        ensures { IfOk result (λ rows. rows.items ≡ change_rows_of self.now) }
    {
        let instances = self.instances.as_slice();
        change_rows_at(alloc, instances, self.corrections.as_slice())
    }
}
