//! The page of a study: what is told of it, its instances, and the corrections of their attributes.

ghost use Rattle.std.specs.Prelude.{◌≡◌, ◌++◌, IfOk, OnOk, map};
ghost use Rattle.json.specs.Lex.{tokens};
ghost use Rattle.json.specs.Print.{print};
ghost use Rattle.archive_page.specs.Studies.{fact_heading as fact_heading_of};
ghost use Rattle.archive_page.specs.Studies.{instance_heading as instance_heading_of};
ghost use Rattle.archive_page.specs.Studies.{correction_heading as correction_heading_of};
ghost use Rattle.archive_page.specs.Studies.{study_title, above_study, study_line, study_tables, below_study};
ghost use Rattle.archive_page.specs.Studies.{study_page, study_member, table_member, facts_member};
ghost use Rattle.archive_page.specs.Studies.{instances_member, corrections_member, study_object};

use crate::escaping::put_escaped;
use crate::frame::{CORRECTIONS, END, HEAD, INSTANCES, LINK, LINKS};
use crate::links::study_path;
use crate::subject::{Form, Subject};
use crate::tables::put_table;
use crate::values::{put_object, put_value};
use json::Writer;
use octets::{ListOf, Octets};
use std::alloc::{AllocError, Global};

/// What the page of a study tells.
#[derive(Debug, Drop)]
pub struct StudyPage {
    /// (0020,000D) Study Instance UID
    pub uid: Octets,
    /// (0010,0010) Patient's Name
    pub name: Octets,
    /// (0008,0020) Study Date
    pub date: Octets,
    /// The rows of what is told of it.
    pub facts: ListOf<ListOf<Octets>>,
    /// The rows of its instances.
    pub instances: ListOf<ListOf<Octets>>,
    /// The rows of the corrections of their attributes.
    pub corrections: ListOf<ListOf<Octets>>,
}

/// What stands above the columns of what is told of a study.
fn fact_heading() -> &'static [&'static str]
    ensures { map (λ word. word.now) result.now ≡ fact_heading_of }
{
    &["WHAT", "VALUE"]
}

/// What stands above the columns of the instances.
fn instance_heading() -> &'static [&'static str]
    ensures { map (λ word. word.now) result.now ≡ instance_heading_of }
{
    &["SERIES", "INSTANCE", "TITLES", "NOTES", "SHOWN"]
}

/// What stands above the columns of the corrections.
fn correction_heading() -> &'static [&'static str]
    ensures { map (λ word. word.now) result.now ≡ correction_heading_of }
{
    &[
        "TARGET", "KEY", "TAG", "VALUE", "COUNTER", "SITE", "COUNTS", "STORED",
    ]
}

/// Puts the title of the page of a study: the patient's name and the study date, where they are
/// there.
#[tactic(auto, unfolding(crate::specs::Studies::study_title))]
fn put_title(alloc: Global, out: &mut Vec<u8>, name: &[u8], date: &[u8]) -> Result<(), AllocError>
    ensures { OnOk result (out.new.items ≡ out.old.items ++ study_title name.now date.now) }
{
    match (name.is_empty(), date.is_empty()) {
        (true, true) => out.extend_from_slice(Subject::Study.title()),
        (true, false) => put_escaped(alloc, out, date),
        (false, true) => put_escaped(alloc, out, name),
        (false, false) => {
            put_escaped(alloc, out, name)?;
            out.extend_from_slice(b", ")?;
            put_escaped(alloc, out, date)
        }
    }
}

/// Puts what stands above the tables of a study.
#[tactic(auto, unfolding(crate::specs::Studies::above_study))]
fn put_above(alloc: Global, out: &mut Vec<u8>, page: &StudyPage) -> Result<(), AllocError>
    ensures { OnOk result (out.new.items ≡ out.old.items ++ above_study page.now) }
{
    let name = page.name.as_slice();
    let date = page.date.as_slice();
    out.extend_from_slice(HEAD.as_slice())?;
    put_title(alloc, out, name, date)?;
    out.extend_from_slice(LINKS.as_slice())?;
    put_title(alloc, out, name, date)?;
    out.extend_from_slice(b"</h1>\n")
}

/// Puts the UID of a study above its tables.
#[tactic(auto, unfolding(crate::specs::Studies::study_line))]
fn put_line(alloc: Global, out: &mut Vec<u8>, uid: &[u8]) -> Result<(), AllocError>
    ensures { OnOk result (out.new.items ≡ out.old.items ++ study_line uid.now) }
{
    out.extend_from_slice(b"<p>")?;
    put_escaped(alloc, out, uid)?;
    out.extend_from_slice(b"</p>\n")
}

/// Puts what is told of a study, and the other tables below their titles.
#[tactic(auto, unfolding(crate::specs::Studies::study_tables))]
fn put_tables(alloc: Global, out: &mut Vec<u8>, page: &StudyPage) -> Result<(), AllocError>
    ensures { OnOk result (out.new.items ≡ out.old.items ++ study_tables page.now) }
{
    put_table(alloc, out, fact_heading(), page.facts.as_slice())?;
    out.extend_from_slice(INSTANCES.as_slice())?;
    put_table(alloc, out, instance_heading(), page.instances.as_slice())?;
    out.extend_from_slice(CORRECTIONS.as_slice())?;
    put_table(
        alloc,
        out,
        correction_heading(),
        page.corrections.as_slice(),
    )
}

/// Puts what stands below: a link to the same page in JSON.
#[tactic(auto, unfolding(crate::specs::Studies::below_study))]
fn put_below(alloc: Global, out: &mut Vec<u8>, uid: &[u8]) -> Result<(), AllocError>
    ensures { OnOk result (out.new.items ≡ out.old.items ++ below_study uid.now) }
{
    let target = study_path(alloc, Form::Json, uid)?;
    out.extend_from_slice(LINK.as_slice())?;
    put_escaped(alloc, out, target.as_slice())?;
    out.extend_from_slice(END.as_slice())
}

/// The page of a study in HTML.
#[tactic(auto, unfolding(crate::specs::Studies::study_page))]
pub(crate) fn study_in_html(alloc: Global, page: &StudyPage) -> Result<Vec<u8>, AllocError>
    ensures { IfOk result (λ text. text.items ≡ study_page page.now) }
{
    let uid = page.uid.as_slice();
    let mut out = Vec::new(alloc);
    put_above(alloc, &mut out, page)?;
    put_line(alloc, &mut out, uid)?;
    put_tables(alloc, &mut out, page)?;
    put_below(alloc, &mut out, uid)?;
    Ok(out)
}

/// Writes the UID of a study as a member of an object.
#[tactic(auto, unfolding(crate::specs::Studies::study_member))]
fn put_member(alloc: Global, writer: &mut Writer, uid: &[u8]) -> Result<(), AllocError>
    ensures written { OnOk result (writer.new.tokens ≡ writer.old.tokens ++ study_member uid.now) }
    ensures kept { writer.new.before ≡ writer.old.before }
{
    writer.key("study")?;
    put_value(alloc, writer, uid)
}

/// Writes a table as a member of an object.
#[tactic(auto, unfolding(crate::specs::Studies::table_member))]
fn put_table_member(
    alloc: Global,
    writer: &mut Writer,
    name: &str,
    heading: &[&str],
    rows: &[ListOf<Octets>],
) -> Result<(), AllocError>
    ensures written { OnOk result (writer.new.tokens ≡ writer.old.tokens
        ++ table_member name.now (map (λ cell. cell.now) heading.now) rows.now) }
    ensures kept { writer.new.before ≡ writer.old.before }
{
    writer.key(name)?;
    put_object(alloc, writer, heading, rows)
}

/// Writes what is told of a study as a member of an object.
#[tactic(auto, unfolding(crate::specs::Studies::facts_member))]
fn put_facts(alloc: Global, writer: &mut Writer, rows: &[ListOf<Octets>]) -> Result<(), AllocError>
    ensures written { OnOk result (writer.new.tokens ≡ writer.old.tokens ++ facts_member rows.now) }
    ensures kept { writer.new.before ≡ writer.old.before }
{
    put_table_member(alloc, writer, "facts", fact_heading(), rows)
}

/// Writes the instances of a study as a member of an object.
#[tactic(auto, unfolding(crate::specs::Studies::instances_member))]
fn put_instances(
    alloc: Global,
    writer: &mut Writer,
    rows: &[ListOf<Octets>],
) -> Result<(), AllocError>
    ensures written { OnOk result (writer.new.tokens
        ≡ writer.old.tokens ++ instances_member rows.now) }
    ensures kept { writer.new.before ≡ writer.old.before }
{
    put_table_member(alloc, writer, "instances", instance_heading(), rows)
}

/// Writes the corrections of their attributes as a member of an object.
#[tactic(auto, unfolding(crate::specs::Studies::corrections_member))]
fn put_corrections(
    alloc: Global,
    writer: &mut Writer,
    rows: &[ListOf<Octets>],
) -> Result<(), AllocError>
    ensures written { OnOk result (writer.new.tokens
        ≡ writer.old.tokens ++ corrections_member rows.now) }
    ensures kept { writer.new.before ≡ writer.old.before }
{
    put_table_member(alloc, writer, "corrections", correction_heading(), rows)
}

/// Writes the object of the page of a study.
#[tactic(auto, unfolding(crate::specs::Studies::study_object))]
fn put_study(alloc: Global, writer: &mut Writer, page: &StudyPage) -> Result<(), AllocError>
    ensures written { OnOk result (writer.new.tokens ≡ writer.old.tokens ++ study_object page.now) }
    ensures kept { writer.new.before ≡ writer.old.before }
{
    writer.begin_object()?;
    put_member(alloc, writer, page.uid.as_slice())?;
    put_facts(alloc, writer, page.facts.as_slice())?;
    put_instances(alloc, writer, page.instances.as_slice())?;
    put_corrections(alloc, writer, page.corrections.as_slice())?;
    writer.end_object()
}

/// The page of a study in JSON.
pub(crate) fn study_in_json(alloc: Global, page: &StudyPage) -> Result<Vec<u8>, AllocError>
    ensures text { IfOk result (λ text. text.items ≡ print (study_object page.now)) }
    ensures reads_back { IfOk result (λ text. tokens text.items ≡ study_object page.now) }
{
    let mut writer = Writer::new(Vec::new(alloc));
    put_study(alloc, &mut writer, page)?;
    Ok(writer.into_inner())
}
