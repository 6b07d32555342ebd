//! The page of a study.

ghost use Rattle.std.specs.Prelude.{◌≡◌, IfOk};
ghost use Rattle.site_pages.specs.StudyPages.{study_page as study_page_of, answer_of};

use archive_page::{Answer, Form, Status, StudyPage, refusal, study_answer};
use octets::{ListOf, Octets};
use site_tables::{StudyFacts, TakenStudy};
use std::alloc::{AllocError, Global};

/// Why there is no page.
const NO_STUDY: [u8; 23] = *b"There is no such study.";

/// What the page of a study tells, by what was taken of it.
fn page_of(alloc: Global, uid: &[u8], taken: &TakenStudy) -> Result<StudyPage, AllocError>
    ensures { IfOk result (λ page. page ≡ study_page_of uid.now taken.now) }
{
    let StudyFacts { name, date, rows } = taken.facts(alloc, uid)?;
    let instances = taken.instance_rows(alloc)?;
    let corrections = taken.change_rows(alloc)?;
    Ok(StudyPage {
        uid: Octets::from_slice(alloc, uid)?,
        name,
        date,
        facts: rows,
        instances: ListOf::of(instances),
        corrections: ListOf::of(corrections),
    })
}

/// The page of a study, or the answer of 404 where the site has no instance of it.
pub fn study_page(
    alloc: Global,
    form: Form,
    uid: &[u8],
    taken: &TakenStudy,
) -> Result<Answer, AllocError>
    ensures { IfOk result (λ answer. answer ≡ answer_of form uid.now taken.now) }
{
    if taken.is_empty() {
        return refusal(alloc, Status::NotFound, NO_STUDY.as_slice());
    }
    let page = page_of(alloc, uid, taken)?;
    study_answer(alloc, form, &page)
}
