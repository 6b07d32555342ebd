//! What a request is answered.

ghost use Rattle.std.specs.Prelude.{◌≡◌, IfOk, map};
ghost use Rattle.std.specs.Option.{option_copied};
ghost use Rattle.archive_page.specs.Answers.{told_as, page_answer as page_answer_of};
ghost use Rattle.archive_page.specs.Answers.{listing_answer as listing_answer_of};
ghost use Rattle.archive_page.specs.Answers.{study_answer as study_answer_of};
ghost use Rattle.archive_page.specs.Answers.{health_answer as health_answer_of};
ghost use Rattle.archive_page.specs.Answers.{style_answer as style_answer_of};
ghost use Rattle.archive_page.specs.Answers.{metrics_answer as metrics_answer_of};
ghost use Rattle.archive_page.specs.Answers.{refusal as refusal_of};

use crate::listing::{Listing, listing_in_html};
use crate::listing_json::listing_in_json;
use crate::metrics::{Sample, metrics_in_text};
use crate::pages::page_of;
use crate::study::{StudyPage, study_in_html, study_in_json};
use crate::style::STYLE;
use crate::subject::{Form, Subject};
use crate::values::table_in_json;
use octets::{ListOf, Octets};
use std::alloc::{AllocError, Global};

/// The status of an answer (RFC 9110, section 15).
#[derive(Clone, Copy, Debug, PartialEq, Eq)]
pub enum Status {
    Ok,
    BadRequest,
    NotFound,
    MethodNotAllowed,
    MisdirectedRequest,
    ServiceUnavailable,
}

/// The media type of the text of an answer (RFC 9110, section 8.3).
#[derive(Clone, Copy, Debug, PartialEq, Eq)]
pub enum Media {
    Html,
    Json,
    Css,
    Plain,
    /// The text format of Prometheus.
    Metrics,
}

/// What a request is answered.
#[derive(Debug, Drop)]
pub struct Answer {
    pub status: Status,
    pub media: Media,
    pub text: Octets,
}

/// An answer that tells this text.
fn told(media: Media, text: Vec<u8>) -> Answer
    ensures { result ≡ told_as media text.items }
{
    Answer {
        status: Status::Ok,
        media,
        text: Octets::of(text),
    }
}

/// A page: a heading and rows below it.
pub fn page_answer(
    alloc: Global,
    subject: Subject,
    form: Form,
    heading: &[&str],
    rows: &[ListOf<Octets>],
) -> Result<Answer, AllocError>
    ensures { IfOk result (λ answer. answer
        ≡ page_answer_of subject form (map (λ cell. cell.now) heading.now) rows.now) }
{
    match form {
        Form::Html => Ok(told(Media::Html, page_of(alloc, subject, heading, rows)?)),
        Form::Json => Ok(told(Media::Json, table_in_json(alloc, heading, rows)?)),
    }
}

/// A page of what a search for studies finds.
pub fn listing_answer(alloc: Global, form: Form, listing: &Listing) -> Result<Answer, AllocError>
    ensures { IfOk result (λ answer. answer ≡ listing_answer_of form listing.now) }
{
    match form {
        Form::Html => Ok(told(Media::Html, listing_in_html(alloc, listing)?)),
        Form::Json => Ok(told(Media::Json, listing_in_json(alloc, listing)?)),
    }
}

/// A page of a study.
pub fn study_answer(alloc: Global, form: Form, page: &StudyPage) -> Result<Answer, AllocError>
    ensures { IfOk result (λ answer. answer ≡ study_answer_of form page.now) }
{
    match form {
        Form::Html => Ok(told(Media::Html, study_in_html(alloc, page)?)),
        Form::Json => Ok(told(Media::Json, study_in_json(alloc, page)?)),
    }
}

/// The style sheet of all pages.
pub fn style_answer(alloc: Global) -> Result<Answer, AllocError>
    ensures { IfOk result (λ answer. answer ≡ style_answer_of) }
{
    Ok(Answer {
        status: Status::Ok,
        media: Media::Css,
        text: Octets::from_slice(alloc, STYLE.as_slice())?,
    })
}

/// What is counted of the site.
pub fn metrics_answer(alloc: Global, samples: &[Sample]) -> Result<Answer, AllocError>
    ensures { IfOk result (λ answer. answer ≡ metrics_answer_of samples.now) }
{
    Ok(told(Media::Metrics, metrics_in_text(alloc, samples)?))
}

/// That the site takes what it is given, or why it does not.
pub fn health_answer(alloc: Global, fault: Option<&[u8]>) -> Result<Answer, AllocError>
    ensures { IfOk result (λ answer. answer ≡ health_answer_of (option_copied fault.entry)) }
{
    match fault {
        None => Ok(Answer {
            status: Status::Ok,
            media: Media::Plain,
            text: Octets::from_slice(alloc, b"ok\n")?,
        }),
        Some(words) => refusal(alloc, Status::ServiceUnavailable, words),
    }
}

/// A refusal, with why in words.
pub fn refusal(alloc: Global, status: Status, words: &[u8]) -> Result<Answer, AllocError>
    ensures { IfOk result (λ answer. answer ≡ refusal_of status words.now) }
{
    let mut text = Vec::from_slice(alloc, words)?;
    text.push(b'\n')?;
    Ok(Answer {
        status,
        media: Media::Plain,
        text: Octets::of(text),
    })
}
