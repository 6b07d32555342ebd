//! The pages of a source, as a service.

ghost use Rattle.std.specs.Prelude.{◌≡◌, map};
ghost use Rattle.http.specs.declared.request.Request.{Request};
ghost use Rattle.std.specs.Option.{option_copied};
ghost use Rattle.site_pages.specs.Telling.{Told, IsAnswered, these_or_none, words_of};
ghost use Rattle.site_pages.specs.Telling.{bytes_if_any, asked_by};

use crate::responses::{refuse, respond};
use crate::source::Source;
use archive_page::{
    Answer, Asked, Status, Subject, health_answer, metrics_answer, refusal, study_name,
    style_answer,
};
use bytes::Bytes;
use http::{HeaderName, HeaderValue, Request};
use http_server::{Response, Service};
use std::alloc::{AllocError, Global};

const NO_PAGE: [u8; 22] = *b"There is no such page.";

const NO_CHANGE: [u8; 35] = *b"A page is asked for by GET or HEAD.";

const NOT_HERE: [u8; 47] = *b"This name is not one of the site's: see --name.";

/// The pages of a source.
#[derive(Drop)]
pub struct Pages<S: Source> {
    alloc: Global,
    source: S,
}

/// The bytes of a query, none where there is none.
fn bytes_of(query: Option<&str>) -> &[u8]
    ensures { result.now ≡ these_or_none (option_copied query.entry) }
{
    match query {
        None => &[],
        Some(query) => query.as_bytes(),
    }
}

/// The bytes of a field, if it is there.
fn bytes_in(value: Option<&HeaderValue>) -> Option<&[u8]>
    ensures { option_copied result ≡ bytes_if_any (option_copied value.entry) }
{
    match value {
        None => None,
        Some(value) => Some(value.as_bytes()),
    }
}

/// What a request asks for of the site that has these names.
fn asked(request: &Request<Bytes>, names: &[&str]) -> Asked
    ensures { result ≡ asked_by (map (λ name. name.now) names.now) request.now }
{
    let host = bytes_in(request.headers().get(HeaderName::from_static("host")));
    let method = request.method().as_str().as_bytes();
    Asked::at(host, names, method, request.uri().path().as_bytes())
}

/// What a page is asked for with: that of a study with its name, and all else with the query.
fn words<'a>(asked: Asked, name: &'a [u8], query: &'a [u8]) -> &'a [u8]
    ensures { result.now ≡ words_of asked name.now query.now }
{
    match asked {
        Asked::Page(Subject::Study, _) => name,
        _ => query,
    }
}

impl<S: Source> Pages<S> {
    pub fn new(alloc: Global, source: S) -> Pages<S>
        ensures { result.source ≡ source }
    {
        Pages { alloc, source }
    }

    pub fn into_source(self) -> S
        ensures { result ≡ self.source }
    {
        let Pages { source, .. } = self;
        source
    }

    /// What is told of what is asked, or none where it can't be told now.
    fn told(&mut self, asked: Asked, query: &[u8]) -> Option<Answer>
        ensures { Told S.says self.old.source asked query.now result self.new.source }
    {
        match asked {
            Asked::Page(subject, form) => self.source.page(self.alloc, subject, form, query),
            Asked::Style => style_answer(self.alloc).ok(),
            Asked::Health => health_answer(self.alloc, self.source.fault()).ok(),
            Asked::Metrics => metrics_answer(self.alloc, self.source.samples()).ok(),
            Asked::Nothing => refusal(self.alloc, Status::NotFound, NO_PAGE.as_slice()).ok(),
            Asked::Change => {
                refusal(self.alloc, Status::MethodNotAllowed, NO_CHANGE.as_slice()).ok()
            }
            Asked::Elsewhere => {
                refusal(self.alloc, Status::MisdirectedRequest, NOT_HERE.as_slice()).ok()
            }
        }
    }
}

impl<S: Source> Service for Pages<S> {
    ghost answers = { λ old request response new.
        IsAnswered S.says old.source request response new.source };

    fn call(
        &mut self,
        request: &Request<Bytes>,
        response: &mut Response,
    ) -> Result<(), AllocError> {
        let asked = asked(request, self.source.names());
        let path = request.uri().path().as_bytes();
        let words = words(asked, study_name(path), bytes_of(request.uri().query()));
        match self.told(asked, words) {
            Some(answer) => respond(response, answer),
            None => refuse(response),
        }
        Ok(())
    }
}
