//! An answer as a response of HTTP.

ghost use Rattle.std.specs.Prelude.{◌≡◌, ◌++◌, ◌⊎◌, OnOk};
ghost use Rattle.http_header.specs.FieldValue.{plain_value};
ghost use Rattle.http_server.specs.Response.{IsBlank, fields_of};
ghost use Rattle.archive_page.specs.Answers.{number_of};
ghost use Rattle.site_pages.specs.Responses.{type_of, kind_fields, guard_fields, Carries, IsRefused};

use archive_page::{Answer, Media, Status};
use bytes::Bytes;
use http::{HeaderName, HeaderValue, StatusCode};
use http_server::Response;
use std::alloc::AllocError;

/// The media type of a text.
fn media_type(media: Media) -> HeaderValue
    ensures { result ≡ plain_value (type_of media) }
{
    match media {
        Media::Html => HeaderValue::from_static("text/html; charset=utf-8"),
        Media::Json => HeaderValue::from_static("application/json"),
        Media::Css => HeaderValue::from_static("text/css; charset=utf-8"),
        Media::Plain => HeaderValue::from_static("text/plain; charset=utf-8"),
        Media::Metrics => HeaderValue::from_static("text/plain; version=0.0.4; charset=utf-8"),
    }
}

fn status_code(status: Status) -> StatusCode
    ensures { result ≡ number_of status }
{
    match status {
        Status::Ok => StatusCode::OK,
        Status::BadRequest => StatusCode::BAD_REQUEST,
        Status::NotFound => StatusCode::NOT_FOUND,
        Status::MethodNotAllowed => StatusCode::METHOD_NOT_ALLOWED,
        Status::MisdirectedRequest => StatusCode::MISDIRECTED_REQUEST,
        Status::ServiceUnavailable => StatusCode::SERVICE_UNAVAILABLE,
    }
}

/// Puts the fields that say what the text is, that it is of this moment, and which methods there
/// are.
fn put_kind(response: &mut Response, media: Media) -> Result<(), AllocError>
    ensures fields { OnOk result
        (fields_of response.new ≡ fields_of response.old ++ kind_fields media) }
    ensures status { response.new.status ≡ response.old.status }
    ensures body { response.new.body ≡ response.old.body }
{
    response.add_header(HeaderName::from_static("content-type"), media_type(media))?;
    let no_store = HeaderValue::from_static("no-store");
    response.add_header(HeaderName::from_static("cache-control"), no_store)?;
    let methods = HeaderValue::from_static("GET, HEAD");
    response.add_header(HeaderName::from_static("allow"), methods)
}

/// Puts the fields that let a page load its style sheet alone and no other type be guessed, and
/// that end the connection.
fn put_guards(response: &mut Response) -> Result<(), AllocError>
    ensures fields { OnOk result
        (fields_of response.new ≡ fields_of response.old ++ guard_fields) }
    ensures status { response.new.status ≡ response.old.status }
    ensures body { response.new.body ≡ response.old.body }
{
    let policy = HeaderValue::from_static("default-src 'none'; style-src 'self'");
    response.add_header(HeaderName::from_static("content-security-policy"), policy)?;
    let as_told = HeaderValue::from_static("nosniff");
    response.add_header(HeaderName::from_static("x-content-type-options"), as_told)?;
    let close = HeaderValue::from_static("close");
    response.add_header(HeaderName::from_static("connection"), close)
}

/// Fills a response with an answer.
fn fill(response: &mut Response, answer: Answer) -> Result<(), AllocError>
    requires { IsBlank response.old }
    ensures { OnOk result (Carries answer response.new) }
{
    let Answer {
        status,
        media,
        text,
    } = answer;
    response.status = status_code(status);
    put_kind(response, media)?;
    put_guards(response)?;
    let piece = Bytes::from_vec(text.into_vec())?;
    response.body.push(piece)
}

/// A response that says nothing but that it can't be told now. It takes no memory.
pub(crate) fn refuse(response: &mut Response)
    ensures { IsRefused response.new }
{
    response.clear();
    response.status = StatusCode::SERVICE_UNAVAILABLE;
}

/// Responds with an answer, or refuses where memory is.
pub(crate) fn respond(response: &mut Response, answer: Answer)
    requires { IsBlank response.old }
    ensures { Carries answer response.new ⊎ IsRefused response.new }
{
    if fill(response, answer).is_err() {
        refuse(response);
    }
}
