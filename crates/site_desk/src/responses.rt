//! An answer as a response of HTTP.

ghost use Rattle.std.specs.Prelude.{◌≡◌, ◌++◌, [], OnOk};
ghost use Rattle.http_header.specs.FieldValue.{plain_value};
ghost use Rattle.http_server.specs.Response.{IsBlank, fields_of};
ghost use Rattle.site_desk.specs.Answers.{number_of};
ghost use Rattle.site_desk.specs.Responses.{line_fields, Carries, IsRefused, Responds};

use crate::{Answer, Status};
use bytes::Bytes;
use http::{HeaderName, HeaderValue, StatusCode};
use http_server::Response;
use std::alloc::AllocError;

fn status_code(status: Status) -> StatusCode
    ensures { result ≡ number_of status }
{
    match status {
        Status::Ok => StatusCode::OK,
        Status::BadRequest => StatusCode::BAD_REQUEST,
        Status::NotFound => StatusCode::NOT_FOUND,
        Status::MethodNotAllowed => StatusCode::METHOD_NOT_ALLOWED,
        Status::Conflict => StatusCode::CONFLICT,
        Status::UnsupportedMediaType => StatusCode::UNSUPPORTED_MEDIA_TYPE,
        Status::MisdirectedRequest => StatusCode::MISDIRECTED_REQUEST,
        Status::ServiceUnavailable => StatusCode::SERVICE_UNAVAILABLE,
    }
}

/// Puts the fields that say what the line is, that it is of this moment and which method there is,
/// and that end the connection.
fn put_fields(response: &mut Response) -> Result<(), AllocError>
    ensures fields { OnOk result (fields_of response.new ≡ fields_of response.old ++ line_fields) }
    ensures status { response.new.status ≡ response.old.status }
    ensures body { response.new.body ≡ response.old.body }
{
    let plain = HeaderValue::from_static("text/plain; charset=utf-8");
    response.add_header(HeaderName::from_static("content-type"), plain)?;
    let no_store = HeaderValue::from_static("no-store");
    response.add_header(HeaderName::from_static("cache-control"), no_store)?;
    let methods = HeaderValue::from_static("POST");
    response.add_header(HeaderName::from_static("allow"), methods)?;
    let close = HeaderValue::from_static("close");
    response.add_header(HeaderName::from_static("connection"), close)
}

/// Fills a response with an answer.
fn fill(response: &mut Response, answer: Answer) -> Result<(), AllocError>
    requires { IsBlank response.old }
    ensures { OnOk result (Carries answer response.new) }
{
    let Answer { status, line } = answer;
    response.status = status_code(status);
    put_fields(response)?;
    let piece = Bytes::from_vec(line.into_vec())?;
    response.body.push(piece)
}

/// A response that says nothing but that it can't be told now. It takes no memory.
pub(crate) fn refuse(response: &mut Response)
    ensures { IsRefused response.new }
{
    response.clear();
    response.status = StatusCode::SERVICE_UNAVAILABLE;
}

/// Responds with an answer, or refuses where memory is.
pub(crate) fn respond(response: &mut Response, answer: Answer)
    requires { IsBlank response.old }
    ensures { Responds answer response.new }
{
    if fill(response, answer).is_err() {
        refuse(response);
    }
}
