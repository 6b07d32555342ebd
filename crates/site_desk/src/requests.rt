//! What the desk reads of a request of HTTP.

ghost use Rattle.std.specs.Prelude.{◌≡◌, map};
ghost use Rattle.std.specs.Option.{option_copied};
ghost use Rattle.site_desk.specs.Requests.{posting_of, value_if_any, value_or_none};

use crate::Posted;
use archive_page::is_asked_here;
use bytes::Bytes;
use http::{HeaderName, HeaderValue, Request};

/// The bytes of a field, none where it is not there.
fn bytes_of(value: Option<&HeaderValue>) -> &[u8]
    ensures { result.now ≡ value_or_none (option_copied value.entry) }
{
    match value {
        None => &[],
        Some(value) => value.as_bytes(),
    }
}

/// The bytes of a field, if it is there.
fn bytes_in(value: Option<&HeaderValue>) -> Option<&[u8]>
    ensures { option_copied result ≡ value_if_any (option_copied value.entry) }
{
    match value {
        None => None,
        Some(value) => Some(value.as_bytes()),
    }
}

/// What the desk of the site that has these names reads of a request.
pub(crate) fn posted<'a>(request: &'a Request<Bytes>, names: &[&str]) -> Posted<'a>
    ensures { result ≡ posting_of (map (λ name. name.now) names.now) request.now }
{
    let headers = request.headers();
    let host = headers.get(HeaderName::from_static("host"));
    let origin = headers.get(HeaderName::from_static("origin"));
    Posted {
        is_here: is_asked_here(bytes_in(host), names),
        method: request.method().as_str().as_bytes(),
        path: request.uri().path().as_bytes(),
        media: bytes_of(headers.get(HeaderName::from_static("content-type"))),
        has_origin: origin.is_some(),
        body: request.body().as_slice(),
    }
}
