//! What a running site answers (RFC 9112, sections 4 and 6).

ghost use Rattle.std.specs.Prelude.{◌≡◌, ◌↔◌, IfSome, IsTrue, List, ℕ, Some};
ghost use Rattle.std.specs.Option.{option_copied};
ghost use Rattle.site_desk.specs.Heard.{is_whole, HasBody, HasStatus};

use http1::fields::KnownFields;
use http1::framing::{Framing, MethodKind, response_framing};
use httparse::Status;
use httparse::spans::{EMPTY_HEADER_SPAN, parse_response};

/// How many fields an answer has at most.
const MOST_FIELDS: usize = 64;

/// Whether a body of this length is the whole of one that is framed so.
fn is_whole(framing: Framing, length: usize) -> bool
    ensures { result ≡ is_whole framing length }
{
    match framing {
        Framing::NoBody => length == 0,
        Framing::Length(whole) => whole == length as u64,
        Framing::UntilClose => true,
        Framing::Chunked => false,
    }
}

/// The body of an answer that is there in whole, or `None` where the text is no such answer.
pub fn body_of(text: &[u8]) -> Option<&[u8]>
    ensures found { IfSome result (λ body. HasBody text.now body.now) }
    ensures only { (body : List ℕ) → HasBody text.now body → option_copied result ≡ Some body }
{
    let mut spans = [EMPTY_HEADER_SPAN; MOST_FIELDS];
    let Ok(Status::Complete(head)) = parse_response(text, &mut spans) else {
        return None;
    };
    let body = &text[head.len..];
    let known = KnownFields::from_spans(text, &spans[..head.headers]);
    let Ok(framing) = response_framing(MethodKind::Other, head.code, head.version, &known) else {
        return None;
    };
    if !is_whole(framing, body.len()) {
        return None;
    }
    Some(body)
}

/// Whether an answer has the status of what a site cannot tell now (RFC 9110, section 15.6.4).
pub(crate) fn is_unready(text: &[u8]) -> bool
    ensures { IsTrue result ↔ HasStatus text.now 503 }
{
    let mut spans = [EMPTY_HEADER_SPAN; MOST_FIELDS];
    match parse_response(text, &mut spans) {
        Ok(Status::Complete(head)) => head.code == 503,
        _ => false,
    }
}
