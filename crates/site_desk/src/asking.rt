//! What a request at the desk asks for: its host, its path, its method, and the media type of its
//! body (RFC 9110, sections 7.1, 7.2, 8.3 and 9.3.3).

ghost use Rattle.std.specs.Prelude.{◌≡◌, ◌==◌, take};
ghost use Rattle.std.specs.List.{position_or_len};
ghost use Rattle.std.specs.Str.{str_eq_ignore_ascii_case};
ghost use Rattle.octets.specs.Texts.{same};
ghost use Rattle.site_desk.specs.Posting.{type_in, kind_in, kind_asked};

use crate::fault::DeskFault;
use crate::posted::Posted;
use octets::trimmed;

/// What the four words stand in.
#[derive(Clone, Copy, Debug, PartialEq, Eq)]
pub enum Kind {
    Form,
    Object,
}

/// Whether both have the same bytes.
fn is(text: &[u8], word: &[u8]) -> bool
    ensures { result ≡ same text.now word.now }
{
    text == word
}

/// What stands before the parameters of a media type.
fn front(media: &[u8]) -> &[u8]
    ensures { result.now ≡ take (position_or_len (λ b. b == 59) media.now) media.now }
{
    match media.iter().position(|&byte| byte == b';') {
        Some(end) => &media[..end],
        None => media,
    }
}

/// A media type without its parameters.
fn type_of(media: &[u8]) -> &[u8]
    ensures { result.now ≡ type_in media.now }
{
    trimmed(front(media))
}

/// Whether both name one media type, which is spelled in letters of any size (RFC 9110, section
/// 8.3.1).
fn is_type(text: &[u8], word: &[u8]) -> bool
    ensures { result ≡ str_eq_ignore_ascii_case text.now word.now }
{
    text.eq_ignore_ascii_case(word)
}

/// What words stand in, by the media type.
fn kind_of(media: &[u8]) -> Result<Kind, DeskFault>
    ensures { result ≡ kind_in media.now }
{
    let text = type_of(media);
    if is_type(text, b"application/x-www-form-urlencoded") {
        return Ok(Kind::Form);
    }
    if is_type(text, b"application/json") {
        return Ok(Kind::Object);
    }
    Err(DeskFault::NoKind)
}

/// What the words of a request stand in, or the first reason why it asks for no correction. What a
/// browser sends for a page is refused, so that no page that an administrator looks at can correct
/// (docs/DECISIONS.md, "The desk").
pub fn asked(posted: &Posted<'_>) -> Result<Kind, DeskFault>
    ensures { result ≡ kind_asked posted.now }
{
    if !posted.is_here {
        return Err(DeskFault::ForeignHost);
    }
    if !is(posted.path, b"/correct") {
        return Err(DeskFault::NoPath);
    }
    if !is(posted.method, b"POST") {
        return Err(DeskFault::NoPost);
    }
    if posted.has_origin {
        return Err(DeskFault::HasOrigin);
    }
    kind_of(posted.media)
}
