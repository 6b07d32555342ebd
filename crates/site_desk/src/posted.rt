//! A request at the desk (RFC 9110, section 9).

use std::marker::Model;

/// What a request at the desk has.
#[derive(Drop)]
pub struct Posted<'a> {
    /// Whether its host is one of the site's (RFC 9110, section 7.2).
    pub is_here: bool,
    pub method: &'a [u8],
    pub path: &'a [u8],
    /// The media type of its body, empty where none is named.
    pub media: &'a [u8],
    /// Whether it names an origin (RFC 6454, section 7), as what a browser sends for a page does.
    pub has_origin: bool,
    pub body: &'a [u8],
}

impl<'a> Model for Posted<'a> {
    ghost use Rattle.site_desk.specs.Posting.{Posting};

    ghost Value = { Posting };

    ghost view = { λ p. record {
      is_here = p.is_here;
      method = p.method.now;
      path = p.path.now;
      media = p.media.now;
      has_origin = p.has_origin;
      body = p.body.now;
    } };
}
