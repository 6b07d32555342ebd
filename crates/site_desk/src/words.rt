//! The four words of a correction.

ghost use Rattle.std.specs.Prelude.{◌≡◌, MatchResult};
ghost use Rattle.site_desk.specs.Posting.{Says, SaysNone};

use crate::asking::{Kind, asked};
use crate::fault::DeskFault;
use crate::form::form_words;
use crate::object::text_words;
use crate::posted::Posted;
use octets::Octets;
use std::alloc::Global;

/// What `archive correct` has behind its file: the kind of the target, its key, the tag of an
/// attribute, and the value that it is given.
#[derive(Debug, Drop)]
pub struct Words {
    pub target: Octets,
    pub key: Octets,
    pub tag: Octets,
    pub value: Octets,
}

/// The four words of a request, or the first reason why it says none.
pub fn read(alloc: Global, posted: &Posted<'_>) -> Result<Words, DeskFault>
    ensures { MatchResult result (Says posted.now) (SaysNone posted.now) }
{
    match asked(posted)? {
        Kind::Form => match form_words(alloc, posted.body)? {
            Some(words) => Ok(words),
            None => Err(DeskFault::NoForm),
        },
        Kind::Object => match text_words(alloc, posted.body)? {
            Some(words) => Ok(words),
            None => Err(DeskFault::NoObject),
        },
    }
}
