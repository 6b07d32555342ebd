//! Why the desk makes no correction, or that the hub does not show yet the one that is stored.

ghost use Rattle.std.specs.Prelude.{◌≡◌};
ghost use Rattle.site_desk.specs.Faults.{words_of, status_of};

use crate::answer::Status;
use std::alloc::AllocError;
use thiserror::Error;

/// Why the desk makes no correction, or that the hub does not show yet the one that is stored.
#[derive(Clone, Copy, Debug, PartialEq, Eq, Error)]
pub enum DeskFault {
    #[error("the host is none of the site's")]
    ForeignHost,
    #[error("nothing has this path")]
    NoPath,
    #[error("the method is not POST")]
    NoPost,
    #[error("the request is that of a page in a browser")]
    HasOrigin,
    #[error("the body is of another media type")]
    NoKind,
    #[error("the form has not the four members")]
    NoForm,
    #[error("the body is no JSON object with the four members")]
    NoObject,
    #[error("the target is of no kind, or the tag is none")]
    NoChange,
    #[error("the key is none of the target")]
    BadKey,
    #[error("the attribute is none of the target that can be corrected")]
    BadTag,
    #[error("the value may not be")]
    BadValue,
    #[error("the site has no number")]
    NoSite,
    #[error("the last counter of stamps is used")]
    StampsSpent,
    #[error("the shelf refused the correction")]
    Shelf,
    #[error("the hub was busy")]
    Busy,
    #[error("the shelf has the correction, and the hub does not show it yet")]
    Unshown,
    #[error("there is no memory left")]
    Memory,
}

impl From<AllocError> for DeskFault {
    ghost use Rattle.site_desk.specs.declared.fault.DeskFault.TheVariants.{Memory};

    ghost from_gives = { λ _ e. e ≡ Memory };

    fn from(_error: AllocError) -> DeskFault {
        DeskFault::Memory
    }
}

impl DeskFault {
    /// The reason, in words.
    pub fn words(self) -> &'static str
        ensures { result.now ≡ words_of self }
    {
        match self {
            DeskFault::ForeignHost => "this name is not one of the site's: see --name",
            DeskFault::NoPath => "there is no such path: a correction is posted to /correct",
            DeskFault::NoPost => "a correction is asked for by POST",
            DeskFault::HasOrigin => "no page in a browser may correct",
            DeskFault::NoKind =>
                "a correction is application/x-www-form-urlencoded or application/json",
            DeskFault::NoForm =>
                "a form has target, key, tag and value, each once, and nothing else",
            DeskFault::NoObject => { "an object has target, key, tag and value, each a string" }
            DeskFault::NoChange => {
                "TARGET is study, patient or series, and TAG eight hexadecimal digits"
            }
            DeskFault::BadKey => "KEY is no UID, or no Patient ID, that a target can have",
            DeskFault::BadTag => "TAG is no attribute of this target that can be corrected",
            DeskFault::BadValue => {
                "VALUE is longer than 64, or has a byte or an outer space that it may not have"
            }
            DeskFault::NoSite => "the site has no number",
            DeskFault::StampsSpent => "the last counter of stamps is used",
            DeskFault::Shelf => "the shelf refused the correction",
            DeskFault::Busy => "the site is busy, or its workers do not agree: try again",
            DeskFault::Unshown =>
                "it is stored, and shown once the site is started again at the latest",
            DeskFault::Memory => "memory was refused",
        }
    }

    /// The status of its answer.
    pub fn status(self) -> Status
        ensures { result ≡ status_of self }
    {
        match self {
            DeskFault::ForeignHost => Status::MisdirectedRequest,
            DeskFault::NoPath => Status::NotFound,
            DeskFault::NoPost => Status::MethodNotAllowed,
            DeskFault::HasOrigin => Status::BadRequest,
            DeskFault::NoKind => Status::UnsupportedMediaType,
            DeskFault::NoForm => Status::BadRequest,
            DeskFault::NoObject => Status::BadRequest,
            DeskFault::NoChange => Status::BadRequest,
            DeskFault::BadKey => Status::BadRequest,
            DeskFault::BadTag => Status::BadRequest,
            DeskFault::BadValue => Status::BadRequest,
            DeskFault::NoSite => Status::ServiceUnavailable,
            DeskFault::StampsSpent => Status::Conflict,
            DeskFault::Shelf => Status::ServiceUnavailable,
            DeskFault::Busy => Status::ServiceUnavailable,
            DeskFault::Unshown => Status::ServiceUnavailable,
            DeskFault::Memory => Status::ServiceUnavailable,
        }
    }
}
