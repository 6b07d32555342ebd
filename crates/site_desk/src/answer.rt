//! What a request at the desk is answered.

ghost use Rattle.std.specs.Prelude.{◌≡◌, ◌++◌, IfOk, OnOk};
ghost use Rattle.site_desk.specs.Answers.{number_of, stamp_line, refusal_line, answer_of};

use crate::fault::DeskFault;
use octets::{Octets, put_digits};
use std::alloc::{AllocError, Global};

/// The status of an answer (RFC 9110, section 15).
#[derive(Clone, Copy, Debug, PartialEq, Eq)]
pub enum Status {
    Ok,
    BadRequest,
    NotFound,
    MethodNotAllowed,
    Conflict,
    UnsupportedMediaType,
    MisdirectedRequest,
    ServiceUnavailable,
}

impl Status {
    pub fn number(self) -> u16
        ensures { result ≡ number_of self }
    {
        match self {
            Status::Ok => 200,
            Status::BadRequest => 400,
            Status::NotFound => 404,
            Status::MethodNotAllowed => 405,
            Status::Conflict => 409,
            Status::UnsupportedMediaType => 415,
            Status::MisdirectedRequest => 421,
            Status::ServiceUnavailable => 503,
        }
    }
}

/// What a request is answered: a status, and a line in plain text.
#[derive(Debug, Drop)]
pub struct Answer {
    pub status: Status,
    pub line: Octets,
}

/// The counter and the site of a correction that was made.
#[derive(Clone, Copy, Debug, PartialEq, Eq)]
pub struct Made {
    pub counter: u64,
    pub site: u16,
}

/// The line of a stamp.
pub(crate) fn line_of(alloc: Global, made: Made) -> Result<Octets, AllocError>
    ensures { IfOk result (λ line. line ≡ stamp_line made) }
{
    let mut line = Vec::from_slice(alloc, b"stamp ")?;
    put_digits(alloc, &mut line, made.counter)?;
    line.push(b' ')?;
    put_digits(alloc, &mut line, u64::from(made.site))?;
    line.push(b'\n')?;
    Ok(Octets::of(line))
}

/// A reason as a line.
pub(crate) fn line_of_fault(alloc: Global, fault: DeskFault) -> Result<Octets, AllocError>
    ensures { IfOk result (λ line. line ≡ refusal_line fault) }
{
    let mut line = Vec::from_slice(alloc, fault.words().as_bytes())?;
    line.push(b'\n')?;
    Ok(Octets::of(line))
}

/// A correction that was made is answered with its stamp, and one that was not with the reason.
pub fn answered(alloc: Global, outcome: Result<Made, DeskFault>) -> Result<Answer, AllocError>
    ensures { IfOk result (λ answer. answer ≡ answer_of outcome) }
{
    match outcome {
        Ok(made) => Ok(Answer {
            status: Status::Ok,
            line: line_of(alloc, made)?,
        }),
        Err(fault) => Ok(Answer {
            status: fault.status(),
            line: line_of_fault(alloc, fault)?,
        }),
    }
}
