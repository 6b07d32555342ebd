//! What a desk answered, read by who asked.

ghost use Rattle.std.specs.Prelude.{◌≡◌, IfOk, IfErr, IfSome, Some};
ghost use Rattle.std.specs.Fmt.{decimal};
ghost use Rattle.site_desk.specs.Answers.{stamp_line, refusal_line};
ghost use Rattle.site_desk.specs.Heard.{HasBody};
ghost use Rattle.site_desk.specs.Outcomes.{all_faults, fault_by, IsStamp, stamp_text, TellsRefusal};
ghost use Rattle.site_desk.specs.declared.answer.Made.{Made as Stamped};

use crate::answer::{Made, line_of, line_of_fault};
use crate::ask_fault::AskFault;
use crate::fault::DeskFault;
use crate::heard::{body_of, is_unready};
use std::alloc::{AllocError, Global};

/// All that a desk refuses for.
fn faults() -> &'static [DeskFault]
    ensures { result.now ≡ all_faults }
{
    &[
        DeskFault::ForeignHost,
        DeskFault::NoPath,
        DeskFault::NoPost,
        DeskFault::HasOrigin,
        DeskFault::NoKind,
        DeskFault::NoForm,
        DeskFault::NoObject,
        DeskFault::NoChange,
        DeskFault::BadKey,
        DeskFault::BadTag,
        DeskFault::BadValue,
        DeskFault::NoSite,
        DeskFault::StampsSpent,
        DeskFault::Shelf,
        DeskFault::Busy,
        DeskFault::Unshown,
        DeskFault::Memory,
    ]
}

/// The stamp of a counter and the number of a site, each in decimal digits.
fn stamp_of(counter: &str, site: &str) -> Option<Made>
    ensures { (made : Stamped) → IsStamp made → counter.now ≡ decimal made.counter
        → site.now ≡ decimal made.site → result ≡ Some made }
{
    match (counter.parse::<u64>(), site.parse::<u16>()) {
        (Ok(counter), Ok(site)) => Some(Made { counter, site }),
        _ => None,
    }
}

/// The stamp that stands between the first word of a line and its end.
fn stamp_between(text: &str) -> Option<Made>
    ensures { (made : Stamped) → IsStamp made → text.now ≡ stamp_text made → result ≡ Some made }
{
    match text.split_once(' ') {
        None => None,
        Some((counter, site)) => stamp_of(counter, site),
    }
}

/// What a text tells as a stamp: where it is the line of one, that.
fn stamp_told(text: &str) -> Option<Made>
    ensures { (made : Stamped) → IsStamp made → text.now ≡ stamp_line made → result ≡ Some made }
{
    let rest = text.strip_prefix("stamp ")?;
    stamp_between(rest.strip_suffix('\n')?)
}

/// The same of bytes.
fn stamp_in(line: &[u8]) -> Option<Made>
    ensures { (made : Stamped) → IsStamp made → line.now ≡ stamp_line made → result ≡ Some made }
{
    match str::from_utf8(line) {
        Ok(text) => stamp_told(text),
        Err(_error) => None,
    }
}

/// The stamp of which this is the line, if it is that of one.
fn made_by(alloc: Global, line: &[u8]) -> Result<Option<Made>, AllocError>
    ensures found { IfOk result (λ found. IfSome found (λ made. line.now ≡ stamp_line made)) }
    ensures only { IfOk result (λ found. (made : Stamped) → IsStamp made
        → line.now ≡ stamp_line made → found ≡ Some made) }
{
    let Some(made) = stamp_in(line) else {
        return Ok(None);
    };
    let told = line_of(alloc, made)?;
    if told.as_slice() == line {
        return Ok(Some(made));
    }
    Ok(None)
}

/// The reason of which this is the line, if it is that of one.
fn fault_by(alloc: Global, line: &[u8]) -> Result<Option<DeskFault>, AllocError>
    ensures found { IfOk result (λ found. IfSome found (λ fault. line.now ≡ refusal_line fault)) }
    ensures first { IfOk result (λ found. found ≡ fault_by line.now all_faults) }
{
    let all = faults();
    for fault in all {
        let told = line_of_fault(alloc, *fault)?;
        if told.as_slice() == line {
            return Ok(Some(*fault));
        }
    }
    Ok(None)
}

/// The stamp that a desk answered, or its reason, where its answer is there in whole; or that it
/// could not say what came of the correction.
pub fn outcome_of(alloc: Global, text: &[u8]) -> Result<Made, AskFault>
    ensures made { IfOk result (λ made. HasBody text.now (stamp_line made)) }
    ensures refused { IfErr result (TellsRefusal text.now) }
{
    let Some(line) = body_of(text) else {
        return Err(AskFault::NoAnswer);
    };
    if let Some(made) = made_by(alloc, line)? {
        return Ok(made);
    }
    match fault_by(alloc, line)? {
        Some(fault) => Err(AskFault::Refused(fault)),
        None if line.is_empty() && is_unready(text) => Err(AskFault::Unsaid),
        None => Err(AskFault::NoAnswer),
    }
}
