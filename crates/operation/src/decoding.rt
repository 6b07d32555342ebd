//! Reading the one spelling of an operation. Nothing else is taken.

ghost use Rattle.std.specs.Prelude.{◌≡◌, Ok, Err, IfOk, IfErr};
ghost use Rattle.octets.specs.Gives.{Gives, Tells, Told};
ghost use Rattle.operation.specs.declared.fault.OpFault.{OpFault};
ghost use Rattle.operation.specs.declared.op.Op.{Op};
ghost use Rattle.operation.specs.Contents.{draft_of as draft_in};
ghost use Rattle.operation.specs.Corrections.{IsCorrection};
ghost use Rattle.operation.specs.Fault.{is_memory};
ghost use Rattle.operation.specs.Front.{drafted_front};
ghost use Rattle.operation.specs.Reading.{short_at, is_padded, uid_at, syntax_at, body_at, draft_at, target_at};
ghost use Rattle.operation.specs.Reading.{tag_at, value_text_at, stamp_at, correction_at, IsMade, IsReading, IsOp};
ghost use Rattle.operation.specs.Reading.{HasFault};
ghost use Rattle.operation.specs.Spelling.{spelling, draft_text, correction_text};

use crate::content::Content;
use crate::contents::content_from;
use crate::correction::{Correction, correction_of};
use crate::draft::Draft;
use crate::fault::OpFault;
use crate::op::Op;
use crate::stamp::Stamp;
use crate::target::Target;
use bytes::Bytes;
use data_set::Syntax;
use octets::Octets;
use std::alloc::Global;

#[tactic(auto, unfolding(crate::specs::Reading::short_at))]
fn short_of(text: &[u8]) -> Result<(&[u8], &[u8]), OpFault>
    ensures { Gives is_memory (λ x. (x.0.now, x.1.now)) result (short_at text.now) }
{
    match text {
        [] => Err(OpFault::Shape),
        [size, rest @ ..] => {
            let size = *size as usize;
            if rest.len() < size {
                return Err(OpFault::Shape);
            }
            Ok(rest.split_at(size))
        }
    }
}

fn ends_padded(text: &[u8]) -> bool
    ensures { result ≡ is_padded text.now }
{
    matches!(text, [.., 0x00 | 0x20])
}

#[tactic(auto, unfolding(crate::specs::Reading::uid_at))]
fn uid_of(text: &[u8]) -> Result<(&[u8], &[u8]), OpFault>
    ensures { Gives is_memory (λ x. (x.0.now, x.1.now)) result (uid_at text.now) }
{
    let (uid, rest) = short_of(text)?;
    // A UID with padding would be a second spelling of the one without.
    if ends_padded(uid) {
        return Err(OpFault::Shape);
    }
    Ok((uid, rest))
}

#[tactic(auto, unfolding(crate::specs::Reading::syntax_at))]
fn syntax_of(text: &[u8]) -> Result<(Syntax, &[u8]), OpFault>
    ensures { Gives is_memory (λ x. (x.0, x.1.now)) result (syntax_at text.now) }
{
    match text {
        [1, rest @ ..] => Ok((Syntax::Implicit, rest)),
        [2, rest @ ..] => Ok((Syntax::Explicit, rest)),
        _ => Err(OpFault::Shape),
    }
}

#[tactic(auto, unfolding(crate::specs::Reading::body_at))]
fn body_of(text: &[u8]) -> Result<&[u8], OpFault>
    ensures { Gives is_memory (λ x. x.now) result (body_at text.now) }
{
    match text {
        [a, b, c, d, rest @ ..] => {
            if rest.len() == u32::from_be_bytes([*a, *b, *c, *d]) as usize {
                Ok(rest)
            } else {
                Err(OpFault::Shape)
            }
        }
        _ => Err(OpFault::Shape),
    }
}

/// A content behind its kind, as its spelling has it.
#[derive(Drop)]
struct Front<'a> {
    class: &'a [u8],
    instance: &'a [u8],
    syntax: Syntax,
    body: &'a [u8],
}

#[tactic(auto, unfolding(crate::specs::Reading::draft_at))]
fn front_of(text: &[u8]) -> Result<Front<'_>, OpFault>
    ensures exact { Gives is_memory drafted_front result (draft_at text.now) }
    ensures spelled { IfOk result (λ front. text.now ≡ draft_text (drafted_front front)) }
{
    let (class, rest) = uid_of(text)?;
    let (instance, rest) = uid_of(rest)?;
    let (syntax, rest) = syntax_of(rest)?;
    let body = body_of(rest)?;
    Ok(Front {
        class,
        instance,
        syntax,
        body,
    })
}

/// The draft that stands behind its kind. Its data set shares the bytes of the spelling.
fn draft_of(alloc: Global, mut text: Bytes) -> Result<Draft, OpFault>
    ensures exact { Gives is_memory (λ draft. draft) result (draft_at text) }
    ensures spelled { IfOk result (λ draft. text ≡ draft_text draft) }
{
    let front = front_of(text.as_slice())?;
    let class = Octets::from_slice(alloc, front.class)?;
    let instance = Octets::from_slice(alloc, front.instance)?;
    let syntax = front.syntax;
    let skipped = text.len() - front.body.len();
    text.advance(skipped);
    Ok(Draft {
        class,
        instance,
        syntax,
        body: text,
    })
}

/// A key, copied.
fn key_from(alloc: Global, text: &[u8]) -> Result<(Octets, &[u8]), OpFault>
    ensures { Gives is_memory (λ x. (x.0, x.1.now)) result (short_at text.now) }
{
    let (key, rest) = short_of(text)?;
    Ok((Octets::from_slice(alloc, key)?, rest))
}

/// The kind of a correction, and its target.
#[tactic(auto, unfolding(crate::specs::Reading::target_at))]
fn target_of(alloc: Global, text: &[u8]) -> Result<(Target, &[u8]), OpFault>
    ensures { Gives is_memory (λ x. (x.0, x.1.now)) result (target_at text.now) }
{
    match text {
        [2, 1, rest @ ..] => {
            let (key, rest) = key_from(alloc, rest)?;
            Ok((Target::Study(key), rest))
        }
        [2, 2, rest @ ..] => {
            let (key, rest) = key_from(alloc, rest)?;
            Ok((Target::Patient(key), rest))
        }
        [3, rest @ ..] => {
            let (key, rest) = key_from(alloc, rest)?;
            Ok((Target::Series(key), rest))
        }
        _ => Err(OpFault::Shape),
    }
}

#[tactic(auto, unfolding(crate::specs::Reading::tag_at))]
fn tag_of(text: &[u8]) -> Result<(u32, &[u8]), OpFault>
    ensures { Gives is_memory (λ x. (x.0, x.1.now)) result (tag_at text.now) }
{
    match text {
        [a, b, c, d, rest @ ..] => Ok((u32::from_be_bytes([*a, *b, *c, *d]), rest)),
        _ => Err(OpFault::Shape),
    }
}

#[tactic(auto, unfolding(crate::specs::Reading::value_text_at))]
fn value_of(text: &[u8]) -> Result<(&[u8], &[u8]), OpFault>
    ensures { Gives is_memory (λ x. (x.0.now, x.1.now)) result (value_text_at text.now) }
{
    match text {
        [a, b, rest @ ..] => {
            let size = u16::from_be_bytes([*a, *b]) as usize;
            if rest.len() < size {
                return Err(OpFault::Shape);
            }
            Ok(rest.split_at(size))
        }
        _ => Err(OpFault::Shape),
    }
}

#[tactic(auto, unfolding(crate::specs::Reading::stamp_at))]
fn stamp_of(text: &[u8]) -> Result<Stamp, OpFault>
    ensures { Gives is_memory (λ x. x) result (stamp_at text.now) }
{
    match text {
        [a, b, c, d, e, f, g, h, i, j] => Ok(Stamp {
            counter: u64::from_be_bytes([*a, *b, *c, *d, *e, *f, *g, *h]),
            site: u16::from_be_bytes([*i, *j]),
        }),
        _ => Err(OpFault::Shape),
    }
}

/// A correction with its kind.
#[tactic(auto, unfolding(crate::specs::Reading::correction_at, crate::specs::Reading::parts_at))]
fn correction_from(alloc: Global, text: &[u8]) -> Result<Correction, OpFault>
    ensures exact { Gives is_memory (λ k. k) result (correction_at text.now) }
    ensures spelled { IfOk result (λ k. text.now ≡ correction_text k) }
    ensures lawful { IfOk result IsCorrection }
{
    let (target, rest) = target_of(alloc, text)?;
    let (tag, rest) = tag_of(rest)?;
    let (value, rest) = value_of(rest)?;
    let stamp = stamp_of(rest)?;
    correction_of(target, tag, Octets::from_slice(alloc, value)?, stamp)
}

/// A content behind its kind.
fn content_behind(alloc: Global, text: Bytes) -> Result<Content, OpFault>
    ensures outcome { Tells is_memory (λ c. c) result (IsMade (draft_at text)) }
    ensures spelled { IfOk result (λ c. text ≡ draft_text (draft_in c)) }
{
    content_from(alloc, draft_of(alloc, text)?)
}

/// The kind, and the operation behind it.
#[tactic(auto, unfolding(crate::specs::Spelling::spelling))]
fn read_operation(alloc: Global, mut text: Bytes) -> Result<Op, OpFault>
    ensures outcome { Tells is_memory (λ op. op) result (IsReading text) }
    ensures spelled { IfOk result (λ op. text ≡ spelling op) }
    ensures lawful { IfOk result IsOp }
{
    let kind = match text.as_slice() {
        [] => return Err(OpFault::Shape),
        [kind, ..] => *kind,
    };
    match kind {
        1 => {
            text.advance(1);
            Ok(Op::Content(content_behind(alloc, text)?))
        }
        2 => Ok(Op::Correction(correction_from(alloc, text.as_slice())?)),
        3 => Ok(Op::Correction(correction_from(alloc, text.as_slice())?)),
        _ => Err(OpFault::UnknownKind),
    }
}

/// The operation that bytes spell. No byte of a data set is copied: the content shares the bytes
/// of its spelling.
pub fn decode(alloc: Global, text: Bytes) -> Result<Op, OpFault>
    // What is decoded is spelled so, and whatever is spelled is decoded, unless memory ran out.
    ensures found { IfOk result (λ op. text ≡ spelling op) }
    ensures lawful { IfOk result IsOp }
    ensures only { (op : Op) → IsOp op → text ≡ spelling op
        → Gives is_memory (λ op. op) result (Ok op) }

    // Each fault, exactly where it is: UnknownKind, Shape, and then the operation's own.
    ensures fault { IfErr result (λ e. Told is_memory e (HasFault text)) }
    ensures faulty { (f : OpFault) → HasFault text f → Gives is_memory (λ op. op) result (Err f) }
{
    read_operation(alloc, text)
}
