//! Reading the body of a frame, once its header is read.

ghost use Rattle.std.specs.Prelude.{◌≡◌, ◌++◌, ◌*◌, length, List, Ok, Err, IfOk, IfErr};
ghost use Rattle.octets.specs.Bytes.{IsBytes};
ghost use Rattle.octets.specs.Gives.{Gives, Tells, Told};
ghost use Rattle.std.specs.Ordering.{nat_cmp};
ghost use Rattle.exchange_frames.specs.declared.fault.FrameFault.{FrameFault};
ghost use Rattle.exchange_frames.specs.declared.frame.Frame.{Frame};
ghost use Rattle.exchange_frames.specs.Fault.{is_memory};
ghost use Rattle.exchange_frames.specs.Header.{header_text};
ghost use Rattle.exchange_frames.specs.Spelling.{text_of, ascends, IsFrame};
ghost use Rattle.exchange_frames.specs.Reading.{cut, counts_too_many as has_many, is_long, or_bad, counted_at};
ghost use Rattle.exchange_frames.specs.Reading.{buckets_at, places_at, version_at, end_at, frame_at, IsGiven};
ghost use Rattle.exchange_frames.specs.Reading.{IsOutcome, HasFault};

use crate::digests::Digests;
use crate::fault::FrameFault;
use crate::frame::Frame;
use crate::header::{BUCKETS, DIFFER, END, FrameHeader, GIVE, HAVE, HELLO, WANT};
use bytes::Bytes;
use octets::{ListOf, Octets};
use operation::{Digest, Op, OpFault, decode};
use std::alloc::{AllocError, Global};
use std::cmp::Ordering;

/// The most digests of a HAVE or a WANT.
pub const MOST_DIGESTS: usize = 1_048_576;

/// How many bytes a digest has: those of a SHA-256 (FIPS 180-4).
pub const DIGEST_LENGTH: usize = 32;

/// How many digests a BUCKETS has: one for each first byte.
pub const BUCKET_COUNT: usize = 256;

fn digest_of(bytes: &[u8]) -> Digest
    requires { length bytes.now ≡ DIGEST_LENGTH }
    ensures { result ≡ bytes.now }
{
    let mut digest = [0; DIGEST_LENGTH];
    digest.copy_from_slice(bytes);
    Digest::of(digest)
}

fn digests_of(alloc: Global, count: usize, text: &[u8]) -> Result<Vec<Digest>, AllocError>
    requires { length text.now ≡ DIGEST_LENGTH * count }
    ensures { IfOk result (λ digests. digests.items ≡ cut count text.now) }
{
    let mut digests = Vec::with_capacity(alloc, count)?;
    let mut rest = text;
    for _ in 0..count {
        let (front, after) = rest.split_at(DIGEST_LENGTH);
        digests.push(digest_of(front))?;
        rest = after;
    }
    Ok(digests)
}

fn bytes_ascend(bytes: &[u8]) -> bool
    ensures { result ≡ ascends nat_cmp bytes.now }
{
    for at in 1..bytes.len() {
        if bytes[at - 1].cmp(&bytes[at]) != Ordering::Less {
            return false;
        }
    }
    true
}

fn counts_too_many(body: &[u8]) -> bool
    ensures { result ≡ has_many body.now }
{
    match body {
        [a, b, c, d, ..] => u32::from_be_bytes([*a, *b, *c, *d]) as usize > MOST_DIGESTS,
        _ => false,
    }
}

/// Whether a HAVE or a WANT says that it has more digests than are read.
#[tactic(auto, unfolding(crate::specs::Reading::is_long))]
fn says_too_many(kind: u8, body: &[u8]) -> bool
    ensures exact { result ≡ is_long kind body.now }
    ensures octets { IsBytes body.now }
{
    (kind == HAVE || kind == WANT) && counts_too_many(body)
}

/// A count and that many digests, ascending, which stay where they lie.
#[tactic(auto, unfolding(crate::specs::Reading::counted_at))]
fn counted_of(body: Bytes) -> Result<Digests, FrameFault>
    ensures { Gives is_memory (λ digests. digests) result (or_bad (counted_at body)) }
{
    let [a, b, c, d, rest @ ..] = body.as_slice() else {
        return Err(FrameFault::BadFrame);
    };
    let count = u32::from_be_bytes([*a, *b, *c, *d]) as usize;
    if rest.len() != DIGEST_LENGTH * count {
        return Err(FrameFault::BadFrame);
    }
    let digests = Digests::cut(body.slice(4..)?, count);
    if !digests.ascend() {
        return Err(FrameFault::BadFrame);
    }
    Ok(digests)
}

#[tactic(auto, unfolding(crate::specs::Reading::buckets_at))]
fn buckets_of(alloc: Global, text: &[u8]) -> Result<ListOf<Digest>, FrameFault>
    ensures { Gives is_memory (λ digests. digests) result (or_bad (buckets_at text.now)) }
{
    if text.len() != DIGEST_LENGTH * BUCKET_COUNT {
        return Err(FrameFault::BadFrame);
    }
    Ok(ListOf::of(digests_of(alloc, BUCKET_COUNT, text)?))
}

/// A count and that many first bytes, ascending.
#[tactic(auto, unfolding(crate::specs::Reading::places_at))]
fn places_of(alloc: Global, text: &[u8]) -> Result<Octets, FrameFault>
    ensures { Gives is_memory (λ places. places) result (or_bad (places_at text.now)) }
{
    let [a, b, rest @ ..] = text else {
        return Err(FrameFault::BadFrame);
    };
    let count = u16::from_be_bytes([*a, *b]) as usize;
    if rest.len() != count {
        return Err(FrameFault::BadFrame);
    }
    if !bytes_ascend(rest) {
        return Err(FrameFault::BadFrame);
    }
    Ok(Octets::from_slice(alloc, rest)?)
}

fn version_of(text: &[u8]) -> Result<u16, FrameFault>
    ensures { Gives is_memory (λ version. version) result (or_bad (version_at text.now)) }
{
    let [a, b] = text else {
        return Err(FrameFault::BadFrame);
    };
    Ok(u16::from_be_bytes([*a, *b]))
}

fn end_of(text: &[u8]) -> Result<Frame, FrameFault>
    ensures { Gives is_memory (λ frame. frame) result (or_bad (end_at text.now)) }
{
    if !text.is_empty() {
        return Err(FrameFault::BadFrame);
    }
    Ok(Frame::End)
}

/// What a body says that is none of a GIVE.
#[tactic(auto, unfolding(crate::specs::Reading::frame_at))]
fn frame_of(alloc: Global, kind: u8, body: Bytes) -> Result<Frame, FrameFault>
    ensures { Gives is_memory (λ frame. frame) result (or_bad (frame_at kind body)) }
{
    match kind {
        HAVE => Ok(Frame::Have(counted_of(body)?)),
        WANT => Ok(Frame::Want(counted_of(body)?)),
        END => end_of(body.as_slice()),
        BUCKETS => Ok(Frame::Buckets(buckets_of(alloc, body.as_slice())?)),
        DIFFER => Ok(Frame::Differ(places_of(alloc, body.as_slice())?)),
        HELLO => Ok(Frame::Hello(version_of(body.as_slice())?)),
        _ => Err(FrameFault::BadFrame),
    }
}

/// The operation of a GIVE, which shares the bytes of the body.
fn given_of(alloc: Global, body: Bytes) -> Result<Op, FrameFault>
    ensures { Tells is_memory (λ op. op) result (IsGiven body) }
{
    match decode(alloc, body) {
        Ok(op) => Ok(op),
        Err(OpFault::Memory) => Err(FrameFault::Memory),
        Err(
            OpFault::NoUid
            | OpFault::Mismatch
            | OpFault::BadSet
            | OpFault::BadNote
            | OpFault::BadCorrection
            | OpFault::TooLong
            | OpFault::UnknownKind
            | OpFault::Shape,
        ) => Err(FrameFault::BadFrame),
    }
}

fn body_of(alloc: Global, kind: u8, body: Bytes) -> Result<Frame, FrameFault>
    ensures { Tells is_memory (λ frame. frame) result (IsOutcome kind body) }
{
    if says_too_many(kind, body.as_slice()) {
        return Err(FrameFault::TooLong);
    }
    if kind == GIVE {
        return Ok(Frame::Give(given_of(alloc, body)?));
    }
    frame_of(alloc, kind, body)
}

/// Reads the body behind a header, of the length that the header says.
///
/// The operation of a GIVE shares its bytes, and so do the digests of a HAVE or a WANT: none of
/// them is copied.
pub fn read_frame_body(
    alloc: Global,
    header: &FrameHeader,
    body: Bytes,
) -> Result<Frame, FrameFault>
    requires { length body ≡ header.now.length }
    // What is read is spelled so, and what is spelled so is read, unless memory ran out.
    ensures found { IfOk result (λ frame. header_text header.now ++ body ≡ text_of frame) }
    ensures lawful { IfOk result IsFrame }
    ensures only { (frame : Frame) → IsFrame frame → header_text header.now ++ body ≡ text_of frame
        → Gives is_memory (λ frame. frame) result (Ok frame) }

    // Each fault, exactly where it is.
    ensures fault { IfErr result (λ e. Told is_memory e (HasFault header.now.kind body)) }
    ensures faulty { (e : FrameFault) → HasFault header.now.kind body e
        → Gives is_memory (λ frame. frame) result (Err e) }
{
    body_of(alloc, header.kind(), body)
}

/// A text spells at most one frame.
pub fn a_text_spells_one_frame()
    ensures { (f g : Frame) → IsFrame f → IsFrame g → text_of f ≡ text_of g → f ≡ g }
{}
