//! Writing a frame: its head, and the bytes of a data set or of digests, which are not copied.

ghost use Rattle.std.specs.Prelude.{◌≡◌, ◌⊎◌, ◌↔◌, ◌<◌, ◌≤◌, ◌++◌, ◌^◌, ◌+◌, ◌*◌, length, List, ℕ, IfOk, OnOk, IfErr};
ghost use Rattle.std.specs.Prelude.{IsErrOf, IsTrue};
ghost use Rattle.operation.specs.Spelling.{content_text, short_text};
ghost use Rattle.exchange_frames.specs.declared.frame.Frame.{Frame};
ghost use Rattle.exchange_frames.specs.declared.frame.Frame.TheVariants.{Give, Differ, Hello};
ghost use Rattle.exchange_frames.specs.Header.{head_text};
ghost use Rattle.exchange_frames.specs.Spelling.{text_of, digests_text, counted_text, IsFrame};
ghost use Rattle.exchange_frames.specs.Writing.{is_too_long, IsWrittenAgain};

use crate::digests::{Digests, put_digest};
use crate::fault::FrameFault;
use crate::frame::Frame;
use crate::header::{BUCKETS, DIFFER, END, GIVE, HAVE, HEADER_LENGTH, HELLO, WANT};
use crate::reader::{BUCKET_COUNT, DIGEST_LENGTH, MOST_DIGESTS};
use bytes::Bytes;
use data_set::Syntax;
use octets::LONGEST_DATA_SET;
use operation::{Content, Digest, Op, encode};
use std::alloc::{AllocError, Global};
use std::marker::Model;

/// How many bytes stand before a data set, at most, in the spelling of a content.
const MOST_BEFORE: usize = 136;

/// The most first bytes that a DIFFER can count.
const MOST_PLACES: usize = 65_535;

/// The bytes of a frame, in two parts: the second shares the bytes of a data set, or of digests.
#[derive(Debug, Drop)]
pub struct FrameText {
    head: Vec<u8>,
    rest: Bytes,
}

impl Model for FrameText {
    ghost use Rattle.std.specs.Prelude.{◌++◌, List, ℕ};

    ghost Value = { List ℕ };

    ghost view = { λ t. t.head.items ++ t.rest };
}

impl FrameText {
    /// The two parts, which are written one behind the other.
    pub fn parts(&self) -> (&[u8], &[u8])
        ensures { result.0.now ++ result.1.now ≡ self.now }
    {
        (self.head.as_slice(), self.rest.as_slice())
    }

    fn whole(head: Vec<u8>) -> FrameText
        ensures { result ≡ head.items }
    {
        FrameText {
            head,
            rest: Bytes::new(),
        }
    }
}

/// A buffer for a frame of this length, with its header.
fn with_header(alloc: Global, kind: u8, length: usize) -> Result<Vec<u8>, AllocError>
    requires { length < 2 ^ 32 }
    ensures { IfOk result (λ out. out.items ≡ head_text kind length) }
{
    let mut out = Vec::with_capacity(alloc, HEADER_LENGTH + length)?;
    out.push(kind)?;
    out.extend_from_slice(&(length as u32).to_be_bytes())?;
    Ok(out)
}

fn put_digests(out: &mut Vec<u8>, digests: &[Digest]) -> Result<(), AllocError>
    ensures text { OnOk result (out.new.items ≡ out.old.items ++ digests_text digests.now) }
    ensures long { OnOk result (length (digests_text digests.now)
        ≡ DIGEST_LENGTH * length digests.now) }
{
    for digest in digests {
        put_digest(out, digest.as_bytes())?;
    }
    Ok(())
}

/// A count and that many digests, which are shared.
fn counted(alloc: Global, kind: u8, digests: &Digests) -> Result<FrameText, FrameFault>
    ensures text { IfOk result (λ text. text
        ≡ head_text kind (length (counted_text digests.now)) ++ counted_text digests.now) }
    ensures long { IsErrOf result FrameFault.TooLong ↔ (MOST_DIGESTS < length digests.now) }
    ensures fault { IfErr result (λ e. (e ≡ FrameFault.TooLong) ⊎ (e ≡ FrameFault.Memory)) }
{
    let count = digests.len();
    if count > MOST_DIGESTS {
        return Err(FrameFault::TooLong);
    }
    let mut head = Vec::with_capacity(alloc, HEADER_LENGTH + 4)?;
    head.push(kind)?;
    head.extend_from_slice(&((4 + DIGEST_LENGTH * count) as u32).to_be_bytes())?;
    head.extend_from_slice(&(count as u32).to_be_bytes())?;
    Ok(FrameText {
        head,
        rest: digests.text().clone()?,
    })
}

fn buckets(alloc: Global, digests: &[Digest]) -> Result<Vec<u8>, FrameFault>
    ensures text { IfOk result (λ out. out.items
        ≡ head_text BUCKETS (length (digests_text digests.now)) ++ digests_text digests.now) }
    ensures long { IsErrOf result FrameFault.TooLong ↔ (BUCKET_COUNT < length digests.now) }
    ensures fault { IfErr result (λ e. (e ≡ FrameFault.TooLong) ⊎ (e ≡ FrameFault.Memory)) }
{
    let count = digests.len();
    if count > BUCKET_COUNT {
        return Err(FrameFault::TooLong);
    }
    let mut out = with_header(alloc, BUCKETS, DIGEST_LENGTH * count)?;
    put_digests(&mut out, digests)?;
    Ok(out)
}

#[tactic(auto, unfolding(crate::specs::Spelling::text_of))]
fn places(alloc: Global, bytes: &[u8]) -> Result<Vec<u8>, FrameFault>
    ensures text { IfOk result (λ out. out.items ≡ text_of (Differ bytes.now)) }
    ensures long { IsErrOf result FrameFault.TooLong ↔ (MOST_PLACES < length bytes.now) }
    ensures fault { IfErr result (λ e. (e ≡ FrameFault.TooLong) ⊎ (e ≡ FrameFault.Memory)) }
{
    let count = bytes.len();
    if count > MOST_PLACES {
        return Err(FrameFault::TooLong);
    }
    let mut out = with_header(alloc, DIFFER, 2 + count)?;
    out.extend_from_slice(&(count as u16).to_be_bytes())?;
    out.extend_from_slice(bytes)?;
    Ok(out)
}

#[tactic(auto, unfolding(crate::specs::Spelling::text_of))]
fn hello(alloc: Global, version: u16) -> Result<Vec<u8>, AllocError>
    ensures { IfOk result (λ out. out.items ≡ text_of (Hello version)) }
{
    let mut out = with_header(alloc, HELLO, 2)?;
    out.extend_from_slice(&version.to_be_bytes())?;
    Ok(out)
}

fn put_short(out: &mut Vec<u8>, bytes: &[u8]) -> Result<(), AllocError>
    requires { length bytes.now ≤ 64 }
    ensures { OnOk result (out.new.items ≡ out.old.items ++ short_text bytes.now) }
{
    out.push(bytes.len() as u8)?;
    out.extend_from_slice(bytes)?;
    Ok(())
}

/// What stands before the data set in the spelling of a content.
fn before_body(alloc: Global, content: &Content) -> Result<Vec<u8>, AllocError>
    ensures text { IfOk result (λ out. out.items ++ content.now.body ≡ content_text content.now) }
    ensures short { IfOk result (λ out. length out.items ≤ MOST_BEFORE) }
{
    let mut out = Vec::with_capacity(alloc, MOST_BEFORE)?;
    let syntax = match content.syntax() {
        Syntax::Implicit => 1,
        Syntax::Explicit => 2,
    };
    out.push(1)?;
    put_short(&mut out, content.class())?;
    put_short(&mut out, content.instance())?;
    out.push(syntax)?;
    out.extend_from_slice(&(content.body().len() as u32).to_be_bytes())?;
    Ok(out)
}

/// The GIVE of a content, of what stands before its data set and of that, which is shared.
fn give_parts(alloc: Global, before: &[u8], body: &Bytes) -> Result<FrameText, AllocError>
    requires before { length before.now ≤ MOST_BEFORE }
    requires body { length body.now ≤ LONGEST_DATA_SET }
    ensures { IfOk result (λ text. text
        ≡ head_text GIVE (length (before.now ++ body.now)) ++ (before.now ++ body.now)) }
{
    let mut head = Vec::with_capacity(alloc, HEADER_LENGTH + before.len())?;
    head.push(GIVE)?;
    head.extend_from_slice(&((before.len() + body.len()) as u32).to_be_bytes())?;
    head.extend_from_slice(before)?;
    Ok(FrameText {
        head,
        rest: body.clone()?,
    })
}

fn give_content(alloc: Global, content: &Content) -> Result<FrameText, AllocError>
    ensures { IfOk result (λ text. text
        ≡ head_text GIVE (length (content_text content.now)) ++ content_text content.now) }
{
    let before = before_body(alloc, content)?;
    give_parts(alloc, before.as_slice(), content.body())
}

#[tactic(auto, unfolding(crate::specs::Spelling::text_of))]
fn give_correction(alloc: Global, op: &Op) -> Result<FrameText, AllocError>
    ensures { IfOk result (λ text. text ≡ text_of (Give op.now)) }
{
    let spelled = encode(alloc, op)?;
    let mut head = with_header(alloc, GIVE, spelled.len())?;
    head.extend_from_slice(spelled.as_slice())?;
    Ok(FrameText::whole(head))
}

#[tactic(auto, unfolding(operation::specs::Spelling::spelling, crate::specs::Spelling::text_of))]
fn give(alloc: Global, op: &Op) -> Result<FrameText, AllocError>
    ensures { IfOk result (λ text. text ≡ text_of (Give op.now)) }
{
    match op {
        Op::Content(content) => give_content(alloc, content),
        Op::Correction(_) => give_correction(alloc, op),
    }
}

/// The bytes of a frame. Those of a data set and those of the digests of a HAVE or a WANT are
/// shared, and no spelling of them is built.
///
/// `TooLong` is told of more than 1,048,576 digests in a HAVE or a WANT, of more than 256 in a
/// BUCKETS, and of more than 65,535 first bytes in a DIFFER: so of no frame that can be read.
#[tactic(auto, unfolding(crate::specs::Spelling::text_of))]
pub fn write_frame(alloc: Global, frame: &Frame) -> Result<FrameText, FrameFault>
    ensures written { IfOk result (λ text. text ≡ text_of frame.now) }
    ensures too_long { IsErrOf result FrameFault.TooLong ↔ IsTrue (is_too_long frame.now) }
    ensures fault { IfErr result (λ e. (e ≡ FrameFault.TooLong) ⊎ (e ≡ FrameFault.Memory)) }
{
    match frame {
        Frame::Have(digests) => counted(alloc, HAVE, digests),
        Frame::Want(digests) => counted(alloc, WANT, digests),
        Frame::Give(op) => Ok(give(alloc, op)?),
        Frame::End => Ok(FrameText::whole(with_header(alloc, END, 0)?)),
        Frame::Buckets(digests) => Ok(FrameText::whole(buckets(alloc, digests.as_slice())?)),
        Frame::Differ(bytes) => Ok(FrameText::whole(places(alloc, bytes.as_slice())?)),
        Frame::Hello(version) => Ok(FrameText::whole(hello(alloc, *version)?)),
    }
}

/// What is written of a frame is read again as that frame: its first five bytes are its header,
/// which has no fault, and the rest is its body.
pub fn what_is_written_is_read_again()
    ensures { (f : Frame) → IsFrame f → IsWrittenAgain f }
{}
