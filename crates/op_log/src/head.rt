//! The heads of operations, as they are written.

ghost use Rattle.std.specs.Prelude.{◌≡◌, ◌++◌, ◌<◌, ◌^◌, length, OnOk};
ghost use Rattle.op_log.specs.Heads.{IsSpelled, head_text, number_text, size_of};
ghost use Rattle.op_log.specs.Spelled.{head_spelled};

use operation::{Digest, Op};
use std::alloc::AllocError;

/// The parts in which an operation is written: its digest, its spelling up to the data set, and
/// the data set.
#[derive(Drop)]
pub(crate) struct Spelled<'a> {
    pub(crate) digest: &'a Digest,
    pub(crate) front: &'a [u8],
    pub(crate) body: &'a [u8],
}

/// How long the data set of an operation is: 0 of a correction.
pub(crate) fn size_of(op: &Op) -> usize
    ensures { result ≡ size_of op.now }
{
    match op {
        Op::Content(content) => content.body().len(),
        Op::Correction(_) => 0,
    }
}

/// How long bytes are.
fn length_of(bytes: &[u8]) -> usize
    ensures same { result ≡ length bytes.now }
    ensures fits { result < 2 ^ 64 }
{
    bytes.len()
}

/// Writes a number behind others.
#[tactic(auto, unfolding(crate::specs::Heads::number_text))]
fn put_number(text: &mut Vec<u8>, number: usize) -> Result<(), AllocError>
    ensures { OnOk result (text.new.items ≡ text.old.items ++ number_text number) }
{
    text.extend_from_slice(&(number as u64).to_le_bytes())
}

/// Writes the head of an operation, whose data set lies at an offset, behind others.
#[tactic(auto, unfolding(crate::specs::Heads::head_text))]
pub(crate) fn put_head(
    text: &mut Vec<u8>,
    spelled: &Spelled<'_>,
    at: usize,
) -> Result<(), AllocError>
    requires digest { length spelled.now.digest.now ≡ 32 }
    ensures written { OnOk result (text.new.items
        ≡ text.old.items ++ head_text (head_spelled spelled.now at)) }
    ensures lawful { OnOk result (IsSpelled (head_spelled spelled.now at)) }
{
    let long = length_of(spelled.front);
    let size = length_of(spelled.body);
    put_number(text, long)?;
    put_number(text, at)?;
    put_number(text, size)?;
    text.extend_from_slice(spelled.digest.as_bytes().as_slice())?;
    text.extend_from_slice(spelled.front)
}
