//! Texts are cut into fragments, each in a PDU of its own (PS3.8, annex E and section D.1).

ghost use Rattle.std.specs.Prelude.{◌≡◌, ◌≤◌, ◌<◌, ◌++◌, IfOk, OnErr, None, Ok, option_to_list};
ghost use Rattle.dimse.specs.Cut.{cut_left};
ghost use Rattle.dimse.specs.Sending.{size_of, sent};

use bytes::Bytes;
use octets::ListOf;
use pdu::{Pdu, Pdv};
use std::alloc::{AllocError, Global};

/// How long each fragment but the last of a text is: the largest even length that leaves room for
/// the six bytes of its header.
pub(crate) fn size_within(max: u32) -> usize
    requires { 8 ≤ max }
    ensures size { result ≡ size_of max }
    ensures some { 0 < result }
{
    ((max - 6) / 2 * 2) as usize
}

/// A PDU with one fragment.
fn pdu_with(
    alloc: Global,
    context: u8,
    command: bool,
    last: bool,
    fragment: Bytes,
) -> Result<Pdu, AllocError>
    ensures { IfOk result (λ pdu. pdu ≡ sent context command last fragment) }
{
    let mut pdvs = ListOf::new(alloc);
    pdvs.push(Pdv {
        context,
        command,
        last,
        fragment,
    })?;
    Ok(Pdu::PData(pdvs))
}

/// The PDU of the next fragment of what is left of a text, which is advanced. No byte is copied.
pub(crate) fn take_fragment(
    alloc: Global,
    size: usize,
    context: u8,
    command: bool,
    left: &mut Option<Bytes>,
) -> Result<Option<Pdu>, AllocError>
    requires { 0 < size }
    ensures parts { IfOk result (λ pdu. cut_left size context command left.old
        ≡ option_to_list pdu ++ cut_left size context command left.new) }
    ensures none { result ≡ Ok None → left.old ≡ None }
    ensures kept { OnErr result (left.new ≡ left.old) }
{
    let Some(text) = left else {
        return Ok(None);
    };
    if text.len() <= size {
        let pdu = pdu_with(alloc, context, command, true, text.clone()?)?;
        *left = None;
        return Ok(Some(pdu));
    }
    let pdu = pdu_with(alloc, context, command, false, text.slice(..size)?)?;
    text.advance(size);
    Ok(Some(pdu))
}
