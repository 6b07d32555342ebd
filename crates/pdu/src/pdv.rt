//! Presentation data values (PS3.8, section 9.3.5.1).

ghost use Rattle.std.specs.Prelude.{◌≡◌};
ghost use Rattle.pdu.specs.Fault.{Gives};
ghost use Rattle.pdu.specs.Grammar.{is_command, is_last};
ghost use Rattle.pdu.specs.Reading.{pieces_of, pdv_at, data_at};

use crate::fault::PduFault;
use bytes::Bytes;
use octets::ListOf;
use std::alloc::Global;

/// A fragment of a message on a presentation context.
#[derive(Debug, Drop)]
pub struct Pdv {
    /// The presentation context's ID.
    pub context: u8,
    /// Whether the fragment is of a command set, and not of a data set.
    pub command: bool,
    /// Whether the fragment is the last of its command set or data set.
    pub last: bool,
    pub fragment: Bytes,
}

fn is_of_command(control: u8) -> bool
    ensures { result ≡ is_command control }
{
    control % 2 == 1
}

fn is_of_last(control: u8) -> bool
    ensures { result ≡ is_last control }
{
    control / 2 % 2 == 1
}

/// The value at the front, and what comes behind it. No byte is copied.
fn pdv_of(text: Bytes) -> Result<(Pdv, Bytes), PduFault>
    ensures { Gives result (pdv_at text) }
{
    let [a, b, c, d, context, control, ..] = text.as_slice() else {
        return Err(PduFault::BadItem);
    };
    let context = *context;
    // The other bits are not tested (docs/DECISIONS.md, "Control bits").
    let command = is_of_command(*control);
    let last = is_of_last(*control);
    let size = u32::from_be_bytes([*a, *b, *c, *d]) as usize;
    if size < 2 {
        return Err(PduFault::BadItem);
    }
    let mut fragment = text;
    fragment.advance(6);
    if fragment.len() < size - 2 {
        return Err(PduFault::BadItem);
    }
    let rest = fragment.split_off(size - 2)?;
    let pdv = Pdv {
        context,
        command,
        last,
        fragment,
    };
    Ok((pdv, rest))
}

/// The values that fill a text, in order.
fn pdvs_of(alloc: Global, text: Bytes) -> Result<ListOf<Pdv>, PduFault>
    ensures { Gives result (pieces_of pdv_at text) }
{
    let mut values = ListOf::new(alloc);
    let mut rest = text;
    while !rest.is_empty() {
        let (value, after) = pdv_of(rest)?;
        values.push(value)?;
        rest = after;
    }
    Ok(values)
}

/// The values of a P-DATA-TF, of which there is one or more.
#[tactic(auto, unfolding(crate::specs::Reading::data_at))]
pub(crate) fn data_of(alloc: Global, body: Bytes) -> Result<ListOf<Pdv>, PduFault>
    ensures { Gives result (data_at body) }
{
    let values = pdvs_of(alloc, body)?;
    if values.is_empty() {
        return Err(PduFault::BadItem);
    }
    Ok(values)
}
