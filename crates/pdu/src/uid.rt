//! UIDs as they stand in items (PS3.8, annex F).

ghost use Rattle.std.specs.Prelude.{◌≡◌};
ghost use Rattle.pdu.specs.Fault.{Gives};
ghost use Rattle.pdu.specs.Reading.{uid_at};

use crate::fault::PduFault;
use crate::item::Content;
use bytes::Bytes;
use octets::{Octets, are_graphic, without_padding};
use std::alloc::Global;

/// The UID that a content has, without its padding.
#[tactic(auto, unfolding(crate::specs::Reading::uid_at))]
pub(crate) fn uid_of(alloc: Global, content: &[u8]) -> Result<Octets, PduFault>
    ensures { Gives result (uid_at content.now) }
{
    let text = without_padding(content);
    if !are_graphic(text) {
        return Err(PduFault::BadItem);
    }
    Ok(Octets::from_slice(alloc, text)?)
}

impl Content for Octets {
    ghost content_at = { uid_at };

    fn read(alloc: Global, content: &Bytes) -> Result<Octets, PduFault> {
        uid_of(alloc, content.as_slice())
    }
}
