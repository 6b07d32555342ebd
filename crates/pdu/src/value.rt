//! What a PDU says (PS3.8, section 9.3).

ghost use Rattle.std.specs.Prelude.{◌≡◌};
ghost use Rattle.pdu.specs.Fault.{Gives};
ghost use Rattle.pdu.specs.Reading.{abort_at, body_at};

use crate::accept::{Accept, accept_of};
use crate::fault::PduFault;
use crate::header::{ASSOCIATE_AC, ASSOCIATE_RJ, ASSOCIATE_RQ, P_DATA, RELEASE_RP, RELEASE_RQ};
use crate::pdv::{Pdv, data_of};
use crate::reject::{Reject, reject_of};
use crate::request::{Request, request_of};
use bytes::Bytes;
use octets::ListOf;
use std::alloc::Global;

#[derive(Debug, Drop)]
pub enum Pdu {
    AssociateRq(Request),
    AssociateAc(Accept),
    AssociateRj(Reject),
    /// One value or more.
    PData(ListOf<Pdv>),
    ReleaseRq,
    ReleaseRp,
    /// Source 0 is the service's user, 2 its provider (PS3.8, section 9.3.8).
    Abort { source: u8, reason: u8 },
}

/// What the front of a stream gives.
#[derive(Debug, Drop)]
pub enum Step {
    /// More bytes are needed.
    Need,
    /// A PDU, and how many bytes it took.
    Done(Pdu, usize),
}

fn abort_of(body: &[u8]) -> Result<Pdu, PduFault>
    ensures { Gives result (abort_at body.now) }
{
    let [_, _, source, reason] = body else {
        return Err(PduFault::BadItem);
    };
    Ok(Pdu::Abort {
        source: *source,
        reason: *reason,
    })
}

/// What a body of this type says.
#[tactic(auto, unfolding(crate::specs::Reading::body_at))]
pub(crate) fn body_of(alloc: Global, code: u8, body: Bytes) -> Result<Pdu, PduFault>
    ensures { Gives result (body_at code body) }
{
    match code {
        ASSOCIATE_RQ => Ok(Pdu::AssociateRq(request_of(alloc, &body)?)),
        ASSOCIATE_AC => Ok(Pdu::AssociateAc(accept_of(alloc, &body)?)),
        ASSOCIATE_RJ => Ok(Pdu::AssociateRj(reject_of(body.as_slice())?)),
        P_DATA => Ok(Pdu::PData(data_of(alloc, body)?)),
        RELEASE_RQ => Ok(Pdu::ReleaseRq),
        RELEASE_RP => Ok(Pdu::ReleaseRp),
        _ => abort_of(body.as_slice()),
    }
}
