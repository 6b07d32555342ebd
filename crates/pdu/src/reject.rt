//! A-ASSOCIATE-RJ (PS3.8, section 9.3.4).

ghost use Rattle.std.specs.Prelude.{◌≡◌};
ghost use Rattle.pdu.specs.Fault.{Gives};
ghost use Rattle.pdu.specs.Reading.{reject_at};

use crate::fault::PduFault;

/// The refusal of an association, in the standard's numbers.
#[derive(Clone, Copy, Debug, PartialEq, Eq, Hash, Drop)]
pub struct Reject {
    /// 1 is permanent, 2 transient.
    pub result: u8,
    pub source: u8,
    pub reason: u8,
}

pub(crate) fn reject_of(body: &[u8]) -> Result<Reject, PduFault>
    ensures { Gives result (reject_at body.now) }
{
    let [_, result, source, reason] = body else {
        return Err(PduFault::BadItem);
    };
    Ok(Reject {
        result: *result,
        source: *source,
        reason: *reason,
    })
}
