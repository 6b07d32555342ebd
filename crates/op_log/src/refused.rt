//! Two files that were not opened.

ghost use Rattle.std.specs.Prelude.{◌≡◌};
ghost use Rattle.op_log.specs.Fault.{fault_of_bodies, fault_of_heads};

use crate::fault::LogFault;
use body_log::Refused as RefusedBodies;
use head_log::Refused as RefusedHeads;

/// Why two files were not opened, and the files.
#[derive(Drop)]
pub struct Refused<H, B> {
    pub fault: LogFault,
    /// The file of heads.
    pub heads: H,
    /// The file of data sets.
    pub bodies: B,
}

/// The file of heads was refused.
pub(crate) fn refused_heads<H, B>(refused: RefusedHeads<H>, bodies: B) -> Refused<H, B>
    ensures fault { result.fault ≡ fault_of_heads refused.fault }
    ensures heads { result.heads ≡ refused.disk }
    ensures bodies { result.bodies ≡ bodies }
{
    let RefusedHeads { fault, disk } = refused;
    Refused {
        fault: LogFault::from(fault),
        heads: disk,
        bodies,
    }
}

/// The file of data sets was refused.
pub(crate) fn refused_bodies<H, B>(heads: H, refused: RefusedBodies<B>) -> Refused<H, B>
    ensures fault { result.fault ≡ fault_of_bodies refused.fault }
    ensures heads { result.heads ≡ heads }
    ensures bodies { result.bodies ≡ refused.disk }
{
    let RefusedBodies { fault, disk } = refused;
    Refused {
        fault: LogFault::from(fault),
        heads,
        bodies: disk,
    }
}
