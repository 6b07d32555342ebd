//! Why a log of bodies refuses.

ghost use Rattle.std.specs.Prelude.{◌≡◌};
ghost use Rattle.body_log.specs.declared.fault.BodyFault.TheVariants.{Disk};
ghost use Rattle.body_log.specs.Fault.{number_of};

use std::io;
use thiserror::Error;

/// Why a log of bodies did not do what it was asked for.
#[derive(Clone, Copy, Debug, PartialEq, Eq, Hash, Error)]
pub enum BodyFault {
    /// The disk refused.
    #[error("the disk refused")]
    Disk,
    /// A sync has failed, and what was written since the one before may be lost.
    #[error("a sync of the file has failed")]
    Closed,
    /// A file has no such offset.
    #[error("the file is as long as a file may be")]
    TooLong,
}

impl BodyFault {
    /// The public number of the fault.
    pub fn number(self) -> u8
        ensures { result ≡ number_of self }
    {
        match self {
            BodyFault::Disk => 1,
            BodyFault::Closed => 2,
            BodyFault::TooLong => 3,
        }
    }
}

impl From<io::Error> for BodyFault {
    ghost from_gives = { λ _ fault. fault ≡ Disk };

    fn from(_error: io::Error) -> BodyFault {
        BodyFault::Disk
    }
}
