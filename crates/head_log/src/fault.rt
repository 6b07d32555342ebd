//! Why a log of groups refuses.

ghost use Rattle.std.specs.Prelude.{◌≡◌};
ghost use Rattle.head_log.specs.declared.fault.HeadFault.TheVariants.{Disk, Memory};
ghost use Rattle.head_log.specs.Fault.{number_of};

use std::alloc::AllocError;
use std::io;
use thiserror::Error;

/// Why a log of groups did not do what it was asked for.
#[derive(Clone, Copy, Debug, PartialEq, Eq, Hash, Error)]
pub enum HeadFault {
    /// The disk refused.
    #[error("the disk refused")]
    Disk,
    /// A sync has failed, or a gate may be open before what was to be written: the file has to be
    /// opened anew.
    #[error("the file has to be opened anew")]
    Closed,
    /// A group is longer than is written, or the file.
    #[error("the group or the file is too long")]
    TooLong,
    /// No whole group with its sum stands at this byte of the file, where one has to.
    #[error("the group at byte {0} is damaged")]
    Damaged(usize),
    /// Memory was refused.
    #[error("memory was refused")]
    Memory,
}

impl HeadFault {
    /// The public number of the fault.
    pub fn number(self) -> u8
        ensures { result ≡ number_of self }
    {
        match self {
            HeadFault::Disk => 1,
            HeadFault::Closed => 2,
            HeadFault::TooLong => 3,
            HeadFault::Damaged(_) => 4,
            HeadFault::Memory => 5,
        }
    }
}

impl From<io::Error> for HeadFault {
    ghost from_gives = { λ _ fault. fault ≡ Disk };

    fn from(_error: io::Error) -> HeadFault {
        HeadFault::Disk
    }
}

impl From<AllocError> for HeadFault {
    ghost from_gives = { λ _ fault. fault ≡ Memory };

    fn from(_error: AllocError) -> HeadFault {
        HeadFault::Memory
    }
}
