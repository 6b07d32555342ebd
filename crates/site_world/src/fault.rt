//! Why a world refuses a step.

ghost use Rattle.std.specs.Prelude.{◌≡◌};
ghost use Rattle.site_world.specs.Faults.{number_of_world_fault};

use site_state::SiteFault;
use std::alloc::{AllocError, AllocFailed};
use thiserror::Error;

/// Why a step was not done. It changed nothing.
///
/// Where several hold, the first is told: `NoSite`, `NoMessage`, `BadCorrection`, `StampsSpent`,
/// `OldSite`, `Site`.
#[derive(Clone, Copy, Debug, PartialEq, Eq, Error)]
pub enum WorldFault {
    /// The world has no site of this number, or no more than 16 sites.
    #[error("there is no such site")]
    NoSite,
    #[error("there is no such message")]
    NoMessage,
    #[error("the site refused: {0}")]
    Site(SiteFault),
    /// The site holds a correction of counter 18,446,744,073,709,551,615.
    #[error("no stamp comes after those of the site")]
    StampsSpent,
    #[error("memory ran out")]
    Memory,
    #[error("the correction is none that may be made")]
    BadCorrection,
    /// The site knows no corrections of series; or it took something, or a message was sent from or
    /// to it, so that it can't be made such a site.
    #[error("the site is, or can't be made, one that knows no corrections of series")]
    OldSite,
}

impl WorldFault {
    /// The public number of the fault, from 1 to 7.
    pub fn number(self) -> u8
        ensures { result ≡ number_of_world_fault self }
    {
        match self {
            WorldFault::NoSite => 1,
            WorldFault::NoMessage => 2,
            WorldFault::Site(_) => 3,
            WorldFault::StampsSpent => 4,
            WorldFault::Memory => 5,
            WorldFault::BadCorrection => 6,
            WorldFault::OldSite => 7,
        }
    }
}

impl From<AllocError> for WorldFault {
    ghost use Rattle.std.specs.Prelude.{◌≡◌};
    ghost use Rattle.site_world.specs.declared.fault.WorldFault.TheVariants.{Memory};

    ghost from_gives = { λ _ e. e ≡ Memory };

    fn from(_error: AllocError) -> WorldFault {
        WorldFault::Memory
    }
}

impl<T: Drop> From<AllocFailed<T>> for WorldFault {
    ghost use Rattle.std.specs.Prelude.{◌≡◌};
    ghost use Rattle.site_world.specs.declared.fault.WorldFault.TheVariants.{Memory};

    ghost from_gives = { λ _ e. e ≡ Memory };

    fn from(_error: AllocFailed<T>) -> WorldFault {
        WorldFault::Memory
    }
}
