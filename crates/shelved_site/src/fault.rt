//! Why a site in a store refuses.

ghost use Rattle.std.specs.Prelude.{◌≡◌};
ghost use Rattle.shelved_site.specs.declared.fault.ShelvedFault.TheVariants.{Shelf, Site, Hub};

use op_shelf::ShelfFault;
use site_hub::HubFault;
use site_state::SiteFault;
use thiserror::Error;

/// Whose fault it was, and which.
#[derive(Clone, Copy, Debug, PartialEq, Eq, Hash, Error)]
pub enum ShelvedFault {
    /// The store did not show its operations, or did not keep one more.
    #[error("the store refused")]
    Shelf(ShelfFault),
    /// The operations of the store made no site, or memory for what is told of it was refused.
    #[error("the site refused")]
    Site(SiteFault),
    /// The hub made no correction.
    #[error("the hub refused")]
    Hub(HubFault),
    /// What can't be read may be a rejection note, and no hub was opened without it; or a
    /// correction, and none was made without it.
    #[error("what can't be read may be a rejection note, or a correction")]
    Hidden,
}

impl From<ShelfFault> for ShelvedFault {
    ghost from_gives = { λ fault e. e ≡ Shelf fault };

    fn from(fault: ShelfFault) -> ShelvedFault {
        ShelvedFault::Shelf(fault)
    }
}

impl From<SiteFault> for ShelvedFault {
    ghost from_gives = { λ fault e. e ≡ Site fault };

    fn from(fault: SiteFault) -> ShelvedFault {
        ShelvedFault::Site(fault)
    }
}

impl From<HubFault> for ShelvedFault {
    ghost from_gives = { λ fault e. e ≡ Hub fault };

    fn from(fault: HubFault) -> ShelvedFault {
        ShelvedFault::Hub(fault)
    }
}
