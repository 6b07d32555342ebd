//! Why a hub refuses.

ghost use Rattle.std.specs.Prelude.{◌≡◌};
ghost use Rattle.site_hub.specs.Fault.{number_of};

use thiserror::Error;

/// Why a call of a hub was refused.
#[derive(Clone, Copy, Debug, PartialEq, Eq, Hash, Error)]
pub enum HubFault {
    /// No place for a reader was free, or what is published is not what may be looked at or added
    /// to.
    #[error("a place or an entry was refused")]
    Busy,
    /// An equal digest is held with another operation.
    #[error("an equal digest is held with another operation")]
    Collision,
    #[error("memory ran out")]
    Memory,
    /// A correction with the last counter is held.
    #[error("the last counter is used")]
    StampsSpent,
    /// A pass is missing, or the passes' own lists are not the history's.
    #[error("the passes and the history disagree")]
    Torn,
    /// The operation has its place in the history, and a later call publishes it.
    #[error("the operation is not published yet")]
    Pending,
    /// The correction has a part that it may not have.
    #[error("the correction has a part that it may not have")]
    BadCorrection,
}

impl HubFault {
    /// The public number of the fault, from 1 to 7.
    pub fn number(self) -> u8
        ensures { result ≡ number_of self }
    {
        match self {
            HubFault::Busy => 1,
            HubFault::Collision => 2,
            HubFault::Memory => 3,
            HubFault::StampsSpent => 4,
            HubFault::Torn => 5,
            HubFault::Pending => 6,
            HubFault::BadCorrection => 7,
        }
    }
}
