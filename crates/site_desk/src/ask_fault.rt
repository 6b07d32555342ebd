//! Why a running site was asked in vain.

use crate::DeskFault;
use std::alloc::{AllocError, AllocFailed};
use thiserror::Error;

/// Why a running site was asked in vain.
#[derive(Clone, Copy, Debug, PartialEq, Eq, Error)]
pub enum AskFault {
    #[error("the connection broke off")]
    Broken,
    #[error("the answer is longer than is read")]
    TooLong,
    #[error("the answer is none of a site")]
    NoAnswer,
    #[error("there is no memory left")]
    Memory,
    /// The desk refused, for this reason. For `Unshown` alone the correction is stored.
    #[error("the desk refused")]
    Refused(DeskFault),
    /// The site cannot tell it now, as where memory is refused, or where it is busy: a page of
    /// status 503 (RFC 9110, section 15.6.4).
    #[error("the site cannot tell it now")]
    Unready,
    /// The desk could not say what came of the correction: memory was refused for its answer, which
    /// has the status 503 and no line. The correction may be made.
    #[error("the desk could not say what came of it")]
    Unsaid,
}

impl From<AllocError> for AskFault {
    ghost use Rattle.std.specs.Prelude.{◌≡◌};
    ghost use Rattle.site_desk.specs.declared.ask_fault.AskFault.TheVariants.{Memory};

    ghost from_gives = { λ _ e. e ≡ Memory };

    fn from(_error: AllocError) -> AskFault {
        AskFault::Memory
    }
}

impl<T: Drop> From<AllocFailed<T>> for AskFault {
    ghost use Rattle.std.specs.Prelude.{◌≡◌};
    ghost use Rattle.site_desk.specs.declared.ask_fault.AskFault.TheVariants.{Memory};

    ghost from_gives = { λ _ e. e ≡ Memory };

    fn from(_error: AllocFailed<T>) -> AskFault {
        AskFault::Memory
    }
}
