//! Why an identifier says no query.

ghost use Rattle.std.specs.Prelude.{◌≡◌};
ghost use Rattle.archive_model.specs.Fault.{number_of};

use std::alloc::{AllocError, AllocFailed};
use thiserror::Error;

/// Why an identifier says no query (docs/DECISIONS.md, "Queries").
#[derive(Clone, Copy, Debug, PartialEq, Eq, Error)]
pub enum QueryFault {
    #[error("the level is none of STUDY, SERIES and IMAGE")]
    NoLevel,
    #[error("a unique key above the level is not one UID")]
    MissingUpperKey,
    #[error("a key has no form that its matching has")]
    BadKey,
    #[error("there is no memory left")]
    Memory,
}

impl QueryFault {
    /// The public number of the fault.
    pub fn number(self) -> u8
        ensures { result ≡ number_of self }
    {
        match self {
            QueryFault::NoLevel => 1,
            QueryFault::MissingUpperKey => 2,
            QueryFault::BadKey => 3,
            QueryFault::Memory => 4,
        }
    }
}

impl From<AllocError> for QueryFault {
    ghost use Rattle.archive_model.specs.declared.fault.QueryFault.TheVariants.{Memory};

    ghost from_gives = { λ _ e. e ≡ Memory };

    fn from(_error: AllocError) -> QueryFault {
        QueryFault::Memory
    }
}

impl<T: Drop> From<AllocFailed<T>> for QueryFault {
    ghost use Rattle.archive_model.specs.declared.fault.QueryFault.TheVariants.{Memory};

    ghost from_gives = { λ _ e. e ≡ Memory };

    fn from(_error: AllocFailed<T>) -> QueryFault {
        QueryFault::Memory
    }
}
