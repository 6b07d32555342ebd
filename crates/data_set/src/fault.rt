//! Why a text is no data set.

ghost use Rattle.std.specs.Prelude.{◌≡◌};
ghost use Rattle.data_set.specs.declared.fault.SetFault.TheVariants.{Memory};
ghost use Rattle.data_set.specs.Fault.{number_of};

use std::alloc::{AllocError, AllocFailed};
use thiserror::Error;

/// The fault of the first element that offends, and want of memory.
///
/// Within one element the order is `Truncated` (its header), `Order`, `Group`, `BadVr`,
/// `Undefined`, `Depth`, `Truncated` (its value). An item's header counts as an element's.
#[derive(Clone, Copy, Debug, PartialEq, Eq, Drop, Error)]
pub enum SetFault {
    /// A header, a value or an end is cut short, or a length overruns its place.
    #[error("a header, a value or an end is cut short")]
    Truncated,
    /// A tag does not come after the one before, or has no place where it stands.
    #[error("a tag is out of its order or place")]
    Order,
    /// An item stands in more than 16 sequences.
    #[error("more than 16 sequences stand around an item")]
    Depth,
    /// A length is undefined where it may not be, or pixel data is a sequence.
    #[error("a length is undefined where it may not be")]
    Undefined,
    /// A value representation is no two capital letters, or not one that its tag may have.
    #[error("a value representation is none, or not one of its tag")]
    BadVr,
    /// A tag of group 0000 or 0002.
    #[error("the group 0000 or 0002 has no place in a data set")]
    Group,
    /// Memory was refused: no fault of the text.
    #[error("memory was refused")]
    Memory,
}

impl SetFault {
    /// The public number of the fault, from 1 to 7.
    pub fn number(self) -> u8
        ensures { result ≡ number_of self }
    {
        match self {
            SetFault::Truncated => 1,
            SetFault::Order => 2,
            SetFault::Depth => 3,
            SetFault::Undefined => 4,
            SetFault::BadVr => 5,
            SetFault::Group => 6,
            SetFault::Memory => 7,
        }
    }
}

impl From<AllocError> for SetFault {
    ghost from_gives = { λ _ e. e ≡ Memory };

    fn from(_e: AllocError) -> SetFault {
        SetFault::Memory
    }
}

impl<T: Drop> From<AllocFailed<T>> for SetFault {
    ghost from_gives = { λ _ e. e ≡ Memory };

    fn from(_e: AllocFailed<T>) -> SetFault {
        SetFault::Memory
    }
}
