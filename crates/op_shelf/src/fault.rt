//! Why a shelf refuses.

ghost use Rattle.std.specs.Prelude.{◌≡◌};
ghost use Rattle.op_shelf.specs.declared.fault.ShelfFault.TheVariants.{Memory};
ghost use Rattle.op_shelf.specs.Fault.{number_of, cause_of, fault_of, fault_of_op};

use operation::OpFault;
use sqlite::{Error, ErrorCode};
use std::alloc::{AllocError, AllocFailed};
use thiserror::Error as Fault;

/// Why the database refused.
#[derive(Clone, Copy, Debug, PartialEq, Eq, Hash)]
pub enum StoreCause {
    /// There is no room on the disk, or in the file.
    Full,
    /// The disk failed.
    Failed,
    /// The disk failed before, which closed the database.
    Closed,
    /// What the file holds is no database, or not what was written.
    Damaged,
    /// It is another one, or the file is no shelf.
    Other,
}

/// Why a shelf did not do what it was asked for.
#[derive(Clone, Copy, Debug, PartialEq, Eq, Hash, Fault)]
pub enum ShelfFault {
    /// The database refused, for another cause than memory, or the file is no shelf.
    #[error("the database refused")]
    Store(StoreCause),
    /// A row is none of an operation under its digest.
    #[error("a row is none of an operation under its digest")]
    BadRow,
    /// Memory was refused.
    #[error("memory was refused")]
    Memory,
}

impl ShelfFault {
    /// The public number of the fault.
    pub fn number(self) -> u8
        ensures { result ≡ number_of self }
    {
        match self {
            ShelfFault::Store(_) => 1,
            ShelfFault::BadRow => 2,
            ShelfFault::Memory => 3,
        }
    }
}

impl From<AllocError> for ShelfFault {
    ghost from_gives = { λ _ e. e ≡ Memory };

    fn from(_error: AllocError) -> ShelfFault {
        ShelfFault::Memory
    }
}

impl<T: Drop> From<AllocFailed<T>> for ShelfFault {
    ghost from_gives = { λ _ e. e ≡ Memory };

    fn from(_error: AllocFailed<T>) -> ShelfFault {
        ShelfFault::Memory
    }
}

/// Why the database refused, by its code.
fn cause_of(code: ErrorCode) -> StoreCause
    ensures { result ≡ cause_of code }
{
    match code {
        ErrorCode::DiskFull => StoreCause::Full,
        ErrorCode::SystemIoFailure => StoreCause::Failed,
        ErrorCode::Closed => StoreCause::Closed,
        ErrorCode::DatabaseCorrupt => StoreCause::Damaged,
        ErrorCode::NotADatabase => StoreCause::Damaged,
        _ => StoreCause::Other,
    }
}

impl From<Error> for ShelfFault {
    ghost from_gives = { λ error e. e ≡ fault_of error };

    fn from(error: Error) -> ShelfFault {
        match error {
            Error::SqliteFailure(ErrorCode::OutOfMemory) => ShelfFault::Memory,
            Error::SqliteFailure(code) => ShelfFault::Store(cause_of(code)),
            _ => ShelfFault::Store(StoreCause::Other),
        }
    }
}

impl From<OpFault> for ShelfFault {
    ghost from_gives = { λ fault e. e ≡ fault_of_op fault };

    fn from(fault: OpFault) -> ShelfFault {
        match fault {
            OpFault::Memory => ShelfFault::Memory,
            _ => ShelfFault::BadRow,
        }
    }
}
