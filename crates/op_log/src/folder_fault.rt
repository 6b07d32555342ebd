//! Why a log in a folder is not opened.

ghost use Rattle.std.specs.Prelude.{◌≡◌};
ghost use Rattle.op_log.specs.declared.folder_fault.FolderFault.TheVariants.{System, Memory, Log};
ghost use Rattle.op_log.specs.Fault.{IsNoLog};

use crate::fault::LogFault;
use sqlite_std_file::OpenError;
use std::alloc::AllocError;
use std::io;
use thiserror::Error;

/// Why the log in a folder was not opened.
#[derive(Clone, Copy, Debug, Error)]
pub enum FolderFault {
    /// The system did not make, open or sync the folder or a file in it.
    #[error("{0}")]
    System(io::Error),
    /// The folder is open already.
    #[error("the folder is open already")]
    Busy,
    /// A journal of SQLite lies beside a file, so that it is none of a log.
    #[error("a journal lies beside a file of the folder")]
    Journal,
    /// The files are none of a log, or the disk refused.
    #[error("{0}")]
    Log(LogFault),
    /// Memory was refused.
    #[error("memory was refused")]
    Memory,
}

impl From<io::Error> for FolderFault {
    ghost from_gives = { λ error fault. fault ≡ System error };

    fn from(error: io::Error) -> FolderFault {
        FolderFault::System(error)
    }
}

impl From<AllocError> for FolderFault {
    ghost from_gives = { λ _ fault. fault ≡ Memory };

    fn from(_error: AllocError) -> FolderFault {
        FolderFault::Memory
    }
}

impl From<LogFault> for FolderFault {
    ghost from_gives = { λ told fault. fault ≡ Log told };

    fn from(told: LogFault) -> FolderFault {
        FolderFault::Log(told)
    }
}

impl From<OpenError> for FolderFault {
    ghost from_gives = { λ _ fault. IsNoLog fault };

    fn from(error: OpenError) -> FolderFault {
        match error {
            OpenError::Io(error) => FolderFault::System(error),
            OpenError::OutOfMemory => FolderFault::Memory,
            OpenError::Busy => FolderFault::Busy,
            OpenError::HotJournal => FolderFault::Journal,
        }
    }
}
