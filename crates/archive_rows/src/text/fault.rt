//! Why words are no row.

use hex::FromHexError;
use std::alloc::{AllocError, AllocFailed};
use std::num::ParseIntError;
use thiserror::Error;

#[derive(Clone, Copy, Debug, PartialEq, Eq, Error)]
pub enum RowFault {
    #[error("a word spells no bytes")]
    BadWord,
    #[error("out of memory")]
    Memory,
}

impl From<AllocError> for RowFault {
    fn from(_error: AllocError) -> Self {
        RowFault::Memory
    }
}

impl<T: Drop> From<AllocFailed<T>> for RowFault {
    fn from(_error: AllocFailed<T>) -> Self {
        RowFault::Memory
    }
}

impl From<FromHexError> for RowFault {
    fn from(error: FromHexError) -> Self {
        match error {
            FromHexError::OutOfMemory => RowFault::Memory,
            _ => RowFault::BadWord,
        }
    }
}

impl From<ParseIntError> for RowFault {
    fn from(_error: ParseIntError) -> Self {
        RowFault::BadWord
    }
}
