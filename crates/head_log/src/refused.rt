//! A file that was not opened.

use crate::fault::HeadFault;

/// Why a file was not opened, and the file.
#[derive(Drop)]
pub struct Refused<D> {
    pub fault: HeadFault,
    pub disk: D,
}
