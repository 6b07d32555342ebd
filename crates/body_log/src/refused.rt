//! A file that was not opened.

use crate::fault::BodyFault;

/// Why a file was not opened, and the file.
#[derive(Drop)]
pub struct Refused<D> {
    pub fault: BodyFault,
    pub disk: D,
}
