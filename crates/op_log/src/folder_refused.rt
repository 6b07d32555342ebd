//! A log in a folder that was not opened.

use crate::folder_fault::FolderFault;
use sqlite_std_file::{FileFrom, Start};

/// Why the log in a folder was not opened, and its files, of heads and of data sets, where both
/// were opened.
#[derive(Drop)]
pub struct FolderRefused<H: Start, B: Start> {
    pub fault: FolderFault,
    pub files: Option<(FileFrom<H>, FileFrom<B>)>,
}
