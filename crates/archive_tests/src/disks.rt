//! Disks that stop at some call.

use sqlite_disk::{Crash, Disk, Fuse, Memory};
use std::alloc::Global;
use std::test::Fail;

/// A disk that is frozen after so many calls.
pub(crate) trait Stops: Crash + Drop {
    /// One that holds these bytes, which are synced.
    fn holding(alloc: Global, bytes: &[u8], calls: u64) -> Result<Self, Fail>;

    fn bytes(&self) -> &[u8];
}

impl Stops for Fuse<Memory> {
    fn holding(alloc: Global, bytes: &[u8], calls: u64) -> Result<Fuse<Memory>, Fail> {
        let mut disk = Memory::new(alloc);
        disk.write_at(0, bytes)?;
        disk.sync()?;
        Ok(Fuse::new(disk, calls))
    }

    fn bytes(&self) -> &[u8] {
        self.inner().bytes()
    }
}
