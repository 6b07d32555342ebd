//! A second copy of a site.

ghost use Rattle.std.specs.Prelude.{◌≡◌, IfOk};

use crate::site::Site;
use std::alloc::{AllocError, Global};

impl Site {
    /// A second owner of the same operations, with their index. The bytes of data sets are shared,
    /// and nothing is hashed.
    pub fn copy(&self, alloc: Global) -> Result<Site, AllocError>
        ensures { IfOk result (λ copy. copy ≡ self.now) }
    {
        let mut copy = Site::new(alloc);
        match copy.merge(self) {
            Ok(()) => Ok(copy),
            Err(_refused) => Err(AllocError),
        }
    }
}
