//! What a site lends.

ghost use Rattle.std.specs.Prelude.{◌≡◌};
ghost use Rattle.std.specs.FinMap as finmap;

use crate::site::Site;
use operation::Digest;
use records::RecordedOp;
use std::collections::BTreeMap;

impl Site {
    /// The operations under their digests, ascending, as they stand.
    pub fn tree(&self) -> &BTreeMap<Digest, RecordedOp>
        ensures { result.now.entries ≡ finmap.entries self.now }
    {
        let _ = self.operations.len();
        &self.operations
    }
}
