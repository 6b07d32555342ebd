//! The value that corrections give an attribute of an instance (PS3.4, section B.4.1).

ghost use Rattle.std.specs.Prelude.{◌≡◌, ◌≤◌, length, IfOk};
ghost use Rattle.archive_model.specs.Change.{IsChange, checked_change};

use data_set::correction_vr;
use octets::Octets;
use std::alloc::{AllocError, Global};
use std::marker::Model;

/// An attribute that a correction may give a value (docs/DECISIONS.md, "Corrections"), and a value
/// of at most 64 bytes for it.
#[derive(Debug, Drop)]
pub struct Change {
    tag: u32,
    value: Octets,
}

impl Model for Change {
    ghost use Rattle.std.specs.Prelude.{List, ℕ};
    ghost use Rattle.archive_model.specs.Change.{IsChange};

    ghost Value = { ℕ × List ℕ };

    ghost view = { λ c. (c.tag, c.value) };

    ghost invariant = { λ c. IsChange (c.tag, c.value) };
}

impl Change {
    /// The change of an attribute to a value, or `None` where no correction may give it one: the
    /// attribute is none that may be corrected, or the value has more than 64 bytes.
    pub fn of(alloc: Global, tag: u32, value: &[u8]) -> Result<Option<Change>, AllocError>
        ensures { IfOk result (λ change. change ≡ checked_change tag value.now) }
    {
        if correction_vr(tag).is_none() || value.len() > 64 {
            return Ok(None);
        }
        let value = Octets::from_slice(alloc, value)?;
        Ok(Some(Change { tag, value }))
    }

    pub fn tag(&self) -> u32
        ensures { result ≡ self.now.0 }
    {
        self.tag
    }

    pub fn value(&self) -> &[u8]
        ensures value { result.now ≡ self.now.1 }
        ensures short { length result.now ≤ 64 }
        ensures change { IsChange self.now }
    {
        self.value.as_slice()
    }
}
