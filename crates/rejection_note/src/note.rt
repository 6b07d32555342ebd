//! What a rejection note says.

ghost use Rattle.std.specs.Prelude.{◌≡◌, ◌↔◌, IfOk, IsTrue};

use crate::title::NoteTitle;
use octets::{ListOf, Octets};
use std::alloc::{AllocError, Global};

/// The title of a rejection note and the instance UIDs that it covers, ascending, each once.
#[derive(Debug, Drop)]
pub struct Note {
    pub title: NoteTitle,
    pub covers: ListOf<Octets>,
}

fn copies_of(alloc: Global, uids: &[Octets]) -> Result<Vec<Octets>, AllocError>
    ensures { IfOk result (λ copies. copies.items ≡ uids.now) }
{
    let mut copies = Vec::with_capacity(alloc, uids.len())?;
    for uid in uids {
        copies.push(uid.copy(alloc)?)?;
    }
    Ok(copies)
}

fn same_uids(these: &[Octets], those: &[Octets]) -> bool
    ensures { IsTrue result ↔ (these.now ≡ those.now) }
{
    these == those
}

impl Note {
    /// A second owner of the same note.
    pub fn copy(&self, alloc: Global) -> Result<Note, AllocError>
        ensures { IfOk result (λ copy. copy ≡ self.now) }
    {
        Ok(Note {
            title: self.title,
            covers: ListOf::of(copies_of(alloc, self.covers.as_slice())?),
        })
    }

    /// Whether both are one note.
    pub fn equals(&self, other: &Note) -> bool
        ensures { IsTrue result ↔ (self.now ≡ other.now) }
    {
        self.title == other.title && same_uids(self.covers.as_slice(), other.covers.as_slice())
    }
}
