//! Operations that can't be read.

ghost use Rattle.std.specs.Prelude.{◌≡◌, ◌↔◌, [], All, map, IfOk, IsTrue};
ghost use Rattle.op_log.specs.Records.{head_in};
ghost use Rattle.shelved_site.specs.Readable.{IsNoNote, may_hide as may_hide_in, unread_in, unread_of};
ghost use Rattle.shelved_site.specs.Verifying.{damage_of};

use op_log::Record;
use op_shelf::Damaged;
use records::RecordedOp;
use std::alloc::{AllocError, Global};

/// An operation whose bytes are none of its digest, or that the disk does not read.
#[derive(Debug, Drop)]
pub struct Unreadable {
    /// Its digest and its SOP Instance UID, as far as they are known.
    pub damaged: Damaged,
    /// At which byte of `bodies` its data set lies, where it is one of a folder.
    pub place: Option<usize>,
    /// Whether it may be a rejection note.
    pub may_hide: bool,
}

/// What can be read of a store, and what can't.
#[derive(Drop)]
pub struct Readable {
    /// The records of all operations that can be read.
    pub recorded: Vec<RecordedOp>,
    /// What is told of the others.
    pub unreadable: Vec<Unreadable>,
}

/// How the spelling of each rejection note begins: it is a content whose SOP class is Key Object
/// Selection Document Storage (PS3.4, section B.5).
const NOTE: &[u8] = b"\x01\x1d1.2.840.10008.5.1.4.1.1.88.59";

/// Whether an operation whose spelling begins so may be a rejection note.
fn may_hide(front: &[u8]) -> bool
    ensures { result ≡ may_hide_in front.now }
{
    front.starts_with(NOTE)
}

/// What is told of a head whose data set is none of its own.
pub(crate) fn damage_of_head(alloc: Global, head: &Record<'_>) -> Result<Damaged, AllocError>
    ensures { IfOk result (λ damaged. damaged ≡ damage_of (head_in head.now)) }
{
    let digest = head.digest.text(alloc)?;
    Damaged::of(alloc, digest.as_bytes(), head.front)
}

impl Readable {
    /// That all operations can be read, which have these records.
    pub(crate) fn whole(alloc: Global, recorded: Vec<RecordedOp>) -> Readable
        ensures recorded { result.recorded.items ≡ recorded.items }
        ensures none { result.unreadable.items ≡ [] }
    {
        Readable {
            recorded,
            unreadable: Vec::new(alloc),
        }
    }
}

impl Unreadable {
    /// What is told of an operation that has this head.
    pub(crate) fn of_head(alloc: Global, head: &Record<'_>) -> Result<Unreadable, AllocError>
        ensures { IfOk result (λ unread. unread ≡ unread_of (head_in head.now)) }
    {
        let may_hide = may_hide(head.front);
        Ok(Unreadable {
            damaged: damage_of_head(alloc, head)?,
            place: Some(head.at),
            may_hide,
        })
    }

    /// What is told of a row of a shelf, which may be any operation.
    pub(crate) fn of_row(damaged: Damaged) -> Unreadable
        ensures { result ≡ unread_in damaged }
    {
        Unreadable {
            damaged,
            place: None,
            may_hide: true,
        }
    }
}

/// What is told of rows of a shelf, in their order.
pub(crate) fn of_rows(alloc: Global, damaged: Vec<Damaged>) -> Result<Vec<Unreadable>, AllocError>
    ensures { IfOk result (λ told. told.items ≡ map unread_in damaged.items) }
{
    let mut told = Vec::new(alloc);
    for one in damaged {
        told.push(Unreadable::of_row(one))?;
    }
    Ok(told)
}

/// Whether each of some operations that can't be read is known to be no rejection note.
pub(crate) fn hide_nothing(unreadable: &[Unreadable]) -> bool
    ensures { IsTrue result ↔ All IsNoNote unreadable.now }
{
    unreadable.iter().all(|one| !one.may_hide)
}
