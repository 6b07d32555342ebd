//! How many operations a site has held, as a file beside its archive tells.
//!
//! An older copy in the place of an archive's file is whole, as is one that was cut between two
//! groups: no sum tells. What this file tells is a lower bound. It is written where an association
//! or an exchange has ended that brought operations which the site did not hold, and not synced:
//! what is lost of it by a crash makes it lower.

ghost use Rattle.std.specs.Prelude.{◌≡◌, IfOk};
ghost use Rattle.archive_server.specs.Held.{held_text};

use octets::put_digits;
use std::alloc::{AllocError, Global};
use std::fs::File;
use std::os::unix::fs::FileExt;
use std::sync::{Mutex, Wait};

/// What the file says of so many: the number in a line, and the same line once more, so that a disk
/// that changes one of them is seen. No text of a greater number is shorter.
pub fn text_of_held(alloc: Global, count: u64) -> Result<Vec<u8>, AllocError>
    ensures { IfOk result (λ text. text.items ≡ held_text count) }
{
    let mut out = Vec::new(alloc);
    put_digits(alloc, &mut out, count)?;
    out.push(b'\n')?;
    put_digits(alloc, &mut out, count)?;
    out.push(b'\n')?;
    Ok(out)
}

/// The open file, which says so many.
#[derive(Drop)]
pub struct Held {
    file: File,
    count: Mutex<u64>,
}

impl Held {
    pub fn new(file: File, count: u64) -> Held {
        Held {
            file,
            count: Mutex::new(count),
        }
    }

    /// So many operations more are held. Where that can't be written, less is told.
    pub(crate) fn add<S: Wait>(&self, rt: &S, alloc: Global, more: u64) {
        if more == 0 {
            return;
        }
        let mut count = self.count.lock(rt);
        *count = (*count).saturating_add(more);
        if let Ok(text) = text_of_held(alloc, *count) {
            let _ = self.file.write_all_at(text.as_slice(), 0);
        }
    }
}
