//! How much a server takes of its machine, read from files that are handed in open.

use site_pages::Sizes;
use std::fs::File;
use std::os::unix::fs::FileExt;

/// The bytes of a page of memory, on the processors that programs are built for.
const PAGE: u64 = 4096;

/// Files that tell how much a server takes of its machine.
#[derive(Drop)]
pub struct Gauges {
    /// Linux's `/proc/self/statm`, where there is one.
    pub memory: Option<File>,
    /// The two files that the operations stand in, where they could be opened.
    pub store: Option<(File, File)>,
}

/// The second of some numbers with a space between each two.
fn second_number(text: &[u8]) -> Option<u64> {
    let Ok(text) = str::from_utf8(text) else {
        return None;
    };
    text.split(' ').nth(1)?.parse::<u64>().ok()
}

/// The bytes of memory that a process has resident, whose pages are told.
fn resident_in(memory: &File) -> Option<u64> {
    let mut text = [0; 256];
    match memory.read_at(&mut text, 0) {
        Ok(len) => Some(second_number(&text[..len])?.saturating_mul(PAGE)),
        Err(_unread) => None,
    }
}

fn length_of(file: &File) -> Option<u64> {
    match file.metadata() {
        Ok(found) => Some(found.len()),
        Err(_unread) => None,
    }
}

impl Gauges {
    /// How many bytes the process has resident.
    fn resident(&self) -> Option<u64> {
        match &self.memory {
            None => None,
            Some(memory) => resident_in(memory),
        }
    }

    /// How long its two files are together.
    fn stored(&self) -> Option<u64> {
        match &self.store {
            None => None,
            Some((first, second)) => Some(length_of(first)?.saturating_add(length_of(second)?)),
        }
    }

    /// How much it is now.
    pub(crate) fn sizes(&self) -> Sizes {
        Sizes {
            resident: self.resident(),
            stored: self.stored(),
        }
    }
}
