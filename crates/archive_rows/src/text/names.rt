//! What the words of a row name.

use crate::text::{RowFault, bytes_of};
use data_set::Syntax;
use octets::Octets;
use operation::Target;
use std::alloc::Global;

/// The first word, and those behind it.
pub fn parted(words: &str) -> (&str, &str) {
    words.split_once(' ').unwrap_or((words, ""))
}

/// The bytes of a word.
pub fn octets_of(alloc: Global, word: &str) -> Result<Octets, RowFault> {
    Ok(Octets::of(bytes_of(alloc, word)?))
}

/// A byte in decimal digits.
pub fn byte_of(word: &str) -> Result<u8, RowFault> {
    Ok(word.parse::<u8>()?)
}

/// A tag in eight hexadecimal digits.
pub fn tag_of(word: &str) -> Result<u32, RowFault> {
    Ok(u32::from_str_radix(word, 16)?)
}

pub fn syntax_of(word: &str) -> Syntax {
    match word {
        "explicit" => Syntax::Explicit,
        _ => Syntax::Implicit,
    }
}

pub fn target_of(alloc: Global, kind: &str, key: &str) -> Result<Target, RowFault> {
    let key = octets_of(alloc, key)?;
    match kind {
        "study" => Ok(Target::Study(key)),
        "series" => Ok(Target::Series(key)),
        "patient" => Ok(Target::Patient(key)),
        _ => Err(RowFault::BadWord),
    }
}
