//! The words of a line.

ghost use Rattle.std.specs.Prelude.{◌≡◌, ◌++◌, [], IfOk, OnOk, map};
ghost use Rattle.site_script.specs.Words.{a_word, words_of as words_of_line, uid_in as uid_in_word};

use octets::Octets;
use std::alloc::{AllocError, Global};

/// Ends a word, unless none has begun.
fn end_word(alloc: Global, front: &mut Vec<u8>, words: &mut Vec<Octets>) -> Result<(), AllocError>
    ensures added { OnOk result (words.new.items ≡ words.old.items ++ a_word front.old.items) }
    ensures empty { OnOk result (front.new.items ≡ []) }
{
    if front.is_empty() {
        return Ok(());
    }
    words.push(Octets::from_slice(alloc, front.as_slice())?)?;
    front.clear();
    Ok(())
}

/// The words of a line, which are separated by spaces.
pub fn words_of(alloc: Global, line: &[u8]) -> Result<Vec<Octets>, AllocError>
    ensures { IfOk result (λ words. words.items ≡ words_of_line line.now) }
{
    let mut front = Vec::new(alloc);
    let mut words = Vec::new(alloc);
    for byte in line {
        if *byte == b' ' {
            end_word(alloc, &mut front, &mut words)?;
        } else {
            front.push(*byte)?;
        }
    }
    end_word(alloc, &mut front, &mut words)?;
    Ok(words)
}

/// A UID without the 00 bytes at its end.
pub fn uid_in(alloc: Global, word: &Octets) -> Result<Octets, AllocError>
    ensures { IfOk result (λ uid. uid ≡ uid_in_word word.now) }
{
    let bytes = word.as_slice();
    let mut end = bytes.len();
    while end > 0 && bytes[end - 1] == 0 {
        end -= 1;
    }
    Octets::from_slice(alloc, &bytes[..end])
}

/// The same, of each of some words.
pub fn uids_in(alloc: Global, words: &[Octets]) -> Result<Vec<Octets>, AllocError>
    ensures { IfOk result (λ uids. uids.items ≡ map uid_in_word words.now) }
{
    let mut uids = Vec::with_capacity(alloc, words.len())?;
    for word in words {
        uids.push(uid_in(alloc, word)?)?;
    }
    Ok(uids)
}
