//! Frames as words.

use crate::associations::words::Words;
use crate::text::put_bytes;
use std::alloc::AllocError;

/// The name of a kind of frames (docs/DECISIONS.md, "Frames").
fn name_of(kind: u8) -> &'static str {
    match kind {
        1 => "HAVE",
        2 => "WANT",
        3 => "GIVE",
        4 => "END",
        5 => "BUCKETS",
        6 => "DIFFER",
        7 => "HELLO",
        _ => "no frame",
    }
}

/// Puts what stands at the front, and answers its length: a word that rows gave, or else the kind
/// of a frame and the length of its body, or bytes that are less than a header.
fn put_front(out: &mut String, words: &Words, bytes: &[u8]) -> Result<usize, AllocError> {
    let size = words.put_name(out, bytes)?;
    if size > 0 {
        return Ok(size);
    }
    let [kind, a, b, c, d, ..] = bytes else {
        put_bytes(out, bytes)?;
        return Ok(bytes.len());
    };
    let name = name_of(*kind);
    let size = u32::from_be_bytes([*a, *b, *c, *d]) as usize;
    write!(out, "{name} of {size} bytes")?;
    Ok(size.saturating_add(5))
}

/// Puts frames, each behind a space.
pub fn put_frames(out: &mut String, words: &Words, bytes: &[u8]) -> Result<(), AllocError> {
    let mut rest = bytes;
    for _ in 0..bytes.len() {
        if rest.is_empty() {
            break;
        }
        out.push(' ')?;
        let size = put_front(out, words, rest)?;
        rest = rest.get(size..).unwrap_or(&[]);
    }
    Ok(())
}
