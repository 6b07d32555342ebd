//! Operations that are kept.

use bytes::Bytes;
use operation::{Digested, Op, decode};
use std::alloc::Global;
use std::test::Fail;

// The spelling of an image of series 1.2.14.1, up to the last letter of its Patient ID and behind
// it (docs/DECISIONS.md, "Spelling of operations").
const IMAGE: (&[u8], &[u8]) = (
    b"\x01\x191.2.840.10008.5.1.4.1.1.2\x0a1.2.14.1.1\x01\x00\x00\x00\x5c\
    \x08\x00\x16\x00\x1a\x00\x00\x001.2.840.10008.5.1.4.1.1.2\x00\
    \x08\x00\x18\x00\x0a\x00\x00\x001.2.14.1.1\
    \x10\x00\x20\x00\x02\x00\x00\x00P",
    b"\x20\x00\x0d\x00\x06\x00\x00\x001.2.14\
    \x20\x00\x0e\x00\x08\x00\x00\x001.2.14.1",
);

// That of a correction of study 1.2.1, of (0010,0010), up to the last letter of its value, and its
// stamp behind it: counter 1, site 1.
const CORRECTION: (&[u8], &[u8]) = (
    b"\x02\x01\x051.2.1\x00\x10\x00\x10\x00\x07ROE^AN",
    b"\x00\x00\x00\x00\x00\x00\x00\x01\x00\x01",
);

/// An operation of a letter.
fn op(alloc: Global, spelling: (&[u8], &[u8]), letter: u8) -> Result<Op, Fail> {
    let mut text = Vec::from_slice(alloc, spelling.0)?;
    text.push(letter)?;
    text.extend_from_slice(spelling.1)?;
    Ok(decode(alloc, Bytes::from_vec(text)?)?)
}

/// An operation for each letter, each third of which is a correction and has no data set.
pub(crate) fn ops(alloc: Global, letters: &[u8]) -> Result<Vec<Digested>, Fail> {
    let mut ops = Vec::new(alloc);
    for letter in letters {
        let spelling = if letter % 3 == 1 { CORRECTION } else { IMAGE };
        ops.push(Digested::of(op(alloc, spelling, *letter)?))?;
    }
    Ok(ops)
}
