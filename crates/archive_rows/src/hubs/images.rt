//! The images that are stored.

use anyhow::Result;
use bytes::Bytes;
use operation::{Digested, decode};
use std::alloc::Global;

/// The study of the image of digit 0.
pub const FIRST_STUDY: &[u8] = b"1.2.10.0";

/// Its series.
pub const FIRST_SERIES: &[u8] = b"1.2.10.2.0";

/// The image.
pub const FIRST_IMAGE: &[u8] = b"1.2.10.1.0";

// The spelling of a CT image (docs/DECISIONS.md, "Spelling of operations"): behind each part stands
// the digit, by which its instance, study and series are told from those of others.
const PARTS: &[&[u8]] = &[
    b"\x01\x191.2.840.10008.5.1.4.1.1.2\x0a1.2.10.1.",
    b"\x01\x00\x00\x00\x7a\
      \x08\x00\x16\x00\x1a\x00\x00\x001.2.840.10008.5.1.4.1.1.2\x00\
      \x08\x00\x18\x00\x0a\x00\x00\x001.2.10.1.",
    b"\x08\x00\x60\x00\x02\x00\x00\x00CT\
      \x10\x00\x10\x00\x08\x00\x00\x00DOE^JANE\
      \x10\x00\x20\x00\x02\x00\x00\x00P1\
      \x20\x00\x0d\x00\x08\x00\x00\x001.2.10.",
    b"\x20\x00\x0e\x00\x0a\x00\x00\x001.2.10.2.",
];

/// The image of a digit.
pub fn image(alloc: Global, digit: u8) -> Result<Digested> {
    let mut text = Vec::new(alloc);
    for part in PARTS {
        text.extend_from_slice(part)?;
        text.push(digit)?;
    }
    Ok(Digested::of(decode(alloc, Bytes::from_vec(text)?)?))
}
