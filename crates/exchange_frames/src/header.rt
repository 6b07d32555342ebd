//! The header before each frame's body: its kind, and the body's length with the high byte first.

ghost use Rattle.std.specs.Prelude.{◌≡◌, ◌≤◌, IfOk};
ghost use Rattle.std.specs.Int.{w32, from_be_bytes};
ghost use Rattle.exchange_frames.specs.Header.{header_fault, header_of as header_by, header_at, header_text};

use crate::fault::FrameFault;
use std::marker::Model;

/// How many bytes stand before a body.
pub const HEADER_LENGTH: usize = 5;

/// The longest body that is read, in bytes: that of a GIVE of the longest operation.
pub const LONGEST_BODY: usize = 67_109_000;

pub(crate) const HAVE: u8 = 0x01;

pub(crate) const WANT: u8 = 0x02;

pub(crate) const GIVE: u8 = 0x03;

pub(crate) const END: u8 = 0x04;

pub(crate) const BUCKETS: u8 = 0x05;

pub(crate) const DIFFER: u8 = 0x06;

pub(crate) const HELLO: u8 = 0x07;

/// The kind of a frame, which is a known one, and the length of its body, which is short enough.
#[derive(Debug, Drop)]
pub struct FrameHeader {
    kind: u8,
    length: usize,
}

impl Model for FrameHeader {
    ghost use Rattle.std.specs.Prelude.{◌≡◌, None};
    ghost use Rattle.exchange_frames.specs.Header.{HeaderParts, header_fault};

    ghost Value = { HeaderParts };

    ghost view = { λ h. record { kind = h.kind; length = h.length } };

    ghost invariant = { λ h. header_fault h.kind h.length ≡ None };
}

impl FrameHeader {
    /// The kind of the frame, from 01 to 07.
    pub fn kind(&self) -> u8
        ensures { result ≡ self.now.kind }
    {
        self.kind
    }

    /// How many bytes stand behind the header.
    pub fn body_length(&self) -> usize
        ensures value { result ≡ self.now.length }
        ensures short { result ≤ LONGEST_BODY }
    {
        self.length
    }
}

/// The fault of a kind and a length, where they have one.
fn fault_of(kind: u8, length: usize) -> Option<FrameFault>
    ensures { result ≡ header_fault kind length }
{
    match kind {
        HAVE | WANT | GIVE | END | BUCKETS | DIFFER | HELLO => {
            if length > LONGEST_BODY {
                return Some(FrameFault::TooLong);
            }
            None
        }
        _ => Some(FrameFault::BadFrame),
    }
}

fn header_of(kind: u8, length: [u8; 4]) -> Result<FrameHeader, FrameFault>
    ensures { result ≡ header_by kind (from_be_bytes w32 length) }
{
    let length = u32::from_be_bytes(length) as usize;
    match fault_of(kind, length) {
        None => Ok(FrameHeader { kind, length }),
        Some(fault) => Err(fault),
    }
}

/// Reads a header, before any byte of its body. An unknown kind is `BadFrame`, and is told before a
/// length above `LONGEST_BODY`, which is `TooLong`.
pub fn read_frame_header(bytes: &[u8; 5]) -> Result<FrameHeader, FrameFault>
    ensures exact { result ≡ header_at bytes.now }
    ensures spelled { IfOk result (λ header. header_text header ≡ bytes.now) }
{
    header_of(bytes[0], [bytes[1], bytes[2], bytes[3], bytes[4]])
}
