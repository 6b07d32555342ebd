//! The header of a log.

ghost use Rattle.std.specs.Prelude.{◌≡◌, ◌≤◌, ◌↔◌, length, IsTrue};
ghost use Rattle.sqlite_wal.specs.Format.{IsSigned};
ghost use Rattle.sqlite_wal.specs.Recovery.{header};
ghost use Rattle.wal_tail.specs.Header.{IsHeaderLost, is_reset};

use crate::numbers::{number_at, sum_at};
use sqlite_wal::checksum_of;

/// How long a log's header is, in bytes.
pub(crate) const HEADER_LENGTH: usize = 32;

/// How long a frame's header is, in bytes.
pub(crate) const FRAME_HEADER_LENGTH: usize = 24;

/// The version of the format, which each header has.
const VERSION: u32 = 3_007_000;

/// Whether 32 bytes begin with the magic number and end with their checksum.
pub(crate) fn is_signed(head: &[u8]) -> bool
    requires { length head.now ≡ 32 }
    ensures { IsTrue result ↔ IsSigned head.now }
{
    if head[0] != 0x37 || head[1] != 0x7f || head[2] != 0x06 {
        return false;
    }
    if head[3] != 0x82 && head[3] != 0x83 {
        return false;
    }
    checksum_of(head[3] == 0x83, (0, 0), &head[..24]) == sum_at(head, 24)
}

/// Whether a crash may have left this header while the log was emptied: its first byte is written
/// last, and the version stays.
fn is_reset(head: &[u8]) -> bool
    requires { length head.now ≡ 32 }
    ensures { result ≡ is_reset head.now }
{
    head[0] == 0 && number_at(head, 4) == VERSION
}

/// The header of a log.
pub(crate) fn head_of(log: &[u8]) -> &[u8]
    requires { 32 ≤ length log.now }
    ensures head { result.now ≡ header log.now }
    ensures long { length result.now ≡ 32 }
{
    &log[..HEADER_LENGTH]
}

/// Whether a log has frames, and a header of which neither a writer nor a crash would leave the
/// bytes: all of it is passed by, and an open may cut it off.
pub fn is_header_lost(log: &[u8]) -> bool
    ensures { IsTrue result ↔ IsHeaderLost log.now }
{
    if log.len() < HEADER_LENGTH + FRAME_HEADER_LENGTH {
        return false;
    }
    let head = head_of(log);
    if is_signed(head) {
        return false;
    }
    !is_reset(head)
}
