//! The frames of a log.

ghost use Rattle.std.specs.Prelude.{◌≡◌, ◌≤◌, ◌↔◌, length, IsTrue};
ghost use Rattle.sqlite_wal.specs.Format.{IsFrame, part};
ghost use Rattle.wal_tail.specs.Tail.{is_own, is_own_commit};

use crate::numbers::{number_at, sum_at};
use sqlite_wal::checksum_of;

/// Whether a frame is valid under a header, behind a checksum.
pub(crate) fn is_frame(head: &[u8], before: (u32, u32), frame: &[u8]) -> bool
    requires head { length head.now ≡ 32 }
    requires frame { 24 ≤ length frame.now }
    ensures { IsTrue result ↔ IsFrame head.now before frame.now }
{
    if frame[8..16] != head[16..24] || number_at(frame, 0) == 0 {
        return false;
    }
    let big = head[3] == 0x83;
    let front = checksum_of(big, before, &frame[..8]);
    checksum_of(big, front, &frame[24..]) == sum_at(frame, 16)
}

/// Whether a frame has the salts of a header.
pub(crate) fn is_own(head: &[u8], frame: &[u8]) -> bool
    requires head { length head.now ≡ 32 }
    requires frame { 24 ≤ length frame.now }
    ensures { result ≡ is_own head.now frame.now }
{
    frame[8..16] == head[16..24]
}

/// The same of a frame that commits.
pub(crate) fn is_own_commit(head: &[u8], frame: &[u8]) -> bool
    requires head { length head.now ≡ 32 }
    requires frame { 24 ≤ length frame.now }
    ensures { result ≡ is_own_commit head.now frame.now }
{
    is_own(head, frame) && number_at(frame, 4) != 0
}
