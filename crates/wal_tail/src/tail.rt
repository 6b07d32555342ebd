//! What stands behind the valid frames of a log.

ghost use Rattle.std.specs.Prelude.{◌≡◌, ◌<◌, ◌≤◌, ◌+◌, if◌then◌else◌, length, IfSome, IsNone, ℕ};
ghost use Rattle.wal_tail.specs.Tail.{AreCounted, IsBadAt, IsFirstBad, IsFrameFrom, IsLost, page_size};
ghost use Rattle.wal_tail.specs.declared.tail.Lost.{Lost as Told};

use crate::frames::{is_frame, is_own, is_own_commit};
use crate::header::{FRAME_HEADER_LENGTH, HEADER_LENGTH, head_of, is_signed};
use crate::numbers::{number_at, sum_at};

/// Frames with the salts of a log, from its first frame on that is not valid.
#[derive(Clone, Copy, Debug, PartialEq, Eq)]
pub struct Lost {
    /// Which frame is the first that is not valid, from 0.
    pub frame: usize,
    /// Where it begins, in bytes from the log's begin.
    pub byte: usize,
    /// Whether it has the log's salts itself. A writer that writes the first byte of them last, and
    /// syncs before, leaves no such frame unless it is damaged.
    pub is_own: bool,
    /// How many frames have the log's salts, from it on. One or more.
    pub frames: usize,
    /// How many of these commit.
    pub commits: usize,
}

/// The first frame that is not valid.
#[derive(Clone, Copy)]
struct Place {
    frame: usize,
    byte: usize,
    is_own: bool,
}

/// The frame that begins at a place, where it is whole.
fn frame_from(log: &[u8], begin: usize) -> Option<&[u8]>
    requires head { 32 ≤ length log.now }
    requires begin { begin ≤ length log.now }
    ensures whole { IfSome result (λ frame. IsFrameFrom log.now begin frame.now) }
    ensures none { IsNone result → length log.now < begin + (24 + page_size log.now) }
{
    let length = FRAME_HEADER_LENGTH + number_at(log, 8) as usize;
    if log.len() - begin < length {
        return None;
    }
    Some(&log[begin..begin + length])
}

/// The first frame that is whole and not valid.
fn first_bad(log: &[u8]) -> Option<Place>
    requires { 32 ≤ length log.now }
    ensures some { IfSome result (λ place. IsBadAt log.now place.frame place.byte place.is_own) }
    ensures none { IsNone result → (k : ℕ) → ¬ IsFirstBad log.now k }
{
    let head = head_of(log);
    let mut begin = HEADER_LENGTH;
    let mut sum = sum_at(head, 24);
    for at in 0..log.len() {
        let Some(next) = frame_from(log, begin) else {
            return None;
        };
        if !is_frame(head, sum, next) {
            return Some(Place {
                frame: at,
                byte: begin,
                is_own: is_own(head, next),
            });
        }
        sum = sum_at(next, 16);
        begin += next.len();
    }
    None
}

fn one_if(holds: bool) -> usize
    ensures one { result ≡ (if holds then 1 else 0) }
    ensures most { result ≤ 1 }
{
    if holds { 1 } else { 0 }
}

/// How many frames have the log's salts from a place on, and how many of these commit.
fn counts_from(log: &[u8], place: Place) -> (usize, usize)
    requires head { 32 ≤ length log.now }
    requires place { IsBadAt log.now place.frame place.byte place.is_own }
    ensures { AreCounted log.now place.frame result.0 result.1 }
{
    let head = head_of(log);
    let mut begin = place.byte;
    let mut frames = 0;
    let mut commits = 0;
    for _at in 0..log.len() {
        let Some(next) = frame_from(log, begin) else {
            return (frames, commits);
        };
        frames += one_if(is_own(head, next));
        commits += one_if(is_own_commit(head, next));
        begin += next.len();
    }
    (frames, commits)
}

/// What stands with a log's own salts from its first frame on that is not valid; nothing where
/// there is no such frame, or the header is not signed.
pub fn lost_behind(log: &[u8]) -> Option<Lost>
    ensures lost { IfSome result (IsLost log.now) }
    ensures none { IsNone result → (lost : Told) → ¬ IsLost log.now lost }
{
    if log.len() < HEADER_LENGTH || !is_signed(head_of(log)) {
        return None;
    }
    let Some(place) = first_bad(log) else {
        return None;
    };
    let (frames, commits) = counts_from(log, place);
    if frames == 0 {
        return None;
    }
    Some(Lost {
        frame: place.frame,
        byte: place.byte,
        is_own: place.is_own,
        frames,
        commits,
    })
}
