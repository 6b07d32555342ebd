//! Answers to a WALK.

use walk_frames::Walk;

/// What a site says to a WALK that it heard: a WALK, and whether more entries would have answered
/// than that has room for. Those beyond are left to the next walk from the root.
#[derive(Debug, Drop)]
pub struct Answer {
    pub walk: Walk,
    pub is_full: bool,
}
