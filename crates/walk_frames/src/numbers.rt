//! The numbers that clauses cite by name, each said once as it is.

ghost use Rattle.std.specs.Prelude.{◌≡◌, ◌<◌};
ghost use Rattle.exchange_frames.specs.declared.header.TheConstants.{LONGEST_BODY};
ghost use Rattle.walk_frames.specs.declared.node.TheConstants.{MOST_DIGITS, CHILDREN};
ghost use Rattle.walk_frames.specs.declared.sums.TheConstants.{SUMS_LENGTH};
ghost use Rattle.walk_frames.specs.declared.walk.TheConstants.{WALK, MOST_ENTRIES, LONGEST_WALK};

/// The kind of the frame, how many digits and children a node has, the digits at most, how many
/// bytes its children's sums have, and how many entries and bytes a walk has at most.
pub fn limits_are_these()
    ensures walk { WALK ≡ 0x10 }
    ensures digits { MOST_DIGITS ≡ 63 }
    ensures children { CHILDREN ≡ 16 }
    ensures sums { SUMS_LENGTH ≡ 512 }
    ensures entries { MOST_ENTRIES ≡ 4096 }
    ensures bytes { LONGEST_WALK ≡ 2236418 }
{}

/// The longest walk is shorter than the longest body of a frame.
pub fn a_body_is_short_enough()
    ensures { LONGEST_WALK < LONGEST_BODY }
{}
