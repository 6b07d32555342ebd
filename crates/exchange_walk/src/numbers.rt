//! The number that clauses cite by name, said once as it is.

ghost use Rattle.std.specs.Prelude.{◌≡◌};
ghost use Rattle.exchange_walk.specs.declared.summed.TheConstants.{LARGEST_PLACE};

/// How many digests a place has at most, unless its node has 63 digits.
pub fn largest_place_is_this()
    ensures { LARGEST_PLACE ≡ 16 }
{}
