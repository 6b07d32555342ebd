//! How long a data set may be.

ghost use Rattle.std.specs.Prelude.{◌≡◌};
ghost use Rattle.octets.specs.declared.limits.TheConstants.{LONGEST_DATA_SET};

/// The most bytes of a data set that is taken, kept and given on: 64 MiB.
pub const LONGEST_DATA_SET: usize = 67_108_864;

/// The limit as it is.
pub fn longest_data_set_is_this()
    ensures { LONGEST_DATA_SET ≡ 67108864 }
{}
