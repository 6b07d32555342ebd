//! The numbers that clauses cite by name, each said once as it is.

ghost use Rattle.std.specs.Prelude.{◌≡◌};
ghost use Rattle.exchange.specs.declared.repeating.TheConstants.{MOST_EXCHANGES};
ghost use Rattle.exchange.specs.declared.run.TheConstants.{MOST_READS};
ghost use Rattle.exchange.specs.declared.side.TheConstants.{OWN_VERSION};

/// How many reads an exchange has at most, the version that this side speaks, and how many
/// exchanges with one peer there are in a row at most.
pub fn numbers_are_these()
    ensures reads { MOST_READS ≡ 4294967296 }
    ensures version { OWN_VERSION ≡ 2 }
    ensures exchanges { MOST_EXCHANGES ≡ 257 }
{}
