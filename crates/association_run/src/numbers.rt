//! The limits that clauses cite by name, each said once as it is.

ghost use Rattle.std.specs.Prelude.{◌≡◌};
ghost use Rattle.association_run.specs.declared.outbox.TheConstants.{ROOM};
ghost use Rattle.association_run.specs.declared.run.TheConstants.{MOST_DROPPED, MOST_READS, PIECE};

/// How many bytes are read once goodbye was said, and how many of them by one read, how many go out
/// in a write, and how many reads a run has, each at most.
pub fn limits_are_these()
    ensures dropped { MOST_DROPPED ≡ 65536 }
    ensures piece { PIECE ≡ 1024 }
    ensures room { ROOM ≡ 65542 }
    ensures reads { MOST_READS ≡ 4294967296 }
{}
