//! The limits that clauses cite by name, each said once as it is. The standard's numbers stand in
//! `dictionary`.

ghost use Rattle.std.specs.Prelude.{◌≡◌};
ghost use Rattle.dimse.specs.declared.command.TheConstants.{LONGEST_COMMAND, DATA_SET_FOLLOWS};

/// How long a command set may be, in bytes, and how a data set is announced.
pub fn limits_are_these()
    ensures command { LONGEST_COMMAND ≡ 16384 }
    ensures announced { DATA_SET_FOLLOWS ≡ 0x0000 }
{}
