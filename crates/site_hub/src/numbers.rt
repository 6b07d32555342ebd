//! The limits that clauses cite by name, each said once as it is.

ghost use Rattle.std.specs.Prelude.{◌≡◌, ◌^◌};
ghost use Rattle.site_hub.specs.declared.refusals.TheConstants.{MOST_ENTRIES};

/// How many entries a history has at most behind which one more is added.
pub fn limits_are_these()
    ensures entries { MOST_ENTRIES ≡ 2 ^ 61 }
{}
