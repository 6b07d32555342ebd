//! The attributes that a correction may give a value.

ghost use Rattle.std.specs.Prelude.{◌≡◌};
ghost use Rattle.dictionary.specs.Roles.{corrected_tags as corrected_tags_in};

use dictionary::Role;

/// The attributes that a correction may give a value, by ascending tag (docs/DECISIONS.md,
/// "Corrections").
pub fn corrected_tags() -> &'static [u32]
    ensures { result.now ≡ corrected_tags_in }
{
    Role::corrected_tags()
}
