//! The attributes that a correction may give a value.

ghost use Rattle.std.specs.Prelude.{◌≡◌};
ghost use Rattle.data_set.specs.Corrections.{correction_vr_of};

use dictionary::{role_of, vr_of};

/// The value representation of an attribute that a correction may give a value, or `None` of any
/// other tag (docs/DECISIONS.md, "Corrections").
pub fn correction_vr(tag: u32) -> Option<[u8; 2]>
    ensures { result ≡ correction_vr_of tag }
{
    match role_of(tag).correction() {
        None => None,
        Some(_) => Some(vr_of(tag)),
    }
}
