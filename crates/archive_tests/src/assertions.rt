//! What tests assert, as calls that answer why a test failed.
//!
//! A call is proved once, where a macro is proved again at each place that writes it.

ghost use Rattle.std.specs.Prelude.{◌≡◌, OnOk, true};

use std::fmt::{Debug, Display};
use std::test::Fail;

/// Fails, unless this holds in this case of some.
pub fn holds_at<C: Copy + Display>(holds: bool, what: &str, case: C) -> Result<(), Fail>
    ensures { OnOk result (holds ≡ true) }
{
    if holds {
        return Ok(());
    }
    Err(Fail::new(format_args!("it does not hold: {what}: {case}")))
}

/// Fails, unless what was told is what is wanted.
pub fn equal<T: Copy + Debug + PartialEq>(told: T, wanted: T, what: &str) -> Result<(), Fail> {
    if told == wanted {
        return Ok(());
    }
    Err(Fail::new(format_args!("{what}: {told:?} is not {wanted:?}")))
}
