//! The versions of the exchange, and which operations each knows.

ghost use Rattle.std.specs.Prelude.{◌≡◌};
ghost use Rattle.exchange.specs.Held.{is_of_series as is_a_series_correction, is_spoken, version_of};

use operation::{Op, Target};
use records::{Parts, RecordedOp};

/// What both sides of an exchange speak.
#[derive(Clone, Copy, Debug, PartialEq, Eq)]
pub enum Version {
    /// Contents, and corrections of studies and patients.
    One,
    /// Corrections of series too.
    Two,
}

impl Version {
    /// What is spoken with a peer that says this number: ours, or its where that is less, and with
    /// number 0 none.
    pub fn with_peer(number: u16) -> Option<Version>
        ensures { result ≡ version_of number }
    {
        match number {
            0 => None,
            1 => Some(Version::One),
            _ => Some(Version::Two),
        }
    }

    /// Whether an operation is spoken of.
    pub fn speaks(self, op: &Op) -> bool
        ensures { result ≡ is_spoken self op.now }
    {
        match self {
            Version::Two => true,
            Version::One => !is_of_series(op),
        }
    }

    /// The same of an operation of which the record is held.
    pub fn speaks_of(self, op: &RecordedOp) -> bool
        ensures { result ≡ is_spoken self op.now }
    {
        match self {
            Version::Two => true,
            Version::One => !is_record_of_series(op),
        }
    }
}

fn is_of_series(op: &Op) -> bool
    ensures { result ≡ is_a_series_correction op.now }
{
    match op {
        Op::Content(_) => false,
        Op::Correction(correction) => matches!(correction.target(), Target::Series(_)),
    }
}

fn is_record_of_series(op: &RecordedOp) -> bool
    ensures { result ≡ is_a_series_correction op.now }
{
    match op.parts() {
        Parts::Content(_) => false,
        Parts::Correction(recorded) => {
            matches!(recorded.correction().target(), Target::Series(_))
        }
    }
}
