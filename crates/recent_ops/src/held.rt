//! An operation that is held in memory.

ghost use Rattle.std.specs.Prelude.{◌≡◌};

use operation::Digested;
use std::marker::Model;

/// An operation, and how many bytes of memory it is said to take.
pub(crate) struct Weighed {
    pub(crate) op: Digested,
    pub(crate) weight: usize,
}

impl Model for Weighed {
    ghost use Rattle.recent_ops.specs.Recent.{Held, held_code};

    ghost Value = { Held };

    ghost coded = { held_code };

    ghost view = { λ w. record { op = w.op; weight = w.weight } };
}

// It is written out, so that a caller does not prove again how each part is dropped.
impl Drop for Weighed {
    fn drop(self) {
        let Weighed { op, weight: _ } = self;
        drop(op);
    }
}
