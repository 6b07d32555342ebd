//! What a pass was when its association began.

use std::marker::Brand;

/// What a pass was when its association began. Each call of a program picks it.
pub trait AtEntry {
    ghost use Rattle.site_hub.specs.Hub.{Seat};

    ghost seat: { Seat };
}

impl AtEntry for Brand {
    ghost use Rattle.site_hub.specs.Hub.{new_seat};

    ghost seat = { new_seat 0 };
}
