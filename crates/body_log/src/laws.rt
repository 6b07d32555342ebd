//! What follows from the definitions, for those who stand on them.

ghost use Rattle.std.specs.Prelude.{◌≤◌, ◌+◌, List, ℕ, length};
ghost use Rattle.body_log.specs.Lasts.{Lasts, Spares};

use sqlite_disk::Disk;

/// What every crash left below an offset, every crash leaves after a call that spares it.
pub fn what_lasts_goes_on_to_last<D: Disk>()
    ensures { (end : ℕ) (old new : D) → Spares D.Disk end old new
        → (at : ℕ) (bytes : List ℕ) → at + length bytes ≤ end
        → Lasts D.Disk old at bytes → Lasts D.Disk new at bytes }
{}
