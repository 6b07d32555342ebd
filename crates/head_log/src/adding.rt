//! The two halves of adding a group: it is written behind a shut gate, and then the gate is opened.

ghost use Rattle.std.specs.Prelude.{◌≡◌, ◌+◌, ◌<◌, ◌≤◌, ◌++◌, ◌∷◌, ◌^◌, [], List, ℕ, length, IsTrue, OnOk};
ghost use Rattle.sqlite_disk.specs.Disk.{CountsFault};
ghost use Rattle.head_log.specs.Groups.{IsEnded, IsReady, IsStaged, LeavesEither, StandsFor, first_gate, gate_after};
ghost use Rattle.head_log.specs.Groups.{shut_text};

use crate::gate::{Gate, OPEN, SHUT};
use sqlite_disk::Disk;
use std::io;

/// Makes a file that is none yet one of no group.
pub(crate) fn begin<D: Disk>(disk: &mut D) -> io::Result<()>
    requires usable { IsTrue (D.Disk.is_usable disk.old) }
    ensures ready { OnOk result (IsReady D.Disk disk.new first_gate []) }
    ensures ended { OnOk result (IsEnded D.Disk disk.new 0) }
    ensures usable { OnOk result (IsTrue (D.Disk.is_usable disk.new)) }
    ensures clean { IsTrue (D.Disk.is_clean disk.new) → IsTrue (D.Disk.is_clean disk.old) }
    ensures crash { ((c : List ℕ) → D.Disk.may_leave disk.old c → length c ≤ 8)
        → (c : List ℕ) → D.Disk.may_leave disk.new c → StandsFor c [] }
    ensures counted { CountsFault result (D.Disk.faults disk.old) (D.Disk.faults disk.new) }
{
    disk.write_at(0, &SHUT.to_le_bytes())?;
    disk.sync()
}

/// Writes a text behind a gate that stays shut, and syncs.
pub(crate) fn stage<D: Disk>(disk: &mut D, end: usize, text: &[u8]) -> io::Result<()>
    requires usable { IsTrue (D.Disk.is_usable disk.old) }
    requires some { 0 < length text.now }
    requires room { end + 8 < 2 ^ 64 }
    ensures staged { OnOk result (IsStaged D.Disk disk.new end text.now) }
    ensures usable { OnOk result (IsTrue (D.Disk.is_usable disk.new)) }
    ensures clean { IsTrue (D.Disk.is_clean disk.new) → IsTrue (D.Disk.is_clean disk.old) }
    // Whatever is answered, the gate is shut, and every crash leaves what was there.
    ensures kept { (gate : Gate) → (groups : List (List ℕ)) → gate.at ≡ end
        → IsReady D.Disk disk.old gate groups → IsReady D.Disk disk.new gate groups }
    ensures counted { CountsFault result (D.Disk.faults disk.old) (D.Disk.faults disk.new) }
{
    disk.write_at(end + 8, text)?;
    disk.sync()
}

/// Opens the gate before a group that is staged, and syncs.
pub(crate) fn open<D: Disk>(disk: &mut D, gate: &Gate, group: &[u8]) -> io::Result<()>
    requires usable { IsTrue (D.Disk.is_usable disk.old) }
    requires staged { IsStaged D.Disk disk.old gate.now.at (shut_text gate.now.prior group.now) }
    requires some { 0 < length group.now }
    requires short { length group.now < 2 ^ 40 }
    ensures opened { OnOk result ((groups : List (List ℕ)) → IsReady D.Disk disk.old gate.now groups
        → IsReady D.Disk disk.new (gate_after gate.now group.now) (groups ++ group.now ∷ [])) }
    ensures usable { OnOk result (IsTrue (D.Disk.is_usable disk.new)) }
    ensures clean { IsTrue (D.Disk.is_clean disk.new) → IsTrue (D.Disk.is_clean disk.old) }
    ensures crash { (groups : List (List ℕ)) → IsReady D.Disk disk.old gate.now groups
        → LeavesEither D.Disk disk.new groups group.now }
    ensures counted { CountsFault result (D.Disk.faults disk.old) (D.Disk.faults disk.new) }
{
    disk.write_at(gate.at, &OPEN.to_le_bytes())?;
    disk.sync()
}
