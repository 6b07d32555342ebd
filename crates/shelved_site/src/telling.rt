//! A log's words as a shelf's.

ghost use Rattle.std.specs.Prelude.{◌≡◌, ◌≤◌, [], map, length};
ghost use Rattle.std.specs.Vec.{vec_capacity};
ghost use Rattle.shelved_site.specs.Telling.{kept_of, fault_of};

use op_log::LogFault;
use op_shelf::{Kept, ShelfFault, StoreCause};

/// What a log tells of an operation, as it is told of one that is kept.
fn kept(told: op_log::Kept) -> Kept
    ensures { result ≡ kept_of told }
{
    match told {
        op_log::Kept::New => Kept::New,
        op_log::Kept::Known => Kept::Known,
    }
}

/// What a log tells of each operation of a group, into a `Vec` that has room for it.
pub(crate) fn all_kept(room: Vec<Kept>, told: &[op_log::Kept]) -> Vec<Kept>
    requires empty { room.items ≡ [] }
    requires room { length told.now ≤ vec_capacity room }
    ensures { result.items ≡ map kept_of told.now }
{
    let mut kepts = room;
    for one in told {
        let _ = kepts.push(kept(*one));
    }
    kepts
}

/// Why a log refuses, as a shelf tells it.
pub fn fault(told: LogFault) -> ShelfFault
    ensures { result ≡ fault_of told }
{
    match told {
        LogFault::Disk => ShelfFault::Store(StoreCause::Failed),
        LogFault::Closed => ShelfFault::Store(StoreCause::Closed),
        LogFault::TooLong => ShelfFault::Store(StoreCause::Other),
        LogFault::DamagedHeads(_) => ShelfFault::BadRow,
        LogFault::DamagedBody(_) | LogFault::Collision => ShelfFault::BadRow,
        LogFault::Memory => ShelfFault::Memory,
    }
}
