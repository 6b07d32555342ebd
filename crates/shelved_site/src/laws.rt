//! What follows for those who stand on a log, and for what is told of records: laws, said as
//! contracts of functions with nothing to do.

ghost use Rattle.std.specs.Prelude.{List, ℕ};
ghost use Rattle.operation.specs.declared.op.Op.{Op};
ghost use Rattle.op_shelf.specs.declared.kept.Kept.{Kept};
ghost use Rattle.op_shelf.specs.Keep.{AreSame, GainsAll};
ghost use Rattle.op_log.specs.Log.{Opened};
ghost use Rattle.shelved_site.specs.Keeping.{AreHeld, Lasts};
ghost use Rattle.shelved_site.specs.RecordLaws.{HoldsTheirRecords, ReportsTheSame, IsFollowedByTheSame, KnowsTheSame};

use op_shelf::Keep;
use sqlite_disk::Disk;

/// Whatever keeps operations, a shelf or a log: two that kept the same, and took the same puts,
/// keep the same.
pub fn the_same_puts_keep_the_same<A: Keep, B: Keep>()
    ensures { (a c : A) (b d : B) (ops : List Op) (kepts told : List Kept)
        → AreSame (A.holds a) (B.holds b) → GainsAll (A.holds a) (A.holds c) ops kepts
        → GainsAll (B.holds b) (B.holds d) ops told → AreSame (A.holds c) (B.holds d) }
{}

/// What lasts in a log is in whatever a crash leaves of its files.
pub fn what_lasts_is_left<H: Disk, B: Disk>()
    ensures { (log : Opened H B) (op : Op) → Lasts H.Disk B.Disk log op → (h b : List ℕ)
        → H.Disk.may_leave log.heads h → B.Disk.may_leave log.bodies b → AreHeld h b op }
{}

/// A site that took what stands for some operations has under each digest what stands for the
/// operation that a site has which took these themselves. So its report is the same, the same
/// correction comes next, and the same targets are known.
pub fn records_tell_of_their_operations()
    ensures holds { HoldsTheirRecords }
    ensures reports { ReportsTheSame }
    ensures followed { IsFollowedByTheSame }
    ensures knows { KnowsTheSame }
{}
