//! What follows from the definitions, for those who stand on them.

ghost use Rattle.std.specs.Prelude.{List, ℕ, []};
ghost use Rattle.head_log.specs.declared.gate.Gate.{Gate};
ghost use Rattle.head_log.specs.Groups.{IsReady};
ghost use Rattle.head_log.specs.Groups.{StandsFor as HasGroups};
ghost use Rattle.operation.specs.Parts.{ContentParts};
ghost use Rattle.record_log.specs.Entries.{AreKept, AreTold, StandsFor};

use sqlite_disk::Disk;

/// What a file keeps is told of whatever a crash leaves of it.
pub fn what_is_kept_is_told<D: Disk>()
    ensures { (disk : D) (end : Gate) (cs : List ContentParts) → AreKept D.Disk disk end cs
        → (file : List ℕ) → D.Disk.may_leave disk file → AreTold file end cs }
{}

/// Whatever a crash leaves of a file stands for what it keeps; a file that is opened (the clause
/// `found` of `HeadLog::over`) keeps what it stood for, and one that was not there none.
pub fn what_a_file_stands_for_is_kept<D: Disk>()
    ensures left { (disk : D) (end : Gate) (cs : List ContentParts) → AreKept D.Disk disk end cs
        → (file : List ℕ) → D.Disk.may_leave disk file → StandsFor file cs }
    ensures opened { (file : List ℕ) (disk : D) (end : Gate) (cs : List ContentParts)
        → ((groups : List (List ℕ)) → HasGroups file groups → IsReady D.Disk disk end groups)
        → StandsFor file cs → AreKept D.Disk disk end cs }
    ensures none { StandsFor [] [] }
{}
