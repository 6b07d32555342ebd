//! What follows from the definitions, for those who stand on them.

ghost use Rattle.op_log.specs.Crashes.{ComesToBeSettled, LeavesAll, LeavesLog, LeavesLogOfOwn, LeavesOldOrAll};
ghost use Rattle.op_log.specs.Kept.{LastCounts, SettledHaveOwn};
ghost use Rattle.op_log.specs.Readable.{AllIsReadable, EachIsParted, ListedAreAmiss};
ghost use Rattle.op_log.specs.Told.{OwnTellTrue, RecordsTellTrue, ToldStands};

use sqlite_disk::Disk;

/// Where each told content stands for that operation of a log that has its digest, if one has,
/// what is recorded from them is what is recorded of the operations. The records of the log's own
/// operations are so; and so are those of others, unless one of these has the hash of one of the
/// log's and is another.
pub fn what_is_told_truly_stands()
    ensures stands { ToldStands }
    ensures own { OwnTellTrue }
    ensures records { RecordsTellTrue }
{}

/// Of what can't be read of a log each is damaged, or the disk failed to read: where the file has
/// the operation of each head, and the disk failed at none, nothing is listed. And each head has
/// either its record or its index, as `OpLog::readable` tells them.
pub fn what_is_whole_is_readable()
    ensures readable { AllIsReadable }
    ensures each { EachIsParted }
    ensures amiss { ListedAreAmiss }
{}

/// A file may have several heads of one digest, where an operation that could not be read was put
/// again: the last of them counts, and it alone.
pub fn the_last_head_of_a_digest_counts()
    ensures own { SettledHaveOwn }
    ensures last { LastCounts }
{}

/// What a crash leaves of the files of a log whose data sets last stands for its heads and has its
/// data sets: where `OpLog::open` opens it, it has the very heads (`found` there). Where all heads
/// of the file fit, it is of a log, and so is not told as damaged (`damaged` there). That a head fits
/// in whose place another was put is a premise here: no clause of `OpLog` says it.
pub fn what_a_crash_leaves_has_all<H: Disk, B: Disk>()
    ensures settled { ComesToBeSettled H.Disk B.Disk }
    ensures all { LeavesAll H.Disk B.Disk }
    ensures of_log { LeavesLog H.Disk B.Disk }
    ensures own { LeavesLogOfOwn H.Disk B.Disk }
    ensures under_way { LeavesOldOrAll H.Disk B.Disk }
{}
