//! What stands for operations: laws, said as contracts of functions with nothing to do.

ghost use Rattle.records.specs.Laws.{StandInHasHash, StandInHasRecord, StandInIsOne, StandInIsOfRecord, StandsForItself};

/// What stands for an operation has its record and its hash, so it is this operation, unless they
/// are two of one hash; and it stands for those of its record alone.
pub fn a_stand_in_is_the_operation()
    ensures record { StandInHasRecord }
    ensures hash { StandInHasHash }
    ensures one { StandInIsOne }
    ensures alone { StandInIsOfRecord }
    ensures itself { StandsForItself }
{}
