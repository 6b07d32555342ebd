//! What is seen of an index in a walk: laws, said as the contracts of functions with nothing to do.
ghost use Rattle.study_index.specs.Laws.{WalksComeToAllPlaces, ThereIsAWalk, PlacesAscend};

/// A walk by `next_study`, in each study by `next_series`, in each series by `next_instance`, comes
/// to the places of the picks of the set, each once, ascending.
pub fn a_walk_comes_to_all_places()
    ensures all { WalksComeToAllPlaces }
    ensures one { ThereIsAWalk }
    ensures ascend { PlacesAscend }
{}
