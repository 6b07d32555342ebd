//! What holds of all runs of new worlds.

ghost use Rattle.site_world.specs.Headline.{SameTakenSameMaps, SameTakenSameAnswers, TimeIsFree};
ghost use Rattle.site_world.specs.Headline.{TakenAreApart};
ghost use Rattle.site_world.specs.Finished.{FinishedRoundsGiveAll, RoundsEachWayTellAll};
ghost use Rattle.site_world.specs.Finished.{RoundsEachWayMakeEqual};
ghost use Rattle.site_world.specs.Laws.{SameOpIsEquality, SameSiteIsEquality};
ghost use Rattle.site_world.specs.Rounds.{RoundsGiveAll, RoundsByBucketsGiveAll};
ghost use Rattle.site_world.specs.Rejected.{RejectedIsInNoRow, RejectedIsAsIfNeverStored};

/// Sites at which the same operations were taken, in one run or in two, in whatever order and
/// however often, hold equal maps, give equal answers to every query, send the same of every
/// selection, and have equal indexes. So the time of an operation does not matter. That unequal
/// operations have unequal digests is no premise: a site takes one of them alone.
pub fn order_is_free()
    ensures states { SameTakenSameMaps }
    ensures answers { SameTakenSameAnswers }
    ensures times { TimeIsFree }
    ensures apart { TakenAreApart }
{}

/// An instance that a note names is in no row and in no count of any query in a view where the
/// note's title hides, whether the note was taken before or after it. All rows are as if the
/// instance had never been stored, where it is no note itself.
pub fn what_is_rejected_is_in_no_row()
    ensures nowhere { RejectedIsInNoRow }
    ensures as_if_never_stored { RejectedIsAsIfNeverStored }
{}

/// After a finished round of a run, whatever else is done between its steps, the second site holds
/// all that the first held at its offer, of what both speak of, if under one digest both hold one
/// operation.
pub fn a_finished_round_gives_all()
    ensures offer { RoundsGiveAll }
    ensures buckets { RoundsByBucketsGiveAll }
{}

/// So it is of a round anywhere in a run of a new world, whatever is done before it and after it.
/// After a round each way, where each of the two sites was changed since its own offer by nothing
/// but what the other gave it, both hold the same of what both speak of; where both know
/// corrections of series, or neither does, they are equal, and every query in every view is
/// answered the same rows at both.
pub fn rounds_each_way_make_equal()
    ensures anywhere { FinishedRoundsGiveAll }
    ensures spoken { RoundsEachWayTellAll }
    ensures equal { RoundsEachWayMakeEqual }
{}

/// The tests that tell whether two operations, or two sites, are one decide equality.
pub fn what_is_told_to_be_one_is_one()
    ensures operations { SameOpIsEquality }
    ensures sites { SameSiteIsEquality }
{}
