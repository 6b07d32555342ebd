//! What rounds come to: laws, said as contracts of functions with nothing to do.

ghost use Rattle.exchange.specs.Laws.{RoundGivesAll, RoundByBucketsGivesAll, RoundsMakeEqual, RoundSaysFrames};
ghost use Rattle.exchange.specs.PartLaws.{FittingTells, SeenFits, PartsEnd};
ghost use Rattle.exchange.specs.Laws.{EqualDigestsTell, EqualPlacesTell, NoPlaceIsEqual};

/// After a round in which each operation that was given was taken, the one side holds all that the
/// other held at its offer, of what the version speaks of: the sending of a HAVE of all digests.
pub fn a_round_gives_all()
    ensures { RoundGivesAll }
{}

/// So it does where BUCKETS was sent first, which then is the offer, if unequal digests of a place
/// have unequal buckets.
pub fn a_round_by_buckets_gives_all()
    ensures { RoundByBucketsGivesAll }
{}

/// Two sets of digests that are equal, or equal in each place, meet that premise, however many
/// they are.
pub fn equal_digests_meet_the_premise_of_buckets()
    ensures equal { EqualDigestsTell }
    ensures places { EqualPlacesTell }
{}

/// The buckets of two sets differ in no place exactly where their lists are equal.
pub fn buckets_that_differ_nowhere_are_equal()
    ensures { NoPlaceIsEqual }
{}

/// After a round each way, with nothing in between that changes either side, both hold the same.
pub fn rounds_each_way_make_sites_equal()
    ensures { RoundsMakeEqual }
{}

/// What a HAVE tells where more is held in the places of a DIFFER than it may have: never more than
/// that, and each place before that of the first digest that does not fit whole.
pub fn a_have_tells_what_fits()
    ensures { FittingTells }
{}

/// A HAVE that answers a DIFFER, and is neither full nor without a digest of one of its places, has
/// all that was held in them.
pub fn a_have_that_is_seen_to_have_all_has_it()
    ensures { SeenFits }
{}

/// Where a HAVE has room for any one place, each exchange in parts makes two sites hold the same in
/// one place more, the first in which they did not; so 256 exchanges are enough, whatever they
/// hold.
pub fn exchanges_in_parts_end()
    ensures { PartsEnd }
{}

/// What a round says of a set, each of whose keys is the digest of an operation, is a frame, so it
/// is written and read again: BUCKETS, DIFFER and WANT always, HAVE where it has 1,048,576 digests
/// at most, as it has where it answers a DIFFER.
pub fn what_a_round_says_is_a_frame()
    ensures { RoundSaysFrames }
{}
