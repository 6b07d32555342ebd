//! What sites are, whatever the order in which they took their operations: laws, said as contracts
//! of functions with nothing to do.

ghost use Rattle.site_state.specs.Laws.{TakingAdds, IsCommutative, IsAssociative, IsIdempotent, UnionIsOfBoth};
ghost use Rattle.site_state.specs.Laws.{EqualMaps, EqualContents, EqualPicks, EqualCovers, EqualShown, EqualFlagged};
ghost use Rattle.site_state.specs.Laws.{EqualAttributes, EqualCounts, EqualTops, NoteBeforeIsNoteAfter};
ghost use Rattle.site_state.specs.Laws.{NamedIsNotShown, TakenIsSite, OperationsAscend, PickHasLeastDigest};
ghost use Rattle.site_state.specs.Whole.{RecordsAreKept, DigestsAreKept, RowsAreKept, FlaggedAreKept, CountsAreKept};
ghost use Rattle.site_state.specs.Whole.{TopIsKept};

/// An operation that is taken, new or known, is added to the site.
pub fn taking_adds_the_operation()
    ensures { TakingAdds }
{}

/// The union of sites is commutative where unequal operations have unequal digests, associative and
/// idempotent, and what two sites took is the union of what each took.
pub fn union_is_a_join()
    ensures commutative { IsCommutative }
    ensures associative { IsAssociative }
    ensures idempotent { IsIdempotent }
    ensures of_both { UnionIsOfBoth }
{}

/// Sites that took the same operations, in whatever order and with whatever repeats, are equal maps
/// and give equal values of every definition, where unequal operations have unequal digests.
pub fn order_and_repeats_are_free()
    ensures maps { EqualMaps }
    ensures contents { EqualContents }
    ensures picks { EqualPicks }
    ensures covers { EqualCovers }
    ensures shown { EqualShown }
    ensures flagged { EqualFlagged }
    ensures attributes { EqualAttributes }
    ensures counts { EqualCounts }
    ensures top_counters { EqualTops }
{}

/// A note that is taken before its images hides them as one that is taken after.
pub fn a_note_before_its_images_hides_as_one_after()
    ensures alike { NoteBeforeIsNoteAfter }
    ensures hidden { NamedIsNotShown }
{}

/// The operations of a site ascend by digest, so the pick of a SOP Instance UID, which stands first
/// of its contents, is the one of least digest.
pub fn operations_ascend_by_digest()
    ensures taken { TakenIsSite }
    ensures ascend { OperationsAscend }
    ensures pick { PickHasLeastDigest }
{}

/// What stands for the operations of a site, each whole and under its digest, has their records. So
/// it has their digests, their rows, their flagged SOP Instance UIDs, their counts and their
/// greatest counter.
pub fn records_say_the_same()
    ensures records { RecordsAreKept }
    ensures digests { DigestsAreKept }
    ensures rows { RowsAreKept }
    ensures flagged { FlaggedAreKept }
    ensures counts { CountsAreKept }
    ensures top_counter { TopIsKept }
{}
