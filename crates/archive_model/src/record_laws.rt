//! Of two sets of operations of which the same is kept, the same is shown: laws, said as contracts
//! of functions with nothing to do.

ghost use Rattle.archive_model.specs.RecordLaws.{SameDigests, SameContents, SamePicks, SameFlagged, SameCovered};
ghost use Rattle.archive_model.specs.RecordLaws.{SameShown, SameAttributes, SameStudies, SameSeries};
ghost use Rattle.archive_model.specs.RecordLaws.{SameStudyRepresentatives, SameSeriesRepresentatives};
ghost use Rattle.archive_model.specs.RecordLaws.{SameStudyCounts, SameSeriesCounts, SamePickDigests, SameCopies};
ghost use Rattle.archive_model.specs.RecordLaws.{SameTitles, SameFixes, SameRows, SamePrepared};

/// Digests, contents, picks and flagged UIDs are functions of records.
pub fn what_is_picked_needs_no_bytes()
    ensures digests { SameDigests }
    ensures contents { SameContents }
    ensures picks { SamePicks }
    ensures flagged { SameFlagged }
{}

/// So is what notes cover, and what a view shows.
pub fn what_is_shown_needs_no_bytes()
    ensures covered { SameCovered }
    ensures shown { SameShown }
{}

/// So is the value of an attribute of a content.
pub fn a_correction_needs_no_bytes()
    ensures { SameAttributes }
{}

/// So are the studies and the series of what is shown, their representatives and their counts.
pub fn what_stands_for_others_needs_no_bytes()
    ensures studies { SameStudies }
    ensures series { SameSeries }
    ensures study_representatives { SameStudyRepresentatives }
    ensures series_representatives { SameSeriesRepresentatives }
    ensures instance_counts { SameStudyCounts }
    ensures series_counts { SameSeriesCounts }
{}

/// So is what an index has.
pub fn an_index_needs_no_bytes()
    ensures picks { SamePickDigests }
    ensures copies { SameCopies }
    ensures titles { SameTitles }
    ensures fixes { SameFixes }
{}

/// So is what a C-FIND answers (PS3.4, C.4.1).
pub fn a_row_needs_no_bytes()
    ensures { SameRows }
{}

/// So is what a C-GET is to send, in its order, with the values that corrections give it
/// (PS3.4, C.4.3): all but the bytes of each.
pub fn what_is_to_be_sent_needs_no_bytes()
    ensures { SamePrepared }
{}
