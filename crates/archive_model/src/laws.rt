//! What the definitions mean: laws, said as contracts of functions with nothing to do.

ghost use Rattle.archive_model.specs.Laws.{GreatestIsLast, SomeHaveGreatest, LastHaveOneValue, PickIsContent};
ghost use Rattle.archive_model.specs.Laws.{PickIsLeast, ContentsHavePick, CoveredIsNamed, ShownArePicks};
ghost use Rattle.archive_model.specs.Laws.{AuditCoversNothing, AuditShowsPicks, FlaggedHaveTwo, ShownAscend};
ghost use Rattle.archive_model.specs.Laws.{StudyRepresentativeIsLeast, SeriesRepresentativeIsLeast};
ghost use Rattle.archive_model.specs.Index.{CoveredByTitles};
ghost use Rattle.archive_model.specs.Coercion.{CoercedHasAttributes, CoercedKeepsOthers, OwnIsNotCoerced};

/// The greatest of some corrections is one of them that none comes after, by counter, site and
/// value.
pub fn the_greatest_correction_is_last()
    ensures last { GreatestIsLast }
    ensures there { SomeHaveGreatest }
    ensures one_value { LastHaveOneValue }
{}

/// The pick of a SOP Instance UID is its content of least digest.
pub fn the_pick_has_the_least_digest()
    ensures content { PickIsContent }
    ensures least { PickIsLeast }
    ensures there { ContentsHavePick }
{}

/// A UID is covered where any content, pick or not, is a note that names it and whose title hides.
pub fn what_a_note_names_is_covered()
    ensures { CoveredIsNamed }
{}

/// What is shown are the picks whose UID is not covered and which are no notes that hide.
pub fn what_is_shown_is_picked_and_uncovered()
    ensures { ShownArePicks }
{}

/// In an audit nothing is covered, and every pick is shown.
pub fn an_audit_shows_every_pick()
    ensures covered { AuditCoversNothing }
    ensures shown { AuditShowsPicks }
{}

/// What is shown ascends by SOP Instance UID, so the representative of a study, or of a series of a
/// study, is its shown content of least UID.
pub fn representatives_have_the_least_uid()
    ensures shown { ShownAscend }
    ensures study { StudyRepresentativeIsLeast }
    ensures series { SeriesRepresentativeIsLeast }
{}

/// The flagged UIDs are those with two contents or more.
pub fn what_is_flagged_has_two_contents()
    ensures { FlaggedHaveTwo }
{}

/// A UID is covered in a view where it is named under a title that hides there.
pub fn titles_say_what_is_covered()
    ensures { CoveredByTitles }
{}

/// A coerced data set has the attributes that corrections give a content, and every other value as
/// it was stored.
pub fn coercion_puts_in_what_differs()
    ensures attributes { CoercedHasAttributes }
    ensures others { CoercedKeepsOthers }
    ensures own { OwnIsNotCoerced }
{}
