//! Which UIDs have rows, and what is told of a study: laws, said as contracts of functions with
//! nothing to do.

ghost use Rattle.site_tables.specs.Laws.{RejectedAreCovered, FactsAreFound};

/// The UIDs that have a row among the rejected are those that ARCHIVE covers.
pub fn the_rejected_are_what_is_covered()
    ensures { RejectedAreCovered }
{}

/// What a look took of a study tells of it what a C-FIND for it answers to the called title AUDIT.
pub fn a_study_is_told_as_it_is_found()
    ensures { FactsAreFound }
{}
