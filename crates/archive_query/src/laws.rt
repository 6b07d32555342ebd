//! What the rows depend on.

ghost use Rattle.archive_query.specs.Laws.{SameSitesAnswerAlike};

/// Two sites that hold the same operations answer alike, in whatever order they took them.
pub fn same_sites_answer_alike()
    ensures { SameSitesAnswerAlike }
{}
