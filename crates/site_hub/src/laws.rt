//! What running sites answer, as contracts of functions that do nothing.

ghost use Rattle.site_hub.specs.Laws.{SeenAlikeIsOneSet, SeenAlikeAnswersAlike, SeenAlikeSendsAlike};
ghost use Rattle.site_hub.specs.Stamps.{CountersRise};

/// Two running sites whose opening sets and seen histories hold the same operations are looked at
/// alike, whatever the order and the passes of their entries.
pub fn running_sites_that_hold_the_same_answer_alike()
    ensures sets { SeenAlikeIsOneSet }
    ensures rows { SeenAlikeAnswersAlike }
    ensures sendings { SeenAlikeSendsAlike }
{}

/// The correction that comes next has a greater counter than each that is held.
pub fn counters_of_corrections_rise()
    ensures { CountersRise }
{}
