//! The constants are those of the standard, whose tables stand in `specs/`.

ghost use Rattle.std.specs.Prelude.{IsTrue, None};
ghost use Rattle.dictionary.specs.Agree.{are_numbers, are_texts};
ghost use Rattle.dictionary.specs.Elements.{table, tags, other_tags, ascend};
ghost use Rattle.dictionary.specs.Commands.{elements, values};
ghost use Rattle.dictionary.specs.Statuses.{statuses};
ghost use Rattle.dictionary.specs.Uids.{uids};
ghost use Rattle.dictionary.specs.Titles.{titles};

/// Each tag of a data set is that of PS3.6, section 6, and has one line in the table.
pub fn tags_are_those_of_the_standard()
    ensures elements { IsTrue (are_numbers tags) }
    ensures others { IsTrue (are_numbers other_tags) }
    ensures ascend { IsTrue (ascend None table) }
{}

/// Each tag of a command set, and each value of a command field, is that of PS3.7, section E.1.
pub fn commands_are_those_of_the_standard()
    ensures elements { IsTrue (are_numbers elements) }
    ensures values { IsTrue (are_numbers values) }
{}

/// Each status is that of PS3.7, annex C, and PS3.4, annexes B and C.
pub fn statuses_are_those_of_the_standard()
    ensures { IsTrue (are_numbers statuses) }
{}

/// Each UID is that of PS3.6, annex A, and each title that of PS3.16, CID 7010.
pub fn texts_are_those_of_the_standard()
    ensures uids { IsTrue (are_texts uids) }
    ensures titles { IsTrue (are_texts titles) }
{}
