//! What the words of a line are.

ghost use Rattle.site_script.specs.WordLaws.{JoinedWordsAreRead, WordsAreRead, WordsAreTheText};

/// Words joined by spaces are read as these words; what is read of any line are words, and these
/// are its text without its spaces.
pub fn words_are_parted_by_spaces()
    ensures joined { JoinedWordsAreRead }
    ensures words { WordsAreRead }
    ensures text { WordsAreTheText }
{}
