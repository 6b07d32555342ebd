//! The first words of lines.

ghost use Rattle.std.specs.Prelude.{◌≡◌};
ghost use Rattle.site_script.specs.Commands.{verb_of as verb_of_word};

/// What a line does, by its first word.
#[derive(Clone, Copy, Debug, PartialEq, Eq)]
pub enum Verb {
    Site,
    Image,
    Note,
    Correct,
    Find,
    Get,
    Offer,
    Buckets,
    Deliver,
    Old,
    Same,
    Flagged,
    /// Any other word.
    Other,
}

/// What a first word asks for.
#[tactic(auto, unfolding(crate::specs::Commands::verb_of))]
pub fn verb_of(word: &[u8]) -> Verb
    ensures { result ≡ verb_of_word word.now }
{
    if word == b"site".as_slice() {
        return Verb::Site;
    }
    if word == b"image".as_slice() {
        return Verb::Image;
    }
    if word == b"note".as_slice() {
        return Verb::Note;
    }
    if word == b"correct".as_slice() {
        return Verb::Correct;
    }
    if word == b"find".as_slice() {
        return Verb::Find;
    }
    if word == b"get".as_slice() {
        return Verb::Get;
    }
    if word == b"offer".as_slice() {
        return Verb::Offer;
    }
    if word == b"buckets".as_slice() {
        return Verb::Buckets;
    }
    if word == b"deliver".as_slice() {
        return Verb::Deliver;
    }
    if word == b"old".as_slice() {
        return Verb::Old;
    }
    if word == b"same".as_slice() {
        return Verb::Same;
    }
    if word == b"flagged".as_slice() {
        return Verb::Flagged;
    }
    Verb::Other
}
