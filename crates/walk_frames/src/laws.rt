//! Laws of walks, each said as the contract of a function.

ghost use Rattle.std.specs.Prelude.{◌≡◌, ◌≤◌, List, length, Ok, Err, None, ◌∷◌, []};
ghost use Rattle.std.specs.List.{AllPairs};
ghost use Rattle.exchange_frames.specs.declared.fault.FrameFault.TheVariants.{BadFrame};
ghost use Rattle.walk_frames.specs.declared.walk.TheConstants.{LONGEST_WALK};
ghost use Rattle.walk_frames.specs.Entries.{EntryParts};
ghost use Rattle.walk_frames.specs.Walks.{AreApart, IsWalk};
ghost use Rattle.walk_frames.specs.Spelling.{walk_text};
ghost use Rattle.walk_frames.specs.Reading.{walk_at};

/// What is written of a walk is read again as that walk.
pub fn what_is_written_is_read_again()
    ensures { (walk : List EntryParts) → IsWalk walk → walk_at (walk_text walk) ≡ Ok walk }
{}

/// None of a walk's entries lies within another.
pub fn none_lies_within_another()
    ensures { (walk : List EntryParts) → IsWalk walk → AllPairs AreApart walk }
{}

/// No walk's body is longer than the longest.
pub fn no_walk_is_longer()
    ensures { (walk : List EntryParts) → IsWalk walk → length (walk_text walk) ≤ LONGEST_WALK }
{}

/// Two places, of three digits and of two: a count, and of each the depth, the digits and 00.
pub fn a_walk_is_spelled_so()
    ensures { walk_text (record { node = 10 ∷ 11 ∷ 12 ∷ []; sums = None }
        ∷ record { node = 10 ∷ 12 ∷ []; sums = None } ∷ [])
        ≡ 0x00 ∷ 0x02 ∷ 0x03 ∷ 0xAB ∷ 0xC0 ∷ 0x00 ∷ 0x02 ∷ 0xAC ∷ 0x00 ∷ [] }
{}

/// Bodies that spell no walk: of a place whose last half byte is 1, of one that lies within another,
/// of two that descend, and of one with a byte behind it.
pub fn these_bodies_are_bad_frames()
    ensures half { walk_at (0x00 ∷ 0x01 ∷ 0x01 ∷ 0xA1 ∷ 0x00 ∷ []) ≡ Err BadFrame }
    ensures within { walk_at (0x00 ∷ 0x02 ∷ 0x01 ∷ 0xA0 ∷ 0x00 ∷ 0x02 ∷ 0xAB ∷ 0x00 ∷ [])
        ≡ Err BadFrame }
    ensures descending { walk_at (0x00 ∷ 0x02 ∷ 0x01 ∷ 0xB0 ∷ 0x00 ∷ 0x01 ∷ 0xA0 ∷ 0x00 ∷ [])
        ≡ Err BadFrame }
    ensures behind { walk_at (0x00 ∷ 0x01 ∷ 0x01 ∷ 0xA0 ∷ 0x00 ∷ 0x00 ∷ []) ≡ Err BadFrame }
{}
