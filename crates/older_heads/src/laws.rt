//! What follows from the definitions, for those who stand on them.

ghost use Rattle.std.specs.Prelude.{◌≡◌, ◌≤◌, ◌<◌, ◌+◌, ◌∷◌, [], List, ℕ, false, length, true};
ghost use Rattle.sqlite_disk.specs.Disk.{Holds};
ghost use Rattle.head_log.specs.Groups.{open_text, shut_gate};
ghost use Rattle.older_heads.specs.Gates.{EndsAt, IsCutAt};
ghost use Rattle.older_heads.specs.Groups.{IsGroupAt, Laid, StandsFor, is_older};

/// A group that stands at an offset is the first of those that lie from there, and the others lie
/// behind it.
pub fn groups_are_read_in_order()
    ensures { (file : List ℕ) (at end : ℕ) (groups : List (List ℕ)) (group : List ℕ)
        → Laid file at groups end → at < end → IsGroupAt file at group
        → (rest : List (List ℕ)) × (groups ≡ group ∷ rest)
        × Laid file (at + 41 + length group) rest end }
{}

/// Behind the last group none lies.
pub fn no_group_is_read_behind_the_last()
    ensures { (file : List ℕ) (at end : ℕ) (groups : List (List ℕ)) → Laid file at groups end
        → end ≤ at → groups ≡ [] }
{}

/// A file whose gates lead to one that is not open is cut nowhere, and no file of groups is cut.
pub fn a_file_of_groups_is_not_cut()
    ensures ended { (file : List ℕ) (end at : ℕ) → EndsAt file end → ¬ IsCutAt file at }
    ensures groups { (file : List ℕ) (groups : List (List ℕ)) (at : ℕ) → StandsFor file groups
        → ¬ IsCutAt file at }
{}

/// A file of groups that is too short to be told as an older one has none.
pub fn a_short_file_has_no_group()
    ensures { (file : List ℕ) (groups : List (List ℕ)) → StandsFor file groups → length file ≤ 8
        → groups ≡ [] }
{}

/// A file that has a group is told as an older one. One of the newer form is not: it begins with a
/// gate that is shut or open. Nor is one whose first bytes were zeroed.
pub fn the_two_forms_are_told_apart()
    ensures older { (file group : List ℕ) (groups : List (List ℕ))
        → StandsFor file (group ∷ groups) → is_older file ≡ true }
    ensures shut { (file : List ℕ) → Holds file 0 shut_gate → is_older file ≡ false }
    ensures opened { (file : List ℕ) → Holds file 0 open_text → is_older file ≡ false }
    ensures zeros { (file : List ℕ)
        → Holds file 0 (0 ∷ 0 ∷ 0 ∷ 0 ∷ 0 ∷ 0 ∷ 0 ∷ 0 ∷ []) → is_older file ≡ false }
{}
