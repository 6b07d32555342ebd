//! What follows from the definitions, for those who stand on them.

ghost use Rattle.std.specs.Prelude.{◌≡◌, ◌≤◌, ◌<◌, ◌∷◌, [], List, ℕ, false, true};
ghost use Rattle.head_log.specs.Gates.{EndsAt, IsCutAt};
ghost use Rattle.head_log.specs.Groups.{IsGroupAt, IsReady, Laid, LeavesEither, Ready, StandsFor, first_gate};
ghost use Rattle.head_log.specs.Groups.{gate_after, is_shut, open_text, shut_gate};
ghost use Rattle.head_log.specs.declared.gate.Gate.{Gate};

use sqlite_disk::Disk;

/// A gate that was never opened is shut, one that was is not, and eight bytes of zeros are none.
pub fn gates_are_told_apart()
    ensures shut { is_shut shut_gate ≡ true }
    ensures opened { is_shut open_text ≡ false }
    ensures zeros { is_shut (0 ∷ 0 ∷ 0 ∷ 0 ∷ 0 ∷ 0 ∷ 0 ∷ 0 ∷ []) ≡ false }
{}

/// A group that stands at a gate is the first of those that lie from there, and the others lie
/// behind it.
pub fn groups_are_read_in_order()
    ensures { (file : List ℕ) (gate end : Gate) (groups : List (List ℕ)) (group : List ℕ)
        → Laid file gate groups end → gate.at < end.at → IsGroupAt file gate group
        → (rest : List (List ℕ)) × (groups ≡ group ∷ rest)
        × Laid file (gate_after gate group) rest end }
{}

/// Behind the last group none lies.
pub fn no_group_is_read_behind_the_last()
    ensures { (file : List ℕ) (gate end : Gate) (groups : List (List ℕ))
        → Laid file gate groups end → end.at ≤ gate.at → groups ≡ [] }
{}

/// A file whose gates lead to one that is shut is cut nowhere, and no file of groups is cut.
pub fn a_file_of_groups_is_not_cut()
    ensures ended { (file : List ℕ) (end : Gate) (at : ℕ) → EndsAt file end → ¬ IsCutAt file at }
    ensures groups { (file : List ℕ) (groups : List (List ℕ)) (at : ℕ) → StandsFor file groups
        → ¬ IsCutAt file at }
{}

/// Groups that lie from the front of a file to where its gates end are all that it stands for, and
/// lie to that very gate.
pub fn groups_up_to_the_end_are_all()
    ensures gate { (file : List ℕ) (end last : Gate) (groups : List (List ℕ)) → EndsAt file end
        → Laid file first_gate groups last → last.at ≡ end.at → last ≡ end }
    ensures ready { (file : List ℕ) (end last : Gate) (groups : List (List ℕ)) → EndsAt file end
        → Laid file first_gate groups last → last.at ≡ end.at → Ready file end groups }
{}

/// What a crash leaves of a file of groups, also of one to which a group is being added, is cut
/// nowhere, so an open does not tell it as damaged.
pub fn what_a_crash_leaves_is_not_cut<D: Disk>()
    ensures ready { (disk : D) (end : Gate) (groups : List (List ℕ))
        → IsReady D.Disk disk end groups → (c : List ℕ) → D.Disk.may_leave disk c → (at : ℕ)
        → ¬ IsCutAt c at }
    ensures added { (disk : D) (groups : List (List ℕ)) (group : List ℕ)
        → LeavesEither D.Disk disk groups group → (c : List ℕ) → D.Disk.may_leave disk c
        → (at : ℕ) → ¬ IsCutAt c at }
{}
