//! What follows from the definitions, for those who stand on them.

ghost use Rattle.std.specs.Prelude.{◌≡◌, ◌≤◌, ◌++◌, List, ℕ, length, take};
ghost use Rattle.recent_ops.specs.Recent.{Held, fitting, total_of};

/// Where room is made, the operations that were used last stay, and as many of them as fit.
pub fn what_stays_is_the_longest_beginning_that_fits()
    ensures fits { (most : ℕ) (held : List Held) → total_of (fitting most held) ≤ most }
    ensures beginning { (most : ℕ) (held : List Held)
        → fitting most held ≡ take (length (fitting most held)) held }
    ensures longest { (most : ℕ) (stay go : List Held) → total_of stay ≤ most
        → length stay ≤ length (fitting most (stay ++ go)) }
{}
