//! What answers find, where they lie, and that they end: laws, said as contracts of functions with
//! nothing to do.

ghost use Rattle.exchange_walk.specs.Laws.{AnswerFinds, SaidIsTold, EntriesLieBeneath, WalkEnds};
ghost use Rattle.exchange_walk.specs.WholeWalks.{WholeWalkFinds};

/// A digest that is in one of two sets and not in the other, beneath the node of a split that was
/// heard, is beneath the node of an entry of the answer, or the answer is full. It stands on this:
/// the splits tell the sums of the other set, and where the sums of a child of their nodes are equal
/// in the two sets, so are the digests beneath it. Of no other sums is that asked.
pub fn an_answer_finds_what_one_lacks()
    ensures { AnswerFinds }
{}

/// The splits that a site says tell the sums of its own digests, and have fewer than 63 digits, so
/// that they can be answered; and each digest is beneath the split of a first walk.
pub fn a_site_tells_its_own_sums()
    ensures { SaidIsTold }
{}

/// Each entry of an answer is for a child of a split that was heard: its depth is one more.
pub fn entries_lie_beneath_what_was_told()
    ensures { EntriesLieBeneath }
{}

/// A chain of walks, each an answer to the one before, has at most 64 behind the first; and the
/// answer to the sums of an equal set is empty.
pub fn a_walk_ends()
    ensures { WalkEnds }
{}

/// A digest that is in one of two sets and not in the other at each turn of a walk from the root,
/// however both change otherwise, is beneath a place of one of the walks, once one has no splits, or
/// an answer was full. It stands on this: at each turn, where two sums that were compared are equal,
/// so are the digests beneath.
pub fn a_whole_walk_finds_what_one_lacks()
    ensures { WholeWalkFinds }
{}
