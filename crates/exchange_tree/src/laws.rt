//! What the tree finds: laws, said as contracts of functions with nothing to do.

ghost use Rattle.exchange_tree.specs.Nodes.{ChildrenHaveAll};
ghost use Rattle.exchange_tree.specs.Steps.{EqualDigestsTell, StepFinds};
ghost use Rattle.exchange_tree.specs.Premise.{ToldHashesTell};
ghost use Rattle.exchange_tree.specs.Taking.{TakenInPlace};

/// The tree is complete: each digest beneath a node of fewer than 64 digits is beneath exactly one
/// of its 16 children.
pub fn a_digest_is_beneath_one_child()
    ensures { ChildrenHaveAll }
{}

/// One step of the walk: a digest that is in one of two sets and not in the other, beneath a node,
/// is beneath a child of it whose sums are unequal, if the digests beneath a child are equal where
/// its two sums are.
pub fn a_step_finds_what_one_lacks()
    ensures { StepFinds }
{}

/// Two sets of digests that are equal, or equal beneath each child of a node, meet that premise,
/// however many they are.
pub fn equal_digests_meet_the_premise_of_nodes()
    ensures { EqualDigestsTell }
{}

/// So do any two in order where SHA-256 tells the texts apart that were hashed for the step: those
/// of each child, and above the places those of the places beneath.
pub fn texts_that_are_told_apart_meet_the_premise_of_nodes()
    ensures { ToldHashesTell }
{}

/// A digest that is taken changes the digests beneath its own place alone.
pub fn a_digest_is_taken_in_its_place()
    ensures { TakenInPlace }
{}
