//! A set of digests with its sums, and what it tells of a node.

ghost use Rattle.std.specs.Prelude.{◌≡◌, IfOk};
ghost use Rattle.exchange_tree.specs.Sums.{child_sums, AreKept};
ghost use Rattle.exchange_tree.specs.Steps.{differing_at};
ghost use Rattle.exchange_walk.specs.Answers.{is_place as is_place_in, entry_of as entry_in};

use exchange_frames::Digests;
use exchange_tree::{KeptSums, children, count_beneath, differing};
use std::alloc::{AllocError, Global};
use std::marker::Model;
use walk_frames::{Entry, MOST_DIGITS, Node, Sums};

/// How many digests a place has at most, unless its node has 63 digits.
pub const LARGEST_PLACE: usize = 16;

/// Digests that ascend, each once, and their kept sums. Contracts see the list of the digests.
#[derive(Drop)]
pub(crate) struct Summed<'a> {
    kept: &'a KeptSums,
    digests: &'a Digests,
}

impl<'a> Model for Summed<'a> {
    ghost use Rattle.std.specs.Prelude.{List, ℕ};
    ghost use Rattle.exchange_tree.specs.Sums.{AreKept};

    ghost Value = { List (List ℕ) };

    ghost view = { λ s. s.digests.now };

    ghost invariant = { λ s. AreKept s.kept.now s.digests.now };
}

impl<'a> Summed<'a> {
    pub(crate) fn of(kept: &'a KeptSums, digests: &'a Digests) -> Summed<'a>
        requires { AreKept kept.now digests.now }
        ensures { result ≡ digests.now }
    {
        Summed { kept, digests }
    }

    /// The sums of a node's children.
    pub(crate) fn sums_of(&self, alloc: Global, node: &Node) -> Result<Sums, AllocError>
        ensures { IfOk result (λ sums. sums ≡ child_sums self.now node.now) }
    {
        let sums = children(alloc, self.kept, self.digests, node.digits())?;
        match Sums::of(sums) {
            Ok(sums) => Ok(sums),
            Err(_) => unreachable!(),
        }
    }

    /// The digits of the children of a node whose sums are other than the told ones.
    pub(crate) fn differing(
        &self,
        alloc: Global,
        node: &Node,
        theirs: &Sums,
    ) -> Result<Vec<u8>, AllocError>
        ensures { IfOk result (λ digits.
            digits.items ≡ differing_at (child_sums self.now node.now) theirs.now) }
    {
        let own = children(alloc, self.kept, self.digests, node.digits())?;
        differing(alloc, own.as_slice(), theirs.as_slice())
    }

    fn is_place(&self, node: &Node) -> bool
        ensures { result ≡ is_place_in self.now node.now }
    {
        node.digits().len() >= MOST_DIGITS
            || count_beneath(self.digests, node.digits()) <= LARGEST_PLACE
    }

    /// What is told of a node: that it is a place, or the sums of its children.
    pub(crate) fn entry_of(&self, alloc: Global, node: Node) -> Result<Entry, AllocError>
        ensures { IfOk result (λ entry. entry ≡ entry_in self.now node) }
    {
        if self.is_place(&node) {
            return Ok(Entry::place(node));
        }
        let sums = self.sums_of(alloc, &node)?;
        Ok(Entry::split(node, sums))
    }
}
