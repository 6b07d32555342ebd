//! Nodes: places in the tree of hexadecimal digits.

ghost use Rattle.std.specs.Prelude.{◌≡◌, ◌<◌, ◌++◌, ◌∷◌, [], length, IfOk};
ghost use Rattle.std.specs.List.{list_all};
ghost use Rattle.walk_frames.specs.Nodes.{is_digit as is_digit_of, is_node as is_node_of, node_of, is_before, IsNode};

use exchange_frames::FrameFault;
use std::alloc::{AllocError, Global};
use std::cmp::Ordering;
use std::marker::Model;

/// The most digits of a node: one less than a digest has, which is a leaf.
pub const MOST_DIGITS: usize = 63;

/// How many children a node has: one for each hexadecimal digit.
pub const CHILDREN: usize = 16;

/// A place in the tree: the first hexadecimal digits of the digests beneath it, 0 to 63 of them and
/// each below 16. The root has none. Contracts see the list of its digits.
#[derive(Debug, Drop)]
pub struct Node {
    digits: Vec<u8>,
}

impl Model for Node {
    ghost use Rattle.std.specs.Prelude.{List, ℕ};
    ghost use Rattle.walk_frames.specs.Nodes.{IsNode};

    ghost Value = { List ℕ };

    ghost view = { λ n. n.digits.items };

    ghost invariant = { λ n. IsNode n.digits.items };
}

fn is_digit(digit: u8) -> bool
    ensures { result ≡ is_digit_of digit }
{
    (digit as usize) < CHILDREN
}

fn are_digits(digits: &[u8]) -> bool
    ensures { result ≡ list_all is_digit_of digits.now }
{
    digits.iter().all(|digit| is_digit(*digit))
}

fn is_node(digits: &[u8]) -> bool
    ensures { result ≡ is_node_of digits.now }
{
    digits.len() <= MOST_DIGITS && are_digits(digits)
}

impl Node {
    /// The node of these digits, which are kept as they are. More than 63, or one above 15, are
    /// `BadFrame`.
    #[tactic(auto, unfolding(crate::specs::Nodes::node_of))]
    pub fn of(digits: Vec<u8>) -> Result<Node, FrameFault>
        ensures { result ≡ node_of digits.items }
    {
        if !is_node(digits.as_slice()) {
            return Err(FrameFault::BadFrame);
        }
        Ok(Node { digits })
    }

    /// The root, which has no digits. It takes no memory.
    pub fn root(alloc: Global) -> Node
        ensures { result ≡ [] }
    {
        Node {
            digits: Vec::new(alloc),
        }
    }

    /// The child that has one digit more.
    pub fn child(&self, alloc: Global, digit: u8) -> Result<Node, AllocError>
        requires shallow { length self.now < MOST_DIGITS }
        requires digit { digit < CHILDREN }
        ensures { IfOk result (λ child. child ≡ self.now ++ digit ∷ []) }
    {
        let mut digits = Vec::from_slice(alloc, self.digits())?;
        digits.push(digit)?;
        Ok(Node { digits })
    }

    /// The digits, from the root down.
    pub fn digits(&self) -> &[u8]
        ensures value { result.now ≡ self.now }
        ensures lawful { IsNode self.now }
    {
        self.digits.as_slice()
    }

    /// Whether this node is less than a later one, which does not lie within it.
    pub fn is_before(&self, later: &Node) -> bool
        ensures { result ≡ is_before self.now later.now }
    {
        let (digits, later) = (self.digits(), later.digits());
        digits.cmp(later) == Ordering::Less && !later.starts_with(digits)
    }
}
