//! Whether a walk that was heard answers the one that was said.

ghost use Rattle.std.specs.Prelude.{◌≡◌, ◌≤◌, ◌↔◌, true, false, length};
ghost use Rattle.std.specs.List.Sorted.{IsPartitionPoint};
ghost use Rattle.walk_frames.specs.Nodes.{is_before, AreDigits};
ghost use Rattle.walk_frames.specs.Walks.{IsWalk};
ghost use Rattle.exchange_walk.specs.Hearing.{is_child_of as is_child_of_entry, IsChildOfSplit, IsAnswerTo};

use crate::splits::is_split;
use walk_frames::{Entry, Node, Walk};

/// How many of some entries stand before a node that does not lie within them.
fn count_before(said: &[Entry], node: &Node) -> usize
    requires { IsWalk said.now }
    ensures bound { result ≤ length said.now }
    ensures point { IsPartitionPoint (λ e. is_before e.node node.now ≡ true)
        (λ e. is_before e.node node.now ≡ false) said.now result }
{
    said.partition_point(
        |entry: &Entry| -> bool
            ensures { result ≡ is_before entry.now.node node.entry.now }
        { entry.node().is_before(node) },
    )
}

/// Whether an entry is a split, and a node a child of its node.
fn is_child_of(split: &Entry, node: &Node) -> bool
    ensures is { result ≡ is_child_of_entry split.now node.now }
    ensures digits { AreDigits node.now }
{
    let (digits, parent) = (node.digits(), split.node().digits());
    is_split(split) && digits.len() == parent.len() + 1 && digits.starts_with(parent)
}

/// Whether a node is a child of that of a split, which is found by halves.
fn is_child_of_split(said: &[Entry], node: &Node) -> bool
    requires { IsWalk said.now }
    ensures { (result ≡ true) ↔ IsChildOfSplit said.now node.now }
{
    let first = count_before(said, node);
    if first >= said.len() {
        return false;
    }
    is_child_of(&said[first], node)
}

/// Whether each entry that was heard is for a child of a split that was said: entries that are not
/// are a bad frame. Each is found by halves among what was said, and it takes no memory.
pub fn is_answer_to(said: &Walk, heard: &Walk) -> bool
    ensures { (result ≡ true) ↔ IsAnswerTo said.now heard.now }
{
    let said = said.entries();
    for entry in heard.entries() {
        if !is_child_of_split(said, entry.node()) {
            return false;
        }
    }
    true
}
