//! Entries: nodes at which two sites differ.

ghost use Rattle.std.specs.Prelude.{◌≡◌, Some, None};
ghost use Rattle.std.specs.Option.{option_map};
ghost use Rattle.walk_frames.specs.Entries.{IsEntry};

use crate::node::Node;
use crate::sums::Sums;
use std::marker::Model;

/// A node at which two sites differ: a place, which is split no further, or a split, with the sums
/// of the node's children.
#[derive(Debug, Drop)]
pub struct Entry {
    node: Node,
    sums: Option<Sums>,
}

impl Model for Entry {
    ghost use Rattle.walk_frames.specs.Entries.{EntryParts};

    ghost Value = { EntryParts };

    ghost view = { λ e. record { node = e.node; sums = e.sums } };
}

impl Entry {
    /// A node that is split no further.
    pub fn place(node: Node) -> Entry
        ensures { result ≡ record { node = node; sums = None } }
    {
        Entry { node, sums: None }
    }

    /// A node that is split, and the sums of its children.
    pub fn split(node: Node, sums: Sums) -> Entry
        ensures { result ≡ record { node = node; sums = Some sums } }
    {
        Entry {
            node,
            sums: Some(sums),
        }
    }

    pub(crate) fn of(node: Node, sums: Option<Sums>) -> Entry
        ensures { result ≡ record { node = node; sums = sums } }
    {
        Entry { node, sums }
    }

    pub fn node(&self) -> &Node
        ensures { result.now ≡ self.now.node }
    {
        &self.node
    }

    /// The sums of the node's children, or `None` of a place.
    pub fn sums(&self) -> Option<&Sums>
        ensures { option_map (λ sums. sums.now) result ≡ self.now.sums }
    {
        self.sums.as_ref()
    }

    /// Its node and its sums are what they say. Nothing is done: this is a fact for callers.
    pub fn see_parts(&self)
        ensures { IsEntry self.now }
    {
        let _ = self.node.digits();
        if let Some(sums) = &self.sums {
            let _ = sums.as_slice();
        }
    }
}
