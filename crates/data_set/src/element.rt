//! The elements of a data set (PS3.5, sections 7.1 and 7.5).

ghost use Rattle.std.specs.Prelude.{◌≡◌};
ghost use Rattle.data_set.specs.Tree.{leaf, node, rows_of, tag_of, vr_of};
ghost use Rattle.data_set.specs.ElementView.{tree_of};
ghost use Rattle.data_set.specs.Values.{stored_value, items_of_tree};
ghost use Rattle.data_set.specs.Seen.{bytes_seen, items_seen, lists_of};

use octets::Octets;
use std::marker::Model;

/// A value, or the items of a sequence, each with its elements.
#[derive(Drop)]
#[cycle(element)]
pub enum Content {
    Bytes(Octets),
    Items(Vec<Vec<Element>>),
}

/// One element: its tag, its value representation where the syntax spells one, and its content.
///
/// A tag is one number, group first: (0008,0018) is `0x0008_0018`.
#[derive(Drop)]
#[cycle(element)]
pub struct Element {
    pub(crate) tag: u32,
    pub(crate) vr: Option<[u8; 2]>,
    pub(crate) content: Content,
}

impl Model for Element {
    ghost use Rattle.std.specs.Prelude.{◌≤◌};
    ghost use Rattle.std.proofs.Common.{arith};
    ghost use Rattle.data_set.specs.Tree.{Tree, count};
    ghost use Rattle.data_set.specs.TreeCode.{tree_code};

    ghost Value = { Tree };

    ghost coded = { tree_code };

    ghost use Rattle.data_set.specs.ElementView.{view_of};

    ghost view = { view_of };

    ghost size = { count };

    ghost use Rattle.data_set.specs.ElementSize.{falls};

    ghost size_decreases = { λ a h. omega (arith, falls a.content a.tag a.vr) };
}

impl Element {
    /// An element of these parts. It takes no memory.
    pub fn of(tag: u32, vr: Option<[u8; 2]>, content: Content) -> Element
        ensures { result ≡ tree_of tag vr content }
    {
        Element { tag, vr, content }
    }

    /// An element that holds a value.
    pub fn leaf(tag: u32, vr: Option<[u8; 2]>, value: Octets) -> Element
        ensures { result ≡ leaf tag vr value }
    {
        Element {
            tag,
            vr,
            content: Content::Bytes(value),
        }
    }

    /// A sequence of these items.
    pub fn sequence(tag: u32, vr: Option<[u8; 2]>, items: Vec<Vec<Element>>) -> Element
        ensures { result ≡ node tag vr (rows_of (lists_of items.items)) }
    {
        Element {
            tag,
            vr,
            content: Content::Items(items),
        }
    }

    pub fn tag(&self) -> u32
        ensures { result ≡ tag_of self.now }
    {
        self.tag
    }

    /// The value representation, or `None` in the implicit syntax.
    pub fn vr(&self) -> Option<[u8; 2]>
        ensures { result ≡ vr_of self.now }
    {
        self.vr
    }

    /// The value as it is stored, with its padding, or `None` of a sequence.
    pub fn stored(&self) -> Option<&[u8]>
        ensures { bytes_seen result ≡ stored_value self.now }
    {
        match &self.content {
            Content::Bytes(value) => Some(value.as_slice()),
            Content::Items(_) => None,
        }
    }

    /// The items of a sequence, or `None` where the element holds a value.
    pub fn items(&self) -> Option<&[Vec<Element>]>
        ensures { items_seen result ≡ items_of_tree self.now }
    {
        match &self.content {
            Content::Bytes(_) => None,
            Content::Items(items) => Some(items.as_slice()),
        }
    }
}
