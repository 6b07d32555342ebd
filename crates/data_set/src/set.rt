//! Data sets: elements in ascending tags, in one of the two transfer syntaxes.

ghost use Rattle.std.specs.Prelude.{◌≡◌};
ghost use Rattle.data_set.specs.Written.{IsSet};
ghost use Rattle.data_set.specs.Values.{value_in, items_in};
ghost use Rattle.data_set.specs.Seen.{bytes_seen, items_seen};

use crate::element::Element;
use crate::syntax::Syntax;
use crate::values::{items_of, value_of};
use std::marker::Model;

/// A data set: its syntax and its elements, which the grammar has in this order.
#[derive(Drop)]
pub struct DataSet {
    syntax: Syntax,
    elements: Vec<Element>,
}

impl Model for DataSet {
    ghost use Rattle.data_set.specs.Set.{Set, set_code};
    ghost use Rattle.data_set.specs.Written.{IsSet};

    ghost Value = { Set };

    ghost coded = { set_code };

    ghost view = { λ d. record { syntax = d.syntax; elements = d.elements.items } };

    ghost invariant = { λ d. IsSet d.syntax d.elements.items };
}

impl DataSet {
    /// The data set of these elements, which the grammar must have. It takes no memory.
    pub fn of(syntax: Syntax, elements: Vec<Element>) -> DataSet
        requires { IsSet syntax elements.items }
        ensures syntax { result.syntax ≡ syntax }
        ensures elements { result.elements ≡ elements.items }
    {
        DataSet { syntax, elements }
    }

    pub fn syntax(&self) -> Syntax
        ensures { result ≡ self.now.syntax }
    {
        self.syntax
    }

    /// The elements, in ascending tags.
    pub fn elements(&self) -> &[Element]
        ensures elements { result.now ≡ self.now.elements }
        ensures set { IsSet self.now.syntax self.now.elements }
    {
        self.elements.as_slice()
    }

    /// The value of an element without its padding, or `None` where it is missing or a sequence.
    pub fn value(&self, tag: u32) -> Option<&[u8]>
        ensures { bytes_seen result ≡ value_in tag self.now.elements }
    {
        value_of(self.elements.as_slice(), tag)
    }

    /// The items of a sequence, or `None` where it is missing or holds a value.
    pub fn items(&self, tag: u32) -> Option<&[Vec<Element>]>
        ensures { items_seen result ≡ items_in tag self.now.elements }
    {
        items_of(self.elements.as_slice(), tag)
    }
}
