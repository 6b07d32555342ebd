//! Lists that contracts see as the list of their elements.

ghost use Rattle.std.specs.Prelude.{◌≡◌, ◌++◌, ◌∷◌, [], ◌==◌, IfErr, OnOk, OnErr, length};

use std::alloc::{AllocFailed, Global};
use std::marker::Model;

/// Elements on the heap, such as the PDVs of a P-DATA-TF.
#[derive(Debug, Drop)]
pub struct ListOf<T> {
    elements: Vec<T>,
}

impl<T> Model for ListOf<T> {
    ghost use Rattle.std.specs.Prelude.{List};

    ghost Value = { List T };

    ghost view = { λ l. l.elements.items };
}

impl<T> ListOf<T> {
    /// No elements. It takes no memory.
    pub fn new(alloc: Global) -> ListOf<T>
        ensures { result ≡ [] }
    {
        ListOf {
            elements: Vec::new(alloc),
        }
    }

    /// The elements of a `Vec`, which is kept as it is.
    pub fn of(elements: Vec<T>) -> ListOf<T>
        ensures { result ≡ elements.items }
    {
        ListOf { elements }
    }

    pub fn as_slice(&self) -> &[T]
        ensures { result.now ≡ self.now }
    {
        self.elements.as_slice()
    }

    pub fn len(&self) -> usize
        ensures { result ≡ length self.now }
    {
        self.elements.len()
    }

    pub fn is_empty(&self) -> bool
        ensures { result ≡ (length self.now == 0) }
    {
        self.elements.is_empty()
    }

    /// The `Vec` that was kept.
    pub fn into_vec(self) -> Vec<T>
        ensures { result.items ≡ self }
    {
        let ListOf { elements } = self;
        elements
    }

    /// Puts an element at the end. A refusal hands it back and changes nothing.
    pub fn push(&mut self, element: T) -> Result<(), AllocFailed<T>>
        ensures pushed { OnOk result (self.new ≡ self.old ++ element ∷ []) }
        ensures kept { OnErr result (self.new ≡ self.old) }
        ensures returned { IfErr result (λ e. e.value ≡ element) }
    {
        self.elements.push(element)
    }
}
