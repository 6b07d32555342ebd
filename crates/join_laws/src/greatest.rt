//! The greatest of some values.
ghost use Rattle.std.specs.Prelude.{◌≡◌, OnOk, OnErr, IfOk, Option, None, Some};
ghost use Rattle.std.specs.Option.{option_copied};
ghost use Rattle.join_laws.specs.Laws.{IsBefore};
ghost use Rattle.join_laws.specs.Greatest.{greatest_of};
ghost use Rattle.join_laws.specs.Proved.Orders.{greatest_laws, greatest_summary_laws};

use crate::element::{Copies, Exact};
use crate::join::Join;
use crate::summary::Summary;
use crate::undoes::Undoes;
use std::alloc::{AllocError, Global};
use std::marker::Model;
use std::mem::replace;

/// The greatest of some values, or nothing where there are none.
#[derive(Drop)]
pub struct Greatest<T> {
    value: Option<T>,
}

impl<T> Model for Greatest<T> {
    ghost use Rattle.std.specs.Prelude.{Option};

    ghost Value = { Option T };

    ghost view = { λ a. a.value };
}

impl<T: Exact> Greatest<T> {
    /// The greatest of no values.
    pub fn empty(_: Global) -> Greatest<T>
        ensures { result ≡ None }
    {
        Greatest { value: None }
    }

    /// The greatest of one value.
    pub fn of(value: T) -> Greatest<T>
        ensures { result ≡ Some value }
    {
        Greatest { value: Some(value) }
    }

    /// The greatest value, or `None` where there are none.
    pub fn get(&self) -> Option<&T>
        ensures { option_copied result ≡ self.now }
    {
        self.value.as_ref()
    }

    // Takes in one value, and answers the one before if that changed.
    fn take(&mut self, value: &T) -> Result<Option<Option<T>>, AllocError>
        ensures ok { OnOk result (self.new ≡ greatest_of T.cmp self.old (Some value.now)) }
        ensures before { IfOk result (λ before. IsBefore self.old self.new before) }
        ensures refused { OnErr result (self.new ≡ self.old) }
    {
        if let Some(greatest) = &self.value {
            if value <= greatest {
                return Ok(None);
            }
        }
        let copy = value.copy()?;
        Ok(Some(replace(&mut self.value, Some(copy))))
    }
}

impl<T: Exact> Copies for Greatest<T> {
    fn copy(&self) -> Result<Greatest<T>, AllocError> {
        match &self.value {
            Some(value) => Ok(Greatest::of(value.copy()?)),
            None => Ok(Greatest { value: None }),
        }
    }
}

impl<T: Exact> Join for Greatest<T> {
    ghost IsHeld = { λ _. Unit {0} };

    ghost joined = { greatest_of T.cmp };

    ghost laws = { greatest_laws T.cmp T.total T.exact };

    fn join_with(&mut self, other: &Greatest<T>) -> Result<(), AllocError> {
        match &other.value {
            Some(value) => {
                let _ = self.take(value)?;
                Ok(())
            }
            None => Ok(()),
        }
    }

    fn held(&self) {}
}

impl<T: Exact> Summary<T> for Greatest<T> {
    ghost nothing = { None };

    ghost of_one = { Some };

    ghost summary_laws = { greatest_summary_laws T.cmp T.total T.exact };

    fn empty(alloc: Global) -> Greatest<T> {
        Greatest::empty(alloc)
    }

    fn add(&mut self, value: &T) -> Result<(), AllocError> {
        let _ = self.take(value)?;
        Ok(())
    }
}

impl<T: Exact> Undoes<T> for Greatest<T> {
    type Undo = Option<Option<T>>;

    ghost TakesBack = { λ before value undo.
        IsBefore before (greatest_of T.cmp before (Some value)) undo };

    fn add_with_undo(&mut self, value: &T) -> Result<Option<Option<T>>, AllocError> {
        self.take(value)
    }

    fn undo(&mut self, _: &T, undo: Option<Option<T>>) {
        if let Some(before) = undo {
            self.value = before;
        }
    }
}
