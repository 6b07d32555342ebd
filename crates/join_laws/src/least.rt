//! The least of some values.
ghost use Rattle.std.specs.Prelude.{◌≡◌, OnOk, OnErr, IfOk, Option, None, Some};
ghost use Rattle.std.specs.Option.{option_copied};
ghost use Rattle.join_laws.specs.Laws.{IsBefore};
ghost use Rattle.join_laws.specs.Least.{least_of};
ghost use Rattle.join_laws.specs.Proved.Orders.{least_laws, least_summary_laws};

use crate::element::{Copies, Exact};
use crate::join::Join;
use crate::summary::Summary;
use crate::undoes::Undoes;
use std::alloc::{AllocError, Global};
use std::marker::Model;
use std::mem::replace;

/// The least of some values, or nothing where there are none.
#[derive(Drop)]
pub struct Least<T> {
    value: Option<T>,
}

impl<T> Model for Least<T> {
    ghost use Rattle.std.specs.Prelude.{Option};

    ghost Value = { Option T };

    ghost view = { λ a. a.value };
}

impl<T: Exact> Least<T> {
    /// The least of no values.
    pub fn empty(_: Global) -> Least<T>
        ensures { result ≡ None }
    {
        Least { value: None }
    }

    /// The least of one value.
    pub fn of(value: T) -> Least<T>
        ensures { result ≡ Some value }
    {
        Least { value: Some(value) }
    }

    /// The least value, or `None` where there are none.
    pub fn get(&self) -> Option<&T>
        ensures { option_copied result ≡ self.now }
    {
        self.value.as_ref()
    }

    // Takes in one value, and answers the one before if that changed.
    fn take(&mut self, value: &T) -> Result<Option<Option<T>>, AllocError>
        ensures ok { OnOk result (self.new ≡ least_of T.cmp self.old (Some value.now)) }
        ensures before { IfOk result (λ before. IsBefore self.old self.new before) }
        ensures refused { OnErr result (self.new ≡ self.old) }
    {
        if let Some(least) = &self.value {
            if least <= value {
                return Ok(None);
            }
        }
        let copy = value.copy()?;
        Ok(Some(replace(&mut self.value, Some(copy))))
    }
}

impl<T: Exact> Copies for Least<T> {
    fn copy(&self) -> Result<Least<T>, AllocError> {
        match &self.value {
            Some(value) => Ok(Least::of(value.copy()?)),
            None => Ok(Least { value: None }),
        }
    }
}

impl<T: Exact> Join for Least<T> {
    ghost IsHeld = { λ _. Unit {0} };

    ghost joined = { least_of T.cmp };

    ghost laws = { least_laws T.cmp T.total T.exact };

    fn join_with(&mut self, other: &Least<T>) -> Result<(), AllocError> {
        match &other.value {
            Some(value) => {
                let _ = self.take(value)?;
                Ok(())
            }
            None => Ok(()),
        }
    }

    fn held(&self) {}
}

impl<T: Exact> Summary<T> for Least<T> {
    ghost nothing = { None };

    ghost of_one = { Some };

    ghost summary_laws = { least_summary_laws T.cmp T.total T.exact };

    fn empty(alloc: Global) -> Least<T> {
        Least::empty(alloc)
    }

    fn add(&mut self, value: &T) -> Result<(), AllocError> {
        let _ = self.take(value)?;
        Ok(())
    }
}

impl<T: Exact> Undoes<T> for Least<T> {
    type Undo = Option<Option<T>>;

    ghost TakesBack = { λ before value undo.
        IsBefore before (least_of T.cmp before (Some value)) undo };

    fn add_with_undo(&mut self, value: &T) -> Result<Option<Option<T>>, AllocError> {
        self.take(value)
    }

    fn undo(&mut self, _: &T, undo: Option<Option<T>>) {
        if let Some(before) = undo {
            self.value = before;
        }
    }
}
