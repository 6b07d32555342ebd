//! Two values that are kept side by side.
ghost use Rattle.std.specs.Prelude.{◌≡◌};
ghost use Rattle.join_laws.specs.PairOf.{pair_joined, both};
ghost use Rattle.join_laws.specs.Proved.Pairs.{pair_laws, pair_summary_laws};

use crate::element::Copies;
use crate::join::Join;
use crate::summary::Summary;
use crate::undoes::Undoes;
use std::alloc::{AllocError, Global};
use std::marker::Model;

/// Two values, which are joined part by part.
///
/// To go back where memory is refused in the second part, a join copies the first one, so the
/// smaller part stands first. One more operation copies nothing: the first part takes it back.
#[derive(Drop)]
pub struct PairOf<A, B> {
    first: A,
    second: B,
}

impl<A, B> Model for PairOf<A, B> {
    ghost Value = { A × B };

    ghost view = { λ a. (a.first, a.second) };
}

impl<A, B> PairOf<A, B> {
    /// The pair of two values.
    pub fn of(first: A, second: B) -> PairOf<A, B>
        ensures { result ≡ (first, second) }
    {
        PairOf { first, second }
    }

    /// The two values.
    pub fn get(&self) -> (&A, &B)
        ensures first { result.0.now ≡ self.now.0 }
        ensures second { result.1.now ≡ self.now.1 }
    {
        (&self.first, &self.second)
    }
}

impl<A: Copies, B: Copies> Copies for PairOf<A, B> {
    fn copy(&self) -> Result<PairOf<A, B>, AllocError> {
        Ok(PairOf {
            first: self.first.copy()?,
            second: self.second.copy()?,
        })
    }
}

impl<A: Join + Copies, B: Join> Join for PairOf<A, B> {
    ghost IsHeld = { λ a. A.IsHeld a.0 × B.IsHeld a.1 };

    ghost joined = { pair_joined A.joined B.joined };

    ghost laws = { pair_laws A.laws B.laws };

    fn join_with(&mut self, other: &PairOf<A, B>) -> Result<(), AllocError> {
        let mut first = self.first.copy()?;
        first.join_with(&other.first)?;
        self.second.join_with(&other.second)?;
        self.first = first;
        Ok(())
    }

    fn held(&self) {
        self.first.held();
        self.second.held();
    }
}

impl<O, A: Undoes<O> + Copies, B: Summary<O>> Summary<O> for PairOf<A, B> {
    ghost nothing = { (A.nothing, B.nothing) };

    ghost of_one = { both A.of_one B.of_one };

    ghost summary_laws = { pair_summary_laws A.summary_laws B.summary_laws };

    fn empty(alloc: Global) -> PairOf<A, B> {
        PairOf {
            first: A::empty(alloc),
            second: B::empty(alloc),
        }
    }

    fn add(&mut self, op: &O) -> Result<(), AllocError> {
        self.first.held();
        let first = self.first.add_with_undo(op)?;
        if let Err(refused) = self.second.add(op) {
            self.first.undo(op, first);
            return Err(refused);
        }
        Ok(())
    }
}

impl<O, A: Undoes<O> + Copies, B: Undoes<O>> Undoes<O> for PairOf<A, B> {
    type Undo = (A::Undo, B::Undo);

    ghost TakesBack = { λ before op undo.
        A.TakesBack before.0 op undo.0 × B.TakesBack before.1 op undo.1 };

    fn add_with_undo(&mut self, op: &O) -> Result<(A::Undo, B::Undo), AllocError> {
        self.first.held();
        let first = self.first.add_with_undo(op)?;
        match self.second.add_with_undo(op) {
            Ok(second) => Ok((first, second)),
            Err(refused) => {
                self.first.undo(op, first);
                Err(refused)
            }
        }
    }

    fn undo(&mut self, op: &O, undo: (A::Undo, B::Undo)) {
        let (first, second) = undo;
        self.first.undo(op, first);
        self.second.undo(op, second);
    }
}
