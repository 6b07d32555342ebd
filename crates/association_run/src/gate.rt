//! Where a test may hold an association up.

ghost use Rattle.std.specs.Prelude.{◌∷◌, [], List, Option, None};
ghost use Rattle.association_session.specs.declared.deed.Moment.{Moment};
ghost use Rattle.association_run.specs.Parts.{Passed};

use association_session::Moment;

/// What an association passes at certain moments.
pub trait Gate {
    // The moments at which it was reached, in order, where it keeps them.
    ghost reached: { Self → Option (List Moment) };

    /// Is passed by the association, which waits for it to return.
    fn reach(&mut self, moment: Moment)
        ensures { Passed (reached self.old) (reached self.new) (moment ∷ []) };
}

/// A gate that holds nobody up and keeps no moment.
#[derive(Clone, Copy, Debug, PartialEq, Eq)]
pub struct OpenGate;

impl Gate for OpenGate {
    ghost reached = { λ _. None };

    fn reach(&mut self, _moment: Moment) {}
}
