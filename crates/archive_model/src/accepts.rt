//! Which transfer syntaxes are accepted, and how a data set is then sent (PS3.7, annex D.3.2).

ghost use Rattle.std.specs.Prelude.{◌≡◌};
ghost use Rattle.archive_model.specs.Accepts.{form_by, form_for as form_in_for, syntax_of as syntax_in_of};

use data_set::Syntax;
use octets::{ListOf, Octets};

/// A SOP class, and whether its data sets may be sent in each transfer syntax.
#[derive(Debug, Drop)]
pub struct Accepted {
    pub class: Octets,
    /// Implicit VR Little Endian
    pub implicit: bool,
    /// Explicit VR Little Endian
    pub explicit: bool,
}

/// What is accepted of each SOP class. Of equal classes the first counts.
#[derive(Debug, Drop)]
pub struct Accepts {
    pub list: ListOf<Accepted>,
}

/// How a data set is sent.
#[derive(Clone, Copy, Debug, PartialEq, Eq)]
pub enum Form {
    /// In its own transfer syntax.
    Own,
    /// Converted to the implicit one.
    Converted,
}

impl Accepted {
    /// How a data set of this transfer syntax is sent: in its own where that is accepted, else
    /// converted to the implicit one.
    fn form(&self, own: Syntax) -> Option<Form>
        ensures { result ≡ form_by self.now.implicit self.now.explicit own }
    {
        match (own, self.implicit, self.explicit) {
            (Syntax::Implicit, true, _) => Some(Form::Own),
            (Syntax::Implicit, false, _) => None,

            (Syntax::Explicit, _, true) => Some(Form::Own),
            (Syntax::Explicit, true, false) => Some(Form::Converted),
            (Syntax::Explicit, false, false) => None,
        }
    }
}

impl Accepts {
    /// How a data set of this class and transfer syntax is sent, or `None` where no accepted one
    /// serves.
    pub fn form_for(&self, class: &[u8], own: Syntax) -> Option<Form>
        ensures { result ≡ form_in_for self.now.list class.now own }
    {
        let mut rest = self.list.as_slice();
        while let [first, others @ ..] = rest {
            if first.class.as_slice() == class {
                return first.form(own);
            }
            rest = others;
        }
        None
    }
}

/// The transfer syntax in which a data set goes out.
pub fn syntax_of(form: Form, own: Syntax) -> Syntax
    ensures { result ≡ syntax_in_of form own }
{
    match form {
        Form::Own => own,
        Form::Converted => Syntax::Implicit,
    }
}
