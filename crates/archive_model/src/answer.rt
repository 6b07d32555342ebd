//! The rows of a C-FIND (PS3.4, section C.4.1.1.3.2).

ghost use Rattle.std.specs.Prelude.{◌≡◌, IfOk};
ghost use Rattle.data_set.specs.Written.{text_of};
ghost use Rattle.archive_model.specs.Answer.{set_in, IsWritten};

use bytes::Bytes;
use data_set::{DataSet, SetFault, Syntax, read};
use std::alloc::{AllocError, Global};
use std::marker::Model;

/// One row: the identifier that it answers, as its text in Explicit VR Little Endian.
///
/// The text lies among those of other rows, whose bytes it keeps with its own.
#[derive(Drop)]
pub struct Answer {
    text: Bytes,
}

impl Model for Answer {
    ghost use Rattle.data_set.specs.Set.{Set, set_code};
    ghost use Rattle.archive_model.specs.Answer.{set_in, IsWritten};

    ghost Value = { Set };

    ghost coded = { set_code };

    ghost view = { λ a. set_in a.text };

    ghost invariant = { λ a. IsWritten a.text };
}

impl Answer {
    /// The row of a text that was written.
    pub(crate) fn of(text: Bytes) -> Answer
        requires { IsWritten text }
        ensures { result ≡ set_in text }
    {
        Answer { text }
    }

    /// The text, where it lies.
    pub fn into_text(self) -> Bytes
        ensures { result ≡ text_of self.elements }
    {
        let Answer { text } = self;
        text
    }

    /// The data set, read from the text.
    pub fn to_set(&self, alloc: Global) -> Result<DataSet, AllocError>
        ensures { IfOk result (λ set. set ≡ self.now) }
    {
        match read(alloc, Syntax::Explicit, self.text.as_slice()) {
            Ok(set) => Ok(set),
            Err(fault) => match fault {
                SetFault::Memory => Err(AllocError),
                _ => unreachable!(),
            },
        }
    }
}
