//! The data set of a content, read again.

ghost use Rattle.std.specs.Prelude.{◌≡◌, IfOk};
ghost use Rattle.archive_model.specs.Coercion.{AreStored};

use data_set::{DataSet, SetFault, read};
use operation::Content;
use std::alloc::{AllocError, Global};

/// The data set of a content, read again.
pub fn stored(alloc: Global, content: &Content) -> Result<DataSet, AllocError>
    ensures syntax { IfOk result (λ d. d.syntax ≡ content.now.syntax) }
    ensures elements { IfOk result (λ d. AreStored content.now d.elements) }
{
    match read(alloc, content.syntax(), content.body().as_slice()) {
        Ok(set) => Ok(set),
        Err(fault) => match fault {
            SetFault::Memory => Err(AllocError),
            _ => unreachable!(),
        },
    }
}
