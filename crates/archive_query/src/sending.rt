//! What is sent of a prepared instance (PS3.4, section C.4.3.2.2).

ghost use Rattle.std.specs.Prelude.{◌≡◌, IfOk};
ghost use Rattle.archive_query.specs.Made.{IsMadeBody, IsMadeSending, AreMade};

use archive_model::{Accepts, Form, Prepared, Sending, syntax_of};
use bytes::Bytes;
use data_set::Syntax;
use octets::Octets;
use std::alloc::{AllocError, Global};

/// The data set of a prepared instance with its transfer syntax, in the form in which it is sent.
fn body_in(
    alloc: Global,
    prepared: &Prepared,
    form: Option<Form>,
) -> Result<Option<(Syntax, Bytes)>, AllocError>
    ensures { IfOk result (λ body. IsMadeBody prepared.now form body) }
{
    match form {
        None => Ok(None),
        Some(form) => {
            let text = prepared.body(alloc, form)?;
            Ok(Some((syntax_of(form, prepared.syntax()), text)))
        }
    }
}

/// What is sent of a prepared instance.
fn sending_of(alloc: Global, accepts: &Accepts, prepared: &Prepared) -> Result<Sending, AllocError>
    ensures { IfOk result (λ sending. IsMadeSending accepts.now.list prepared.now sending) }
{
    let form = accepts.form_for(prepared.class(), prepared.syntax());
    let body = body_in(alloc, prepared, form)?;
    Ok(Sending {
        class: Octets::from_slice(alloc, prepared.class())?,
        instance: Octets::from_slice(alloc, prepared.instance())?,
        body,
    })
}

/// What is sent of some prepared instances, in their order.
pub fn sendings(
    alloc: Global,
    accepts: &Accepts,
    prepared: &[Prepared],
) -> Result<Vec<Sending>, AllocError>
    ensures { IfOk result (λ found. AreMade accepts.now.list prepared.now found.items) }
{
    let mut found = Vec::with_capacity(alloc, prepared.len())?;
    for instance in prepared {
        found.push(sending_of(alloc, accepts, instance)?)?;
    }
    Ok(found)
}
