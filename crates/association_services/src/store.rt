//! What a C-STORE is answered (PS3.7, section 9.1.1; PS3.4, annex B).

ghost use Rattle.std.specs.Prelude.{◌≡◌, IfOk, None, Option, Some};
ghost use Rattle.association_services.specs.Store.{store_refusal, status_of_reply, draft_for, uid_or_empty};
ghost use Rattle.association_services.specs.Store.{ServesStore, ServesDraft};

use crate::context::{is_of_other_class, syntax};
use crate::reply::PortFault;
use crate::service::Service;
use bytes::Bytes;
use dimse::{Command, Status};
use octets::Octets;
use operation::{Content, OpFault, Taken, content_of};
use pdu::Context;
use std::alloc::{AllocError, Global};
use ul_state::is_storage_class;

/// The status of a C-STORE that is refused before its data set is read.
#[tactic(auto, unfolding(crate::specs::Store::store_refusal))]
fn refusal_of_store(context: &Context, command: &Command) -> Option<Status>
    ensures { result ≡ store_refusal context.now command.now }
{
    if is_of_other_class(context, &command.affected_class) {
        return Some(Status::SopClassNotSupported);
    }
    if !is_storage_class(context.abstract_syntax.as_slice()) {
        return Some(Status::UnrecognizedOperation);
    }
    None
}

/// The status by which a C-STORE is told what the port replied: 0000H where the content was taken
/// or was there before; C000H where another one has its digest, so that to store it again is of no
/// use; and A700H where it may be stored at another time (PS3.4, section B.2.3).
pub fn status_for(reply: Result<Taken, PortFault>) -> Status
    ensures { result ≡ status_of_reply reply }
{
    match reply {
        Ok(_) => Status::Success,
        Err(PortFault::Memory) => Status::OutOfResources,
        Err(PortFault::Busy) => Status::OutOfResources,
        Err(PortFault::Collision) => Status::CannotUnderstand,
        Err(PortFault::Shelf) => Status::OutOfResources,
    }
}

fn uid(alloc: Global, uid: &Option<Octets>) -> Result<Octets, AllocError>
    ensures { IfOk result (λ octets. octets ≡ uid_or_empty uid.now) }
{
    match uid {
        None => Ok(Octets::of(Vec::new(alloc))),
        Some(uid) => uid.copy(alloc),
    }
}

/// What a C-STORE with this data set is answered.
fn serve_body(
    alloc: Global,
    context: &Context,
    command: &Command,
    body: Bytes,
) -> Result<Service, AllocError>
    ensures { IfOk result (ServesDraft (draft_for context.now command.now body)) }
{
    let class = uid(alloc, &command.affected_class)?;
    let instance = uid(alloc, &command.affected_instance)?;
    match content_of(alloc, class, instance, syntax(context), body) {
        Ok(content) => Ok(Service::Asked(content)),
        Err(OpFault::Memory) => Err(AllocError),
        Err(OpFault::Mismatch) => Ok(Service::Responded(Status::DataSetMismatch)),
        Err(_) => Ok(Service::Responded(Status::CannotUnderstand)),
    }
}

/// What a C-STORE is answered.
pub(crate) fn serve_store(
    alloc: Global,
    context: &Context,
    command: &Command,
    body: Option<Bytes>,
) -> Result<Service, AllocError>
    ensures { IfOk result (ServesStore context.now command.now body
        (store_refusal context.now command.now)) }
{
    if let Some(status) = refusal_of_store(context, command) {
        return Ok(Service::Responded(status));
    }
    match body {
        None => Ok(Service::Responded(Status::CannotUnderstand)),
        Some(body) => serve_body(alloc, context, command, body),
    }
}
