//! Which service answers a message (PS3.7, sections 9.1 and 9.3).

ghost use Rattle.std.specs.Prelude.{◌≡◌, IfOk};
ghost use Rattle.std.specs.Option.{option_copied};
ghost use Rattle.association_services.specs.Context.{context_in};
ghost use Rattle.association_services.specs.Service.{kind_of, unknown_status, ServesOn, ServesKind};

use crate::call::{Finding, Getting};
use crate::context::{context_with, is_of_other_class};
use crate::echo::status_of_echo;
use crate::find::serve_find;
use crate::get::serve_get;
use crate::store::serve_store;
use archive_model::View;
use bytes::Bytes;
use data_set::Syntax;
use dictionary::{C_CANCEL_RQ, C_ECHO_RQ, C_FIND_RQ, C_GET_RQ, C_STORE_RQ, RESPONSE_BIT};
use dimse::{Command, Status};
use operation::Content;
use pdu::Context;
use std::alloc::{AllocError, Global};
use ul_state::Settled;

/// What a command field says of its message.
#[derive(Clone, Copy)]
pub(crate) enum Kind {
    /// A response of any service.
    Response,
    Cancel,
    Find,
    Get,
    Echo,
    Store,
    /// A request of a service that is not known.
    Unknown,
}

/// How the rows of a query are responded.
#[derive(Clone, Copy)]
pub struct RowKind {
    /// The transfer syntax of the query's context, in which a row is spelled.
    pub syntax: Syntax,
    /// The status of each row: FF00H, or FF01H where a key of the query is not supported (PS3.4,
    /// section C.4.1.1.4).
    pub status: Status,
}

/// What a message is answered.
#[derive(Drop)]
pub enum Service {
    /// Nothing.
    Ignored,
    /// An abort of the local user.
    Broken,
    /// A response with this status.
    Responded(Status),
    /// A response with the status of the port's reply, which is asked to store this.
    Asked(Content),
    /// The rows of the port's reply, which is asked this, and then a response.
    Queried(Finding, RowKind),
    /// The sub-operations of what the port replies, which is asked this, and then a response; in
    /// this transfer syntax.
    Fetched(Getting, Syntax),
}

fn kind_for(field: u16) -> Kind
    ensures { result ≡ kind_of field }
{
    match field {
        RESPONSE_BIT.. => Kind::Response,
        C_CANCEL_RQ => Kind::Cancel,
        C_FIND_RQ => Kind::Find,
        C_GET_RQ => Kind::Get,
        C_ECHO_RQ => Kind::Echo,
        C_STORE_RQ => Kind::Store,
        _ => Kind::Unknown,
    }
}

#[tactic(auto, unfolding(crate::specs::Service::unknown_status))]
fn status_of_unknown(context: &Context, command: &Command) -> Status
    ensures { result ≡ unknown_status context.now command.now }
{
    if is_of_other_class(context, &command.affected_class) {
        return Status::SopClassNotSupported;
    }
    Status::UnrecognizedOperation
}

/// What a message is answered on this context.
fn serve_on(
    alloc: Global,
    settled: Option<&Settled<View>>,
    context: &Context,
    command: &Command,
    body: Option<Bytes>,
) -> Result<Service, AllocError>
    ensures { IfOk result (ServesKind (kind_of command.now.field) (option_copied settled.entry)
        context.now command.now body) }
{
    match kind_for(command.field) {
        Kind::Response => Ok(Service::Broken),
        Kind::Cancel => Ok(Service::Ignored),
        Kind::Find => serve_find(alloc, settled, context, command, body),
        Kind::Get => serve_get(alloc, settled, context, command, body),
        Kind::Echo => Ok(Service::Responded(status_of_echo(context, command))),
        Kind::Store => serve_store(alloc, context, command, body),
        Kind::Unknown => Ok(Service::Responded(status_of_unknown(context, command))),
    }
}

/// What a message on the context with this ID is answered, on an association with these contexts
/// and this called title. No other state has a part in it.
///
/// A message on no accepted context is answered by an abort, and so is a response, which only a
/// C-GET awaits. Want of memory is the only error; what is wrong with a request is told by its
/// status.
pub fn serve(
    alloc: Global,
    settled: Option<&Settled<View>>,
    contexts: &[Context],
    id: u8,
    command: &Command,
    body: Option<Bytes>,
) -> Result<Service, AllocError>
    ensures { IfOk result (ServesOn (option_copied settled.entry) (context_in contexts.now id)
        command.now body) }
{
    match context_with(contexts, id) {
        None => Ok(Service::Broken),
        Some(context) => serve_on(alloc, settled, context, command, body),
    }
}
