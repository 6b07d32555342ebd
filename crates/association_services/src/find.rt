//! What a C-FIND is answered (PS3.7, section 9.1.2; PS3.4, section C.4.1).

ghost use Rattle.std.specs.Prelude.{◌≡◌, IfOk, Option};
ghost use Rattle.std.specs.Option.{option_copied};
ghost use Rattle.archive_model.specs.Query.{query_of};
ghost use Rattle.association_services.specs.Find.{is_find, find_refusal, row_status as row_status_of, finding_of};
ghost use Rattle.association_services.specs.Find.{queried_by, row_text as row_text_of, rows_in, status_of_found};
ghost use Rattle.association_services.specs.Find.{ServesIdentifier, ServesFind};

use crate::call::Finding;
use crate::context::{is_of_other_class, syntax};
use crate::reply::PortFault;
use crate::service::{RowKind, Service};
use archive_model::{Answer, Answers, Query, QueryFault, View};
use bytes::Bytes;
use data_set::{DataSet, SetFault, Syntax, read, write};
use dictionary::STUDY_ROOT_FIND;
use dimse::{Command, Status};
use octets::Octets;
use pdu::Context;
use std::alloc::{AllocError, Global};
use ul_state::Settled;

fn is_for_find(context: &Context) -> bool
    ensures { result ≡ is_find context.now }
{
    context.abstract_syntax.as_slice() == STUDY_ROOT_FIND.as_slice()
}

/// The status of a C-FIND that is refused before its identifier is read.
#[tactic(auto, unfolding(crate::specs::Find::find_refusal))]
fn refusal_of_find(context: &Context, command: &Command) -> Option<Status>
    ensures { result ≡ find_refusal context.now command.now }
{
    if is_of_other_class(context, &command.affected_class) {
        return Some(Status::SopClassNotSupported);
    }
    if !is_for_find(context) {
        return Some(Status::UnrecognizedOperation);
    }
    None
}

/// The status of a row (PS3.4, section C.4.1.1.4).
fn row_status(is_partial: bool) -> Status
    ensures { result ≡ row_status_of is_partial }
{
    if is_partial {
        return Status::PendingWithoutOptionalKeys;
    }
    Status::Pending
}

/// A query of who called by the title that was settled.
fn finding(
    alloc: Global,
    settled: Option<&Settled<View>>,
    query: Query,
) -> Result<Finding, AllocError>
    ensures { IfOk result (λ finding. finding ≡ finding_of (option_copied settled.entry) query) }
{
    let Some(settled) = settled else {
        return Ok(Finding {
            called: Octets::of(Vec::new(alloc)),
            view: View::Archive,
            query,
        });
    };
    Ok(Finding {
        called: settled.title.copy(alloc)?,
        view: settled.value,
        query,
    })
}

/// What an identifier that was read is answered.
fn serve_query(
    alloc: Global,
    settled: Option<&Settled<View>>,
    syntax: Syntax,
    set: &DataSet,
) -> Result<Service, AllocError>
    ensures { IfOk result (λ service. service
        ≡ queried_by (option_copied settled.entry) syntax (query_of set.now.elements)) }
{
    match Query::read(alloc, set) {
        Ok(query) => {
            let status = row_status(query.partial());
            let finding = finding(alloc, settled, query)?;
            Ok(Service::Queried(finding, RowKind { syntax, status }))
        }
        Err(QueryFault::Memory) => Err(AllocError),
        Err(_) => Ok(Service::Responded(Status::DataSetMismatch)),
    }
}

/// What a C-FIND with this identifier is answered.
fn serve_identifier(
    alloc: Global,
    settled: Option<&Settled<View>>,
    syntax: Syntax,
    body: Bytes,
) -> Result<Service, AllocError>
    ensures { IfOk result (ServesIdentifier (option_copied settled.entry) syntax body) }
{
    match read(alloc, syntax, body.as_slice()) {
        Ok(set) => serve_query(alloc, settled, syntax, &set),
        Err(SetFault::Memory) => Err(AllocError),
        Err(_) => Ok(Service::Responded(Status::CannotUnderstand)),
    }
}

/// What a C-FIND is answered.
pub(crate) fn serve_find(
    alloc: Global,
    settled: Option<&Settled<View>>,
    context: &Context,
    command: &Command,
    body: Option<Bytes>,
) -> Result<Service, AllocError>
    ensures { IfOk result (ServesFind (option_copied settled.entry) context.now body
        (find_refusal context.now command.now)) }
{
    if let Some(status) = refusal_of_find(context, command) {
        return Ok(Service::Responded(status));
    }
    match body {
        None => Ok(Service::Responded(Status::CannotUnderstand)),
        Some(body) => serve_identifier(alloc, settled, syntax(context), body),
    }
}

/// The data set of a row, in the transfer syntax of the query's context (PS3.4, section C.4.1).
pub fn row_text(alloc: Global, syntax: Syntax, row: Answer) -> Result<Bytes, AllocError>
    ensures { IfOk result (λ text. text ≡ row_text_of syntax row) }
{
    match syntax {
        Syntax::Implicit => {
            let set = row.to_set(alloc)?.to_implicit(alloc)?;
            Ok(Bytes::from_vec(write(alloc, &set)?)?)
        }
        Syntax::Explicit => Ok(row.into_text()),
    }
}

/// The rows that the port replied, and the status of the response behind them: 0000H, or A700H
/// with no rows where the port had a fault.
pub fn found(alloc: Global, reply: Result<Answers, PortFault>) -> (Answers, Status)
    ensures rows { result.0 ≡ rows_in reply }
    ensures status { result.1 ≡ status_of_found reply }
{
    match reply {
        Ok(rows) => (rows, Status::Success),
        Err(_fault) => (Answers::new(alloc), Status::OutOfResources),
    }
}
