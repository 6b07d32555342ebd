//! What a C-GET is answered (PS3.7, section 9.1.3; PS3.4, section C.4.3).

ghost use Rattle.std.specs.Prelude.{◌≡◌, IfOk, Option};
ghost use Rattle.std.specs.Option.{option_copied};
ghost use Rattle.archive_model.specs.Selection.{selection_of};
ghost use Rattle.association_services.specs.Get.{is_get, get_refusal, getting_of, fetched_by, ServesSelection};
ghost use Rattle.association_services.specs.Get.{ServesGet};

use crate::call::Getting;
use crate::context::{is_of_other_class, syntax};
use crate::service::Service;
use archive_model::{QueryFault, Selection, View};
use bytes::Bytes;
use data_set::{DataSet, SetFault, Syntax, read};
use dictionary::STUDY_ROOT_GET;
use dimse::{Command, Status};
use pdu::Context;
use std::alloc::{AllocError, Global};
use ul_state::Settled;

fn is_for_get(context: &Context) -> bool
    ensures { result ≡ is_get context.now }
{
    context.abstract_syntax.as_slice() == STUDY_ROOT_GET.as_slice()
}

/// The status of a C-GET that is refused before its identifier is read.
#[tactic(auto, unfolding(crate::specs::Get::get_refusal))]
fn refusal_of_get(context: &Context, command: &Command) -> Option<Status>
    ensures { result ≡ get_refusal context.now command.now }
{
    if is_of_other_class(context, &command.affected_class) {
        return Some(Status::SopClassNotSupported);
    }
    if !is_for_get(context) {
        return Some(Status::UnrecognizedOperation);
    }
    None
}

/// A selection of who called by the title that was settled.
fn getting(settled: Option<&Settled<View>>, selection: Selection) -> Getting
    ensures { result ≡ getting_of (option_copied settled.entry) selection }
{
    match settled {
        None => Getting {
            view: View::Archive,
            selection,
        },
        Some(settled) => Getting {
            view: settled.value,
            selection,
        },
    }
}

/// What an identifier that was read is answered.
fn serve_set(
    alloc: Global,
    settled: Option<&Settled<View>>,
    syntax: Syntax,
    set: &DataSet,
) -> Result<Service, AllocError>
    ensures { IfOk result (λ service. service
        ≡ fetched_by (option_copied settled.entry) syntax (selection_of set.now.elements)) }
{
    match Selection::read(alloc, set) {
        Ok(selection) => Ok(Service::Fetched(getting(settled, selection), syntax)),
        Err(QueryFault::Memory) => Err(AllocError),
        Err(_) => Ok(Service::Responded(Status::DataSetMismatch)),
    }
}

/// What a C-GET with this identifier is answered.
fn serve_selection(
    alloc: Global,
    settled: Option<&Settled<View>>,
    syntax: Syntax,
    body: Bytes,
) -> Result<Service, AllocError>
    ensures { IfOk result (ServesSelection (option_copied settled.entry) syntax body) }
{
    match read(alloc, syntax, body.as_slice()) {
        Ok(set) => serve_set(alloc, settled, syntax, &set),
        Err(SetFault::Memory) => Err(AllocError),
        Err(_) => Ok(Service::Responded(Status::CannotUnderstand)),
    }
}

/// What a C-GET is answered.
pub(crate) fn serve_get(
    alloc: Global,
    settled: Option<&Settled<View>>,
    context: &Context,
    command: &Command,
    body: Option<Bytes>,
) -> Result<Service, AllocError>
    ensures { IfOk result (ServesGet (option_copied settled.entry) context.now body
        (get_refusal context.now command.now)) }
{
    if let Some(status) = refusal_of_get(context, command) {
        return Ok(Service::Responded(status));
    }
    match body {
        None => Ok(Service::Responded(Status::CannotUnderstand)),
        Some(body) => serve_selection(alloc, settled, syntax(context), body),
    }
}
