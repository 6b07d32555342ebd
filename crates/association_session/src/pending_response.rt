//! What is still to be told of the request that was served last (PS3.7, section 9.3).

ghost use Rattle.std.specs.Prelude.{◌≡◌};
ghost use Rattle.association_session.specs.PendingResponse.{takes_reply, is_telling as is_telling_response};
ghost use Rattle.association_session.specs.inner.Association.{cancelled_in, pending_of};

use archive_model::Answers;
use association_services::{Awaited, Loading, Reply, Retrieval, RowKind, SubOperation};
use data_set::Syntax;
use dimse::Status;

/// Rows that are told, and the status that ends them.
#[derive(Drop)]
pub(crate) struct Telling {
    pub(crate) awaited: Awaited,
    pub(crate) kind: RowKind,
    pub(crate) rows: Answers,
    pub(crate) status: Status,
}

/// What is still to be told of a request.
#[derive(Drop)]
pub(crate) enum PendingResponse {
    /// The status of the port's reply to a store.
    Store(Awaited),
    /// The rows of the port's reply to a find.
    Find(Awaited, RowKind),
    /// Rows that are left, and what ends them.
    Rows(Telling),
    /// The sub-operations of the port's reply to a get, whose context has this transfer syntax.
    Get(Awaited, Syntax),
    /// Sub-operations that are left.
    Sending(Retrieval),
    /// What the port's reply to a load brings of a sub-operation.
    Load(Loading),
}

/// Whether the port's reply is awaited, and is one of this kind.
pub(crate) fn takes(pending: &PendingResponse, reply: &Reply) -> bool
    ensures { result ≡ takes_reply pending.now reply.now }
{
    match (pending, reply) {
        (PendingResponse::Store(_), Reply::Stored(_)) => true,
        (PendingResponse::Store(_), Reply::Found(_)) => false,
        (PendingResponse::Store(_), Reply::Gotten(_)) => false,
        (PendingResponse::Store(_), Reply::Loaded(_)) => false,
        (PendingResponse::Find(_, _), Reply::Found(_)) => true,
        (PendingResponse::Find(_, _), Reply::Stored(_)) => false,
        (PendingResponse::Find(_, _), Reply::Gotten(_)) => false,
        (PendingResponse::Find(_, _), Reply::Loaded(_)) => false,
        (PendingResponse::Rows(_), _) => false,
        (PendingResponse::Get(_, _), Reply::Gotten(_)) => true,
        (PendingResponse::Get(_, _), Reply::Stored(_)) => false,
        (PendingResponse::Get(_, _), Reply::Found(_)) => false,
        (PendingResponse::Get(_, _), Reply::Loaded(_)) => false,
        (PendingResponse::Sending(_), _) => false,
        (PendingResponse::Load(_), Reply::Loaded(_)) => true,
        (PendingResponse::Load(_), Reply::Stored(_)) => false,
        (PendingResponse::Load(_), Reply::Found(_)) => false,
        (PendingResponse::Load(_), Reply::Gotten(_)) => false,
    }
}

/// Whether rows are told or sub-operations begun, and no reply is awaited.
pub(crate) fn is_telling(pending: &PendingResponse) -> bool
    ensures { result ≡ is_telling_response pending.now }
{
    match pending {
        PendingResponse::Store(_) => false,
        PendingResponse::Find(_, _) => false,
        PendingResponse::Rows(_) => true,
        PendingResponse::Get(_, _) => false,
        PendingResponse::Sending(_) => true,
        PendingResponse::Load(_) => false,
    }
}

/// What goes on of a C-GET.
fn pending_for(retrieval: Option<Retrieval>) -> Option<PendingResponse>
    ensures { result ≡ pending_of retrieval }
{
    match retrieval {
        None => None,
        Some(retrieval) => Some(PendingResponse::Sending(retrieval)),
    }
}

/// Leaves what goes on of a C-GET to be told.
// What was left before is dropped here, so that a caller does not prove again how each kind is.
pub(crate) fn leave(pending: &mut Option<PendingResponse>, retrieval: Option<Retrieval>)
    ensures { pending.new ≡ pending_of retrieval }
{
    *pending = pending_for(retrieval);
}

/// Puts a sub-operation in the place of what was awaited.
// What was there before is dropped here, for the same reason.
pub(crate) fn put(sub: &mut Option<SubOperation>, next: Option<SubOperation>)
    ensures { sub.new ≡ next }
{
    *sub = next;
}

/// Where a sub-operation is awaited, no other is begun behind it.
pub(crate) fn cancel(sub: &mut Option<SubOperation>)
    ensures { sub.new ≡ cancelled_in sub.old }
{
    let Some(one) = sub.take() else {
        return;
    };
    *sub = Some(one.cancel());
}
