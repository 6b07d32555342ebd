//! The thread that keeps the shelf.

ghost use Rattle.std.specs.Prelude.{◌≡◌, ◌++◌, ◌∷◌, [], All, IfOk, IsNone, ⊤};
ghost use Rattle.operation.specs.Spelling.{digest_of, hash_of};
ghost use Rattle.hub_exchange.specs.Putting.{IsKept, AreKept};

use crate::message::{LoadRequest, PutRequest, Request};
use crossbeam_channel::{Receiver, Sender};
use hub_exchange::{Ledger, LedgerName, Shelved, put_all, put_shown, read_kept, shown};
use op_shelf::{Keep, ShelfFault};
use operation::{Digested, Op};
use std::alloc::Global;
use std::sync::Wait;

/// How many requests are put as one group, at most.
const GROUP: usize = 16;

/// No request joins a group whose data sets have so many bytes.
const GROUP_BYTES: usize = 8 << 20;

/// Requests that are put at once: the operations, and in the same places where each is answered.
#[derive(Drop)]
struct Group<N: LedgerName> {
    ops: Vec<Digested>,
    replies: Vec<Sender<Result<Shelved<N>, ShelfFault>>>,
    bytes: usize,
}

impl<N: LedgerName> Group<N> {
    /// One with no request, and with room for `GROUP`, or for none where memory is refused.
    fn new(alloc: Global) -> Group<N> {
        Group {
            ops: Vec::with_capacity(alloc, GROUP).unwrap_or(Vec::new(alloc)),
            replies: Vec::with_capacity(alloc, GROUP).unwrap_or(Vec::new(alloc)),
            bytes: 0,
        }
    }

    /// Takes a request in, or hands it back where there is no room.
    fn take(&mut self, request: PutRequest<N>) -> Option<PutRequest<N>>
        ensures op { IsNone result → self.new.ops.items ≡ self.old.ops.items ++ request.op ∷ [] }
        ensures reply { IsNone result
            → self.new.replies.items ≡ self.old.replies.items ++ request.reply ∷ [] }
    {
        let is_full = self.ops.len() >= self.ops.capacity();
        if is_full || self.replies.len() >= self.replies.capacity() || self.bytes >= GROUP_BYTES {
            return Some(request);
        }
        let PutRequest { op, reply } = request;
        self.bytes = self.bytes.saturating_add(body_len(&op));
        // There is room, so neither is refused.
        let Ok(()) = self.ops.push(op) else {
            unreachable!()
        };
        let Ok(()) = self.replies.push(reply) else {
            unreachable!()
        };
        None
    }

    /// Lets go of what was answered.
    fn clear(&mut self) {
        self.ops.clear();
        self.replies.clear();
        self.bytes = 0;
    }
}

/// How long the data set of an operation is, in bytes.
fn body_len(op: &Digested) -> usize {
    match op.op() {
        Op::Content(content) => content.body().len(),
        Op::Correction(_) => 0,
    }
}

/// Answers a request with what the shelf answered for its operation.
fn answer<N: LedgerName, S: Wait>(
    rt: &S,
    op: &Digested,
    to: &Sender<Result<Shelved<N>, ShelfFault>>,
    kept: Result<Shelved<N>, ShelfFault>,
)
    requires own { IfOk kept (λ shelved. shelved.digest ≡ digest_of op.now) }
{
    let _ = to.send(rt, kept);
}

/// Puts an operation alone, and answers.
fn keep_one<K: Keep, N: LedgerName, S: Wait>(
    rt: &S,
    shelf: &mut K,
    ledger: &mut Ledger<N>,
    op: &Digested,
    to: &Sender<Result<Shelved<N>, ShelfFault>>,
)
    requires kept { AreKept K.is_up K.holds K.lasts ledger.old shelf.old }
    ensures kept { AreKept K.is_up K.holds K.lasts ledger.new shelf.new }
{
    let kept = put_shown(shelf, ledger, op);
    answer(rt, op, to, kept);
}

/// Writes each of a group that the shelf has, and answers it.
fn answer_all<K: Keep, N: LedgerName, S: Wait>(
    rt: &S,
    shelf: &K,
    ledger: &mut Ledger<N>,
    ops: &[Digested],
    replies: &[Sender<Result<Shelved<N>, ShelfFault>>],
)
    requires put { All (λ op. IsKept K.is_up K.holds K.lasts shelf.now (hash_of op)) ops.now }
    requires kept { AreKept K.is_up K.holds K.lasts ledger.old shelf.now }
    ensures kept { AreKept K.is_up K.holds K.lasts ledger.new shelf.now }
{
    let mut rest = replies.iter();
    for op in ops {
        let Some(to) = rest.next() else {
            break;
        };
        answer(rt, op, to, Ok(shown(shelf, ledger, op)));
    }
}

/// Puts each of a group alone, and answers each.
fn keep_each<K: Keep, N: LedgerName, S: Wait>(
    rt: &S,
    shelf: &mut K,
    ledger: &mut Ledger<N>,
    group: &Group<N>,
)
    requires kept { AreKept K.is_up K.holds K.lasts ledger.old shelf.old }
    ensures kept { AreKept K.is_up K.holds K.lasts ledger.new shelf.new }
{
    for (op, to) in group.ops.as_slice().iter().zip(&group.replies) {
        keep_one(rt, shelf, ledger, op, to);
    }
}

/// Puts a group at once, and then answers each. One that is refused is put one by one, so that each
/// has its own answer.
fn keep_group<K: Keep, N: LedgerName, S: Wait>(
    rt: &S,
    shelf: &mut K,
    ledger: &mut Ledger<N>,
    group: &Group<N>,
)
    requires kept { AreKept K.is_up K.holds K.lasts ledger.old shelf.old }
    ensures kept { AreKept K.is_up K.holds K.lasts ledger.new shelf.new }
{
    if group.ops.len() < 2 {
        keep_each(rt, shelf, ledger, group);
        return;
    }
    let ops = group.ops.as_slice();
    match put_all(shelf, ledger, ops) {
        Ok(()) => answer_all(rt, shelf, ledger, ops, &group.replies),
        Err(_refused) => keep_each(rt, shelf, ledger, group),
    }
}

/// Where requests come in.
pub(crate) trait Requests<N: LedgerName> {
    // That nobody can ask any more.
    ghost is_over: { Self → Type 0 };

    /// Waits for the next request: none comes once nobody can ask any more.
    fn next(&mut self) -> Option<Request<N>>
        ensures over { IsNone result → is_over self.new };

    /// One that waits already. It waits for nobody.
    fn waiting(&mut self) -> Option<Request<N>>;
}

/// The receiving end of the channel of all threads.
#[derive(Drop)]
pub(crate) struct Inbox<'a, N: LedgerName, S: Wait> {
    pub rt: &'a S,
    pub requests: Receiver<Request<N>>,
}

impl<'a, N: LedgerName, S: Wait> Requests<N> for Inbox<'a, N, S> {
    ghost is_over = { λ _. ⊤ };

    fn next(&mut self) -> Option<Request<N>> {
        self.requests.recv(self.rt).ok()
    }

    /// While a request is just being sent the channel may seem empty, or else.
    fn waiting(&mut self) -> Option<Request<N>> {
        self.requests.try_recv(self.rt).ok()
    }
}

/// Takes in a request and the puts that wait behind it, and hands back one that finds no room, or
/// is no put.
fn gather<N: LedgerName, Q: Requests<N>>(
    requests: &mut Q,
    first: PutRequest<N>,
    group: &mut Group<N>,
) -> Option<Request<N>> {
    let mut next = first;
    for _ in 0..GROUP {
        if let Some(over) = group.take(next) {
            return Some(Request::Put(over));
        }
        match requests.waiting() {
            None => return None,
            Some(Request::Put(put)) => next = put,
            Some(Request::Load(load)) => return Some(Request::Load(load)),
        }
    }
    Some(Request::Put(next))
}

/// Reads what lies under a digest, and answers. It hashes nothing.
fn read_one<K: Keep, N: LedgerName, S: Wait>(
    rt: &S,
    shelf: &mut K,
    ledger: &Ledger<N>,
    request: &LoadRequest,
)
    requires kept { AreKept K.is_up K.holds K.lasts ledger.now shelf.old }
    ensures kept { AreKept K.is_up K.holds K.lasts ledger.now shelf.new }
{
    let read = read_kept(shelf, ledger, &request.digest);
    let _ = request.reply.send(rt, read);
}

/// Serves a request alone.
fn serve_one<K: Keep, N: LedgerName, S: Wait>(
    rt: &S,
    shelf: &mut K,
    ledger: &mut Ledger<N>,
    request: Request<N>,
)
    requires kept { AreKept K.is_up K.holds K.lasts ledger.old shelf.old }
    ensures kept { AreKept K.is_up K.holds K.lasts ledger.new shelf.new }
{
    match request {
        Request::Put(put) => keep_one(rt, shelf, ledger, &put.op, &put.reply),
        Request::Load(load) => read_one(rt, shelf, ledger, &load),
    }
}

/// Serves a request: a load alone, and a put with those that wait behind it.
fn serve<K: Keep, N: LedgerName, S: Wait, Q: Requests<N>>(
    rt: &S,
    shelf: &mut K,
    ledger: &mut Ledger<N>,
    requests: &mut Q,
    request: Request<N>,
    group: &mut Group<N>,
)
    requires kept { AreKept K.is_up K.holds K.lasts ledger.old shelf.old }
    ensures kept { AreKept K.is_up K.holds K.lasts ledger.new shelf.new }
{
    let first = match request {
        Request::Load(load) => {
            read_one(rt, shelf, ledger, &load);
            return;
        }
        Request::Put(put) => put,
    };
    let over = gather(requests, first, group);
    keep_group(rt, shelf, ledger, group);
    group.clear();
    if let Some(request) = over {
        serve_one(rt, shelf, ledger, request);
    }
}

/// Serves puts and loads until nobody can ask any more: the puts that wait, up to the next load and
/// as far as there is room, are put at once. What is answered as put is written into the ledger.
pub(crate) fn keep_all<K: Keep, N: LedgerName, S: Wait, Q: Requests<N>>(
    rt: &S,
    alloc: Global,
    shelf: &mut K,
    ledger: &mut Ledger<N>,
    requests: &mut Q,
)
    requires kept { AreKept K.is_up K.holds K.lasts ledger.old shelf.old }
    ensures kept { AreKept K.is_up K.holds K.lasts ledger.new shelf.new }
    ensures over { Q.is_over requests.new }
{
    let mut group = Group::new(alloc);
    for _ in rt.forever() {
        let Some(first) = requests.next() else {
            return;
        };
        serve(rt, shelf, ledger, requests, first, &mut group);
    }
    unreachable!()
}
