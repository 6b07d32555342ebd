//! The line to the thread that keeps the shelf: a request goes out, and an answer comes back.

ghost use Rattle.std.specs.Prelude.{List, ℕ, Option, IfOk, OnOk, MatchResult};
ghost use Rattle.devices.specs.Failures.{Counts};
ghost use Rattle.operation.specs.declared.op.Op.{Op as AnOp};
ghost use Rattle.op_shelf.specs.declared.fault.ShelfFault.{ShelfFault as AFault};
ghost use Rattle.archive_server.specs.Asking.{WasAnswered};

use crate::message::{LoadRequest, PutRequest, Request};
use crossbeam_channel::{Receiver, Sender, bounded};
use hub_exchange::{LedgerName, Shelved};
use op_shelf::{ShelfFault, StoreCause};
use operation::{Digest, Digested, Op};
use std::alloc::{AllocError, Global};
use std::sync::Wait;

/// A line to the thread that keeps a shelf.
pub(crate) trait Line<N: LedgerName> {
    // How often it has failed.
    ghost failures: { Self → ℕ };

    // Between these the thread answered that it put the operation of this digest.
    ghost put: { Self → Self → List ℕ → Type 0 };

    // Between these it answered that the shelf refuses, and why.
    ghost refused: { Self → Self → AFault → Type 0 };

    // Between these it answered that this was read.
    ghost loaded: { Self → Self → Option AnOp → Type 0 };

    /// Asks for a put, and waits for what the thread answers. An outer `Err` is what a failure of
    /// the line is told as.
    fn ask(&mut self, op: &Digested) -> Result<Result<Shelved<N>, ShelfFault>, ShelfFault>
        ensures counted { Counts (failures self.old) (failures self.new) result }
        ensures answered { IfOk result (λ answer. MatchResult answer
            (λ shelved. put self.old self.new shelved.digest) (refused self.old self.new)) };

    /// Asks for what is read under a digest, likewise. Nobody has hashed it yet.
    fn ask_load(&mut self, digest: &Digest) -> Result<Result<Option<Op>, ShelfFault>, ShelfFault>
        ensures counted { Counts (failures self.old) (failures self.new) result }
        ensures answered { IfOk result (λ answer. MatchResult answer
            (loaded self.old self.new) (refused self.old self.new)) };
}

/// Sends a request, and waits for what is answered to it.
fn awaited<N: LedgerName, S: Wait, T: Drop>(
    rt: &S,
    to: &Sender<Request<N>>,
    request: Request<N>,
    answer: &Receiver<Result<T, ShelfFault>>,
) -> Result<Result<T, ShelfFault>, ShelfFault> {
    if to.send(rt, request).is_err() {
        return Err(ShelfFault::Store(StoreCause::Other));
    }
    match answer.recv(rt) {
        Ok(answered) => Ok(answered),
        Err(_closed) => Err(ShelfFault::Store(StoreCause::Other)),
    }
}

/// Asks for a put. Nothing is hashed, and the bytes of a data set are shared with the shelf's
/// thread.
fn answer_of<N: LedgerName, S: Wait>(
    rt: &S,
    alloc: Global,
    to: &Sender<Request<N>>,
    op: &Digested,
) -> Result<Result<Shelved<N>, ShelfFault>, ShelfFault> {
    let (reply, answer) = bounded(alloc, 1)?;
    let op = op.copy(alloc)?;
    awaited(rt, to, Request::Put(PutRequest { op, reply }), &answer)
}

/// Asks for what is read under a digest.
fn read_by<N: LedgerName, S: Wait>(
    rt: &S,
    alloc: Global,
    to: &Sender<Request<N>>,
    digest: Digest,
) -> Result<Result<Option<Op>, ShelfFault>, ShelfFault> {
    let (reply, answer) = bounded(alloc, 1)?;
    awaited(
        rt,
        to,
        Request::Load(LoadRequest { digest, reply }),
        &answer,
    )
}

/// Asks for what is read under a digest, and waits for nothing: it comes there, or the channel is
/// let go.
pub(crate) fn read_later<N: LedgerName, S: Wait>(
    rt: &S,
    alloc: Global,
    to: &Sender<Request<N>>,
    digest: Digest,
) -> Result<Receiver<Result<Option<Op>, ShelfFault>>, AllocError> {
    let (reply, answer) = bounded(alloc, 1)?;
    let _ = to.send(rt, Request::Load(LoadRequest { digest, reply }));
    Ok(answer)
}

/// How often a line has failed, and how often an answer came over it. Nobody else counts on it.
#[derive(Clone, Copy)]
pub(crate) struct Tried {
    failures: u64,
    answers: u64,
}

impl Tried {
    /// Counts an answer, or that the line failed.
    fn count<T>(&mut self, answer: &Result<T, ShelfFault>)
        ensures counted { Counts self.old.failures self.new.failures answer.now }
        ensures answered { OnOk answer.now (WasAnswered self.old self.new) }
    {
        match answer {
            Ok(_answered) => self.answers = self.answers.saturating_add(1),
            Err(_fault) => self.failures = self.failures.saturating_add(1),
        }
    }
}

/// The line over the channel of all threads. No contract of a channel says when it is closed, or
/// what comes over it, so failures and answers are counted here.
pub(crate) struct Channel<'a, N: LedgerName, S: Wait> {
    rt: &'a S,
    alloc: Global,
    to: &'a Sender<Request<N>>,
    pub tried: Tried,
}

impl<'a, N: LedgerName, S: Wait> Channel<'a, N, S> {
    pub fn new(rt: &'a S, alloc: Global, to: &'a Sender<Request<N>>) -> Channel<'a, N, S> {
        Channel {
            rt,
            alloc,
            to,
            tried: Tried {
                failures: 0,
                answers: 0,
            },
        }
    }
}

impl<'a, N: LedgerName, S: Wait> Channel<'a, N, S> {
    /// With what a thread waits.
    pub fn rt(&self) -> &'a S {
        self.rt
    }

    /// Where memory is taken.
    pub fn alloc(&self) -> Global {
        self.alloc
    }

    /// Where requests go out.
    pub fn to(&self) -> &'a Sender<Request<N>> {
        self.to
    }
}

impl<'a, N: LedgerName, S: Wait> Clone for Channel<'a, N, S> {
    fn clone(&self) -> Result<Channel<'a, N, S>, AllocError> {
        Ok(*self)
    }
}

impl<'a, N: LedgerName, S: Wait> Copy for Channel<'a, N, S> {}

impl<'a, N: LedgerName, S: Wait> Line<N> for Channel<'a, N, S> {
    ghost use Rattle.archive_server.specs.Asking.{WasAnswered};

    ghost failures = { λ c. c.tried.failures };

    ghost put = { λ before after _. WasAnswered before.tried after.tried };

    ghost refused = { λ before after _. WasAnswered before.tried after.tried };

    ghost loaded = { λ before after _. WasAnswered before.tried after.tried };

    fn ask(&mut self, op: &Digested) -> Result<Result<Shelved<N>, ShelfFault>, ShelfFault> {
        let answer = answer_of(self.rt, self.alloc, self.to, op);
        self.tried.count(&answer);
        answer
    }

    fn ask_load(&mut self, digest: &Digest) -> Result<Result<Option<Op>, ShelfFault>, ShelfFault> {
        let answer = read_by(self.rt, self.alloc, self.to, *digest);
        self.tried.count(&answer);
        answer
    }
}
