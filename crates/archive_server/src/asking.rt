//! How workers reach the shelf of another thread, and what they remember of it.

ghost use Rattle.std.specs.Prelude.{◌≡◌, ◌≢◌, IfErr, IfOk, IfSome};
ghost use Rattle.operation.specs.Spelling.{digest_of};
ghost use Rattle.devices.specs.Failures.{Rose};
ghost use Rattle.archive_server.specs.Asking.{RefusesOver, RefusesLoadOver, IsUnlikeDigest};

use crate::ahead::{Brings, Coming, Wanted};
use crate::hashing::{Hashers, remember};
use crate::health::Health;
use crate::line::{Channel, Line, read_later};
use crate::message::Request;
use crossbeam_channel::{Sender, bounded};
use hub_exchange::{LedgerName, Put, Shelved};
use op_shelf::{ShelfFault, StoreCause};
use operation::{Digest, Digested, Op};
use recent_ops::Recent;
use std::alloc::{AllocError, Global};
use std::sync::{Mutex, Wait};

/// Which part of what can be remembered may be on its way to one client, so that several find
/// theirs again.
const SHARE: usize = 8;

/// How many bytes an image has at least that is worth another thread.
const WORTH: usize = 1 << 14;

/// What was put, where it is the operation that was asked for.
fn of_this<N: LedgerName>(digest: &Digest, shelved: Shelved<N>) -> Result<Shelved<N>, ShelfFault>
    ensures own { IfOk result (λ shelved. shelved.digest ≡ digest.now) }
    ensures other { IfErr result (λ _. shelved.digest ≢ digest.now) }
{
    if shelved.digest.as_bytes().as_slice() == digest.as_bytes().as_slice() {
        return Ok(shelved);
    }
    Err(ShelfFault::Store(StoreCause::Other))
}

/// Puts an operation on the shelf at the other end of a line.
fn put_over<N: LedgerName, L: Line<N>>(
    line: &mut L,
    op: &Digested,
) -> Result<Shelved<N>, ShelfFault>
    ensures own { IfOk result (λ shelved. shelved.digest ≡ digest_of op.now) }
    ensures why { IfErr result
        (RefusesOver L.failures L.put L.refused line.old line.new op.now) }
{
    match line.ask(op) {
        Ok(Ok(shelved)) => of_this(op.digest(), shelved),
        Ok(Err(refused)) => Err(refused),
        Err(failed) => Err(failed),
    }
}

/// What was read, which is hashed here, where it is the operation that was asked for.
fn of_asked(digest: &Digest, read: Option<Op>) -> Result<Option<Digested>, ShelfFault>
    ensures same { IfOk result (λ answer. answer ≡ read) }
    ensures own { IfOk result (λ found. IfSome found (λ op. digest_of op ≡ digest.now)) }
    ensures other { IfErr result (IsUnlikeDigest digest.now read) }
{
    match read {
        None => Ok(None),
        Some(read) => {
            let op = Digested::of(read);
            if op.digest().as_bytes().as_slice() == digest.as_bytes().as_slice() {
                return Ok(Some(op));
            }
            Err(ShelfFault::BadRow)
        }
    }
}

/// Loads the operation of a digest from the shelf at the other end of a line: it is read there, and
/// hashed here.
fn load_over<N: LedgerName, L: Line<N>>(
    line: &mut L,
    digest: &Digest,
) -> Result<Option<Digested>, ShelfFault>
    ensures told { IfOk result (λ found. IfSome found (λ op. digest_of op ≡ digest.now)) }
    ensures loaded { IfOk result (L.loaded line.old line.new) }
    ensures why { IfErr result
        (RefusesLoadOver L.failures L.loaded L.refused line.old line.new digest.now) }
{
    match line.ask_load(digest) {
        Ok(Ok(read)) => of_asked(digest, read),
        Ok(Err(refused)) => Err(refused),
        Err(failed) => Err(failed),
    }
}

/// The way to the shelf of another thread, on which is noted what each put comes to. What was put
/// or loaded last is remembered, and not asked for again.
pub(crate) struct Asking<'a, N: LedgerName, S: Wait> {
    pub line: Channel<'a, N, S>,
    health: &'a Health,
    recent: &'a Mutex<Recent>,
    hashers: &'a Hashers,
    /// How often what was asked for was remembered.
    pub remembered: u64,
}

impl<'a, N: LedgerName, S: Wait> Asking<'a, N, S> {
    pub fn new(
        rt: &'a S,
        alloc: Global,
        to: &'a Sender<Request<N>>,
        health: &'a Health,
        recent: &'a Mutex<Recent>,
        hashers: &'a Hashers,
    ) -> Asking<'a, N, S> {
        Asking {
            line: Channel::new(rt, alloc, to),
            health,
            recent,
            hashers,
            remembered: 0,
        }
    }

    /// The operation of a digest, if it is remembered. Where memory is refused for it, it is not.
    fn remembered_as(&self, digest: &Digest) -> Option<Digested>
        ensures told { IfSome result (λ op. digest_of op ≡ digest.now) }
    {
        let found = self
            .recent
            .lock(self.line.rt())
            .find(self.line.alloc(), digest);
        found.unwrap_or(None)
    }

    /// The same. It is counted.
    fn recall(&mut self, digest: &Digest) -> Option<Digested>
        ensures told { IfSome result (λ op. digest_of op ≡ digest.now) }
        ensures counted { IfSome result (λ _. Rose self.old.remembered self.new.remembered) }
        ensures line { self.new.line ≡ self.old.line }
    {
        let op = self.remembered_as(digest)?;
        self.remembered = self.remembered.saturating_add(1);
        Some(op)
    }

    /// Remembers an operation whose data set has a buffer `times` as long, where there is memory.
    fn remember(&self, op: &Digested, times: usize) {
        if let Ok(op) = op.copy(self.line.alloc()) {
            remember(self.line.rt(), self.recent, op, times);
        }
    }
}

impl<'a, N: LedgerName, S: Wait> Clone for Asking<'a, N, S> {
    fn clone(&self) -> Result<Asking<'a, N, S>, AllocError> {
        Ok(*self)
    }
}

impl<'a, N: LedgerName, S: Wait> Copy for Asking<'a, N, S> {}

impl<'a, N: LedgerName, S: Wait> Put<N> for Asking<'a, N, S> {
    ghost use Rattle.archive_server.specs.Asking.{RefusesOverChannel, RefusesLoadOverChannel, WasBrought};

    ghost refuses = { λ before after op fault.
        RefusesOverChannel before.line.tried after.line.tried op fault };

    ghost refuses_load = { λ before after digest fault.
        RefusesLoadOverChannel before.line.tried after.line.tried digest fault };

    ghost has_loaded = { λ before after digest found.
        WasBrought before.line.tried after.line.tried before.remembered after.remembered
        digest found };

    /// The buffer of a data set that came in pieces may be twice as long as it.
    fn put(&mut self, op: &Digested) -> Result<Shelved<N>, ShelfFault> {
        let kept = put_over(&mut self.line, op);
        self.health.note(&kept);
        if kept.is_ok() {
            self.remember(op, 2);
        }
        kept
    }

    fn load(&mut self, digest: &Digest) -> Result<Option<Digested>, ShelfFault> {
        if let Some(op) = self.recall(digest) {
            return Ok(Some(op));
        }
        let found = load_over(&mut self.line, digest)?;
        if let Some(op) = &found {
            self.remember(op, 1);
        }
        Ok(found)
    }
}

impl<'a, N: LedgerName, S: Wait> Asking<'a, N, S> {
    /// Has an image read and hashed by others.
    fn ask_others(&self, digest: &Digest) -> Result<Coming, AllocError> {
        let (rt, alloc) = (self.line.rt(), self.line.alloc());
        let (done, coming) = bounded(alloc, 1)?;
        let read = read_later(rt, alloc, self.line.to(), *digest)?;
        self.hashers.hash(rt, read, done);
        Ok(Coming { done: coming })
    }
}

impl<'a, N: LedgerName, S: Wait> Brings for Asking<'a, N, S> {
    fn room(&self) -> usize {
        if !self.hashers.are_there() {
            return 0;
        }
        self.recent.lock(self.line.rt()).room() / SHARE
    }

    fn begin(&self, wanted: &Wanted) -> Option<Coming> {
        if wanted.size < WORTH || self.remembered_as(&wanted.digest).is_some() {
            return None;
        }
        match self.ask_others(&wanted.digest) {
            Ok(coming) => Some(coming),
            Err(_refused) => None,
        }
    }

    fn wait(&self, coming: Coming) {
        let _ = coming.done.recv(self.line.rt());
    }
}
