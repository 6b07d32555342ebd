//! Threads that hash what the shelf reads, side by side, for those who ask for it soon.

use crate::ahead::BESIDE;
use crossbeam_channel::{Receiver, Sender, bounded};
use op_shelf::ShelfFault;
use operation::{Digested, Op};
use recent_ops::Recent;
use std::alloc::{AllocError, Global};
use std::sync::atomic::{AtomicU64, Ordering};
use std::sync::{Mutex, Wait};
use std::thread::{Scope, Threads, available_parallelism};

/// How many threads hash, at most.
const MOST: usize = 16;

/// How many operations wait to be hashed.
const WAITING: usize = 64;

/// What a thread that hashes is asked for.
#[derive(Drop)]
enum Hashing {
    /// What the shelf reads and sends there, to be remembered. Then the other channel is let go.
    Hash(Receiver<Result<Option<Op>, ShelfFault>>, Sender<()>),
    /// Nothing any more.
    End,
}

/// The threads that hash, and how they are asked.
pub(crate) struct Hashers {
    to: Sender<Hashing>,
    requests: Receiver<Hashing>,
    /// How many there are.
    count: AtomicU64,
}

impl Drop for Hashers {
    fn drop(self) {
        let Hashers {
            to: _,
            requests: _,
            count: _,
        } = self;
    }
}

/// How much memory an operation may hold whose data set has a buffer `times` as long, in bytes.
fn weight_of(op: &Digested, times: usize) -> usize {
    match op.op() {
        Op::Content(content) => content
            .body()
            .len()
            .saturating_mul(times)
            .saturating_add(BESIDE),
        Op::Correction(_) => BESIDE,
    }
}

/// Remembers an operation whose data set has a buffer `times` as long, where there is memory.
pub(crate) fn remember<S: Wait>(rt: &S, recent: &Mutex<Recent>, op: Digested, times: usize) {
    let weight = weight_of(&op, times);
    let _ = recent.lock(rt).keep(op, weight);
}

/// Hashes what is asked for and remembers it, until nothing is any more.
fn hash_all<S: Wait>(rt: &S, requests: &Receiver<Hashing>, recent: &Mutex<Recent>) {
    for _ in rt.forever() {
        match requests.recv(rt) {
            Ok(Hashing::Hash(read, done)) => {
                if let Ok(Ok(Some(op))) = read.recv(rt) {
                    remember(rt, recent, Digested::of(op), 1);
                }
                drop(done);
            }
            Ok(Hashing::End) | Err(_) => return,
        }
    }
    unreachable!()
}

/// One for each processor, where there are several, and `MOST` at most.
fn wanted<S: Threads>(rt: &S) -> usize {
    match available_parallelism(rt) {
        Ok(processors) if processors.get() > 1 => processors.get().min(MOST),
        _ => 0,
    }
}

impl Hashers {
    /// None yet.
    pub fn new(alloc: Global) -> Result<Hashers, AllocError> {
        let (to, requests) = bounded(alloc, WAITING)?;
        Ok(Hashers {
            to,
            requests,
            count: AtomicU64::new(0),
        })
    }

    /// Starts them in a scope. Where threads are refused there are fewer, or none.
    pub fn start<'s, E, S: Threads + Wait + Sync + 's>(
        &'s self,
        rt: &'s S,
        scope: &Scope<'s, E>,
        recent: &'s Mutex<Recent>,
    ) {
        let requests = &self.requests;
        for _ in 0..wanted(rt) {
            if let Ok(_thread) = scope.spawn(move || -> () { hash_all(rt, requests, recent) }) {
                self.count.fetch_add(1, Ordering::SeqCst);
            }
        }
    }

    /// Ends them, once nobody asks any more.
    pub fn end<S: Wait>(&self, rt: &S) {
        for _ in 0..self.count.load(Ordering::SeqCst) {
            let _ = self.to.send(rt, Hashing::End);
        }
    }

    /// Whether somebody hashes.
    pub fn are_there(&self) -> bool {
        self.count.load(Ordering::SeqCst) > 0
    }

    /// Asks for the digest of what the shelf reads and sends there. Once it is remembered, or is
    /// known not to come, the second channel is let go.
    pub fn hash<S: Wait>(
        &self,
        rt: &S,
        read: Receiver<Result<Option<Op>, ShelfFault>>,
        done: Sender<()>,
    ) {
        let _ = self.to.send(rt, Hashing::Hash(read, done));
    }
}
