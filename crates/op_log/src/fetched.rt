//! Operations that were read ahead of their turns, and are hashed side by side.

ghost use Rattle.std.specs.Prelude.{◌≡◌, ◌<◌};
ghost use Rattle.op_log.specs.Heads.{size_of};

use crate::head;
use core::mem::replace_with;
use operation::{Digested, Op};
use std::marker::Model;
use std::thread::{Threads, available_parallelism, for_each_mut};

/// How many threads hash, at most.
const MOST: usize = 16;

/// Whether an operation was hashed.
#[derive(Drop)]
pub(crate) enum Hashing {
    Read(Op),
    Hashed(Digested),
}

/// An operation that was read, and perhaps hashed by now. Contracts see the operation.
pub(crate) struct Fetched {
    hashing: Hashing,
}

impl Model for Fetched {
    ghost use Rattle.operation.specs.declared.op.Op.{Op};
    ghost use Rattle.operation.specs.OpCode.{op_code};
    ghost use Rattle.op_log.specs.Fetched.{op_of};

    ghost Value = { Op };

    ghost coded = { op_code };

    ghost view = { λ f. op_of f.hashing };
}

// It is written out, so that a caller does not prove again how each part is dropped.
impl Drop for Fetched {
    fn drop(self) {
        let Fetched { hashing: _ } = self;
    }
}

impl Fetched {
    /// An operation that was read.
    pub(crate) fn of(op: Op) -> Fetched
        ensures { result ≡ op }
    {
        Fetched {
            hashing: Hashing::Read(op),
        }
    }

    /// How many bytes its data set has.
    pub(crate) fn size(&self) -> usize
        ensures { result ≡ size_of self.now }
    {
        match &self.hashing {
            Hashing::Read(op) => head::size_of(op),
            Hashing::Hashed(op) => head::size_of(op.op()),
        }
    }

    /// The operation with its digest, which is computed here where it was not yet.
    pub(crate) fn into_digested(self) -> Digested
        ensures { result ≡ self }
    {
        let Fetched { hashing } = self;
        match hashing {
            Hashing::Read(op) => Digested::of(op),
            Hashing::Hashed(op) => op,
        }
    }

    /// The same, hashed.
    fn hashed(self) -> Fetched
        ensures { result ≡ self }
    {
        Fetched {
            hashing: Hashing::Hashed(self.into_digested()),
        }
    }
}

/// How many threads hash: one for each processor.
pub(crate) fn threads_of<R: Threads>(rt: &R) -> usize
    ensures { 0 < result }
{
    match available_parallelism(rt) {
        Ok(processors) => processors.get().min(MOST),
        Err(_) => 1,
    }
}

/// Hashes operations in so many threads.
pub(crate) fn hash_each<R: Threads + Sync>(rt: &R, threads: usize, ops: &mut [Fetched])
    requires { 0 < threads }
    ensures { ops.new ≡ ops.old }
{
    for_each_mut(
        rt,
        ops,
        threads,
        &|_place: usize, op: &mut Fetched|
            ensures { op.new ≡ op.old }
        {
            replace_with(
                op,
                (),
                |op: Fetched, _unit: ()| -> (Fetched, ())
                    ensures { result.0 ≡ op }
                { (op.hashed(), ()) },
            );
        },
    );
}
