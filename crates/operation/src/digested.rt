//! Operations with their digests.

ghost use Rattle.std.specs.Prelude.{◌≡◌, IfOk};
ghost use Rattle.operation.specs.Spelling.{digest_of, hash_of};

use crate::digests::Digest;
use crate::hashing::digest;
use crate::op::Op;
use std::alloc::{AllocError, Global};
use std::marker::Model;

/// An operation with its own digest, so that it is hashed once. Contracts see the operation.
#[derive(Debug, Drop)]
pub struct Digested {
    digest: Digest,
    op: Op,
}

impl Model for Digested {
    ghost use Rattle.std.specs.Prelude.{◌≡◌};
    ghost use Rattle.operation.specs.declared.op.Op.{Op};
    ghost use Rattle.operation.specs.OpCode.{op_code};
    ghost use Rattle.operation.specs.Spelling.{digest_of, hash_of};

    ghost Value = { Op };

    ghost coded = { op_code };

    ghost view = { λ d. d.op };

    ghost invariant = { λ d. (d.digest ≡ digest_of d.op) × (d.digest ≡ hash_of d.op) };
}

impl Digested {
    /// The operation with its digest, which is computed here. It takes no memory.
    pub fn of(op: Op) -> Digested
        ensures { result ≡ op }
    {
        let digest = digest(&op);
        Digested { digest, op }
    }

    /// The SHA-256 of the operation's spelling (FIPS 180-4).
    pub fn digest(&self) -> &Digest
        ensures own { result.now ≡ digest_of self.now }
        ensures hash { result.now ≡ hash_of self.now }
    {
        &self.digest
    }

    pub fn op(&self) -> &Op
        ensures { result.now ≡ self.now }
    {
        &self.op
    }

    /// The operation without its digest.
    pub fn into_op(self) -> Op
        ensures { result ≡ self }
    {
        self.op
    }

    /// The digest and the operation.
    pub fn into_parts(self) -> (Digest, Op)
        ensures digest { result.0 ≡ digest_of self }
        ensures hash { result.0 ≡ hash_of self }
        ensures op { result.1 ≡ self }
    {
        (self.digest, self.op)
    }

    /// A second owner of the same operation with its digest. Nothing is hashed, and the bytes of a
    /// data set are shared.
    pub fn copy(&self, alloc: Global) -> Result<Digested, AllocError>
        ensures { IfOk result (λ copy. copy ≡ self.now) }
    {
        Ok(Digested {
            digest: self.digest,
            op: self.op.copy(alloc)?,
        })
    }
}
