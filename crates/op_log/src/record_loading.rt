//! Loads an operation from a log.

ghost use Rattle.std.specs.Prelude.{◌≡◌, ◌≢◌, ◌↔◌, ℕ, Ok, None, Some, false, IfErr, IfOk, IfSome, IsErrOf, IsTrue};
ghost use Rattle.operation.specs.declared.op.Op.{Op as Operation};
ghost use Rattle.operation.specs.Spelling.{digest_of};
ghost use Rattle.op_log.specs.Kept.{first_under};
ghost use Rattle.op_log.specs.Log.{GoesOn, Looks};
ghost use Rattle.operation.specs.Records.{record_of};
ghost use Rattle.op_log.specs.Loads.{IsOfLoad, IsUnder};

use crate::{LogFault, OpLog};
use operation::{Digest, Digested, Record};
use sqlite_disk::Disk;
use std::alloc::Global;

/// The operation with a digest, of which this is the record. It is read and hashed. Whatever the
/// disk returns, none of another record is answered: that is a `Collision`.
#[tactic(auto, using(crate::proofs::LoadLaws::look_is_load))]
pub fn load<H: Disk + Drop, B: Disk + Drop>(
    alloc: Global,
    log: &mut OpLog<H, B>,
    digest: &Digest,
    kept: &Record,
) -> Result<Option<Digested>, LogFault>
    ensures none { result ≡ Ok None ↔ (first_under digest.now log.old.places ≡ None) }
    ensures told { IfOk result (λ found. IfSome found (λ op. digest_of op ≡ digest.now)) }
    ensures same { IfOk result (λ found. IfSome found (λ op. record_of op ≡ kept.now)) }
    // The very operation that was put, as long as the disk returns what was written.
    ensures exact { IsTrue (B.Disk.is_clean log.new.bodies) → (op : Operation)
        → IsUnder B.Disk digest.now log.old op → record_of op ≡ kept.now
        → IfOk result (λ found. found ≡ Some op) }
    ensures looks { Looks log.old log.new }
    ensures goes_on { GoesOn H.Disk B.Disk log.old log.new }

    // Each fault, only where it is.
    ensures collision { IsTrue (B.Disk.is_clean log.new.bodies) → IsErrOf result LogFault.Collision
        → (op : Operation) → IsUnder B.Disk digest.now log.old op → record_of op ≢ kept.now }
    ensures damaged { IsTrue (B.Disk.is_clean log.new.bodies) → (op : Operation)
        → IsUnder B.Disk digest.now log.old op
        → (n : ℕ) → ¬ IsErrOf result (LogFault.DamagedBody n) }
    ensures closed { IsErrOf result LogFault.Closed → B.Disk.is_usable log.old.bodies ≡ false }
    ensures only { IfErr result IsOfLoad }
{
    let Some(op) = log.load(digest)? else {
        return Ok(None);
    };
    if !kept.is_of(alloc, &op)? {
        return Err(LogFault::Collision);
    }
    Ok(Some(op))
}
