//! How operations come on a shelf, what shows that they did, and how they are loaded from it.

ghost use Rattle.std.specs.Prelude.{◌≡◌, List, ℕ, Some, Option, All, IfOk, IfErr, IfSome, OnOk};
ghost use Rattle.operation.specs.declared.op.Op.{Op as Operation};
ghost use Rattle.operation.specs.Spelling.{digest_of, hash_of};
ghost use Rattle.op_shelf.specs.declared.fault.ShelfFault.{ShelfFault};
ghost use Rattle.op_shelf.specs.Keep.{IsFoundAs};
ghost use Rattle.records.specs.StandIn.{op_in};
ghost use Rattle.hub_exchange.specs.Putting.{IsKept, AreKept, WasWritten, refusal_of};
ghost use Rattle.hub_exchange.specs.Putting.{refusal_by as refusal_in, refusal_of_load as refusal_of_a_load};
ghost use Rattle.hub_exchange.specs.Putting.{IsLent, IsUnlike, RefusesRecord, HasFound};

use crate::{Extract, Ledger, LedgerName};
use exchange::HolderFault;
use op_shelf::{Keep, ShelfFault, StoreCause};
use operation::{Digest, Digested, Op};
use records::RecordedOp;
use std::alloc::Global;
use std::marker::Brand;

/// The digest of an operation that a shelf keeps, and a beginning of that shelf's ledger in which
/// it stands.
#[derive(Drop)]
pub struct Shelved<N: LedgerName> {
    pub digest: Digest,
    pub extract: Extract<N>,
    pub ghost written: { WasWritten extract digest },
}

/// Writes the digest of an operation that was put into the ledger of its shelf.
pub fn shown<K: Keep, N: LedgerName>(
    _shelf: &K,
    ledger: &mut Ledger<N>,
    op: &Digested,
) -> Shelved<N>
    requires put { IsKept K.is_up K.holds K.lasts _shelf.now (hash_of op.now) }
    requires kept { AreKept K.is_up K.holds K.lasts ledger.old _shelf.now }
    ensures kept { AreKept K.is_up K.holds K.lasts ledger.new _shelf.now }
    ensures own { result.digest ≡ digest_of op.now }
{
    ledger.write(op.digest().as_bytes());
    Shelved {
        digest: *op.digest(),
        extract: ledger.extract(),
    }
}

/// Puts an operation on a shelf, and writes what is put into the shelf's ledger.
pub fn put_shown<K: Keep, N: LedgerName>(
    shelf: &mut K,
    ledger: &mut Ledger<N>,
    op: &Digested,
) -> Result<Shelved<N>, ShelfFault>
    requires kept { AreKept K.is_up K.holds K.lasts ledger.old shelf.old }
    ensures kept { AreKept K.is_up K.holds K.lasts ledger.new shelf.new }
    ensures own { IfOk result (λ shelved. shelved.digest ≡ digest_of op.now) }
    ensures why { IfErr result (K.refuses shelf.old shelf.new op.now) }
{
    shelf.put_digested(op)?;
    Ok(shown(shelf, ledger, op))
}

/// Puts a group of operations on a shelf, one after another and all at once. What was written
/// before is still kept.
pub fn put_all<K: Keep, N: LedgerName>(
    shelf: &mut K,
    _ledger: &Ledger<N>,
    ops: &[Digested],
) -> Result<(), ShelfFault>
    requires kept { AreKept K.is_up K.holds K.lasts _ledger.now shelf.old }
    ensures kept { AreKept K.is_up K.holds K.lasts _ledger.now shelf.new }
    ensures put { OnOk result
        (All (λ op. IsKept K.is_up K.holds K.lasts shelf.new (hash_of op)) ops.now) }
    ensures why { IfErr result (K.refuses_group shelf.old shelf.new ops.now) }
{
    shelf.put_many(ops)?;
    Ok(())
}

/// Reads what lies under a digest on a shelf, which nobody has hashed yet. What was written into
/// the shelf's ledger is still kept.
pub fn read_kept<K: Keep, N: LedgerName>(
    shelf: &mut K,
    _ledger: &Ledger<N>,
    digest: &Digest,
) -> Result<Option<Op>, ShelfFault>
    requires kept { AreKept K.is_up K.holds K.lasts _ledger.now shelf.old }
    ensures kept { AreKept K.is_up K.holds K.lasts _ledger.now shelf.new }
    // What is kept is read, as long as the disk returns what was written.
    ensures exact { K.is_up shelf.new → (op : Operation) → K.holds shelf.old op
        → hash_of op ≡ digest.now → IfOk result (λ read. IsFoundAs read op) }
    ensures why { IfErr result (K.refuses_load shelf.old shelf.new digest.now) }
{
    shelf.read(digest)
}

/// The way to a shelf that an association, or an exchange, is lent. Each call of a program picks it.
pub trait AtLending<P> {
    ghost use Rattle.std.specs.Prelude.{Option};

    ghost lent: { Option P };
}

impl<P> AtLending<P> for Brand {
    ghost use Rattle.std.specs.Prelude.{None};

    ghost lent = { None };
}

/// A way to the shelf of a ledger.
pub trait Put<N: LedgerName> {
    // Why it may refuse to put an operation, by what it was before the call and what it is then.
    ghost refuses: { Self → Self → Operation → ShelfFault → Type 0 };

    // Why it may refuse to load the operation of a digest.
    ghost refuses_load: { Self → Self → List ℕ → ShelfFault → Type 0 };

    // What it answered to a load of a digest.
    ghost has_loaded: { Self → Self → List ℕ → Option Operation → Type 0 };

    /// Puts an operation on the shelf, where it is after `Ok`.
    fn put(&mut self, op: &Digested) -> Result<Shelved<N>, ShelfFault>
        ensures own { IfOk result (λ shelved. shelved.digest ≡ digest_of op.now) }
        ensures why { IfErr result (refuses self.old self.new op.now) };

    /// Loads the operation of a digest from the shelf, if one is kept there.
    fn load(&mut self, digest: &Digest) -> Result<Option<Digested>, ShelfFault>
        ensures told { IfOk result (λ found. IfSome found (λ op. digest_of op ≡ digest.now)) }
        ensures loaded { IfOk result (has_loaded self.old self.new digest.now) }
        ensures why { IfErr result (refuses_load self.old self.new digest.now) };
}

/// What a fault of a put is to a round: want of memory, or a refusal.
pub fn refusal_of_shelf(fault: ShelfFault) -> HolderFault
    ensures { result ≡ refusal_of fault }
{
    match fault {
        ShelfFault::Memory => HolderFault::Memory,
        ShelfFault::Store(_) | ShelfFault::BadRow => HolderFault::Refused,
    }
}

/// What it is to a load that the store refused. Where the disk failed, or what it holds is damaged,
/// other operations may be read.
fn refusal_by(cause: StoreCause) -> HolderFault
    ensures { result ≡ refusal_in cause }
{
    match cause {
        StoreCause::Failed | StoreCause::Damaged => HolderFault::Unreadable,
        StoreCause::Full | StoreCause::Closed | StoreCause::Other => HolderFault::Refused,
    }
}

/// What a fault of a load is to a round. What lies under a digest and is no operation of it can't
/// be read.
fn refusal_of_load(fault: ShelfFault) -> HolderFault
    ensures { result ≡ refusal_of_a_load fault }
{
    match fault {
        ShelfFault::Memory => HolderFault::Memory,
        ShelfFault::Store(cause) => refusal_by(cause),
        ShelfFault::BadRow => HolderFault::Unreadable,
    }
}

/// What was found, where it is an operation of the record that is held, which else can't be read.
fn of_record(alloc: Global, found: Option<Digested>, held: &RecordedOp) -> Result<Op, HolderFault>
    ensures found { IfOk result (λ op. (found ≡ Some op) × (op_in op ≡ held.now)) }
    ensures unlike { IfErr result (IsUnlike held.now found) }
{
    let Some(op) = found else {
        return Err(HolderFault::Unreadable);
    };
    let recorded = RecordedOp::of(alloc, &op)?;
    if !recorded.equals(held) {
        return Err(HolderFault::Unreadable);
    }
    Ok(op.into_op())
}

/// Loads an operation of the record that is held under a digest, over a way to a shelf.
pub(crate) fn load_over<N: LedgerName, P: Put<N>>(
    alloc: Global,
    shelf: &mut P,
    digest: &Digest,
    held: &RecordedOp,
) -> Result<Op, HolderFault>
    ensures stands { IfOk result (λ op. (op_in op ≡ held.now) × (digest_of op ≡ digest.now)) }
    ensures why { IfErr result (RefusesRecord (IsLent (Some shelf.old)) P.refuses_load P.has_loaded
        held.now digest.now) }
{
    match shelf.load(digest) {
        Ok(found) => of_record(alloc, found, held),
        Err(fault) => Err(refusal_of_load(fault)),
    }
}

/// The same from a shelf, on which everything stays.
pub(crate) fn load_from<K: Keep>(
    alloc: Global,
    shelf: &mut K,
    digest: &Digest,
    held: &RecordedOp,
) -> Result<Op, HolderFault>
    ensures stands { IfOk result (λ op. (op_in op ≡ held.now) × (digest_of op ≡ digest.now)) }
    ensures why { IfErr result (RefusesRecord (IsLent (Some shelf.old)) K.refuses_load
        (HasFound K.is_up K.holds) held.now digest.now) }
    ensures up { K.is_up shelf.new → K.is_up shelf.old }
    ensures kept { K.is_up shelf.new → (other : Operation) → K.lasts shelf.old other
        → K.lasts shelf.new other }
{
    match shelf.load(digest) {
        Ok(found) => of_record(alloc, found, held),
        Err(fault) => Err(refusal_of_load(fault)),
    }
}
