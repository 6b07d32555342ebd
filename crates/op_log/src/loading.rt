//! Reads data sets again.

ghost use Rattle.std.specs.Prelude.{◌≡◌, ◌≢◌, ◌↔◌, ◌++◌, ◌<◌, ◌+◌, List, ℕ, Ok, true, false, length, ◌-◌, IfOk};
ghost use Rattle.std.specs.Prelude.{IfErr, IsTrue, IsErrOf, OnOk};
ghost use Rattle.sqlite_disk.specs.Disk.{Holds};
ghost use Rattle.body_log.specs.Log.{disk_of, end_of};
ghost use Rattle.operation.specs.declared.op.Op.{Op as Operation};
ghost use Rattle.operation.specs.Reading.{IsOp};
ghost use Rattle.operation.specs.Spelling.{digest_of, hash_of, spelling};
ghost use Rattle.op_log.specs.Fault.{IsOfLook, IsOfRead};
ghost use Rattle.op_log.specs.Heads.{body_of, head_of, size_of};
ghost use Rattle.op_log.specs.Kept.{HasBody};
ghost use Rattle.op_log.specs.Loaded.{AreParts, IsFrontAnd, IsOf};
ghost use Rattle.op_log.specs.Places.{head_by};
ghost use Rattle.op_log.specs.Staged.{Counts, Grows, Uses};

use crate::fault::LogFault;
use crate::head::{Spelled, size_of};
use crate::place::Place;
use body_log::BodyLog;
use bytes::Bytes;
use operation::{Digest, Digested, Op, OpFault, decode};
use sqlite_disk::Disk;
use std::alloc::{AllocError, Global};

/// Room for so many bytes.
fn zeros(alloc: Global, size: usize) -> Result<Vec<u8>, AllocError>
    ensures { IfOk result (λ room. length room.items ≡ size) }
{
    let mut room = Vec::new(alloc);
    room.resize(size, 0)?;
    Ok(room)
}

/// Fills room with the data set that lies at an offset.
fn read_into<B: Disk>(bodies: &mut BodyLog<B>, at: usize, room: &mut [u8]) -> Result<(), LogFault>
    ensures read { OnOk result (IsTrue (B.Disk.is_clean (disk_of bodies.new))
        → (body : List ℕ) → length body ≡ length room.old
        → (0 < length room.old → Holds (B.Disk.seen (disk_of bodies.old)) at body)
        → room.new ≡ body) }
    ensures held { OnOk result (IsTrue (B.Disk.is_clean (disk_of bodies.new))
        → 0 < length room.old → Holds (B.Disk.seen (disk_of bodies.new)) at room.new) }
    ensures disk { Counts B.Disk (at + length room.old) bodies.old bodies.new result }
    ensures only { IfErr result IsOfRead }
    ensures seen { B.Disk.seen (disk_of bodies.new) ≡ B.Disk.seen (disk_of bodies.old) }
    ensures end { end_of bodies.new ≡ end_of bodies.old }
    ensures grows { Grows B.Disk bodies.old bodies.new }
    ensures uses { Uses B.Disk bodies.old bodies.new result }
{
    if room.is_empty() {
        return Ok(());
    }
    bodies.read(at, room)?;
    Ok(())
}

/// The data set that lies at an offset.
pub(crate) fn body_at<B: Disk>(
    alloc: Global,
    bodies: &mut BodyLog<B>,
    at: usize,
    size: usize,
) -> Result<Vec<u8>, LogFault>
    ensures read { IfOk result (λ read. IsTrue (B.Disk.is_clean (disk_of bodies.new))
        → (body : List ℕ) → length body ≡ size
        → (0 < size → Holds (B.Disk.seen (disk_of bodies.old)) at body) → read.items ≡ body) }
    ensures held { IfOk result (λ read. IsTrue (B.Disk.is_clean (disk_of bodies.new))
        → 0 < size → Holds (B.Disk.seen (disk_of bodies.new)) at read.items) }
    ensures size { IfOk result (λ read. length read.items ≡ size) }
    ensures disk { Counts B.Disk (at + size) bodies.old bodies.new result }
    ensures only { IfErr result IsOfRead }
    ensures seen { B.Disk.seen (disk_of bodies.new) ≡ B.Disk.seen (disk_of bodies.old) }
    ensures end { end_of bodies.new ≡ end_of bodies.old }
    ensures grows { Grows B.Disk bodies.old bodies.new }
    ensures uses { Uses B.Disk bodies.old bodies.new result }
{
    let mut body = zeros(alloc, size)?;
    read_into(bodies, at, body.as_mut_slice())?;
    Ok(body)
}

/// Whether the operation that lies at a place is the one of these parts.
pub(crate) fn lies_at<B: Disk>(
    alloc: Global,
    bodies: &mut BodyLog<B>,
    place: &Place,
    spelled: &Spelled<'_>,
) -> Result<bool, LogFault>
    ensures same { result ≡ Ok true → IsTrue (B.Disk.is_clean (disk_of bodies.new))
        → AreParts (B.Disk.seen (disk_of bodies.new)) place.now spelled.now }
    ensures other { result ≡ Ok false → IsTrue (B.Disk.is_clean (disk_of bodies.new))
        → AreParts (B.Disk.seen (disk_of bodies.old)) place.now spelled.now → ⊥ }
    ensures disk { Counts B.Disk (place.now.at + place.now.size) bodies.old bodies.new result }
    ensures only { IfErr result IsOfRead }
    ensures seen { B.Disk.seen (disk_of bodies.new) ≡ B.Disk.seen (disk_of bodies.old) }
    ensures end { end_of bodies.new ≡ end_of bodies.old }
    ensures grows { Grows B.Disk bodies.old bodies.new }
    ensures uses { Uses B.Disk bodies.old bodies.new result }
{
    if place.front.as_slice() != spelled.front || place.size != spelled.body.len() {
        return Ok(false);
    }
    let body = body_at(alloc, bodies, place.at, place.size)?;
    Ok(body.as_slice() == spelled.body)
}

/// The front of a spelling, and behind it the data set that lies at an offset.
fn text_at<B: Disk>(
    alloc: Global,
    bodies: &mut BodyLog<B>,
    place: &Place,
) -> Result<Vec<u8>, LogFault>
    ensures read { IfOk result (λ read. IsTrue (B.Disk.is_clean (disk_of bodies.new))
        → (body : List ℕ) → length body ≡ place.now.size
        → (0 < place.now.size → Holds (B.Disk.seen (disk_of bodies.old)) place.now.at body)
        → read.items ≡ place.now.front ++ body) }
    ensures held { IfOk result (λ read. IsTrue (B.Disk.is_clean (disk_of bodies.new))
        → IsFrontAnd (B.Disk.seen (disk_of bodies.old)) place.now read.items) }
    ensures disk { Counts B.Disk (place.now.at + place.now.size) bodies.old bodies.new result }
    ensures only { IfErr result IsOfRead }
    ensures seen { B.Disk.seen (disk_of bodies.new) ≡ B.Disk.seen (disk_of bodies.old) }
    ensures grows { Grows B.Disk bodies.old bodies.new }
    ensures uses { Uses B.Disk bodies.old bodies.new result }
{
    let mut text = zeros(alloc, place.front.len().saturating_add(place.size))?;
    let (front, body) = text.as_mut_slice().split_at_mut(place.front.len());
    front.copy_from_slice(place.front.as_slice());
    read_into(bodies, place.at, body)?;
    Ok(text)
}

/// The operation that a text spells, whose data set lies at an offset.
fn decoded(alloc: Global, text: Vec<u8>, at: usize) -> Result<Op, LogFault>
    ensures found { IfOk result (λ op. text.items ≡ spelling op) }
    ensures lawful { IfOk result IsOp }
    ensures damaged { (n : ℕ) → IsErrOf result (LogFault.DamagedBody n) → (op : Operation)
        → IsOp op → text.items ≢ spelling op }
    ensures place { (n : ℕ) → IsErrOf result (LogFault.DamagedBody n) → n ≡ at }
    ensures open { ¬ IsErrOf result LogFault.Closed }
    ensures disk { ¬ IsErrOf result LogFault.Disk }
    ensures only { IfErr result IsOfLook }
{
    match decode(alloc, Bytes::from_vec(text)?) {
        Ok(op) => Ok(op),
        Err(OpFault::Memory) => Err(LogFault::Memory),
        Err(_) => Err(LogFault::DamagedBody(at)),
    }
}

/// Whether an operation has a digest.
pub(crate) fn has_digest(op: &Digested, digest: &Digest) -> bool
    ensures own { IsTrue result ↔ (digest_of op.now ≡ digest.now) }
    ensures hash { IsTrue result ↔ (hash_of op.now ≡ digest.now) }
{
    op.digest().as_bytes().as_slice() == digest.as_bytes().as_slice()
}

/// Whether the data set of an operation, whose spelling is so long, stands behind a front.
fn is_behind(op: &Op, long: usize, front: usize) -> bool
    ensures { IsTrue result ↔ (long - size_of op.now ≡ front) }
{
    long.saturating_sub(size_of(op)) == front
}

/// The operation that lies at a place. It is not hashed here, so where the disk changed its data
/// set it may be another one.
#[tactic(auto, using(crate::proofs::Faults::read_is_look))]
pub(crate) fn read_at<B: Disk>(
    alloc: Global,
    bodies: &mut BodyLog<B>,
    place: &Place,
) -> Result<Op, LogFault>
    ensures lawful { IfOk result IsOp }
    // Under the digest that it has, it is the one that lies there.
    ensures found { IfOk result (λ op. IsTrue (B.Disk.is_clean (disk_of bodies.new))
        → IsOf (B.Disk.seen (disk_of bodies.old)) (head_by (hash_of op) place.now) op) }
    // The very operation, as long as the disk returns what was written.
    ensures exact { IsTrue (B.Disk.is_clean (disk_of bodies.new)) → (op : Operation) → IsOp op
        → head_by (hash_of op) place.now ≡ head_of (op, place.now.at)
        → HasBody (B.Disk.seen (disk_of bodies.old)) (op, place.now.at)
        → IfOk result (λ read. read ≡ op) }
    ensures alike { IsTrue (B.Disk.is_clean (disk_of bodies.new)) → (op : Operation)
        → head_by (hash_of op) place.now ≡ head_of (op, place.now.at)
        → HasBody (B.Disk.seen (disk_of bodies.old)) (op, place.now.at)
        → IfOk result (λ read. spelling read ≡ spelling op) }
    ensures damaged { IsTrue (B.Disk.is_clean (disk_of bodies.new)) → (op : Operation) → IsOp op
        → head_by (hash_of op) place.now ≡ head_of (op, place.now.at)
        → HasBody (B.Disk.seen (disk_of bodies.old)) (op, place.now.at)
        → (n : ℕ) → ¬ IsErrOf result (LogFault.DamagedBody n) }
    ensures place { (n : ℕ) → IsErrOf result (LogFault.DamagedBody n) → n ≡ place.now.at }
    ensures calm { (n : ℕ) → IsErrOf result (LogFault.DamagedBody n)
        → B.Disk.faults (disk_of bodies.new) ≡ B.Disk.faults (disk_of bodies.old) }
    ensures disk { Counts B.Disk (place.now.at + place.now.size) bodies.old bodies.new result }
    ensures only { IfErr result IsOfLook }
    ensures seen { B.Disk.seen (disk_of bodies.new) ≡ B.Disk.seen (disk_of bodies.old) }
    ensures grows { Grows B.Disk bodies.old bodies.new }
    ensures uses { Uses B.Disk bodies.old bodies.new result }
{
    let text = text_at(alloc, bodies, place)?;
    let long = text.len();
    let op = decoded(alloc, text, place.at)?;
    if !is_behind(&op, long, place.front.len()) {
        return Err(LogFault::DamagedBody(place.at));
    }
    Ok(op)
}

/// The operation with a digest that lies at a place. Whatever the disk returns, no other is
/// answered.
pub(crate) fn load_at<B: Disk>(
    alloc: Global,
    bodies: &mut BodyLog<B>,
    digest: &Digest,
    place: &Place,
) -> Result<Digested, LogFault>
    ensures told { IfOk result (λ op. digest_of op ≡ digest.now) }
    ensures lawful { IfOk result IsOp }
    ensures found { IfOk result (λ op. IsTrue (B.Disk.is_clean (disk_of bodies.new))
        → IsOf (B.Disk.seen (disk_of bodies.old)) (head_by digest.now place.now) op) }
    // The very operation, as long as the disk returns what was written.
    ensures exact { IsTrue (B.Disk.is_clean (disk_of bodies.new)) → (op : Operation) → IsOp op
        → head_by digest.now place.now ≡ head_of (op, place.now.at)
        → HasBody (B.Disk.seen (disk_of bodies.old)) (op, place.now.at)
        → IfOk result (λ loaded. loaded ≡ op) }
    ensures damaged { IsTrue (B.Disk.is_clean (disk_of bodies.new)) → (op : Operation) → IsOp op
        → head_by digest.now place.now ≡ head_of (op, place.now.at)
        → HasBody (B.Disk.seen (disk_of bodies.old)) (op, place.now.at)
        → (n : ℕ) → ¬ IsErrOf result (LogFault.DamagedBody n) }
    ensures place { (n : ℕ) → IsErrOf result (LogFault.DamagedBody n) → n ≡ place.now.at }
    ensures calm { (n : ℕ) → IsErrOf result (LogFault.DamagedBody n)
        → B.Disk.faults (disk_of bodies.new) ≡ B.Disk.faults (disk_of bodies.old) }
    ensures disk { Counts B.Disk (place.now.at + place.now.size) bodies.old bodies.new result }
    ensures only { IfErr result IsOfLook }
    ensures seen { B.Disk.seen (disk_of bodies.new) ≡ B.Disk.seen (disk_of bodies.old) }
    ensures grows { Grows B.Disk bodies.old bodies.new }
    ensures uses { Uses B.Disk bodies.old bodies.new result }
{
    let read = read_at(alloc, bodies, place)?;
    let op = Digested::of(read);
    if !has_digest(&op, digest) {
        return Err(LogFault::DamagedBody(place.at));
    }
    Ok(op)
}
