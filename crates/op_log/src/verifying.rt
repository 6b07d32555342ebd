//! Tests each data set against the digest of its operation.

ghost use Rattle.std.specs.Prelude.{◌≡◌, ◌++◌, ◌+◌, All, IfOk, IfErr, IsTrue};
ghost use Rattle.body_log.specs.Log.{disk_of, end_of};
ghost use Rattle.sha2.specs.Sha256.{sha256};
ghost use Rattle.op_log.specs.Fault.{IsOfRead};
ghost use Rattle.op_log.specs.Kept.{IsBelow};
ghost use Rattle.op_log.specs.Places.{head_by};
ghost use Rattle.op_log.specs.Staged.{Counts, Grows, HasBytes, Uses};
ghost use Rattle.op_log.specs.Verified.{damaged_in, digests_of, is_whole};

use crate::fault::LogFault;
use crate::loading::body_at;
use crate::place::Place;
use crate::places::Places;
use body_log::BodyLog;
use operation::Digest;
use sha2::Sha256;
use sqlite_disk::Disk;
use std::alloc::Global;

/// The SHA-256 of a text in two parts (FIPS 180-4).
fn sum_of(front: &[u8], body: &[u8]) -> [u8; 32]
    ensures { result ≡ sha256 (front.now ++ body.now) }
{
    let mut hasher = <Sha256 as sha2::Digest>::new();
    sha2::Digest::update(&mut hasher, front);
    sha2::Digest::update(&mut hasher, body);
    sha2::Digest::finalize(hasher)
}

/// Whether the operation at a place has its digest.
pub(crate) fn is_whole<B: Disk>(
    alloc: Global,
    bodies: &mut BodyLog<B>,
    digest: &Digest,
    place: &Place,
) -> Result<bool, LogFault>
    ensures exact { IfOk result (λ whole. IsTrue (B.Disk.is_clean (disk_of bodies.new))
        → whole ≡ is_whole (B.Disk.seen (disk_of bodies.old)) (head_by digest.now place.now)) }
    ensures bytes { IfOk result (λ whole. IsTrue (B.Disk.is_clean (disk_of bodies.new))
        → HasBytes (B.Disk.seen (disk_of bodies.old)) (head_by digest.now place.now) whole) }
    ensures disk { Counts B.Disk (place.now.at + place.now.size) bodies.old bodies.new result }
    ensures only { IfErr result IsOfRead }
    ensures seen { B.Disk.seen (disk_of bodies.new) ≡ B.Disk.seen (disk_of bodies.old) }
    ensures end { end_of bodies.new ≡ end_of bodies.old }
    ensures grows { Grows B.Disk bodies.old bodies.new }
    ensures uses { Uses B.Disk bodies.old bodies.new result }
{
    let body = body_at(alloc, bodies, place.at, place.size)?;
    let sum = sum_of(place.front.as_slice(), &body);
    Ok(sum.as_slice() == digest.as_bytes().as_slice())
}

/// The digests of the operations whose data sets are none of theirs. One data set at a time is in
/// memory.
pub(crate) fn damaged<B: Disk>(
    bodies: &mut BodyLog<B>,
    places: &Places,
) -> Result<Vec<Digest>, LogFault>
    ensures exact { IfOk result (λ damaged. IsTrue (B.Disk.is_clean (disk_of bodies.new))
        → damaged.items ≡ digests_of (damaged_in (B.Disk.seen (disk_of bodies.old)) places.now)) }
    ensures disk { All (IsBelow (end_of bodies.old)) places.now
        → Counts B.Disk (end_of bodies.old) bodies.old bodies.new result }
    ensures only { IfErr result IsOfRead }
    ensures grows { Grows B.Disk bodies.old bodies.new }
    ensures uses { Uses B.Disk bodies.old bodies.new result }
{
    let mut damaged = Vec::new(places.alloc());
    'places: for index in 0..places.len() {
        let Some((bytes, place)) = places.at(index) else {
            return Ok(damaged);
        };
        let digest = Digest::of(*bytes);
        if !is_whole(places.alloc(), bodies, &digest, place)? {
            damaged.push(digest)?;
        }
    }
    Ok(damaged)
}
