//! Tests what lies at the place of an operation.

ghost use Rattle.std.specs.Prelude.{◌≡◌, ◌≢◌, ◌⊎◌, ◌+◌, Ok, All, true, false, IfErr, IsTrue};
ghost use Rattle.body_log.specs.Log.{disk_of, end_of};
ghost use Rattle.op_log.specs.Fault.{IsOfRead};
ghost use Rattle.op_log.specs.Kept.{IsBelow};
ghost use Rattle.op_log.specs.Loaded.{AreParts};
ghost use Rattle.op_log.specs.Places.{head_by};
ghost use Rattle.op_log.specs.Puts.{ClashesParts, HasParts, IsUnread};
ghost use Rattle.op_log.specs.Staged.{Grows, HasBytes, Reaches, Rises, Uses};

use crate::fault::LogFault;
use crate::head::Spelled;
use crate::loading::lies_at;
use crate::place::Place;
use crate::places::Places;
use crate::verifying::is_whole;
use body_log::BodyLog;
use operation::Digest;
use sqlite_disk::Disk;
use std::alloc::Global;

/// What lies at the place of the digest of an operation, if it has one.
#[derive(Clone, Copy)]
pub(crate) enum Found {
    /// The operation.
    These,
    /// Another one, with its digest.
    Others,
    /// Nothing, or bytes that are none of the digest.
    Unreadable,
}

/// Whether other bytes than those of an operation, which lie at the place of its digest, have the
/// digest.
fn tested_at<B: Disk>(
    alloc: Global,
    bodies: &mut BodyLog<B>,
    digest: &Digest,
    place: &Place,
) -> Result<Found, LogFault>
    requires reach { Reaches B.Disk bodies.old (place.now.at + place.now.size) }
    ensures these { result ≢ Ok Found.These }
    ensures others { result ≡ Ok Found.Others → IsTrue (B.Disk.is_clean (disk_of bodies.new))
        → HasBytes (B.Disk.seen (disk_of bodies.old)) (head_by digest.now place.now) true }
    ensures unreadable { result ≡ Ok Found.Unreadable
        → IsTrue (B.Disk.is_clean (disk_of bodies.new))
        → HasBytes (B.Disk.seen (disk_of bodies.old)) (head_by digest.now place.now) false }
    ensures rises { Rises B.Disk bodies.old bodies.new result }
    ensures only { IfErr result IsOfRead }
    ensures seen { B.Disk.seen (disk_of bodies.new) ≡ B.Disk.seen (disk_of bodies.old) }
    ensures end { end_of bodies.new ≡ end_of bodies.old }
    ensures grows { Grows B.Disk bodies.old bodies.new }
    ensures uses { Uses B.Disk bodies.old bodies.new result }
{
    match is_whole(alloc, bodies, digest, place) {
        Ok(true) => Ok(Found::Others),
        Ok(false) => Ok(Found::Unreadable),
        Err(fault) => Err(fault),
    }
}

/// What lies at the place that the digest of an operation of these parts has. An operation with
/// another front is another one, and is not read.
fn found_at<B: Disk>(
    alloc: Global,
    bodies: &mut BodyLog<B>,
    place: &Place,
    spelled: &Spelled<'_>,
) -> Result<Found, LogFault>
    requires reach { Reaches B.Disk bodies.old (place.now.at + place.now.size) }
    ensures these { result ≡ Ok Found.These → IsTrue (B.Disk.is_clean (disk_of bodies.new))
        → AreParts (B.Disk.seen (disk_of bodies.new)) place.now spelled.now }
    ensures others { result ≡ Ok Found.Others → IsTrue (B.Disk.is_clean (disk_of bodies.new))
        → AreParts (B.Disk.seen (disk_of bodies.old)) place.now spelled.now → ⊥ }
    ensures whole { result ≡ Ok Found.Others → (place.now.front ≢ spelled.now.front.now)
        ⊎ (IsTrue (B.Disk.is_clean (disk_of bodies.new))
        → HasBytes (B.Disk.seen (disk_of bodies.old))
        (head_by spelled.now.digest.now place.now) true) }
    ensures front { result ≡ Ok Found.Unreadable → place.now.front ≡ spelled.now.front.now }
    ensures unreadable { result ≡ Ok Found.Unreadable
        → IsTrue (B.Disk.is_clean (disk_of bodies.new))
        → HasBytes (B.Disk.seen (disk_of bodies.old))
        (head_by spelled.now.digest.now place.now) false }
    ensures rises { Rises B.Disk bodies.old bodies.new result }
    ensures only { IfErr result IsOfRead }
    ensures seen { B.Disk.seen (disk_of bodies.new) ≡ B.Disk.seen (disk_of bodies.old) }
    ensures end { end_of bodies.new ≡ end_of bodies.old }
    ensures grows { Grows B.Disk bodies.old bodies.new }
    ensures uses { Uses B.Disk bodies.old bodies.new result }
{
    if place.front.as_slice() != spelled.front {
        return Ok(Found::Others);
    }
    match lies_at(alloc, bodies, place, spelled) {
        Ok(true) => Ok(Found::These),
        Ok(false) => tested_at(alloc, bodies, spelled.digest, place),
        Err(fault) => Err(fault),
    }
}

/// What can be read under the digest of an operation of these parts.
pub(crate) fn found_under<B: Disk>(
    alloc: Global,
    bodies: &mut BodyLog<B>,
    places: &Places,
    spelled: &Spelled<'_>,
) -> Result<Found, LogFault>
    requires below { All (IsBelow (end_of bodies.old)) places.now }
    requires reach { Reaches B.Disk bodies.old (end_of bodies.old) }
    ensures these { result ≡ Ok Found.These → IsTrue (B.Disk.is_clean (disk_of bodies.new))
        → HasParts B.Disk (disk_of bodies.new) (end_of bodies.new) spelled.now.digest.now
        spelled.now.front.now spelled.now.body.now places.now }
    ensures others { result ≡ Ok Found.Others → ClashesParts B.Disk (disk_of bodies.new)
        (end_of bodies.new) spelled.now.digest.now spelled.now.front.now spelled.now.body.now
        places.now }
    ensures unread { result ≡ Ok Found.Unreadable → IsUnread B.Disk (disk_of bodies.new)
        (end_of bodies.new) spelled.now.digest.now spelled.now.front.now places.now }
    ensures rises { Rises B.Disk bodies.old bodies.new result }
    ensures only { IfErr result IsOfRead }
    ensures seen { B.Disk.seen (disk_of bodies.new) ≡ B.Disk.seen (disk_of bodies.old) }
    ensures end { end_of bodies.new ≡ end_of bodies.old }
    ensures grows { Grows B.Disk bodies.old bodies.new }
    ensures uses { Uses B.Disk bodies.old bodies.new result }
{
    match places.find(spelled.digest) {
        Some(place) => found_at(alloc, bodies, place, spelled),
        None => Ok(Found::Unreadable),
    }
}
