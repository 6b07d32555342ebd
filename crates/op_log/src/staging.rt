//! Writes the data sets of operations, and gathers their heads.

ghost use Rattle.std.specs.Prelude.{◌≡◌, ◌++◌, ◌<◌, ◌≤◌, ◌+◌, ◌^◌, OnOk, IfOk, IfErr, OnErr, IsErrOf};
ghost use Rattle.std.specs.Prelude.{All, List, false, length, IsTrue};
ghost use Rattle.sqlite_disk.specs.Disk.{Holds};
ghost use Rattle.body_log.specs.Log.{disk_of, end_of};
ghost use Rattle.op_log.specs.Fault.{IsOfPut, IsOfWrite};
ghost use Rattle.op_log.specs.Heads.{Head, IsSpelled, bodies_long, body_of, front_of, head_text};
ghost use Rattle.op_log.specs.Heads.{heads_long};
ghost use Rattle.op_log.specs.Kept.{IsBelow, with_head};
ghost use Rattle.op_log.specs.Puts.{Clashes, ClashesParts, ComesToClash, Puts};
ghost use Rattle.op_log.specs.Spelled.{head_spelled};
ghost use Rattle.op_log.specs.Staged.{AreSettled, AreStaged, Counts, Grows, HasHeads, IsBegun, IsStaged};
ghost use Rattle.op_log.specs.Staged.{IsUndone, IsWithin, KeepsPlaces, Reaches, Rises, Uses, replaced_in};

use crate::fault::LogFault;
use crate::finding::{Found, found_under};
use crate::group::Group;
use crate::head::{Spelled, put_head, size_of};
use crate::kept::Kept;
use crate::place::Place;
use crate::places::Places;
use body_log::BodyLog;
use octets::Octets;
use operation::{Digested, encode};
use sqlite_disk::Disk;

/// Adds a data set, if there is one, and answers where it lies.
fn add_body<B: Disk>(bodies: &mut BodyLog<B>, body: &[u8]) -> Result<usize, LogFault>
    ensures place { IfOk result (λ at. at ≡ end_of bodies.old) }
    ensures end { IfOk result (λ at. at + length body.now ≤ end_of bodies.new) }
    ensures held { IfOk result (λ at. 0 < length body.now
        → Holds (B.Disk.seen (disk_of bodies.new)) at body.now) }
    ensures within { IsWithin bodies.old bodies.new (length body.now) result }
    ensures grows { Grows B.Disk bodies.old bodies.new }
    ensures uses { Uses B.Disk bodies.old bodies.new result }
    ensures disk { Counts B.Disk (end_of bodies.old) bodies.old bodies.new result }
    ensures only { IfErr result IsOfWrite }
{
    if body.is_empty() {
        return Ok(bodies.end());
    }
    Ok(bodies.add(body)?)
}

/// Adds the data set of an operation that can't be read, and its head, in the place of the one that
/// has its digest.
fn add_new<B: Disk>(
    bodies: &mut BodyLog<B>,
    places: &mut Places,
    group: &mut Group,
    spelled: &Spelled<'_>,
) -> Result<(), LogFault>
    requires digest { length spelled.now.digest.now ≡ 32 }
    ensures added { OnOk result (places.new
        ≡ with_head places.old (head_spelled spelled.now (end_of bodies.old))) }
    ensures text { OnOk result (group.new.text.items
        ≡ group.old.text.items ++ head_text (head_spelled spelled.now (end_of bodies.old))) }
    ensures held { OnOk result (0 < length spelled.now.body.now
        → Holds (B.Disk.seen (disk_of bodies.new)) (end_of bodies.old) spelled.now.body.now) }
    ensures end { OnOk result (end_of bodies.old + length spelled.now.body.now
        ≤ end_of bodies.new) }
    ensures lawful { OnOk result (IsSpelled (head_spelled spelled.now (end_of bodies.old))) }
    ensures refused { OnErr result (places.new ≡ places.old) }
    ensures undone { (first : List Head) → IsUndone first places.old (replaced_in group.old)
        → IsUndone first places.new (replaced_in group.new) }
    ensures within { IsWithin bodies.old bodies.new (length spelled.now.body.now) result }
    ensures kepts { group.new.kepts.items ≡ group.old.kepts.items }
    ensures grows { Grows B.Disk bodies.old bodies.new }
    ensures uses { Uses B.Disk bodies.old bodies.new result }
    ensures disk { Counts B.Disk (end_of bodies.old) bodies.old bodies.new result }
    ensures only { IfErr result IsOfWrite }
{
    let at = add_body(bodies, spelled.body)?;
    put_head(&mut group.text, spelled, at)?;
    let place = Place {
        front: Octets::from_slice(group.alloc, spelled.front)?,
        at,
        size: spelled.body.len(),
    };
    group.keep(places, spelled.digest)?;
    places.put(spelled.digest, place)?;
    Ok(())
}

/// Finds the operation of these parts, or adds it: also where its digest has a place, but what lies
/// there can't be read.
#[tactic(auto, using(crate::proofs::Faults::read_is_put, crate::proofs::Faults::write_is_put))]
fn stage_parts<B: Disk>(
    bodies: &mut BodyLog<B>,
    places: &mut Places,
    group: &mut Group,
    spelled: &Spelled<'_>,
) -> Result<Kept, LogFault>
    requires below { All (IsBelow (end_of bodies.old)) places.old }
    requires reach { Reaches B.Disk bodies.old (end_of bodies.old) }
    requires digest { length spelled.now.digest.now ≡ 32 }
    ensures staged { IfOk result (λ kept. IsStaged B.Disk bodies.new spelled.now kept
        places.old places.new) }
    ensures text { OnOk result (HasHeads places.old places.new group.old.text.items
        group.new.text.items) }
    ensures long { OnOk result (length group.new.text.items
        ≤ length group.old.text.items + (length spelled.now.front.now + 56)) }
    ensures within { IsWithin bodies.old bodies.new (length spelled.now.body.now) result }
    ensures places { KeepsPlaces bodies.old bodies.new places.old places.new
        (replaced_in group.old) (replaced_in group.new) }
    ensures kepts { group.new.kepts.items ≡ group.old.kepts.items }
    ensures grows { Grows B.Disk bodies.old bodies.new }
    ensures uses { Uses B.Disk bodies.old bodies.new result }
    ensures rises { Rises B.Disk bodies.old bodies.new result }
    ensures collision { IsErrOf result LogFault.Collision → ClashesParts B.Disk (disk_of bodies.new)
        (end_of bodies.new) spelled.now.digest.now spelled.now.front.now spelled.now.body.now
        places.old }
    ensures only { IfErr result IsOfPut }
{
    match found_under(group.alloc, bodies, places, spelled)? {
        Found::These => Ok(Kept::Known),
        Found::Others => Err(LogFault::Collision),
        Found::Unreadable => {
            add_new(bodies, places, group, spelled)?;
            Ok(Kept::New)
        }
    }
}

/// Finds an operation, or adds it.
#[tactic(auto, unfolding(crate::specs::Heads::front_of, crate::specs::Heads::body_of))]
fn stage_one<B: Disk>(
    bodies: &mut BodyLog<B>,
    places: &mut Places,
    group: &mut Group,
    op: &Digested,
) -> Result<Kept, LogFault>
    requires below { All (IsBelow (end_of bodies.old)) places.old }
    requires reach { Reaches B.Disk bodies.old (end_of bodies.old) }
    ensures put { IfOk result (λ kept. Puts B.Disk (disk_of bodies.new) (end_of bodies.new)
        places.old op.now kept places.new) }
    ensures text { OnOk result (HasHeads places.old places.new group.old.text.items
        group.new.text.items) }
    ensures long { OnOk result (length group.new.text.items
        ≤ length group.old.text.items + (length (front_of op.now) + 56)) }
    ensures within { IsWithin bodies.old bodies.new (length (body_of op.now)) result }
    ensures places { KeepsPlaces bodies.old bodies.new places.old places.new
        (replaced_in group.old) (replaced_in group.new) }
    ensures kepts { group.new.kepts.items ≡ group.old.kepts.items }
    ensures grows { Grows B.Disk bodies.old bodies.new }
    ensures uses { Uses B.Disk bodies.old bodies.new result }
    ensures rises { Rises B.Disk bodies.old bodies.new result }
    ensures collision { IsErrOf result LogFault.Collision → Clashes B.Disk (disk_of bodies.new)
        (end_of bodies.new) op.now places.old }
    ensures only { IfErr result IsOfPut }
{
    let text = encode(group.alloc, op.op())?;
    let cut = text.len().saturating_sub(size_of(op.op()));
    let (front, body) = text.split_at(cut);
    let spelled = Spelled {
        digest: op.digest(),
        front,
        body,
    };
    stage_parts(bodies, places, group, &spelled)
}

/// The same of each operation.
fn stage_each<B: Disk>(
    bodies: &mut BodyLog<B>,
    places: &mut Places,
    group: &mut Group,
    ops: &[Digested],
) -> Result<(), LogFault>
    requires below { All (IsBelow (end_of bodies.old)) places.old }
    requires reach { Reaches B.Disk bodies.old (end_of bodies.old) }
    ensures staged { OnOk result (AreStaged B.Disk bodies.new places.old places.new
        group.old group.new ops.now) }
    ensures long { OnOk result (length group.new.text.items
        ≤ length group.old.text.items + heads_long ops.now) }
    ensures within { IsWithin bodies.old bodies.new (bodies_long ops.now) result }
    ensures places { KeepsPlaces bodies.old bodies.new places.old places.new
        (replaced_in group.old) (replaced_in group.new) }
    ensures grows { Grows B.Disk bodies.old bodies.new }
    ensures uses { Uses B.Disk bodies.old bodies.new result }
    ensures rises { Rises B.Disk bodies.old bodies.new result }
    ensures collision { IsErrOf result LogFault.Collision → ComesToClash B.Disk (disk_of bodies.new)
        (end_of bodies.new) places.old ops.now }
    ensures only { IfErr result IsOfPut }
{
    match ops {
        [] => Ok(()),
        [op, rest @ ..] => {
            let kept = stage_one(bodies, places, group, op)?;
            group.kepts.push(kept)?;
            stage_each(bodies, places, group, rest)
        }
    }
}

/// Writes and syncs the data sets of what is new among some operations, and gathers their heads.
pub(crate) fn stage<B: Disk>(
    bodies: &mut BodyLog<B>,
    places: &mut Places,
    group: &mut Group,
    ops: &[Digested],
) -> Result<(), LogFault>
    requires below { All (IsBelow (end_of bodies.old)) places.old }
    requires reach { Reaches B.Disk bodies.old (end_of bodies.old) }
    requires begun { IsBegun group.old }
    ensures settled { OnOk result (AreSettled B.Disk bodies.new places.old places.new
        group.new ops.now) }
    ensures long { OnOk result (length group.new.text.items ≤ heads_long ops.now) }
    ensures too_long { IsErrOf result LogFault.TooLong
        → 2 ^ 64 ≤ end_of bodies.old + bodies_long ops.now }
    ensures places { KeepsPlaces bodies.old bodies.new places.old places.new
        (replaced_in group.old) (replaced_in group.new) }
    ensures grows { Grows B.Disk bodies.old bodies.new }
    ensures closed { IsErrOf result LogFault.Closed
        → B.Disk.is_usable (disk_of bodies.old) ≡ false }
    ensures rises { Rises B.Disk bodies.old bodies.new result }
    ensures collision { IsErrOf result LogFault.Collision → ComesToClash B.Disk (disk_of bodies.new)
        (end_of bodies.new) places.old ops.now }
    ensures only { IfErr result IsOfPut }
    ensures usable { OnOk result (IsTrue (B.Disk.is_usable (disk_of bodies.new))) }
{
    stage_each(bodies, places, group, ops)?;
    bodies.settle()?;
    Ok(())
}
