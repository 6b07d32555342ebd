//! Takes the heads of a group into memory.

ghost use Rattle.std.specs.Prelude.{◌≡◌, ◌≢◌, ◌++◌, ◌+◌, ◌≤◌, ◌<◌, [], List, ℕ, Ok, None, length, IfErr, IfOk};
ghost use Rattle.std.specs.Prelude.{IfSome, IsErrOf, IsTrue, OnOk, ◌↔◌, ◌∷◌};
ghost use Rattle.op_log.specs.Records.{head_in};
ghost use Rattle.op_log.specs.Fault.{IsOfFill};
ghost use Rattle.op_log.specs.Filling.{AreFit, AreTaken, IsAlike, IsFit, IsTaken};
ghost use Rattle.op_log.specs.Heads.{Head, IsSpelled, group_text, head_text};
ghost use Rattle.op_log.specs.Kept.{IsBelow};

use crate::cut::first_head;
use crate::fault::LogFault;
use crate::place::Place;
use crate::places::Places;
use crate::record::Record;
use octets::Octets;
use std::alloc::AllocError;

/// Whether what has the digest of a head, if something has, has its front.
fn is_alike(places: &Places, head: &Record<'_>) -> bool
    ensures { IsTrue result ↔ IsAlike places.now (head_in head.now) }
{
    match places.find(&head.digest) {
        Some(place) => place.front.as_slice() == head.front,
        None => true,
    }
}

/// Whether a head can be taken: its data set lies below an offset, and what has its digest has its
/// front. So an operation that was put again has the head that came last.
fn is_fit(places: &Places, head: &Record<'_>, end: usize) -> bool
    ensures fit { IsTrue result ↔ (IsBelow end (head_in head.now)
        × IsAlike places.now (head_in head.now)) }
{
    match head.at.checked_add(head.size) {
        Some(behind) => behind <= end && is_alike(places, head),
        None => false,
    }
}

/// Takes the head at the front of a text, and answers what stands behind it; `None` where no head
/// stands there that can be taken.
fn take_first<'a>(
    places: &mut Places,
    text: &'a [u8],
    end: usize,
) -> Result<Option<&'a [u8]>, AllocError>
    ensures taken { IfOk result (λ found. IfSome found (λ rest.
        IsTaken end places.old places.new text.now rest.now)) }
    ensures none { result ≡ Ok None → (h : Head) (rest : List ℕ) → IsFit end places.old h
        → text.now ≢ head_text h ++ rest }
{
    let Some((head, rest)) = first_head(text) else {
        return Ok(None);
    };
    if !is_fit(places, &head, end) {
        return Ok(None);
    }
    let front = Octets::from_slice(places.alloc(), head.front)?;
    let place = Place {
        front,
        at: head.at,
        size: head.size,
    };
    places.put(&head.digest, place)?;
    Ok(Some(rest))
}

/// Takes the heads of a group that lies at an offset of its file.
pub(crate) fn fill(places: &mut Places, group: &[u8], at: usize, end: usize) -> Result<(), LogFault>
    ensures taken { OnOk result (AreTaken end places.old places.new group.now []) }
    ensures damaged { (n : ℕ) → IsErrOf result (LogFault.DamagedHeads n) → (heads : List Head)
        → AreFit end places.old heads → group.now ≢ group_text heads }
    ensures only { IfErr result IsOfFill }
{
    let mut rest = group;
    'heads: while !rest.is_empty() {
        let Some(behind) = take_first(places, rest, end)? else {
            return Err(LogFault::DamagedHeads(at.saturating_add(group.len() - rest.len())));
        };
        rest = behind;
    }
    Ok(())
}
