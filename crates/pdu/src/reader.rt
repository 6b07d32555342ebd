//! Reading the PDU at the front of a stream (PS3.8, section 9.3).

ghost use Rattle.std.specs.Prelude.{◌≡◌, ◌≤◌, ◌+◌, ◌++◌, ◌↔◌, List, ℕ, length, take, IsErrOf, IfOk, IfErr, IfSome};
ghost use Rattle.std.specs.Prelude.{Ok, Err};
ghost use Rattle.octets.specs.Bytes.{IsBytes};
ghost use Rattle.pdu.specs.declared.fault.PduFault.TheVariants.{UnknownType, BadLength, BadItem, TooLong};
ghost use Rattle.pdu.specs.declared.header.TheConstants.{HEADER_LENGTH};
ghost use Rattle.pdu.specs.declared.value.Pdu.{Pdu};
ghost use Rattle.pdu.specs.declared.value.Step.TheVariants.{Need, Done};
ghost use Rattle.pdu.specs.Fault.{Gives, IsBodyFault};
ghost use Rattle.pdu.specs.Grammar.{Spells, IsUnfinished, HasHeaderFault, HasBadBody, IfDone, IsHeader};
ghost use Rattle.pdu.specs.Reading.{front_at, Answers};
ghost use Rattle.pdu.specs.Spelling.{text_of, IsPdu};

use crate::fault::PduFault;
use crate::header::{HEADER_LENGTH, Header, header_of};
use crate::value::{Pdu, Step, body_of};
use bytes::Bytes;
use std::alloc::Global;

/// Reads the PDU at the front of the stream. Bytes may follow it.
///
/// The body is copied once, and the fragments of a P-DATA-TF share that copy.
pub fn read_pdu(alloc: Global, bytes: &[u8]) -> Result<Step, PduFault>
    // What is read is spelled by the first n bytes, and what they spell is read.
    ensures done { IfDone result (λ p n. (n ≤ length bytes.now) × Spells p (take n bytes.now)) }
    ensures only { (p : Pdu) (n : ℕ) → n ≤ length bytes.now → Spells p (take n bytes.now) →
        Gives result (Ok (Done p n)) }
    ensures need { (result ≡ Ok Need) ↔ IsUnfinished bytes.now }
    // It can be written.
    ensures lawful { IfDone result (λ p n. IsPdu p) }

    // Each fault, exactly where it is.
    ensures unknown_type { IsErrOf result UnknownType ↔ HasHeaderFault UnknownType bytes.now }
    ensures bad_length { IsErrOf result BadLength ↔ HasHeaderFault BadLength bytes.now }
    ensures bad_item { IsErrOf result BadItem → HasBadBody bytes.now }
    ensures bad_item_told { HasBadBody bytes.now → Gives result (Err BadItem) }
    ensures too_long { IsErrOf result TooLong ↔ HasHeaderFault TooLong bytes.now }
{
    step_of(alloc, bytes)
}

/// The same over bytes that are shared: the fragments of a P-DATA-TF share them too, and no byte
/// of them is copied.
pub fn read_shared(alloc: Global, bytes: &Bytes) -> Result<Step, PduFault>
    // What is read is spelled by the first n bytes, and what they spell is read.
    ensures done { IfDone result (λ p n. (n ≤ length bytes.now) × Spells p (take n bytes.now)) }
    ensures only { (p : Pdu) (n : ℕ) → n ≤ length bytes.now → Spells p (take n bytes.now) →
        Gives result (Ok (Done p n)) }
    ensures need { (result ≡ Ok Need) ↔ IsUnfinished bytes.now }
    // It can be written.
    ensures lawful { IfDone result (λ p n. IsPdu p) }

    // Each fault, exactly where it is.
    ensures unknown_type { IsErrOf result UnknownType ↔ HasHeaderFault UnknownType bytes.now }
    ensures bad_length { IsErrOf result BadLength ↔ HasHeaderFault BadLength bytes.now }
    ensures bad_item { IsErrOf result BadItem → HasBadBody bytes.now }
    ensures bad_item_told { HasBadBody bytes.now → Gives result (Err BadItem) }
    ensures too_long { IsErrOf result TooLong ↔ HasHeaderFault TooLong bytes.now }
{
    shared_step_of(alloc, bytes)
}

/// Reads the body behind a header, of the length that the header says.
///
/// The fragments of a P-DATA-TF share its bytes, and no byte of them is copied.
pub fn read_body(alloc: Global, header: &Header, body: Bytes) -> Result<Pdu, PduFault>
    requires { length body ≡ header.now.length }
    // What is read is spelled by the header and the body, and what they spell is read.
    ensures done { IfOk result (λ p. (bytes : List ℕ) → IsHeader header.now bytes →
        Spells p (bytes ++ body)) }
    ensures only { (p : Pdu) (bytes : List ℕ) → IsHeader header.now bytes →
        Spells p (bytes ++ body) → Gives result (Ok p) }
    // It can be written.
    ensures lawful { IfOk result IsPdu }

    // The one fault of a body, exactly where it is.
    ensures bad_item { IsErrOf result BadItem → (bytes : List ℕ) → IsHeader header.now bytes →
        HasBadBody (bytes ++ body) }
    ensures bad_item_told { (bytes : List ℕ) → IsHeader header.now bytes →
        HasBadBody (bytes ++ body) → Gives result (Err BadItem) }
    ensures fault { IfErr result IsBodyFault }
{
    hold_octets(body.as_slice());
    body_of(alloc, header.code(), body)
}

/// Each element of a slice of bytes is one, as its type says. Nothing runs.
fn hold_octets(bytes: &[u8])
    ensures { IsBytes bytes.now }
{
    let _bytes = bytes;
}

/// A text spells at most one PDU at its front.
pub fn spells_one_pdu()
    ensures { (bytes : List ℕ) (p q : Pdu) (n m : ℕ) → n ≤ length bytes → m ≤ length bytes →
        Spells p (take n bytes) → Spells q (take m bytes) → (p ≡ q) × (n ≡ m) }
{}

/// What bytes spell can be written, in a text that is no longer.
pub fn what_is_spelled_is_writable()
    ensures lawful { (text : List ℕ) (p : Pdu) → IsBytes text → Spells p text → IsPdu p }
    ensures no_longer { (text : List ℕ) (p : Pdu) → IsBytes text → Spells p text →
        length (text_of p) ≤ length text }
{}

#[tactic(auto, unfolding(crate::specs::Reading::Answers))]
fn step_of(alloc: Global, bytes: &[u8]) -> Result<Step, PduFault>
    ensures answers { Answers result bytes.now }
    ensures octets { IsBytes bytes.now }
{
    let Some(header) = front_of(bytes)? else {
        return Ok(Step::Need);
    };
    let end = header.body_length() + HEADER_LENGTH;
    let body = Bytes::copy_from_slice(alloc, &bytes[HEADER_LENGTH..end])?;
    let pdu = body_of(alloc, header.code(), body)?;
    Ok(Step::Done(pdu, end))
}

#[tactic(auto, unfolding(crate::specs::Reading::Answers))]
fn shared_step_of(alloc: Global, bytes: &Bytes) -> Result<Step, PduFault>
    ensures answers { Answers result bytes.now }
    ensures octets { IsBytes bytes.now }
{
    let Some(header) = front_of(bytes.as_slice())? else {
        return Ok(Step::Need);
    };
    let end = header.body_length() + HEADER_LENGTH;
    let body = bytes.slice(HEADER_LENGTH..end)?;
    let pdu = body_of(alloc, header.code(), body)?;
    Ok(Step::Done(pdu, end))
}

/// The header at the front, or `None` where it or its body is not whole.
#[tactic(auto, unfolding(crate::specs::Reading::front_at))]
fn front_of(bytes: &[u8]) -> Result<Option<Header>, PduFault>
    ensures exact { result ≡ front_at bytes.now }
    ensures whole { IfOk result (λ header. IfSome header (λ h.
        h.length + HEADER_LENGTH ≤ length bytes.now)) }
    ensures octets { IsBytes bytes.now }
{
    if bytes.len() < HEADER_LENGTH {
        return Ok(None);
    }
    let header = header_of(bytes[0], [bytes[2], bytes[3], bytes[4], bytes[5]])?;
    if bytes.len() - HEADER_LENGTH < header.body_length() {
        return Ok(None);
    }
    Ok(Some(header))
}
