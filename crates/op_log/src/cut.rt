//! Cuts heads off the front of a text.

ghost use Rattle.std.specs.Prelude.{◌≡◌, ◌≢◌, ◌++◌, ◌+◌, ◌<◌, ◌^◌, List, ℕ, None, length, IfSome};
ghost use Rattle.op_log.specs.Records.{head_in};
ghost use Rattle.op_log.specs.Heads.{Head, IsSpelled, head_text, number_text};

use crate::record::Record;
use operation::Digest;

/// The number that eight bytes spell, low byte first.
#[tactic(auto, unfolding(crate::specs::Heads::number_text))]
fn number_in(bytes: &[u8; 8]) -> u64
    ensures { number_text result ≡ bytes.now }
{
    u64::from_le_bytes(*bytes)
}

/// The number at the front of a text, and what stands behind it.
fn number_of(text: &[u8]) -> Option<(usize, &[u8])>
    ensures spelled { IfSome result (λ x. text.now ≡ number_text x.0 ++ x.1.now) }
    ensures fits { IfSome result (λ x. x.0 < 2 ^ 64) }
    ensures short { result ≡ None → length text.now < 8 }
{
    match text.split_first_chunk::<8>() {
        Some((number, rest)) => Some((number_in(number) as usize, rest)),
        None => None,
    }
}

/// The digest and the front behind the numbers of a head.
fn behind(text: &[u8], long: usize) -> Option<(&[u8; 32], &[u8], &[u8])>
    ensures spelled { IfSome result (λ x. text.now ≡ x.0.now ++ (x.1.now ++ x.2.now)) }
    ensures digest { IfSome result (λ x. length x.0.now ≡ 32) }
    ensures long { IfSome result (λ x. length x.1.now ≡ long) }
    ensures short { result ≡ None → length text.now < 32 + long }
{
    let (digest, rest) = text.split_first_chunk::<32>()?;
    let (front, rest) = rest.split_at_checked(long)?;
    Some((digest, front, rest))
}

/// The head at the front of a text, and what stands behind it.
pub(crate) fn first_head(text: &[u8]) -> Option<(Record<'_>, &[u8])>
    ensures spelled { IfSome result (λ x. text.now ≡ head_text (head_in x.0) ++ x.1.now) }
    ensures lawful { IfSome result (λ x. IsSpelled (head_in x.0)) }
    ensures none { result ≡ None → (h : Head) (rest : List ℕ) → IsSpelled h
        → text.now ≢ head_text h ++ rest }
{
    let (long, rest) = number_of(text)?;
    let (at, rest) = number_of(rest)?;
    let (size, rest) = number_of(rest)?;
    let (digest, front, rest) = behind(rest, long)?;
    let head = Record {
        digest: Digest::of(*digest),
        front,
        at,
        size,
    };
    Some((head, rest))
}
