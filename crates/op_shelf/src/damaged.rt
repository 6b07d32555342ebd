//! Operations that are not those of their digests.

ghost use Rattle.std.specs.Prelude.{◌≡◌, IfOk, IsPermutation, IsSorted};
ghost use Rattle.std.specs.List.{list_all};
ghost use Rattle.std.specs.Option.{option_map};
ghost use Rattle.std.specs.Ordering.{nat_cmp};
ghost use Rattle.std.specs.Cmp.Lexicographic.{slice_cmp};
ghost use Rattle.op_shelf.specs.Damage.{is_digit, digits_in, short_in, short_behind, uid_in, instance_in, damage_by};
ghost use Rattle.op_shelf.specs.Damage.{damaged_cmp};

use octets::{Octets, is_uid};
use std::alloc::{AllocError, Global};
use std::cmp::Ordering;

/// An operation that is not the one of its digest.
#[derive(Debug, Drop)]
pub struct Damaged {
    /// The digest in hexadecimal digits; nothing where something else stands in its place.
    pub digest: Octets,
    /// The SOP Instance UID that it names as a content; nothing where it names none.
    pub instance: Octets,
}

/// What a test of all operations told.
#[derive(Debug, Drop)]
pub struct Verified {
    /// How many there are.
    pub operations: u64,
    /// Those of them that are not those of their digests.
    pub damaged: Vec<Damaged>,
}

/// Who hears how far a test is.
pub trait Testing {
    /// So many operations were tested.
    fn has_tested(&self, operations: u64);
}

fn is_digit(byte: u8) -> bool
    ensures { result ≡ is_digit byte }
{
    byte.is_ascii_digit() || (b'a'..=b'f').contains(&byte)
}

fn are_digits(text: &[u8]) -> bool
    ensures { result ≡ list_all is_digit text.now }
{
    text.iter().all(|byte| is_digit(*byte))
}

/// The text of a digest, where it is one.
fn digits_in(text: &[u8]) -> &[u8]
    ensures { result.now ≡ digits_in text.now }
{
    if are_digits(text) {
        return text;
    }
    &[]
}

/// A byte of length, so many bytes, and what stands behind them.
#[tactic(auto, unfolding(crate::specs::Damage::short_in))]
fn short_in(text: &[u8]) -> Option<(&[u8], &[u8])>
    ensures { option_map (λ x. (x.0.now, x.1.now)) result ≡ short_in text.now }
{
    match text {
        [] => None,
        [size, rest @ ..] => {
            let size = *size as usize;
            if rest.len() < size {
                return None;
            }
            Some(rest.split_at(size))
        }
    }
}

/// The second of two UIDs, where it is one.
fn second_uid(text: &[u8]) -> &[u8]
    ensures { result.now ≡ uid_in (short_behind (short_in text.now)) }
{
    let Some((_class, rest)) = short_in(text) else {
        return &[];
    };
    let Some((uid, _rest)) = short_in(rest) else {
        return &[];
    };
    if is_uid(uid) {
        return uid;
    }
    &[]
}

/// The SOP Instance UID that a spelling names, where it is that of a content. No more of it is read
/// than stands before the data set.
fn instance_in(text: &[u8]) -> &[u8]
    ensures { result.now ≡ instance_in text.now }
{
    match text {
        [1, rest @ ..] => second_uid(rest),
        _ => &[],
    }
}

impl Damaged {
    /// What is told of bytes that are to have a digest with this text.
    pub fn of(alloc: Global, digest: &[u8], text: &[u8]) -> Result<Damaged, AllocError>
        ensures { IfOk result (λ damaged. damaged ≡ damage_by digest.now text.now) }
    {
        Ok(Damaged {
            digest: Octets::from_slice(alloc, digits_in(digest))?,
            instance: Octets::from_slice(alloc, instance_in(text))?,
        })
    }
}

fn by_bytes(a: &[u8], b: &[u8]) -> Ordering
    ensures { result ≡ slice_cmp nat_cmp a.now b.now }
{
    a.cmp(b)
}

fn by_digest(a: &Damaged, b: &Damaged) -> Ordering
    ensures { result ≡ damaged_cmp a.now b.now }
{
    by_bytes(a.digest.as_slice(), b.digest.as_slice())
}

/// Puts them in the order of the texts of their digests.
pub(crate) fn put_in_order(damaged: &mut Vec<Damaged>)
    ensures same { IsPermutation damaged.old.items damaged.new.items }
    ensures ascending { IsSorted damaged_cmp damaged.new.items }
{
    damaged.sort_unstable_by(|a, b| by_digest(a, b));
}
