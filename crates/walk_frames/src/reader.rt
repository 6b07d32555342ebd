//! Reading the body of a WALK.

ghost use Rattle.std.specs.Prelude.{◌≡◌, slice_index, length, List, Ok, Err, IfOk, IfErr};
ghost use Rattle.octets.specs.Gives.{Gives, Told};
ghost use Rattle.exchange_frames.specs.declared.fault.FrameFault.{FrameFault};
ghost use Rattle.exchange_frames.specs.Fault.{is_memory};
ghost use Rattle.walk_frames.specs.Entries.{EntryParts};
ghost use Rattle.walk_frames.specs.Walks.{IsWalk};
ghost use Rattle.walk_frames.specs.Spelling.{walk_text};
ghost use Rattle.walk_frames.specs.Reading.{unpacked as unpacked_of, digits_at, node_at, sums_at, entry_at, entries_at};
ghost use Rattle.walk_frames.specs.Reading.{walk_at, HasFault};

use crate::entry::Entry;
use crate::node::Node;
use crate::sums::{SUMS_LENGTH, Sums, digests_of};
use crate::walk::Walk;
use exchange_frames::FrameFault;
use std::alloc::{AllocError, Global};

/// The digits of some bytes, two of each.
fn unpacked(alloc: Global, bytes: &[u8]) -> Result<Vec<u8>, AllocError>
    ensures { IfOk result (λ digits. digits.items ≡ unpacked_of bytes.now) }
{
    let mut digits = Vec::new(alloc);
    for byte in bytes {
        digits.push(*byte / 16)?;
        digits.push(*byte % 16)?;
    }
    Ok(digits)
}

/// A digit, or 0 behind the last.
fn digit_at(digits: &[u8], at: usize) -> u8
    ensures { result ≡ slice_index digits.now at }
{
    if at < digits.len() {
        return digits[at];
    }
    0
}

#[tactic(auto, unfolding(crate::specs::Reading::digits_at))]
fn digits_of(alloc: Global, depth: usize, bytes: &[u8]) -> Result<Vec<u8>, FrameFault>
    ensures { Gives is_memory (λ digits. digits.items) result (digits_at depth bytes.now) }
{
    let mut digits = unpacked(alloc, bytes)?;
    if digit_at(digits.as_slice(), depth) != 0 {
        return Err(FrameFault::BadFrame);
    }
    digits.truncate(depth);
    Ok(digits)
}

#[tactic(auto, unfolding(crate::specs::Reading::node_at))]
fn node_of(alloc: Global, text: &[u8]) -> Result<(Node, &[u8]), FrameFault>
    ensures { Gives is_memory (λ x. (x.0, x.1.now)) result (node_at text.now) }
{
    let [depth, rest @ ..] = text else {
        return Err(FrameFault::BadFrame);
    };
    let depth = *depth as usize;
    let half = (depth + 1) / 2;
    if rest.len() < half {
        return Err(FrameFault::BadFrame);
    }
    let (bytes, rest) = rest.split_at(half);
    let node = Node::of(digits_of(alloc, depth, bytes)?)?;
    Ok((node, rest))
}

#[tactic(auto, unfolding(crate::specs::Reading::sums_at))]
fn sums_of(alloc: Global, text: &[u8]) -> Result<(Option<Sums>, &[u8]), FrameFault>
    ensures { Gives is_memory (λ x. (x.0, x.1.now)) result (sums_at text.now) }
{
    match text {
        [0, rest @ ..] => Ok((None, rest)),
        [1, rest @ ..] => {
            if rest.len() < SUMS_LENGTH {
                return Err(FrameFault::BadFrame);
            }
            let (sums, rest) = rest.split_at(SUMS_LENGTH);
            let sums = Sums::of(digests_of(alloc, sums)?)?;
            Ok((Some(sums), rest))
        }
        _ => Err(FrameFault::BadFrame),
    }
}

#[tactic(auto, unfolding(crate::specs::Reading::entry_at))]
fn entry_of(alloc: Global, text: &[u8]) -> Result<(Entry, &[u8]), FrameFault>
    ensures { Gives is_memory (λ x. (x.0, x.1.now)) result (entry_at text.now) }
{
    let (node, rest) = node_of(alloc, text)?;
    let (sums, rest) = sums_of(alloc, rest)?;
    Ok((Entry::of(node, sums), rest))
}

fn entries_of(alloc: Global, count: u16, text: &[u8]) -> Result<(Vec<Entry>, &[u8]), FrameFault>
    ensures { Gives is_memory (λ x. (x.0.items, x.1.now)) result (entries_at count text.now) }
{
    let mut entries = Vec::new(alloc);
    let mut rest = text;
    for _ in 0..count {
        let (entry, after) = entry_of(alloc, rest)?;
        entries.push(entry)?;
        rest = after;
    }
    Ok((entries, rest))
}

#[tactic(auto, unfolding(crate::specs::Reading::walk_at))]
fn walk_of(alloc: Global, body: &[u8]) -> Result<Walk, FrameFault>
    ensures { Gives is_memory (λ walk. walk) result (walk_at body.now) }
{
    let [a, b, rest @ ..] = body else {
        return Err(FrameFault::BadFrame);
    };
    let (entries, rest) = entries_of(alloc, u16::from_be_bytes([*a, *b]), rest)?;
    if !rest.is_empty() {
        return Err(FrameFault::BadFrame);
    }
    Walk::of(entries)
}

/// Reads the body of a WALK, all of its bytes.
///
/// What is no walk's body is `BadFrame`, and no `TooLong` is told.
pub fn read_walk(alloc: Global, body: &[u8]) -> Result<Walk, FrameFault>
    // What is read is spelled so, and what is spelled so is read, unless memory ran out.
    ensures done { IfOk result (λ walk. (body.now ≡ walk_text walk) × IsWalk walk) }
    ensures only { (walk : List EntryParts) → IsWalk walk → body.now ≡ walk_text walk
        → Gives is_memory (λ walk. walk) result (Ok walk) }
    ensures exact { Gives is_memory (λ walk. walk) result (walk_at body.now) }

    // Each fault, exactly where it is.
    ensures fault { IfErr result (λ e. Told is_memory e (HasFault body.now)) }
    ensures faulty { (e : FrameFault) → HasFault body.now e
        → Gives is_memory (λ walk. walk) result (Err e) }
{
    walk_of(alloc, body)
}

/// A text spells at most one walk.
pub fn a_text_spells_one_walk()
    ensures { (v w : List EntryParts) → IsWalk v → IsWalk w → walk_text v ≡ walk_text w → v ≡ w }
{}
