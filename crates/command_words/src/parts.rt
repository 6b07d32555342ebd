//! The parts of a correction: which of them may not be, and a value that no query matches.

ghost use Rattle.std.specs.Prelude.{◌≡◌, IfOk, IsTrue};
ghost use Rattle.operation.specs.Corrections.{is_correction, is_key, is_tag_for, is_plain};
ghost use Rattle.command_words.specs.Parts.{bad_part_of, tag_for as tag_for_in, has_dash as has_dash_in};
ghost use Rattle.command_words.specs.Parts.{is_one as is_one_in, matching_of as matching_in, unmatched_by};
ghost use Rattle.command_words.specs.Parts.{moment_of as moment_of_in};

use crate::Change;
use dictionary::{Matching, PATIENT_NAME, Role, SERIES_DESCRIPTION, role_of};
use key_matching::is_of_form;
use octets::Octets;
use operation::{OpFault, Stamp, Target, correction_of};
use std::alloc::{AllocError, Global};

/// A part of a correction, as a command line names it.
#[derive(Clone, Copy, Debug, PartialEq, Eq)]
pub enum Part {
    Key,
    Tag,
    Value,
}

/// An attribute that a target can have.
fn tag_for(target: &Target) -> u32
    ensures { result ≡ tag_for_in target.now }
{
    match target {
        Target::Study(_) => PATIENT_NAME,
        Target::Patient(_) => PATIENT_NAME,
        Target::Series(_) => SERIES_DESCRIPTION,
    }
}

/// Whether there is a correction of these parts, the first of site 1.
fn may_be(target: Target, tag: u32, value: Octets) -> bool
    ensures { result ≡ is_correction (record {
      target = target;
      tag = tag;
      value = value;
      stamp = record { counter = 1; site = 1 };
    }) }
{
    let first = Stamp {
        counter: 1,
        site: 1,
    };
    correction_of(target, tag, value, first).is_ok()
}

/// Whether a target's key is one.
#[tactic(auto, using(crate::proofs::PartLaws::key_alone))]
fn has_key(alloc: Global, target: &Target) -> Result<bool, AllocError>
    ensures { IfOk result (λ has. has ≡ is_key target.now) }
{
    let nothing = Octets::of(Vec::new(alloc));
    Ok(may_be(target.copy(alloc)?, tag_for(target), nothing))
}

/// Whether an attribute is one of a target whose key is one.
#[tactic(auto, using(crate::proofs::PartLaws::tag_alone))]
fn has_tag(alloc: Global, target: &Target, tag: u32) -> Result<bool, AllocError>
    requires key { IsTrue (is_key target.now) }
    ensures { IfOk result (λ has. has ≡ is_tag_for target.now tag) }
{
    let nothing = Octets::of(Vec::new(alloc));
    Ok(may_be(target.copy(alloc)?, tag, nothing))
}

/// Whether a change has a value, where its key and its tag are ones.
#[tactic(auto, using(crate::proofs::PartLaws::value_alone))]
fn has_value(alloc: Global, change: &Change) -> Result<bool, AllocError>
    requires key { IsTrue (is_key change.now.target) }
    requires tag { IsTrue (is_tag_for change.now.target change.now.tag) }
    ensures { IfOk result (λ has. has ≡ is_plain change.now.value) }
{
    let target = change.target.copy(alloc)?;
    Ok(may_be(target, change.tag, change.value.copy(alloc)?))
}

/// The first part of a change, in their order on a command line, that may not be.
pub fn bad_part(alloc: Global, change: &Change) -> Result<Option<Part>, AllocError>
    ensures { IfOk result (λ part. part ≡ bad_part_of change.now) }
{
    if !has_key(alloc, &change.target)? {
        return Ok(Some(Part::Key));
    }
    if !has_tag(alloc, &change.target, change.tag)? {
        return Ok(Some(Part::Tag));
    }
    if !has_value(alloc, change)? {
        return Ok(Some(Part::Value));
    }
    Ok(None)
}

fn moment_of(matching: Matching) -> Option<Matching>
    ensures { result ≡ moment_of_in matching }
{
    match matching {
        Matching::Dates => Some(Matching::Dates),
        Matching::Times => Some(Matching::Times),
        Matching::WildCard => None,
        Matching::Name => None,
        Matching::Uids => None,
        Matching::Single => None,
        Matching::Answered => None,
    }
}

/// How keys match the attributes that hold dates and times and can be corrected.
fn matching_of(tag: u32) -> Option<Matching>
    ensures { result ≡ matching_in tag }
{
    match role_of(tag) {
        Role::Corrected(_, matching) => moment_of(matching),
        Role::Plain | Role::Kept | Role::Counted(_) | Role::Key(_, _) => None,
    }
}

fn has_dash(value: &[u8]) -> bool
    ensures { result ≡ has_dash_in value.now }
{
    value.iter().any(|byte| *byte == b'-')
}

/// Whether a value is one date or one time.
fn is_one(matching: Matching, value: &[u8]) -> bool
    ensures { result ≡ is_one_in matching value.now }
{
    is_of_form(matching, value) && !has_dash(value)
}

/// The matching by which no key but a universal one matches a value, as it is no date or no time.
pub fn unmatched(tag: u32, value: &[u8]) -> Option<Matching>
    ensures { result ≡ unmatched_by (matching_in tag) value.now }
{
    let matching = matching_of(tag)?;
    if value.is_empty() || is_one(matching, value) {
        return None;
    }
    Some(matching)
}
