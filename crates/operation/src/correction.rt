//! Corrections of attributes.

ghost use Rattle.std.specs.Prelude.{◌≡◌, ◌≤◌, ◌↔◌, length, List, ℕ, IfOk, IsTrue, Some};
ghost use Rattle.std.specs.List.{list_all};
ghost use Rattle.operation.specs.Parts.{CorrectionParts, key_of};
ghost use Rattle.operation.specs.Corrections.{is_entity_for, is_tag_for, is_text_byte, has_outer_space, is_plain};
ghost use Rattle.operation.specs.Corrections.{is_key, checked, is_correction, IsCorrection};

use crate::fault::OpFault;
use crate::stamp::Stamp;
use crate::target::Target;
use dictionary::{Entity, role_of};
use octets::{Octets, is_uid};
use std::alloc::{AllocError, Global};
use std::marker::Model;

/// A stamped value for one attribute of a study, a patient or a series.
#[derive(Debug, Drop)]
pub struct Correction {
    target: Target,
    tag: u32,
    value: Octets,
    stamp: Stamp,
}

impl Model for Correction {
    ghost use Rattle.operation.specs.Parts.{CorrectionParts};
    ghost use Rattle.operation.specs.Code.{correction_code};
    ghost use Rattle.operation.specs.Corrections.{IsCorrection};

    ghost Value = { CorrectionParts };

    ghost coded = { correction_code };

    ghost view = { λ c. record {
      target = c.target;
      tag = c.tag;
      value = c.value;
      stamp = c.stamp;
    } };

    ghost invariant = { λ c. IsCorrection (record {
      target = c.target;
      tag = c.tag;
      value = c.value;
      stamp = c.stamp;
    }) };
}

/// Whether an attribute of an entity may be corrected for a target.
fn may_have_entity(target: &Target, entity: Entity) -> bool
    ensures { result ≡ is_entity_for target.now (Some entity) }
{
    match target {
        Target::Study(_) => matches!(entity, Entity::Patient | Entity::Study),
        Target::Patient(_) => matches!(entity, Entity::Patient),
        Target::Series(_) => matches!(entity, Entity::Series),
    }
}

fn may_have_tag(target: &Target, tag: u32) -> bool
    ensures { result ≡ is_tag_for target.now tag }
{
    match role_of(tag).correction() {
        None => false,
        Some(entity) => may_have_entity(target, entity),
    }
}

fn is_text(byte: u8) -> bool
    ensures { result ≡ is_text_byte byte }
{
    matches!(byte, 0x20..=0x7e) && byte != b'\\'
}

fn has_text_only(text: &[u8]) -> bool
    ensures { result ≡ list_all is_text_byte text.now }
{
    text.iter().all(|byte| is_text(*byte))
}

fn begins_or_ends_with_space(text: &[u8]) -> bool
    ensures { result ≡ has_outer_space text.now }
{
    text.first().copied() == Some(b' ') || text.last().copied() == Some(b' ')
}

/// Whether a value is one of a correction, or a key that of a patient.
#[tactic(auto, unfolding(crate::specs::Corrections::is_plain))]
fn is_plain_text(text: &[u8]) -> bool
    ensures { result ≡ is_plain text.now }
{
    text.len() <= 64 && has_text_only(text) && !begins_or_ends_with_space(text)
}

fn has_key(target: &Target) -> bool
    ensures { result ≡ is_key target.now }
{
    match target {
        Target::Study(key) => is_uid(key.as_slice()),
        Target::Patient(key) => !key.is_empty() && is_plain_text(key.as_slice()),
        Target::Series(key) => is_uid(key.as_slice()),
    }
}

#[tactic(auto, unfolding(crate::specs::Corrections::is_correction))]
fn is_lawful(target: &Target, tag: u32, value: &[u8], stamp: Stamp) -> bool
    ensures { result ≡ is_correction
        (record { target = target.now; tag = tag; value = value.now; stamp = stamp }) }
{
    has_key(target)
        && may_have_tag(target, tag)
        && is_plain_text(value)
        && stamp.counter >= 1
        && stamp.site >= 1
}

/// The correction of these parts: of an attribute that can be corrected, of a study or a series
/// under its UID or of a patient under the trimmed stored Patient ID, from counter and site 1 on
/// (docs/DECISIONS.md, "Corrections").
pub fn correction_of(
    target: Target,
    tag: u32,
    value: Octets,
    stamp: Stamp,
) -> Result<Correction, OpFault>
    ensures { result
        ≡ checked (record { target = target; tag = tag; value = value; stamp = stamp }) }
{
    if !is_lawful(&target, tag, value.as_slice(), stamp) {
        return Err(OpFault::BadCorrection);
    }
    Ok(Correction {
        target,
        tag,
        value,
        stamp,
    })
}

impl Correction {
    pub fn target(&self) -> &Target
        ensures value { result.now ≡ self.now.target }
        ensures short { length (key_of result.now) ≤ 64 }
    {
        &self.target
    }

    pub fn tag(&self) -> u32
        ensures { result ≡ self.now.tag }
    {
        self.tag
    }

    pub fn value(&self) -> &[u8]
        ensures value { result.now ≡ self.now.value }
        ensures short { length result.now ≤ 64 }
    {
        self.value.as_slice()
    }

    pub fn stamp(&self) -> Stamp
        ensures value { result ≡ self.now.stamp }
        ensures correction { IsCorrection self.now }
    {
        self.stamp
    }

    /// A second owner of the same correction.
    pub fn copy(&self, alloc: Global) -> Result<Correction, AllocError>
        ensures { IfOk result (λ copy. copy ≡ self.now) }
    {
        Ok(Correction {
            target: self.target.copy(alloc)?,
            tag: self.tag,
            value: self.value.copy(alloc)?,
            stamp: self.stamp,
        })
    }

    /// Whether both are one correction.
    pub fn equals(&self, other: &Correction) -> bool
        ensures { IsTrue result ↔ (self.now ≡ other.now) }
    {
        self.tag == other.tag
            && self.stamp == other.stamp
            && self.target.equals(&other.target)
            && self.value.equals(&other.value)
    }
}
