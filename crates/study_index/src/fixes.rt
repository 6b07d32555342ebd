//! What an index holds of corrections.
ghost use Rattle.std.specs.Prelude.{◌≡◌, ◌≤◌, length, refl, Some};
ghost use Rattle.std.specs.Option.{option_copied};
ghost use Rattle.join_laws.specs.Greatest.{greatest_of};
ghost use Rattle.std.specs.Ordering.{eq_by_cmp};
ghost use Rattle.std.specs.Cmp.{partial_equiv_from_equiv, eq_by_cmp_equiv, partial_order_from_total};
ghost use Rattle.study_index.specs.Index.{fix_key_cmp, fix_cmp};
ghost use Rattle.study_index.specs.Proved.Indexes.{fix_key_total, fix_key_exact, fix_total, fix_exact};
ghost use Rattle.operation.specs.Parts.{key_of as key_in};
ghost use Rattle.study_index.specs.Index.{kind_of, fix_key, fix_of};

use crate::short_text::ShortText;
use join_laws::{Copies, Exact};
use operation::{Correction, Target};
use std::alloc::AllocError;
use std::cmp::Ordering;
use std::marker::Model;

/// What corrections are about: the kind and the key of a target, and a tag.
#[derive(Drop)]
pub struct FixKey {
    /// 1 for a study, 2 for a patient, 3 for a series.
    pub kind: u8,
    pub key: ShortText,
    pub tag: u32,
}

impl Model for FixKey {
    ghost use Rattle.study_index.specs.Index.{FixKey};

    ghost Value = { FixKey };

    ghost view = { λ a. record { kind = a.kind; key = a.key; tag = a.tag } };
}

impl PartialEq for FixKey {
    ghost eq = { eq_by_cmp fix_key_cmp };

    ghost laws = { partial_equiv_from_equiv (eq_by_cmp_equiv fix_key_total) };

    fn eq(&self, other: &FixKey) -> bool {
        self.cmp(other).is_eq()
    }
}

impl Eq for FixKey {
    ghost laws = { eq_by_cmp_equiv fix_key_total };
}

impl PartialOrd for FixKey {
    ghost partial_cmp = { λ x y. Some (fix_key_cmp x y) };

    ghost laws = { partial_order_from_total fix_key_total };

    fn partial_cmp(&self, other: &FixKey) -> Option<Ordering> {
        Some(self.cmp(other))
    }
}

impl Ord for FixKey {
    ghost cmp = { fix_key_cmp };

    ghost total = { fix_key_total };

    ghost matches_partial_cmp = { λ x y. refl };

    ghost matches_eq = { λ x y. refl };

    fn cmp(&self, other: &FixKey) -> Ordering {
        let within = self.key.cmp(&other.key).then(self.tag.cmp(&other.tag));
        self.kind.cmp(&other.kind).then(within)
    }
}

impl Copies for FixKey {
    fn copy(&self) -> Result<FixKey, AllocError> {
        Ok(FixKey {
            kind: self.kind,
            key: self.key.duplicate(),
            tag: self.tag,
        })
    }
}

impl Exact for FixKey {
    ghost exact = { fix_key_exact };
}

/// A correction of a target and a tag. Corrections are ordered by counter, then by site, then by
/// value.
#[derive(Drop)]
pub struct Fix {
    pub counter: u64,
    pub site: u16,
    pub value: ShortText,
}

impl Model for Fix {
    ghost use Rattle.study_index.specs.Index.{Fix};

    ghost Value = { Fix };

    ghost view = { λ a. record { counter = a.counter; site = a.site; value = a.value } };
}

impl PartialEq for Fix {
    ghost eq = { eq_by_cmp fix_cmp };

    ghost laws = { partial_equiv_from_equiv (eq_by_cmp_equiv fix_total) };

    fn eq(&self, other: &Fix) -> bool {
        self.cmp(other).is_eq()
    }
}

impl Eq for Fix {
    ghost laws = { eq_by_cmp_equiv fix_total };
}

impl PartialOrd for Fix {
    ghost partial_cmp = { λ x y. Some (fix_cmp x y) };

    ghost laws = { partial_order_from_total fix_total };

    fn partial_cmp(&self, other: &Fix) -> Option<Ordering> {
        Some(self.cmp(other))
    }
}

impl Ord for Fix {
    ghost cmp = { fix_cmp };

    ghost total = { fix_total };

    ghost matches_partial_cmp = { λ x y. refl };

    ghost matches_eq = { λ x y. refl };

    fn cmp(&self, other: &Fix) -> Ordering {
        let within = self
            .site
            .cmp(&other.site)
            .then(self.value.cmp(&other.value));
        self.counter.cmp(&other.counter).then(within)
    }
}

impl Copies for Fix {
    fn copy(&self) -> Result<Fix, AllocError> {
        Ok(Fix {
            counter: self.counter,
            site: self.site,
            value: self.value.duplicate(),
        })
    }
}

impl Exact for Fix {
    ghost exact = { fix_exact };
}

fn kind(target: &Target) -> u8
    ensures { result ≡ kind_of target.now }
{
    match target {
        Target::Study(_) => 1,
        Target::Patient(_) => 2,
        Target::Series(_) => 3,
    }
}

/// The key of a target.
pub fn key_of(target: &Target) -> &[u8]
    ensures { result.now ≡ key_in target.now }
{
    match target {
        Target::Study(key) => key.as_slice(),
        Target::Patient(key) => key.as_slice(),
        Target::Series(key) => key.as_slice(),
    }
}

/// What the corrections of a target and a tag are about.
pub fn fix_key_of(target: &Target, tag: u32) -> FixKey
    requires { length (key_in target.now) ≤ 64 }
    ensures { result ≡ fix_key target.now tag }
{
    FixKey {
        kind: kind(target),
        key: ShortText::whole(key_of(target)),
        tag,
    }
}

/// A correction, without what it is about.
pub fn fix_in(correction: &Correction) -> Fix
    ensures { result ≡ fix_of correction.now }
{
    let stamp = correction.stamp();
    Fix {
        counter: stamp.counter,
        site: stamp.site,
        value: ShortText::whole(correction.value()),
    }
}

/// The greater of two that may be absent.
pub fn later<'a>(this: Option<&'a Fix>, other: Option<&'a Fix>) -> Option<&'a Fix>
    ensures { option_copied result ≡ greatest_of fix_cmp (option_copied this.entry)
        (option_copied other.entry) }
{
    match (this, other) {
        (None, other) => other,
        (Some(this), None) => Some(this),
        (Some(this), Some(other)) => {
            if other < this {
                Some(this)
            } else {
                Some(other)
            }
        }
    }
}
