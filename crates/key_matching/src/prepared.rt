//! Keys that are matched again and again (PS3.4, section C.2.2.2).

ghost use Rattle.std.specs.Prelude.{◌≡◌, ◌||◌, ◌==◌, length, IfOk};
ghost use Rattle.std.specs.List.{list_any};
ghost use Rattle.std.specs.List.Sorted.{IsStrictlySortedBy};
ghost use Rattle.octets.specs.Texts.{same, text_cmp, ascending as ascending_of};
ghost use Rattle.key_matching.specs.Matches.{is_universal as is_universal_in, matches as matches_in};
ghost use Rattle.key_matching.specs.Prepared.{is_uids as is_uids_in, members_in};

use crate::value_match::{is_universal, matches, members_of};
use dictionary::Matching;
use octets::{Octets, ascending};
use std::alloc::{AllocError, Global};
use std::cmp::Ordering;
use std::marker::Model;

/// A key with its matching. The members of a list of UIDs stand in their order, each once, so that
/// a value is looked up by halves.
#[derive(Drop)]
pub struct PreparedKey<'a> {
    matching: Matching,
    key: &'a [u8],
    members: Vec<Octets>,
}

impl<'a> Model for PreparedKey<'a> {
    ghost use Rattle.std.specs.Prelude.{List, ℕ};
    ghost use Rattle.dictionary.specs.declared.role.Matching.{Matching};
    ghost use Rattle.key_matching.specs.Prepared.{HasMembers};

    ghost Value = { Matching × List ℕ };

    ghost view = { λ p. (p.matching, p.key.now) };

    ghost invariant = { λ p. HasMembers p.matching p.key.now p.members.items };
}

/// Whether a key lists UIDs.
pub fn is_uids(matching: Matching) -> bool
    ensures { result ≡ is_uids_in matching }
{
    match matching {
        Matching::Uids => true,
        Matching::Dates => false,
        Matching::Times => false,
        Matching::WildCard => false,
        Matching::Name => false,
        Matching::Single => false,
        Matching::Answered => false,
    }
}

fn order_of(member: &Octets, value: &[u8]) -> Ordering
    ensures { result ≡ text_cmp member.now value.now }
{
    member.as_slice().cmp(value)
}

/// Whether a value is one of these, which ascend.
fn is_one_of(members: &[Octets], value: &[u8]) -> bool
    requires { IsStrictlySortedBy text_cmp members.now }
    ensures { result ≡ list_any (λ m. same m value.now) members.now }
{
    members
        .binary_search_by(|member| order_of(member, value))
        .is_ok()
}

/// Whether a list of UIDs matches a value, by its members, which ascend.
fn is_match_listed(key: &[u8], members: &[Octets], value: &[u8]) -> bool
    requires { IsStrictlySortedBy text_cmp members.now }
    ensures { result ≡ (is_universal_in key.now || length value.now == 0
        || list_any (λ m. same m value.now) members.now) }
{
    is_universal(key) || value.is_empty() || is_one_of(members, value)
}

/// The members of a list, in their order and each once, and of any other key none.
fn members(alloc: Global, matching: Matching, key: &[u8]) -> Result<Vec<Octets>, AllocError>
    ensures { IfOk result (λ members. members.items ≡ members_in matching key.now) }
{
    if is_uids(matching) {
        return Ok(ascending(members_of(alloc, key)?));
    }
    Ok(Vec::new(alloc))
}

impl<'a> PreparedKey<'a> {
    /// A key, made ready to be matched.
    pub fn of(
        alloc: Global,
        matching: Matching,
        key: &'a [u8],
    ) -> Result<PreparedKey<'a>, AllocError>
        ensures { IfOk result (λ prepared. prepared ≡ (matching, key.now)) }
    {
        let members = members(alloc, matching, key)?;
        Ok(PreparedKey {
            matching,
            key,
            members,
        })
    }

    /// Whether the key matches a trimmed value. A value of zero length matches every key.
    pub fn matches(&self, value: &[u8]) -> bool
        ensures { result ≡ matches_in self.now.0 self.now.1 value.now }
    {
        if is_uids(self.matching) {
            return is_match_listed(self.key, &self.members, value);
        }
        matches(self.matching, self.key, value)
    }
}
