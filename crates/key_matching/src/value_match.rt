//! Which values a key matches, on bytes (PS3.4, section C.2.2.2).

ghost use Rattle.std.specs.Prelude.{◌≡◌, ◌<◌, ◌+◌, ◌++◌, ◌∷◌, [], length, take, drop, map, position, IfSome, IfOk};
ghost use Rattle.std.specs.Prelude.{OnOk};
ghost use Rattle.std.specs.List.{list_any, list_all};
ghost use Rattle.octets.specs.Padding.{trimmed as trimmed_in};
ghost use Rattle.key_matching.specs.Matches.{is_universal as is_universal_in, is_backslash, parts};
ghost use Rattle.key_matching.specs.Matches.{is_uid_part as is_uid_part_in, is_same_part as is_same_part_in};
ghost use Rattle.key_matching.specs.Matches.{is_of_form as is_of_form_in, is_match_by as is_match_by_in};
ghost use Rattle.key_matching.specs.Matches.{matches as matches_in};

use crate::range::{Moment, is_in_range, is_range};
use crate::wild_card::is_wild_match;
use dictionary::Matching;
use octets::{Octets, is_uid, trimmed};
use std::alloc::{AllocError, Global};

/// Whether a key matches every value: it is empty, or `*` alone
/// (docs/DECISIONS.md, "Universal matching").
pub fn is_universal(key: &[u8]) -> bool
    ensures { result ≡ is_universal_in key.now }
{
    key.is_empty() || key == b"*".as_slice()
}

fn is_uid_part(part: &[u8]) -> bool
    ensures { result ≡ is_uid_part_in part.now }
{
    is_uid(trimmed(part))
}

fn is_same_part(value: &[u8], part: &[u8]) -> bool
    ensures { result ≡ is_same_part_in value.now part.now }
{
    trimmed(part) == value
}

/// Where the first backslash stands.
fn backslash(key: &[u8]) -> Option<usize>
    ensures place { result ≡ position is_backslash key.now }
    ensures within { IfSome result (λ at. at < length key.now) }
{
    key.iter().position(|byte| *byte == b'\\')
}

fn front(key: &[u8], at: usize) -> &[u8]
    requires { at < length key.now }
    ensures { result.now ≡ take at key.now }
{
    &key[..at]
}

fn after(key: &[u8], at: usize) -> &[u8]
    requires { at < length key.now }
    ensures { result.now ≡ drop (at + 1) key.now }
{
    &key[at + 1..]
}

fn is_uid_list(key: &[u8]) -> bool
    ensures { result ≡ list_all is_uid_part_in (parts key.now) }
{
    let mut rest = key;
    loop {
        match backslash(rest) {
            None => return is_uid_part(rest),
            Some(at) => {
                if !is_uid_part(front(rest, at)) {
                    return false;
                }
                rest = after(rest, at);
            }
        }
    }
}

fn is_listed(key: &[u8], value: &[u8]) -> bool
    ensures { result ≡ list_any (is_same_part_in value.now) (parts key.now) }
{
    let mut rest = key;
    loop {
        match backslash(rest) {
            None => return is_same_part(value, rest),
            Some(at) => {
                if is_same_part(value, front(rest, at)) {
                    return true;
                }
                rest = after(rest, at);
            }
        }
    }
}

/// Adds a member of a list, trimmed.
fn add_member(alloc: Global, members: &mut Vec<Octets>, part: &[u8]) -> Result<(), AllocError>
    ensures { OnOk result (members.new.items ≡ members.old.items ++ trimmed_in part.now ∷ []) }
{
    members.push(Octets::from_slice(alloc, trimmed(part))?)?;
    Ok(())
}

/// The members of a list of UIDs, which backslashes part, each trimmed.
pub fn members_of(alloc: Global, key: &[u8]) -> Result<Vec<Octets>, AllocError>
    ensures { IfOk result (λ members. members.items ≡ map trimmed_in (parts key.now)) }
{
    let mut members = Vec::new(alloc);
    let mut rest = key;
    loop {
        match backslash(rest) {
            None => {
                add_member(alloc, &mut members, rest)?;
                return Ok(members);
            }
            Some(at) => {
                add_member(alloc, &mut members, front(rest, at))?;
                rest = after(rest, at);
            }
        }
    }
}

/// Whether a key that is not universal has a form that its matching has.
pub fn is_of_form(matching: Matching, key: &[u8]) -> bool
    ensures { result ≡ is_of_form_in matching key.now }
{
    match matching {
        Matching::Dates => is_range(Moment::Date, key),
        Matching::Times => is_range(Moment::Time, key),
        Matching::Uids => is_uid_list(key),
        Matching::WildCard => true,
        Matching::Name => true,
        Matching::Single => true,
        Matching::Answered => true,
    }
}

fn is_match_by(matching: Matching, key: &[u8], value: &[u8]) -> bool
    ensures { result ≡ is_match_by_in matching key.now value.now }
{
    match matching {
        Matching::Dates => is_in_range(Moment::Date, key, value),
        Matching::Times => is_in_range(Moment::Time, key, value),
        Matching::WildCard => is_wild_match(false, key, value),
        Matching::Name => is_wild_match(true, key, value),
        Matching::Uids => is_listed(key, value),
        Matching::Single => key == value,
        Matching::Answered => true,
    }
}

/// Whether a key matches a trimmed value. A value of zero length matches every key.
pub fn matches(matching: Matching, key: &[u8], value: &[u8]) -> bool
    ensures { result ≡ matches_in matching key.now value.now }
{
    is_universal(key) || value.is_empty() || is_match_by(matching, key, value)
}
