//! Which walks of the leads of an index come to the studies whose values a key matches.

ghost use Rattle.std.specs.Prelude.{◌≡◌, ◌≤◌, ◌<◌, true, false, [], length, take, drop, List, ℕ, IfOk, OnOk};
ghost use Rattle.std.specs.List.{list_all};
ghost use Rattle.octets.specs.Members.{Has};
ghost use Rattle.key_matching.specs.Range.{is_in_range};
ghost use Rattle.key_matching.specs.declared.range.Moment.TheVariants.{Date};
ghost use Rattle.key_matching.specs.WildCard.{is_wild_match};
ghost use Rattle.study_index.specs.Leads.{as_led, is_folded, is_walked, value_front, IsWithin, IsBehind};
ghost use Rattle.archive_query.specs.Leads.{is_led_tag as is_led_tag_in, is_plain as is_plain_in};
ghost use Rattle.archive_query.specs.Leads.{is_text_key as is_text_key_in, is_dates as is_dates_in};
ghost use Rattle.archive_query.specs.Leads.{is_walkable as is_walkable_in, value_walk as value_walk_in, IsFrontWalk};
ghost use Rattle.archive_query.specs.Leads.{IsNeedleOf, IsRunOf, IsUpTo, IsWalkFor, AreChosenWalks, AreWalksOf};

use archive_model::{Asked, Query};
use dictionary::{ACCESSION_NUMBER, PATIENT_ID, PATIENT_NAME, STUDY_DATE, STUDY_ID};
use key_matching::{Matching, ends, is_universal};
use std::alloc::{AllocError, Global};
use std::marker::Model;
use study_index::{Lead, LeadWalk, ShortText, led};

/// A walk of a key, and that of the values of no bytes of its attribute, which each key matches.
pub(crate) struct KeyWalk {
    pub(crate) tag: u32,
    pub(crate) none: LeadWalk,
    pub(crate) walk: LeadWalk,
}

impl Model for KeyWalk {
    ghost use Rattle.std.specs.Prelude.{◌≡◌, [], ℕ};
    ghost use Rattle.study_index.specs.Leads.{LeadWalk};
    ghost use Rattle.archive_query.specs.Leads.{value_walk};

    ghost Value = { ℕ × LeadWalk };

    ghost view = { λ w. (w.tag, w.walk) };

    ghost invariant = { λ w. w.none ≡ value_walk w.tag [] };
}

// It is written out, so that a caller does not prove again how each part is dropped.
impl Drop for KeyWalk {
    fn drop(self) {
        let KeyWalk {
            tag: _,
            none: _,
            walk: _,
        } = self;
    }
}

fn is_led_tag(tag: u32) -> bool
    ensures { result ≡ is_led_tag_in tag }
{
    STUDY_DATE == tag
        || ACCESSION_NUMBER == tag
        || PATIENT_NAME == tag
        || PATIENT_ID == tag
        || STUDY_ID == tag
}

fn is_plain(byte: u8) -> bool
    ensures { result ≡ is_plain_in byte }
{
    byte != b'*' && byte != b'?'
}

fn is_text_key(matching: Matching, tag: u32) -> bool
    ensures { result ≡ is_text_key_in matching tag }
{
    match matching {
        Matching::WildCard => tag != PATIENT_NAME,
        Matching::Name => tag == PATIENT_NAME,
        Matching::Dates => false,
        Matching::Times => false,
        Matching::Uids => false,
        Matching::Single => false,
        Matching::Answered => false,
    }
}

fn is_dates(matching: Matching, tag: u32) -> bool
    ensures { result ≡ is_dates_in matching tag }
{
    match matching {
        Matching::Dates => tag != PATIENT_NAME,
        Matching::Times => false,
        Matching::WildCard => false,
        Matching::Name => false,
        Matching::Uids => false,
        Matching::Single => false,
        Matching::Answered => false,
    }
}

/// Whether a key has a walk.
fn is_walkable(asked: &Asked) -> bool
    ensures { result ≡ is_walkable_in asked.now }
{
    is_led_tag(asked.tag)
        && !is_universal(asked.key.as_slice())
        && (is_text_key(asked.matching, asked.tag) || is_dates(asked.matching, asked.tag))
}

/// How many bytes stand before the first wild card of a key.
fn plain_length(key: &[u8]) -> usize
    ensures within { result ≤ length key.now }
    ensures plain { list_all is_plain_in (take result key.now) ≡ true }
{
    let mut n = 0;
    while n < key.len() {
        if !is_plain(key[n]) {
            return n;
        }
        n += 1;
    }
    n
}

fn behind(key: &[u8], at: usize) -> &[u8]
    requires { at ≤ length key.now }
    ensures { result.now ≡ drop at key.now }
{
    &key[at..]
}

/// The run behind a place of a key, up to the next wild card.
fn run_at(key: &[u8], at: usize) -> &[u8]
    requires { at ≤ length key.now }
    ensures { IsRunOf key.now result.now }
{
    let rest = behind(key, at);
    let n = plain_length(rest);
    &rest[..n]
}

/// The longest run of a key among which no wild card is.
fn longest_run(key: &[u8]) -> &[u8]
    ensures { IsRunOf key.now result.now }
{
    let mut longest = run_at(key, 0);
    let mut at = longest.len();
    while at < key.len() {
        let run = run_at(key, at);
        if longest.len() < run.len() {
            longest = run;
        }
        at += run.len() + 1;
    }
    longest
}

/// The first 16 bytes of a run.
fn short_front(run: &[u8]) -> &[u8]
    ensures { result.now ≡ take 16 run.now }
{
    if run.len() > 16 {
        return &run[..16];
    }
    run
}

/// What each value that a key matches has in it: 16 bytes at most.
fn needle_of(tag: u32, key: &[u8]) -> ShortText
    ensures { IsNeedleOf tag key.now result }
{
    led(tag, short_front(longest_run(key)))
}

/// The walk of a single value.
fn value_walk(alloc: Global, tag: u32, value: &[u8]) -> Result<LeadWalk, AllocError>
    ensures { IfOk result (λ walk. walk ≡ value_walk_in tag (as_led tag value.now)) }
{
    let text = led(tag, value);
    Ok(LeadWalk {
        front: Lead::given(alloc, tag, text.duplicate(), 0, ShortText::empty())?,
        end: Lead::given(alloc, tag, text, 3, ShortText::empty())?,
        needle: ShortText::empty(),
    })
}

/// The walk of the values that begin with a text and in which a needle may stand.
fn front_walk(
    alloc: Global,
    tag: u32,
    text: &[u8],
    needle: ShortText,
) -> Result<LeadWalk, AllocError>
    requires { tag < 4294967295 }
    ensures { IfOk result (IsFrontWalk tag (as_led tag text.now) needle) }
{
    let text = led(tag, text);
    Ok(LeadWalk {
        front: Lead::given(alloc, tag, text.duplicate(), 0, ShortText::empty())?,
        end: Lead::behind(alloc, tag, &text)?,
        needle,
    })
}

/// The walk of the values that a key with wild cards matches: those that begin with what stands
/// before the first of them, and that have the longest of its runs in them.
fn text_walk(alloc: Global, tag: u32, key: &[u8]) -> Result<LeadWalk, AllocError>
    requires { tag < 4294967295 }
    ensures { IfOk result (λ walk. (value : List ℕ) →
        is_wild_match (is_folded tag) key.now value ≡ true
        → IsWithin (is_walked walk) tag value) }
{
    let plain = plain_length(key);
    if plain == key.len() {
        let walk = value_walk(alloc, tag, key)?;
        return Ok(walk);
    }
    let needle = needle_of(tag, key);
    let walk = front_walk(alloc, tag, &key[..plain], needle)?;
    Ok(walk)
}

/// What stands behind the last date of a range, or behind all dates where the end is left open.
fn end_of_range(alloc: Global, tag: u32, last: &[u8]) -> Result<Lead, AllocError>
    requires { tag < 4294967295 }
    ensures { IfOk result (IsUpTo tag last.now) }
{
    if last.is_empty() {
        let end = Lead::behind(alloc, tag, &ShortText::empty())?;
        return Ok(end);
    }
    let end = Lead::given(alloc, tag, ShortText::cut(last), 3, ShortText::empty())?;
    Ok(end)
}

/// The walk of the dates of a range, both ends included (PS3.4, section C.2.2.2.5).
fn dates_walk(alloc: Global, tag: u32, key: &[u8]) -> Result<LeadWalk, AllocError>
    requires tag { tag < 4294967295 }
    requires kept { is_folded tag ≡ false }
    ensures { IfOk result (λ walk. (value : List ℕ) → is_in_range Date key.now value ≡ true
        → IsWithin (is_walked walk) tag value) }
{
    let (first, last) = ends(key);
    let front = Lead::given(alloc, tag, ShortText::cut(first), 0, ShortText::empty())?;
    let end = end_of_range(alloc, tag, last)?;
    Ok(LeadWalk {
        front,
        end,
        needle: ShortText::empty(),
    })
}

/// The walk of the values that a key matches.
fn walk_of(alloc: Global, asked: &Asked) -> Result<LeadWalk, AllocError>
    requires { is_walkable_in asked.now ≡ true }
    ensures { IfOk result (IsWalkFor asked.now) }
{
    let key = asked.key.as_slice();
    if is_dates(asked.matching, asked.tag) {
        let walk = dates_walk(alloc, asked.tag, key)?;
        return Ok(walk);
    }
    let walk = text_walk(alloc, asked.tag, key)?;
    Ok(walk)
}

fn key_walk(alloc: Global, asked: &Asked) -> Result<KeyWalk, AllocError>
    requires { is_walkable_in asked.now ≡ true }
    ensures tag { IfOk result (λ walk. walk.0 ≡ asked.now.tag) }
    ensures walk { IfOk result (λ walk. IsWalkFor asked.now walk.1) }
{
    Ok(KeyWalk {
        tag: asked.tag,
        none: value_walk(alloc, asked.tag, &[])?,
        walk: walk_of(alloc, asked)?,
    })
}

/// Puts in the walk of one of a query's keys, if it has one.
fn put_walk(
    alloc: Global,
    query: &Query,
    asked: &Asked,
    walks: &mut Vec<KeyWalk>,
) -> Result<(), AllocError>
    requires one { Has query.now.asked asked.now }
    requires chosen { AreChosenWalks query.now walks.now.items }
    ensures chosen { OnOk result (AreChosenWalks query.now walks.new.items) }
    ensures none { OnOk result (walks.new.items ≡ [] →
        (walks.old.items ≡ []) × (is_walkable_in asked.now ≡ false)) }
{
    if !is_walkable(asked) {
        return Ok(());
    }
    walks.push(key_walk(alloc, asked)?)?;
    Ok(())
}

/// The walks of a query's keys: one of each that has any.
pub(crate) fn walks_of(alloc: Global, query: &Query) -> Result<Vec<KeyWalk>, AllocError>
    ensures { IfOk result (λ walks. AreWalksOf query.now walks.items) }
{
    let mut walks = Vec::new(alloc);
    for asked in query.asked.as_slice() {
        put_walk(alloc, query, asked, &mut walks)?;
    }
    Ok(walks)
}
