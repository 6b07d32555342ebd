//! What lies under UIDs, found by halves.

ghost use Rattle.std.specs.Prelude.{◌≡◌, ◌≤◌, ℕ, length, List, IfOk, OnOk, map, filter};
ghost use Rattle.std.specs.Ordering.{is_lt as is_lt_in, is_le as is_le_in};
ghost use Rattle.octets.specs.Texts.{text_cmp};
ghost use Rattle.site_tables.specs.Under.{pairs, is_at, held_under, AreInOrder, Holds, IsStart, IsEnd};

use std::alloc::{AllocError, Global};
use std::cmp::Ordering;

/// A UID, and what lies under it.
#[derive(Drop)]
pub(crate) struct Under<'a, T> {
    pub(crate) uid: &'a [u8],
    pub(crate) held: &'a T,
}

fn by_uid<'a, T>(a: &Under<'a, T>, b: &Under<'a, T>) -> Ordering
    ensures { result ≡ text_cmp a.now.uid.now b.now.uid.now }
{
    a.uid.cmp(b.uid)
}

/// Puts them in the order of the UIDs. What lies under one UID keeps its order.
pub(crate) fn put_in_order<'a, T>(entries: &mut Vec<Under<'a, T>>) -> Result<(), AllocError>
    ensures { OnOk result (Holds (pairs entries.old.items) entries.new.items) }
{
    entries.sort_by(|a, b| by_uid(a, b))
}

fn is_before<'a, T>(entry: &Under<'a, T>, uid: &[u8]) -> bool
    ensures { result ≡ is_lt_in (text_cmp entry.now.uid.now uid.now) }
{
    entry.uid.cmp(uid).is_lt()
}

fn is_up_to<'a, T>(entry: &Under<'a, T>, uid: &[u8]) -> bool
    ensures { result ≡ is_le_in (text_cmp entry.now.uid.now uid.now) }
{
    entry.uid.cmp(uid).is_le()
}

/// Where what lies under a UID begins.
fn start_of<'a, T>(entries: &[Under<'a, T>], uid: &[u8]) -> usize
    requires { AreInOrder entries.now }
    ensures bound { result ≤ length entries.now }
    ensures start { IsStart entries.now uid.now result }
{
    entries.partition_point(|entry| is_before(entry, uid))
}

/// Where it ends.
fn end_of<'a, T>(entries: &[Under<'a, T>], uid: &[u8]) -> usize
    requires { AreInOrder entries.now }
    ensures bound { result ≤ length entries.now }
    ensures end { IsEnd entries.now uid.now result }
{
    entries.partition_point(|entry| is_up_to(entry, uid))
}

/// The entries of a UID.
pub(crate) fn run_under<'b, 'a, T>(entries: &'b [Under<'a, T>], uid: &[u8]) -> &'b [Under<'a, T>]
    requires { AreInOrder entries.now }
    ensures { pairs result.now ≡ filter (is_at uid.now) (pairs entries.now) }
{
    let start = start_of(entries, uid);
    let (up_to, _) = entries.split_at(end_of(entries, uid));
    let (_, run) = up_to.split_at(start);
    run
}

/// What the entries hold.
fn held_by<'a, T>(alloc: Global, run: &[Under<'a, T>]) -> Result<Vec<&'a T>, AllocError>
    ensures { IfOk result (λ found. map (λ t. t.now) found.items ≡ map (λ e. e.held.now) run.now) }
{
    let mut found = Vec::with_capacity(alloc, run.len())?;
    for entry in run {
        found.push(entry.held)?;
    }
    Ok(found)
}

/// What lies under a UID.
pub(crate) fn those_under<'a, T>(
    alloc: Global,
    entries: &[Under<'a, T>],
    uid: &[u8],
) -> Result<Vec<&'a T>, AllocError>
    requires { AreInOrder entries.now }
    ensures { IfOk result (λ found. map (λ t. t.now) found.items
        ≡ held_under uid.now (pairs entries.now)) }
{
    held_by(alloc, run_under(entries, uid))
}
