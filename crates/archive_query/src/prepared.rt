//! Queries that are made ready for a site before it is looked at.

ghost use Rattle.std.specs.Prelude.{◌≡◌, IfOk};
ghost use Rattle.std.specs.List.{find};
ghost use Rattle.std.specs.Option.{option_map};
ghost use Rattle.archive_query.specs.Candidates.{is_list_of as is_list_in, listed_tag as listed_tag_in};
ghost use Rattle.archive_query.specs.Candidates.{members_of as members_in, listed_of};
ghost use Rattle.archive_query.specs.Leads.{AreWalksOf};

use crate::walks::{KeyWalk, walks_of};
use archive_model::{Asked, Level, Query};
use dictionary::{SERIES_INSTANCE_UID, SOP_INSTANCE_UID, STUDY_INSTANCE_UID};
use key_matching::{is_uids, is_universal, members_of};
use octets::{Octets, ascending};
use std::alloc::{AllocError, Global};
use std::marker::Model;

/// A query with all that a look needs of its keys, so that nothing in a look goes by their length:
/// the walks of its keys, and the members of the list of UIDs of its level, in their order and each
/// once.
pub struct PreparedQuery<'a> {
    query: &'a Query,
    walks: Vec<KeyWalk>,
    listed: Option<Vec<Octets>>,
}

impl<'a> Model for PreparedQuery<'a> {
    ghost use Rattle.std.specs.Option.{option_map};
    ghost use Rattle.archive_model.specs.declared.query.Query.{Query};
    ghost use Rattle.archive_query.specs.Candidates.{IsPrepared};

    ghost Value = { Query };

    ghost view = { λ p. p.query.now };

    ghost invariant = { λ p.
        IsPrepared p.query.now p.walks.items (option_map (λ l. l.items) p.listed) };
}

// It is written out, so that a caller does not prove again how each part is dropped.
impl<'a> Drop for PreparedQuery<'a> {
    fn drop(self) {
        let PreparedQuery {
            query: _,
            walks: _,
            listed: _,
        } = self;
    }
}

fn listed_tag(level: Level) -> u32
    ensures { result ≡ listed_tag_in level }
{
    match level {
        Level::Study => STUDY_INSTANCE_UID,
        Level::Series => SERIES_INSTANCE_UID,
        Level::Image => SOP_INSTANCE_UID,
    }
}

/// Whether a key lists UIDs of an attribute.
fn is_list_of(tag: u32, asked: &Asked) -> bool
    ensures { result ≡ is_list_in tag asked.now }
{
    asked.tag == tag && is_uids(asked.matching) && !is_universal(asked.key.as_slice())
}

/// The key of a query that lists UIDs of an attribute, if it has one.
fn list_of(query: &Query, tag: u32) -> Option<&Asked>
    ensures { option_map (λ asked. asked.now) result ≡ find (is_list_in tag) query.now.asked }
{
    query
        .asked
        .as_slice()
        .iter()
        .find(|asked| is_list_of(tag, asked))
}

/// The members of a key, if there is one.
fn members(alloc: Global, asked: Option<&Asked>) -> Result<Option<Vec<Octets>>, AllocError>
    ensures { IfOk result (λ found. option_map (λ l. l.items) found ≡
        option_map (λ asked. members_in asked.now) asked.entry) }
{
    match asked {
        None => Ok(None),
        Some(asked) => {
            let members = ascending(members_of(alloc, asked.key.as_slice())?);
            Ok(Some(members))
        }
    }
}

/// What a query lists at its level.
fn listed(alloc: Global, query: &Query) -> Result<Option<Vec<Octets>>, AllocError>
    ensures { IfOk result (λ found. option_map (λ l. l.items) found ≡ listed_of query.now) }
{
    members(alloc, list_of(query, listed_tag(query.level)))
}

impl<'a> PreparedQuery<'a> {
    /// A query, made ready.
    pub fn of(alloc: Global, query: &'a Query) -> Result<PreparedQuery<'a>, AllocError>
        ensures { IfOk result (λ prepared. prepared ≡ query.now) }
    {
        let walks = walks_of(alloc, query)?;
        let listed = listed(alloc, query)?;
        Ok(PreparedQuery {
            query,
            walks,
            listed,
        })
    }

    /// The query.
    pub fn query(&self) -> &Query
        ensures { result.now ≡ self.now }
    {
        self.query
    }

    /// The walks of its keys.
    pub(crate) fn walks(&self) -> &[KeyWalk]
        ensures { AreWalksOf self.now result.now }
    {
        self.walks.as_slice()
    }

    /// What it lists at its level.
    pub(crate) fn listed(&self) -> Option<&[Octets]>
        ensures { option_map (λ l. l.now) result ≡ listed_of self.now }
    {
        match &self.listed {
            None => None,
            Some(members) => Some(members.as_slice()),
        }
    }
}
