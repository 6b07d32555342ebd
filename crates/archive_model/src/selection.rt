//! What a C-GET asks for, as its identifier says it (PS3.4, section C.4.3.1.3).

ghost use Rattle.std.specs.Prelude.{◌≡◌};
ghost use Rattle.octets.specs.Gives.{Gives};
ghost use Rattle.data_set.specs.Values.{value_in};
ghost use Rattle.archive_model.specs.Fault.{is_memory};
ghost use Rattle.archive_model.specs.Selection.{unique_key as unique_key_in, uids_from, uids_in, selection_of};

use crate::fault::QueryFault;
use crate::key::Level;
use crate::query::{level_of, upper_uid};
use data_set::DataSet;
use dictionary::{SERIES_INSTANCE_UID, SOP_INSTANCE_UID, STUDY_INSTANCE_UID};
use key_matching::{Matching, is_of_form, members_of};
use octets::{ListOf, Octets};
use std::alloc::Global;

/// What is asked for: the studies, series or instances of these UIDs.
#[derive(Debug, Drop)]
pub struct Selection {
    pub level: Level,
    /// The study, at SERIES and IMAGE; else empty.
    pub study: Octets,
    /// The series, at IMAGE; else empty.
    pub series: Octets,
    /// The UIDs of the level, one or more, in the order in which they were named.
    pub uids: ListOf<Octets>,
}

/// The unique key of a level (PS3.4, section C.6.2.1).
fn unique_key(level: Level) -> u32
    ensures { result ≡ unique_key_in level }
{
    match level {
        Level::Study => STUDY_INSTANCE_UID,
        Level::Series => SERIES_INSTANCE_UID,
        Level::Image => SOP_INSTANCE_UID,
    }
}

/// The members of a list of UIDs.
fn uids_of(alloc: Global, key: &[u8]) -> Result<ListOf<Octets>, QueryFault>
    ensures { Gives is_memory (λ uids. uids) result (uids_from key.now) }
{
    if !is_of_form(Matching::Uids, key) {
        return Err(QueryFault::BadKey);
    }
    Ok(ListOf::of(members_of(alloc, key)?))
}

/// The UIDs that an identifier names at a level.
fn named_uids(alloc: Global, set: &DataSet, level: Level) -> Result<ListOf<Octets>, QueryFault>
    ensures { Gives is_memory (λ uids. uids) result
        (uids_in (value_in (unique_key_in level) set.now.elements)) }
{
    match set.value(unique_key(level)) {
        None => Err(QueryFault::BadKey),
        Some(key) => uids_of(alloc, key),
    }
}

impl Selection {
    /// The selection that an identifier says, or the first that holds of: the level (0008,0052) is
    /// none of STUDY, SERIES and IMAGE; a unique key above the level is not exactly one UID; the
    /// unique key of the level is no list of one UID or more. Other keys are not looked at.
    #[tactic(auto, unfolding(crate::specs::Selection::selection_of))]
    pub fn read(alloc: Global, set: &DataSet) -> Result<Selection, QueryFault>
        ensures selection { Gives is_memory (λ selection. selection) result
            (selection_of set.now.elements) }
    {
        let level = level_of(set)?;
        let study = upper_uid(alloc, set, level.names_study(), STUDY_INSTANCE_UID)?;
        let series = upper_uid(alloc, set, level.names_series(), SERIES_INSTANCE_UID)?;
        let uids = named_uids(alloc, set, level)?;
        Ok(Selection {
            level,
            study,
            series,
            uids,
        })
    }
}
