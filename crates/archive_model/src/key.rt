//! The keys that are supported, and how each matches (PS3.4, section C.6.2.1).

ghost use Rattle.std.specs.Prelude.{◌≡◌};
ghost use Rattle.archive_model.specs.Key.{has_keys_of as has_keys_in, matching_of as matching_in};
ghost use Rattle.archive_model.specs.Key.{has_study_above, has_series_above, word_of};

use dictionary::{Entity, Matching, role_of};

/// What the rows of a query are about (PS3.4, section C.6.2.1.1).
#[derive(Clone, Copy, Debug, PartialEq, Eq)]
pub enum Level {
    Study,
    Series,
    Image,
}

fn has_keys_of(level: Level, entity: Entity) -> bool
    ensures { result ≡ has_keys_in level entity }
{
    match level {
        Level::Study => matches!(entity, Entity::Patient | Entity::Study),
        Level::Series => matches!(entity, Entity::Series),
        Level::Image => matches!(entity, Entity::Instance),
    }
}

/// How a key matches, or `None` where it is not supported at the level.
pub(crate) fn matching_of(level: Level, tag: u32) -> Option<Matching>
    ensures { result ≡ matching_in level tag }
{
    match role_of(tag).key() {
        None => None,
        Some((entity, matching)) => {
            if has_keys_of(level, entity) {
                Some(matching)
            } else {
                None
            }
        }
    }
}

impl Level {
    /// Whether a query of this level names a study.
    pub fn names_study(self) -> bool
        ensures { result ≡ has_study_above self }
    {
        match self {
            Level::Study => false,
            Level::Series => true,
            Level::Image => true,
        }
    }

    /// Whether a query of this level names a series.
    pub fn names_series(self) -> bool
        ensures { result ≡ has_series_above self }
    {
        match self {
            Level::Study => false,
            Level::Series => false,
            Level::Image => true,
        }
    }

    /// The word in (0008,0052).
    pub fn word(self) -> &'static [u8]
        ensures { result.now ≡ word_of self }
    {
        match self {
            Level::Study => b"STUDY",
            Level::Series => b"SERIES",
            Level::Image => b"IMAGE",
        }
    }
}
