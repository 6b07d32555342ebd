//! What a WALK says.

ghost use Rattle.std.specs.Prelude.{◌≡◌};
ghost use Rattle.std.specs.List.{AllByRecursion};
ghost use Rattle.walk_frames.specs.Entries.{IsEntry};
ghost use Rattle.walk_frames.specs.Walks.{is_earlier as is_earlier_of, stand_apart as stand_apart_of, walk_of, IsWalk};

use crate::entry::Entry;
use exchange_frames::FrameFault;
use std::marker::Model;

/// The kind of the frame, as its header has it.
pub const WALK: u8 = 0x10;

/// The most entries of a walk.
pub const MOST_ENTRIES: usize = 4_096;

/// The longest body of a WALK, in bytes: a count of two bytes, and as many entries as there are at
/// most, of a byte of depth, 32 bytes of digits, a byte and 512 bytes of sums each.
pub const LONGEST_WALK: usize = 2_236_418;

/// At most 4,096 entries, whose nodes ascend strictly, and of which none lies within another.
/// Contracts see the list of them.
#[derive(Debug, Drop)]
pub struct Walk {
    entries: Vec<Entry>,
}

impl Model for Walk {
    ghost use Rattle.std.specs.Prelude.{List};
    ghost use Rattle.walk_frames.specs.Entries.{EntryParts};
    ghost use Rattle.walk_frames.specs.Walks.{IsWalk};

    ghost Value = { List EntryParts };

    ghost view = { λ w. w.entries.items };

    ghost invariant = { λ w. IsWalk w.entries.items };
}

fn is_earlier(entry: &Entry, later: &Entry) -> bool
    ensures { result ≡ is_earlier_of entry.now later.now }
{
    entry.node().is_before(later.node())
}

/// Whether the nodes ascend, and none lies within the one before it.
#[tactic(auto, unfolding(crate::specs::Walks::stand_apart))]
fn stand_apart(entries: &[Entry]) -> bool
    ensures { result ≡ stand_apart_of entries.now }
{
    for at in 1..entries.len() {
        if !is_earlier(&entries[at - 1], &entries[at]) {
            return false;
        }
    }
    true
}

/// Each of some entries is one. Nothing is done: this is a fact for callers.
fn see_entries(entries: &[Entry])
    ensures { AllByRecursion IsEntry entries.now }
{
    for entry in entries {
        entry.see_parts();
    }
}

impl Walk {
    /// The walk of these entries, which are kept as they are. More than 4,096, entries that do not
    /// ascend, and one that lies within another are `BadFrame`.
    #[tactic(auto, unfolding(crate::specs::Walks::walk_of))]
    pub fn of(entries: Vec<Entry>) -> Result<Walk, FrameFault>
        ensures { result ≡ walk_of entries.items }
    {
        if entries.len() > MOST_ENTRIES {
            return Err(FrameFault::BadFrame);
        }
        if !stand_apart(entries.as_slice()) {
            return Err(FrameFault::BadFrame);
        }
        see_entries(entries.as_slice());
        Ok(Walk { entries })
    }

    /// The entries, ascending.
    pub fn entries(&self) -> &[Entry]
        ensures value { result.now ≡ self.now }
        ensures lawful { IsWalk self.now }
    {
        self.entries.as_slice()
    }
}
