//! What was refused to a pass, counted.
//!
//! No contract of `left_right` says when it refuses to enter, to append or to publish, and none of
//! `logbook` what a book's only writer finds there. So each of these calls is made here, and
//! counted where it was refused; and so is what a copy or a history lacks. Nothing else raises the
//! count.
ghost use Rattle.std.specs.Prelude.{◌≡◌, ◌<◌, ◌≤◌, ◌++◌, ◌∷◌, ◌^◌, [], IfSome, IsTrue, MatchOption, MatchResult};
ghost use Rattle.std.specs.Prelude.{false, true, length};
ghost use mathlib.Core.List.{IsPrefix};
ghost use Rattle.devices.specs.Failures.{Rose, Counts};
ghost use Rattle.operation.specs.Spelling.{digest_of};
ghost use Rattle.site_state.specs.Site.{HasNoOther};
ghost use Rattle.site_hub.specs.History.{set_of};
ghost use Rattle.site_hub.specs.Refused.{CountsUnless};

use crate::book::{Book, Front, HubName};
use crate::entry::Entry;
use crate::pair::{Pair, Shows};
use crate::snapshot::{Item, Snapshot};
use left_right::{ReadGuard, ReadHandle};
use std::sync::Wait;

/// More entries than a history ever has.
pub(crate) const MOST_ENTRIES: u64 = 1 << 61;

/// How often something was refused to a pass, at most 18,446,744,073,709,551,615.
#[derive(Drop)]
pub(crate) struct Refusals {
    count: u64,
}

impl Refusals {
    pub(crate) fn new() -> Refusals
        ensures { result.count ≡ 0 }
    {
        Refusals { count: 0 }
    }

    fn refuse(&mut self)
        ensures { Rose self.old.count self.new.count }
    {
        self.count = self.count.saturating_add(1);
    }

    /// The copy that is published, or none where no place for a reader was free.
    pub(crate) fn enter<'a, H: HubName>(
        &mut self,
        reader: &'a mut ReadHandle<Snapshot<H>>,
    ) -> Option<ReadGuard<'a, Snapshot<H>>>
        ensures counted { MatchOption result (Rose self.old.count self.new.count)
            (λ _. self.new.count ≡ self.old.count) }
    {
        match reader.enter() {
            Some(guard) => Some(guard),
            None => {
                self.refuse();
                None
            }
        }
    }

    /// Whether a copy or a history goes on from all that was seen, or else is shorter.
    pub(crate) fn begins<H: HubName>(&mut self, seen: &Front<H>, other: &Front<H>) -> bool
        ensures goes_on { IsTrue result → IsPrefix seen.now other.now }
        ensures shorter { result ≡ false → length other.now < length seen.now }
        ensures counted { CountsUnless result self.old.count self.new.count }
    {
        if seen.begins(other) {
            return true;
        }
        self.refuse();
        false
    }

    /// A history with one entry more. There is none where it is full, or where the book refused.
    pub(crate) fn add<H: HubName>(
        &mut self,
        front: Front<H>,
        book: &Book<H>,
        entry: &Entry,
    ) -> Option<Front<H>>
        requires clashless { HasNoOther (set_of H.opening front) (digest_of entry.now.op)
            entry.now.op }
        ensures added { IfSome result (λ longer. longer ≡ front ++ entry.now ∷ []) }
        ensures counted { MatchOption result (Rose self.old.count self.new.count)
            (λ _. self.new.count ≡ self.old.count) }
    {
        if front.len() > MOST_ENTRIES {
            self.refuse();
            return None;
        }
        match front.add(book, entry) {
            Some(longer) => Some(longer),
            None => {
                self.refuse();
                None
            }
        }
    }

    /// The item comes back where the pair had no memory for it.
    pub(crate) fn append<H: HubName, T: Shows<H>, R: Wait + Drop>(
        &mut self,
        pair: &mut Pair<H, T, R>,
        item: Item<H>,
    ) -> Result<(), Item<H>>
        ensures published { pair.new.published ≡ pair.old.published }
        ensures reached { MatchResult result (λ _. pair.new.reached ≡ item)
            (λ back. (back ≡ item) × (pair.new.reached ≡ pair.old.reached)) }
        ensures counted { Counts self.old.count self.new.count result }
    {
        match pair.append(item) {
            Ok(()) => Ok(()),
            Err(item) => {
                self.refuse();
                Err(item)
            }
        }
    }

    /// False where the pair could not publish for want of memory.
    pub(crate) fn publish<H: HubName, T: Shows<H>, R: Wait + Drop>(
        &mut self,
        pair: &mut Pair<H, T, R>,
    ) -> bool
        ensures reached { pair.new.reached ≡ pair.old.reached }
        ensures shown { result ≡ true → pair.new.published ≡ pair.old.reached }
        ensures kept { result ≡ false → pair.new.published ≡ pair.old.published }
        ensures counted { CountsUnless result self.old.count self.new.count }
    {
        if pair.publish() {
            return true;
        }
        self.refuse();
        false
    }
}
