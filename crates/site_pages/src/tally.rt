//! What associations asked for, and how it was answered.

ghost use Rattle.std.specs.Prelude.{◌≡◌};
ghost use Rattle.site_pages.specs.Tally.{more, no_tally, store_status, with_status, with_store, with_find, with_rows};
ghost use Rattle.site_pages.specs.Tally.{with_get, sum_of};

use operation::Taken;

/// How often the archive was asked, and how it answered.
#[derive(Clone, Copy)]
pub struct Tally {
    /// Stores that were answered: what was stored was new, or known, or the store was refused.
    pub new: u64,
    pub known: u64,
    pub refused: u64,
    pub finds: u64,
    /// The rows that all finds together were answered with.
    pub rows: u64,
    pub gets: u64,
    /// The images that all retrievals together were prepared with.
    pub images: u64,
}

/// How a store was answered.
#[derive(Clone, Copy)]
pub(crate) enum StoreStatus {
    New,
    Known,
    Refused,
}

/// How a store with this reply was answered.
fn status_of<E>(reply: &Result<Taken, E>) -> StoreStatus
    ensures { result ≡ store_status reply.now }
{
    match reply {
        Ok(Taken::New) => StoreStatus::New,
        Ok(Taken::Known) => StoreStatus::Known,
        Err(_fault) => StoreStatus::Refused,
    }
}

/// One more, as far as a u64 counts.
pub(crate) fn one_more(count: u64) -> u64
    ensures { result ≡ more count 1 }
{
    count.saturating_add(1)
}

impl Tally {
    /// It was not asked yet.
    pub fn new() -> Tally
        ensures { result ≡ no_tally }
    {
        Tally {
            new: 0,
            known: 0,
            refused: 0,
            finds: 0,
            rows: 0,
            gets: 0,
            images: 0,
        }
    }

    /// Counts a store.
    fn count(&mut self, status: StoreStatus)
        ensures { self.exit.now ≡ with_status self.entry.now status }
    {
        match status {
            StoreStatus::New => self.new = one_more(self.new),
            StoreStatus::Known => self.known = one_more(self.known),
            StoreStatus::Refused => self.refused = one_more(self.refused),
        }
    }

    /// Counts a store by its reply, and hands the reply on.
    pub fn stored<E>(&mut self, reply: Result<Taken, E>) -> Result<Taken, E>
        ensures same { result ≡ reply }
        ensures counted { self.exit.now ≡ with_store self.entry.now reply }
    {
        self.count(status_of(&reply));
        reply
    }

    /// Counts a find.
    pub fn found(&mut self)
        ensures { self.exit.now ≡ with_find self.entry.now }
    {
        self.finds = self.finds.saturating_add(1);
    }

    /// Counts so many rows that finds were answered with.
    pub fn answered(&mut self, rows: u64)
        ensures { self.exit.now ≡ with_rows self.entry.now rows }
    {
        self.rows = self.rows.saturating_add(rows);
    }

    /// Counts a retrieval that was prepared with so many images.
    pub fn got(&mut self, images: u64)
        ensures { self.exit.now ≡ with_get self.entry.now images }
    {
        self.gets = self.gets.saturating_add(1);
        self.images = self.images.saturating_add(images);
    }

    /// All that is counted in both.
    pub fn plus(self, other: Tally) -> Tally
        ensures { result ≡ sum_of self other }
    {
        Tally {
            new: self.new.saturating_add(other.new),
            known: self.known.saturating_add(other.known),
            refused: self.refused.saturating_add(other.refused),
            finds: self.finds.saturating_add(other.finds),
            rows: self.rows.saturating_add(other.rows),
            gets: self.gets.saturating_add(other.gets),
            images: self.images.saturating_add(other.images),
        }
    }
}
