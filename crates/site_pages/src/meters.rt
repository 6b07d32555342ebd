//! What a server has counted since it began.

ghost use Rattle.std.specs.Prelude.{◌≡◌};
ghost use Rattle.site_pages.specs.Meters.{no_meters, last_agreed, with_begun, with_freed, with_association, with_way};
ghost use Rattle.site_pages.specs.Meters.{with_exchange};

use crate::ends::{AssociationEnd, AssociationEnds, ExchangeEnd, ExchangeEnds};
use crate::tally::Tally;

/// Who called whom.
#[derive(Clone, Copy)]
pub enum Way {
    /// The peer called.
    Served,
    /// The server called.
    Called,
}

/// What came of an exchange.
#[derive(Clone, Copy)]
pub struct Met {
    pub end: ExchangeEnd,
    /// How many operations were given.
    pub given: u64,
    /// How many operations that the peer asked for could not be read.
    pub unread: u64,
    /// How many operations were taken that were new.
    pub taken: u64,
    /// The second in which it ended.
    pub at: u64,
}

/// What a server has counted since it began.
#[derive(Clone, Copy)]
pub struct Meters {
    pub ends: AssociationEnds,
    pub asked: Tally,
    /// Exchanges with peers that called.
    pub served: ExchangeEnds,
    /// Exchanges with peers that the server called.
    pub called: ExchangeEnds,
    pub given: u64,
    /// Operations that peers asked for and that could not be read.
    pub unread: u64,
    pub taken: u64,
    /// How many threads serve an association or an exchange now.
    pub busy: u64,
    /// The second in which the last exchange that agreed ended.
    pub agreed: Option<u64>,
}

/// When an exchange agreed last, after one more.
pub(crate) fn agreed_after(before: Option<u64>, met: Met) -> Option<u64>
    ensures { result ≡ last_agreed before met.end met.at }
{
    match met.end {
        ExchangeEnd::Agreed => Some(met.at),
        ExchangeEnd::NotAgreed | ExchangeEnd::Unfinished => before,
        ExchangeEnd::Fault | ExchangeEnd::NotReached => before,
    }
}

impl Meters {
    /// The server begins.
    pub fn new() -> Meters
        ensures { result ≡ no_meters }
    {
        Meters {
            ends: AssociationEnds::new(),
            asked: Tally::new(),
            served: ExchangeEnds::new(),
            called: ExchangeEnds::new(),
            given: 0,
            unread: 0,
            taken: 0,
            busy: 0,
            agreed: None,
        }
    }

    /// A thread begins to serve.
    pub fn begun(&mut self)
        ensures { self.new ≡ with_begun self.old }
    {
        self.busy = self.busy.saturating_add(1);
    }

    /// It ends.
    pub fn freed(&mut self)
        ensures { self.new ≡ with_freed self.old }
    {
        self.busy = self.busy.saturating_sub(1);
    }

    /// Counts an association that has ended.
    pub fn attended(&mut self, end: AssociationEnd, tally: Tally)
        ensures { self.new ≡ with_association self.old end tally }
    {
        self.ends.count(end);
        self.asked = self.asked.plus(tally);
    }

    /// Counts how an exchange ended.
    fn count(&mut self, way: Way, end: ExchangeEnd)
        ensures { self.new ≡ with_way self.old way end }
    {
        match way {
            Way::Served => self.served.count(end),
            Way::Called => self.called.count(end),
        }
    }

    /// Counts an exchange that has ended, or whose peer is not reached.
    pub fn conversed(&mut self, way: Way, met: Met)
        ensures { self.new ≡ with_exchange self.old way met }
    {
        self.count(way, met.end);
        self.given = self.given.saturating_add(met.given);
        self.unread = self.unread.saturating_add(met.unread);
        self.taken = self.taken.saturating_add(met.taken);
        self.agreed = agreed_after(self.agreed, met);
    }
}
