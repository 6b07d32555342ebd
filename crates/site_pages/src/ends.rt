//! How associations and exchanges end.

ghost use Rattle.std.specs.Prelude.{◌≡◌};
ghost use Rattle.site_pages.specs.Ends.{no_associations, no_exchanges, with_association_end, with_exchange_end};

use crate::tally::one_more;

/// How an association ended.
#[derive(Clone, Copy)]
pub enum AssociationEnd {
    Released,
    Aborted,
    Rejected,
    /// The stream ended, or the connection was closed, with none of these.
    Closed,
    /// The peer was to close, and sent on: all was read that is read then.
    Dropped,
    Fault,
}

/// How many associations ended in each way.
#[derive(Clone, Copy)]
pub struct AssociationEnds {
    pub released: u64,
    pub aborted: u64,
    pub rejected: u64,
    pub closed: u64,
    pub dropped: u64,
    pub faults: u64,
}

impl AssociationEnds {
    /// None ended yet.
    pub fn new() -> AssociationEnds
        ensures { result ≡ no_associations }
    {
        AssociationEnds {
            released: 0,
            aborted: 0,
            rejected: 0,
            closed: 0,
            dropped: 0,
            faults: 0,
        }
    }

    /// Counts one more.
    pub fn count(&mut self, end: AssociationEnd)
        ensures { self.new ≡ with_association_end self.old end }
    {
        match end {
            AssociationEnd::Released => self.released = one_more(self.released),
            AssociationEnd::Aborted => self.aborted = one_more(self.aborted),
            AssociationEnd::Rejected => self.rejected = one_more(self.rejected),
            AssociationEnd::Closed => self.closed = one_more(self.closed),
            AssociationEnd::Dropped => self.dropped = one_more(self.dropped),
            AssociationEnd::Fault => self.faults = one_more(self.faults),
        }
    }
}

/// How an exchange ended.
#[derive(Clone, Copy)]
pub enum ExchangeEnd {
    /// All that was asked for was given, and both sides agreed.
    Agreed,
    /// All that was asked for was given, and they did not: what they compared differed.
    NotAgreed,
    /// Not all that was asked for was given.
    Unfinished,
    /// It was broken off.
    Fault,
    /// The peer that was called is not reached.
    NotReached,
}

/// How many exchanges ended in each way.
#[derive(Clone, Copy)]
pub struct ExchangeEnds {
    pub agreed: u64,
    pub not_agreed: u64,
    pub unfinished: u64,
    pub faults: u64,
    pub not_reached: u64,
}

impl ExchangeEnds {
    /// None ended yet.
    pub fn new() -> ExchangeEnds
        ensures { result ≡ no_exchanges }
    {
        ExchangeEnds {
            agreed: 0,
            not_agreed: 0,
            unfinished: 0,
            faults: 0,
            not_reached: 0,
        }
    }

    /// Counts one more.
    pub fn count(&mut self, end: ExchangeEnd)
        ensures { self.new ≡ with_exchange_end self.old end }
    {
        match end {
            ExchangeEnd::Agreed => self.agreed = one_more(self.agreed),
            ExchangeEnd::NotAgreed => self.not_agreed = one_more(self.not_agreed),
            ExchangeEnd::Unfinished => self.unfinished = one_more(self.unfinished),
            ExchangeEnd::Fault => self.faults = one_more(self.faults),
            ExchangeEnd::NotReached => self.not_reached = one_more(self.not_reached),
        }
    }
}
