//! Exchanges with one peer that follow each other, until nothing is left to bring.

ghost use Rattle.std.specs.Prelude.{◌≡◌};
ghost use Rattle.exchange.specs.Repeating.{has_brought as has_brought_in, with_last as with_last_in};
ghost use Rattle.exchange.specs.Repeating.{is_followed as is_followed_in, RepeatsEnd};

use crate::role::Ended;

/// The most exchanges that follow each other: where nobody else adds to a site, 256 bring all, and
/// one more tells that both agree.
pub const MOST_EXCHANGES: u32 = 257;

/// Whether an exchange brought something, to either side.
fn has_brought(ended: Ended) -> bool
    ensures { result ≡ has_brought_in ended }
{
    ended.given > 0 || ended.taken > 0
}

impl Ended {
    /// What exchanges come to that have not begun.
    pub const NONE: Ended = Ended {
        given: 0,
        unread: 0,
        taken: 0,
        finished: true,
        agreed: false,
        whole: true,
    };

    /// What these exchanges came to, and one more behind them: all that was given and taken, and
    /// whether all fitted in each. What could not be read, which is asked for again in each, and
    /// whether it was finished and agreed is that of the last.
    pub fn with_last(self, last: Ended) -> Ended
        ensures { result ≡ with_last_in self last }
    {
        Ended {
            given: self.given.saturating_add(last.given),
            unread: last.unread,
            taken: self.taken.saturating_add(last.taken),
            finished: last.finished,
            agreed: last.agreed,
            whole: self.whole && last.whole,
        }
    }

    /// Whether one more exchange is to follow the last of these: where not all fitted in one of
    /// them, and the last brought something, but did not end with both in agreement.
    pub fn is_followed(self, last: Ended) -> bool
        ensures { result ≡ is_followed_in self last }
    {
        last.finished && has_brought(last) && !last.agreed && !self.whole
    }
}

/// An exchange in which all fits is the only one. One that brings nothing, agrees or is not
/// finished is the last.
pub fn repeated_exchanges_end()
    ensures { RepeatsEnd }
{}
