//! What is counted of an association and of an exchange that have ended.

ghost use Rattle.std.specs.Prelude.{◌≡◌, Ok, false};
ghost use Rattle.site_pages.specs.Counting.{association_end, exchange_end, met_in, unreached_in};
ghost use Rattle.site_pages.specs.Counting.{has_agreed as has_agreed_in};

use crate::ends::{AssociationEnd, ExchangeEnd};
use crate::meters::Met;
use association_run::{End, RunFault};
use exchange::{Ended, ExchangeFault};

/// How an association that ended without a fault is counted.
fn end_of(end: End) -> AssociationEnd
    ensures { result ≡ association_end (Ok end) false }
{
    match end {
        End::Released => AssociationEnd::Released,
        End::Aborted => AssociationEnd::Aborted,
        End::Closed => AssociationEnd::Closed,
        End::Dropped => AssociationEnd::Dropped,
    }
}

/// How an association is counted: by its fault, if it has one, or as rejected, or by its end.
pub fn association_end_of(ended: Result<End, RunFault>, is_rejected: bool) -> AssociationEnd
    ensures { result ≡ association_end ended is_rejected }
{
    match ended {
        Err(_fault) => AssociationEnd::Fault,
        Ok(_end) if is_rejected => AssociationEnd::Rejected,
        Ok(end) => end_of(end),
    }
}

/// Whether both sides agreed, and all that was to be given could be read.
fn has_agreed(ended: Ended) -> bool
    ensures { result ≡ has_agreed_in ended }
{
    ended.agreed && ended.unread == 0
}

/// How an exchange is counted that was not broken off.
fn exchange_end_of(ended: Ended) -> ExchangeEnd
    ensures { result ≡ exchange_end ended }
{
    if !ended.finished {
        return ExchangeEnd::Unfinished;
    }
    if has_agreed(ended) {
        ExchangeEnd::Agreed
    } else {
        ExchangeEnd::NotAgreed
    }
}

/// What came of an exchange that ended in a second. What one gave and took that was broken off is
/// not known.
pub fn met_of(ended: Result<Ended, ExchangeFault>, at: u64) -> Met
    ensures { result ≡ met_in ended at }
{
    match ended {
        Err(_fault) => Met {
            end: ExchangeEnd::Fault,
            given: 0,
            unread: 0,
            taken: 0,
            at,
        },
        Ok(ended) => Met {
            end: exchange_end_of(ended),
            given: ended.given,
            unread: ended.unread,
            taken: ended.taken,
            at,
        },
    }
}

/// What came of a call of a peer that is not reached.
pub fn not_reached(at: u64) -> Met
    ensures { result ≡ unreached_in at }
{
    Met {
        end: ExchangeEnd::NotReached,
        given: 0,
        unread: 0,
        taken: 0,
        at,
    }
}
