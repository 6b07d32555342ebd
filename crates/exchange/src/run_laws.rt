//! What two sides of one exchange come to: laws, said as contracts of functions with nothing to do.

ghost use Rattle.exchange.specs.Joined.{ExchangeGivesAll, ExchangeMakesEqual};
ghost use Rattle.exchange.specs.Order.{SaysInOrder};

use crate::holder::Holder;

/// Where a caller and a callee each heard what the other said, a side that is finished holds in the
/// end all that the other side offered, and so all that this held as the exchange began, where what
/// differs fits into one HAVE; and else the places that the HAVE tells whole. Both agree or neither
/// does, and where they do the buckets that were compared are equal.
pub fn an_exchange_gives_all<A: Holder, B: Holder>()
    ensures { ExchangeGivesAll A.holds A.alone A.refuses_load
        B.holds B.alone B.refuses_load }
{}

/// Where both are finished, what differs fits into one HAVE each way, and nobody else changes
/// either holder, both hold the same in the end.
pub fn an_exchange_makes_holders_equal<A: Holder, B: Holder>()
    ensures { ExchangeMakesEqual A.holds A.alone A.refuses_load
        B.holds B.alone B.refuses_load }
{}

/// What a side says that ended is said in one order, and it says no other frame: a caller HELLO,
/// BUCKETS, HAVE, its GIVEs, END, DIFFER and WANT; a callee HELLO where it heard one, DIFFER, WANT,
/// BUCKETS, HAVE, its GIVEs and END. A callee that first hears BUCKETS, and a caller of version 1,
/// say no HELLO.
pub fn a_side_says_its_frames_in_order<H: Holder>()
    ensures { SaysInOrder H.holds H.alone }
{}
