//! How long what is sent may be (PS3.8, section D.1; docs/DECISIONS.md, "Sending limit").

ghost use Rattle.std.specs.Prelude.{◌≡◌};
ghost use Rattle.association_session.specs.Row.{sending_limit, limit_in};

use pdu::Pdu;
use ul_state::Event;

/// The most bytes of a P-DATA-TF's body that are sent.
pub(crate) const MOST_SENT: u32 = 65_536;

/// The same, to a peer that names no limit.
pub(crate) const SENT_WITHOUT_LIMIT: u32 = 16_384;

/// The sending limit for a peer with this maximum length.
#[tactic(auto, unfolding(crate::specs::Row::sending_limit))]
fn limit_for(maximum: u32) -> u32
    ensures { result ≡ sending_limit maximum }
{
    if maximum == 0 {
        return SENT_WITHOUT_LIMIT;
    }
    if MOST_SENT < maximum {
        return MOST_SENT;
    }
    maximum
}

/// The sending limit that a request leads to, and 0 for any other event.
pub(crate) fn limit_of(event: &Event) -> u32
    ensures { result ≡ limit_in event.now }
{
    match event {
        Event::Got(Pdu::AssociateRq(request)) => limit_for(request.user.maximum_length),
        _ => 0,
    }
}
