//! What the acceptor's table asks of an association (PS3.8, section 9.2).

ghost use Rattle.std.specs.Prelude.{◌≡◌, IfOk, OnOk, IfSome, All};
ghost use Rattle.ul_state.specs.Table.{next_of, opens};
ghost use Rattle.ul_state.specs.Acceptor.{action_on, kind_for, settled_by, HasLawfulPdu, CanBeWritten};
ghost use Rattle.association_session.specs.Row.{agreed_by, limit_in, deeds_of, values_of};
ghost use Rattle.association_session.specs.Session.{stage_by, IsWritable};

use crate::deed::Deed;
use crate::deeds::Deeds;
use crate::limit::limit_of;
use crate::link::Link;
use crate::telling::one;
use archive_model::View;
use octets::ListOf;
use pdu::Pdv;
use std::alloc::{AllocError, Global};
use ul_state::{Acceptor, Action, Event, State, Titles};

/// Whether the association is established between these states.
fn is_opened(before: State, after: State) -> bool
    ensures { result ≡ opens before after }
{
    matches!((before, after), (State::Sta2, State::Sta6))
}

/// The table's row, and what an acceptance agrees.
pub(crate) fn turn(
    alloc: Global,
    acceptor: &mut Acceptor<View>,
    link: &mut Link,
    titles: &Titles<View>,
    event: Event,
) -> Result<Option<Action>, AllocError>
    ensures action { IfOk result (λ action.
        action ≡ action_on acceptor.old.state titles.now.list event) }
    ensures next { OnOk result (acceptor.new.state
        ≡ next_of acceptor.old.state (kind_for titles.now.list event)) }
    ensures settled { OnOk result (acceptor.new.settled
        ≡ settled_by acceptor.old.state titles.now.list event acceptor.old.settled) }
    ensures link { OnOk result (link.new.link ≡ agreed_by (opens acceptor.old.state
        acceptor.new.state) (limit_in event) acceptor.new.settled link.old.link) }
    ensures stage { OnOk result (link.new.stage
        ≡ stage_by (opens acceptor.old.state acceptor.new.state) link.old.stage) }
    ensures lawful { HasLawfulPdu event → IfOk result (λ action. IfSome action CanBeWritten) }
{
    let before = acceptor.state();
    let limit = limit_of(&event);
    let action = acceptor.on(titles, event)?;
    let opened = is_opened(before, acceptor.state());
    link.agree(alloc, opened, acceptor.accepted(), limit)?;
    Ok(action)
}

/// What a row's action does, and the values that it hands on.
pub(crate) fn parted(
    alloc: Global,
    action: Option<Action>,
) -> Result<(Deeds, ListOf<Pdv>), AllocError>
    ensures deeds { IfOk result (λ x. x.0 ≡ deeds_of action) }
    ensures values { IfOk result (λ x. x.1 ≡ values_of action) }
    ensures writable { IfSome action CanBeWritten → IfOk result (λ x. All IsWritable x.0) }
{
    match action {
        None => Ok((Deeds::new(alloc), ListOf::new(alloc))),
        Some(Action::Send(pdu)) => Ok((one(alloc, Deed::Send(pdu))?, ListOf::new(alloc))),
        Some(Action::Close) => Ok((one(alloc, Deed::Close)?, ListOf::new(alloc))),
        Some(Action::Hand(values)) => Ok((Deeds::new(alloc), values)),
    }
}
