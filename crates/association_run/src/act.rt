//! What a session asks, done in order.

ghost use Rattle.std.specs.Prelude.{◌≡◌, ◌≤◌, ◌||◌, [], IfOk, OnErr, OnOk, All, IsTrue, option_to_list};
ghost use Rattle.association_session.specs.PendingResponse.{tells_rows};
ghost use Rattle.association_session.specs.Session.{IsSound, IsWritable, is_in_turn};
ghost use Rattle.association_run.specs.Fault.{CountedWhere};
ghost use Rattle.association_run.specs.Parts.{Performs};
ghost use Rattle.association_run.specs.inner.Faults.{fails_write};
ghost use Rattle.association_run.specs.inner.Steps.{Halts, BreaksOff, Pends, IsNext, IsQuiet, DidTurn, BrokeTurn};
ghost use Rattle.association_run.specs.inner.Steps.{CanHear, HeardWhole, HeardFront, GoesOnWith, BreaksWith};
ghost use Rattle.association_run.specs.inner.Steps.{is_loaded as is_loaded_reply, row_input as row_input_for, due};

use crate::fault::WriteFault;
use crate::port::Port;
use crate::sides::Sided;
use archive_model::View;
use association_session::{Deed, Deeds, Reply, Session, SessionEvent};
use ul_state::{Event, Titles};

/// Does deeds in their order, up to a call, whose reply is answered. PDUs that are sent one after
/// another are written together; none is held back once the gate or the port is reached.
fn act<P: Port, S: Sided<P>>(deeds: &mut Deeds, sides: &mut S) -> Result<Option<Reply>, WriteFault>
    requires writable { All IsWritable deeds.old }
    requires halts { Halts deeds.old }
    ensures ok { IfOk result (λ pending. Performs P.ops P.own (S.at sides.old) (S.at sides.new)
        deeds.old [] (option_to_list pending)) }
    ensures err { OnErr result
        (BreaksOff P.ops P.own (S.at sides.old) (S.at sides.new) deeds.old) }
    ensures write { CountedWhere (fails_write result) (S.failures sides.old)
        (S.failures sides.new) }
    ensures same { S.which sides.new ≡ S.which sides.old }
{
    sides.clear();
    while let Some(deed) = deeds.next()? {
        match deed {
            Deed::Send(pdu) => sides.send(pdu)?,
            Deed::Reach(moment) => {
                sides.flush()?;
                sides.reach(moment);
            }
            Deed::Ask(call) => {
                sides.flush()?;
                return Ok(Some(sides.ask(call)));
            }
            Deed::Close => {
                sides.flush()?;
                return Ok(None);
            }
        }
    }
    sides.flush()?;
    Ok(None)
}

/// Tells the session, and does its deeds. The answer is the port's reply, where it was asked.
fn tell<P: Port, S: Sided<P>>(
    session: &mut Session,
    titles: &Titles<View>,
    event: SessionEvent,
    sides: &mut S,
) -> Result<Option<Reply>, WriteFault>
    requires sound { IsSound event }
    requires turn { IsTrue (is_in_turn session.old.association event) }
    ensures ok { IfOk result (λ pending. DidTurn P.ops P.own titles.now.list (S.at sides.old)
        (S.at sides.new) session.old event pending session.new) }
    ensures err { OnErr result (BrokeTurn P.ops P.own titles.now.list (S.at sides.old)
        (S.at sides.new) session.old event) }
    ensures write { CountedWhere (fails_write result) (S.failures sides.old)
        (S.failures sides.new) }
    ensures same { S.which sides.new ≡ S.which sides.old }
{
    let mut deeds = session.on(titles, event)?;
    act(&mut deeds, sides)
}

/// What the session is told next: the reply of the port, and else that it goes on.
fn next(session: &Session, pending: Option<Reply>) -> Option<SessionEvent>
    requires { Pends session.now.association.awaited pending }
    ensures { IsNext session.now.association pending result }
{
    if let Some(reply) = pending {
        return Some(SessionEvent::Replied(reply));
    }
    if session.goes_on() {
        return Some(SessionEvent::GoesOn);
    }
    None
}

/// Whether a content is to be told that was loaded for a sub-operation.
fn is_loaded(pending: &Option<Reply>) -> bool
    ensures { result ≡ is_loaded_reply pending.now }
{
    match pending {
        None => false,
        Some(Reply::Loaded(_)) => true,
        Some(Reply::Stored(_) | Reply::Found(_) | Reply::Gotten(_)) => false,
    }
}

/// Whether rows are told on, or sub-operations.
fn tells_on(session: &Session, pending: &Option<Reply>) -> bool
    ensures { result ≡
        (tells_rows session.now.association.awaited || is_loaded_reply pending.now) }
{
    session.is_telling() || is_loaded(pending)
}

/// What tells rows on, and sub-operations: the content that was loaded for one, and else that the
/// session goes on.
fn row_input(pending: Option<Reply>) -> SessionEvent
    ensures { result ≡ row_input_for pending }
{
    match pending {
        None => SessionEvent::GoesOn,
        Some(reply) => SessionEvent::Replied(reply),
    }
}

/// Tells all the rows that are left and begins the sub-operations that are left, some at a time,
/// each with what was loaded for it. The answer is the reply that is to be told next.
fn tell_rows<P: Port, S: Sided<P>>(
    session: &mut Session,
    titles: &Titles<View>,
    pending: Option<Reply>,
    sides: &mut S,
) -> Result<Option<Reply>, WriteFault>
    requires { Pends session.old.association.awaited pending }
    ensures ok { IfOk result (GoesOnWith P.ops P.own titles.now.list (S.at sides.old)
        (S.at sides.new) session.old pending session.new) }
    ensures err { OnErr result (BreaksWith P.ops P.own titles.now.list (S.at sides.old)
        (S.at sides.new) session.old pending) }
    ensures quiet { OnOk result (IsQuiet session.new.association.awaited) }
    ensures left { OnOk result
        (session.new.association.queue ≡ session.old.association.queue) }
    ensures due { IfOk result (λ behind. due behind ≤ due pending) }
    ensures write { CountedWhere (fails_write result) (S.failures sides.old)
        (S.failures sides.new) }
    ensures same { S.which sides.new ≡ S.which sides.old }
{
    let mut pending = pending;
    while tells_on(session, &pending) {
        pending = tell(session, titles, row_input(pending), sides)?;
    }
    Ok(pending)
}

/// Tells the session of a PDU, and does all the deeds for it.
pub(crate) fn hear<P: Port, S: Sided<P>>(
    session: &mut Session,
    titles: &Titles<View>,
    event: Event,
    sides: &mut S,
) -> Result<(), WriteFault>
    requires { CanHear session.old event }
    ensures ok { OnOk result (HeardWhole P.ops P.own titles.now.list (S.at sides.old)
        (S.at sides.new) session.old event session.new) }
    ensures err { OnErr result (HeardFront P.ops P.own titles.now.list (S.at sides.old)
        (S.at sides.new) session.old.association event) }
    ensures write { CountedWhere (fails_write result) (S.failures sides.old)
        (S.failures sides.new) }
    ensures same { S.which sides.new ≡ S.which sides.old }
{
    let first = tell(session, titles, SessionEvent::Heard(event), sides)?;
    let mut pending = tell_rows(session, titles, first, sides)?;
    while let Some(input) = next(session, pending) {
        let replied = tell(session, titles, input, sides)?;
        pending = tell_rows(session, titles, replied, sides)?;
    }
    Ok(())
}
