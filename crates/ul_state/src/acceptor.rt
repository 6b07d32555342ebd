//! The machine of one connection, on the side that is called (PS3.8, section 9.2).

ghost use Rattle.std.specs.Prelude.{◌≡◌, ◌≢◌, IfOk, IfSome, OnOk, OnErr, None};
ghost use Rattle.std.specs.Option.{option_copied};
ghost use Rattle.pdu.specs.declared.value.Pdu.TheVariants.{Abort};
ghost use Rattle.ul_state.specs.declared.event.Action.TheVariants.{Send};
ghost use Rattle.ul_state.specs.declared.table.ActionKind.TheVariants.{HandOn};
ghost use Rattle.ul_state.specs.declared.table.State.TheVariants.{Sta2};
ghost use Rattle.ul_state.specs.Acceptor.{kind_for, kind_for_pdu, acceptance_for, rejection_for, hand_for};
ghost use Rattle.ul_state.specs.Acceptor.{action_for, action_on, state_on, settled_for, settled_by, HasLawfulPdu};
ghost use Rattle.ul_state.specs.Acceptor.{CanBeWritten};

use crate::answer::{accept_of, contexts_of};
use crate::decision::admission;
use crate::event::{Action, Event};
use crate::table::{ActionKind, Kind, State, reason_of, row};
use crate::titles::{Titles, trimmed};
use octets::Octets;
use pdu::{Contexts, Pdu, PduFault};
use std::alloc::{AllocError, Global};

/// What an acceptance settled.
#[derive(Debug, Drop)]
pub struct Settled<V> {
    /// The called title, without outer spaces.
    pub title: Octets,
    pub contexts: Contexts,
    /// What the called title stands for.
    pub value: V,
}

/// The machine of one connection.
#[derive(Debug, Drop)]
pub struct Acceptor<V> {
    alloc: Global,
    state: State,
    settled: Option<Settled<V>>,
}

impl<V: Copy> Acceptor<V> {
    /// A machine that awaits a request, in Sta2. It takes no memory.
    pub fn new(alloc: Global) -> Acceptor<V>
        ensures state { result.state ≡ Sta2 }
        ensures settled { result.settled ≡ None }
    {
        Acceptor {
            alloc,
            state: State::Sta2,
            settled: None,
        }
    }

    pub fn state(&self) -> State
        ensures { result ≡ self.now.state }
    {
        self.state
    }

    /// What the acceptance settled, from then on.
    pub fn accepted(&self) -> Option<&Settled<V>>
        ensures { option_copied result ≡ self.now.settled }
    {
        self.settled.as_ref()
    }

    /// Takes one event. What is done, if anything is, and the next state are those of the table's
    /// row; for a P-DATA-TF of an association its values are handed on, be they none or many.
    pub fn on(&mut self, titles: &Titles<V>, event: Event) -> Result<Option<Action>, AllocError>
        ensures done { IfOk result (λ action.
            action ≡ action_on self.old.state titles.now.list event) }
        ensures next { OnOk result (self.new.state
            ≡ state_on self.old.state titles.now.list event) }
        ensures settled { OnOk result (self.new.settled
            ≡ settled_by self.old.state titles.now.list event self.old.settled) }
        ensures refused { OnErr result (self.new ≡ self.old) }
        // What is sent can be written, where the PDU that was read can.
        ensures lawful { HasLawfulPdu event →
            IfOk result (λ action. IfSome action CanBeWritten) }
    {
        let kind = kind_of(titles, &event);
        let (does, next) = row(self.state, kind);
        let settled = match does {
            ActionKind::SendAccept => settle(self.alloc, titles, &event)?,
            _ => None,
        };
        let action = action(self.alloc, titles, does, kind, event)?;
        if does == ActionKind::SendAccept {
            self.settled = settled;
        }
        self.state = next;
        Ok(action)
    }
}

fn kind_of<V: Copy>(titles: &Titles<V>, event: &Event) -> Kind
    ensures { result ≡ kind_for titles.now.list event.now }
{
    match event {
        Event::Got(pdu) => kind_of_pdu(titles, pdu),
        Event::Bad(PduFault::UnknownType) => Kind::UnknownPdu,
        Event::Bad(_) => Kind::FaultyPdu,
        Event::Ended => Kind::StreamEnd,
        Event::LocalAbort => Kind::LocalAbort,
    }
}

fn kind_of_pdu<V: Copy>(titles: &Titles<V>, pdu: &Pdu) -> Kind
    ensures { result ≡ kind_for_pdu titles.now.list pdu.now }
{
    match pdu {
        Pdu::AssociateRq(request) => match admission(request, titles) {
            Ok(_) => Kind::AcceptableRq,
            Err(_) => Kind::OtherRq,
        },
        Pdu::PData(_) => Kind::PData,
        Pdu::ReleaseRq => Kind::ReleaseRq,
        Pdu::Abort { .. } => Kind::Abort,
        Pdu::AssociateAc(_) | Pdu::AssociateRj(_) | Pdu::ReleaseRp => Kind::OtherPdu,
    }
}

/// What the acceptance of a request settles.
fn settle<V: Copy>(
    alloc: Global,
    titles: &Titles<V>,
    event: &Event,
) -> Result<Option<Settled<V>>, AllocError>
    ensures { IfOk result (λ settled. settled ≡ settled_for titles.now.list event.now) }
{
    let Event::Got(Pdu::AssociateRq(request)) = event else {
        return Ok(None);
    };
    let Ok(value) = admission(request, titles) else {
        return Ok(None);
    };
    let title = Octets::from_slice(alloc, trimmed(&request.opening.called))?;
    let contexts = contexts_of(alloc, request)?;
    Ok(Some(Settled {
        title,
        contexts,
        value,
    }))
}

/// What is asked of the caller. Only what is handed on is taken from the event.
fn action<V: Copy>(
    alloc: Global,
    titles: &Titles<V>,
    does: ActionKind,
    kind: Kind,
    event: Event,
) -> Result<Option<Action>, AllocError>
    ensures exact { IfOk result (λ action. action ≡ action_for does kind titles.now.list event) }
    ensures lawful { HasLawfulPdu event → IfOk result (λ action. IfSome action CanBeWritten) }
{
    if does == ActionKind::HandOn {
        return Ok(handed_on(event));
    }
    answer(alloc, titles, does, kind, &event)
}

/// What is asked of the caller where nothing is handed on.
fn answer<V: Copy>(
    alloc: Global,
    titles: &Titles<V>,
    does: ActionKind,
    kind: Kind,
    event: &Event,
) -> Result<Option<Action>, AllocError>
    ensures exact { does ≢ HandOn →
        IfOk result (λ action. action ≡ action_for does kind titles.now.list event.now) }
    ensures lawful { HasLawfulPdu event.now →
        IfOk result (λ action. IfSome action CanBeWritten) }
{
    match does {
        ActionKind::Nothing | ActionKind::HandOn => Ok(None),
        ActionKind::SendAccept => acceptance(alloc, event),
        ActionKind::SendReject => Ok(rejection(titles, event)),
        ActionKind::SendReleaseRp => Ok(Some(Action::Send(Pdu::ReleaseRp))),
        ActionKind::AbortAsUser => Ok(Some(abort(0, 0))),
        ActionKind::AbortAsProvider => Ok(Some(abort(2, reason_of(kind)))),
        ActionKind::Close => Ok(Some(Action::Close)),
    }
}

fn acceptance(alloc: Global, event: &Event) -> Result<Option<Action>, AllocError>
    ensures exact { IfOk result (λ action. action ≡ acceptance_for event.now) }
    ensures lawful { HasLawfulPdu event.now →
        IfOk result (λ action. IfSome action CanBeWritten) }
{
    let Event::Got(Pdu::AssociateRq(request)) = event else {
        return Ok(None);
    };
    let accept = accept_of(alloc, request)?;
    Ok(Some(Action::Send(Pdu::AssociateAc(accept))))
}

fn rejection<V: Copy>(titles: &Titles<V>, event: &Event) -> Option<Action>
    ensures exact { result ≡ rejection_for titles.now.list event.now }
    ensures lawful { IfSome result CanBeWritten }
{
    let Event::Got(Pdu::AssociateRq(request)) = event else {
        return None;
    };
    match admission(request, titles) {
        Ok(_) => None,
        Err(reject) => Some(Action::Send(Pdu::AssociateRj(reject))),
    }
}

fn handed_on(event: Event) -> Option<Action>
    ensures exact { result ≡ hand_for event }
    ensures lawful { IfSome result CanBeWritten }
{
    match event {
        Event::Got(Pdu::PData(values)) => Some(Action::Hand(values)),
        _ => None,
    }
}

fn abort(source: u8, reason: u8) -> Action
    ensures { result ≡ Send (Abort source reason) }
{
    Action::Send(Pdu::Abort { source, reason })
}
