//! Where an association is, and what it does on one event, one message or one reply.

ghost use Rattle.std.specs.Prelude.{◌≡◌, [], IfOk, OnOk, IsTrue, All, List, false};
ghost use Rattle.ul_state.specs.declared.titles.Title.{Title};
ghost use Rattle.archive_model.specs.declared.view.View.{View};
ghost use Rattle.std.specs.Option.{option_copied};
ghost use Rattle.association_session.specs.declared.event.SessionEvent.TheVariants.{GoesOn};
ghost use Rattle.association_session.specs.PendingResponse.{tells_rows};
ghost use Rattle.association_session.specs.Session.{start, closed, is_left, is_in_turn, Turned, IsWritable, IsSound};
ghost use Rattle.association_session.specs.Session.{IsFewer};
ghost use Rattle.association_session.specs.inner.Association.{owing};

use crate::deeds::Deeds;
use crate::event::SessionEvent;
use crate::link::Link;
use crate::pending_response::{PendingResponse, is_telling, takes};
use archive_model::View;
use association_services::SubOperation;
use pdu::Pdv;
use std::alloc::{AllocError, Global};
use std::collections::VecDeque;
use std::marker::Model;
use ul_state::{Acceptor, Settled, State, Titles};

/// An association without its reader, its writer and its port.
pub(crate) struct Association {
    pub(crate) alloc: Global,
    /// `None` once memory was refused.
    pub(crate) acceptor: Option<Acceptor<View>>,
    pub(crate) link: Link,
    /// The sub-operation whose response is awaited.
    pub(crate) sub: Option<SubOperation>,
    /// What is still to be told of the request that was served last.
    pub(crate) awaited: Option<PendingResponse>,
    /// The values of the last P-DATA-TF that are not heard yet.
    pub(crate) queue: VecDeque<Pdv>,
}

// It is written out, so that a caller does not prove again how each part is dropped.
impl Drop for Association {
    fn drop(self) {
        let Association {
            alloc: _,
            acceptor: _,
            link: _,
            sub: _,
            awaited: _,
            queue: _,
        } = self;
    }
}

impl Model for Association {
    ghost use Rattle.association_session.specs.Session.{AssociationState};
    ghost use Rattle.association_session.specs.inner.Association.{state_of, settled_of};
    ghost use Rattle.association_session.specs.contracts.pending_response.PendingResponse as pending;
    ghost use Rattle.std.specs.Coded.{codes};

    ghost Value = { AssociationState };

    ghost coded = { Prim.hlevel (codes, pending.the_row.coded) };

    ghost view = { λ a. record {
      within = record {
        state = state_of a.acceptor;
        settled = settled_of a.acceptor;
        link = a.link.link;
      };
      sub = a.sub;
      stage = a.link.stage;
      awaited = a.awaited;
      queue = a.queue.items;
    } };
}

impl Association {
    pub(crate) fn new(alloc: Global) -> Association
        ensures { result ≡ start }
    {
        Association {
            alloc,
            acceptor: Some(Acceptor::new(alloc)),
            link: Link::new(alloc),
            sub: None,
            awaited: None,
            queue: VecDeque::new(alloc),
        }
    }

    /// An association that is over.
    pub(crate) fn over(alloc: Global) -> Association
        ensures { result ≡ closed }
    {
        Association {
            alloc,
            acceptor: None,
            link: Link::new(alloc),
            sub: None,
            awaited: None,
            queue: VecDeque::new(alloc),
        }
    }

    pub(crate) fn state(&self) -> State
        ensures { result ≡ self.now.within.state }
    {
        match &self.acceptor {
            None => State::Sta1,
            Some(acceptor) => acceptor.state(),
        }
    }

    /// Whether rows are told, or sub-operations begun.
    pub(crate) fn is_telling(&self) -> bool
        ensures { result ≡ tells_rows self.now.awaited }
    {
        match &self.awaited {
            None => false,
            Some(pending) => is_telling(pending),
        }
    }

    /// What the acceptance settled.
    pub(crate) fn settled(&self) -> Option<&Settled<View>>
        ensures { option_copied result ≡ self.now.within.settled }
    {
        match &self.acceptor {
            None => None,
            Some(acceptor) => acceptor.accepted(),
        }
    }

    /// Whether values are to be heard on.
    pub(crate) fn is_left(&self) -> bool
        ensures { result ≡ is_left self.now.within.state self.now.queue }
    {
        self.state() == State::Sta6 && !self.queue.is_empty()
    }

    /// Leaves this to be told of the request that was served.
    pub(crate) fn owe(&mut self, pending: PendingResponse)
        ensures { self.new ≡ owing self.old pending }
    {
        self.awaited = Some(pending);
    }

    /// Tells the rows that are left, or begins the sub-operations that are left.
    fn tell_on(&mut self) -> Result<Deeds, AllocError>
        requires { IsTrue (tells_rows self.old.awaited) }
        ensures turned { (titles : List (Title View)) → IfOk result (λ deeds.
            Turned titles self.old GoesOn deeds self.new) }
        ensures fewer { OnOk result (IsFewer GoesOn self.old self.new) }
        ensures writable { IfOk result (All IsWritable) }
    {
        match self.awaited.take() {
            Some(PendingResponse::Rows(telling)) => self.tell_rows(telling),
            Some(PendingResponse::Sending(retrieval)) => self.send_on(retrieval),
            _ => unreachable!(),
        }
    }

    /// Tells the rows that are left, begins the sub-operations that are left, or hears the values
    /// that are left. While a reply is awaited nothing goes on.
    fn go_on(&mut self, titles: &Titles<View>) -> Result<Deeds, AllocError>
        ensures turned { IsTrue (is_in_turn self.old GoesOn) → IfOk result (λ deeds.
            Turned titles.now.list self.old GoesOn deeds self.new) }
        ensures fewer { IsTrue (is_in_turn self.old GoesOn) →
            OnOk result (IsFewer GoesOn self.old self.new) }
        ensures ignored { is_in_turn self.old GoesOn ≡ false →
            IfOk result (λ deeds. deeds ≡ []) }
        ensures kept { is_in_turn self.old GoesOn ≡ false → OnOk result (self.new ≡ self.old) }
        ensures writable { IfOk result (All IsWritable) }
    {
        let Some(pending) = &self.awaited else {
            if self.is_left() {
                return self.hear_values(titles);
            }
            return Ok(Deeds::new(self.alloc));
        };
        if !is_telling(pending) {
            return Ok(Deeds::new(self.alloc));
        }
        self.tell_on()
    }

    /// Whether this comes in its turn.
    pub(crate) fn is_in_turn(&self, event: &SessionEvent) -> bool
        ensures { result ≡ is_in_turn self.now event.now }
    {
        match (&self.awaited, event) {
            (None, SessionEvent::Heard(_)) => !self.is_left(),
            (None, SessionEvent::Replied(_)) => false,
            (None, SessionEvent::GoesOn) => self.is_left(),
            (Some(_), SessionEvent::Heard(_)) => false,
            (Some(pending), SessionEvent::Replied(reply)) => takes(pending, reply),
            (Some(pending), SessionEvent::GoesOn) => is_telling(pending),
        }
    }

    /// What is done on an event that comes in its turn. Any other changes nothing.
    pub(crate) fn on(
        &mut self,
        titles: &Titles<View>,
        event: SessionEvent,
    ) -> Result<Deeds, AllocError>
        ensures turned { IsTrue (is_in_turn self.old event) → IfOk result (λ deeds.
            Turned titles.now.list self.old event deeds self.new) }
        ensures fewer { IsTrue (is_in_turn self.old event) →
            OnOk result (IsFewer event self.old self.new) }
        ensures ignored { is_in_turn self.old event ≡ false →
            IfOk result (λ deeds. deeds ≡ []) }
        ensures kept { is_in_turn self.old event ≡ false → OnOk result (self.new ≡ self.old) }
        ensures writable { IsSound event → IfOk result (All IsWritable) }
    {
        match event {
            SessionEvent::Heard(event) => {
                if self.awaited.is_some() || self.is_left() {
                    return Ok(Deeds::new(self.alloc));
                }
                self.hear(titles, event)
            }
            SessionEvent::Replied(reply) => self.resume(reply),
            SessionEvent::GoesOn => self.go_on(titles),
        }
    }
}
