//! An association as a machine (PS3.8, section 9.2; PS3.7, section 9).

ghost use Rattle.std.specs.Prelude.{◌≡◌, [], IfOk, OnOk, OnErr, IsTrue, All, false};
ghost use Rattle.association_session.specs.declared.event.SessionEvent.TheVariants.{GoesOn};
ghost use Rattle.association_session.specs.PendingResponse.{tells_rows};
ghost use Rattle.association_session.specs.Session.{start, over, is_in_turn, Turned, IsFewer, IsWritable, IsSound};
ghost use Rattle.association_session.specs.Session.{reads_abort, aborted_by, released_by};

use crate::association::Association;
use crate::deeds::Deeds;
use crate::event::SessionEvent;
use archive_model::View;
use pdu::Pdu;
use std::alloc::{AllocError, Global};
use std::marker::Model;
use ul_state::{Event, State, Titles};

/// An association without its reader, its writer and its port.
///
/// It asks the port for one thing at a time, and takes the reply before anything else. Rows are
/// told some at a time, and before anything else is heard.
pub struct Session {
    alloc: Global,
    association: Association,
    aborted: bool,
    released: bool,
}

// It is written out, so that a caller does not prove again how each part is dropped.
impl Drop for Session {
    fn drop(self) {
        let Session {
            alloc: _,
            association: _,
            aborted: _,
            released: _,
        } = self;
    }
}

impl Model for Session {
    ghost use Rattle.association_session.specs.Session.{SessionState};
    ghost use Rattle.association_session.specs.contracts.pending_response.PendingResponse as pending;
    ghost use Rattle.std.specs.Coded.{codes};

    ghost Value = { SessionState };

    ghost coded = { Prim.hlevel (codes, pending.the_row.coded) };

    ghost view = { λ s. record {
      association = s.association;
      aborted = s.aborted;
      released = s.released;
    } };
}

/// Whether an A-ABORT comes in its turn.
fn reads_an_abort(association: &Association, event: &SessionEvent) -> bool
    ensures read { IsTrue (is_in_turn association.now event.now) →
        result ≡ reads_abort association.now.within.state event.now }
    ensures ignored { is_in_turn association.now event.now ≡ false → result ≡ false }
{
    if !association.is_in_turn(event) {
        return false;
    }
    match (association.state(), event) {
        (State::Sta1, _) => false,
        (_, SessionEvent::Heard(Event::Got(Pdu::Abort { .. }))) => true,
        (_, _) => false,
    }
}

impl Session {
    /// A session on an open connection, where a request is awaited. It takes no memory.
    pub fn new(alloc: Global) -> Session
        ensures association { result.association ≡ start }
        ensures aborted { result.aborted ≡ false }
        ensures released { result.released ≡ false }
    {
        Session {
            alloc,
            association: Association::new(alloc),
            aborted: false,
            released: false,
        }
    }

    /// The acceptor's state.
    pub fn state(&self) -> State
        ensures { result ≡ self.now.association.within.state }
    {
        self.association.state()
    }

    /// Whether rows are told on, sub-operations are begun, or what is left of a P-DATA-TF is heard
    /// on, by `SessionEvent::GoesOn`.
    pub fn goes_on(&self) -> bool
        ensures { result ≡ is_in_turn self.now.association GoesOn }
    {
        self.association.is_in_turn(&SessionEvent::GoesOn)
    }

    /// Whether rows are told on, or sub-operations begun.
    pub fn is_telling(&self) -> bool
        ensures { result ≡ tells_rows self.now.association.awaited }
    {
        self.association.is_telling()
    }

    /// Whether an A-ABORT was sent or read.
    pub fn is_aborted(&self) -> bool
        ensures { result ≡ self.now.aborted }
    {
        self.aborted
    }

    /// Whether an A-RELEASE-RP was sent.
    pub fn is_released(&self) -> bool
        ensures { result ≡ self.now.released }
    {
        self.released
    }

    /// Takes an event of the acceptor, or the port's reply to the call that was asked last, or
    /// tells some of the rows that are left, or begins one of the sub-operations that are left, or
    /// hears on what is left of a P-DATA-TF: up to the end of one message.
    ///
    /// The deeds are for the caller to do in order. Where they end with a call, what comes next is
    /// its reply.
    pub fn on(&mut self, titles: &Titles<View>, event: SessionEvent) -> Result<Deeds, AllocError>
        // What is done: whatever is done from the new state on, these deeds and that are done from
        // the old one.
        ensures turned { IsTrue (is_in_turn self.old.association event) → IfOk result (λ deeds.
            Turned titles.now.list self.old.association event deeds self.new.association) }
        ensures fewer { IsTrue (is_in_turn self.old.association event) → OnOk result
            (IsFewer event self.old.association self.new.association) }
        ensures aborted { IsTrue (is_in_turn self.old.association event) → IfOk result (λ deeds.
            self.new.aborted
            ≡ aborted_by self.old.aborted self.old.association.within.state event deeds) }
        ensures released { IsTrue (is_in_turn self.old.association event) → IfOk result (λ deeds.
            self.new.released ≡ released_by self.old.released deeds) }

        // What comes out of turn changes nothing.
        ensures ignored { is_in_turn self.old.association event ≡ false →
            IfOk result (λ deeds. deeds ≡ []) }
        ensures kept { is_in_turn self.old.association event ≡ false →
            OnOk result (self.new ≡ self.old) }

        // Each PDU that is sent can be written.
        ensures writable { IsSound event → IfOk result (All IsWritable) }

        // Once memory was refused, nothing is done any more.
        ensures refused { OnErr result (self.new ≡ over self.old) }
    {
        let read = reads_an_abort(&self.association, &event);
        match self.association.on(titles, event) {
            Ok(deeds) => {
                self.aborted = self.aborted || read || deeds.has_abort();
                self.released = self.released || deeds.has_release();
                Ok(deeds)
            }
            Err(fault) => {
                self.association = Association::over(self.alloc);
                Err(fault)
            }
        }
    }
}
