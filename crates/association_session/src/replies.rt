//! What an association does for a reply of the port, and what goes on behind it.

ghost use Rattle.std.specs.Prelude.{◌≡◌, [], IfOk, OnOk, IsTrue, All, List, None, false};
ghost use Rattle.ul_state.specs.declared.titles.Title.{Title};
ghost use Rattle.association_session.specs.declared.event.SessionEvent.TheVariants.{Replied, GoesOn};
ghost use Rattle.association_session.specs.declared.pending_response.PendingResponse.TheVariants as pendings;
ghost use Rattle.association_services.specs.declared.reply.Reply.TheVariants.{Stored, Found, Gotten, Loaded};
ghost use Rattle.association_session.specs.Session.{is_in_turn, Turned, IsWritable, IsFewer};
ghost use Rattle.association_session.specs.inner.Association.{owing};
ghost use Rattle.archive_model.specs.declared.view.View.{View};

use crate::association::Association;
use crate::deed::Deed;
use crate::deeds::Deeds;
use crate::pending_response::{PendingResponse, Telling, put, takes};
use crate::telling::{one, respond, sends, tell};
use archive_model::{Answers, Listed};
use association_services::{
    Awaited, Begun, Brought, Call, Loading, PortFault, Reply, Retrieval, RowKind, few, found,
    status_for,
};
use data_set::Syntax;
use dimse::Status;
use octets::ListOf;
use operation::{Content, Taken};
use std::alloc::AllocError;

impl Association {
    /// Responds with the reply to a store.
    fn take_stored(
        &self,
        awaited: &Awaited,
        reply: Result<Taken, PortFault>,
    ) -> Result<Deeds, AllocError>
        requires { self.now.awaited ≡ None }
        ensures turned { (titles : List (Title View)) → IfOk result (λ deeds.
            Turned titles (owing self.now (pendings.Store awaited.now)) (Replied (Stored reply))
            deeds self.now) }
        ensures writable { IfOk result (All IsWritable) }
    {
        respond(self.alloc, awaited, status_for(reply))
    }

    /// Leaves the rows of the reply to a find to be told.
    fn take_found(
        &mut self,
        awaited: Awaited,
        kind: RowKind,
        reply: Result<Answers, PortFault>,
    ) -> Result<Deeds, AllocError>
        requires { self.old.awaited ≡ None }
        ensures turned { (titles : List (Title View)) → IfOk result (λ deeds.
            Turned titles (owing self.old (pendings.Find awaited kind)) (Replied (Found reply))
            deeds self.new) }
        ensures left { OnOk result (self.new.queue ≡ self.old.queue) }
        ensures writable { IfOk result (All IsWritable) }
    {
        awaited.see_room();
        let (rows, status) = found(self.alloc, reply);
        self.owe(PendingResponse::Rows(Telling {
            awaited,
            kind,
            rows,
            status,
        }));
        Ok(Deeds::new(self.alloc))
    }

    /// Leaves the sub-operations of the reply to a get to be begun.
    fn take_gotten(
        &mut self,
        awaited: Awaited,
        syntax: Syntax,
        reply: Result<ListOf<Listed>, PortFault>,
    ) -> Result<Deeds, AllocError>
        requires { self.old.awaited ≡ None }
        ensures turned { (titles : List (Title View)) → IfOk result (λ deeds.
            Turned titles (owing self.old (pendings.Get awaited syntax)) (Replied (Gotten reply))
            deeds self.new) }
        ensures left { OnOk result (self.new.queue ≡ self.old.queue) }
        ensures writable { IfOk result (All IsWritable) }
    {
        awaited.see_room();
        let Some(listed) = few(reply) else {
            return respond(self.alloc, &awaited, Status::UnableToPerformSubOperations);
        };
        let retrieval = Retrieval::of(self.alloc, awaited, syntax, listed);
        self.owe(PendingResponse::Sending(retrieval));
        Ok(Deeds::new(self.alloc))
    }

    /// Sends what was loaded for a sub-operation, or fails it unsent and leaves the others to be
    /// begun.
    fn take_loaded(
        &mut self,
        loading: Loading,
        reply: Result<Content, PortFault>,
    ) -> Result<Deeds, AllocError>
        requires { self.old.awaited ≡ None }
        ensures turned { (titles : List (Title View)) → IfOk result (λ deeds.
            Turned titles (owing self.old (pendings.Load loading)) (Replied (Loaded reply))
            deeds self.new) }
        ensures fewer { OnOk result (IsFewer (Replied (Loaded reply))
            (owing self.old (pendings.Load loading)) self.new) }
        ensures writable { IfOk result (All IsWritable) }
    {
        loading.progress.awaited.see_room();
        match loading.bring(self.alloc, reply)? {
            Brought::Sent(pdus, sub) => {
                put(&mut self.sub, Some(sub));
                sends(self.alloc, pdus)
            }
            Brought::Unsent(pdus, left) => {
                self.owe(PendingResponse::Sending(left));
                sends(self.alloc, pdus)
            }
        }
    }

    /// Whether this reply is awaited.
    fn awaits(&self, reply: &Reply) -> bool
        ensures { result ≡ is_in_turn self.now (Replied reply.now) }
    {
        match &self.awaited {
            None => false,
            Some(pending) => takes(pending, reply),
        }
    }

    /// Takes the reply that is awaited.
    fn take(&mut self, reply: Reply) -> Result<Deeds, AllocError>
        requires { IsTrue (is_in_turn self.old (Replied reply)) }
        ensures turned { (titles : List (Title View)) → IfOk result (λ deeds.
            Turned titles self.old (Replied reply) deeds self.new) }
        ensures fewer { OnOk result (IsFewer (Replied reply) self.old self.new) }
        ensures writable { IfOk result (All IsWritable) }
    {
        match (self.awaited.take(), reply) {
            (Some(PendingResponse::Store(awaited)), Reply::Stored(reply)) => {
                self.take_stored(&awaited, reply)
            }
            (Some(PendingResponse::Find(awaited, kind)), Reply::Found(reply)) => {
                self.take_found(awaited, kind, reply)
            }
            (Some(PendingResponse::Get(awaited, syntax)), Reply::Gotten(reply)) => {
                self.take_gotten(awaited, syntax, reply)
            }
            (Some(PendingResponse::Load(loading)), Reply::Loaded(reply)) => {
                self.take_loaded(loading, reply)
            }
            (_, _) => unreachable!(),
        }
    }

    /// Takes a reply. One that is not awaited changes nothing.
    pub(crate) fn resume(&mut self, reply: Reply) -> Result<Deeds, AllocError>
        ensures turned { (titles : List (Title View)) →
            IsTrue (is_in_turn self.old (Replied reply)) → IfOk result (λ deeds.
            Turned titles self.old (Replied reply) deeds self.new) }
        ensures fewer { IsTrue (is_in_turn self.old (Replied reply)) →
            OnOk result (IsFewer (Replied reply) self.old self.new) }
        ensures ignored { is_in_turn self.old (Replied reply) ≡ false →
            IfOk result (λ deeds. deeds ≡ []) }
        ensures kept { is_in_turn self.old (Replied reply) ≡ false →
            OnOk result (self.new ≡ self.old) }
        ensures writable { IfOk result (All IsWritable) }
    {
        if !self.awaits(&reply) {
            return Ok(Deeds::new(self.alloc));
        }
        self.take(reply)
    }

    /// Begins the next of the sub-operations that are left, for which the port is asked its
    /// content; and behind the last one ends them.
    pub(crate) fn send_on(&mut self, retrieval: Retrieval) -> Result<Deeds, AllocError>
        requires { self.old.awaited ≡ None }
        ensures turned { (titles : List (Title View)) → IfOk result (λ deeds.
            Turned titles (owing self.old (pendings.Sending retrieval)) GoesOn deeds self.new) }
        ensures fewer { OnOk result
            (IsFewer GoesOn (owing self.old (pendings.Sending retrieval)) self.new) }
        ensures writable { IfOk result (All IsWritable) }
    {
        retrieval.progress.awaited.see_room();
        match retrieval.begin(self.alloc, self.link.contexts())? {
            Begun::Ended(pdus) => {
                put(&mut self.sub, None);
                sends(self.alloc, pdus)
            }
            Begun::Loads(asked, loading) => {
                self.owe(PendingResponse::Load(loading));
                one(self.alloc, Deed::Ask(Call::Load(asked)))
            }
            Begun::Unsent(pdus, retrieval) => {
                self.owe(PendingResponse::Sending(retrieval));
                sends(self.alloc, pdus)
            }
        }
    }

    /// Tells the next of the rows that are left, and behind the last one ends them.
    pub(crate) fn tell_rows(&mut self, telling: Telling) -> Result<Deeds, AllocError>
        requires { self.old.awaited ≡ None }
        ensures turned { (titles : List (Title View)) → IfOk result (λ deeds.
            Turned titles (owing self.old (pendings.Rows telling)) GoesOn deeds self.new) }
        ensures fewer { OnOk result
            (IsFewer GoesOn (owing self.old (pendings.Rows telling)) self.new) }
        ensures writable { IfOk result (All IsWritable) }
    {
        let Telling {
            awaited,
            kind,
            mut rows,
            status,
        } = telling;
        awaited.see_room();
        let (deeds, ended) = tell(self.alloc, &awaited, kind, &mut rows, status)?;
        if ended {
            return Ok(deeds);
        }
        self.owe(PendingResponse::Rows(Telling {
            awaited,
            kind,
            rows,
            status,
        }));
        Ok(deeds)
    }
}
