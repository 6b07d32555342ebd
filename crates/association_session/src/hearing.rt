//! What an association does for an event, and for each message that its values end.

ghost use Rattle.std.specs.Prelude.{◌≡◌, ◌<◌, IfOk, OnOk, None, All, ◌≤◌, length};
ghost use Rattle.ul_state.specs.declared.table.State.TheVariants.{Sta6};
ghost use Rattle.ul_state.specs.declared.event.Event.TheVariants.{LocalAbort};
ghost use Rattle.ul_state.specs.Acceptor.{HasLawfulPdu};
ghost use Rattle.dimse.specs.Sending.{IsWhole};
ghost use Rattle.association_session.specs.declared.event.SessionEvent.TheVariants.{Heard, GoesOn};
ghost use Rattle.association_session.specs.Row.{row};
ghost use Rattle.association_session.specs.Session.{Turned, entered, IsWritable};
ghost use Rattle.association_session.specs.inner.Association.{Answered};

use crate::association::Association;
use crate::deed::Deed;
use crate::deeds::Deeds;
use crate::pending_response::{PendingResponse, cancel, leave, put};
use crate::row::{parted, turn};
use crate::telling::{asks, one, respond, sends};
use archive_model::View;
use association_services::{Awaited, Call, Meaning, Service, serve};
use dimse::Message;
use std::alloc::AllocError;
use std::collections::VecDeque;
use ul_state::{Event, Titles};

impl Association {
    /// Takes an event by the table's row. The values that are handed on are left to be heard.
    fn meet(&mut self, titles: &Titles<View>, event: Event) -> Result<Deeds, AllocError>
        requires { self.old.awaited ≡ None }
        ensures row { IfOk result (λ deeds.
            deeds ≡ row titles.now.list self.old.within.state event) }
        ensures next { OnOk result (self.new ≡ entered titles.now.list self.old event) }
        ensures writable { HasLawfulPdu event → IfOk result (All IsWritable) }
    {
        let Some(acceptor) = &mut self.acceptor else {
            self.queue = VecDeque::new(self.alloc);
            return Ok(Deeds::new(self.alloc));
        };
        let action = turn(self.alloc, acceptor, &mut self.link, titles, event)?;
        let (deeds, values) = parted(self.alloc, action)?;
        self.queue = VecDeque::from_vec(values.into_vec());
        Ok(deeds)
    }

    /// The local user aborts. What is left of a P-DATA-TF is dropped.
    fn abort(&mut self, titles: &Titles<View>) -> Result<Deeds, AllocError>
        requires established { self.old.within.state ≡ Sta6 }
        requires idle { self.old.awaited ≡ None }
        ensures sent { IfOk result (λ deeds. deeds ≡ row titles.now.list Sta6 LocalAbort) }
        ensures next { OnOk result (self.new ≡ entered titles.now.list self.old LocalAbort) }
        ensures writable { IfOk result (All IsWritable) }
    {
        self.meet(titles, Event::LocalAbort)
    }

    /// Answers a message, while no sub-operation is awaited.
    fn answer(&mut self, titles: &Titles<View>, message: Message) -> Result<Deeds, AllocError>
        requires established { self.old.within.state ≡ Sta6 }
        requires idle { self.old.awaited ≡ None }
        requires none { self.old.sub ≡ None }
        requires whole { IsWhole message }
        ensures answered { IfOk result (λ deeds.
            Answered titles.now.list self.old message deeds self.new) }
        ensures fewer { OnOk result (length self.new.queue ≤ length self.old.queue) }
        ensures writable { IfOk result (All IsWritable) }
    {
        let Message {
            context,
            command,
            body,
        } = message;
        let service = serve(
            self.alloc,
            self.settled(),
            self.link.contexts(),
            context,
            &command,
            body,
        )?;
        let limit = self.link.limit();
        let awaited = Awaited {
            context,
            limit,
            command,
        };
        match service {
            Service::Ignored => Ok(Deeds::new(self.alloc)),
            Service::Broken => self.abort(titles),
            Service::Responded(status) => respond(self.alloc, &awaited, status),
            Service::Asked(content) => {
                self.owe(PendingResponse::Store(awaited));
                asks(self.alloc, content)
            }
            Service::Queried(finding, kind) => {
                self.owe(PendingResponse::Find(awaited, kind));
                one(self.alloc, Deed::Ask(Call::Find(finding)))
            }
            Service::Fetched(getting, syntax) => {
                self.owe(PendingResponse::Get(awaited, syntax));
                one(self.alloc, Deed::Ask(Call::Get(getting)))
            }
        }
    }

    /// Takes a message: it is answered, or belongs to a C-GET whose sub-operation is awaited.
    fn attend(&mut self, titles: &Titles<View>, message: Message) -> Result<Deeds, AllocError>
        requires established { self.old.within.state ≡ Sta6 }
        requires idle { self.old.awaited ≡ None }
        requires whole { IsWhole message }
        ensures answered { IfOk result (λ deeds.
            Answered titles.now.list self.old message deeds self.new) }
        ensures fewer { OnOk result (length self.new.queue ≤ length self.old.queue) }
        ensures writable { IfOk result (All IsWritable) }
    {
        let Some(sub) = &self.sub else {
            return self.answer(titles, message);
        };
        sub.progress.awaited.see_room();
        let meaning = sub.meaning(&message.command);
        drop(message);
        match meaning {
            Meaning::Cancelled => {
                cancel(&mut self.sub);
                Ok(Deeds::new(self.alloc))
            }
            Meaning::Unawaited => {
                put(&mut self.sub, None);
                self.abort(titles)
            }
            Meaning::Performed(outcome) => {
                let Some(sub) = self.sub.take() else {
                    unreachable!();
                };
                let (pdus, next) = sub.perform(self.alloc, outcome)?;
                leave(&mut self.awaited, next);
                sends(self.alloc, pdus)
            }
        }
    }

    /// Hears the values that are left, up to the end of a message.
    pub(crate) fn hear_values(&mut self, titles: &Titles<View>) -> Result<Deeds, AllocError>
        requires established { self.old.within.state ≡ Sta6 }
        requires idle { self.old.awaited ≡ None }
        ensures turned { IfOk result (λ deeds.
            Turned titles.now.list self.old GoesOn deeds self.new) }
        ensures fewer { OnOk result (0 < length self.old.queue →
            length self.new.queue < length self.old.queue) }
        ensures writable { IfOk result (All IsWritable) }
    {
        while let Some(value) = self.queue.pop_front() {
            let answer = self.link.feed(value)?;
            match answer {
                Ok(None) => {}
                Ok(Some(message)) => return self.attend(titles, message),
                Err(_fault) => return self.abort(titles),
            }
        }
        Ok(Deeds::new(self.alloc))
    }

    /// Hears an event.
    pub(crate) fn hear(&mut self, titles: &Titles<View>, event: Event) -> Result<Deeds, AllocError>
        requires { self.old.awaited ≡ None }
        ensures turned { IfOk result (λ deeds.
            Turned titles.now.list self.old (Heard event) deeds self.new) }
        ensures writable { HasLawfulPdu event → IfOk result (All IsWritable) }
    {
        let deeds = self.meet(titles, event)?;
        if self.is_left() {
            // Of what is handed on the row asks nothing else.
            return self.hear_values(titles);
        }
        Ok(deeds)
    }
}
