//! Requests that await their response (PS3.7, section 9.3).

ghost use Rattle.std.specs.Prelude.{◌≡◌, IfOk, All};
ghost use Rattle.pdu.specs.Spelling.{IsPdu};
ghost use Rattle.association_services.specs.Response.{FitsLimit, CanBeResponded, response_to, response_with};
ghost use Rattle.association_services.specs.Response.{Responds, RespondsWith};

use bytes::Bytes;
use dimse::{Command, DATA_SET_FOLLOWS, Fragments, Message, Status};
use std::alloc::{AllocError, Global};
use std::marker::Model;

/// A request that awaits its response: no response itself and no C-CANCEL, and one that can be
/// written.
#[derive(Drop)]
pub struct Awaited {
    /// The ID of the presentation context that it came on, on which it is responded.
    pub context: u8,
    /// The most bytes of a P-DATA-TF's body that are sent, from 8 to 65,536 (PS3.8, section D.1).
    pub limit: u32,
    pub command: Command,
}

impl Model for Awaited {
    ghost use Rattle.association_services.specs.Response.{Awaited as Asking, CanBeResponded};

    ghost Value = { Asking };

    ghost view = { λ a. record { context = a.context; limit = a.limit; command = a.command } };

    ghost invariant = { λ a. CanBeResponded (record {
      context = a.context;
      limit = a.limit;
      command = a.command;
    }) };
}

impl Awaited {
    /// What is responded has room: the limit is one within which a fragment can be sent.
    pub fn see_room(&self)
        ensures { FitsLimit self.now.limit }
    {
        let _limit = &self.limit;
    }

    /// It can be responded.
    pub(crate) fn see_lawful(&self)
        ensures { CanBeResponded self.now }
    {
        let _limit = &self.limit;
    }

    /// The response with this status.
    fn response(&self, alloc: Global, status: Status) -> Result<Message, AllocError>
        ensures { IfOk result (λ message. message ≡ response_to self.now status) }
    {
        let command = self.command.response(alloc, status)?;
        Ok(Message {
            context: self.context,
            command,
            body: None,
        })
    }

    /// The PDUs of the response with this status and without a data set. Each can be written.
    pub fn respond(&self, alloc: Global, status: Status) -> Result<Fragments, AllocError>
        ensures sent { IfOk result (λ pdus. Responds self.now status pdus) }
        ensures lawful { IfOk result (λ pdus. All IsPdu pdus) }
    {
        let message = self.response(alloc, status)?;
        Fragments::of(alloc, &message, self.limit)
    }

    /// The response with this status and a data set.
    fn response_with(
        &self,
        alloc: Global,
        status: Status,
        text: Bytes,
    ) -> Result<Message, AllocError>
        ensures { IfOk result (λ message. message ≡ response_with self.now status text) }
    {
        let mut command = self.command.response(alloc, status)?;
        command.data_set_type = DATA_SET_FOLLOWS;
        Ok(Message {
            context: self.context,
            command,
            body: Some(text),
        })
    }

    /// The PDUs of the response with this status and this data set, which is spelled in the
    /// transfer syntax of the request's context. Each can be written.
    pub fn respond_with(
        &self,
        alloc: Global,
        status: Status,
        text: Bytes,
    ) -> Result<Fragments, AllocError>
        ensures sent { IfOk result (λ pdus. RespondsWith self.now status text pdus) }
        ensures lawful { IfOk result (λ pdus. All IsPdu pdus) }
    {
        let message = self.response_with(alloc, status, text)?;
        Fragments::of(alloc, &message, self.limit)
    }
}
