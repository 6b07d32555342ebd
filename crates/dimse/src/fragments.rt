//! The PDUs of a message, made one by one (PS3.8, annex E and section D.1).

ghost use Rattle.std.specs.Prelude.{◌≡◌, ◌≤◌, ◌++◌, [], IfOk, OnErr, All, None, Ok, option_to_list};
ghost use Rattle.std.specs.List.{AllByRecursion};
ghost use Rattle.pdu.specs.declared.header.TheConstants.{LONGEST_BODY};
ghost use Rattle.pdu.specs.Spelling.{IsPdu};
ghost use Rattle.dimse.specs.Cut.{IsData};
ghost use Rattle.dimse.specs.Messages.{SpellsMessage};
ghost use Rattle.dimse.specs.Sending.{IsSending, IsWhole, pdvs_in};

use crate::fragment::{size_within, take_fragment};
use crate::message::Message;
use crate::writer::write_command;
use bytes::Bytes;
use pdu::Pdu;
use std::alloc::{AllocError, Global};
use std::marker::Model;

/// The PDUs of a message that are not made yet, each with one fragment.
///
/// They hold the texts of the message, whose bytes the fragments share.
#[derive(Drop)]
pub struct Fragments {
    alloc: Global,
    /// How long each fragment but the last of a text is.
    size: usize,
    context: u8,
    /// What is left of the command set.
    command: Option<Bytes>,
    /// What is left of the data set.
    body: Option<Bytes>,
}

impl Model for Fragments {
    ghost use Rattle.std.specs.Prelude.{◌<◌, ◌++◌, List, true, false};
    ghost use Rattle.pdu.specs.declared.value.Pdu.{Pdu as Unit};
    ghost use Rattle.dimse.specs.Cut.{cut_left};

    ghost Value = { List Unit };

    ghost view = { λ f. cut_left f.size f.context true f.command
        ++ cut_left f.size f.context false f.body };

    ghost invariant = { λ f. 0 < f.size };
}

/// A second owner of a data set, where there is one.
fn shared(body: &Option<Bytes>) -> Result<Option<Bytes>, AllocError>
    ensures { IfOk result (λ shared. shared ≡ body.now) }
{
    match body {
        None => Ok(None),
        Some(text) => Ok(Some(text.clone()?)),
    }
}

impl Fragments {
    /// No PDUs. It takes no memory.
    pub fn none(alloc: Global) -> Fragments
        ensures { result ≡ [] }
    {
        Fragments {
            alloc,
            size: 1,
            context: 0,
            command: None,
            body: None,
        }
    }

    /// The PDUs of a message, for a peer that takes at most `max` bytes.
    ///
    /// A limit of 0, which means none, is for the caller to replace (docs/DECISIONS.md, "Sending
    /// limit").
    pub fn of(alloc: Global, message: &Message, max: u32) -> Result<Fragments, AllocError>
        requires least { 8 ≤ max }
        requires whole { IsWhole message.now }
        ensures sent { IfOk result (λ pdus. IsSending message.now max pdus) }
        // They are put together to the same message.
        ensures again { IfOk result (λ pdus. SpellsMessage (pdvs_in pdus) message.now) }
        // Each can be written.
        ensures lawful { max ≤ LONGEST_BODY → IfOk result (λ pdus. All IsPdu pdus) }
    {
        let text = Bytes::from_vec(write_command(alloc, &message.command)?)?;
        Ok(Fragments {
            alloc,
            size: size_within(max),
            context: message.context,
            command: Some(text),
            body: shared(&message.body)?,
        })
    }

    /// Makes the next PDU. A refusal changes nothing.
    pub fn next(&mut self) -> Result<Option<Pdu>, AllocError>
        ensures parts { IfOk result (λ pdu. self.old ≡ option_to_list pdu ++ self.new) }
        ensures none { result ≡ Ok None → self.old ≡ [] }
        ensures kept { OnErr result (self.new ≡ self.old) }
    {
        if self.command.is_some() {
            return take_fragment(self.alloc, self.size, self.context, true, &mut self.command);
        }
        take_fragment(self.alloc, self.size, self.context, false, &mut self.body)
    }

    /// Each is a P-DATA-TF.
    pub fn see_data(&self)
        ensures { AllByRecursion IsData self.now }
    {
        let _size = &self.size;
    }
}
