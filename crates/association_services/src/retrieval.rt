//! A C-GET whose sub-operations are performed (PS3.7, section 9.1.3; PS3.4, section C.4.3).

ghost use Rattle.std.specs.Prelude.{◌≡◌, ◌<◌, ◌≤◌, ◌+◌, IfOk, IfSome, All, length};
ghost use Rattle.pdu.specs.Spelling.{IsPdu};
ghost use Rattle.dimse.specs.Sending.{IsSending};
ghost use Rattle.association_services.specs.Get.{all_counted, counted};
ghost use Rattle.association_services.specs.SubOperation.{IsBound};
ghost use Rattle.association_services.specs.Retrieval.{few_in, with_counts, with_sent, setting_out, counting};
ghost use Rattle.association_services.specs.Retrieval.{CountsIn, RespondsIfLeft, RespondsEnd, RespondsCancel};
ghost use Rattle.association_services.specs.Retrieval.{sub_operation, is_named, meaning_of, performed, cancelling};
ghost use Rattle.association_services.specs.Retrieval.{failed, RespondsBy, Begins, pdus_begun};

use crate::awaited::Awaited;
use crate::counts::{Counts, Outcome, outcome_for};
use crate::loading::Loading;
use crate::reply::PortFault;
use crate::way::{Way, way_for};
use archive_model::{Listed, Prepared};
use bytes::Bytes;
use data_set::Syntax;
use dictionary::{C_CANCEL_RQ, C_STORE_RQ, C_STORE_RSP};
use dimse::{Command, DATA_SET_FOLLOWS, Fragments, Message, Status};
use octets::{ListOf, Octets};
use operation::ContentRecord;
use pdu::Context;
use std::alloc::{AllocError, Global};
use std::collections::VecDeque;
use std::marker::Model;

/// The most sub-operations of a C-GET: so many can be counted (PS3.7, section E.1).
pub const MOST_SUB_OPERATIONS: usize = 65_535;

/// How far a C-GET has come.
#[derive(Drop)]
pub struct Progress {
    /// The C-GET itself.
    pub awaited: Awaited,
    /// The transfer syntax of its context.
    pub(crate) syntax: Syntax,
    /// How many sub-operations were sent: the message ID of the last of them.
    pub(crate) sent: u16,
    pub(crate) counts: Counts,
}

/// What is to be sent for a C-GET, in order, while no content is awaited of the port, and the
/// response to no sub-operation.
#[derive(Drop)]
pub struct Retrieval {
    pub progress: Progress,
    pub(crate) left: VecDeque<Listed>,
}

/// A sub-operation whose response is awaited.
#[derive(Drop)]
pub struct SubOperation {
    pub progress: Progress,
    /// What is to be sent behind it.
    pub(crate) left: VecDeque<Listed>,
    pub(crate) instance: Octets,
    /// Whether a C-CANCEL was heard.
    pub(crate) cancelled: bool,
}

/// What a message says within a C-GET.
#[derive(Clone, Copy)]
pub enum Meaning {
    /// The C-GET is cancelled.
    Cancelled,
    /// The sub-operation ended.
    Performed(Outcome),
    /// It was not awaited.
    Unawaited,
}

impl Model for Retrieval {
    ghost use Rattle.std.specs.Prelude.{length};
    ghost use Rattle.association_services.specs.SubOperation.{Retrieval as Fetching, IsBound};

    ghost Value = { Fetching };

    ghost view = { λ r. record { progress = r.progress; left = r.left.items } };

    ghost invariant = { λ r. IsBound r.progress (length r.left.items) };
}

impl Model for SubOperation {
    ghost use Rattle.std.specs.Prelude.{length};
    ghost use Rattle.association_services.specs.SubOperation.{SubOperation as Sent, IsBoundSent};

    ghost Value = { Sent };

    ghost view = { λ s. record {
      progress = s.progress;
      left = s.left.items;
      instance = s.instance;
      cancelled = s.cancelled;
    } };

    ghost invariant = { λ s. IsBoundSent s.progress (length s.left.items) };
}

/// Whether this ID is named.
fn names(id: Option<u16>, named: Option<u16>) -> bool
    ensures { result ≡ is_named id named }
{
    match (id, named) {
        (None, _) => false,
        (Some(_), None) => false,
        (Some(id), Some(named)) => named == id,
    }
}

/// What a step of a C-GET begins.
#[derive(Drop)]
pub enum Begun {
    /// Nothing was left: these are the last response.
    Ended(Fragments),
    /// The next has a way: its content is to be loaded by this record.
    Loads(ContentRecord, Loading),
    /// One failed unsent, which these tell, and this is left.
    Unsent(Fragments, Retrieval),
}

impl Progress {
    /// A response with these counts.
    fn message(
        &self,
        alloc: Global,
        status: Status,
        remaining: Option<u16>,
        body: Option<Bytes>,
    ) -> Result<Message, AllocError>
        requires { all_counted self.now.counts ≤ MOST_SUB_OPERATIONS }
        ensures { IfOk result (λ message. message ≡ counting self.now status remaining body) }
    {
        let mut command = self.awaited.command.response(alloc, status)?;
        if body.is_some() {
            command.data_set_type = DATA_SET_FOLLOWS;
        }
        command.remaining = remaining;
        command.completed = Some(self.counts.completed);
        command.failed = Some(self.counts.failed.len() as u16);
        command.warning = Some(self.counts.warning);
        Ok(Message {
            context: self.awaited.context,
            command,
            body,
        })
    }

    /// Its PDUs.
    fn respond(
        &self,
        alloc: Global,
        status: Status,
        remaining: Option<u16>,
        body: Option<Bytes>,
    ) -> Result<Fragments, AllocError>
        requires { all_counted self.now.counts ≤ MOST_SUB_OPERATIONS }
        ensures sent { IfOk result (λ pdus. CountsIn self.now status remaining body pdus) }
        ensures lawful { IfOk result (λ pdus. All IsPdu pdus) }
    {
        self.awaited.see_lawful();
        let message = self.message(alloc, status, remaining, body)?;
        Fragments::of(alloc, &message, self.awaited.limit)
    }

    /// The pending response behind a sub-operation, where some are left.
    fn respond_if_left(
        &self,
        alloc: Global,
        left: &VecDeque<Listed>,
    ) -> Result<Fragments, AllocError>
        requires { IsBound self.now (length left.now.items) }
        ensures sent { IfOk result (λ pdus. RespondsIfLeft self.now left.now.items pdus) }
        ensures lawful { IfOk result (λ pdus. All IsPdu pdus) }
    {
        if left.is_empty() {
            return Ok(Fragments::none(alloc));
        }
        self.respond(alloc, Status::Pending, Some(left.len() as u16), None)
    }

    /// The last response.
    fn respond_end(&self, alloc: Global) -> Result<Fragments, AllocError>
        requires { all_counted self.now.counts ≤ MOST_SUB_OPERATIONS }
        ensures sent { IfOk result (λ pdus. RespondsEnd self.now pdus) }
        ensures lawful { IfOk result (λ pdus. All IsPdu pdus) }
    {
        let failed = self.counts.failed_set(alloc, self.syntax)?;
        self.respond(alloc, self.counts.status(), None, failed)
    }

    /// The last response, where the C-GET was cancelled.
    fn respond_cancel(
        &self,
        alloc: Global,
        left: &VecDeque<Listed>,
    ) -> Result<Fragments, AllocError>
        requires { IsBound self.now (length left.now.items) }
        ensures sent { IfOk result (λ pdus. RespondsCancel self.now left.now.items pdus) }
        ensures lawful { IfOk result (λ pdus. All IsPdu pdus) }
    {
        let failed = self.counts.failed_set(alloc, self.syntax)?;
        self.respond(alloc, Status::Cancel, Some(left.len() as u16), failed)
    }

    /// The C-STORE that sends an instance.
    fn request(&self, alloc: Global, way: Way, prepared: &Prepared) -> Result<Message, AllocError>
        requires { self.now.sent < MOST_SUB_OPERATIONS }
        ensures { IfOk result (λ message. message ≡ sub_operation self.now way prepared.now) }
    {
        let command = Command {
            affected_class: Some(Octets::from_slice(alloc, prepared.class())?),
            field: C_STORE_RQ,
            message_id: Some(self.sent + 1),
            responded_to: None,
            priority: Some(0),
            data_set_type: DATA_SET_FOLLOWS,
            status: None,
            affected_instance: Some(Octets::from_slice(alloc, prepared.instance())?),
            remaining: None,
            completed: None,
            failed: None,
            warning: None,
        };
        Ok(Message {
            context: way.context,
            command,
            body: Some(prepared.body(alloc, way.form)?),
        })
    }

    /// Its PDUs.
    pub(crate) fn bring(
        &self,
        alloc: Global,
        way: Way,
        prepared: &Prepared,
    ) -> Result<Fragments, AllocError>
        requires { self.now.sent < MOST_SUB_OPERATIONS }
        ensures sent { IfOk result (λ pdus. IsSending (sub_operation self.now way prepared.now)
            self.now.awaited.limit pdus) }
        ensures lawful { IfOk result (λ pdus. All IsPdu pdus) }
    {
        self.awaited.see_lawful();
        // Its class and its instance are UIDs.
        let _body = prepared.content.body();
        let message = self.request(alloc, way, prepared)?;
        Fragments::of(alloc, &message, self.awaited.limit)
    }

    /// One sub-operation more is counted.
    fn count(self, outcome: Outcome, instance: Octets) -> Result<Progress, AllocError>
        requires { all_counted self.counts < MOST_SUB_OPERATIONS }
        ensures { IfOk result (λ progress.
            progress ≡ with_counts self (counted outcome instance self.counts)) }
    {
        let Progress {
            awaited,
            syntax,
            sent,
            counts,
        } = self;
        Ok(Progress {
            awaited,
            syntax,
            sent,
            counts: counts.count(outcome, instance)?,
        })
    }

    /// One sub-operation more was sent.
    pub(crate) fn send(self) -> Progress
        requires { self.sent < MOST_SUB_OPERATIONS }
        ensures { result ≡ with_sent self }
    {
        let Progress {
            awaited,
            syntax,
            sent,
            counts,
        } = self;
        Progress {
            awaited,
            syntax,
            sent: sent + 1,
            counts,
        }
    }
}

/// What the port replied to a get, where it is no fault and no more than can be counted.
pub fn few(reply: Result<ListOf<Listed>, PortFault>) -> Option<ListOf<Listed>>
    ensures few { result ≡ few_in reply }
    ensures bound { IfSome result (λ listed. length listed ≤ MOST_SUB_OPERATIONS) }
{
    match reply {
        Ok(listed) => {
            if listed.len() <= MOST_SUB_OPERATIONS {
                return Some(listed);
            }
            None
        }
        Err(_fault) => None,
    }
}

/// Fails the sub-operation of this instance unsent: its PDUs are the pending response where some
/// are left, and these go on.
pub(crate) fn fail(
    alloc: Global,
    progress: Progress,
    instance: Octets,
    left: VecDeque<Listed>,
) -> Result<(Fragments, Retrieval), AllocError>
    requires { IsBound progress (length left.items + 1) }
    ensures told { IfOk result (λ x. RespondsIfLeft (failed progress instance) left.items x.0) }
    ensures next { IfOk result (λ x.
        x.1 ≡ record { progress = failed progress instance; left = left.items }) }
    ensures lawful { IfOk result (λ x. All IsPdu x.0) }
{
    let progress = progress.count(Outcome::Failed, instance)?;
    let pdus = progress.respond_if_left(alloc, &left)?;
    Ok((pdus, Retrieval { progress, left }))
}

impl Retrieval {
    /// A C-GET of which no sub-operation was begun: what it is to be sent, and the transfer syntax
    /// of its context, in which its last response names the instances that failed.
    pub fn of(alloc: Global, awaited: Awaited, syntax: Syntax, listed: ListOf<Listed>) -> Retrieval
        requires { length listed ≤ MOST_SUB_OPERATIONS }
        ensures { result ≡ record { progress = setting_out awaited syntax; left = listed } }
    {
        Retrieval {
            progress: Progress {
                awaited,
                syntax,
                sent: 0,
                counts: Counts::new(alloc),
            },
            left: VecDeque::from_vec(listed.into_vec()),
        }
    }

    /// Begins the next sub-operation, on the context that takes its instance in the requestor's SCP
    /// role (PS3.7, section D.3.3.4), for which its content is to be loaded; fails it where none
    /// does; or ends the C-GET where none is left. Each PDU can be written.
    pub fn begin(self, alloc: Global, contexts: &[Context]) -> Result<Begun, AllocError>
        ensures begun { IfOk result (Begins contexts.now self) }
        ensures lawful { IfOk result (λ begun. All IsPdu (pdus_begun begun)) }
    {
        let Retrieval { progress, mut left } = self;
        let Some(listed) = left.pop_front() else {
            return Ok(Begun::Ended(progress.respond_end(alloc)?));
        };
        match way_for(contexts, listed.class(), listed.syntax()) {
            None => {
                let instance = Octets::from_slice(alloc, listed.instance())?;
                let (pdus, retrieval) = fail(alloc, progress, instance, left)?;
                Ok(Begun::Unsent(pdus, retrieval))
            }
            Some(way) => {
                let record = listed.content.copy()?;
                let loading = Loading {
                    progress,
                    listed,
                    left,
                    way,
                };
                Ok(Begun::Loads(record, loading))
            }
        }
    }
}

impl SubOperation {
    /// What a message with this command set says while the response is awaited: the C-GET's
    /// C-CANCEL, that response, or any other.
    pub fn meaning(&self, command: &Command) -> Meaning
        ensures { result ≡ meaning_of self.now.progress command.now }
    {
        let progress = &self.progress;
        let request = progress.awaited.command.message_id;
        if command.field == C_CANCEL_RQ && names(request, command.responded_to) {
            return Meaning::Cancelled;
        }
        if command.field == C_STORE_RSP && names(Some(progress.sent), command.responded_to) {
            return Meaning::Performed(outcome_for(command.status));
        }
        Meaning::Unawaited
    }

    /// The same, once a C-CANCEL was heard: no other sub-operation is begun behind it.
    pub fn cancel(self) -> SubOperation
        ensures { result ≡ cancelling self }
    {
        let SubOperation {
            progress,
            left,
            instance,
            cancelled: _,
        } = self;
        SubOperation {
            progress,
            left,
            instance,
            cancelled: true,
        }
    }

    /// The PDUs of what is responded to the C-GET once it came to this, and what goes on then: the
    /// last response and nothing where the C-GET was cancelled. Each PDU can be written.
    pub fn perform(
        self,
        alloc: Global,
        outcome: Outcome,
    ) -> Result<(Fragments, Option<Retrieval>), AllocError>
        ensures told { IfOk result (λ x.
            RespondsBy self.cancelled (performed self outcome) self.left x.0 x.1) }
        ensures lawful { IfOk result (λ x. All IsPdu x.0) }
    {
        let SubOperation {
            progress,
            left,
            instance,
            cancelled,
        } = self;
        let progress = progress.count(outcome, instance)?;
        if cancelled {
            return Ok((progress.respond_cancel(alloc, &left)?, None));
        }
        let pdus = progress.respond_if_left(alloc, &left)?;
        Ok((pdus, Some(Retrieval { progress, left })))
    }
}
