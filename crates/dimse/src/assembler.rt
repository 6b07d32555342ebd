//! Fragments are put together to messages (PS3.8, annex E).

ghost use Rattle.std.specs.Prelude.{◌≡◌, ◌≢◌, ◌≤◌, ◌+◌, ◌++◌, nat_lt, [], length, IfOk, IfErr, IfSome, OnErr, IsTrue};
ghost use Rattle.std.specs.Prelude.{Some, None, false};
ghost use Rattle.std.specs.List.{list_any};
ghost use Rattle.dimse.specs.Assembly.{Assembly, accepts, has_place, limit_of, text_so_far, fault_of, is_over};
ghost use Rattle.dimse.specs.Assembly.{Closes, AdvancesCommand, AdvancesData, IsRefusalAt, LeadsTo, Feeds};
ghost use Rattle.dimse.specs.Assembly.{IsAnnouncement, Keeps};
ghost use Rattle.dimse.specs.Sending.{IsWhole, CanBeSent};
ghost use Rattle.dimse.specs.Refusal.{IsRefusal};

use crate::command::{Command, LONGEST_COMMAND};
use crate::fault::DimseFault;
use crate::message::Message;
use crate::reader::read_command;
use crate::whole::closed;
use bytes::Bytes;
use octets::{LONGEST_DATA_SET, Octets};
use pdu::{Context, Contexts, Pdv};
use std::alloc::Global;
use std::marker::Model;
use std::mem;

/// What was put together since the last message.
#[derive(Drop)]
pub(crate) enum Stage {
    /// No fragment.
    Between,
    /// Fragments of a command set, on this context.
    InCommand(u8, Octets),
    /// A command set that announces a data set, and fragments of that.
    InDataSet(u8, Command, Octets),
    /// A fragment that was refused.
    Failed,
}

/// Puts fragments together to messages.
///
/// After a fault it takes no fragment.
#[derive(Drop)]
pub struct Assembler {
    alloc: Global,
    contexts: Contexts,
    stage: Stage,
}

impl Model for Assembler {
    ghost use Rattle.dimse.specs.Assembly.{Assembly, Keeps};

    ghost Value = { Assembly };

    ghost view = { λ a. record { contexts = a.contexts; stage = a.stage } };

    ghost invariant = { λ a. Keeps a.stage };
}

fn is_accepted(contexts: &[Context], id: u8) -> bool
    ensures { result ≡ accepts contexts.now id }
{
    contexts.iter().any(|context| context.id == id)
}

/// Whether a sum is above a limit.
fn passes(limit: usize, some: usize, more: usize) -> bool
    ensures { result ≡ nat_lt limit (some + more) }
{
    limit < some || limit - some < more
}

impl Stage {
    /// Whether a fragment goes on what was begun.
    fn goes_on_with(&self, pdv: &Pdv) -> bool
        ensures { result ≡ has_place self.now pdv.now }
    {
        match self {
            Stage::Between => pdv.command,
            Stage::InCommand(context, _) => pdv.command && pdv.context == *context,
            Stage::InDataSet(context, _, _) => !pdv.command && pdv.context == *context,
            Stage::Failed => false,
        }
    }

    /// The text that a fragment goes on.
    fn text(&self) -> &[u8]
        ensures { result.now ≡ text_so_far self.now }
    {
        match self {
            Stage::Between | Stage::Failed => &[],
            Stage::InCommand(_, text) => text.as_slice(),
            Stage::InDataSet(_, _, text) => text.as_slice(),
        }
    }

    /// How long the text may be.
    fn limit(&self) -> usize
        ensures { result ≡ limit_of self.now }
    {
        match self {
            Stage::Between | Stage::InCommand(..) => LONGEST_COMMAND,
            Stage::InDataSet(..) => LONGEST_DATA_SET,
            Stage::Failed => 0,
        }
    }

    /// Whether the text would be longer than is read.
    fn is_passed_by(&self, pdv: &Pdv) -> bool
        ensures { result ≡ is_over self.now pdv.now }
    {
        passes(self.limit(), self.text().len(), pdv.fragment.len())
    }

    /// The fault that a fragment has before it is kept, where it has one.
    #[tactic(auto, unfolding(crate::specs::Assembly::fault_of))]
    fn fault_with(&self, contexts: &[Context], pdv: &Pdv) -> Option<DimseFault>
        ensures { result ≡ fault_of contexts.now self.now pdv.now }
    {
        if let Stage::Failed = self {
            return Some(DimseFault::Failed);
        }
        if !is_accepted(contexts, pdv.context) {
            return Some(DimseFault::BadContext);
        }
        if !self.goes_on_with(pdv) {
            return Some(DimseFault::Interleaved);
        }
        if self.is_passed_by(pdv) {
            return Some(DimseFault::TooLong);
        }
        None
    }
}

/// What a whole command set leads to.
fn close_command(
    alloc: Global,
    context: u8,
    text: &Bytes,
) -> Result<(Option<Message>, Stage), DimseFault>
    ensures ok { IfOk result (λ x. Closes context text.now x.0 x.1) }
    ensures sound { length text.now ≤ LONGEST_COMMAND → IfOk result (λ x. CanBeSent x.0 x.1) }
    ensures refused { IfErr result (IsRefusal text.now) }
{
    let command = read_command(alloc, text.as_slice())?;
    if command.announces_data_set() {
        let stage = Stage::InDataSet(context, command, Octets::of(Vec::new(alloc)));
        return Ok((None, stage));
    }
    let message = Message {
        context,
        command,
        body: None,
    };
    Ok((Some(message), Stage::Between))
}

/// What a fragment of a command set leads to, behind this text.
fn take_command_fragment(
    alloc: Global,
    text: Octets,
    pdv: Pdv,
) -> Result<(Option<Message>, Stage), DimseFault>
    ensures ok { IfOk result (λ x. AdvancesCommand text pdv x.0 x.1) }
    ensures sound { length (text ++ pdv.fragment) ≤ LONGEST_COMMAND →
        IfOk result (λ x. CanBeSent x.0 x.1) }
    ensures refused { IfErr result (IsRefusalAt (Stage.InCommand 0 text) pdv) }
{
    let Pdv {
        context,
        command: _,
        last,
        fragment,
    } = pdv;
    if last {
        let text = closed(text, fragment)?;
        return close_command(alloc, context, &text);
    }
    let mut text = text;
    text.extend_from_slice(fragment.as_slice())?;
    Ok((None, Stage::InCommand(context, text)))
}

/// What a fragment of a data set leads to, behind this text.
fn take_data_fragment(
    command: Command,
    text: Octets,
    pdv: Pdv,
) -> Result<(Option<Message>, Stage), DimseFault>
    ensures ok { IfOk result (λ x. AdvancesData command text pdv x.0 x.1) }
    ensures sound { IsAnnouncement command → IfOk result (λ x. CanBeSent x.0 x.1) }
    ensures refused { IfErr result (λ f. f ≡ DimseFault.Memory) }
{
    let Pdv {
        context,
        command: _,
        last,
        fragment,
    } = pdv;
    if !last {
        let mut text = text;
        text.extend_from_slice(fragment.as_slice())?;
        return Ok((None, Stage::InDataSet(context, command, text)));
    }
    let message = Message {
        context,
        command,
        body: Some(closed(text, fragment)?),
    };
    Ok((Some(message), Stage::Between))
}

/// What a fragment that has its place leads to.
fn advance(alloc: Global, stage: Stage, pdv: Pdv) -> Result<(Option<Message>, Stage), DimseFault>
    requires { stage ≢ Stage.Failed }
    ensures leads { LeadsTo stage pdv result }
    ensures sound { Keeps stage → is_over stage pdv ≡ false →
        IfOk result (λ x. CanBeSent x.0 x.1) }
{
    match stage {
        Stage::Between => take_command_fragment(alloc, Octets::of(Vec::new(alloc)), pdv),
        Stage::InCommand(_, text) => take_command_fragment(alloc, text, pdv),
        Stage::InDataSet(_, command, text) => take_data_fragment(command, text, pdv),
        Stage::Failed => unreachable!(),
    }
}

impl Assembler {
    /// An assembler between two messages, for the accepted presentation contexts. It takes no
    /// memory.
    pub fn new(alloc: Global, contexts: Contexts) -> Assembler
        ensures { result ≡ record { contexts = contexts; stage = Stage.Between } }
    {
        Assembler {
            alloc,
            contexts,
            stage: Stage::Between,
        }
    }

    /// The accepted presentation contexts.
    pub fn contexts(&self) -> &[Context]
        ensures { result.now ≡ self.now.contexts }
    {
        self.contexts.as_slice()
    }

    /// Takes the next fragment, and answers the message that it ends, where it ends one.
    pub fn feed(&mut self, pdv: Pdv) -> Result<Option<Message>, DimseFault>
        ensures fed { Feeds self.old pdv result self.new }
        // It can be sent again.
        ensures whole { IfOk result (λ message. IfSome message IsWhole) }
    {
        let stage = mem::replace(&mut self.stage, Stage::Failed);
        if let Some(fault) = stage.fault_with(self.contexts.as_slice(), &pdv) {
            return Err(fault);
        }
        let (message, next) = advance(self.alloc, stage, pdv)?;
        self.stage = next;
        Ok(message)
    }
}
