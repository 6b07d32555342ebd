//! What both sides of an association agreed.

ghost use Rattle.std.specs.Prelude.{◌≡◌, ◌≢◌, Err, IfOk, OnOk, IsTrue, IsSome, IfSome};
ghost use Rattle.std.specs.Option.{option_copied};
ghost use Rattle.dimse.specs.Assembly.{Feeds};
ghost use Rattle.dimse.specs.Sending.{IsWhole};
ghost use Rattle.dimse.specs.declared.assembler.Stage.TheVariants.{Between};
ghost use Rattle.association_services.specs.Response.{FitsLimit};
ghost use Rattle.association_session.specs.Row.{NO_LINK, agreed_by};
ghost use Rattle.association_session.specs.Session.{stage_by};
ghost use Rattle.association_session.specs.inner.Association.{assembly_in};

use crate::limit::SENT_WITHOUT_LIMIT;
use archive_model::View;
use dimse::{Assembler, DimseFault, Message};
use octets::{ListOf, Octets};
use pdu::{Context, Contexts, Pdv};
use std::alloc::{AllocError, Global};
use std::marker::Model;
use ul_state::Settled;

/// The accepted presentation contexts with the fragments since the last message, and how long what
/// is sent may be.
pub(crate) struct Link {
    pub(crate) assembler: Assembler,
    pub(crate) limit: u32,
}

// It is written out, so that a caller does not prove again how each part is dropped.
impl Drop for Link {
    fn drop(self) {
        let Link {
            assembler: _,
            limit: _,
        } = self;
    }
}

impl Model for Link {
    ghost use Rattle.association_session.specs.Row.{Link as Agreed};
    ghost use Rattle.association_session.specs.inner.Association.{Linked};
    ghost use Rattle.association_services.specs.Response.{FitsLimit};

    ghost Value = { Linked };

    ghost view = { λ l. record {
      link = record { contexts = l.assembler.contexts; limit = l.limit };
      stage = l.assembler.stage;
    } };

    ghost invariant = { λ l. FitsLimit l.limit };
}

fn copy_of(alloc: Global, context: &Context) -> Result<Context, AllocError>
    ensures { IfOk result (λ copy. copy ≡ context.now) }
{
    Ok(Context {
        id: context.id,
        abstract_syntax: context.abstract_syntax.copy(alloc)?,
        explicit: context.explicit,
        scp: context.scp,
    })
}

fn copies_of(alloc: Global, contexts: &[Context]) -> Result<Contexts, AllocError>
    ensures { IfOk result (λ copies. copies ≡ contexts.now) }
{
    let mut copies = Vec::with_capacity(alloc, contexts.len())?;
    for context in contexts {
        copies.push(copy_of(alloc, context)?)?;
    }
    Ok(ListOf::of(copies))
}

/// These contexts are agreed, and nothing came since.
// What came before is dropped here, so that a caller does not prove again how each kind is.
fn restart(alloc: Global, assembler: &mut Assembler, contexts: Contexts)
    ensures { assembler.new ≡ record { contexts = contexts; stage = Between } }
{
    *assembler = Assembler::new(alloc, contexts);
}

impl Link {
    /// Nothing is agreed yet.
    pub(crate) fn new(alloc: Global) -> Link
        ensures { result ≡ record { link = NO_LINK; stage = Between } }
    {
        Link {
            assembler: Assembler::new(alloc, ListOf::new(alloc)),
            limit: SENT_WITHOUT_LIMIT,
        }
    }

    /// Where an association is established, this was agreed.
    pub(crate) fn agree(
        &mut self,
        alloc: Global,
        opened: bool,
        settled: Option<&Settled<View>>,
        limit: u32,
    ) -> Result<(), AllocError>
        requires { IsTrue opened → IsSome (option_copied settled) → FitsLimit limit }
        ensures link { OnOk result (self.new.link
            ≡ agreed_by opened limit (option_copied settled.entry) self.old.link) }
        ensures stage { OnOk result (self.new.stage ≡ stage_by opened self.old.stage) }
    {
        if !opened {
            return Ok(());
        }
        let Some(settled) = settled else {
            let contexts = copies_of(alloc, self.assembler.contexts())?;
            restart(alloc, &mut self.assembler, contexts);
            return Ok(());
        };
        let contexts = copies_of(alloc, settled.contexts.as_slice())?;
        restart(alloc, &mut self.assembler, contexts);
        self.limit = limit;
        Ok(())
    }

    /// The accepted presentation contexts.
    pub(crate) fn contexts(&self) -> &[Context]
        ensures { result.now ≡ self.now.link.contexts }
    {
        self.assembler.contexts()
    }

    /// The most bytes of a P-DATA-TF's body that are sent.
    pub(crate) fn limit(&self) -> u32
        ensures limit { result ≡ self.now.link.limit }
        ensures fits { FitsLimit result }
    {
        self.limit
    }

    /// Puts a value to those since the last message, and answers the message that it ends, or its
    /// fault.
    pub(crate) fn feed(
        &mut self,
        value: Pdv,
    ) -> Result<Result<Option<Message>, DimseFault>, AllocError>
        ensures fed { IfOk result (λ answer.
            Feeds (assembly_in self.old) value answer (assembly_in self.new)) }
        ensures memory { IfOk result (λ answer. answer ≢ Err DimseFault.Memory) }
        ensures limit { self.new.link.limit ≡ self.old.link.limit }
        ensures whole { IfOk result (λ answer. IfOk answer (λ message. IfSome message IsWhole)) }
    {
        match self.assembler.feed(value) {
            Ok(message) => Ok(Ok(message)),
            Err(DimseFault::Memory) => Err(AllocError),
            Err(fault) => Ok(Err(fault)),
        }
    }
}
