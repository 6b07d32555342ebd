//! Presentation contexts, proposed and answered (PS3.8, sections 9.3.2.2 and 9.3.3.2).

ghost use Rattle.std.specs.Prelude.{◌≡◌};
ghost use Rattle.pdu.specs.Fault.{Gives};
ghost use Rattle.pdu.specs.Grammar.{is_odd, is_among, are_distinct};
ghost use Rattle.pdu.specs.Reading.{proposal_at, answer_at};

use crate::fault::PduFault;
use crate::item::{ABSTRACT_SYNTAX, Content, TRANSFER_SYNTAX, each_of, items_behind, sole_of};
use bytes::Bytes;
use octets::{ListOf, Octets};
use std::alloc::Global;

/// A presentation context as the requestor proposes it (PS3.8, section 9.3.2.2).
#[derive(Debug, Drop)]
pub struct ProposedContext {
    /// Odd, and no other context of the request has it.
    pub id: u8,
    pub abstract_syntax: Octets,
    /// One or more, in the order of the request.
    pub transfer_syntaxes: ListOf<Octets>,
}

/// A presentation context as the acceptor answers it (PS3.8, section 9.3.3.2).
#[derive(Debug, Drop)]
pub struct AnsweredContext {
    /// Odd, and no other context of the answer has it.
    pub id: u8,
    /// 0 is acceptance; 3 and 4 refuse the abstract syntax and the transfer syntaxes.
    pub result: u8,
    /// Without meaning where the context is refused.
    pub transfer_syntax: Octets,
}

/// A presentation context that was accepted, as both sides use it.
#[derive(Debug, Drop)]
pub struct Context {
    pub id: u8,
    pub abstract_syntax: Octets,
    /// Whether data sets are spelled in Explicit VR Little Endian, and not in Implicit.
    pub explicit: bool,
    /// Whether the requestor has the SCP role (PS3.7, section D.3.3.4).
    pub scp: bool,
}

/// The accepted presentation contexts of an association, in the order of the request.
pub type Contexts = ListOf<Context>;

/// Whether no ID stands twice.
pub(crate) fn have_no_double(ids: &[u8]) -> bool
    ensures { result ≡ are_distinct ids.now }
{
    let mut rest = ids;
    while let [first, others @ ..] = rest {
        if is_one_of(*first, others) {
            return false;
        }
        rest = others;
    }
    true
}

fn is_one_of(id: u8, ids: &[u8]) -> bool
    ensures { result ≡ is_among id ids.now }
{
    ids.iter().any(|other| *other == id)
}

fn is_odd_number(id: u8) -> bool
    ensures { result ≡ is_odd id }
{
    id % 2 == 1
}

#[tactic(auto, unfolding(crate::specs::Reading::proposal_at))]
fn proposal_of(alloc: Global, content: &Bytes) -> Result<ProposedContext, PduFault>
    ensures { Gives result (proposal_at content.now) }
{
    let [id, _, _, _, ..] = content.as_slice() else {
        return Err(PduFault::BadItem);
    };
    let id = *id;
    let items = items_behind(alloc, content, 4)?;
    let abstract_syntax: Octets = sole_of(alloc, items.as_slice(), ABSTRACT_SYNTAX)?;
    let transfer_syntaxes: ListOf<Octets> = each_of(alloc, items.as_slice(), TRANSFER_SYNTAX)?;
    if is_odd_number(id) && !transfer_syntaxes.is_empty() {
        return Ok(ProposedContext {
            id,
            abstract_syntax,
            transfer_syntaxes,
        });
    }
    Err(PduFault::BadItem)
}

impl Content for ProposedContext {
    ghost content_at = { proposal_at };

    fn read(alloc: Global, content: &Bytes) -> Result<ProposedContext, PduFault> {
        proposal_of(alloc, content)
    }
}

#[tactic(auto, unfolding(crate::specs::Reading::answer_at))]
fn answer_of(alloc: Global, content: &Bytes) -> Result<AnsweredContext, PduFault>
    ensures { Gives result (answer_at content.now) }
{
    let [id, _, answer, _, ..] = content.as_slice() else {
        return Err(PduFault::BadItem);
    };
    let id = *id;
    let answer = *answer;
    let items = items_behind(alloc, content, 4)?;
    let transfer_syntax: Octets = sole_of(alloc, items.as_slice(), TRANSFER_SYNTAX)?;
    if is_odd_number(id) {
        return Ok(AnsweredContext {
            id,
            result: answer,
            transfer_syntax,
        });
    }
    Err(PduFault::BadItem)
}

impl Content for AnsweredContext {
    ghost content_at = { answer_at };

    fn read(alloc: Global, content: &Bytes) -> Result<AnsweredContext, PduFault> {
        answer_of(alloc, content)
    }
}
