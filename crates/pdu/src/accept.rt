//! A-ASSOCIATE-AC (PS3.8, section 9.3.3).

ghost use Rattle.std.specs.Prelude.{◌≡◌, map, IfOk, IfErr};
ghost use Rattle.pdu.specs.declared.fault.PduFault.TheVariants.{Memory};
ghost use Rattle.pdu.specs.Fault.{Gives};
ghost use Rattle.pdu.specs.Grammar.{are_distinct};
ghost use Rattle.pdu.specs.Reading.{accept_in, accept_at};

use crate::context::{AnsweredContext, have_no_double};
use crate::fault::PduFault;
use crate::header::OPENING_LENGTH;
use crate::item::{
    ANSWERED_CONTEXT, APPLICATION_CONTEXT, Item, USER_INFORMATION, each_of, items_behind, sole_of,
};
use crate::opening::{Opening, opening_of};
use crate::user::UserInformation;
use bytes::Bytes;
use octets::{ListOf, Octets};
use std::alloc::Global;

/// The acceptance of an association. Items of types that have no place in it are passed over.
#[derive(Debug, Drop)]
pub struct Accept {
    pub opening: Opening,
    pub application_context: Octets,
    /// The answered presentation contexts, in order.
    pub contexts: ListOf<AnsweredContext>,
    pub user: UserInformation,
}

/// What the items say, behind an opening.
#[tactic(auto, unfolding(crate::specs::Reading::accept_in))]
fn of_items(alloc: Global, opening: Opening, items: &[Item]) -> Result<Accept, PduFault>
    ensures { Gives result (accept_in opening items.now) }
{
    let application_context: Octets = sole_of(alloc, items, APPLICATION_CONTEXT)?;
    let contexts: ListOf<AnsweredContext> = each_of(alloc, items, ANSWERED_CONTEXT)?;
    let user: UserInformation = sole_of(alloc, items, USER_INFORMATION)?;
    if !have_distinct_ids(alloc, contexts.as_slice())? {
        return Err(PduFault::BadItem);
    }
    Ok(Accept {
        opening,
        application_context,
        contexts,
        user,
    })
}

fn have_distinct_ids(alloc: Global, contexts: &[AnsweredContext]) -> Result<bool, PduFault>
    ensures told { IfOk result (λ b. b ≡ are_distinct (map (λ c. c.id) contexts.now)) }
    ensures memory { IfErr result (λ e. e ≡ Memory) }
{
    let ids: Vec<u8> = contexts.iter().map(|c| c.id).collect(alloc)?;
    Ok(have_no_double(ids.as_slice()))
}

/// What a body says.
#[tactic(auto, unfolding(crate::specs::Reading::accept_at))]
pub(crate) fn accept_of(alloc: Global, body: &Bytes) -> Result<Accept, PduFault>
    ensures { Gives result (accept_at body.now) }
{
    let opening = opening_of(body.as_slice())?;
    let items = items_behind(alloc, body, OPENING_LENGTH)?;
    of_items(alloc, opening, items.as_slice())
}
