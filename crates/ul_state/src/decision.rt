//! Whether an association is accepted (PS3.8, sections 9.3.3 and 9.3.4).

ghost use Rattle.std.specs.Prelude.{◌≡◌, IfOk};
ghost use Rattle.pdu.specs.declared.value.Pdu.TheVariants.{AssociateRq};
ghost use Rattle.pdu.specs.Spelling.{IsPdu};
ghost use Rattle.ul_state.specs.Decision.{value_for, decision_of, pdu_of};

use crate::admission::admit;
use crate::answer::{accept_of, contexts_of};
use crate::titles::Titles;
use pdu::{Accept, Contexts, Reject, Request};
use std::alloc::{AllocError, Global};

/// What a request is answered.
#[derive(Debug, Drop)]
pub enum Decision<V> {
    /// The PDU that is sent, the accepted contexts, and what the called title stands for.
    Accepted(Accept, Contexts, V),
    Rejected(Reject),
}

/// What the called title of a request stands for, or why the request is refused.
#[tactic(auto, unfolding(crate::specs::Decision::value_for))]
pub(crate) fn admission<V: Copy>(request: &Request, titles: &Titles<V>) -> Result<V, Reject>
    ensures { result ≡ value_for titles.now.list request.now }
{
    admit(request, titles)
}

/// Decides on a request.
pub fn negotiate<V: Copy>(
    alloc: Global,
    request: &Request,
    titles: &Titles<V>,
) -> Result<Decision<V>, AllocError>
    ensures decided { IfOk result (λ decision.
        decision ≡ decision_of titles.now.list request.now) }
    // What is sent can be written, where the request can.
    ensures lawful { IsPdu (AssociateRq request.now) →
        IfOk result (λ decision. IsPdu (pdu_of decision)) }
{
    match admission(request, titles) {
        Err(reject) => Ok(Decision::Rejected(reject)),
        Ok(value) => {
            let accept = accept_of(alloc, request)?;
            let contexts = contexts_of(alloc, request)?;
            Ok(Decision::Accepted(accept, contexts, value))
        }
    }
}
