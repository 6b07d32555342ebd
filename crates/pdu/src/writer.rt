//! Writing PDUs (PS3.8, section 9.3). Reserved bytes are 00.

ghost use Rattle.std.specs.Prelude.{◌≡◌, ◌<◌, ◌≤◌, ◌^◌, ◌++◌, ◌∷◌, List, ℕ, length, take, map, OnOk, IfOk};
ghost use Rattle.std.specs.List.{flat_map, AllByRecursion};
ghost use Rattle.std.specs.Int.{w32, to_be_bytes};
ghost use Rattle.pdu.specs.declared.header.TheConstants.{LONGEST_BODY, P_DATA};
ghost use Rattle.pdu.specs.declared.value.Pdu.{Pdu};
ghost use Rattle.pdu.specs.Grammar.{Spells};
ghost use Rattle.pdu.specs.Spelling.{item_of, item_text, items_text, role_item, length_items, class_items};
ghost use Rattle.pdu.specs.Spelling.{user_items, syntax_item, proposal_items, answer_items, proposal_item};
ghost use Rattle.pdu.specs.Spelling.{answer_item, user_item, opening_text, request_items, accept_items, control_of};
ghost use Rattle.pdu.specs.Spelling.{pdv_head, pdv_text, data_head, text_of, HasLength, FitsProposal, FitsAnswer};
ghost use Rattle.pdu.specs.Spelling.{FitsRequest, FitsAccept, IsPdu};

use crate::accept::Accept;
use crate::context::{AnsweredContext, ProposedContext};
use crate::header::{
    ABORT, ASSOCIATE_AC, ASSOCIATE_RJ, ASSOCIATE_RQ, P_DATA, RELEASE_RP, RELEASE_RQ,
};
use crate::item::{
    ABSTRACT_SYNTAX, ANSWERED_CONTEXT, APPLICATION_CONTEXT, IMPLEMENTATION_CLASS, MAXIMUM_LENGTH,
    PROPOSED_CONTEXT, ROLE_SELECTION, TRANSFER_SYNTAX, USER_INFORMATION,
};
use crate::opening::Opening;
use crate::pdv::Pdv;
use crate::request::Request;
use crate::user::{Role, UserInformation};
use crate::value::Pdu;
use octets::Octets;
use std::alloc::{AllocError, Global};

/// Appends bytes.
fn put(out: &mut Vec<u8>, bytes: &[u8]) -> Result<(), AllocError>
    ensures { OnOk result (out.new.items ≡ out.old.items ++ bytes.now) }
{
    out.extend_from_slice(bytes)
}

/// Appends an item.
fn put_item(out: &mut Vec<u8>, kind: u8, content: &[u8]) -> Result<(), AllocError>
    requires { length content.now < 2 ^ 16 }
    ensures { OnOk result (out.new.items ≡ out.old.items ++ item_text (item_of kind content.now)) }
{
    let [high, low] = (content.len() as u16).to_be_bytes();
    put(out, &[kind, 0, high, low])?;
    put(out, content)
}

fn put_role(alloc: Global, out: &mut Vec<u8>, role: &Role) -> Result<(), AllocError>
    requires { HasLength (role_item role.now) }
    ensures { OnOk result (out.new.items ≡ out.old.items ++ item_text (role_item role.now)) }
{
    let class = role.class.as_slice();
    let mut content = Vec::new(alloc);
    put(&mut content, &(class.len() as u16).to_be_bytes())?;
    put(&mut content, class)?;
    put(&mut content, &[role.scu, role.scp])?;
    put_item(out, ROLE_SELECTION, content.as_slice())
}

fn put_length(out: &mut Vec<u8>, maximum: u32) -> Result<(), AllocError>
    ensures { OnOk result (out.new.items ≡ out.old.items ++ items_text (length_items maximum)) }
{
    if maximum == 0 {
        return Ok(());
    }
    put_item(out, MAXIMUM_LENGTH, &maximum.to_be_bytes())
}

fn put_class(out: &mut Vec<u8>, class: &Option<Octets>) -> Result<(), AllocError>
    requires { AllByRecursion HasLength (class_items class.now) }
    ensures { OnOk result (out.new.items ≡ out.old.items ++ items_text (class_items class.now)) }
{
    match class {
        None => Ok(()),
        Some(class) => put_item(out, IMPLEMENTATION_CLASS, class.as_slice()),
    }
}

fn put_roles(alloc: Global, out: &mut Vec<u8>, roles: &[Role]) -> Result<(), AllocError>
    requires { AllByRecursion HasLength (map role_item roles.now) }
    ensures { OnOk result (out.new.items ≡ out.old.items ++ items_text (map role_item roles.now)) }
{
    for role in roles {
        put_role(alloc, out, role)?;
    }
    Ok(())
}

fn put_user(alloc: Global, out: &mut Vec<u8>, user: &UserInformation) -> Result<(), AllocError>
    requires parts { AllByRecursion HasLength (user_items user.now) }
    requires whole { HasLength (user_item user.now) }
    ensures { OnOk result (out.new.items ≡ out.old.items ++ item_text (user_item user.now)) }
{
    let mut content = Vec::new(alloc);
    put_length(&mut content, user.maximum_length)?;
    put_class(&mut content, &user.implementation_class)?;
    put_roles(alloc, &mut content, user.roles.as_slice())?;
    put_item(out, USER_INFORMATION, content.as_slice())
}

fn put_syntaxes(out: &mut Vec<u8>, syntaxes: &[Octets]) -> Result<(), AllocError>
    requires { AllByRecursion HasLength (map syntax_item syntaxes.now) }
    ensures { OnOk result (out.new.items
        ≡ out.old.items ++ items_text (map syntax_item syntaxes.now)) }
{
    for syntax in syntaxes {
        put_item(out, TRANSFER_SYNTAX, syntax.as_slice())?;
    }
    Ok(())
}

fn put_proposal(
    alloc: Global,
    out: &mut Vec<u8>,
    context: &ProposedContext,
) -> Result<(), AllocError>
    requires parts { AllByRecursion HasLength (proposal_items context.now) }
    requires whole { HasLength (proposal_item context.now) }
    ensures { OnOk result (out.new.items ≡ out.old.items ++ item_text (proposal_item context.now)) }
{
    let mut content = Vec::new(alloc);
    put(&mut content, &[context.id, 0, 0, 0])?;
    put_item(
        &mut content,
        ABSTRACT_SYNTAX,
        context.abstract_syntax.as_slice(),
    )?;
    put_syntaxes(&mut content, context.transfer_syntaxes.as_slice())?;
    put_item(out, PROPOSED_CONTEXT, content.as_slice())
}

fn put_answer(alloc: Global, out: &mut Vec<u8>, context: &AnsweredContext) -> Result<(), AllocError>
    requires parts { AllByRecursion HasLength (answer_items context.now) }
    requires whole { HasLength (answer_item context.now) }
    ensures { OnOk result (out.new.items ≡ out.old.items ++ item_text (answer_item context.now)) }
{
    let mut content = Vec::new(alloc);
    put(&mut content, &[context.id, 0, context.result, 0])?;
    put_item(
        &mut content,
        TRANSFER_SYNTAX,
        context.transfer_syntax.as_slice(),
    )?;
    put_item(out, ANSWERED_CONTEXT, content.as_slice())
}

fn put_opening(out: &mut Vec<u8>, opening: &Opening) -> Result<(), AllocError>
    ensures { OnOk result (out.new.items ≡ out.old.items ++ opening_text opening.now) }
{
    let [high, low] = opening.version.to_be_bytes();
    put(out, &[high, low, 0, 0])?;
    put(out, &opening.called)?;
    put(out, &opening.calling)?;
    put(out, &opening.reserved)
}

fn put_proposals(
    alloc: Global,
    out: &mut Vec<u8>,
    contexts: &[ProposedContext],
) -> Result<(), AllocError>
    requires parts { AllByRecursion FitsProposal contexts.now }
    requires whole { AllByRecursion HasLength (map proposal_item contexts.now) }
    ensures { OnOk result (out.new.items
        ≡ out.old.items ++ items_text (map proposal_item contexts.now)) }
{
    for context in contexts {
        put_proposal(alloc, out, context)?;
    }
    Ok(())
}

fn put_answers(
    alloc: Global,
    out: &mut Vec<u8>,
    contexts: &[AnsweredContext],
) -> Result<(), AllocError>
    requires parts { AllByRecursion FitsAnswer contexts.now }
    requires whole { AllByRecursion HasLength (map answer_item contexts.now) }
    ensures { OnOk result (out.new.items
        ≡ out.old.items ++ items_text (map answer_item contexts.now)) }
{
    for context in contexts {
        put_answer(alloc, out, context)?;
    }
    Ok(())
}

fn request_body(alloc: Global, request: &Request) -> Result<Vec<u8>, AllocError>
    requires { FitsRequest request.now }
    ensures { IfOk result (λ v. v.items
        ≡ opening_text request.now.opening ++ items_text (request_items request.now)) }
{
    let mut body = Vec::new(alloc);
    put_opening(&mut body, &request.opening)?;
    put_item(
        &mut body,
        APPLICATION_CONTEXT,
        request.application_context.as_slice(),
    )?;
    put_proposals(alloc, &mut body, request.contexts.as_slice())?;
    put_user(alloc, &mut body, &request.user)?;
    Ok(body)
}

fn accept_body(alloc: Global, accept: &Accept) -> Result<Vec<u8>, AllocError>
    requires { FitsAccept accept.now }
    ensures { IfOk result (λ v. v.items
        ≡ opening_text accept.now.opening ++ items_text (accept_items accept.now)) }
{
    let mut body = Vec::new(alloc);
    put_opening(&mut body, &accept.opening)?;
    put_item(
        &mut body,
        APPLICATION_CONTEXT,
        accept.application_context.as_slice(),
    )?;
    put_answers(alloc, &mut body, accept.contexts.as_slice())?;
    put_user(alloc, &mut body, &accept.user)?;
    Ok(body)
}

fn control(command: bool, last: bool) -> u8
    ensures { result ≡ control_of command last }
{
    match (command, last) {
        (false, false) => 0,
        (true, false) => 1,
        (false, true) => 2,
        (true, true) => 3,
    }
}

/// What stands before the fragment of a value.
pub fn head_of_pdv(value: &Pdv) -> [u8; 6]
    requires { length (pdv_text value.now) ≤ LONGEST_BODY }
    ensures { result ≡ pdv_head value.now }
{
    let size = 2 + value.fragment.as_slice().len() as u32;
    let [a, b, c, d] = size.to_be_bytes();
    [
        a,
        b,
        c,
        d,
        value.context,
        control(value.command, value.last),
    ]
}

fn put_pdv(out: &mut Vec<u8>, value: &Pdv) -> Result<(), AllocError>
    requires { length (pdv_text value.now) ≤ LONGEST_BODY }
    ensures { OnOk result (out.new.items ≡ out.old.items ++ pdv_text value.now) }
{
    put(out, &head_of_pdv(value))?;
    put(out, value.fragment.as_slice())
}

fn put_pdvs(out: &mut Vec<u8>, values: &[Pdv]) -> Result<(), AllocError>
    requires { length (flat_map pdv_text values.now) ≤ LONGEST_BODY }
    ensures { OnOk result (out.new.items ≡ out.old.items ++ flat_map pdv_text values.now) }
{
    for value in values {
        put_pdv(out, value)?;
    }
    Ok(())
}

/// How many bytes the values take.
fn length_of(values: &[Pdv]) -> u32
    requires { length (flat_map pdv_text values.now) ≤ LONGEST_BODY }
    ensures { result ≡ length (flat_map pdv_text values.now) }
{
    let mut size = 0;
    for value in values {
        size += 6 + value.fragment.len() as u32;
    }
    size
}

/// The header of a P-DATA-TF with these values.
pub fn head_of_data(values: &[Pdv]) -> [u8; 6]
    requires { length (flat_map pdv_text values.now) ≤ LONGEST_BODY }
    ensures { result ≡ data_head values.now }
{
    let [a, b, c, d] = length_of(values).to_be_bytes();
    [P_DATA, 0, a, b, c, d]
}

fn header(alloc: Global, code: u8, size: u32) -> Result<Vec<u8>, AllocError>
    ensures { IfOk result (λ v. v.items ≡ code ∷ 0 ∷ to_be_bytes w32 size) }
{
    let mut out = Vec::with_capacity(alloc, size as usize + 6)?;
    let [a, b, c, d] = size.to_be_bytes();
    put(&mut out, &[code, 0, a, b, c, d])?;
    Ok(out)
}

/// A header, and the body behind it.
fn with_body(alloc: Global, code: u8, body: &[u8]) -> Result<Vec<u8>, AllocError>
    requires { length body.now < 2 ^ 32 }
    ensures { IfOk result (λ v. v.items
        ≡ code ∷ 0 ∷ (to_be_bytes w32 (length body.now) ++ body.now)) }
{
    let mut out = header(alloc, code, body.len() as u32)?;
    put(&mut out, body)?;
    Ok(out)
}

fn data(alloc: Global, values: &[Pdv]) -> Result<Vec<u8>, AllocError>
    requires { length (flat_map pdv_text values.now) ≤ LONGEST_BODY }
    ensures { IfOk result (λ v. v.items ≡ P_DATA ∷ 0
        ∷ (to_be_bytes w32 (length (flat_map pdv_text values.now))
        ++ flat_map pdv_text values.now)) }
{
    let mut out = header(alloc, P_DATA, length_of(values))?;
    put_pdvs(&mut out, values)?;
    Ok(out)
}

/// The bytes of a PDU. They are read again as the same PDU, whatever follows them.
pub fn write_pdu(alloc: Global, pdu: &Pdu) -> Result<Vec<u8>, AllocError>
    requires { IsPdu pdu.now }
    ensures written { IfOk result (λ text. text.items ≡ text_of pdu.now) }
    ensures spelled { IfOk result (λ text. Spells pdu.now text.items) }
{
    let text = text(alloc, pdu)?;
    Ok(text)
}

#[tactic(auto, unfolding(crate::specs::Spelling::text_of))]
fn text(alloc: Global, pdu: &Pdu) -> Result<Vec<u8>, AllocError>
    requires { IsPdu pdu.now }
    ensures { IfOk result (λ text. text.items ≡ text_of pdu.now) }
{
    match pdu {
        Pdu::AssociateRq(request) => {
            let body = request_body(alloc, request)?;
            with_body(alloc, ASSOCIATE_RQ, body.as_slice())
        }
        Pdu::AssociateAc(accept) => {
            let body = accept_body(alloc, accept)?;
            with_body(alloc, ASSOCIATE_AC, body.as_slice())
        }
        Pdu::AssociateRj(reject) => with_body(
            alloc,
            ASSOCIATE_RJ,
            &[0, reject.result, reject.source, reject.reason],
        ),
        Pdu::PData(values) => data(alloc, values.as_slice()),
        Pdu::ReleaseRq => with_body(alloc, RELEASE_RQ, &[0, 0, 0, 0]),
        Pdu::ReleaseRp => with_body(alloc, RELEASE_RP, &[0, 0, 0, 0]),
        Pdu::Abort { source, reason } => with_body(alloc, ABORT, &[0, 0, *source, *reason]),
    }
}

/// What is written is read again, whatever follows it.
pub fn is_read_again()
    ensures { (p : Pdu) (more : List ℕ) → IsPdu p →
        Spells p (take (length (text_of p)) (text_of p ++ more)) }
{}
