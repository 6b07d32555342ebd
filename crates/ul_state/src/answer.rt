//! What an acceptance answers (PS3.8, section 9.3.3; PS3.7, section D.3.3.4).

ghost use Rattle.std.specs.Prelude.{◌≡◌, map, filter, IfOk, OnOk};
ghost use Rattle.std.specs.List.{AllByRecursion};
ghost use Rattle.pdu.specs.Spelling.{FitsRequest, FitsAccept};
ghost use Rattle.ul_state.specs.Answer.{is_verification_or_query, is_storage, has_scp, has_scp_role, proposes};
ghost use Rattle.ul_state.specs.Answer.{chosen, taken_syntax, answer_number, answer_syntax, answered, accepted};
ghost use Rattle.ul_state.specs.Answer.{opening_back, accept_for, contexts_for, HasByteId};

use dictionary::{
    EXPLICIT_VR_LITTLE_ENDIAN, IMPLICIT_VR_LITTLE_ENDIAN, STORAGE_ROOT, STUDY_ROOT_FIND,
    STUDY_ROOT_GET, VERIFICATION,
};
use octets::{ListOf, Octets};
use pdu::{
    Accept, AnsweredContext, Context, Contexts, Opening, ProposedContext, Request, Role,
    UserInformation,
};
use std::alloc::{AllocError, Global};

/// The implementation class UID of this archive.
pub(crate) const IMPLEMENTATION_CLASS: [u8; 11] = *b"2.25.113001";

/// The longest P-DATA-TF body that this archive takes, in bytes.
pub(crate) const MAXIMUM_LENGTH: u32 = 65_536;

/// The context is accepted.
pub(crate) const ACCEPTANCE: u8 = 0;

/// The abstract syntax is not supported.
pub(crate) const NO_ABSTRACT_SYNTAX: u8 = 3;

/// None of the transfer syntaxes is supported.
pub(crate) const NO_TRANSFER_SYNTAX: u8 = 4;

/// Whether a class is Verification (PS3.4, annex A), or Study Root FIND or GET (PS3.4,
/// section C.6).
#[tactic(auto, unfolding(crate::specs::Answer::is_verification_or_query))]
fn is_of_verification_or_query(class: &[u8]) -> bool
    ensures { result ≡ is_verification_or_query class.now }
{
    class == VERIFICATION.as_slice()
        || class == STUDY_ROOT_FIND.as_slice()
        || class == STUDY_ROOT_GET.as_slice()
}

/// Whether a class counts as one of Storage: each below the root does (docs/DECISIONS.md, "Storage
/// classes").
#[tactic(auto, unfolding(crate::specs::Answer::is_storage))]
pub fn is_storage_class(class: &[u8]) -> bool
    ensures { result ≡ is_storage class.now }
{
    class.starts_with(STORAGE_ROOT.as_slice())
}

/// Whether the requestor asks for the SCP role of a storage class.
#[tactic(auto, unfolding(crate::specs::Answer::has_scp_role))]
fn takes_scp_role(roles: &[Role], class: &[u8]) -> bool
    ensures { result ≡ has_scp_role roles.now class.now }
{
    is_storage_class(class) && asks_for_scp(roles, class)
}

fn asks_for_scp(roles: &[Role], class: &[u8]) -> bool
    ensures { result ≡ has_scp roles.now class.now }
{
    roles
        .iter()
        .any(|role| role.scp == 1 && role.class.as_slice() == class)
}

fn is_proposed(syntaxes: &[Octets], syntax: &[u8]) -> bool
    ensures { result ≡ proposes syntaxes.now syntax.now }
{
    syntaxes
        .iter()
        .any(|proposed| proposed.as_slice() == syntax)
}

/// Whether the explicit syntax is taken, where one of both is.
fn choose(implicit_first: bool, implicit: bool, explicit: bool) -> Option<bool>
    ensures { result ≡ chosen implicit_first implicit explicit }
{
    match (implicit_first, implicit, explicit) {
        (true, true, _) => Some(false),
        (true, false, true) => Some(true),
        (false, _, true) => Some(true),
        (false, true, false) => Some(false),
        (_, false, false) => None,
    }
}

/// Whether the explicit syntax is taken for a context, where it is accepted.
#[tactic(auto, unfolding(crate::specs::Answer::taken_syntax))]
fn take_syntax(roles: &[Role], context: &ProposedContext) -> Result<bool, u8>
    ensures { result ≡ taken_syntax roles.now context.now }
{
    let class = context.abstract_syntax.as_slice();
    if !is_of_verification_or_query(class) && !is_storage_class(class) {
        return Err(NO_ABSTRACT_SYNTAX);
    }
    let implicit_first = takes_scp_role(roles, class);
    let implicit = is_proposed(
        context.transfer_syntaxes.as_slice(),
        IMPLICIT_VR_LITTLE_ENDIAN.as_slice(),
    );
    let explicit = is_proposed(
        context.transfer_syntaxes.as_slice(),
        EXPLICIT_VR_LITTLE_ENDIAN.as_slice(),
    );
    match choose(implicit_first, implicit, explicit) {
        Some(explicit) => Ok(explicit),
        None => Err(NO_TRANSFER_SYNTAX),
    }
}

/// The number of an answer (PS3.8, section 9.3.3.2).
fn number_of(taken: Result<bool, u8>) -> u8
    ensures { result ≡ answer_number taken }
{
    match taken {
        Ok(_) => ACCEPTANCE,
        Err(number) => number,
    }
}

/// The syntax that an answer names. Where the context is refused, it has no meaning and is the
/// implicit one.
fn syntax_of(alloc: Global, taken: Result<bool, u8>) -> Result<Octets, AllocError>
    ensures { IfOk result (λ syntax. syntax ≡ answer_syntax taken) }
{
    match taken {
        Ok(true) => Octets::from_slice(alloc, EXPLICIT_VR_LITTLE_ENDIAN.as_slice()),
        _ => Octets::from_slice(alloc, IMPLICIT_VR_LITTLE_ENDIAN.as_slice()),
    }
}

/// The ID of a context, one byte as its type is.
fn id_of(context: &ProposedContext) -> u8
    ensures { result ≡ context.now.id }
{
    context.id
}

/// The answer to a context.
#[tactic(auto, unfolding(crate::specs::Answer::answered))]
fn answer(
    alloc: Global,
    roles: &[Role],
    context: &ProposedContext,
) -> Result<AnsweredContext, AllocError>
    ensures exact { IfOk result (λ a. a ≡ answered roles.now context.now) }
    ensures octet { OnOk result (HasByteId context.now) }
{
    let id = id_of(context);
    let taken = take_syntax(roles, context);
    let transfer_syntax = syntax_of(alloc, taken)?;
    Ok(AnsweredContext {
        id,
        result: number_of(taken),
        transfer_syntax,
    })
}

fn answers(
    alloc: Global,
    roles: &[Role],
    contexts: &[ProposedContext],
) -> Result<ListOf<AnsweredContext>, AllocError>
    ensures exact { IfOk result (λ list. list ≡ map (answered roles.now) contexts.now) }
    ensures octets { OnOk result (AllByRecursion HasByteId contexts.now) }
{
    let mut list = ListOf::new(alloc);
    for context in contexts {
        list.push(answer(alloc, roles, context)?)?;
    }
    Ok(list)
}

/// The context as both sides use it, where it is accepted.
#[tactic(auto, unfolding(crate::specs::Answer::accepted))]
fn accept(
    alloc: Global,
    roles: &[Role],
    context: &ProposedContext,
) -> Result<Option<Context>, AllocError>
    ensures { IfOk result (λ c. c ≡ accepted roles.now context.now) }
{
    let Ok(explicit) = take_syntax(roles, context) else {
        return Ok(None);
    };
    let class = context.abstract_syntax.as_slice();
    Ok(Some(Context {
        id: context.id,
        abstract_syntax: Octets::from_slice(alloc, class)?,
        explicit,
        scp: takes_scp_role(roles, class),
    }))
}

/// The accepted contexts of a request, in order.
#[tactic(auto, unfolding(crate::specs::Answer::contexts_for))]
pub(crate) fn contexts_of(alloc: Global, request: &Request) -> Result<Contexts, AllocError>
    ensures { IfOk result (λ list. list ≡ contexts_for request.now) }
{
    let roles = request.user.roles.as_slice();
    let contexts = request.contexts.as_slice();
    let mut list = ListOf::new(alloc);
    for context in contexts {
        if let Some(context) = accept(alloc, roles, context)? {
            list.push(context)?;
        }
    }
    Ok(list)
}

/// The roles that are returned: those of storage classes, as they were proposed.
fn returned_roles(alloc: Global, roles: &[Role]) -> Result<ListOf<Role>, AllocError>
    ensures { IfOk result (λ list. list ≡ filter (λ r. is_storage r.class) roles.now) }
{
    let mut list = ListOf::new(alloc);
    for role in roles {
        if is_storage_class(role.class.as_slice()) {
            let class = role.class.copy(alloc)?;
            list.push(Role {
                class,
                scu: role.scu,
                scp: role.scp,
            })?;
        }
    }
    Ok(list)
}

/// The titles and the bytes behind them as received, the version that is spoken.
fn open_back(opening: &Opening) -> Opening
    ensures { result ≡ opening_back opening.now }
{
    Opening {
        version: 1,
        called: opening.called,
        calling: opening.calling,
        reserved: opening.reserved,
    }
}

/// The acceptance that answers a request.
#[tactic(auto, unfolding(crate::specs::Answer::accept_for))]
pub(crate) fn accept_of(alloc: Global, request: &Request) -> Result<Accept, AllocError>
    ensures exact { IfOk result (λ a. a ≡ accept_for request.now) }
    ensures lawful { FitsRequest request.now → IfOk result FitsAccept }
{
    let roles = request.user.roles.as_slice();
    let application_context = request.application_context.copy(alloc)?;
    let contexts = answers(alloc, roles, request.contexts.as_slice())?;
    let class = Octets::from_slice(alloc, IMPLEMENTATION_CLASS.as_slice())?;
    let roles = returned_roles(alloc, roles)?;
    Ok(Accept {
        opening: open_back(&request.opening),
        application_context,
        contexts,
        user: UserInformation {
            maximum_length: MAXIMUM_LENGTH,
            implementation_class: Some(class),
            roles,
        },
    })
}
