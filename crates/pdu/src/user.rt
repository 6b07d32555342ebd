//! User information (PS3.8, section 9.3.2.3 and annex D; PS3.7, section D.3.3).

ghost use Rattle.std.specs.Prelude.{◌≡◌, IfOk, IfErr};
ghost use Rattle.pdu.specs.declared.fault.PduFault.TheVariants.{Memory};
ghost use Rattle.pdu.specs.Fault.{Gives};
ghost use Rattle.pdu.specs.Grammar.{first_or, first_of};
ghost use Rattle.pdu.specs.Reading.{length_at, role_at, user_at};

use crate::fault::PduFault;
use crate::item::{
    Content, IMPLEMENTATION_CLASS, MAXIMUM_LENGTH, ROLE_SELECTION, each_of, items_behind,
};
use crate::uid::uid_of;
use bytes::Bytes;
use octets::{ListOf, Octets};
use std::alloc::Global;

/// The roles that are proposed or returned for a SOP class (PS3.7, section D.3.3.4).
#[derive(Debug, Drop)]
pub struct Role {
    /// The UID of the SOP class.
    pub class: Octets,
    /// The byte of the SCU role: 1 where the requestor may take it.
    pub scu: u8,
    /// The byte of the SCP role: 1 where the requestor may take it.
    pub scp: u8,
}

/// What one side says of itself. Sub-items of other types are passed over.
#[derive(Debug, Drop)]
pub struct UserInformation {
    /// The longest P-DATA-TF body that is wanted, in bytes; 0 is no limit, also where it was not
    /// said. Of several the first counts (PS3.8, section D.1).
    pub maximum_length: u32,
    /// Of several the first counts (PS3.7, section D.3.3.2).
    pub implementation_class: Option<Octets>,
    pub roles: ListOf<Role>,
}

impl Content for u32 {
    ghost content_at = { length_at };

    fn read(_alloc: Global, content: &Bytes) -> Result<u32, PduFault> {
        let [a, b, c, d] = content.as_slice() else {
            return Err(PduFault::BadItem);
        };
        Ok(u32::from_be_bytes([*a, *b, *c, *d]))
    }
}

/// The roles of a class, behind its length.
#[tactic(auto, unfolding(crate::specs::Reading::role_at))]
fn role_of(alloc: Global, content: &[u8]) -> Result<Role, PduFault>
    ensures { Gives result (role_at content.now) }
{
    let [high, low, rest @ ..] = content else {
        return Err(PduFault::BadItem);
    };
    let size = u16::from_be_bytes([*high, *low]) as usize;
    if rest.len() != size + 2 {
        return Err(PduFault::BadItem);
    }
    let class = uid_of(alloc, &rest[..size])?;
    Ok(Role {
        class,
        scu: rest[size],
        scp: rest[size + 1],
    })
}

impl Content for Role {
    ghost content_at = { role_at };

    fn read(alloc: Global, content: &Bytes) -> Result<Role, PduFault> {
        role_of(alloc, content.as_slice())
    }
}

fn first_length(lengths: &[u32]) -> u32
    ensures { result ≡ first_or 0 lengths.now }
{
    match lengths {
        [] => 0,
        [first, ..] => *first,
    }
}

fn first_class(alloc: Global, classes: &[Octets]) -> Result<Option<Octets>, PduFault>
    ensures copied { IfOk result (λ class. class ≡ first_of classes.now) }
    ensures memory { IfErr result (λ e. e ≡ Memory) }
{
    match classes {
        [] => Ok(None),
        [first, ..] => Ok(Some(first.copy(alloc)?)),
    }
}

/// The user information that its sub-items have.
#[tactic(auto, unfolding(crate::specs::Reading::user_at))]
fn user_of(alloc: Global, text: &Bytes) -> Result<UserInformation, PduFault>
    ensures { Gives result (user_at text.now) }
{
    let items = items_behind(alloc, text, 0)?;
    let lengths: ListOf<u32> = each_of(alloc, items.as_slice(), MAXIMUM_LENGTH)?;
    let classes: ListOf<Octets> = each_of(alloc, items.as_slice(), IMPLEMENTATION_CLASS)?;
    let roles: ListOf<Role> = each_of(alloc, items.as_slice(), ROLE_SELECTION)?;
    let implementation_class = first_class(alloc, classes.as_slice())?;
    Ok(UserInformation {
        maximum_length: first_length(lengths.as_slice()),
        implementation_class,
        roles,
    })
}

impl Content for UserInformation {
    ghost content_at = { user_at };

    fn read(alloc: Global, content: &Bytes) -> Result<UserInformation, PduFault> {
        user_of(alloc, content)
    }
}
