//! Reading a command set (PS3.7, section 6.3.1).

ghost use Rattle.std.specs.Prelude.{◌≡◌, ◌≤◌, length, List, ℕ, Ok, Err, IfOk, IfErr};
ghost use Rattle.dimse.specs.Command.{is_lawful, is_number_tag, is_uid_tag, number_from, number_of, uid_of, Says};
ghost use Rattle.dimse.specs.Command.{Spells, IsCommand, HasRoom};
ghost use Rattle.dimse.specs.declared.command.Command.{Command};
ghost use Rattle.dimse.specs.Fault.{Gives};
ghost use Rattle.dimse.specs.Refusal.{IsRefusal, RefusesCommand};
ghost use Rattle.dimse.specs.Elements.{value_of};
ghost use Rattle.std.specs.List.{list_all};
ghost use Rattle.std.specs.Option.{option_map};

use crate::command::{Command, LONGEST_COMMAND};
use crate::element::{Element, elements_of};
use crate::fault::DimseFault;
use dictionary::{
    AFFECTED_SOP_CLASS_UID, AFFECTED_SOP_INSTANCE_UID, COMMAND_DATA_SET_TYPE, COMMAND_FIELD,
    MESSAGE_ID, MESSAGE_ID_BEING_RESPONDED_TO, NUMBER_OF_COMPLETED_SUBOPERATIONS,
    NUMBER_OF_FAILED_SUBOPERATIONS, NUMBER_OF_REMAINING_SUBOPERATIONS,
    NUMBER_OF_WARNING_SUBOPERATIONS, PRIORITY, STATUS,
};
use octets::{Octets, are_graphic, without_padding};
use std::alloc::{AllocError, Global};

fn holds_number(tag: u32) -> bool
    ensures { result ≡ is_number_tag tag }
{
    matches!(
        tag,
        COMMAND_FIELD
            | MESSAGE_ID
            | MESSAGE_ID_BEING_RESPONDED_TO
            | PRIORITY
            | COMMAND_DATA_SET_TYPE
            | STATUS
            | NUMBER_OF_REMAINING_SUBOPERATIONS
            | NUMBER_OF_COMPLETED_SUBOPERATIONS
            | NUMBER_OF_FAILED_SUBOPERATIONS
            | NUMBER_OF_WARNING_SUBOPERATIONS
    )
}

fn holds_uid(tag: u32) -> bool
    ensures { result ≡ is_uid_tag tag }
{
    matches!(tag, AFFECTED_SOP_CLASS_UID | AFFECTED_SOP_INSTANCE_UID)
}

#[tactic(auto, unfolding(crate::specs::Command::is_lawful))]
fn is_lawful_element(element: &Element<'_>) -> bool
    ensures { result ≡ is_lawful element.now }
{
    if holds_number(element.tag()) {
        return element.value().len() == 2;
    }
    if holds_uid(element.tag()) {
        return are_graphic(without_padding(element.value()));
    }
    true
}

fn are_lawful(elements: &[Element<'_>]) -> bool
    ensures { result ≡ list_all is_lawful elements.now }
{
    elements.iter().all(is_lawful_element)
}

fn value_with<'a>(elements: &[Element<'a>], tag: u32) -> Option<&'a [u8]>
    ensures { option_map (λ value. value.now) result ≡ value_of elements.now tag }
{
    let element = elements.iter().find(|element| element.tag() == tag)?;
    Some(element.value())
}

fn number_in(value: &[u8]) -> Option<u16>
    ensures { result ≡ number_from value.now }
{
    match value {
        [low, high] => Some(u16::from_le_bytes([*low, *high])),
        _ => None,
    }
}

fn number_with(elements: &[Element<'_>], tag: u32) -> Option<u16>
    ensures { result ≡ number_of elements.now tag }
{
    number_in(value_with(elements, tag)?)
}

fn uid_with(alloc: Global, elements: &[Element<'_>], tag: u32) -> Result<Option<Octets>, AllocError>
    ensures { IfOk result (λ uid. uid ≡ uid_of elements.now tag) }
{
    match value_with(elements, tag) {
        Some(value) => Ok(Some(Octets::from_slice(alloc, without_padding(value))?)),
        None => Ok(None),
    }
}

/// The command that elements say.
fn command_of(alloc: Global, elements: &[Element<'_>]) -> Result<Command, DimseFault>
    ensures found { IfOk result (Says elements.now) }
    ensures refused { IfErr result (RefusesCommand elements.now) }
{
    if !are_lawful(elements) {
        return Err(DimseFault::BadCommand);
    }
    let Some(field) = number_with(elements, COMMAND_FIELD) else {
        return Err(DimseFault::BadCommand);
    };
    let Some(data_set_type) = number_with(elements, COMMAND_DATA_SET_TYPE) else {
        return Err(DimseFault::BadCommand);
    };
    let command = Command {
        affected_class: uid_with(alloc, elements, AFFECTED_SOP_CLASS_UID)?,
        field,
        message_id: number_with(elements, MESSAGE_ID),
        responded_to: number_with(elements, MESSAGE_ID_BEING_RESPONDED_TO),
        priority: number_with(elements, PRIORITY),
        data_set_type,
        status: number_with(elements, STATUS),
        affected_instance: uid_with(alloc, elements, AFFECTED_SOP_INSTANCE_UID)?,
        remaining: number_with(elements, NUMBER_OF_REMAINING_SUBOPERATIONS),
        completed: number_with(elements, NUMBER_OF_COMPLETED_SUBOPERATIONS),
        failed: number_with(elements, NUMBER_OF_FAILED_SUBOPERATIONS),
        warning: number_with(elements, NUMBER_OF_WARNING_SUBOPERATIONS),
    };
    if !command.has_what_it_needs() {
        return Err(DimseFault::BadCommand);
    }
    Ok(command)
}

/// Reads a command set, the whole of a text.
///
/// Elements of no service here are passed over; a group length may be missing and is not compared
/// (docs/DECISIONS.md, "Command sets"). UIDs are answered without their padding.
pub fn read_command(alloc: Global, text: &[u8]) -> Result<Command, DimseFault>
    // What is read is spelled.
    ensures found { IfOk result (Spells text.now) }
    // What is spelled is read.
    ensures only { (c : Command) → Spells text.now c → Gives (λ d. d) result (Ok c) }
    // It can be written.
    ensures lawful { IfOk result IsCommand }
    ensures room { length text.now ≤ LONGEST_COMMAND → IfOk result HasRoom }

    // A text that spells no command is a bad one, and no other is.
    ensures bad_command { IfErr result (IsRefusal text.now) }
    ensures refused { ((c : Command) → Spells text.now c → ⊥)
        → Gives (λ d. d) result (Err DimseFault.BadCommand) }
{
    let elements = elements_of(alloc, text)?;
    command_of(alloc, elements.as_slice())
}
