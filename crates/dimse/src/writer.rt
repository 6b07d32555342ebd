//! Writing a command set (PS3.7, section 6.3.1).

ghost use Rattle.std.specs.Prelude.{◌≡◌, ◌+◌, ◌^◌, ◌<◌, ◌≤◌, ◌++◌, length, OnOk, IfOk, IfSome, Some};
ghost use Rattle.std.specs.Int.{w32, to_le_bytes};
ghost use Rattle.dimse.specs.Uid.{padded};
ghost use Rattle.dictionary.specs.Tags.{tag_text};
ghost use Rattle.dimse.specs.Elements.{text_of, Element};
ghost use Rattle.dimse.specs.Command.{field_elements, number_field, uid_field, fields_text, command_text};
ghost use Rattle.dimse.specs.Command.{FitsTwoBytes, IsCommand, HasRoom, Spells};

use crate::command::{Command, LONGEST_COMMAND};
use dictionary::{
    AFFECTED_SOP_CLASS_UID, AFFECTED_SOP_INSTANCE_UID, COMMAND_DATA_SET_TYPE, COMMAND_FIELD,
    COMMAND_GROUP_LENGTH, MESSAGE_ID, MESSAGE_ID_BEING_RESPONDED_TO,
    NUMBER_OF_COMPLETED_SUBOPERATIONS, NUMBER_OF_FAILED_SUBOPERATIONS,
    NUMBER_OF_REMAINING_SUBOPERATIONS, NUMBER_OF_WARNING_SUBOPERATIONS, PRIORITY, STATUS, put_tag,
};
use octets::Octets;
use std::alloc::{AllocError, Global};

/// Appends bytes.
fn put(out: &mut Vec<u8>, bytes: &[u8]) -> Result<(), AllocError>
    ensures { OnOk result (out.new.items ≡ out.old.items ++ bytes.now) }
{
    out.extend_from_slice(bytes)
}

/// Appends what stands before the value of an element.
fn put_header(out: &mut Vec<u8>, tag: u32, size: u32) -> Result<(), AllocError>
    ensures { OnOk result (out.new.items
        ≡ out.old.items ++ (tag_text tag ++ to_le_bytes w32 size)) }
{
    put_tag(out, tag)?;
    put(out, &size.to_le_bytes())
}

/// Appends an element.
fn put_element(out: &mut Vec<u8>, tag: u32, value: &[u8]) -> Result<(), AllocError>
    requires { length value.now < 2 ^ 32 }
    ensures { OnOk result (out.new.items
        ≡ out.old.items ++ text_of (field_elements tag (Some value.now))) }
{
    put_header(out, tag, value.len() as u32)?;
    put(out, value)
}

/// Appends the element of a number, where there is one.
fn put_number(out: &mut Vec<u8>, tag: u32, number: Option<u16>) -> Result<(), AllocError>
    ensures ok { OnOk result (out.new.items
        ≡ out.old.items ++ text_of (field_elements tag (number_field number))) }
    ensures fits { IfSome number (λ n. n < 2 ^ 16) }
{
    match number {
        None => Ok(()),
        Some(number) => put_element(out, tag, &number.to_le_bytes()),
    }
}

/// Appends the element of a UID, with a 00 behind it where its length is odd.
fn put_padded(out: &mut Vec<u8>, tag: u32, uid: &[u8]) -> Result<(), AllocError>
    requires { length uid.now ≤ LONGEST_COMMAND }
    ensures { OnOk result (out.new.items
        ≡ out.old.items ++ text_of (field_elements tag (Some (padded uid.now)))) }
{
    if uid.len() % 2 == 0 {
        return put_element(out, tag, uid);
    }
    put_header(out, tag, (uid.len() + 1) as u32)?;
    put(out, uid)?;
    put(out, &[0])
}

/// Appends the element of a UID, where there is one.
fn put_uid(out: &mut Vec<u8>, tag: u32, uid: &Option<Octets>) -> Result<(), AllocError>
    requires { IfSome uid.now (λ uid. length uid ≤ LONGEST_COMMAND) }
    ensures { OnOk result (out.new.items
        ≡ out.old.items ++ text_of (field_elements tag (uid_field uid.now))) }
{
    match uid {
        None => Ok(()),
        Some(uid) => put_padded(out, tag, uid.as_slice()),
    }
}

/// Appends what stands behind the group length.
fn put_fields(out: &mut Vec<u8>, command: &Command) -> Result<(), AllocError>
    requires { HasRoom command.now }
    ensures ok { OnOk result (out.new.items ≡ out.old.items ++ fields_text command.now) }
    ensures fits { OnOk result (FitsTwoBytes command.now) }
{
    put_uid(out, AFFECTED_SOP_CLASS_UID, &command.affected_class)?;
    put_number(out, COMMAND_FIELD, Some(command.field))?;
    put_number(out, MESSAGE_ID, command.message_id)?;
    put_number(out, MESSAGE_ID_BEING_RESPONDED_TO, command.responded_to)?;
    put_number(out, PRIORITY, command.priority)?;
    put_number(out, COMMAND_DATA_SET_TYPE, Some(command.data_set_type))?;
    put_number(out, STATUS, command.status)?;
    put_uid(out, AFFECTED_SOP_INSTANCE_UID, &command.affected_instance)?;
    put_number(out, NUMBER_OF_REMAINING_SUBOPERATIONS, command.remaining)?;
    put_number(out, NUMBER_OF_COMPLETED_SUBOPERATIONS, command.completed)?;
    put_number(out, NUMBER_OF_FAILED_SUBOPERATIONS, command.failed)?;
    put_number(out, NUMBER_OF_WARNING_SUBOPERATIONS, command.warning)?;
    Ok(())
}

/// The group length, and what it counts.
fn spell(alloc: Global, command: &Command) -> Result<Vec<u8>, AllocError>
    requires { HasRoom command.now }
    ensures exact { IfOk result (λ text. text.items ≡ command_text command.now) }
    ensures fits { OnOk result (FitsTwoBytes command.now) }
{
    let mut fields = Vec::new(alloc);
    put_fields(&mut fields, command)?;
    let counted = fields.as_slice();
    let mut text = Vec::new(alloc);
    let size = (counted.len() as u32).to_le_bytes();
    put_element(&mut text, COMMAND_GROUP_LENGTH, &size)?;
    put(&mut text, counted)?;
    Ok(text)
}

/// The command set with its group length, its elements by ascending tag.
///
/// UIDs are padded with 00 to even length (PS3.5, section 9.1).
pub fn write_command(alloc: Global, command: &Command) -> Result<Vec<u8>, AllocError>
    requires lawful { IsCommand command.now }
    requires room { HasRoom command.now }
    ensures exact { IfOk result (λ text. text.items ≡ command_text command.now) }
    // It is read again.
    ensures again { IfOk result (λ text. Spells text.items command.now) }
{
    spell(alloc, command)
}
