//! What answers a request (PS3.7, section 9.3).

ghost use Rattle.std.specs.Prelude.{◌≡◌, IfOk, false};
ghost use Rattle.dimse.specs.Command.{IsCommand, HasRoom, announces};
ghost use Rattle.dimse.specs.CommandField.{is_response_code};
ghost use Rattle.dimse.specs.Response.{IsResponseTo, response_code, told_instance, response_of};
ghost use Rattle.dimse.specs.Status.{status_code};

use crate::command::Command;
use crate::status::Status;
use dictionary::{C_STORE_RQ, NO_DATA_SET, RESPONSE_BIT};
use octets::Octets;
use std::alloc::{AllocError, Global};

fn copied(alloc: Global, uid: &Option<Octets>) -> Result<Option<Octets>, AllocError>
    ensures { IfOk result (λ copy. copy ≡ uid.now) }
{
    match uid {
        None => Ok(None),
        Some(uid) => Ok(Some(uid.copy(alloc)?)),
    }
}

/// The instance, where the request is a C-STORE.
fn instance_told(alloc: Global, request: &Command) -> Result<Option<Octets>, AllocError>
    ensures { IfOk result (λ instance. instance ≡ told_instance request.now) }
{
    if request.field != C_STORE_RQ {
        return Ok(None);
    }
    copied(alloc, &request.affected_instance)
}

/// The field with its highest bit set.
fn response_field(field: u16) -> u16
    ensures { result ≡ response_code field }
{
    if field < RESPONSE_BIT {
        field + RESPONSE_BIT
    } else {
        field
    }
}

impl Command {
    /// The response to this request, without a data set: it has the class that the request has, and
    /// to a C-STORE the instance.
    #[tactic(auto, unfolding(crate::specs::Response::response_of))]
    pub fn response(&self, alloc: Global, status: Status) -> Result<Command, AllocError>
        ensures exact { IfOk result (λ response.
            response ≡ response_of self.now (status_code status)) }
        ensures answers { is_response_code self.now.field ≡ false →
            IfOk result (IsResponseTo self.now) }
        ensures bare { IfOk result (λ response. announces response ≡ false) }
        // Where the request can be written, it can be too.
        ensures lawful { is_response_code self.now.field ≡ false → IsCommand self.now →
            IfOk result IsCommand }
        ensures room { HasRoom self.now → IfOk result HasRoom }
    {
        Ok(Command {
            affected_class: copied(alloc, &self.affected_class)?,
            field: response_field(self.field),
            message_id: None,
            responded_to: self.message_id,
            priority: None,
            data_set_type: NO_DATA_SET,
            status: Some(status.code()),
            affected_instance: instance_told(alloc, self)?,
            remaining: None,
            completed: None,
            failed: None,
            warning: None,
        })
    }
}
