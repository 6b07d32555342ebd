//! Which message a command set is (PS3.7, section E.1).

ghost use Rattle.std.specs.Prelude.{◌≡◌};
ghost use Rattle.dimse.specs.CommandField.{Decodes, code_of, is_response_code, names_class_code};

use dictionary::{
    C_CANCEL_RQ, C_ECHO_RQ, C_ECHO_RSP, C_FIND_RQ, C_FIND_RSP, C_GET_RQ, C_GET_RSP, C_STORE_RQ,
    C_STORE_RSP,
};
use thiserror::Error;

/// The values of (0000,0100) Command Field for the services of this archive.
#[derive(Clone, Copy, Debug, PartialEq, Eq)]
pub enum CommandField {
    StoreRequest,
    StoreResponse,
    GetRequest,
    GetResponse,
    FindRequest,
    FindResponse,
    EchoRequest,
    EchoResponse,
    CancelRequest,
}

/// A value of the command field that is of no service here.
#[derive(Clone, Copy, Debug, PartialEq, Eq, Drop, Error)]
#[error("command field {0:04X}H is of no service here")]
pub struct UnknownField(pub u16);

impl CommandField {
    /// The value of the command field.
    pub fn code(self) -> u16
        ensures { result ≡ code_of self }
    {
        match self {
            CommandField::StoreRequest => C_STORE_RQ,
            CommandField::StoreResponse => C_STORE_RSP,
            CommandField::GetRequest => C_GET_RQ,
            CommandField::GetResponse => C_GET_RSP,
            CommandField::FindRequest => C_FIND_RQ,
            CommandField::FindResponse => C_FIND_RSP,
            CommandField::EchoRequest => C_ECHO_RQ,
            CommandField::EchoResponse => C_ECHO_RSP,
            CommandField::CancelRequest => C_CANCEL_RQ,
        }
    }
}

impl TryFrom<u16> for CommandField {
    type Error = UnknownField;

    ghost try_from_gives = { Decodes };

    fn try_from(code: u16) -> Result<Self, UnknownField> {
        match code {
            C_STORE_RQ => Ok(CommandField::StoreRequest),
            C_STORE_RSP => Ok(CommandField::StoreResponse),
            C_GET_RQ => Ok(CommandField::GetRequest),
            C_GET_RSP => Ok(CommandField::GetResponse),
            C_FIND_RQ => Ok(CommandField::FindRequest),
            C_FIND_RSP => Ok(CommandField::FindResponse),
            C_ECHO_RQ => Ok(CommandField::EchoRequest),
            C_ECHO_RSP => Ok(CommandField::EchoResponse),
            C_CANCEL_RQ => Ok(CommandField::CancelRequest),
            _ => Err(UnknownField(code)),
        }
    }
}
