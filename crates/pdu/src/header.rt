//! The header before each PDU's body (PS3.8, section 9.3.1).

ghost use Rattle.std.specs.Prelude.{◌≡◌, ◌≤◌, ◌↔◌, None, IsOk, IsErrOf, IfOk, IfErr};
ghost use Rattle.std.specs.Int.{w32, from_be_bytes};
ghost use Rattle.pdu.specs.declared.fault.PduFault.TheVariants.{UnknownType, BadLength, TooLong};
ghost use Rattle.pdu.specs.Header.{range_fault, header_fault, header_at};
ghost use Rattle.pdu.specs.Grammar.{HasHeaderFault, HasLawfulHeader, IsHeader};

use crate::fault::PduFault;
use std::marker::Model;

/// How many bytes stand before a body: the type, a reserved byte and the length.
pub const HEADER_LENGTH: usize = 6;

/// The longest body of a P-DATA-TF or A-ASSOCIATE-RQ PDU that is read, a limit of this archive.
pub const LONGEST_BODY: usize = 65_536;

/// The longest body of an A-ASSOCIATE-AC PDU that is read, a limit of this archive.
pub const LONGEST_ACCEPT: usize = 70_000;

/// How many bytes stand before the items of an A-ASSOCIATE-RQ or -AC PDU.
pub const OPENING_LENGTH: usize = 68;

/// How long the body of the other PDUs is.
pub const FIXED_LENGTH: usize = 4;

pub(crate) const ASSOCIATE_RQ: u8 = 0x01;

pub(crate) const ASSOCIATE_AC: u8 = 0x02;

pub(crate) const ASSOCIATE_RJ: u8 = 0x03;

pub(crate) const P_DATA: u8 = 0x04;

pub(crate) const RELEASE_RQ: u8 = 0x05;

pub(crate) const RELEASE_RP: u8 = 0x06;

pub(crate) const ABORT: u8 = 0x07;

/// The type of a PDU and the length of its body, which is one of that type.
#[derive(Debug, Drop)]
pub struct Header {
    code: u8,
    length: usize,
}

impl Model for Header {
    ghost use Rattle.std.specs.Prelude.{◌≡◌, None};
    ghost use Rattle.pdu.specs.Header.{HeaderParts, header_fault};

    ghost Value = { HeaderParts };

    ghost view = { λ h. record { code = h.code; length = h.length } };

    ghost invariant = { λ h. header_fault h.code h.length ≡ None };
}

impl Header {
    /// The type of the PDU, by the standard's number.
    pub fn code(&self) -> u8
        ensures value { result ≡ self.now.code }
        ensures lawful { header_fault self.now.code self.now.length ≡ None }
    {
        self.code
    }

    /// How many bytes stand behind the header.
    pub fn body_length(&self) -> usize
        ensures value { result ≡ self.now.length }
        ensures short { result ≤ LONGEST_ACCEPT }
    {
        self.length
    }
}

/// What a type and the four bytes of a length say.
pub(crate) fn header_of(code: u8, length: [u8; 4]) -> Result<Header, PduFault>
    ensures { result ≡ header_at code (from_be_bytes w32 length) }
{
    let length = u32::from_be_bytes(length) as usize;
    match fault_of(code, length) {
        None => Ok(Header { code, length }),
        Some(fault) => Err(fault),
    }
}

/// Reads a header, before any byte of its body.
pub fn read_header(bytes: &[u8; 6]) -> Result<Header, PduFault>
    ensures found { IfOk result (λ header. IsHeader header bytes.now) }
    ensures lawful { IsOk result ↔ HasLawfulHeader bytes.now }

    // Each fault, exactly where it is, and no other.
    ensures unknown_type { IsErrOf result UnknownType ↔ HasHeaderFault UnknownType bytes.now }
    ensures bad_length { IsErrOf result BadLength ↔ HasHeaderFault BadLength bytes.now }
    ensures too_long { IsErrOf result TooLong ↔ HasHeaderFault TooLong bytes.now }
    ensures fault { IfErr result (λ fault. HasHeaderFault fault bytes.now) }
{
    header_of(bytes[0], [bytes[2], bytes[3], bytes[4], bytes[5]])
}

/// The fault of a type and a body's length, before any byte of the body.
pub(crate) fn fault_of(code: u8, size: usize) -> Option<PduFault>
    ensures { result ≡ header_fault code size }
{
    match code {
        ASSOCIATE_RQ => outside(size, OPENING_LENGTH, LONGEST_BODY),
        ASSOCIATE_AC => outside(size, OPENING_LENGTH, LONGEST_ACCEPT),
        ASSOCIATE_RJ | RELEASE_RQ | RELEASE_RP | ABORT => {
            if size == FIXED_LENGTH {
                None
            } else {
                Some(PduFault::BadLength)
            }
        }
        P_DATA => outside(size, 0, LONGEST_BODY),
        _ => Some(PduFault::UnknownType),
    }
}

fn outside(size: usize, least: usize, greatest: usize) -> Option<PduFault>
    ensures { result ≡ range_fault size least greatest }
{
    if size < least {
        return Some(PduFault::BadLength);
    }
    if size > greatest {
        return Some(PduFault::TooLong);
    }
    None
}
