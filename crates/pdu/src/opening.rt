//! What stands before the items of an A-ASSOCIATE-RQ or -AC (PS3.8, sections 9.3.2 and 9.3.3).

ghost use Rattle.std.specs.Prelude.{◌≡◌, ◌≤◌, length, OnOk};
ghost use Rattle.pdu.specs.Fault.{Gives};
ghost use Rattle.pdu.specs.Reading.{opening_at};

use crate::fault::PduFault;
use crate::header::OPENING_LENGTH;

/// The protocol's version, both titles with their spaces, and the 32 bytes after them.
#[derive(Clone, Copy, Debug, PartialEq, Eq)]
pub struct Opening {
    /// Bit 0 is version 1.
    pub version: u16,
    pub called: [u8; 16],
    pub calling: [u8; 16],
    pub reserved: [u8; 32],
}

fn sixteen(text: &[u8]) -> [u8; 16]
    requires { length text.now ≡ 16 }
    ensures { result ≡ text.now }
{
    let mut bytes = [0; 16];
    bytes.copy_from_slice(text);
    bytes
}

fn thirty_two(text: &[u8]) -> [u8; 32]
    requires { length text.now ≡ 32 }
    ensures { result ≡ text.now }
{
    let mut bytes = [0; 32];
    bytes.copy_from_slice(text);
    bytes
}

#[tactic(auto, unfolding(crate::specs::Reading::opening_at))]
pub(crate) fn opening_of(body: &[u8]) -> Result<Opening, PduFault>
    ensures read { Gives result (opening_at body.now) }
    ensures long { OnOk result (OPENING_LENGTH ≤ length body.now) }
{
    let [high, low, _, _, rest @ ..] = body else {
        return Err(PduFault::BadItem);
    };
    if rest.len() < 64 {
        return Err(PduFault::BadItem);
    }
    Ok(Opening {
        version: u16::from_be_bytes([*high, *low]),
        called: sixteen(&rest[..16]),
        calling: sixteen(&rest[16..32]),
        reserved: thirty_two(&rest[32..64]),
    })
}
