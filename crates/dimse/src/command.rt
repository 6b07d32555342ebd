//! What a command set says (PS3.7, sections 9.3 and E.1).

ghost use Rattle.std.specs.Prelude.{◌≡◌};
ghost use Rattle.dimse.specs.CommandField.{is_response_code, names_class_code};
ghost use Rattle.dimse.specs.Command.{is_complete, announces};

use dictionary::{
    C_CANCEL_RQ, C_ECHO_RQ, C_FIND_RQ, C_GET_RQ, C_STORE_RQ, NO_DATA_SET, RESPONSE_BIT,
};
use octets::Octets;

/// The longest command set that is read, in bytes, a limit of this archive.
pub const LONGEST_COMMAND: usize = 16_384;

/// (0000,0800) as it is written where a data set follows.
pub const DATA_SET_FOLLOWS: u16 = 0x0000;

/// A command set: what its elements say, by their names in PS3.7, section E.1.
///
/// Each field but the first two of every message is there where its element is.
#[derive(Debug, Drop)]
pub struct Command {
    /// (0000,0002) Affected SOP Class UID, without padding
    pub affected_class: Option<Octets>,
    /// (0000,0100) Command Field, also one of no service here
    pub field: u16,
    /// (0000,0110) Message ID
    pub message_id: Option<u16>,
    /// (0000,0120) Message ID Being Responded To
    pub responded_to: Option<u16>,
    /// (0000,0700) Priority
    pub priority: Option<u16>,
    /// (0000,0800) Command Data Set Type
    pub data_set_type: u16,
    /// (0000,0900) Status
    pub status: Option<u16>,
    /// (0000,1000) Affected SOP Instance UID, without padding
    pub affected_instance: Option<Octets>,
    /// (0000,1020) Number of Remaining Sub-operations
    pub remaining: Option<u16>,
    /// (0000,1021) Number of Completed Sub-operations
    pub completed: Option<u16>,
    /// (0000,1022) Number of Failed Sub-operations
    pub failed: Option<u16>,
    /// (0000,1023) Number of Warning Sub-operations
    pub warning: Option<u16>,
}

/// Whether a command of this field answers a request: a response or a C-CANCEL.
fn is_response(field: u16) -> bool
    ensures { result ≡ is_response_code field }
{
    field >= RESPONSE_BIT || field == C_CANCEL_RQ
}

/// Whether the requests of this field name a class.
fn names_class(field: u16) -> bool
    ensures { result ≡ names_class_code field }
{
    matches!(field, C_STORE_RQ | C_GET_RQ | C_FIND_RQ | C_ECHO_RQ)
}

impl Command {
    /// Whether a data set follows the command set, on the same presentation context: where
    /// (0000,0800) is any other value than 0101H.
    pub fn announces_data_set(&self) -> bool
        ensures { result ≡ announces self.now }
    {
        self.data_set_type != NO_DATA_SET
    }

    /// Whether it answers a request. A C-CANCEL does too.
    pub fn is_response(&self) -> bool
        ensures { result ≡ is_response_code self.now.field }
    {
        is_response(self.field)
    }

    /// Whether all is there that a message of its kind needs.
    #[tactic(auto, unfolding(crate::specs::Command::is_complete))]
    pub fn has_what_it_needs(&self) -> bool
        ensures { result ≡ is_complete self.now }
    {
        let identified = if is_response(self.field) {
            self.responded_to.is_some()
        } else {
            self.message_id.is_some()
        };
        identified
            && (!names_class(self.field) || self.affected_class.is_some())
            && (self.field != C_STORE_RQ || self.affected_instance.is_some())
    }
}
