//! What a port replies.

ghost use Rattle.std.specs.Prelude.{◌≡◌};
ghost use Rattle.association_services.specs.Reply.{number_of};

use archive_model::{Answers, Listed};
use octets::ListOf;
use operation::{Content, Taken};
use thiserror::Error;

/// Why a port took or brought no content, or found no rows or instances.
#[derive(Clone, Copy, Debug, PartialEq, Eq, Error)]
pub enum PortFault {
    /// Memory was refused: a content may have been taken or not.
    #[error("memory was refused")]
    Memory,
    /// Another caller has the site.
    #[error("the site is busy")]
    Busy,
    /// The site holds another operation under the content's digest.
    #[error("another operation has the same digest")]
    Collision,
    /// The content could not be kept on disk, or could not be brought from there.
    #[error("the shelf refused the content, or could not bring it")]
    Shelf,
}

impl PortFault {
    /// The public number of the fault, from 1 to 4.
    pub fn number(self) -> u8
        ensures { result ≡ number_of self }
    {
        match self {
            PortFault::Memory => 1,
            PortFault::Busy => 2,
            PortFault::Collision => 3,
            PortFault::Shelf => 4,
        }
    }
}

/// What a port replies, by the kind of the call.
#[derive(Drop)]
pub enum Reply {
    /// To a store.
    Stored(Result<Taken, PortFault>),
    /// To a find: the rows.
    Found(Result<Answers, PortFault>),
    /// To a get: what is to be sent, by ascending SOP Instance UID.
    Gotten(Result<ListOf<Listed>, PortFault>),
    /// To a load: the content of which that is the record.
    Loaded(Result<Content, PortFault>),
}
