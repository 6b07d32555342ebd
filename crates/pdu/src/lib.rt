//! The PDUs of the DICOM upper layer (PS3.8, section 9.3).
#![tactic(auto)]

mod accept;
mod context;
mod fault;
mod header;
mod item;
mod numbers;
mod opening;
mod pdv;
mod reader;
mod reject;
mod request;
mod uid;
mod user;
mod value;
mod writer;

pub use accept::Accept;
pub use context::{AnsweredContext, Context, Contexts, ProposedContext};
pub use fault::PduFault;
pub use header::{HEADER_LENGTH, Header, read_header};
pub use numbers::{items_have_these_types, limits_are_these, pdus_have_these_types};
pub use opening::Opening;
pub use pdv::Pdv;
pub use reader::{read_body, read_pdu, read_shared, spells_one_pdu, what_is_spelled_is_writable};
pub use reject::Reject;
pub use request::Request;
pub use user::{Role, UserInformation};
pub use value::{Pdu, Step};
pub use writer::{head_of_data, head_of_pdv, is_read_again, write_pdu};
