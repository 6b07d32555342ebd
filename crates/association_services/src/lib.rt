//! What each message of an association is answered, a table a service (PS3.7, section 9.1).
//!
//! `serve` takes one message and answers what is done for it: nothing, an abort, a response, or a
//! call of the port, which holds the images. The tables are `specs/Echo.antt`, `specs/Store.antt`,
//! `specs/Find.antt` and `specs/Get.antt`, and `specs/Service.antt` above them. What the port
//! replied is told by `status_for`, `found` and `few`. A C-GET goes on from there as a `Retrieval`,
//! as a `Loading` while the content of its next sub-operation is awaited of the port, and as a
//! `SubOperation` while the response to one of its C-STOREs is awaited. The state of the
//! association, and the order of its messages, have no part in any of it.
#![tactic(auto)]

mod awaited;
mod call;
mod context;
mod counts;
mod echo;
mod find;
mod get;
mod laws;
mod loading;
mod reply;
mod retrieval;
mod service;
mod store;
mod way;

pub use awaited::Awaited;
pub use call::{Call, Finding, Getting};
pub use counts::Outcome;
pub use find::{found, row_text};
pub use laws::a_content_goes_out_as_its_contexts_accept;
pub use loading::{Brought, Loading};
pub use reply::{PortFault, Reply};
pub use retrieval::{Begun, MOST_SUB_OPERATIONS, Meaning, Progress, Retrieval, SubOperation, few};
pub use service::{RowKind, Service, serve};
pub use store::status_for;
pub use way::Way;
