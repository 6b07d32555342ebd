//! What is sent of a content (PS3.4, section C.4.3.2.2).

use bytes::Bytes;
use data_set::Syntax;
use octets::Octets;

/// An instance that is to be sent.
#[derive(Debug, Drop)]
pub struct Sending {
    pub class: Octets,
    pub instance: Octets,
    /// The data set and its transfer syntax, or `None` where no accepted one serves.
    pub body: Option<(Syntax, Bytes)>,
}
