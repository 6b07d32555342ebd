//! Drafts of contents.

use bytes::Bytes;
use data_set::Syntax;
use octets::Octets;

/// What a content is to be made of: class and instance without padding, and the data set.
#[derive(Debug, Drop)]
pub struct Draft {
    pub class: Octets,
    pub instance: Octets,
    pub syntax: Syntax,
    pub body: Bytes,
}
