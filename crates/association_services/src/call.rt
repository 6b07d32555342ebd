//! What a port is asked.

use archive_model::{Query, Selection, View};
use octets::Octets;
use operation::{Content, ContentRecord};

/// What a C-FIND asks.
#[derive(Debug, Drop)]
pub struct Finding {
    /// The title that was called, without outer spaces.
    pub called: Octets,
    /// What that title stands for.
    pub view: View,
    pub query: Query,
}

/// What a C-GET asks.
#[derive(Debug, Drop)]
pub struct Getting {
    /// What the title stands for that was called.
    pub view: View,
    pub selection: Selection,
}

/// What is asked of the port. Each call has its kind of reply, a variant of `Reply`.
#[derive(Debug, Drop)]
pub enum Call {
    Store(Content),
    Find(Finding),
    Get(Getting),
    /// The content of a record.
    Load(ContentRecord),
}
