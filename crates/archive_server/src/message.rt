//! What crosses the channels between the threads of a server.

use crossbeam_channel::Sender;
use hub_exchange::{LedgerName, Shelved};
use op_shelf::ShelfFault;
use operation::{Digest, Digested, Op};
use std::alloc::AllocError;

/// Asks for a put, and says where what the shelf answers is awaited.
#[derive(Drop)]
pub(crate) struct PutRequest<N: LedgerName> {
    pub op: Digested,
    pub reply: Sender<Result<Shelved<N>, ShelfFault>>,
}

/// Asks for what is read under a digest, likewise. Who asks hashes it, so that the shelf's thread
/// is free for others meanwhile.
#[derive(Drop)]
pub(crate) struct LoadRequest {
    pub digest: Digest,
    pub reply: Sender<Result<Option<Op>, ShelfFault>>,
}

/// What the thread that keeps the shelf is asked for.
#[derive(Drop)]
pub(crate) enum Request<N: LedgerName> {
    Put(PutRequest<N>),
    Load(LoadRequest),
}

/// What a thread holds: the way to the shelf, and where it accepts, what tells by its being there
/// that somebody still does. Nothing is ever sent on that.
#[derive(Drop)]
pub(crate) struct Reach<N: LedgerName> {
    pub to: Sender<Request<N>>,
    pub still: Option<Sender<()>>,
}

impl<N: LedgerName> Reach<N> {
    /// One more of it, for one more thread, which accepts or does not.
    pub fn another(&self, accepts: bool) -> Result<Reach<N>, AllocError> {
        let to = self.to.clone()?;
        match &self.still {
            Some(still) if accepts => Ok(Reach {
                to,
                still: Some(still.clone()?),
            }),
            _ => Ok(Reach { to, still: None }),
        }
    }
}
