//! What a server does beside its associations.

use crate::correcting::Correcting;
use crate::exchanging::Exchanging;
use crate::meeting::Peer;
use crate::paging::Paging;

/// What a server does beside its associations: the exchanges that it serves, the peers that it
/// calls, and where it answers who comes for a page, or to correct, if anywhere.
#[derive(Clone, Copy)]
pub struct Duties<'a> {
    pub exchange: Option<Exchanging<'a>>,
    pub peers: &'a [Peer<'a>],
    pub pages: Option<Paging<'a>>,
    pub desk: Option<Correcting<'a>>,
}
