//! The sides of an exchange, and how it ends.

/// Which side of a connection takes part in an exchange.
#[derive(Clone, Copy, Debug, PartialEq, Eq)]
pub enum Role {
    /// The side that connected. It says HELLO first, and is the first to offer.
    Caller,
    /// The side that was connected to. It answers a HELLO; with a peer that begins with BUCKETS it
    /// speaks version 1.
    Callee,
    /// A caller that speaks version 1: it says no HELLO and hears none.
    OldCaller,
}

/// How an exchange ended.
#[derive(Clone, Copy, Debug, PartialEq, Eq)]
pub struct Ended {
    /// How many operations were given.
    pub given: u64,
    /// How many operations that the peer asked for are held and could not be read. They were not
    /// given.
    pub unread: u64,
    /// How many operations were taken that were new to the holder.
    pub taken: u64,
    /// Whether all the operations that this side asked for were given to it.
    pub finished: bool,
    /// Whether the lists of buckets were equal, those that this side compared and those that the
    /// peer did: each told of what its side held then, of what the version that was spoken knows.
    pub agreed: bool,
    /// Whether all that differed is seen to have fitted: the HAVE that this side said had all that
    /// it held in the places of the DIFFER, and the one that it heard was not full and had some of
    /// each place. A callee, which hears its HAVE before it has given anything, misses a place too
    /// of which it alone holds something.
    pub whole: bool,
}
