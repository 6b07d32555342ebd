//! Why something was not served.

ghost use Rattle.std.specs.Prelude.{◌≡◌};
ghost use Rattle.archive_server.specs.Fault.{number_of};

use association_run::RunFault;
use exchange::ExchangeFault;

/// What the network refused.
#[derive(Clone, Copy, Debug, PartialEq, Eq)]
pub enum NetFault {
    /// To listen at an address.
    Listen,
    /// To accept an association, an exchange, who came for a page or who came to correct.
    Accept,
    /// To connect to a peer.
    Connect,
}

impl NetFault {
    /// The public number of the fault.
    pub fn number(self) -> u8
        ensures { result ≡ number_of self }
    {
        match self {
            NetFault::Listen => 1,
            NetFault::Accept => 2,
            NetFault::Connect => 3,
        }
    }
}

/// Why an association, an exchange or an accept ended early, or a thread was refused.
#[derive(Clone, Copy, Debug, PartialEq, Eq)]
pub enum ServeFault {
    /// An association ended with this fault, or a worker's thread was refused: then of memory.
    Run(RunFault),
    /// An exchange ended with this fault, or a thread of exchanges, for a peer, of pages or of the
    /// desk was refused: then of memory.
    Exchange(ExchangeFault),
    /// The network refused.
    Net(NetFault),
}
