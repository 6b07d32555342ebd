//! Who serves with a pass, and what it knows of the shelf.

ghost use Rattle.std.specs.Prelude.{◌≡◌};

use hub_exchange::{Extract, LedgerName};
use site_hub::{HubName, Pass};
use std::marker::Model;

/// A pass, and a beginning of the shelf's ledger. What the pass stores from now on stands in the
/// beginning that its clerk knows then.
pub struct Clerk<H: HubName, N: LedgerName> {
    pass: Pass<H>,
    extract: Extract<N>,
}

impl<H: HubName, N: LedgerName> Model for Clerk<H, N> {
    ghost use Rattle.archive_server.specs.Done.{Standing};

    ghost Value = { Standing };

    ghost view = { λ c. record { pass = c.pass; known = c.extract } };
}

// It is written out, so that a caller does not prove again how each part is dropped.
impl<H: HubName, N: LedgerName> Drop for Clerk<H, N> {
    fn drop(self) {
        let Clerk {
            pass: _,
            extract: _,
        } = self;
    }
}

impl<H: HubName, N: LedgerName> Clerk<H, N> {
    pub fn new(pass: Pass<H>, extract: Extract<N>) -> Clerk<H, N>
        ensures pass { result.pass ≡ pass }
        ensures known { result.known ≡ extract }
    {
        Clerk { pass, extract }
    }

    /// The pass, and what is known of the ledger.
    pub fn into_parts(self) -> (Pass<H>, Extract<N>)
        ensures pass { result.0 ≡ self.pass }
        ensures known { result.1 ≡ self.known }
    {
        let Clerk { pass, extract } = self;
        (pass, extract)
    }
}
