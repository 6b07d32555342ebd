//! Exchanges of a site with a peer, where what is taken is kept: of a site on its shelf, and of a
//! running site, with a pass of its hub as the holder.
//!
//! An operation that is taken is put on the shelf first, then its record is taken by the site, or
//! by the hub, which publishes it, then it counts as given: so what a peer need not give again is
//! kept, and is found by whoever looks from then on. What is given is loaded from the shelf, and is
//! of the record that is held. What the holder of a running site has is what its pass has seen.
//! `Put` is a way to a shelf, which may stand in another thread.
//!
//! Who has the [`Ledger`] writes down what the shelf has, and nobody else can: a list that is in
//! the proofs alone, as a history of `logbook`; at run time a line is two steps on a word that
//! nobody else has. An [`Extract`] goes to other threads, takes no bytes, and is a beginning of the
//! ledger, as [`Ledger::compare`] shows.
#![tactic(auto)]

mod asking;
mod book;
mod exchanging;
mod holder;
mod ledger;
mod putting;
mod shelf_holder;

pub use book::{Extract, LedgerName};
pub use exchanging::{Behind, exchange_on};
pub use holder::HubHolder;
pub use ledger::{Blank, Ledger};
pub use putting::{
    AtLending, Put, Shelved, put_all, put_shown, read_kept, refusal_of_shelf, shown,
};
pub use shelf_holder::{AtOpening, ShelvedHolder};
