//! Whether the shelf takes what it is given, as the last put told.

ghost use Rattle.std.specs.Prelude.{◌≡◌, Option};
ghost use Rattle.op_shelf.specs.declared.fault.ShelfFault.{ShelfFault as AFault};
ghost use Rattle.archive_server.specs.Health.{number_of_last, last_of};

use crate::cause::words_of_shelf;
use op_shelf::{ShelfFault, StoreCause};
use std::sync::atomic::{AtomicU64, Ordering};

/// The number of what the last put came to: 0 where it was taken.
fn number_of(last: Option<ShelfFault>) -> u64
    ensures { result ≡ number_of_last last }
{
    match last {
        None => 0,
        Some(ShelfFault::Store(StoreCause::Full)) => 1,
        Some(ShelfFault::Store(StoreCause::Failed)) => 2,
        Some(ShelfFault::Store(StoreCause::Closed)) => 3,
        Some(ShelfFault::Store(StoreCause::Damaged)) => 4,
        Some(ShelfFault::Store(StoreCause::Other)) => 5,
        Some(ShelfFault::BadRow) => 6,
        Some(ShelfFault::Memory) => 7,
    }
}

/// What the last put came to, by its number.
fn last_of(number: u64) -> Option<ShelfFault>
    ensures { result ≡ last_of number }
{
    match number {
        1 => Some(ShelfFault::Store(StoreCause::Full)),
        2 => Some(ShelfFault::Store(StoreCause::Failed)),
        3 => Some(ShelfFault::Store(StoreCause::Closed)),
        4 => Some(ShelfFault::Store(StoreCause::Damaged)),
        5 => Some(ShelfFault::Store(StoreCause::Other)),
        6 => Some(ShelfFault::BadRow),
        7 => Some(ShelfFault::Memory),
        _ => None,
    }
}

/// What the last put of any thread came to.
#[derive(Drop)]
pub(crate) struct Health {
    last: AtomicU64,
}

impl Health {
    /// No put came yet.
    pub fn new() -> Health {
        Health {
            last: AtomicU64::new(0),
        }
    }

    /// Notes what a put came to.
    pub fn note<T>(&self, kept: &Result<T, ShelfFault>) {
        let last = match kept {
            Ok(_kept) => None,
            Err(fault) => Some(*fault),
        };
        self.last.store(number_of(last), Ordering::SeqCst);
    }

    /// Why the last put was refused, in words, if it was.
    pub fn words(&self) -> Option<&'static str> {
        let fault = last_of(self.last.load(Ordering::SeqCst))?;
        Some(words_of_shelf(fault))
    }
}

/// What the last put came to is read back from its number: a law, said as the contract of a
/// function with nothing to do.
pub fn each_end_of_a_put_has_its_number()
    ensures { (last : Option AFault) → last_of (number_of_last last) ≡ last }
{}
