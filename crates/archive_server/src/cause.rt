//! Why a shelf refuses, in words.

ghost use Rattle.std.specs.Prelude.{◌≡◌};
ghost use Rattle.archive_server.specs.Cause.{words_of_store, words_of_shelf};

use op_shelf::{ShelfFault, StoreCause};

fn words_of_store(cause: StoreCause) -> &'static str
    ensures { result.now ≡ words_of_store cause }
{
    match cause {
        StoreCause::Full => "the disk is full",
        StoreCause::Failed => "the disk failed",
        StoreCause::Closed => "the disk failed before, and it was closed",
        StoreCause::Damaged => "it is damaged",
        StoreCause::Other => "it refused for another cause",
    }
}

/// Why a shelf refuses, in words. It takes no memory.
pub fn words_of_shelf(fault: ShelfFault) -> &'static str
    ensures { result.now ≡ words_of_shelf fault }
{
    match fault {
        ShelfFault::Store(cause) => words_of_store(cause),
        ShelfFault::BadRow => "an operation in it is not what its digest says",
        ShelfFault::Memory => "memory was refused",
    }
}
