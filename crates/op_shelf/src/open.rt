//! From a connection, or a path, to a shelf.

ghost use Rattle.std.specs.Prelude.{IfOk, IfErr, IsErrOf, OnOk, OnErr};
ghost use Rattle.sqlite.specs.Files.{file_state};
ghost use Rattle.sqlite.specs.Held.{Held, state};
ghost use Rattle.sqlite.specs.State.{HasCleanDisk, Survives};
ghost use Rattle.sqlite.specs.WalFiles.{image_at};
ghost use Rattle.op_shelf.specs.Fault.{IfStore};
ghost use Rattle.op_shelf.specs.Opened.{IsFound, IsRefused};
ghost use Rattle.op_shelf.specs.Migration.{IsOlder, HasBadPair};
ghost use Rattle.op_shelf.specs.States.{IfClean, IsReady, StandsFor, MayBecome, KeepsAll, IsNotOpened, IsGivenUp};

use crate::fault::{ShelfFault, StoreCause};
use crate::migration::migrate;
use crate::shelf::Shelf;
use crate::statements::create;
use crate::table::{is_aged, is_blank, is_ready};
use sqlite::{Alter, Connection, FileFrom, FileStore, Start};
use std::alloc::Global;
use std::rt::HostRuntime;

/// Makes a connection one that `Shelf::adopt` takes as it is: makes the table where the database is
/// empty, and moves the older one. A caller that keeps the connection learns why it is refused.
#[tactic(auto, using(crate::proofs::Puts::survives_bare, crate::proofs::Puts::survives_older, crate::proofs::Puts::survives_none, crate::proofs::Puts::bare_keeps, crate::proofs::Puts::made_ready))]
pub fn make_ready<S: Alter>(database: &mut Connection<S>, alloc: Global) -> Result<(), ShelfFault>
    ensures stands { IfClean S.Store database.old database.new (λ s t.
        OnOk result (StandsFor s t)) }
    ensures ready { IfClean S.Store database.old database.new (λ s t.
        OnOk result (IsReady t)) }
    ensures refused { IfClean S.Store database.old database.new (λ s t.
        OnErr result (KeepsAll s t)) }
    ensures store { IfClean S.Store database.old database.new (λ s t.
        IfStore result (λ why. IsNotOpened S.Store why database.old database.new)) }
    ensures bad_row { IfClean S.Store database.old database.new (λ s t.
        IsErrOf result ShelfFault.BadRow → HasBadPair s) }
    ensures only { IsErrOf result ShelfFault.BadRow → IsOlder (state S.Store database.old) }
    ensures crash { Survives (state S.Store database.old) (state S.Store database.new)
        (MayBecome (state S.Store database.old)) }
{
    if is_ready(database) {
        return Ok(());
    }
    if is_aged(database) {
        return migrate(database, alloc);
    }
    if !is_blank(database) {
        return Err(ShelfFault::Store(StoreCause::Other));
    }
    create(database)?;
    Ok(())
}

impl<S: Alter + Drop> Shelf<S> {
    /// A shelf over an open connection. An empty database gets the table. Each row of the older
    /// table is moved to it, in one transaction; one that is that of no operation is `BadRow`. A
    /// database of another schema is `Store`. What is refused is left as it was, and the
    /// connection is given up; `make_ready` leaves it to its caller.
    pub fn adopt(alloc: Global, connection: Connection<S>) -> Result<Shelf<S>, ShelfFault>
        ensures stands { IfOk result (λ shelf. HasCleanDisk (state S.Store shelf)
            → StandsFor (state S.Store connection) (state S.Store shelf)) }
        ensures ready { IfOk result (λ shelf. HasCleanDisk (state S.Store shelf)
            → IsReady (state S.Store shelf)) }
        ensures bad_row { IsErrOf result ShelfFault.BadRow
            → IsOlder (state S.Store connection) }
        ensures given_up { IfErr result (λ e. (last : Held S)
            × IsGivenUp S.Store connection last e) }

        // A crash finds what was there, or an empty table in an empty database, or the same
        // operations in the newer table.
        ensures crash { IfOk result (λ shelf.
            Survives (state S.Store connection) (state S.Store shelf)
            (MayBecome (state S.Store connection))) }
    {
        let mut database = connection;
        match make_ready(&mut database, alloc) {
            Ok(()) => Ok(Shelf { database, alloc }),
            Err(fault) => Err(fault),
        }
    }
}

impl<S: Start> Shelf<FileStore<FileFrom<S>>> {
    /// The shelf in the file at a path, which is made where there is none. `S` stands for what the
    /// files hold: a program passes `Wary`. The whole file is read and tested.
    pub fn open(
        rt: &HostRuntime,
        path: &str,
        start: S,
    ) -> Result<Shelf<FileStore<FileFrom<S>>>, ShelfFault>
        ensures found { IfOk result (λ shelf. HasCleanDisk (file_state shelf)
            → IsFound (image_at S.Start) shelf) }
        // Either no database was opened, or the one that was found is as it was.
        ensures refused { IsRefused (image_at S.Start) result }
    {
        match Connection::open_from(rt, path, false, start) {
            Ok(connection) => Shelf::adopt(rt.alloc(), connection),
            Err((error, _left)) => Err(ShelfFault::from(error)),
        }
    }
}
