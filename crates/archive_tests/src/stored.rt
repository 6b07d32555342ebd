//! What keeps operations in two files: a log, and a shelf.

use crate::disks::Stops;
use op_log::OpLog;
use op_shelf::{Shelf, make_ready};
use operation::Digested;
use sqlite::{Alter, Connection, FileStore, Files, Options};
use std::alloc::Global;
use std::test::Fail;

/// What keeps operations in two files.
pub(crate) trait Stored<D: Stops>: Sized + Drop {
    /// What stands in two files, or these where they are not opened.
    fn opened(alloc: Global, files: (D, D)) -> Result<Result<Self, (D, D)>, Fail>;

    /// Whether a group was put.
    fn is_put(&mut self, ops: &[Digested]) -> bool;

    fn all(&mut self, alloc: Global) -> Result<Vec<Digested>, Fail>;

    fn into_files(self) -> (D, D);
}

impl<D: Stops> Stored<D> for OpLog<D, D> {
    fn opened(alloc: Global, files: (D, D)) -> Result<Result<OpLog<D, D>, (D, D)>, Fail> {
        let (heads, bodies) = files;
        if !heads.may_be_used() || !bodies.may_be_used() {
            return Ok(Err((heads, bodies)));
        }
        match OpLog::open(alloc, heads, bodies) {
            Ok(log) => Ok(Ok(log)),
            Err(refused) => Ok(Err((refused.heads, refused.bodies))),
        }
    }

    fn is_put(&mut self, ops: &[Digested]) -> bool {
        self.put_many(ops).is_ok()
    }

    fn all(&mut self, alloc: Global) -> Result<Vec<Digested>, Fail> {
        Ok(OpLog::all(self, alloc)?)
    }

    fn into_files(self) -> (D, D) {
        OpLog::into_files(self)
    }
}

/// A database that is ready as a shelf, or else as it is.
fn ready<S: Alter + Drop>(
    alloc: Global,
    database: Connection<S>,
) -> Result<Result<Shelf<S>, Connection<S>>, Fail> {
    let mut database = database;
    if make_ready(&mut database, alloc).is_err() {
        return Ok(Err(database));
    }
    Ok(Ok(Shelf::adopt(alloc, database)?))
}

fn files_of<D: Stops>(database: Connection<FileStore<D>>) -> (D, D) {
    let Files { log, db } = database.into_store().close();
    (log, db)
}

/// A shelf over two files. It is named without the kinds of its database, and dropped in one step.
pub(crate) struct FileShelf<D: Stops> {
    shelf: Shelf<FileStore<D>>,
}

impl<D: Stops> Drop for FileShelf<D> {
    fn drop(self) {
        let FileShelf { shelf: _ } = self;
    }
}

impl<D: Stops> Stored<D> for FileShelf<D> {
    fn opened(alloc: Global, files: (D, D)) -> Result<Result<FileShelf<D>, (D, D)>, Fail> {
        let (log, db) = files;
        let files = Files { log, db };
        if !files.may_be_used() {
            return Ok(Err((files.log, files.db)));
        }
        // Little is kept in memory, so that an open takes little.
        let options = Options {
            cache_pages: 8,
            spill_pages: 8,
            checkpoint_frames: 1000,
            seed: 1,
        };
        let database = match Connection::open_files(alloc, files, options) {
            Ok(database) => database,
            Err((_error, left)) => {
                let Files { log, db } = left.into_files();
                return Ok(Err((log, db)));
            }
        };
        match ready(alloc, database)? {
            Ok(shelf) => Ok(Ok(FileShelf { shelf })),
            Err(database) => Ok(Err(files_of(database))),
        }
    }

    fn is_put(&mut self, ops: &[Digested]) -> bool {
        self.shelf.put_many(ops).is_ok()
    }

    fn all(&mut self, _alloc: Global) -> Result<Vec<Digested>, Fail> {
        Ok(self.shelf.all()?)
    }

    fn into_files(self) -> (D, D) {
        let FileShelf { shelf } = self;
        files_of(shelf.into_connection())
    }
}
