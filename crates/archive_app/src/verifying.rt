//! `archive verify`: tests each operation in a file or a folder against its digest.

ghost use Rattle.std.specs.Prelude.{IfOk, OnErr, OnOk};

use crate::file::OnStore;
use crate::folder::{is_absent, is_folder};
use crate::held::{missing_in, refused_for_missing};
use crate::log_tail::{Tail, refused_for_frames, tail_beside};
use crate::output::{CommandFault, FileCause, ended_of_verify, lines_of_verify};
use crate::progress::Progress;
use crate::refused::{Refused, about};
use crate::viewing::view_file;
use anyhow::Result as Printed;
use command_words::Verifying;
use op_shelf::{ShelfFault, StoreCause, Testing, Verified};
use shelved_site::Store;
use std::io;
use std::io::Write;
use std::rt::HostRuntime;

/// Tests all operations of a store, and tells how far it is.
fn tested<S: Store, T: Testing>(store: &mut S, hearing: &T) -> Result<Verified, ShelfFault>
    ensures verified { S.is_clean store.new → IfOk result
        (λ told. S.verifies store.old store.new told.operations told.damaged.items) }
    ensures same { S.is_clean store.new → OnOk result (S.is_same store.old store.new) }
    ensures read { S.is_clean store.new → OnErr result (S.spares store.old store.new) }
{
    store.verify(hearing)
}

/// A test of a store.
#[derive(Drop)]
struct Verification<'h, 'a> {
    rt: &'h HostRuntime,
    file: &'a str,
}

impl<'h, 'a> OnStore for Verification<'h, 'a> {
    type Told = Result<(Verified, u64), ShelfFault>;

    fn on<S: Store + Drop + Send>(self, mut store: S) -> Result<(Verified, u64), ShelfFault> {
        let progress = Progress::of(self.rt);
        progress.begins(self.file);
        let missing = missing_in(self.rt, self.file, &mut store);
        Ok((tested(&mut store, &progress)?, missing))
    }
}

/// What the operations in a file are tested to be, and how many are missing. A file that is not
/// there is refused.
fn verified<'a>(rt: &HostRuntime, file: &'a str) -> Result<(Verified, u64), Refused<'a>> {
    if is_absent(rt, file) {
        let fault = CommandFault::Shelf(ShelfFault::Store(StoreCause::Other));
        return Err(Refused::file(file, fault, FileCause::Absent));
    }
    match view_file(rt, file, Verification { rt, file })? {
        Ok(verified) => Ok(verified),
        Err(fault) => Err(Refused::of(file, CommandFault::Shelf(fault))),
    }
}

/// Tests each operation in a file, of which nothing is changed, but that a table of older programs
/// becomes that of today, and prints which are not those of their digests. Where one is not, some
/// are missing or the log beside the file is damaged, it ends with a fault behind that.
pub fn verify<'a>(rt: &HostRuntime, verifying: Verifying<'a>) -> Printed<Result<(), Refused<'a>>> {
    let file = verifying.file;
    let (verified, missing) = match verified(rt, file) {
        Ok(verified) => verified,
        Err(refused) => return Ok(Err(refused)),
    };
    match about(file, lines_of_verify(rt.alloc(), &verified)) {
        Ok(lines) => io::writer(rt).write_all(lines.as_slice())?,
        Err(refused) => return Ok(Err(refused)),
    }
    if !is_folder(rt, file) && tail_beside(rt, file) == Tail::Lost {
        return Ok(Err(refused_for_frames(file)));
    }
    if missing != 0 {
        return Ok(Err(refused_for_missing(file, missing)));
    }
    Ok(about(file, ended_of_verify(&verified)))
}
