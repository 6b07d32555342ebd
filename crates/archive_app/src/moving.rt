//! `archive move`: brings the operations of one archive into another.

ghost use Rattle.std.specs.Prelude.{IfOk, OnErr};
ghost use Rattle.shelved_site.specs.Moving.{AreMoved, HasSome};
ghost use Rattle.shelved_site.specs.Readable.{Shown};

use crate::file::{OnStore, on_file};
use crate::folder::{Starting, is_absent};
use crate::held::missing_in;
use crate::output::{CommandFault, FileCause, lines_of_move};
use crate::refused::{Done, Lacks, Refused, about, done_without};
use crate::viewing::view_file;
use command_words::Moving;
use op_shelf::{ShelfFault, StoreCause};
use shelved_site::{Following, MoveFault, Moved, Store, move_all};
use std::rt::HostRuntime;

/// Brings all operations of one store into another, and tells how far it is.
fn bring<F: Store, T: Store, H: Following>(
    from: &mut F,
    to: &mut T,
    hearing: &H,
) -> Result<Moved, MoveFault>
    ensures moved { F.is_clean from.new → T.is_up to.new → IfOk result
        (AreMoved (F.shows from.old) (T.holds to.old) (T.holds to.new) (T.lasts to.new)) }
    ensures part { F.is_clean from.new → T.is_up to.new → OnErr result
        (HasSome (Shown (F.shows from.old)) (T.holds to.old) (T.holds to.new)) }
    ensures read { F.is_clean from.new → F.spares from.old from.new }
{
    move_all(from, to, hearing)
}

/// A move whose first archive is open.
#[derive(Drop)]
struct Filling<'h, 'a, F: Store + Drop> {
    rt: &'h HostRuntime,
    moving: Moving<'a>,
    from: F,
}

impl<'h, 'a, F: Store + Drop> OnStore for Filling<'h, 'a, F> {
    type Told = Result<Moved, Refused<'a>>;

    fn on<S: Store + Drop + Send>(self, mut to: S) -> Result<Moved, Refused<'a>> {
        let Filling {
            rt,
            moving,
            mut from,
        } = self;
        let starting = Starting::begins(rt, moving.from);
        match bring(&mut from, &mut to, &starting) {
            Ok(moved) => Ok(moved),
            Err(MoveFault::From(fault)) => Err(Refused::of(
                moving.from,
                CommandFault::Shelf(fault),
            )),
            Err(MoveFault::To(fault)) => Err(Refused::of(moving.to, CommandFault::Shelf(fault))),
        }
    }
}

/// A move of which neither archive is open.
#[derive(Drop)]
struct Opening<'h, 'a> {
    rt: &'h HostRuntime,
    moving: Moving<'a>,
}

impl<'h, 'a> OnStore for Opening<'h, 'a> {
    type Told = Result<(Moved, u64), Refused<'a>>;

    fn on<S: Store + Drop + Send>(self, mut from: S) -> Result<(Moved, u64), Refused<'a>> {
        let Opening { rt, moving } = self;
        let missing = missing_in(rt, moving.from, &mut from);
        let moved = on_file(rt, moving.to, Filling { rt, moving, from })??;
        Ok((moved, missing))
    }
}

/// Brings the operations of one archive into another, which is made where it is not there, and says
/// how many there were and how many of them were new. The first is only read, but that a table of
/// older programs becomes that of today, and is refused where it is not there. Refusals come in
/// this order: the first, the second; behind them that of a read or of a put, where the second has
/// what it had and some of the first. What can't be read of the first is said and left out, and it
/// then ends with a fault, as where operations are missing from it.
pub fn move_operations<'a>(rt: &HostRuntime, moving: Moving<'a>) -> Result<Done<'a>, Refused<'a>> {
    if is_absent(rt, moving.from) {
        let fault = CommandFault::Shelf(ShelfFault::Store(StoreCause::Other));
        return Err(Refused::file(moving.from, fault, FileCause::Absent));
    }
    let (moved, missing) = view_file(rt, moving.from, Opening { rt, moving })??;
    let lines = about(moving.to, lines_of_move(rt.alloc(), moved))?;
    let unread = moved.unread;
    Ok(done_without(rt, moving.from, lines, Lacks { unread, missing }))
}
