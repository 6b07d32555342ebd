//! Deeds that respond to a request: a status, rows and what ends them (PS3.7, section 9.3).

ghost use Rattle.std.specs.Prelude.{◌≡◌, ◌<◌, ◌++◌, ◌∷◌, [], IfOk, OnOk, All, length, List, map, true, false};
ghost use Rattle.pdu.specs.declared.value.Pdu.{Pdu};
ghost use Rattle.association_services.specs.declared.call.Call.TheVariants.{Store};
ghost use Rattle.association_session.specs.declared.deed.Deed.TheVariants.{Send, Reach, Ask};
ghost use Rattle.association_session.specs.declared.deed.Moment.TheVariants.{InStore};
ghost use Rattle.association_services.specs.Find.{RespondsRow};
ghost use Rattle.association_session.specs.Session.{IsWritable};
ghost use Rattle.association_session.specs.inner.Telling.{IsTold, TellsSome, TellsTurn, IsEnd};

use crate::deed::{Deed, Moment};
use crate::deeds::Deeds;
use archive_model::{Answer, Answers};
use association_services::{Awaited, Call, RowKind, row_text};
use dimse::{Fragments, Status};
use operation::Content;
use std::alloc::{AllocError, Global};

pub(crate) fn one(alloc: Global, deed: Deed) -> Result<Deeds, AllocError>
    ensures { IfOk result (λ deeds. deeds ≡ deed ∷ []) }
{
    let mut deeds = Deeds::new(alloc);
    deeds.push(deed)?;
    Ok(deeds)
}

/// The deeds that send these PDUs.
pub(crate) fn sends(alloc: Global, pdus: Fragments) -> Result<Deeds, AllocError>
    ensures { IfOk result (λ deeds. deeds ≡ map Send pdus) }
{
    let mut deeds = Deeds::new(alloc);
    deeds.put_sends(pdus)?;
    Ok(deeds)
}

/// The deeds that respond to a request.
pub(crate) fn respond(alloc: Global, awaited: &Awaited, status: Status) -> Result<Deeds, AllocError>
    ensures told { IfOk result (λ deeds. IsTold awaited.now status deeds) }
    ensures writable { IfOk result (All IsWritable) }
{
    sends(alloc, awaited.respond(alloc, status)?)
}

/// The gate is reached, and the port is asked to store a content.
pub(crate) fn asks(alloc: Global, content: Content) -> Result<Deeds, AllocError>
    ensures { IfOk result (λ deeds.
        deeds ≡ Reach InStore ∷ Ask (Store content) ∷ []) }
{
    let mut deeds = Deeds::new(alloc);
    deeds.push(Deed::Reach(Moment::InStore))?;
    deeds.push(Deed::Ask(Call::Store(content)))?;
    Ok(deeds)
}

/// How many bytes of data sets are spelled in one turn, up to the end of a row: 32 KB.
const TURN: usize = 32_768;

/// Puts the deeds that respond with a row, and answers how many bytes its data set has.
fn put_row(
    alloc: Global,
    deeds: &mut Deeds,
    awaited: &Awaited,
    kind: RowKind,
    row: Answer,
) -> Result<usize, AllocError>
    ensures told { OnOk result ((response : List Pdu)
        × RespondsRow awaited.now kind row response
        × (deeds.new ≡ deeds.old ++ map Send response)) }
    ensures writable { All IsWritable deeds.old → OnOk result (All IsWritable deeds.new) }
{
    let text = row_text(alloc, kind.syntax, row)?;
    let size = text.len();
    let pdus = awaited.respond_with(alloc, kind.status, text)?;
    deeds.put_sends(pdus)?;
    Ok(size)
}

/// Puts the deeds that respond with the next rows, until a turn's bytes were spelled or no row is
/// left. The answer is whether none was found to be left.
fn put_rows(
    alloc: Global,
    deeds: &mut Deeds,
    awaited: &Awaited,
    kind: RowKind,
    rows: &mut Answers,
) -> Result<bool, AllocError>
    ensures told { OnOk result (TellsSome awaited.now kind rows.old rows.new deeds.old
        deeds.new) }
    ensures ended { IfOk result (λ ended. ended ≡ true → length rows.new ≡ 0) }
    ensures fewer { IfOk result (λ ended. ended ≡ false → length rows.new < length rows.old) }
    ensures writable { All IsWritable deeds.old → OnOk result (All IsWritable deeds.new) }
{
    let mut spelled = 0;
    while spelled < TURN {
        let Some(row) = rows.next()? else {
            return Ok(true);
        };
        let size = put_row(alloc, deeds, awaited, kind, row)?;
        spelled = 1.max(size).saturating_add(spelled);
    }
    Ok(false)
}

/// Puts the deeds that end rows.
fn put_end(
    alloc: Global,
    deeds: &mut Deeds,
    awaited: &Awaited,
    status: Status,
) -> Result<(), AllocError>
    ensures ends { OnOk result (IsEnd awaited.now status deeds.old deeds.new) }
    ensures writable { All IsWritable deeds.old → OnOk result (All IsWritable deeds.new) }
{
    deeds.put_sends(awaited.respond(alloc, status)?)?;
    deeds.push(Deed::Reach(Moment::FindAnswered))?;
    Ok(())
}

/// The deeds that tell the next rows, and behind the last one their end, and whether it is told.
pub(crate) fn tell(
    alloc: Global,
    awaited: &Awaited,
    kind: RowKind,
    rows: &mut Answers,
    status: Status,
) -> Result<(Deeds, bool), AllocError>
    ensures told { IfOk result (λ x. TellsTurn awaited.now kind status rows.old rows.new x.1 x.0) }
    ensures fewer { IfOk result (λ x. x.1 ≡ false → length rows.new < length rows.old) }
    ensures writable { IfOk result (λ x. All IsWritable x.0) }
{
    let mut deeds = Deeds::new(alloc);
    let ended = put_rows(alloc, &mut deeds, awaited, kind, rows)?;
    if ended {
        put_end(alloc, &mut deeds, awaited, status)?;
        return Ok((deeds, true));
    }
    Ok((deeds, false))
}
