//! A correction that is asked for: whether it may be, the one that comes next, and its way to the
//! shelf and into the hub.

ghost use Rattle.std.specs.Prelude.{◌≡◌, ◌⊎◌, ◌++◌, ◌∷◌, [], Some, None, Err, IfOk, IfErr, OnOk};
ghost use mathlib.Core.List.{IsPrefix};
ghost use Rattle.operation.specs.declared.op.Op.TheVariants.{Correction as a_correction};
ghost use Rattle.operation.specs.Spelling.{digest_of};
ghost use Rattle.site_desk.specs.declared.fault.DeskFault.TheVariants.{Memory, NoChange, Shelf};
ghost use Rattle.site_desk.specs.declared.fault.DeskFault.TheVariants.{Unshown};
ghost use Rattle.command_words.specs.Parts.{bad_part_of};
ghost use Rattle.hub_exchange.specs.Putting.{WasWritten};
ghost use Rattle.hub_exchange.specs.Onward.{IsOnward};
ghost use Rattle.site_hub.specs.History.{EndsWith, entry_of};
ghost use Rattle.site_desk.specs.Making.{change_of, AsksNone, fault_of_part};
ghost use Rattle.site_desk.specs.Making.{fault_of_shelf as fault_of_shelf_in};
ghost use Rattle.site_desk.specs.Making.{next_over as next_over_of, IsOfPart};

use crate::{DeskFault, Words};
use command_words::{Change, Part, bad_part, change_in};
use hub_exchange::{Extract, LedgerName, Put, Shelved};
use op_shelf::ShelfFault;
use operation::{Correction, Digested, Op, Stamp, correction_of};
use records::RecordedOp;
use site_hub::{HubName, Keeper, Pass, Shows, store};
use std::alloc::Global;
use std::sync::{Mutex, Wait};

/// The change that four words ask for.
pub(crate) fn change_by(alloc: Global, words: &Words) -> Result<Change, DeskFault>
    ensures ok { IfOk result (λ change. change_of words.now ≡ Some change) }
    ensures none { IfErr result (AsksNone words.now) }
    ensures fault { IfErr result (λ fault. (fault ≡ NoChange) ⊎ (fault ≡ Memory)) }
{
    let (Ok(target), Ok(key), Ok(tag), Ok(value)) = (
        str::from_utf8(words.target.as_slice()),
        str::from_utf8(words.key.as_slice()),
        str::from_utf8(words.tag.as_slice()),
        str::from_utf8(words.value.as_slice()),
    ) else {
        return Err(DeskFault::NoChange);
    };
    match change_in(alloc, target, key, tag, value)? {
        Some(change) => Ok(change),
        None => Err(DeskFault::NoChange),
    }
}

/// What is told of a part that may not be.
fn of_part(part: Part) -> DeskFault
    ensures { result ≡ fault_of_part part }
{
    match part {
        Part::Key => DeskFault::BadKey,
        Part::Tag => DeskFault::BadTag,
        Part::Value => DeskFault::BadValue,
    }
}

/// What is told of a shelf that refused.
fn of_shelf(fault: ShelfFault) -> DeskFault
    ensures { result ≡ fault_of_shelf_in fault }
{
    match fault {
        ShelfFault::Memory => DeskFault::Memory,
        ShelfFault::Store(_) | ShelfFault::BadRow => DeskFault::Shelf,
    }
}

/// Refuses a change of which a part may not be, and tells the first such part.
pub(crate) fn allowed(alloc: Global, change: &Change) -> Result<(), DeskFault>
    ensures ok { OnOk result (bad_part_of change.now ≡ None) }
    ensures refused { IfErr result (IsOfPart (bad_part_of change.now)) }
{
    match bad_part(alloc, change)? {
        None => Ok(()),
        Some(part) => Err(of_part(part)),
    }
}

/// The correction that comes next at a site of a number, behind this counter. A site has a number
/// from 1 on.
pub(crate) fn next_over(site: u16, top: u64, change: Change) -> Result<Correction, DeskFault>
    ensures { result ≡ next_over_of site top change }
{
    if top == u64::MAX {
        return Err(DeskFault::StampsSpent);
    }
    let stamp = Stamp {
        counter: top + 1,
        site,
    };
    let Change { target, tag, value } = change;
    match correction_of(target, tag, value, stamp) {
        Ok(made) => Ok(made),
        Err(_fault) => Err(DeskFault::NoSite),
    }
}

/// Lets the hub take what the shelf keeps, which publishes it.
pub(crate) fn publish<H: HubName, T: Shows<H>, R: Wait + Drop, S: Wait, N: LedgerName>(
    rt: &S,
    keeper: &Mutex<Keeper<H, T, R>>,
    pass: &mut Pass<H>,
    op: RecordedOp,
    _shelved: &Shelved<N>,
) -> Result<(), DeskFault>
    requires { _shelved.now.digest ≡ digest_of op }
    ensures shown { OnOk result (EndsWith pass.new.seen (entry_of pass.old.number op)) }
    ensures mine { OnOk result (pass.new.mine ≡ pass.old.mine ++ digest_of op ∷ []) }
    ensures onward { IsOnward (WasWritten _shelved.now.extract) pass.old pass.new }
    ensures unshown { IfErr result (λ fault. fault ≡ Unshown) }
{
    match store(rt, keeper, pass, op) {
        Ok(_told) => Ok(()),
        Err(_fault) => Err(DeskFault::Unshown),
    }
}

/// Puts a correction on the shelf, and then lets the hub take it.
pub(crate) fn keep<H: HubName, T: Shows<H>, R: Wait + Drop, S: Wait, N: LedgerName, P: Put<N>>(
    rt: &S,
    keeper: &Mutex<Keeper<H, T, R>>,
    shelf: &mut P,
    pass: &mut Pass<H>,
    extract: &mut Extract<N>,
    made: Correction,
) -> Result<(), DeskFault>
    // Where the hub took it.
    ensures stored { OnOk result (WasWritten extract.new (digest_of (a_correction made))) }
    ensures shown { OnOk result
        (EndsWith pass.new.seen (entry_of pass.old.number (a_correction made))) }
    ensures mine { OnOk result
        (pass.new.mine ≡ pass.old.mine ++ digest_of (a_correction made) ∷ []) }

    // Whatever came of it.
    ensures onward { IsOnward (WasWritten extract.new) pass.old pass.new }
    ensures known { IsPrefix extract.old extract.new }

    // Where it did not: the shelf has it, or the pass stays.
    ensures unshown { result ≡ Err Unshown
        → WasWritten extract.new (digest_of (a_correction made)) }
    ensures refused { IfErr result (λ fault. (fault ≡ Unshown)
        ⊎ (((fault ≡ Memory) ⊎ (fault ≡ Shelf)) × (pass.new ≡ pass.old))) }
{
    let op = Digested::of(Op::Correction(made));
    let Ok(recorded) = pass.record(&op) else {
        return Err(DeskFault::Memory);
    };
    match shelf.put(&op) {
        Ok(shelved) => {
            let taken = publish(rt, keeper, pass, recorded, &shelved);
            extract.learn(&shelved.extract);
            taken
        }
        Err(fault) => Err(of_shelf(fault)),
    }
}
