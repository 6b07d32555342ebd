//! The lines of a test of all operations, and how it ends.

ghost use Rattle.std.specs.Prelude.{◌≡◌, ◌≢◌, ◌++◌, [], OnOk, IfErr, IfOk};
ghost use Rattle.std.specs.List.{flat_map};
ghost use Rattle.op_shelf.specs.declared.fault.ShelfFault.TheVariants.{BadRow};
ghost use Rattle.archive_app.specs.declared.output.ending.CommandFault.TheVariants.{Shelf};
ghost use Rattle.archive_app.specs.Verified.{damaged_line, or_hyphen, verify_lines};

use crate::output::ending::CommandFault;
use crate::output::lines::put_count;
use op_shelf::{Damaged, ShelfFault, Verified};
use std::alloc::{AllocError, Global};

/// A text, and a hyphen where there is none.
pub(crate) fn or_hyphen(text: &[u8]) -> &[u8]
    ensures { result.now ≡ or_hyphen text.now }
{
    if text.is_empty() {
        return b"-";
    }
    text
}

fn put_damaged(out: &mut Vec<u8>, damaged: &Damaged) -> Result<(), AllocError>
    ensures { OnOk result (out.new.items ≡ out.old.items ++ damaged_line damaged.now) }
{
    out.extend_from_slice(b"damaged ")?;
    out.extend_from_slice(or_hyphen(damaged.digest.as_slice()))?;
    out.push(b' ')?;
    out.extend_from_slice(or_hyphen(damaged.instance.as_slice()))?;
    out.push(b'\n')?;
    Ok(())
}

fn put_all_damaged(out: &mut Vec<u8>, damaged: &[Damaged]) -> Result<(), AllocError>
    ensures { OnOk result (out.new.items ≡ out.old.items ++ flat_map damaged_line damaged.now) }
{
    for one in damaged {
        put_damaged(out, one)?;
    }
    Ok(())
}

/// The lines of a test of all operations: how many there are, each that is not the one of its
/// digest, and how many these are.
pub fn lines_of_verify(alloc: Global, verified: &Verified) -> Result<Vec<u8>, AllocError>
    ensures { IfOk result (λ text. text.items ≡ verify_lines verified.now) }
{
    let mut out = Vec::new(alloc);
    put_count(alloc, &mut out, b"operations", verified.operations)?;
    put_all_damaged(&mut out, verified.damaged.as_slice())?;
    put_count(alloc, &mut out, b"end", verified.damaged.len() as u64)?;
    Ok(out)
}

/// How it ends: with the fault of a bad row where an operation is not the one of its digest.
pub fn ended_of_verify(verified: &Verified) -> Result<(), CommandFault>
    ensures whole { OnOk result (verified.now.damaged.items ≡ []) }
    ensures damaged { IfErr result (λ fault. fault ≡ Shelf BadRow) }
    ensures some { IfErr result (λ _. verified.now.damaged.items ≢ []) }
{
    if verified.damaged.is_empty() {
        return Ok(());
    }
    Err(CommandFault::Shelf(ShelfFault::BadRow))
}
