//! The one spelling of an operation (docs/DECISIONS.md, "Spelling of operations"). Numbers are
//! spelled with the high byte first.

ghost use Rattle.std.specs.Prelude.{◌≡◌, ◌++◌, ◌≤◌, length, IfOk, OnOk};
ghost use Rattle.operation.specs.Corrections.{IsCorrection};
ghost use Rattle.operation.specs.Parts.{key_of};
ghost use Rattle.operation.specs.Reading.{IsOp};
ghost use Rattle.operation.specs.Spelling.{spelling, content_text, correction_text, short_text, target_text};

use crate::content::Content;
use crate::correction::Correction;
use crate::op::Op;
use crate::target::Target;
use data_set::Syntax;
use std::alloc::{AllocError, Global};

/// The most bytes of a spelling beside the data set of a content: of a correction, with a key and a
/// value of 64 bytes.
const MOST_AROUND: usize = 147;

fn put_short(out: &mut Vec<u8>, bytes: &[u8]) -> Result<(), AllocError>
    requires { length bytes.now ≤ 64 }
    ensures { OnOk result (out.new.items ≡ out.old.items ++ short_text bytes.now) }
{
    out.push(bytes.len() as u8)?;
    out.extend_from_slice(bytes)
}

fn put_content(out: &mut Vec<u8>, content: &Content) -> Result<(), AllocError>
    ensures { OnOk result (out.new.items ≡ out.old.items ++ content_text content.now) }
{
    let body = content.body().as_slice();
    let syntax = match content.syntax() {
        Syntax::Implicit => 1,
        Syntax::Explicit => 2,
    };
    out.push(1)?;
    put_short(out, content.class())?;
    put_short(out, content.instance())?;
    out.push(syntax)?;
    out.extend_from_slice(&(body.len() as u32).to_be_bytes())?;
    out.extend_from_slice(body)
}

/// A key behind what tells its kind.
fn put_under(out: &mut Vec<u8>, kind: &[u8], key: &[u8]) -> Result<(), AllocError>
    requires { length key.now ≤ 64 }
    ensures { OnOk result (out.new.items ≡ out.old.items ++ (kind.now ++ short_text key.now)) }
{
    out.extend_from_slice(kind)?;
    put_short(out, key)
}

/// The kind of a correction, and its target.
fn put_target(out: &mut Vec<u8>, target: &Target) -> Result<(), AllocError>
    requires { length (key_of target.now) ≤ 64 }
    ensures { OnOk result (out.new.items ≡ out.old.items ++ target_text target.now) }
{
    match target {
        Target::Study(key) => put_under(out, &[2, 1], key.as_slice()),
        Target::Patient(key) => put_under(out, &[2, 2], key.as_slice()),
        Target::Series(key) => put_under(out, &[3], key.as_slice()),
    }
}

fn put_correction(out: &mut Vec<u8>, correction: &Correction) -> Result<(), AllocError>
    ensures spelled { OnOk result (out.new.items
        ≡ out.old.items ++ correction_text correction.now) }
    ensures lawful { IsCorrection correction.now }
{
    let value = correction.value();
    let stamp = correction.stamp();
    put_target(out, correction.target())?;
    out.extend_from_slice(&correction.tag().to_be_bytes())?;
    out.extend_from_slice(&(value.len() as u16).to_be_bytes())?;
    out.extend_from_slice(value)?;
    out.extend_from_slice(&stamp.counter.to_be_bytes())?;
    out.extend_from_slice(&stamp.site.to_be_bytes())
}

/// The bytes of an operation, the same at every site. Those of a data set are copied.
#[tactic(auto, unfolding(crate::specs::Spelling::spelling))]
pub fn encode(alloc: Global, op: &Op) -> Result<Vec<u8>, AllocError>
    ensures spelled { IfOk result (λ bytes. bytes.items ≡ spelling op.now) }
    // So `decode` gives the operation again.
    ensures lawful { OnOk result (IsOp op.now) }
{
    match op {
        Op::Content(content) => {
            let mut out = Vec::with_capacity(alloc, MOST_AROUND + content.body().len())?;
            put_content(&mut out, content)?;
            Ok(out)
        }
        Op::Correction(correction) => {
            let mut out = Vec::with_capacity(alloc, MOST_AROUND)?;
            put_correction(&mut out, correction)?;
            Ok(out)
        }
    }
}
