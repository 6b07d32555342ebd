//! Writing the body of a WALK.

ghost use Rattle.std.specs.Prelude.{◌≡◌, ◌≤◌, ◌++◌, length, IfOk, OnOk};
ghost use Rattle.exchange_frames.specs.Spelling.{digests_text};
ghost use Rattle.walk_frames.specs.Nodes.{AreDigits};
ghost use Rattle.walk_frames.specs.Spelling.{packed, node_text, sums_text, entry_text, walk_text};

use crate::entry::Entry;
use crate::node::Node;
use crate::walk::{LONGEST_WALK, Walk};
use octets::Octets;
use operation::Digest;
use std::alloc::{AllocError, Global};

/// Two digits a byte.
fn put_digits(out: &mut Vec<u8>, digits: &[u8]) -> Result<(), AllocError>
    requires { AreDigits digits.now }
    ensures { OnOk result (out.new.items ≡ out.old.items ++ packed digits.now) }
{
    match digits {
        [] => Ok(()),
        [high] => {
            out.push(16 * *high)?;
            Ok(())
        }
        [high, low, rest @ ..] => {
            out.push(16 * *high + *low)?;
            put_digits(out, rest)
        }
    }
}

fn put_node(out: &mut Vec<u8>, node: &Node) -> Result<(), AllocError>
    ensures { OnOk result (out.new.items ≡ out.old.items ++ node_text node.now) }
{
    let digits = node.digits();
    out.push(digits.len() as u8)?;
    put_digits(out, digits)
}

fn put_digests(out: &mut Vec<u8>, digests: &[Digest]) -> Result<(), AllocError>
    ensures { OnOk result (out.new.items ≡ out.old.items ++ digests_text digests.now) }
{
    for digest in digests {
        out.extend_from_slice(digest.as_bytes().as_slice())?;
    }
    Ok(())
}

#[tactic(auto, unfolding(crate::specs::Spelling::entry_text))]
fn put_entry(out: &mut Vec<u8>, entry: &Entry) -> Result<(), AllocError>
    ensures { OnOk result (out.new.items ≡ out.old.items ++ entry_text entry.now) }
{
    put_node(out, entry.node())?;
    match entry.sums() {
        None => {
            out.push(0)?;
            Ok(())
        }
        Some(sums) => {
            out.push(1)?;
            put_digests(out, sums.as_slice())
        }
    }
}

/// The body of a WALK.
#[tactic(auto, unfolding(crate::specs::Spelling::walk_text))]
pub fn write_walk(alloc: Global, walk: &Walk) -> Result<Octets, AllocError>
    ensures written { IfOk result (λ text. text ≡ walk_text walk.now) }
    ensures short { IfOk result (λ text. length text ≤ LONGEST_WALK) }
{
    let entries = walk.entries();
    let mut out = Vec::new(alloc);
    out.extend_from_slice(&(entries.len() as u16).to_be_bytes())?;
    for entry in entries {
        put_entry(&mut out, entry)?;
    }
    Ok(Octets::of(out))
}
