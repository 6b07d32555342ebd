//! At which children of a node two sets have unequal sums.

ghost use Rattle.std.specs.Prelude.{◌≡◌, IfOk, [], get_or};
ghost use Rattle.exchange_tree.specs.Steps.{differing_at, is_unequal as is_unequal_in};

use crate::nodes::CHILD_COUNT;
use operation::Digest;
use std::alloc::{AllocError, Global};

/// What a list of sums has at a digit, which is nothing behind its end.
fn sum_at(sums: &[Digest], digit: usize) -> &[u8]
    ensures { result.now ≡ get_or sums.now digit [] }
{
    match sums.get(digit) {
        Some(sum) => sum.as_bytes().as_slice(),
        None => &[],
    }
}

fn is_unequal(own: &[Digest], theirs: &[Digest], digit: usize) -> bool
    ensures { result ≡ is_unequal_in own.now theirs.now digit }
{
    sum_at(own, digit) != sum_at(theirs, digit)
}

/// The digits of the children of a node of which two lists of sums, by digits, have unequal ones,
/// ascending. What stands behind 16 is not compared; a list that ends before has nothing there,
/// which no sum is equal to. The one error is want of memory.
pub fn differing(alloc: Global, own: &[Digest], theirs: &[Digest]) -> Result<Vec<u8>, AllocError>
    ensures { IfOk result (λ digits. digits.items ≡ differing_at own.now theirs.now) }
{
    let mut digits = Vec::new(alloc);
    for digit in 0..CHILD_COUNT {
        if !is_unequal(own, theirs, digit) {
            continue;
        }
        digits.push(digit as u8)?;
    }
    Ok(digits)
}
