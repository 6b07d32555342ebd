//! Texts in the order of their bytes.

ghost use Rattle.std.specs.Prelude.{◌≡◌, List, ℕ, OnOk, IfOk, map};
ghost use Rattle.octets.specs.Texts.{put as put_in, ascending as ascending_of};

use octets::Octets;
use std::alloc::{AllocError, Global};
use std::cmp::Ordering;

/// Puts a text into texts that ascend, unless it is there.
fn put(alloc: Global, texts: &mut Vec<Octets>, text: &[u8]) -> Result<(), AllocError>
    ensures { OnOk result (texts.new.items ≡ put_in text.now texts.old.items) }
{
    for i in 0..texts.len() {
        match text.cmp(texts[i].as_slice()) {
            Ordering::Less => {
                texts.insert(i, Octets::from_slice(alloc, text)?)?;
                return Ok(());
            }
            Ordering::Equal => return Ok(()),
            Ordering::Greater => {}
        }
    }
    texts.push(Octets::from_slice(alloc, text)?)?;
    Ok(())
}

/// These texts ascending, each once.
pub fn ascending(alloc: Global, texts: &[&[u8]]) -> Result<Vec<Octets>, AllocError>
    ensures { IfOk result (λ found. found.items ≡ ascending_of (map (λ t. t.now) texts.now)) }
{
    let mut found = Vec::new(alloc);
    let mut left = texts.len();
    while left > 0 {
        left -= 1;
        put(alloc, &mut found, texts[left])?;
    }
    Ok(found)
}
