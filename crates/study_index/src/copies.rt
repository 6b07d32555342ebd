//! SOP Instance UIDs of two contents or more: their copies stand side by side.
ghost use Rattle.std.specs.Prelude.{◌≡◌, ◌&&◌, ◌||◌, List, ℕ, OnOk};
ghost use Rattle.std.specs.Option.{option_copied};
ghost use Rattle.octets.specs.Texts.{text_cmp};
ghost use Rattle.study_index.specs.Copies.{is_copy_of, is_doubled, is_next_copy as is_next_in};
ghost use Rattle.study_index.specs.Keys.{has};

use crate::entries::ContentCopy;
use crate::short_text::ShortText;
use crate::tree::put_uid;
use std::alloc::AllocError;
use std::collections::BTreeSet;

// Whether a copy has the UID of the one before it.
fn is_next_copy(before: Option<&ContentCopy>, copy: &ContentCopy) -> bool
    ensures { result ≡ is_next_in (option_copied before.entry) copy.now }
{
    match before {
        None => false,
        Some(before) => before.uid() == copy.uid(),
    }
}

// Puts the UID of a copy into a set, where the copy before it has the same one.
fn put_next(
    before: Option<&ContentCopy>,
    copy: &ContentCopy,
    uids: &mut BTreeSet<ShortText>,
) -> Result<(), AllocError>
    ensures { OnOk result ((uid : List ℕ) → has text_cmp uids.new.keys uid ≡
        (has text_cmp uids.old.keys uid
        || (is_next_in (option_copied before.entry) copy.now && is_copy_of uid copy.now))) }
{
    if !is_next_copy(before, copy) {
        return Ok(());
    }
    put_uid(uids, &ShortText::whole(copy.uid()))?;
    Ok(())
}

/// Puts the UIDs of two copies or more into a set, in one pass. What was put in before memory was
/// refused stays.
pub fn put_doubled(
    copies: &BTreeSet<ContentCopy>,
    uids: &mut BTreeSet<ShortText>,
) -> Result<(), AllocError>
    ensures { OnOk result ((uid : List ℕ) → has text_cmp uids.new.keys uid
        ≡ (has text_cmp uids.old.keys uid || is_doubled copies.now.keys uid)) }
{
    let mut before: Option<&ContentCopy> = None;
    for copy in copies.iter() {
        put_next(before, copy, uids)?;
        before = Some(copy);
    }
    Ok(())
}
