//! What a content adds to an index.
ghost use Rattle.std.specs.Prelude.{◌≡◌, OnOk, OnErr};
ghost use Rattle.operation.specs.declared.op.Op.TheVariants.{Content as a_content};
ghost use Rattle.join_laws.specs.GrowSet.{union_of};
ghost use Rattle.study_index.specs.Live.{picks_joined};
ghost use Rattle.study_index.specs.Index.{index_of, copy_cmp};

use crate::entries::ContentCopy;
use crate::live_picks::LivePicks;
use crate::pick::Pick;
use crate::short_text::ShortText;
use join_laws::{GrowSet, Join, Undoes};
use records::RecordedContent;
use std::alloc::AllocError;

/// Takes in the copy and the pick of a content. What can be taken back goes first, and the live
/// list, which cannot, goes last.
pub fn add_content(
    copies: &mut GrowSet<ContentCopy>,
    live: &mut LivePicks,
    content: &RecordedContent,
) -> Result<(), AllocError>
    ensures copies { OnOk result (copies.new ≡
        union_of copy_cmp copies.old (index_of (a_content content.now)).copies) }
    ensures picks { OnOk result (live.new ≡
        picks_joined live.old (index_of (a_content content.now)).picks) }
    ensures copies_kept { OnErr result (copies.new ≡ copies.old) }
    ensures picks_kept { OnErr result (live.new ≡ live.old) }
{
    let copy = ContentCopy::of(content)?;
    let pick = Pick::of(content)?;
    copies.held();
    let undo = copies.add_with_undo(&copy)?;
    if let Err(refused) = live.add(ShortText::whole(content.instance()), pick) {
        copies.undo(&copy, undo);
        return Err(refused);
    }
    Ok(())
}
