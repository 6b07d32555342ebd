//! What a site says: the first WALK, and the answer to one that it heard.

ghost use Rattle.std.specs.Prelude.{◌≡◌, ◌≤◌, ◌+◌, ◌++◌, take, length, IfOk, IsTrue, OnOk};
ghost use Rattle.walk_frames.specs.declared.walk.TheConstants.{MOST_ENTRIES};
ghost use Rattle.walk_frames.specs.Walks.{stand_apart};
ghost use Rattle.exchange_tree.specs.Sums.{AreKept};
ghost use Rattle.exchange_walk.specs.Answers.{answers_to, all_answers, answer_of, is_full, root_of};

use crate::answers::Answer;
use crate::summed::Summed;
use exchange_frames::Digests;
use exchange_tree::KeptSums;
use std::alloc::{AllocError, Global};
use walk_frames::{Entry, MOST_DIGITS, MOST_ENTRIES, Node, Walk};

/// Puts the entries that answer one that was heard behind others, up to one more than a walk has.
fn put_answers(
    alloc: Global,
    site: &Summed,
    heard: &Entry,
    entries: &mut Vec<Entry>,
) -> Result<(), AllocError>
    requires { length entries.old.items ≤ MOST_ENTRIES }
    ensures { OnOk result (entries.new.items
        ≡ take (MOST_ENTRIES + 1) (entries.old.items ++ answers_to site.now heard.now)) }
{
    let Some(theirs) = heard.sums() else {
        return Ok(());
    };
    let node = heard.node();
    if node.digits().len() >= MOST_DIGITS {
        return Ok(());
    }
    let digits = site.differing(alloc, node, theirs)?;
    for digit in digits.as_slice() {
        if entries.len() > MOST_ENTRIES {
            return Ok(());
        }
        entries.push(site.entry_of(alloc, node.child(alloc, *digit)?)?)?;
    }
    Ok(())
}

/// The walk of entries that stand apart.
fn walk_of(entries: Vec<Entry>) -> Walk
    requires short { length entries.items ≤ MOST_ENTRIES }
    requires apart { IsTrue (stand_apart entries.items) }
    ensures { result ≡ entries.items }
{
    match Walk::of(entries) {
        Ok(walk) => walk,
        Err(_) => unreachable!(),
    }
}

/// The answers to some entries that were heard, up to one more than a walk has.
fn answers(alloc: Global, site: &Summed, heard: &[Entry]) -> Result<Vec<Entry>, AllocError>
    ensures { IfOk result (λ entries.
        entries.items ≡ take (MOST_ENTRIES + 1) (all_answers site.now heard.now)) }
{
    let mut entries = Vec::new(alloc);
    for entry in heard {
        if entries.len() > MOST_ENTRIES {
            return Ok(entries);
        }
        put_answers(alloc, site, entry, &mut entries)?;
    }
    Ok(entries)
}

/// The answer of a site that holds these digests, which ascend, each once, and whose kept sums
/// these are, to a WALK that it heard: for each child of a split's node whose own sum is another
/// than the told one, in ascending order, an entry. It is a place where at most 16 digests are held
/// beneath the child, or where that has 63 digits; else a split, with the sums of its own children.
///
/// A split of 63 digits, which no site says, has no answer. The answer has at most 4,096 entries:
/// those beyond are left out, and it says so. No digest is looked at but those that are hashed, and
/// those by which ranges are found. The one error is want of memory.
pub fn answer(
    alloc: Global,
    kept: &KeptSums,
    digests: &Digests,
    heard: &Walk,
) -> Result<Answer, AllocError>
    requires { AreKept kept.now digests.now }
    ensures walk { IfOk result (λ answer. answer.walk ≡ answer_of digests.now heard.now) }
    ensures full { IfOk result (λ answer. answer.is_full ≡ is_full digests.now heard.now) }
{
    let site = Summed::of(kept, digests);
    let mut entries = answers(alloc, &site, heard.entries())?;
    let is_full = entries.len() > MOST_ENTRIES;
    entries.truncate(MOST_ENTRIES);
    Ok(Answer {
        walk: walk_of(entries),
        is_full,
    })
}

/// The first WALK of a caller that holds these digests, which ascend, each once, and whose kept
/// sums these are: one split, of the root. The one error is want of memory.
pub fn root(alloc: Global, kept: &KeptSums, digests: &Digests) -> Result<Walk, AllocError>
    requires { AreKept kept.now digests.now }
    ensures { IfOk result (λ walk. walk ≡ root_of digests.now) }
{
    let node = Node::root(alloc);
    let sums = Summed::of(kept, digests).sums_of(alloc, &node)?;
    let mut entries = Vec::new(alloc);
    entries.push(Entry::split(node, sums))?;
    Ok(walk_of(entries))
}
