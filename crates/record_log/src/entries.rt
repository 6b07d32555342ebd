//! Entries: the texts of records, each behind its length.

ghost use Rattle.std.specs.Prelude.{◌≡◌, ◌≢◌, ◌++◌, ◌∷◌, [], ◌<◌, ◌^◌, List, ℕ, None, length, IfSome, OnOk};
ghost use Rattle.record_log.specs.Entries.{AreEachTold, entries_text, with_length, without_notes};

use records::RecordedContent;
use std::alloc::AllocError;

/// How long a text is.
fn length_of(text: &[u8]) -> usize
    ensures same { result ≡ length text.now }
    ensures fits { result < 2 ^ 64 }
{
    text.len()
}

/// Writes a text behind its length, and both behind other bytes.
#[tactic(auto, unfolding(crate::specs::Entries::with_length))]
fn put_text(out: &mut Vec<u8>, text: &[u8]) -> Result<(), AllocError>
    ensures text { OnOk result (out.new.items ≡ out.old.items ++ with_length text.now) }
    ensures short { OnOk result (length text.now < 2 ^ 64) }
{
    let size = length_of(text) as u64;
    out.extend_from_slice(&size.to_be_bytes())?;
    out.extend_from_slice(text)
}

/// Writes the entry of a content behind others; that of a rejection note is left out. What another
/// vector has is written over, so that each entry does not take one.
#[tactic(auto, unfolding(crate::specs::Entries::entries_text))]
pub(crate) fn put_entry(
    out: &mut Vec<u8>,
    scratch: &mut Vec<u8>,
    content: &RecordedContent,
) -> Result<(), AllocError>
    ensures text { OnOk result
        (out.new.items ≡ out.old.items ++ entries_text (without_notes (content.now ∷ []))) }
    ensures told { OnOk result (AreEachTold (without_notes (content.now ∷ []))) }
{
    if content.note().is_some() {
        return Ok(());
    }
    content.see_recorded();
    scratch.clear();
    content.encode(scratch)?;
    put_text(out, scratch.as_slice())
}

/// The text of the entry at the front of others, and what stands behind it; `None` where no whole
/// entry stands there.
#[tactic(auto, unfolding(crate::specs::Entries::with_length))]
pub(crate) fn first_entry(text: &[u8]) -> Option<(&[u8], &[u8])>
    ensures parts { IfSome result (λ x. text.now ≡ with_length x.0.now ++ x.1.now) }
    ensures short { IfSome result (λ x. length x.0.now < 2 ^ 64) }
    ensures shorter { IfSome result (λ x. length x.1.now < length text.now) }
    ensures none { (entry rest : List ℕ) → length entry < 2 ^ 64
        → text.now ≡ with_length entry ++ rest → result ≢ None }
{
    match text {
        [a, b, c, d, e, f, g, h, rest @ ..] => {
            let size = u64::from_be_bytes([*a, *b, *c, *d, *e, *f, *g, *h]) as usize;
            if rest.len() < size {
                return None;
            }
            let (entry, behind) = rest.split_at(size);
            Some((entry, behind))
        }
        _ => None,
    }
}
