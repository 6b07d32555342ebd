//! What a command says of operations that can't be read.

ghost use Rattle.std.specs.Prelude.{◌≡◌, ◌++◌, OnOk, IfOk};
ghost use Rattle.archive_app.specs.Unread.{hiding_words, place_words, unread_words};

use crate::output::verified::or_hyphen;
use octets::put_digits;
use shelved_site::Unreadable;
use std::alloc::{AllocError, Global};

/// Where its data set lies, where that is known.
fn put_place(alloc: Global, out: &mut Vec<u8>, place: Option<usize>) -> Result<(), AllocError>
    ensures { OnOk result (out.new.items ≡ out.old.items ++ place_words place) }
{
    let Some(place) = place else {
        return Ok(());
    };
    out.extend_from_slice(b", byte ")?;
    put_digits(alloc, out, place as u64)?;
    out.extend_from_slice(b" of bodies")
}

/// Whether it may be a rejection note.
fn put_hiding(out: &mut Vec<u8>, may_hide: bool) -> Result<(), AllocError>
    ensures { OnOk result (out.new.items ≡ out.old.items ++ hiding_words may_hide) }
{
    if may_hide {
        return out.extend_from_slice(b", may be a rejection note");
    }
    Ok(())
}

/// An operation that can't be read, in words: what is known of it.
pub fn words_of_unread(alloc: Global, unread: &Unreadable) -> Result<Vec<u8>, AllocError>
    ensures { IfOk result (λ text. text.items ≡ unread_words unread.now) }
{
    let mut out = Vec::new(alloc);
    out.extend_from_slice(b"can't be read: SOP Instance UID ")?;
    out.extend_from_slice(or_hyphen(unread.damaged.instance.as_slice()))?;
    out.extend_from_slice(b", digest ")?;
    out.extend_from_slice(or_hyphen(unread.damaged.digest.as_slice()))?;
    put_place(alloc, &mut out, unread.place)?;
    put_hiding(&mut out, unread.may_hide)?;
    Ok(out)
}
