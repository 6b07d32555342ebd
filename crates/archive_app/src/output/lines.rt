//! The lines that commands print on standard output.

ghost use Rattle.std.specs.Prelude.{◌≡◌, ◌++◌, ◌∷◌, [], OnOk, IfOk};
ghost use Rattle.std.specs.List.{flat_map};
ghost use Rattle.hex.specs.Hex.{encode_lower};
ghost use Rattle.site_simulation.specs.Texts.{line, end_line, message_line, stamp_line};
ghost use Rattle.archive_app.specs.Lines.{count_lines, exchange_lines, finished_line, flagged_line, move_lines};
ghost use Rattle.archive_app.specs.Lines.{report_lines};
ghost use Rattle.archive_app.specs.Lines.{fingerprint_line, fingerprint_lines, unread_lines};

use exchange::Ended;
use octets::{Octets, put_digits};
use operation::{Digest, Stamp};
use shelved_site::{Moved, Report};
use std::alloc::{AllocError, Global};

/// A line of a word and a number.
pub(crate) fn put_count(
    alloc: Global,
    out: &mut Vec<u8>,
    word: &[u8],
    number: u64,
) -> Result<(), AllocError>
    ensures { OnOk result (out.new.items ≡ out.old.items ++ message_line word.now number) }
{
    out.extend_from_slice(word)?;
    out.push(b' ')?;
    put_digits(alloc, out, number)?;
    out.push(b'\n')?;
    Ok(())
}

fn put_counts(alloc: Global, out: &mut Vec<u8>, report: &Report) -> Result<(), AllocError>
    ensures { OnOk result (out.new.items ≡ out.old.items ++ count_lines report.now) }
{
    put_count(alloc, out, b"operations", report.counts.operations as u64)?;
    put_count(alloc, out, b"contents", report.counts.contents as u64)?;
    put_count(alloc, out, b"corrections", report.counts.corrections as u64)?;
    put_count(alloc, out, b"series", report.series)
}

fn put_flagged(out: &mut Vec<u8>, uid: &[u8]) -> Result<(), AllocError>
    ensures { OnOk result (out.new.items ≡ out.old.items ++ flagged_line uid.now) }
{
    out.extend_from_slice(b"flagged ")?;
    out.extend_from_slice(uid)?;
    out.push(b'\n')?;
    Ok(())
}

fn put_all_flagged(out: &mut Vec<u8>, uids: &[Octets]) -> Result<(), AllocError>
    ensures { OnOk result (out.new.items ≡ out.old.items ++ flat_map flagged_line uids.now) }
{
    for uid in uids {
        put_flagged(out, uid.as_slice())?;
    }
    Ok(())
}

/// A digest in hexadecimal digits.
fn hex_digits(alloc: Global, digest: &Digest) -> Result<Octets, AllocError>
    ensures { IfOk result (λ text. text ≡ encode_lower digest.now) }
{
    let text = digest.text(alloc)?;
    Octets::from_slice(alloc, text.as_bytes())
}

/// A line of a word and a text.
fn put_text(out: &mut Vec<u8>, word: &[u8], text: &[u8]) -> Result<(), AllocError>
    ensures { OnOk result (out.new.items ≡ out.old.items ++ line (word.now ++ 32 ∷ text.now)) }
{
    out.extend_from_slice(word)?;
    out.push(b' ')?;
    out.extend_from_slice(text)?;
    out.push(b'\n')?;
    Ok(())
}

fn put_fingerprint(alloc: Global, out: &mut Vec<u8>, fingerprint: &Digest) -> Result<(), AllocError>
    ensures { OnOk result (out.new.items ≡ out.old.items ++ fingerprint_line fingerprint.now) }
{
    let digits = hex_digits(alloc, fingerprint)?;
    put_text(out, b"fingerprint", digits.as_slice())
}

fn put_fingerprint_if(
    alloc: Global,
    out: &mut Vec<u8>,
    is_asked_for: bool,
    fingerprint: &Digest,
) -> Result<(), AllocError>
    ensures { OnOk result (out.new.items ≡ out.old.items
        ++ fingerprint_lines is_asked_for fingerprint.now) }
{
    if !is_asked_for {
        return Ok(());
    }
    put_fingerprint(alloc, out, fingerprint)
}

/// The lines of a report: how many operations there are of each kind, the fingerprint where it is
/// asked for, each flagged UID, and how many of these there are.
pub fn lines_of(
    alloc: Global,
    report: &Report,
    is_fingerprinted: bool,
) -> Result<Vec<u8>, AllocError>
    ensures { IfOk result (λ text. text.items ≡ report_lines report.now is_fingerprinted) }
{
    let mut out = Vec::new(alloc);
    put_counts(alloc, &mut out, report)?;
    put_fingerprint_if(alloc, &mut out, is_fingerprinted, &report.fingerprint)?;
    put_all_flagged(&mut out, report.flagged.as_slice())?;
    put_count(alloc, &mut out, b"end", report.flagged.len() as u64)?;
    Ok(out)
}

/// The line of a stamp.
pub fn line_of_stamp(alloc: Global, stamp: Stamp) -> Result<Vec<u8>, AllocError>
    ensures { IfOk result (λ text. text.items ≡ stamp_line stamp) }
{
    let mut out = Vec::new(alloc);
    out.extend_from_slice(b"stamp ")?;
    put_digits(alloc, &mut out, stamp.counter)?;
    out.push(b' ')?;
    put_digits(alloc, &mut out, u64::from(stamp.site))?;
    out.push(b'\n')?;
    Ok(out)
}

fn put_finished(out: &mut Vec<u8>, finished: bool) -> Result<(), AllocError>
    ensures { OnOk result (out.new.items ≡ out.old.items ++ finished_line finished) }
{
    if finished {
        return out.extend_from_slice(b"finished yes\n");
    }
    out.extend_from_slice(b"finished no\n")
}

/// How many operations could not be read, where there are some.
fn put_unread(alloc: Global, out: &mut Vec<u8>, unread: u64) -> Result<(), AllocError>
    ensures { OnOk result (out.new.items ≡ out.old.items ++ unread_lines unread) }
{
    if unread == 0 {
        return Ok(());
    }
    put_count(alloc, out, b"unread", unread)
}

/// The lines of an exchange: how many operations were given, how many taken that were new, how many
/// that the peer asked for could not be read, and whether all were given that were asked for.
pub fn lines_of_exchange(alloc: Global, ended: Ended) -> Result<Vec<u8>, AllocError>
    ensures { IfOk result (λ text. text.items ≡ exchange_lines ended) }
{
    let mut out = Vec::new(alloc);
    put_count(alloc, &mut out, b"given", ended.given)?;
    put_count(alloc, &mut out, b"taken", ended.taken)?;
    put_unread(alloc, &mut out, ended.unread)?;
    put_finished(&mut out, ended.finished)?;
    Ok(out)
}

/// The lines of a move: how many operations there were, and how many of them were new.
pub fn lines_of_move(alloc: Global, moved: Moved) -> Result<Vec<u8>, AllocError>
    ensures { IfOk result (λ text. text.items ≡ move_lines moved) }
{
    let mut out = Vec::new(alloc);
    put_count(alloc, &mut out, b"operations", moved.operations)?;
    put_count(alloc, &mut out, b"new", moved.new)?;
    Ok(out)
}
