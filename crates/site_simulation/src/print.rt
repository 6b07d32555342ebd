//! The texts that a script prints.

ghost use Rattle.std.specs.Prelude.{◌≡◌, ◌++◌, ◌∷◌, [], OnOk};
ghost use Rattle.site_simulation.specs.Texts.{line, fault_line, site_line, taken_line, stamp_line};
ghost use Rattle.site_simulation.specs.Texts.{end_line, uid_lines, flagged_lines, same_line};
ghost use Rattle.site_simulation.specs.Texts.{world_fault_line, seen_lines, answer_line};
ghost use Rattle.site_simulation.specs.Texts.{answer_lines, rows_lines, bytes_of as bytes_of_body};
ghost use Rattle.site_simulation.specs.Texts.{sending_line, sending_lines, sent_lines};
ghost use Rattle.site_simulation.specs.Texts.{message_line, spaced_numbers, gave_line};

use archive_query::{Answer, Sending};
use bytes::Bytes;
use data_set::{Syntax, write};
use octets::{Octets, put_digits};
use operation::Stamp;
use site_state::Taken;
use site_world::{Seen, WorldFault};
use std::alloc::{AllocError, Global};

/// A line of these bytes.
pub fn put_line(out: &mut Vec<u8>, text: &[u8]) -> Result<(), AllocError>
    ensures { OnOk result (out.new.items ≡ out.old.items ++ line text.now) }
{
    out.extend_from_slice(text)?;
    out.push(b'\n')?;
    Ok(())
}

/// A refusal.
pub fn put_fault(
    alloc: Global,
    out: &mut Vec<u8>,
    whose: &[u8],
    number: u8,
) -> Result<(), AllocError>
    ensures { OnOk result (out.new.items ≡ out.old.items ++ fault_line whose.now number) }
{
    out.extend_from_slice(b"fault ")?;
    out.extend_from_slice(whose)?;
    out.push(b' ')?;
    put_digits(alloc, out, u64::from(number))?;
    out.push(b'\n')?;
    Ok(())
}

/// A site that was named.
pub fn put_site(
    alloc: Global,
    out: &mut Vec<u8>,
    name: &[u8],
    number: usize,
) -> Result<(), AllocError>
    ensures { OnOk result (out.new.items ≡ out.old.items ++ site_line name.now number) }
{
    out.extend_from_slice(b"site ")?;
    out.extend_from_slice(name)?;
    out.push(b' ')?;
    put_digits(alloc, out, number as u64)?;
    out.push(b'\n')?;
    Ok(())
}

/// How many lines came before.
fn put_end(alloc: Global, out: &mut Vec<u8>, count: usize) -> Result<(), AllocError>
    ensures { OnOk result (out.new.items ≡ out.old.items ++ end_line count) }
{
    out.extend_from_slice(b"end ")?;
    put_digits(alloc, out, count as u64)?;
    out.push(b'\n')?;
    Ok(())
}

/// UIDs, a line each.
fn put_uids(out: &mut Vec<u8>, uids: &[Octets]) -> Result<(), AllocError>
    ensures { OnOk result (out.new.items ≡ out.old.items ++ uid_lines uids.now) }
{
    for uid in uids {
        put_line(out, uid.as_slice())?;
    }
    Ok(())
}

/// The UIDs that are flagged.
pub fn put_flagged(alloc: Global, out: &mut Vec<u8>, uids: &[Octets]) -> Result<(), AllocError>
    ensures { OnOk result (out.new.items ≡ out.old.items ++ flagged_lines uids.now) }
{
    put_uids(out, uids)?;
    put_end(alloc, out, uids.len())
}

/// Whether two sites hold the same.
pub fn put_same(out: &mut Vec<u8>, same: bool) -> Result<(), AllocError>
    ensures { OnOk result (out.new.items ≡ out.old.items ++ same_line same) }
{
    if same {
        return put_line(out, b"equal");
    }
    put_line(out, b"unequal")
}

fn put_taken(out: &mut Vec<u8>, taken: Taken) -> Result<(), AllocError>
    ensures { OnOk result (out.new.items ≡ out.old.items ++ taken_line taken) }
{
    match taken {
        Taken::New => put_line(out, b"new"),
        Taken::Known => put_line(out, b"known"),
    }
}

fn put_stamp(alloc: Global, out: &mut Vec<u8>, stamp: Stamp) -> Result<(), AllocError>
    ensures { OnOk result (out.new.items ≡ out.old.items ++ stamp_line stamp) }
{
    out.extend_from_slice(b"stamp ")?;
    put_digits(alloc, out, stamp.counter)?;
    out.push(b' ')?;
    put_digits(alloc, out, u64::from(stamp.site))?;
    out.push(b'\n')?;
    Ok(())
}

fn put_world_fault(alloc: Global, out: &mut Vec<u8>, fault: WorldFault) -> Result<(), AllocError>
    ensures { OnOk result (out.new.items ≡ out.old.items ++ world_fault_line fault) }
{
    match fault {
        WorldFault::Site(fault) => put_fault(alloc, out, b"site", fault.number()),
        WorldFault::NoSite => put_fault(alloc, out, b"world", 1),
        WorldFault::NoMessage => put_fault(alloc, out, b"world", 2),
        WorldFault::StampsSpent => put_fault(alloc, out, b"world", 4),
        WorldFault::Memory => put_fault(alloc, out, b"world", 5),
        WorldFault::BadCorrection => put_fault(alloc, out, b"world", 6),
        WorldFault::OldSite => put_fault(alloc, out, b"world", 7),
    }
}

/// A row.
fn put_answer(alloc: Global, out: &mut Vec<u8>, row: &Answer) -> Result<(), AllocError>
    ensures { OnOk result (out.new.items ≡ out.old.items ++ answer_line row.now) }
{
    let set = row.to_set(alloc)?.to_implicit(alloc)?;
    let text = write(alloc, &set)?;
    let digits = hex::encode(alloc, text.as_slice())?;
    out.extend_from_slice(b"answer ")?;
    put_line(out, digits.as_bytes())
}

/// Rows, a line each.
fn put_answers(alloc: Global, out: &mut Vec<u8>, rows: &[Answer]) -> Result<(), AllocError>
    ensures { OnOk result (out.new.items ≡ out.old.items ++ answer_lines rows.now) }
{
    for row in rows {
        put_answer(alloc, out, row)?;
    }
    Ok(())
}

/// The rows that answer a query.
fn put_rows(alloc: Global, out: &mut Vec<u8>, rows: &[Answer]) -> Result<(), AllocError>
    ensures { OnOk result (out.new.items ≡ out.old.items ++ rows_lines rows.now) }
{
    put_answers(alloc, out, rows)?;
    put_end(alloc, out, rows.len())
}

/// The bytes of a data set that is sent, and none where there is no data set.
fn bytes_of(body: &Option<(Syntax, Bytes)>) -> &[u8]
    ensures { result.now ≡ bytes_of_body body.now }
{
    match body {
        None => &[],
        Some((_syntax, text)) => text.as_slice(),
    }
}

/// An instance that is sent.
fn put_sending(alloc: Global, out: &mut Vec<u8>, sending: &Sending) -> Result<(), AllocError>
    ensures { OnOk result (out.new.items ≡ out.old.items ++ sending_line sending.now) }
{
    let digits = hex::encode(alloc, bytes_of(&sending.body))?;
    out.extend_from_slice(b"answer ")?;
    put_line(out, digits.as_bytes())
}

/// Instances that are sent, a line each.
fn put_sendings(alloc: Global, out: &mut Vec<u8>, sendings: &[Sending]) -> Result<(), AllocError>
    ensures { OnOk result (out.new.items ≡ out.old.items ++ sending_lines sendings.now) }
{
    for sending in sendings {
        put_sending(alloc, out, sending)?;
    }
    Ok(())
}

/// What is sent of a selection.
fn put_sent(alloc: Global, out: &mut Vec<u8>, sendings: &[Sending]) -> Result<(), AllocError>
    ensures { OnOk result (out.new.items ≡ out.old.items ++ sent_lines sendings.now) }
{
    put_sendings(alloc, out, sendings)?;
    put_end(alloc, out, sendings.len())
}

/// A message that was sent, by a word and its number.
fn put_message(alloc: Global, out: &mut Vec<u8>, word: &[u8], number: u64) -> Result<(), AllocError>
    ensures { OnOk result (out.new.items ≡ out.old.items ++ message_line word.now number) }
{
    out.extend_from_slice(word)?;
    out.push(b' ')?;
    put_digits(alloc, out, number)?;
    out.push(b'\n')?;
    Ok(())
}

/// Numbers, each behind a space.
fn put_numbers(alloc: Global, out: &mut Vec<u8>, numbers: &[u64]) -> Result<(), AllocError>
    ensures { OnOk result (out.new.items ≡ out.old.items ++ spaced_numbers numbers.now) }
{
    for number in numbers {
        out.push(b' ')?;
        put_digits(alloc, out, *number)?;
    }
    Ok(())
}

/// The messages that give what was wanted, if any.
fn put_gave(alloc: Global, out: &mut Vec<u8>, numbers: &[u64]) -> Result<(), AllocError>
    ensures { OnOk result (out.new.items ≡ out.old.items ++ gave_line numbers.now) }
{
    if numbers.is_empty() {
        return put_line(out, b"give none");
    }
    out.extend_from_slice(b"give")?;
    put_numbers(alloc, out, numbers)?;
    out.push(b'\n')?;
    Ok(())
}

/// What is seen of a step.
pub fn put_seen(
    alloc: Global,
    out: &mut Vec<u8>,
    seen: &Result<Seen, WorldFault>,
) -> Result<(), AllocError>
    ensures { OnOk result (out.new.items ≡ out.old.items ++ seen_lines seen.now) }
{
    match seen {
        Ok(Seen::Took(taken)) => put_taken(out, *taken),
        Ok(Seen::Stamped(stamp)) => put_stamp(alloc, out, *stamp),
        Ok(Seen::Offered(number)) => put_message(alloc, out, b"sent", *number),
        Ok(Seen::Wanted(number)) => put_message(alloc, out, b"want", *number),
        Ok(Seen::Gave(numbers)) => put_gave(alloc, out, numbers.as_slice()),
        Ok(Seen::Differs(number)) => put_message(alloc, out, b"differ", *number),
        Ok(Seen::Has(number)) => put_message(alloc, out, b"have", *number),
        Ok(Seen::Aged) => put_line(out, b"old"),
        Ok(Seen::Rows(rows)) => put_rows(alloc, out, rows.as_slice()),
        Ok(Seen::Sent(sendings)) => put_sent(alloc, out, sendings.as_slice()),
        Err(fault) => put_world_fault(alloc, out, *fault),
    }
}
