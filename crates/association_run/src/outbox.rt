//! What is to be written, in one buffer for one association after another.

ghost use Rattle.std.specs.Prelude.{◌≡◌, ◌≤◌, ℕ, List, [], length, IfOk, OnOk, OnErr};
ghost use Rattle.std.specs.List.{flat_map};
ghost use Rattle.std.specs.Io.KnownBytes.{Appends};
ghost use Rattle.pdu.specs.declared.header.TheConstants.{LONGEST_BODY};
ghost use Rattle.pdu.specs.declared.value.Pdu.TheVariants.{PData};
ghost use Rattle.pdu.specs.Spelling.{IsPdu, pdv_text, text_of};
ghost use Rattle.association_run.specs.Fault.{CountedWhere};
ghost use Rattle.association_run.specs.inner.Faults.{fails_write};
ghost use Rattle.association_run.specs.inner.Outbox.{Puts, PutsFront};

use crate::fault::WriteFault;
use devices::{Sink, put_all};
use pdu::{Pdu, Pdv, head_of_data, head_of_pdv, write_pdu};
use std::alloc::{AllocError, Global};
use std::marker::Model;

/// The most bytes that are held back: the longest PDU that is sent, a header of 6 bytes and a body
/// of 65,536 (PS3.8, section 9.3.5).
const ROOM: usize = 65_542;

/// The bytes of PDUs that are still to be written, at most 65,542, so that the longest is one
/// write. The PDUs that are sent together are written by as few writes as the room allows.
/// Contracts see the bytes.
#[derive(Drop)]
pub struct Outbox {
    bytes: Vec<u8>,
}

impl Model for Outbox {
    ghost use Rattle.std.specs.Prelude.{List, ℕ, ◌≤◌, length};
    ghost use Rattle.association_run.specs.declared.outbox.TheConstants.{ROOM};

    ghost Value = { List ℕ };

    ghost view = { λ o. o.bytes.items };

    ghost invariant = { λ o. length o.bytes.items ≤ ROOM };
}

/// Writes the whole of some bytes.
fn write<W: Sink>(writer: &mut W, bytes: &[u8]) -> Result<(), WriteFault>
    ensures ok { OnOk result (Appends (W.contents writer.old) (W.contents writer.new) bytes.now) }
    ensures err { OnErr result (PutsFront (W.contents writer.old) [] (W.contents writer.new)
        bytes.now) }
    ensures write { CountedWhere (fails_write result) (W.failures writer.old)
        (W.failures writer.new) }
{
    match put_all(writer, bytes) {
        Ok(()) => Ok(()),
        Err(_failed) => Err(WriteFault::Write),
    }
}

impl Outbox {
    /// Nothing is held. All the room is made here, for as many associations as are served with it.
    pub fn new(alloc: Global) -> Result<Outbox, AllocError>
        ensures none { IfOk result (λ outbox. outbox ≡ []) }
    {
        Ok(Outbox {
            bytes: Vec::with_capacity(alloc, ROOM)?,
        })
    }

    /// Drops what is held.
    pub(crate) fn clear(&mut self)
        ensures { self.new ≡ [] }
    {
        self.bytes.clear();
    }

    /// Writes what is held.
    pub(crate) fn flush<W: Sink>(&mut self, writer: &mut W) -> Result<(), WriteFault>
        ensures ok { OnOk result (Appends (W.contents writer.old) (W.contents writer.new)
            self.old) }
        ensures empty { OnOk result (self.new ≡ []) }
        ensures err { OnErr result (PutsFront (W.contents writer.old) self.old
            (W.contents writer.new) []) }
        ensures write { CountedWhere (fails_write result) (W.failures writer.old)
            (W.failures writer.new) }
    {
        write(writer, self.bytes.as_slice())?;
        self.bytes.clear();
        Ok(())
    }

    /// Holds some bytes behind the others. What has no room is written; bytes for which even the
    /// empty buffer has none are written from the place where they are.
    fn put<W: Sink>(&mut self, writer: &mut W, bytes: &[u8]) -> Result<(), WriteFault>
        ensures ok { OnOk result (Puts (W.contents writer.old) self.old (W.contents writer.new)
            self.new bytes.now) }
        ensures err { OnErr result (PutsFront (W.contents writer.old) self.old
            (W.contents writer.new) bytes.now) }
        ensures write { CountedWhere (fails_write result) (W.failures writer.old)
            (W.failures writer.new) }
    {
        if bytes.len() <= ROOM - self.bytes.len() {
            self.bytes.extend_from_slice(bytes)?;
            return Ok(());
        }
        self.flush(writer)?;
        if bytes.len() <= ROOM {
            self.bytes.extend_from_slice(bytes)?;
            return Ok(());
        }
        write(writer, bytes)
    }

    fn put_pdv<W: Sink>(&mut self, writer: &mut W, value: &Pdv) -> Result<(), WriteFault>
        requires { length (pdv_text value.now) ≤ LONGEST_BODY }
        ensures ok { OnOk result (Puts (W.contents writer.old) self.old (W.contents writer.new)
            self.new (pdv_text value.now)) }
        ensures err { OnErr result (PutsFront (W.contents writer.old) self.old
            (W.contents writer.new) (pdv_text value.now)) }
        ensures write { CountedWhere (fails_write result) (W.failures writer.old)
            (W.failures writer.new) }
    {
        self.put(writer, &head_of_pdv(value))?;
        self.put(writer, value.fragment.as_slice())
    }

    fn put_data<W: Sink>(&mut self, writer: &mut W, values: &[Pdv]) -> Result<(), WriteFault>
        requires { length (flat_map pdv_text values.now) ≤ LONGEST_BODY }
        ensures ok { OnOk result (Puts (W.contents writer.old) self.old (W.contents writer.new)
            self.new (text_of (PData values.now))) }
        ensures err { OnErr result (PutsFront (W.contents writer.old) self.old
            (W.contents writer.new) (text_of (PData values.now))) }
        ensures write { CountedWhere (fails_write result) (W.failures writer.old)
            (W.failures writer.new) }
    {
        self.put(writer, &head_of_data(values))?;
        for value in values {
            self.put_pdv(writer, value)?;
        }
        Ok(())
    }

    /// Holds a PDU behind what is held.
    pub(crate) fn put_pdu<W: Sink>(
        &mut self,
        alloc: Global,
        writer: &mut W,
        pdu: &Pdu,
    ) -> Result<(), WriteFault>
        requires { IsPdu pdu.now }
        ensures ok { OnOk result (Puts (W.contents writer.old) self.old (W.contents writer.new)
            self.new (text_of pdu.now)) }
        ensures err { OnErr result (PutsFront (W.contents writer.old) self.old
            (W.contents writer.new) (text_of pdu.now)) }
        ensures write { CountedWhere (fails_write result) (W.failures writer.old)
            (W.failures writer.new) }
    {
        if let Pdu::PData(values) = pdu {
            return self.put_data(writer, values.as_slice());
        }
        let text = write_pdu(alloc, pdu)?;
        self.put(writer, text.as_slice())
    }
}
