//! The PDU that is being read (PS3.8, section 9.3).

ghost use Rattle.std.specs.Prelude.{◌≡◌, ◌<◌, ◌≤◌, ◌+◌, ◌^◌, ◌++◌, ℕ, List, Option, [], length, take, drop, IfOk};
ghost use Rattle.std.specs.Prelude.{OnErr};
ghost use Rattle.std.specs.Io.KnownBytes.{Consumes, IsAtEnd, Keeps};
ghost use Rattle.devices.specs.Failures.{Counts};
ghost use Rattle.association_run.specs.Fault.{CountedWhere};
ghost use Rattle.association_run.specs.inner.Faults.{fails_read};
ghost use Rattle.association_run.specs.inner.Inbox.{EMPTY, ReadsOn, Takes, IsBodyWanted, Finds, IsPieceIn};
ghost use Rattle.pdu.specs.Grammar.{size_of, HasLawfulHeader};
ghost use Rattle.pdu.specs.declared.header.TheConstants.{HEADER_LENGTH};

use crate::fault::ReadFault;
use crate::piece::Piece;
use bytes::Bytes;
use devices::{DeviceFault, Source};
use pdu::{HEADER_LENGTH, PduFault, Step, read_pdu, read_shared};
use std::alloc::{AllocError, Global};
use std::marker::Model;
use std::mem;

/// The bytes of the PDU that is being read, and no byte behind it.
///
/// They are read to the place in which they stay: the fragments of a P-DATA-TF share them.
#[derive(Drop)]
pub(crate) struct Inbox {
    alloc: Global,
    bytes: Vec<u8>,
    /// How many of the bytes were read.
    filled: usize,
    /// How many are wanted: those of the header, and then those of the PDU.
    wanted: usize,
}

impl Model for Inbox {
    ghost use Rattle.std.specs.Prelude.{◌≤◌, take, length};
    ghost use Rattle.association_run.specs.inner.Inbox.{InHand, Wants};

    ghost Value = { InHand };

    ghost view = { λ i. record { text = take i.filled i.bytes.items; wanted = i.wanted } };

    ghost invariant = { λ i. (i.filled ≤ length i.bytes.items) × (length i.bytes.items ≤ i.wanted)
        × Wants (record { text = take i.filled i.bytes.items; wanted = i.wanted }) };
}

/// Reads once to the place behind the first `filled` bytes, at most `most` bytes.
fn read_behind<R: Source>(
    reader: &mut R,
    bytes: &mut Vec<u8>,
    filled: usize,
    most: usize,
) -> Result<usize, DeviceFault>
    requires room { filled < length bytes.old.items }
    requires some { 0 < most }
    ensures front { take filled bytes.new.items ≡ take filled bytes.old.items }
    ensures long { length bytes.new.items ≡ length bytes.old.items }
    ensures count { IfOk result (λ count. (count ≤ most) ×
        (filled + count ≤ length bytes.old.items)) }
    ensures read { IfOk result (λ count. Consumes (R.remaining reader.old)
        (R.remaining reader.new) (take count (drop filled bytes.new.items))) }
    ensures end { IfOk result (λ count. count ≡ 0 → IsAtEnd (R.remaining reader.new)) }
    ensures kept { OnErr result (Keeps (R.remaining reader.old) (R.remaining reader.new)) }
    ensures failed { Counts (R.failures reader.old) (R.failures reader.new) result }
{
    let end = filled + most.min(bytes.len() - filled);
    reader.read(&mut bytes.as_mut_slice()[filled..end])
}

/// The length of a body, in its header.
fn body_length(header: &[u8]) -> usize
    requires { HEADER_LENGTH ≤ length header.now }
    ensures value { result ≡ size_of header.now }
    ensures small { result < 2 ^ 32 }
{
    u32::from_be_bytes([header[2], header[3], header[4], header[5]]) as usize
}

/// What reading `size` bytes comes to.
fn piece_of(step: Result<Step, PduFault>, size: usize) -> Result<Option<Piece>, AllocError>
    ensures { IfOk result (IsPieceIn step size) }
{
    match step {
        Ok(Step::Need) => Ok(None),
        Ok(Step::Done(pdu, size)) => Ok(Some(Piece::Whole(pdu, size))),
        Err(PduFault::Memory) => Err(AllocError),
        Err(fault) => Ok(Some(Piece::Faulty(fault, size))),
    }
}

/// What a header tells.
fn header_piece(alloc: Global, header: &[u8]) -> Result<Option<Piece>, AllocError>
    requires { length header.now ≡ HEADER_LENGTH }
    ensures { IfOk result (Finds header.now) }
{
    piece_of(read_pdu(alloc, header), header.len())
}

/// What a whole PDU tells. Its bytes are shared, and not copied.
fn whole_piece(alloc: Global, bytes: Vec<u8>) -> Result<Option<Piece>, AllocError>
    requires lawful { HasLawfulHeader bytes.items }
    requires whole { length bytes.items ≡ size_of bytes.items + HEADER_LENGTH }
    ensures { IfOk result (Finds bytes.items) }
{
    let size = bytes.len();
    let bytes = Bytes::from_vec(bytes)?;
    piece_of(read_shared(alloc, &bytes), size)
}

impl Inbox {
    /// Nothing was read. It takes no memory.
    pub(crate) fn new(alloc: Global) -> Inbox
        ensures { result ≡ EMPTY }
    {
        Inbox {
            alloc,
            bytes: Vec::new(alloc),
            filled: 0,
            wanted: HEADER_LENGTH,
        }
    }

    /// How many bytes are in hand.
    pub(crate) fn len(&self) -> usize
        ensures { result ≡ length self.now.text }
    {
        self.filled
    }

    /// Reads once: at most `most` bytes, and none behind the PDU.
    pub(crate) fn read_on<R: Source>(
        &mut self,
        reader: &mut R,
        most: usize,
    ) -> Result<usize, ReadFault>
        requires wanted { length self.old.text < self.old.wanted }
        requires some { 0 < most }
        ensures read { IfOk result (λ count. ReadsOn (R.remaining reader.old)
            (R.remaining reader.new) self.old most count self.new) }
        ensures kept { OnErr result (Keeps (R.remaining reader.old) (R.remaining reader.new)) }
        ensures failed { CountedWhere (fails_read result) (R.failures reader.old)
            (R.failures reader.new) }
    {
        self.bytes.resize(self.wanted, 0)?;
        let count = read_behind(reader, &mut self.bytes, self.filled, most)?;
        self.filled += count;
        Ok(count)
    }

    /// Takes the piece in hand, once it is whole.
    ///
    /// A faulty header is one as soon as its six bytes are there.
    pub(crate) fn take(&mut self) -> Result<Option<Piece>, AllocError>
        ensures { IfOk result (λ piece. Takes self.old piece self.new) }
    {
        if self.filled < self.wanted {
            return Ok(None);
        }
        if self.wanted == HEADER_LENGTH {
            return self.take_header();
        }
        self.take_whole()
    }

    /// Takes what six bytes tell, and else says how many are wanted.
    fn take_header(&mut self) -> Result<Option<Piece>, AllocError>
        requires whole { length self.old.text ≡ self.old.wanted }
        requires header { self.old.wanted ≡ HEADER_LENGTH }
        ensures { IfOk result (λ piece. Takes self.old piece self.new) }
    {
        let piece = header_piece(self.alloc, self.bytes.as_slice())?;
        if piece.is_some() {
            *self = Inbox::new(self.alloc);
        } else {
            self.wanted = HEADER_LENGTH + body_length(self.bytes.as_slice());
        }
        Ok(piece)
    }

    /// Takes a whole PDU.
    fn take_whole(&mut self) -> Result<Option<Piece>, AllocError>
        requires whole { length self.old.text ≡ self.old.wanted }
        requires lawful { IsBodyWanted self.old }
        ensures { IfOk result (λ piece. Takes self.old piece self.new) }
    {
        let bytes = mem::replace(&mut self.bytes, Vec::new(self.alloc));
        *self = Inbox::new(self.alloc);
        whole_piece(self.alloc, bytes)
    }
}
