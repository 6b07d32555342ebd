//! Writing frames to a device.

ghost use Rattle.std.specs.Prelude.{◌≡◌, ◌∷◌, [], IfErr, IsErrOf, OnOk, OnErr, ◌++◌};
ghost use Rattle.std.specs.Io.KnownBytes.{Appends};
ghost use Rattle.operation.specs.declared.op.Op.{Op as Operation};
ghost use Rattle.exchange_frames.specs.declared.frame.Frame.TheVariants.{Give};
ghost use Rattle.exchange_frames.specs.Spelling.{text_of};
ghost use Rattle.exchange.specs.declared.fault.ExchangeFault.TheVariants.{Io};
ghost use Rattle.exchange.specs.declared.side.Said.TheVariants as says;
ghost use Rattle.exchange.specs.Course.{Idles, HoldsGifts, Loads};
ghost use Rattle.exchange.specs.Hearing.{Fails};
ghost use Rattle.exchange.specs.Held.{StandsFor};
ghost use Rattle.exchange.specs.Run.{WasRefused};
ghost use Rattle.exchange.specs.Saying.{WroteFront, WhyUnwritten, GivesLawful, IsSayable};
ghost use Rattle.exchange.specs.Saying.{SpeaksNext, SpeaksGifts, SpeaksSaid, WasUnreadable};

use crate::fault::{ExchangeFault, HolderFault};
use crate::holder::Holder;
use crate::side::Said;
use devices::{Sink, put_all};
use exchange_frames::{Digests, DigestsMut, Frame, a_give_is_a_frame, write_frame};
use operation::{Digest, Op};
use std::alloc::Global;

/// Writes the whole of some bytes.
fn put<W: Sink>(writer: &mut W, bytes: &[u8]) -> Result<(), ExchangeFault>
    ensures ok { OnOk result (Appends (W.contents writer.old) (W.contents writer.new) bytes.now) }
    ensures err { OnErr result (WroteFront (W.contents writer.old) (W.contents writer.new)
        bytes.now) }
    ensures why { IfErr result (λ e. e ≡ Io) }
    ensures failed { Fails result (W.failures writer.old) (W.failures writer.new) }
{
    match put_all(writer, bytes) {
        Ok(()) => Ok(()),
        Err(_failed) => Err(ExchangeFault::Io),
    }
}

/// Writes both parts of a text.
fn put_both<W: Sink>(writer: &mut W, head: &[u8], rest: &[u8]) -> Result<(), ExchangeFault>
    ensures ok { OnOk result (Appends (W.contents writer.old) (W.contents writer.new)
        (head.now ++ rest.now)) }
    ensures err { OnErr result (WroteFront (W.contents writer.old) (W.contents writer.new)
        (head.now ++ rest.now)) }
    ensures why { IfErr result (λ e. e ≡ Io) }
    ensures failed { Fails result (W.failures writer.old) (W.failures writer.new) }
{
    put(writer, head)?;
    put(writer, rest)
}

/// The operation of a GIVE is lawful. Nothing is done: this is a fact for callers.
fn see_lawful(frame: &Frame)
    ensures { GivesLawful frame.now }
{
    match frame {
        Frame::Give(op) => a_give_is_a_frame(op),
        Frame::Have(_) | Frame::Want(_) | Frame::End => {}
        Frame::Buckets(_) | Frame::Differ(_) | Frame::Hello(_) => {}
    }
}

/// Writes a frame, by at most two writes where the device takes what it is given.
fn say_frame<W: Sink>(alloc: Global, writer: &mut W, frame: &Frame) -> Result<(), ExchangeFault>
    ensures ok { OnOk result (Appends (W.contents writer.old) (W.contents writer.new)
        (text_of frame.now)) }
    ensures err { OnErr result (WroteFront (W.contents writer.old) (W.contents writer.new)
        (text_of frame.now)) }
    ensures why { IfErr result (WhyUnwritten (frame.now ∷ [])) }
    ensures sayable { OnOk result (IsSayable frame.now) }
    ensures failed { Fails result (W.failures writer.old) (W.failures writer.new) }
{
    see_lawful(frame);
    let text = write_frame(alloc, frame)?;
    let (head, rest) = text.parts();
    put_both(writer, head, rest)
}

/// Writes a GIVE.
fn say_give<W: Sink>(alloc: Global, writer: &mut W, op: Op) -> Result<(), ExchangeFault>
    ensures ok { OnOk result (Appends (W.contents writer.old) (W.contents writer.new)
        (text_of (Give op))) }
    ensures err { OnErr result (WroteFront (W.contents writer.old) (W.contents writer.new)
        (text_of (Give op))) }
    ensures why { IfErr result (WhyUnwritten (Give op ∷ [])) }
    ensures sayable { OnOk result (IsSayable (Give op)) }
    ensures failed { Fails result (W.failures writer.old) (W.failures writer.new) }
{
    let frame = Frame::Give(op);
    say_frame(alloc, writer, &frame)
}

/// Loads the operation under a digest and writes its GIVE. One that can't be read is passed over:
/// nothing is written, and its digest is put behind those of the others. Where none is held nothing
/// is written either.
fn load_and_give<W: Sink, H: Holder>(
    alloc: Global,
    writer: &mut W,
    holder: &mut H,
    digest: &Digest,
    unread: &mut DigestsMut,
) -> Result<(), ExchangeFault>
    ensures speaks { (op : Operation) → StandsFor (H.holds holder.old) digest.now op → SpeaksNext
        (WasUnreadable H.holds H.alone H.refuses_load holder.old) (H.holds holder.old) digest.now
        (W.contents writer.old) (W.contents writer.new) unread.old unread.new result }
    ensures failed { Fails result (W.failures writer.old) (W.failures writer.new) }
    ensures idle { Idles H.holds H.alone holder.old holder.new }
    ensures refused { IsErrOf result ExchangeFault.Refused
        → H.refuses_load holder.old holder.new digest.now HolderFault.Refused }
{
    match holder.load(alloc, digest) {
        Ok(Some(op)) => say_give(alloc, writer, op),
        Ok(None) => Ok(()),
        Err(HolderFault::Unreadable) => Ok(unread.push(digest)?),
        Err(HolderFault::Memory) => Err(ExchangeFault::Memory),
        Err(HolderFault::Refused) => Err(ExchangeFault::Refused),
    }
}

/// Writes a GIVE of the operation under each digest, and END. Each is loaded when its turn comes,
/// and none is kept. It answers those that could not be read, which it passes over.
fn say_gifts<W: Sink, H: Holder>(
    alloc: Global,
    writer: &mut W,
    holder: &mut H,
    digests: &Digests,
) -> Result<Digests, ExchangeFault>
    ensures speaks { HoldsGifts (H.holds holder.old) (says.Gifts digests.now) → SpeaksGifts
        (WasUnreadable H.holds H.alone H.refuses_load holder.old) (H.holds holder.old) digests.now
        (W.contents writer.old) (W.contents writer.new) result }
    ensures failed { Fails result (W.failures writer.old) (W.failures writer.new) }
    ensures idle { Idles H.holds H.alone holder.old holder.new }
    ensures refused { IsErrOf result ExchangeFault.Refused → WasRefused H.holds H.alone
        H.refuses_look H.refuses_take H.refuses_load holder.new }
{
    let mut unread = DigestsMut::with_capacity(alloc, 0)?;
    let arrays = digests.as_arrays();
    for bytes in arrays {
        load_and_give(alloc, writer, holder, &Digest::of(*bytes), &mut unread)?;
    }
    let unread = unread.freeze()?;
    say_frame(alloc, writer, &Frame::End)?;
    Ok(unread)
}

/// Writes what a side says, of which the holder loads what is given. Where operations were to be
/// given, it answers those that could not be read.
pub(crate) fn say<W: Sink, H: Holder>(
    alloc: Global,
    writer: &mut W,
    holder: &mut H,
    said: Said,
) -> Result<Option<Digests>, ExchangeFault>
    ensures speaks { HoldsGifts (H.holds holder.old) said → SpeaksSaid
        (WasUnreadable H.holds H.alone H.refuses_load holder.old) (H.holds holder.old) said
        (W.contents writer.old) (W.contents writer.new) result }
    ensures failed { Fails result (W.failures writer.old) (W.failures writer.new) }
    ensures loads { Loads H.holds H.alone said holder.old holder.new }
    ensures refused { IsErrOf result ExchangeFault.Refused → WasRefused H.holds H.alone
        H.refuses_look H.refuses_take H.refuses_load holder.new }
{
    match said {
        Said::Nothing => Ok(None),
        Said::One(frame) => {
            say_frame(alloc, writer, &frame)?;
            Ok(None)
        }
        Said::Gifts(digests) => Ok(Some(say_gifts(alloc, writer, holder, &digests)?)),
    }
}
