//! An association from its first byte to its end (PS3.8, section 9.2).

ghost use Rattle.std.specs.Prelude.{◌≡◌, ◌<◌, ◌≤◌, ◌+◌, List, ℕ, Option, OnOk, OnErr, IfOk, IsErrOf, None, false};
ghost use Rattle.std.specs.Prelude.{length};
ghost use Rattle.std.specs.Io.KnownBytes.{Consumes, IsAtEnd, Keeps};
ghost use Rattle.ul_state.specs.declared.table.State.TheVariants.{Sta13};
ghost use Rattle.association_run.specs.Hearing.{counts};
ghost use Rattle.devices.specs.Failures.{Counts};
ghost use Rattle.association_run.specs.Fault.{CountedWhere, tells_read, tells_write};
ghost use Rattle.association_run.specs.inner.Faults.{fails_read, fails_write, tells_turns};
ghost use Rattle.association_run.specs.Output.{Output, FrontOfOutput, ReadAtLeast, end_in};
ghost use Rattle.association_run.specs.Parts.{sides};
ghost use Rattle.association_run.specs.Pieces.{event_of, size_of_piece};
ghost use Rattle.association_run.specs.inner.Turns.{is_over as is_over_in, is_whole as is_whole_piece, NOTHING_READ};
ghost use Rattle.association_run.specs.inner.Turns.{counted_in, Reads, CanTake, TakesHand, TakingFails, SetsOut};
ghost use Rattle.association_run.specs.inner.Turns.{IsReady, Turns};

use crate::act::hear;
use crate::end::End;
use crate::fault::{ReadFault, RunFault, WriteFault};
use crate::gate::Gate;
use crate::inbox::Inbox;
use crate::outbox::Outbox;
use crate::piece::Piece;
use crate::port::Port;
use crate::sides::{LentSides, Sided};
use archive_model::View;
use association_session::Session;
use devices::{DeviceFault, Sink, Source};
use std::alloc::Global;
use ul_state::{Event, State, Titles};

/// How many bytes are read once the peer is to close the connection, a limit of this archive.
pub(crate) const MOST_DROPPED: usize = 65_536;

/// The most reads of a run.
const MOST_READS: u64 = 4_294_967_296;

/// How many bytes are dropped by one read.
const PIECE: usize = 1_024;

/// What was read and not yet heard.
#[derive(Drop)]
pub(crate) struct Intake {
    /// The PDU that is being read, while the stream is cut into PDUs.
    inbox: Inbox,
    is_cut: bool,
    /// How many bytes count since the peer is to close, without those in hand.
    counted: usize,
}

/// Reads some bytes, at most `most`, and drops them.
fn drop_some<R: Source>(reader: &mut R, most: usize) -> Result<usize, DeviceFault>
    requires { 0 < most }
    ensures read { IfOk result (λ count. (bytes : List ℕ) × Consumes (R.remaining reader.old)
        (R.remaining reader.new) bytes × (length bytes ≡ count) × (count ≤ most)) }
    ensures end { IfOk result (λ count. count ≡ 0 → IsAtEnd (R.remaining reader.new)) }
    ensures kept { OnErr result (Keeps (R.remaining reader.old) (R.remaining reader.new)) }
    ensures failed { Counts (R.failures reader.old) (R.failures reader.new) result }
{
    let mut buffer = [0; PIECE];
    let room = most.min(PIECE);
    reader.read(&mut buffer[..room])
}

/// How many bytes count in a state.
fn counted(state: State, size: usize) -> usize
    ensures { result ≡ counts state size }
{
    match state {
        State::Sta1 | State::Sta2 | State::Sta6 => 0,
        State::Sta13 => size,
    }
}

/// How many bytes may be read at once.
fn most_in(state: State, counted: usize) -> usize
    requires { counted < MOST_DROPPED }
    ensures some { 0 < result }
    ensures within { counted + counts state result ≤ MOST_DROPPED }
{
    match state {
        State::Sta1 | State::Sta2 | State::Sta6 => usize::MAX,
        State::Sta13 => MOST_DROPPED - counted,
    }
}

impl Intake {
    fn new(alloc: Global) -> Intake
        ensures { result ≡ NOTHING_READ }
    {
        Intake {
            inbox: Inbox::new(alloc),
            is_cut: true,
            counted: 0,
        }
    }

    /// How many bytes count, with those in hand.
    fn all_counted(&self, state: State) -> usize
        requires { counted_in self.now state ≤ MOST_DROPPED }
        ensures { result ≡ counted_in self.now state }
    {
        self.counted + counted(state, self.inbox.len())
    }

    /// Reads once.
    fn read<R: Source>(&mut self, reader: &mut R, state: State) -> Result<usize, ReadFault>
        requires room { counted_in self.old state < MOST_DROPPED }
        requires short { length self.old.inbox.text < self.old.inbox.wanted }
        requires dropping { self.old.is_cut ≡ false → state ≡ Sta13 }
        ensures read { IfOk result (λ count. Reads (R.remaining reader.old)
            (R.remaining reader.new) self.old count self.new) }
        ensures within { OnOk result (counted_in self.new state ≤ MOST_DROPPED) }
        ensures kept { OnErr result (Keeps (R.remaining reader.old) (R.remaining reader.new)) }
        ensures failed { CountedWhere (fails_read result) (R.failures reader.old)
            (R.failures reader.new) }
    {
        let most = most_in(state, self.all_counted(state));
        if self.is_cut {
            return self.inbox.read_on(reader, most);
        }
        let count = drop_some(reader, most)?;
        self.counted += count;
        Ok(count)
    }
}

fn is_whole(piece: &Piece) -> bool
    ensures { result ≡ is_whole_piece piece.now }
{
    match piece {
        Piece::Whole(_, _) => true,
        Piece::Faulty(_, _) => false,
    }
}

fn size(piece: &Piece) -> usize
    ensures { result ≡ size_of_piece piece.now }
{
    match piece {
        Piece::Whole(_, size) => *size,
        Piece::Faulty(_, size) => *size,
    }
}

fn event(piece: Piece) -> Event
    ensures { result ≡ event_of piece }
{
    match piece {
        Piece::Whole(pdu, _) => Event::Got(pdu),
        Piece::Faulty(fault, _) => Event::Bad(fault),
    }
}

/// Hears the piece in hand, once it is whole.
fn take_piece<P: Port, S: Sided<P>>(
    session: &mut Session,
    titles: &Titles<View>,
    intake: &mut Intake,
    sides: &mut S,
) -> Result<(), WriteFault>
    requires { CanTake session.old intake.old }
    ensures ok { OnOk result (TakesHand P.ops P.own titles.now.list (S.at sides.old)
        (S.at sides.new) session.old intake.old session.new intake.new) }
    ensures err { OnErr result (TakingFails P.ops P.own titles.now.list (S.at sides.old)
        (S.at sides.new) session.old intake.old) }
    ensures write { CountedWhere (fails_write result) (S.failures sides.old)
        (S.failures sides.new) }
    ensures same { S.which sides.new ≡ S.which sides.old }
{
    let Some(piece) = intake.inbox.take()? else {
        return Ok(());
    };
    intake.counted += counted(session.state(), size(&piece));
    intake.is_cut = is_whole(&piece);
    hear(session, titles, event(piece), sides)
}

/// How an association ends now.
fn end_now(session: &Session, counted: usize) -> End
    ensures { result ≡ end_in counted session.now.aborted session.now.released }
{
    if counted == MOST_DROPPED {
        return End::Dropped;
    }
    if session.is_aborted() {
        return End::Aborted;
    }
    if session.is_released() {
        return End::Released;
    }
    End::Closed
}

/// Whether the connection is closed, or all the bytes were read that are read.
fn is_over(session: &Session, counted: usize) -> bool
    ensures { result ≡ is_over_in session.now.association.within.state counted }
{
    session.state() == State::Sta1 || counted == MOST_DROPPED
}

/// One turn: a read, and the piece that it may end.
fn take_turn<R: Source, P: Port, S: Sided<P>>(
    session: &mut Session,
    titles: &Titles<View>,
    intake: &mut Intake,
    reader: &mut R,
    sides: &mut S,
) -> Result<Option<End>, RunFault>
    requires { IsReady session.old intake.old }
    ensures ready { IfOk result (λ end. end ≡ None → IsReady session.new intake.new) }
    ensures turns { Turns P.ops P.own titles.now.list (R.remaining reader.old)
        (R.remaining reader.new) (S.at sides.old) (S.at sides.new) session.old intake.old result
        session.new intake.new }
    ensures read { CountedWhere (tells_read result) (R.failures reader.old)
        (R.failures reader.new) }
    ensures write { CountedWhere (tells_write result) (S.failures sides.old)
        (S.failures sides.new) }
    ensures going { tells_turns result ≡ false }
    ensures same { S.which sides.new ≡ S.which sides.old }
{
    let count = intake.read(reader, session.state())?;
    if count == 0 {
        let counted = intake.all_counted(session.state());
        return Ok(Some(end_now(session, counted)));
    }
    take_piece(session, titles, intake, sides)?;
    let counted = intake.all_counted(session.state());
    if is_over(session, counted) {
        return Ok(Some(end_now(session, counted)));
    }
    Ok(None)
}

/// Takes turn after turn, from the first one to the last.
fn take_turns<R: Source, P: Port, S: Sided<P>>(
    session: &mut Session,
    titles: &Titles<View>,
    intake: &mut Intake,
    reader: &mut R,
    sides: &mut S,
) -> Result<End, RunFault>
    requires { SetsOut session.old intake.old }
    ensures ok { IfOk result (Output P.ops P.own titles.now.list (R.remaining reader.old)
        (R.remaining reader.new) (S.at sides.old) (S.at sides.new)) }
    ensures err { OnErr result (FrontOfOutput P.ops P.own titles.now.list
        (R.remaining reader.old) (R.remaining reader.new) (S.at sides.old) (S.at sides.new)) }
    ensures read { CountedWhere (tells_read result) (R.failures reader.old)
        (R.failures reader.new) }
    ensures write { CountedWhere (tells_write result) (S.failures sides.old)
        (S.failures sides.new) }
    ensures turns { IsErrOf result RunFault.Turns → ReadAtLeast MOST_READS
        (R.remaining reader.old) (R.remaining reader.new) }
    ensures same { S.which sides.new ≡ S.which sides.old }
{
    for _ in 0..MOST_READS {
        match take_turn(session, titles, intake, reader, sides) {
            Ok(None) => {}
            Ok(Some(end)) => return Ok(end),
            Err(fault) => return Err(fault),
        }
    }
    Err(RunFault::Turns)
}

/// Serves an association over any reader, writer, port and gate, up to its end. What is to be
/// written is held in `outbox`, out of which is dropped what an earlier association left in it.
///
/// Nothing is read behind the PDU in hand. Once the peer is to close the connection, at most 65,536
/// bytes more are read. `Turns` is told after 4,294,967,296 reads.
pub fn run_association<R: Source, W: Sink, P: Port, G: Gate>(
    alloc: Global,
    reader: &mut R,
    outbox: &mut Outbox,
    writer: &mut W,
    port: &mut P,
    gate: &mut G,
    titles: &Titles<View>,
) -> Result<End, RunFault>
    // The deeds that are done, for what was read and replied.
    ensures ok { IfOk result (Output P.ops P.own titles.now.list (R.remaining reader.old)
        (R.remaining reader.new) (sides port.old (W.contents writer.old) (G.reached gate.old))
        (sides port.new (W.contents writer.new) (G.reached gate.new))) }
    ensures err { OnErr result (FrontOfOutput P.ops P.own titles.now.list
        (R.remaining reader.old) (R.remaining reader.new)
        (sides port.old (W.contents writer.old) (G.reached gate.old))
        (sides port.new (W.contents writer.new) (G.reached gate.new))) }

    // A fault of a device is told exactly where one was counted.
    ensures read { CountedWhere (tells_read result) (R.failures reader.old)
        (R.failures reader.new) }
    ensures write { CountedWhere (tells_write result) (W.failures writer.old)
        (W.failures writer.new) }

    // Each of the reads before it gave a byte or more.
    ensures turns { IsErrOf result RunFault.Turns → ReadAtLeast MOST_READS
        (R.remaining reader.old) (R.remaining reader.new) }
{
    let mut session = Session::new(alloc);
    let mut intake = Intake::new(alloc);
    let mut sides = LentSides {
        alloc,
        outbox,
        writer,
        port,
        gate,
    };
    take_turns(&mut session, titles, &mut intake, reader, &mut sides)
}
