//! What stands around a session: a writer behind an outbox, a port and a gate.

ghost use Rattle.std.specs.Prelude.{◌≡◌, ℕ, List, [], OnOk, OnErr};
ghost use Rattle.std.specs.Io.KnownBytes.{Appends};
ghost use Rattle.pdu.specs.Spelling.{IsPdu, text_of};
ghost use Rattle.association_run.specs.Fault.{CountedWhere};
ghost use Rattle.association_run.specs.Parts.{Sides};
ghost use Rattle.association_run.specs.Port.{Replies};
ghost use Rattle.association_run.specs.inner.Faults.{fails_write};
ghost use Rattle.association_run.specs.inner.Outbox.{Puts, PutsFront};
ghost use Rattle.association_run.specs.inner.Sides.{OnlyWrites, Asks, Reaches};

use crate::fault::WriteFault;
use crate::gate::Gate;
use crate::outbox::Outbox;
use crate::port::Port;
use association_session::{Call, Moment, Reply};
use devices::Sink;
use pdu::Pdu;
use std::alloc::Global;

/// Where the deeds of an association go.
pub(crate) trait Sided<P: Port> {
    // The port, what the writer holds, and the moments that the gate keeps.
    ghost at: { Self → Sides P };

    // What is held back before it is written.
    ghost held: { Self → List ℕ };

    // How often a write has failed.
    ghost failures: { Self → ℕ };

    // Which port, writer and gate they are.
    ghost which: { Self → ℕ × ℕ × ℕ };

    /// Drops what is held back.
    fn clear(&mut self)
        ensures at { at self.new ≡ at self.old }
        ensures empty { held self.new ≡ [] }
        ensures write { failures self.new ≡ failures self.old }
        ensures same { which self.new ≡ which self.old };

    /// Writes what is held back.
    fn flush(&mut self) -> Result<(), WriteFault>
        ensures only { OnlyWrites (at self.old) (at self.new) }
        ensures ok { OnOk result
            (Appends (at self.old).written (at self.new).written (held self.old)) }
        ensures empty { OnOk result (held self.new ≡ []) }
        ensures err { OnErr result
            (PutsFront (at self.old).written (held self.old) (at self.new).written []) }
        ensures write { CountedWhere (fails_write result) (failures self.old) (failures self.new) }
        ensures same { which self.new ≡ which self.old };

    /// Holds a PDU behind what is held back.
    fn send(&mut self, pdu: Pdu) -> Result<(), WriteFault>
        requires { IsPdu pdu }
        ensures only { OnlyWrites (at self.old) (at self.new) }
        ensures ok { OnOk result (Puts (at self.old).written (held self.old)
            (at self.new).written (held self.new) (text_of pdu)) }
        ensures err { OnErr result (PutsFront (at self.old).written (held self.old)
            (at self.new).written (text_of pdu)) }
        ensures write { CountedWhere (fails_write result) (failures self.old) (failures self.new) }
        ensures same { which self.new ≡ which self.old };

    /// Makes a call.
    fn ask(&mut self, call: Call) -> Reply
        ensures asks { Asks P.ops P.own (at self.old) call result (at self.new) }
        ensures write { failures self.new ≡ failures self.old }
        ensures same { which self.new ≡ which self.old };

    /// Reaches the gate.
    fn reach(&mut self, moment: Moment)
        ensures reaches { Reaches (at self.old) moment (at self.new) }
        ensures held { held self.new ≡ held self.old }
        ensures write { failures self.new ≡ failures self.old }
        ensures same { which self.new ≡ which self.old };
}

/// Makes a call of a port.
fn ask_port<P: Port>(port: &mut P, call: Call) -> Reply
    ensures { Replies P.ops P.own port.old call result port.new }
{
    match call {
        Call::Store(content) => Reply::Stored(port.store(content)),
        Call::Find(finding) => {
            let called = finding.called.as_slice();
            let rows = port.find(called, finding.view, &finding.query);
            Reply::Found(rows)
        }
        Call::Get(getting) => Reply::Gotten(port.get(getting.view, &getting.selection)),
        Call::Load(asked) => Reply::Loaded(port.load(&asked)),
    }
}

/// What a caller lends for one association.
#[derive(Drop)]
pub(crate) struct LentSides<'o, 'w, 'p, 'g, W, P, G> {
    pub(crate) alloc: Global,
    pub(crate) outbox: &'o mut Outbox,
    pub(crate) writer: &'w mut W,
    pub(crate) port: &'p mut P,
    pub(crate) gate: &'g mut G,
}

impl<'o, 'w, 'p, 'g, W: Sink, P: Port, G: Gate> Sided<P> for LentSides<'o, 'w, 'p, 'g, W, P, G> {
    ghost use Rattle.association_run.specs.Parts.{sides};

    ghost at = { λ s. sides s.port.now (W.contents s.writer.now) (G.reached s.gate.now) };

    ghost held = { λ s. s.outbox.now };

    ghost failures = { λ s. W.failures s.writer.now };

    ghost which = { λ s. (s.port.ghost_name, s.writer.ghost_name, s.gate.ghost_name) };

    fn clear(&mut self) {
        self.outbox.clear();
    }

    fn flush(&mut self) -> Result<(), WriteFault> {
        self.outbox.flush(self.writer)
    }

    fn send(&mut self, pdu: Pdu) -> Result<(), WriteFault> {
        self.outbox.put_pdu(self.alloc, self.writer, &pdu)
    }

    fn ask(&mut self, call: Call) -> Reply {
        ask_port(self.port, call)
    }

    fn reach(&mut self, moment: Moment) {
        self.gate.reach(moment);
    }
}
