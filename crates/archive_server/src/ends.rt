//! What ends an association before its time, read off the bytes of one way: A-ASSOCIATE-RJ and
//! A-ABORT (PS3.8, sections 9.3.4 and 9.3.8). The bodies of P-DATA-TFs are handed on.

ghost use Rattle.std.specs.Prelude.{◌<◌, ◌≤◌, length};

use std::fmt;
use std::fmt::{Display, Formatter};

/// How many bytes of a PDU are kept: its header, and four of its body. No PDU has fewer.
const KEPT: usize = 10;

/// The types of A-ASSOCIATE-RJ, of P-DATA-TF and of A-ABORT.
const REJECT: u8 = 3;

const DATA: u8 = 4;

const ABORT: u8 = 7;

/// How many bytes a header has.
const HEADER: usize = 6;

/// What hears the bodies of the P-DATA-TFs that go one way, one behind another.
pub(crate) trait Hears {
    fn hear(&mut self, bytes: &[u8]);
}

/// Hears nothing.
#[derive(Clone, Copy)]
pub(crate) struct Deaf;

impl Hears for Deaf {
    fn hear(&mut self, _bytes: &[u8]) {}
}

/// Why an association was rejected, in the standard's numbers.
#[derive(Clone, Copy)]
pub(crate) struct Rejection {
    result: u8,
    source: u8,
    reason: u8,
}

/// Why it was aborted, likewise.
#[derive(Clone, Copy)]
pub(crate) struct Abort {
    source: u8,
    reason: u8,
}

fn words_of_rejection(source: u8, reason: u8) -> &'static str {
    match (source, reason) {
        (1, 1) => "no reason given",
        (1, 2) => "application context name not supported",
        (1, 3) => "calling AE title not recognized",
        (1, 7) => "called AE title not recognized",
        (2, 1) => "no reason given",
        (2, 2) => "protocol version not supported",
        (3, 1) => "temporary congestion",
        (3, 2) => "local limit exceeded",
        _ => "a reason that is reserved",
    }
}

fn words_of_abort(source: u8, reason: u8) -> &'static str {
    match (source, reason) {
        (0, _) => "by the user of the service",
        (2, 0) => "reason not specified",
        (2, 1) => "unrecognized PDU",
        (2, 2) => "unexpected PDU",
        (2, 4) => "unrecognized PDU parameter",
        (2, 5) => "unexpected PDU parameter",
        (2, 6) => "invalid PDU parameter value",
        _ => "a reason that is reserved",
    }
}

impl Display for Rejection {
    fn fmt<W: fmt::Write>(&self, f: &mut Formatter<W>) -> fmt::Result {
        let (result, source, reason) = (self.result, self.source, self.reason);
        let words = words_of_rejection(source, reason);
        write!(
            f,
            "result {result} source {source} reason {reason}: {words}"
        )
    }
}

impl Display for Abort {
    fn fmt<W: fmt::Write>(&self, f: &mut Formatter<W>) -> fmt::Result {
        let (source, reason) = (self.source, self.reason);
        let words = words_of_abort(source, reason);
        write!(f, "source {source} reason {reason}: {words}")
    }
}

/// The PDUs of one way, of which the last rejection and the last abort are kept.
#[derive(Clone, Copy)]
pub(crate) struct Ends {
    head: [u8; KEPT],
    /// How many of these came.
    count: usize,
    /// How many bytes of the body are still to be passed over.
    left: usize,
    rejection: Option<Rejection>,
    abort: Option<Abort>,
}

impl Ends {
    pub fn new() -> Ends {
        Ends {
            head: [0; KEPT],
            count: 0,
            left: 0,
            rejection: None,
            abort: None,
        }
    }

    /// The rejection that went this way, if one did.
    pub fn rejection(&self) -> Option<Rejection> {
        self.rejection
    }

    /// The abort that went this way, if one did.
    pub fn abort(&self) -> Option<Abort> {
        self.abort
    }

    /// The bytes of the body behind those that are kept.
    fn rest(&self) -> usize {
        let [_, _, a, b, c, d, ..] = self.head;
        let length = u32::from_be_bytes([a, b, c, d]) as usize;
        length.saturating_sub(4)
    }

    /// Notes what a whole PDU says, where it is one of these two.
    fn note(&mut self) {
        let [kind, _, _, _, _, _, _, result, source, reason] = self.head;
        if kind == REJECT {
            self.rejection = Some(Rejection {
                result,
                source,
                reason,
            });
        }
        if kind == ABORT {
            self.abort = Some(Abort { source, reason });
        }
    }

    /// Whether the PDU is a P-DATA-TF.
    fn is_data(&self) -> bool {
        self.head[0] == DATA
    }

    fn keep<L: Hears>(&mut self, byte: u8, listener: &mut L) {
        let at = self.count % KEPT;
        self.head[at] = byte;
        self.count = at + 1;
        if self.count == KEPT {
            self.left = self.rest();
            self.note();
            if self.is_data() {
                listener.hear(&self.head[HEADER..]);
            }
        }
    }

    /// Takes some of the bytes that come next, and says how many.
    fn step<L: Hears>(&mut self, bytes: &[u8], listener: &mut L) -> usize
        requires { 0 < length bytes.now }
        ensures { (0 < result) × (result ≤ length bytes.now) }
    {
        if self.left == 0 {
            self.keep(bytes[0], listener);
            return 1;
        }
        let count = self.left.min(bytes.len());
        if self.is_data() {
            listener.hear(&bytes[..count]);
        }
        self.left -= count;
        count
    }

    /// Takes the bytes that come next.
    pub fn take<L: Hears>(&mut self, bytes: &[u8], listener: &mut L) {
        let mut at = 0;
        for _ in 0..bytes.len() {
            if bytes.len() <= at {
                return;
            }
            at += self.step(&bytes[at..], listener);
        }
    }
}
