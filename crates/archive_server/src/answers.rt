//! The C-STOREs that are not answered with success, and the rows that C-FINDs are answered with,
//! read off the bytes that are written: command sets are put together of presentation data values
//! (PS3.8, sections 9.3.5 and E.2). Each refused store is told once its response is whole.

ghost use Rattle.std.specs.Prelude.{◌≡◌, ◌<◌, ◌≤◌, length};
ghost use Rattle.archive_server.specs.Answers.{refusal_of, is_pending_status, is_row_of};

use crate::ends::Hears;
use crate::journal::{Whence, tell_refused_store};
use crate::manner::Manner;
use dictionary::{
    C_FIND_RSP, C_STORE_RSP, STATUS_PENDING, STATUS_PENDING_WITHOUT_OPTIONAL_KEYS, STATUS_SUCCESS,
};
use dimse::{Command, read_command};
use log::Log;
use octets::Octets;
use std::alloc::Global;
use std::time::Clock;

/// How many bytes stand before a fragment: the length of its item, the ID of its context and its
/// message control header.
const HEAD: usize = 6;

/// How many of them the length counts.
const COUNTED: usize = 2;

/// The bits of a message control header: of a command set, and its last fragment.
const COMMAND: u8 = 1;

const LAST: u8 = 2;

/// A response to a C-STORE whose status is none of success.
#[derive(Drop)]
pub(crate) struct RefusedStore {
    /// (0000,0900) Status
    pub status: u16,
    /// (0000,1000) Affected SOP Instance UID
    pub instance: Option<Octets>,
}

/// What a command says, where it is a response to a C-STORE that was refused.
fn refused_by(command: Command) -> Option<RefusedStore>
    ensures { result ≡ refusal_of command }
{
    let Command {
        affected_class: _,
        field,
        message_id: _,
        responded_to: _,
        priority: _,
        data_set_type: _,
        status,
        affected_instance: instance,
        remaining: _,
        completed: _,
        failed: _,
        warning: _,
    } = command;
    match status {
        Some(status) if field == C_STORE_RSP && status != STATUS_SUCCESS => {
            Some(RefusedStore { status, instance })
        }
        _ => None,
    }
}

/// Whether it is a status with which a row comes (PS3.4, section C.4.1.1.4).
fn is_pending(status: u16) -> bool
    ensures { result ≡ is_pending_status status }
{
    status == STATUS_PENDING || status == STATUS_PENDING_WITHOUT_OPTIONAL_KEYS
}

/// Whether a command is a response to a C-FIND with which a row comes.
fn is_row(command: &Command) -> bool
    ensures { result ≡ is_row_of command.now }
{
    match command.status {
        Some(status) => command.field == C_FIND_RSP && is_pending(status),
        None => false,
    }
}

/// The presentation data values of what is written to a peer, of which rows are counted, and
/// refused stores are told where lines are asked for.
#[derive(Drop)]
pub(crate) struct Answers<'a, S: Clock + Log> {
    rt: &'a S,
    manner: Manner<'a>,
    peer: Whence,
    alloc: Global,
    head: [u8; HEAD],
    /// How many bytes of the head came.
    count: usize,
    /// How many bytes of the fragment are still to come.
    left: usize,
    /// The command set so far.
    text: Vec<u8>,
    /// How many rows came.
    rows: u64,
}

impl<'a, S: Clock + Log> Answers<'a, S> {
    pub fn new(rt: &'a S, manner: Manner<'a>, peer: Whence, alloc: Global) -> Answers<'a, S> {
        Answers {
            rt,
            manner,
            peer,
            alloc,
            head: [0; HEAD],
            count: 0,
            left: 0,
            text: Vec::new(alloc),
            rows: 0,
        }
    }

    /// How many rows came.
    pub fn rows(&self) -> u64 {
        self.rows
    }

    /// Whether the fragment is one of a command set, and whether it is its last.
    fn is_of(&self, bit: u8) -> bool {
        self.head[5] & bit == bit
    }

    /// The bytes of the fragment.
    fn size(&self) -> usize {
        let [a, b, c, d, ..] = self.head;
        let length = u32::from_be_bytes([a, b, c, d]) as usize;
        length.saturating_sub(COUNTED)
    }

    /// Tells of a store that a command says was refused, where lines are asked for.
    fn tell(&self, command: Command) {
        if !self.manner.is_verbose {
            return;
        }
        if let Some(refused) = refused_by(command) {
            tell_refused_store(self.rt, self.peer, &refused);
        }
    }

    /// Reads a command set once its last fragment came: rows are counted, and refused stores told.
    /// What is no command set, or is refused memory, is neither counted nor told.
    fn close(&mut self) {
        if !self.is_of(COMMAND) || !self.is_of(LAST) {
            return;
        }
        if let Ok(command) = read_command(self.alloc, self.text.as_slice()) {
            if is_row(&command) {
                self.rows = self.rows.saturating_add(1);
            }
            self.tell(command);
        }
        self.text.clear();
    }

    fn keep(&mut self, byte: u8) {
        let at = self.count % HEAD;
        self.head[at] = byte;
        self.count = at + 1;
        if self.count == HEAD {
            self.left = self.size();
            if self.left == 0 {
                self.close();
            }
        }
    }

    /// Takes some bytes of a fragment. A command set that is refused memory is let go.
    fn put(&mut self, bytes: &[u8]) {
        if self.is_of(COMMAND) && self.text.extend_from_slice(bytes).is_err() {
            self.text.clear();
        }
    }

    /// Takes some of the bytes that come next, and says how many.
    fn step(&mut self, bytes: &[u8]) -> usize
        requires { 0 < length bytes.now }
        ensures { (0 < result) × (result ≤ length bytes.now) }
    {
        if self.left == 0 {
            self.keep(bytes[0]);
            return 1;
        }
        let count = self.left.min(bytes.len());
        self.left -= count;
        self.put(&bytes[..count]);
        if self.left == 0 {
            self.close();
        }
        count
    }
}

impl<'a, S: Clock + Log> Hears for Answers<'a, S> {
    fn hear(&mut self, bytes: &[u8]) {
        let mut at = 0;
        for _ in 0..bytes.len() {
            if bytes.len() <= at {
                return;
            }
            at += self.step(&bytes[at..]);
        }
    }
}
