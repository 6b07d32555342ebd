//! The connection of a peer. Each wait for the peer has an end, where one is given.

ghost use Rattle.std.specs.Prelude.{◌≡◌};

use std::io;
use std::io::{ErrorKind, Read, Write};
use std::net::{Net, Shutdown, SocketAddr, TcpListener, TcpStream};
use std::sync::atomic::{AtomicBool, AtomicI32, Ordering};
use std::time::{Clock, Duration, Instant};

/// The seconds for which is read what a peer still sends, once nothing is sent to it any more.
const PARTING: u64 = 5;

/// How many bytes of that are read at once.
const PIECE: usize = 16_384;

/// How many such pieces are read at most: 128 MiB.
const PIECES: usize = 8_192;

/// How many times at most a read or a write is made again that a signal broke off.
const AGAIN: usize = 16;

/// The number of no error of the system.
const NO_ERROR: i32 = 0;

/// A connection, whether a wait for its peer was cut off, and the system's error that broke it.
#[derive(Drop)]
pub struct Wire {
    stream: TcpStream,
    silent: AtomicBool,
    error: AtomicI32,
}

/// What a read or a write is cut off by, once it has waited as long as it may, or as long as the
/// system lets it.
pub(crate) fn is_cut_off(error: &io::Error) -> bool {
    matches!(error.kind(), ErrorKind::WouldBlock | ErrorKind::TimedOut)
}

/// What a read or a write is broken off by where the program was stopped and goes on: no byte went,
/// and it may be made again.
pub(crate) fn is_broken_off(error: &io::Error) -> bool {
    error.kind() == ErrorKind::Interrupted
}

impl Wire {
    /// A connection on which each read and each write waits for the peer so long at most, or as
    /// long as it takes. What is written is sent at once.
    pub fn new(stream: TcpStream, idle: Option<Duration>) -> io::Result<Wire> {
        // A stream that refuses this serves as well.
        let _ = stream.set_nodelay(true);
        stream.set_read_timeout(idle)?;
        stream.set_write_timeout(idle)?;
        Ok(Wire {
            stream,
            silent: AtomicBool::new(false),
            error: AtomicI32::new(NO_ERROR),
        })
    }

    /// A connection to a peer, which has so long to answer, or as long as it takes.
    pub fn to<S: Net<Listener = TcpListener, Stream = TcpStream>>(
        net: &S,
        address: &str,
        idle: Option<Duration>,
    ) -> io::Result<Wire> {
        let stream = match (idle, address.parse::<SocketAddr>()) {
            (Some(idle), Ok(address)) => TcpStream::connect_timeout(net, &address, idle)?,
            _ => TcpStream::connect(net, address)?,
        };
        Wire::new(stream, idle)
    }

    pub(crate) fn stream(&self) -> &TcpStream {
        &self.stream
    }

    /// Whether a wait for the peer was cut off.
    pub fn is_silent(&self) -> bool {
        self.silent.load(Ordering::SeqCst)
    }

    /// The system's error of the last read or write that failed, where it was not cut off.
    pub fn error(&self) -> Option<io::Error> {
        match self.error.load(Ordering::SeqCst) {
            NO_ERROR => None,
            number => Some(io::Error::from_raw_os_error(number)),
        }
    }

    /// Notes that a wait was cut off, or else by which error of the system a call failed.
    fn note(&self, error: &io::Error) {
        if is_cut_off(error) {
            self.silent.store(true, Ordering::SeqCst);
        } else if let Some(number) = error.raw_os_error() {
            self.error.store(number, Ordering::SeqCst);
        }
    }

    /// Notes how a read or a write failed, where it did, and hands it on.
    pub(crate) fn noted(&self, done: io::Result<usize>) -> io::Result<usize>
        ensures { result ≡ done }
    {
        if let Err(error) = &done {
            self.note(error);
        }
        done
    }

    /// Reads and drops what comes next, for so long at most. It says whether more may come.
    fn drops_more(&self, buffer: &mut [u8], most: Duration) -> bool {
        if self.stream.set_read_timeout(Some(most)).is_err() {
            return false;
        }
        let mut stream = &self.stream;
        !matches!(stream.read(buffer), Ok(0) | Err(_))
    }

    /// Sends nothing any more, and reads and drops what the peer still sends until it closes, for 5
    /// seconds and 128 MiB at most. A connection that is closed while bytes come is reset by the
    /// system, and then the peer may lose the last that was written to it. Where a wait was cut
    /// off, or no clock says the time, nothing is done.
    pub fn part<S: Clock>(&self, clock: &S) {
        let Ok(begun) = Instant::now(clock) else {
            return;
        };
        if self.is_silent() || self.stream.shutdown(Shutdown::Write).is_err() {
            return;
        }
        let mut buffer = [0; PIECE];
        for _ in 0..PIECES {
            let Ok(gone) = begun.elapsed(clock) else {
                return;
            };
            let left = Duration::from_secs(PARTING).saturating_sub(gone);
            if left.is_zero() || !self.drops_more(&mut buffer, left) {
                return;
            }
        }
    }
}

impl Read for &Wire {
    fn read(&mut self, buffer: &mut [u8]) -> io::Result<usize> {
        let mut stream = &self.stream;
        for _ in 0..AGAIN {
            match stream.read(buffer) {
                Err(error) if is_broken_off(&error) => {}
                done => return self.noted(done),
            }
        }
        self.noted(stream.read(buffer))
    }
}

impl Write for &Wire {
    fn write(&mut self, bytes: &[u8]) -> io::Result<usize> {
        let mut stream = &self.stream;
        for _ in 0..AGAIN {
            match stream.write(bytes) {
                Err(error) if is_broken_off(&error) => {}
                done => return self.noted(done),
            }
        }
        self.noted(stream.write(bytes))
    }

    fn flush(&mut self) -> io::Result<()> {
        Ok(())
    }
}
