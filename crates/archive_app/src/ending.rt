//! `archive serve --until-end-of-input`: the end of standard input ends the server.

use crate::output::CommandFault;
use archive_server::NetFault;
use association_run::RunFault;
use std::alloc::Global;
use std::io::{ErrorKind, Read, Stdin};
use std::net::{Shutdown, TcpListener, TcpStream};
use std::os::fd::OwnedFd;
use std::rt::HostRuntime;
use std::sync::Arc;
use std::sync::atomic::{AtomicBool, Ordering};
use std::thread;
use std::thread::Threads;

/// Where a server accepts, and the word by which it is ended.
#[derive(Drop)]
struct Watch {
    ended: Arc<AtomicBool, Global>,
    associations: TcpListener,
    exchanges: Option<TcpListener>,
}

/// Makes each accept of a listener fail from now on, and those that wait in one.
fn shut(listener: TcpListener) {
    // One that refuses this is ended by who connects next.
    let _ = TcpStream::from(OwnedFd::from(listener)).shutdown(Shutdown::Both);
}

/// Reads to the end of standard input. A read that fails is the end too.
fn read_out(mut input: Stdin) {
    let mut bytes = [0; 256];
    for _ in 0..u64::MAX {
        match input.read(&mut bytes) {
            Ok(0) => break,
            Ok(_) => {}
            Err(error) if error.kind() == ErrorKind::Interrupted => {}
            Err(_) => break,
        }
    }
}

/// Waits for the end of standard input, and ends the server. Who accepts finds the word set.
fn end_with_input(input: Stdin, watch: Watch) {
    read_out(input);
    let Watch {
        ended,
        associations,
        exchanges,
    } = watch;
    ended.store(true, Ordering::SeqCst);
    shut(associations);
    if let Some(exchanges) = exchanges {
        shut(exchanges);
    }
}

/// One more of a listener.
fn another(listener: &TcpListener) -> Result<TcpListener, CommandFault> {
    match listener.try_clone() {
        Ok(listener) => Ok(listener),
        Err(_refused) => Err(CommandFault::Net(NetFault::Listen)),
    }
}

/// Starts the thread that ends a server with its standard input, and gives the word that it sets.
/// It is never joined: where the server ends before, it is cut off with the program. One that is
/// refused is told as want of memory.
pub fn ended_with_input<T: Threads>(
    host: &HostRuntime,
    rt: &T,
    associations: &TcpListener,
    exchanges: &Option<TcpListener>,
) -> Result<Arc<AtomicBool, Global>, CommandFault> {
    let ended = Arc::new(host.alloc(), AtomicBool::new(false))?;
    let exchanges = match exchanges {
        Some(listener) => Some(another(listener)?),
        None => None,
    };
    let watch = Watch {
        ended: Arc::try_clone(&ended)?,
        associations: another(associations)?,
        exchanges,
    };
    let input = host.stdin();
    match thread::spawn(rt, move || end_with_input(input, watch)) {
        Ok(_started) => Ok(ended),
        Err(_refused) => Err(CommandFault::Run(RunFault::Memory)),
    }
}
