//! Where a server listens.

ghost use Rattle.std.specs.Prelude.{◌≡◌, option_map};

use crate::folder::is_absent;
use crate::output::{CommandFault, listen_cause_of};
use crate::refused::Refused;
use anyhow::Result as Printed;
use archive_server::NetFault;
use command_words::Serving;
use std::hash::RandomState;
use std::io::Print;
use std::net::{Net, TcpListener, TcpStream};
use std::rt::HostRuntime;

/// Where requests of HTTP come in, and keys that nobody can guess.
#[derive(Drop)]
pub struct HttpDoor {
    pub listener: TcpListener,
    pub keys: RandomState,
}

/// Where associations come in, and exchanges, where pages are asked for, and where corrections are.
#[derive(Drop)]
pub struct Listening {
    pub associations: TcpListener,
    pub exchanges: Option<TcpListener>,
    pub pages: Option<HttpDoor>,
    pub desk: Option<HttpDoor>,
}

/// A listener at an address.
fn bound<'a, R: Net<Listener = TcpListener, Stream = TcpStream>>(
    rt: &R,
    address: &'a str,
) -> Result<TcpListener, Refused<'a>> {
    match TcpListener::bind(rt, address) {
        Ok(listener) => Ok(listener),
        Err(error) => {
            let fault = CommandFault::Net(NetFault::Listen);
            Err(Refused::net(address, fault, listen_cause_of(error.kind())))
        }
    }
}

/// The listener of exchanges, where some are to be served.
fn listener_of<'a, R: Net<Listener = TcpListener, Stream = TcpStream>>(
    rt: &R,
    exchange: &'a str,
    rounds: u32,
) -> Result<Option<TcpListener>, Refused<'a>> {
    if rounds == 0 {
        return Ok(None);
    }
    Ok(Some(bound(rt, exchange)?))
}

/// Where requests of HTTP come in, if anywhere.
fn door_of<'a, R: Net<Listener = TcpListener, Stream = TcpStream>>(
    host: &HostRuntime,
    rt: &R,
    address: Option<&'a str>,
) -> Result<Option<HttpDoor>, Refused<'a>> {
    let Some(address) = address else {
        return Ok(None);
    };
    let listener = bound(rt, address)?;
    match RandomState::new(host) {
        Ok(keys) => Ok(Some(HttpDoor { listener, keys })),
        Err(error) => {
            let fault = CommandFault::Net(NetFault::Listen);
            Err(Refused::net(address, fault, listen_cause_of(error.kind())))
        }
    }
}

/// Where corrections are asked for, if anywhere.
fn desk_address<'a>(serving: &Serving<'a>) -> Option<&'a str>
    ensures { result ≡ option_map (λ desk. desk.address) serving.now.desk }
{
    match serving.desk {
        None => None,
        Some(desk) => Some(desk.address),
    }
}

/// Listens, first for associations.
pub fn listen_to<'a, R: Net<Listener = TcpListener, Stream = TcpStream>>(
    host: &HostRuntime,
    rt: &R,
    serving: &Serving<'a>,
) -> Result<Listening, Refused<'a>> {
    let associations = bound(rt, serving.listen)?;
    let exchanges = listener_of(rt, serving.exchange, serving.rounds)?;
    let pages = door_of(host, rt, serving.page)?;
    Ok(Listening {
        associations,
        exchanges,
        pages,
        desk: door_of(host, rt, desk_address(serving))?,
    })
}

/// Listens where the file is not there, so that no file is made where nobody can listen.
pub fn listen_first<'a, R: Net<Listener = TcpListener, Stream = TcpStream>>(
    host: &HostRuntime,
    rt: &R,
    serving: &Serving<'a>,
) -> Result<Option<Listening>, Refused<'a>> {
    match is_absent(host, serving.file) {
        true => Ok(Some(listen_to(host, rt, serving)?)),
        false => Ok(None),
    }
}

/// Prints at which address a listener accepts, which is the one that was named, with a port of the
/// system's choice where port 0 was.
fn say_address<R: Print>(rt: &R, word: &str, listener: &TcpListener, named: &str) -> Printed<()> {
    match listener.local_addr() {
        Ok(address) => println!(rt; "{word} {address}")?,
        Err(_unknown) => println!(rt; "{word} {named}")?,
    }
    Ok(())
}

/// Prints where requests of HTTP come in, as a client takes it, if anywhere: a word, and what is
/// asked for first.
fn say_door<R: Print>(
    rt: &R,
    word: &str,
    door: &Option<HttpDoor>,
    named: Option<&str>,
    path: &str,
) -> Printed<()> {
    let Some(door) = door else {
        return Ok(());
    };
    let named = named.unwrap_or("");
    match door.listener.local_addr() {
        Ok(address) => println!(rt; "{word} http://{address}{path}")?,
        Err(_unknown) => println!(rt; "{word} http://{named}{path}")?,
    }
    Ok(())
}

/// Prints where the program listens.
pub fn say_where<R: Print>(rt: &R, listening: &Listening, serving: &Serving<'_>) -> Printed<()> {
    say_address(rt, "listening", &listening.associations, serving.listen)?;
    if let Some(listener) = &listening.exchanges {
        say_address(rt, "exchanging", listener, serving.exchange)?;
    }
    say_door(rt, "pages", &listening.pages, serving.page, "/")?;
    say_door(
        rt,
        "desk",
        &listening.desk,
        desk_address(serving),
        "/correct",
    )
}
