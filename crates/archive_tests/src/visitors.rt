//! What comes to a server: associations, and a site that exchanges with it.

use crate::messages::Talk;
use crate::serving::Doors;
use crate::shelves::Counting;
use bytes::Bytes;
use devices::Counted;
use exchange::Role;
use hub_exchange::{Behind, exchange_on};
use op_shelf::Keep;
use operation::{Digested, decode};
use records::RecordedOp;
use site_state::Site;
use std::alloc::Global;
use std::io;
use std::io::{Read, Write};
use std::net::{Net, Shutdown, TcpListener, TcpStream};
use std::test::Fail;

// The correction of study 1.2.1 by which (0010,0010) is ROE^ANN, of counter 1 and site 1.
const CORRECTION: &[u8] =
    b"\x02\x01\x051.2.1\x00\x10\x00\x10\x00\x07ROE^ANN\x00\x00\x00\x00\x00\x00\x00\x01\x00\x01";

/// How many associations each of two workers takes; and what comes, one behind the other:
/// associations, so many exchanges of a site, and associations again.
#[derive(Clone, Copy)]
pub(crate) struct Plan {
    pub(crate) each: u64,
    pub(crate) first: &'static [Talk],
    pub(crate) exchanges: u64,
    pub(crate) last: &'static [Talk],
}

/// Whether a text is these parts, one behind the other.
fn is_made_of(text: &[u8], parts: &[&[u8]]) -> bool {
    let mut rest = text;
    for part in parts {
        if !rest.starts_with(part) {
            return false;
        }
        rest = rest.get(part.len()..).unwrap_or(&[]);
    }
    rest.is_empty()
}

/// An association: the peer says all and then hears all. Whether it heard what it is to hear.
fn is_answered(alloc: Global, mut stream: &TcpStream, talk: Talk) -> io::Result<bool> {
    for part in talk.says {
        stream.write_all(part)?;
    }
    stream.shutdown(Shutdown::Write)?;
    let mut answer = Vec::new(alloc);
    stream.read_to_end(&mut answer)?;
    Ok(is_made_of(answer.as_slice(), talk.hears))
}

/// Associations, one behind the other.
fn talk_all<R: Net<Listener = TcpListener, Stream = TcpStream>>(
    rt: &R,
    alloc: Global,
    listener: &TcpListener,
    talks: &[Talk],
) -> Result<(), Fail> {
    for talk in talks {
        let stream = TcpStream::connect(rt, listener.local_addr()?)?;
        if !is_answered(alloc, &stream, *talk)? {
            return Err(Fail::from("an association was answered otherwise"));
        }
    }
    Ok(())
}

/// A site with a correction, on a shelf that takes one operation more.
fn with_correction(alloc: Global) -> Result<(Site, Counting), Fail> {
    let op = Digested::of(decode(alloc, Bytes::copy_from_slice(alloc, CORRECTION)?)?);
    let mut site = Site::new(alloc);
    site.take(RecordedOp::of(alloc, &op)?)?;
    let mut shelf = Counting::new(alloc, 2);
    shelf.put_digested(&op)?;
    Ok((site, shelf))
}

/// A site with a correction exchanges with the server, and says how many operations it has then.
fn exchange_all<R: Net<Listener = TcpListener, Stream = TcpStream>>(
    rt: &R,
    alloc: Global,
    listener: &TcpListener,
    many: u64,
) -> Result<usize, Fail> {
    let (mut site, mut shelf) = with_correction(alloc)?;
    for _ in 0..many {
        let stream = TcpStream::connect(rt, listener.local_addr()?)?;
        stream.set_nodelay(true)?;
        let mut reader = Counted::new(&stream);
        let mut writer = Counted::new(&stream);
        let behind = exchange_on(alloc, Role::Caller, &mut reader, &mut writer, site, shelf);
        let Behind {
            site: after,
            shelf: kept,
            ended,
        } = behind;
        (site, shelf) = (after, kept);
        if !ended.is_ok_and(|ended| ended.finished) {
            return Err(Fail::from("not all came that was asked for"));
        }
    }
    Ok(site.counts().operations)
}

/// All that comes. It says how many operations the site has then that exchanges.
pub(crate) fn visit<R: Net<Listener = TcpListener, Stream = TcpStream>>(
    rt: &R,
    alloc: Global,
    doors: Doors<'_>,
    plan: Plan,
) -> Result<usize, Fail> {
    talk_all(rt, alloc, doors.associations, plan.first)?;
    let held = exchange_all(rt, alloc, doors.exchanges, plan.exchanges)?;
    talk_all(rt, alloc, doors.associations, plan.last)?;
    Ok(held)
}
