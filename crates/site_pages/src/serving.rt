//! A connection on which pages are asked for.

ghost use Rattle.std.specs.Prelude.{[], OnOk};
ghost use Rattle.std.specs.Io.KnownBytes.{Appends, Consumes};
ghost use Rattle.http_server.specs.History.{History, IsServed, IsDone};
ghost use Rattle.http_server.specs.Exchange.{Calls};
ghost use Rattle.site_pages.specs.Serving.{page_config};
ghost use Rattle.site_pages.specs.Telling.{IsAnswered};

use crate::limits::config;
use crate::pages::Pages;
use crate::source::Source;
use http_server::{Connection, serve};
use std::alloc::Global;
use std::hash::RandomState;
use std::io;
use std::io::{Read, Write};

/// Answers what is asked for on a connection. What is sent is the answers to the requests that were
/// received, in order, and then at most a refusal of what is none.
pub fn serve_pages<S: Source, R: Read, W: Write>(
    alloc: Global,
    keys: RandomState,
    pages: &mut Pages<S>,
    reader: &mut R,
    writer: &mut W,
) -> io::Result<()>
    ensures served { (h : History) × ∥ IsServed page_config h ∥₁
        × Consumes (R.remaining reader.old) (R.remaining reader.new) h.received
        × Appends (W.contents writer.old) (W.contents writer.new) h.sent
        × Calls (λ old request response new.
        IsAnswered S.says old.source request response new.source)
        pages.old pages.new [] h.calls
        × OnOk result (IsDone h) }
{
    let mut connection = Connection::new(alloc, keys, config());
    serve(&mut connection, pages, reader, writer)
}
