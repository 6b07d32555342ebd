//! A connection on which the pages of a running site are asked for.

ghost use Rattle.std.specs.Prelude.{[], OnOk};
ghost use Rattle.std.specs.Io.KnownBytes.{Appends, Consumes};
ghost use Rattle.http_server.specs.History.{History, IsServed, IsDone};
ghost use Rattle.http_server.specs.Exchange.{Calls};
ghost use Rattle.site_hub.specs.Hub.{HasLooked};
ghost use Rattle.site_pages.specs.HubPages.{AnswersFrom};
ghost use Rattle.site_pages.specs.Serving.{page_config};

use crate::hub_source::HubPages;
use crate::pages::Pages;
use crate::serving::serve_pages;
use site_hub::HubName;
use std::alloc::Global;
use std::hash::RandomState;
use std::io;
use std::io::{Read, Write};

/// Answers what is asked for on a connection from looks at the running site, each request with what
/// one look at most tells, and hands the source back: its pass has looked, and done nothing else.
pub fn serve_hub_pages<'a, H: HubName, R: Read, W: Write>(
    alloc: Global,
    keys: RandomState,
    source: HubPages<'a, H>,
    reader: &mut R,
    writer: &mut W,
) -> (HubPages<'a, H>, io::Result<()>)
    ensures looked { HasLooked source.entry.pass result.0.pass }
    ensures served { (h : History) × ∥ IsServed page_config h ∥₁
        × Consumes (R.remaining reader.old) (R.remaining reader.new) h.received
        × Appends (W.contents writer.old) (W.contents writer.new) h.sent
        × Calls (AnswersFrom H.opening) source.entry result.0 [] h.calls
        × OnOk result.1 (IsDone h) }
{
    let mut pages = Pages::new(alloc, source);
    let served = serve_pages(alloc, keys, &mut pages, reader, writer);
    (pages.into_source(), served)
}
