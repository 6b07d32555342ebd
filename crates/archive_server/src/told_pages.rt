//! A connection on which pages are asked for: what is counted first, and then what is answered.

ghost use Rattle.std.specs.Prelude.{◌≡◌, OnOk, map};
ghost use Rattle.std.specs.Io.KnownBytes.{Appends, Consumes};
ghost use Rattle.http_server.specs.History.{History, IsServed, IsDone};
ghost use Rattle.site_pages.specs.Serving.{page_config};
ghost use Rattle.std.specs.Option.{option_copied};
ghost use Rattle.site_hub.specs.Hub.{HasLooked};
ghost use Rattle.archive_server.specs.Telling.{AreTold};

use crate::known::Known;
use crate::paging::Paging;
use crate::samples::counted;
use archive_page::Sample;
use site_hub::{HubName, Pass};
use site_pages::{HubPages, serve_hub_pages};
use std::alloc::Global;
use std::io;
use std::io::{Read, Write};

/// Why the shelf refuses, as bytes.
fn bytes_of(words: Option<&'static str>) -> Option<&'static [u8]>
    ensures { option_copied result ≡ option_copied words.entry }
{
    match words {
        None => None,
        Some(words) => Some(words.as_bytes()),
    }
}

/// What pages are told from.
fn source_of<'a, H: HubName>(
    pass: Pass<H>,
    name: &'a [u8],
    names: &'a [&'a str],
    known: &'a Known,
    samples: &'a [Sample],
) -> HubPages<'a, H>
    ensures pass { result.pass ≡ pass }
    ensures name { result.name ≡ name.now }
    ensures names { result.names ≡ map (λ name. name.now) names.now }
    ensures fault { result.fault ≡ known.now.refusal }
    ensures facts { result.facts ≡ known.now.facts }
    ensures samples { result.samples ≡ samples.now }
{
    HubPages {
        pass,
        name,
        names,
        fault: bytes_of(known.refusal),
        facts: known.facts.as_slice(),
        samples,
    }
}

/// Gives the pass back.
fn pass_of<'a, H: HubName>(source: HubPages<'a, H>) -> Pass<H>
    ensures { result ≡ source.entry.pass }
{
    let HubPages { pass, .. } = source;
    pass
}

/// Answers what is asked for on a connection, over any reader and writer, from looks of a pass, and
/// from what the server knows of itself.
pub(crate) fn tell_pages<H: HubName, I: Read, O: Write>(
    alloc: Global,
    paging: Paging<'_>,
    known: &Known,
    pass: Pass<H>,
    reader: &mut I,
    writer: &mut O,
) -> (Pass<H>, io::Result<()>)
    ensures looked { HasLooked pass result.0 }
    ensures served { (h : History) × ∥ IsServed page_config h ∥₁
        × AreTold H.opening paging.entry.name.now paging.entry.names.now known.now pass h
        × Consumes (I.remaining reader.old) (I.remaining reader.new) h.received
        × Appends (O.contents writer.old) (O.contents writer.new) h.sent
        × OnOk result.1 (IsDone h) }
{
    let mut onward = pass;
    let samples = counted(alloc, &mut onward, known);
    let source = source_of(onward, paging.name, paging.names, known, samples.as_slice());
    let (source, served) = serve_hub_pages(alloc, paging.keys, source, reader, writer);
    (pass_of(source), served)
}
