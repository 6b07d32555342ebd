//! The desk of a running site.

ghost use Rattle.std.specs.Prelude.{◌≡◌, IfOk, IfErr, Some, MatchResult, map};
ghost use Rattle.command_words.specs.declared.Change.{Change};
ghost use Rattle.site_desk.specs.Desks.{GoesOn, Makes, MakesNone, ComesTo, AnswersAt};
ghost use Rattle.site_desk.specs.Desks.{WhyUnmade, WhyRefused, WhyNone};
ghost use Rattle.site_desk.specs.Making.{change_of};

use crate::making::{allowed, change_by, keep, next_over};
use crate::requests::posted;
use crate::responses::{refuse, respond};
use crate::stamps::Stamps;
use crate::top::top_of;
use crate::{DeskFault, Made, Words, answered, read};
use bytes::Bytes;
use command_words::Change;
use http::Request;
use http_server::{Response, Service};
use hub_exchange::{Extract, LedgerName, Put};
use site_hub::{HubName, Keeper, Pass, Shows};
use std::alloc::{AllocError, Global};
use std::marker::Model;
use std::sync::{Mutex, Wait};

/// A pass with the shared keeper, the way to the shelf, what is known of the shelf's ledger, the
/// names of the site, its number, and the greatest counter that the desk has made.
pub struct SiteDesk<
    'a,
    H: HubName,
    T: Shows<H>,
    R: Wait + Drop,
    S: Wait,
    N: LedgerName,
    P: Put<N> + Copy,
> {
    rt: &'a S,
    alloc: Global,
    keeper: &'a Mutex<Keeper<H, T, R>>,
    shelf: P,
    pass: Pass<H>,
    extract: Extract<N>,
    names: &'a [&'a str],
    site: u16,
    last: u64,
}

impl<'a, H: HubName, T: Shows<H>, R: Wait + Drop, S: Wait, N: LedgerName, P: Put<N> + Copy> Model
    for SiteDesk<'a, H, T, R, S, N, P> {
    ghost use Rattle.std.specs.Prelude.{map};
    ghost use Rattle.site_desk.specs.Desks.{AtDesk};

    ghost Value = { AtDesk };

    ghost view = { λ d. record {
      pass = d.pass;
      known = d.extract;
      names = map (λ name. name.now) d.names.now;
      site = d.site;
      last = d.last;
    } };
}

impl<
    'a,
    H: HubName,
    T: Shows<H>,
    R: Wait + Drop,
    S: Wait,
    N: LedgerName,
    P: Put<N> + Copy,
> SiteDesk<'a, H, T, R, S, N, P> {
    /// The desk of the site of a number, which may be asked by these names, and has made
    /// corrections up to this counter.
    pub fn new(
        rt: &'a S,
        alloc: Global,
        keeper: &'a Mutex<Keeper<H, T, R>>,
        shelf: P,
        pass: Pass<H>,
        extract: Extract<N>,
        names: &'a [&'a str],
        stamps: Stamps,
    ) -> SiteDesk<'a, H, T, R, S, N, P>
        ensures { result ≡ record {
          pass = pass;
          known = extract;
          names = map (λ name. name.now) names.now;
          site = stamps.site;
          last = stamps.last;
        } }
    {
        SiteDesk {
            rt,
            alloc,
            keeper,
            shelf,
            pass,
            extract,
            names,
            site: stamps.site,
            last: stamps.last,
        }
    }

    /// Gives the pass back, what is known of the ledger, and the greatest counter that was made.
    pub fn into_parts(self) -> (Pass<H>, Extract<N>, u64)
        ensures pass { result.0 ≡ self.entry.pass }
        ensures known { result.1 ≡ self.entry.known }
        ensures last { result.2 ≡ self.entry.last }
    {
        let SiteDesk {
            rt: _,
            alloc: _,
            keeper: _,
            shelf: _,
            pass,
            extract,
            names: _,
            site: _,
            last,
        } = self;
        (pass, extract, last)
    }

    /// Makes a correction of which each part may be.
    fn correct(&mut self, change: Change) -> Result<Made, DeskFault>
        ensures made { MatchResult result (Makes H.opening self.old change self.new)
            (MakesNone H.opening self.old (λ asked. asked ≡ change) self.new) }
        ensures why { IfErr result (WhyUnmade H.opening self.old change self.new) }
        ensures goes_on { GoesOn self.old self.new }
    {
        let top = top_of(&mut self.pass, self.last)?;
        let made = next_over(self.site, top, change)?;
        let stamp = made.stamp();
        // The counter is used up from here on, whatever comes of the correction. One thread has the
        // desk, so no two corrections of a server have one stamp.
        self.last = stamp.counter;
        keep(
            self.rt,
            self.keeper,
            &mut self.shelf,
            &mut self.pass,
            &mut self.extract,
            made,
        )?;
        Ok(Made {
            counter: stamp.counter,
            site: stamp.site,
        })
    }

    /// Makes the correction that four words ask for.
    fn correct_by(&mut self, words: &Words) -> Result<Made, DeskFault>
        ensures made { IfOk result (λ made. (change : Change)
            × (change_of words.now ≡ Some change) × Makes H.opening self.old change self.new made) }
        ensures none { IfErr result (MakesNone H.opening self.old
            (λ change. change_of words.now ≡ Some change) self.new) }
        ensures why { IfErr result (WhyRefused H.opening self.old words.now self.new) }
        ensures goes_on { GoesOn self.old self.new }
    {
        let change = change_by(self.alloc, words)?;
        allowed(self.alloc, &change)?;
        self.correct(change)
    }

    /// The names of the site.
    fn names(&self) -> &[&str]
        ensures { map (λ name. name.now) result.now ≡ self.now.names }
    {
        self.names
    }

    /// Makes the correction that a request asks for.
    fn comes(&mut self, request: &Request<Bytes>) -> Result<Made, DeskFault>
        ensures comes { ComesTo H.opening self.old request.now self.new result }
        ensures why { IfErr result (WhyNone H.opening self.old request.now self.new) }
        ensures goes_on { GoesOn self.old self.new }
    {
        let posted = posted(request, self.names());
        let words = read(self.alloc, &posted)?;
        self.correct_by(&words)
    }
}

impl<'a, H: HubName, T: Shows<H>, R: Wait + Drop, S: Wait, N: LedgerName, P: Put<N> + Copy> Service
    for SiteDesk<'a, H, T, R, S, N, P> {
    ghost answers = { λ old request response new. AnswersAt H.opening old request response new };

    fn call(
        &mut self,
        request: &Request<Bytes>,
        response: &mut Response,
    ) -> Result<(), AllocError> {
        let outcome = self.comes(request);
        match answered(self.alloc, outcome) {
            Ok(answer) => respond(response, answer),
            Err(_refused) => refuse(response),
        }
        Ok(())
    }
}
