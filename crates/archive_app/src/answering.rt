//! What a command line asks for, done.

ghost use Rattle.command_words.specs.Words.{IsInRange};
ghost use Rattle.command_line.specs.There.{IsWellAsked};

use crate::asking::{correct_at, report_at};
use crate::correct::correct;
use crate::exchanging::exchange;
use crate::moving::move_operations;
use crate::refused::{Done, Refused, about};
use crate::report::report;
use crate::serve::serve;
use crate::simulate::answer_script;
use crate::verifying::verify;
use anyhow::Result;
use command_line::Wanted;
use command_words::Asked;
use log::Log;
use std::alloc::Global;
use std::io::Print;
use std::net::{Net, TcpListener, TcpStream};
use std::rt::HostRuntime;
use std::sync::Wait;
use std::thread::Threads;
use std::time::Clock;

/// What is left to print on standard output and to tell behind it, or why there is nothing.
pub type Answered<'a> = std::result::Result<Done<'a>, Refused<'a>>;

/// A command that has printed what it has to.
fn printed<'a, T: Drop>(alloc: Global, ended: std::result::Result<T, Refused<'a>>) -> Answered<'a> {
    match ended {
        Ok(_) => Ok(Done {
            text: Vec::new(alloc),
            behind: None,
        }),
        Err(refused) => Err(refused),
    }
}

/// A command that leaves a text to print.
fn told<'a>(ended: std::result::Result<Vec<u8>, Refused<'a>>) -> Answered<'a> {
    match ended {
        Ok(text) => Ok(Done { text, behind: None }),
        Err(refused) => Err(refused),
    }
}

/// Does what a command line asks for here. It fails where standard output does.
fn answer<
    'a,
    R: Net<Listener = TcpListener, Stream = TcpStream>
        + Threads
        + Wait
        + Clock
        + Print
        + Log
        + Sync,
>(rt: &HostRuntime, host: &R, asked: Asked<'a>) -> Result<Answered<'a>>
    requires ranges { IsInRange asked }
{
    match asked {
        Asked::Simulate => Ok(printed(rt.alloc(), about("", answer_script(rt)))),
        Asked::Report(reporting) => Ok(report(rt, host, reporting)),
        Asked::Correct(correcting) => Ok(correct(rt, host, correcting)),
        Asked::Exchange(exchanging) => Ok(exchange(rt, host, exchanging)),
        Asked::Move(moving) => Ok(move_operations(rt, moving)),
        Asked::Verify(verifying) => Ok(printed(rt.alloc(), verify(rt, verifying)?)),
        Asked::Serve(serving) => Ok(printed(rt.alloc(), serve(rt, host, &serving)?)),
    }
}

/// Does what a command line asks for, here or of a running site. It fails where standard output
/// does.
pub fn answer_wanted<
    'a,
    R: Net<Listener = TcpListener, Stream = TcpStream>
        + Threads
        + Wait
        + Clock
        + Print
        + Log
        + Sync,
>(rt: &HostRuntime, host: &R, wanted: Wanted<'a>) -> Result<Answered<'a>>
    requires asked { IsWellAsked wanted }
{
    match wanted {
        Wanted::Here(asked) => answer(rt, host, asked),
        Wanted::CorrectAt(correcting) => Ok(told(correct_at(rt, host, correcting))),
        Wanted::ReportAt(reporting) => Ok(told(report_at(rt, host, reporting))),
    }
}
