//! The program `archive`: a file for each command, and what they share.
#![tactic(auto)]

mod answering;
mod asking;
mod correct;
mod duties;
mod ending;
mod exchanging;
mod file;
mod folder;
mod gauges;
mod held;
mod hub;
mod listening;
mod log_tail;
mod moving;
mod output;
mod progress;
mod refused;
mod report;
mod serve;
mod simulate;
mod verifying;
mod viewing;

use crate::answering::{Answered, answer_wanted};
use crate::output::{ending_of, status_of_refusal};
use crate::refused::{Done, Refused};
use anyhow::Result;
use command_line::{is_want_of_memory, read_words};
use log::Log;
use std::io::{Print, Write};
use std::net::{Net, TcpListener, TcpStream};
use std::process::ExitCode;
use std::rt::HostRuntime;
use std::sync::Wait;
use std::thread::Threads;
use std::time::Clock;
use std::{env, io};

/// Prints the line of a fault, and behind it what it is about and why. It says the status.
fn told_refused(rt: &HostRuntime, refused: Refused<'_>) -> Result<u8> {
    let ending = ending_of(Err(refused.fault));
    let line = ending.line;
    eprintln!(rt; "{line}")?;
    refused.tell(rt);
    Ok(ending.status)
}

/// Prints an answer, and behind it the lines of a fault. It says the status.
fn told_done(rt: &HostRuntime, done: Done<'_>) -> Result<u8> {
    let Done { text, behind } = done;
    io::writer(rt).write_all(text.as_slice())?;
    match behind {
        None => Ok(ending_of(Ok(())).status),
        Some(refused) => told_refused(rt, refused),
    }
}

/// Prints an answer, or the lines of its fault. It says the status.
fn told(rt: &HostRuntime, answered: Answered<'_>) -> Result<u8> {
    match answered {
        Ok(done) => told_done(rt, done),
        Err(refused) => told_refused(rt, refused),
    }
}

fn run<
    R: Net<Listener = TcpListener, Stream = TcpStream>
        + Threads
        + Wait
        + Clock
        + Print
        + Log
        + Sync,
>(rt: &HostRuntime, host: &R) -> Result<u8> {
    let words: Vec<String> = env::args(rt)?.collect(rt.alloc())?;
    let words: Vec<&str> = words.iter().map(|word| word.as_str()).collect(rt.alloc())?;
    match read_words(rt.alloc(), words.as_slice()) {
        Ok(wanted) => told(rt, answer_wanted(rt, host, wanted)?),
        Err(error) => {
            error.print(rt)?;
            if is_want_of_memory(&error) {
                return Ok(1);
            }
            Ok(status_of_refusal(error.use_stderr()))
        }
    }
}

fn main(rt: HostRuntime) -> Result<ExitCode> {
    Ok(ExitCode::from(run(&rt, &rt)?))
}
