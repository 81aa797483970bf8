//! The program `gate`: it hands its words, standard input and standard output to `gate_prog`.
//!
//! If it stops before its work is done, standard error has one line that says why.
#![tactic(auto)]

mod fault;
mod running;
mod terminals;
mod trying;

use crate::fault::Fault;
use crate::running::{input_of, run};
use crate::terminals::Terminals;
use crate::trying::{run_trial, trial_words};
use gate_causes::{rule_near, transaction_cause};
use gate_prog::{ArgsFault, Job, LaneFault, read_args};
use std::alloc::{AllocError, Global};
use std::fs::Files;
use std::io::ErrorKind;
use std::process::ExitCode;
use std::random::RandomSource;
use std::rt::Env;
use std::sync::Wait;
use std::thread::Threads;
use std::time::Clock;
use std::{env, io};

fn main(rt: HostRuntime) -> ExitCode {
    match status(&rt, Terminals::of(&rt)) {
        Ok(status) => ExitCode::from(status),
        Err(fault) => {
            // If standard error takes nothing either, only the status says it.
            let _written = eprintln!(rt; "gate: {fault}");
            ExitCode::from(fault.status())
        }
    }
}

/// The words behind the program's name.
fn words(rt: &(impl Env + AllocGlobal)) -> Result<Vec<String>, Fault> {
    match env::args(rt) {
        Ok(args) => Ok(args.skip(1).collect(rt.alloc())?),
        Err(error) => Err(match error.kind() {
            ErrorKind::InvalidData => Fault::Words,
            _ => Fault::Lane(LaneFault::Memory),
        }),
    }
}

/// Whether the words ask for help on `help`, which is answered by the help itself.
fn asks_for_help(args: &[String]) -> bool {
    match args {
        [first, second] => {
            first.as_str() == "help" && (second.as_str() == "--help" || second.as_str() == "-h")
        }
        _ => false,
    }
}

/// Says on standard error why a word spells no transaction, if it doesn't.
fn tell_undecodable<R: AllocGlobal + Eprint>(rt: &R, word: &str) {
    if let Ok(Some(cause)) = transaction_cause(rt.alloc(), word) {
        // Where it is no hexadecimal text, it may be the name of a file.
        let _written = if word.bytes().all(|digit| digit.is_ascii_hexdigit()) {
            eprintln!(rt; "gate: {cause}")
        } else {
            eprintln!(rt; "gate: {cause}; gate check - reads standard input")
        };
    }
}

/// Says on standard error that nothing has this name, and what has one that is near.
fn tell_unnamed<R: AllocGlobal + Eprint>(rt: &R, word: &str) {
    let near = match rule_near(rt.alloc(), word) {
        Ok(near) => near,
        Err(_) => None,
    };
    let _written = match near {
        Some(near) => eprintln!(rt;
            "gate: no rule and no token is named \"{word}\"; is it {near}?"
        ),
        None => eprintln!(rt;
            "gate: no rule and no token is named \"{word}\"; gate rules lists them"
        ),
    };
}

/// Runs a job over the standard streams, and gives its status. Standard error says if input is read from a terminal,
/// and what is wrong with a word.
fn run_told<
    R: AllocGlobal + Files + Clock + Input + Print + Eprint + RandomSource + Threads + Wait + Sync,
>(rt: &R, job: &Job, terminals: Terminals) -> Result<u8, Fault> {
    if terminals.input && input_of(job).is_read {
        let _written = eprintln!(rt; "gate: reads standard input, to its end");
    }
    let status = run(rt, job, terminals)?;
    match job {
        Job::Explain(word) if status != 0 => tell_unnamed(rt, word.as_str()),
        Job::Check(word) if status != 0 => tell_undecodable(rt, word.as_str()),
        _ => {}
    }
    Ok(status)
}

/// A word of the command line by its usual name.
fn usual<'a>(word: &'a str) -> &'a str {
    match word {
        "--explain=json" => "--explain-json",
        _ => word,
    }
}

/// The words behind `explain` as one, if there are several: a token may have more than one word.
fn explained_word(alloc: Global, args: &[String]) -> Result<Option<String>, AllocError> {
    let [first, second, rest @ ..] = args else {
        return Ok(None);
    };
    if first.as_str() != "explain" || rest.is_empty() {
        return Ok(None);
    }
    let mut word = String::from_str(alloc, second.as_str())?;
    for more in rest {
        if more.as_str().starts_with('-') {
            return Ok(None);
        }
        word.push(' ')?;
        word.push_str(more.as_str())?;
    }
    Ok(Some(word))
}

/// What these words ask for.
// If it were inlined, what it takes of the stack would lie below each job.
#[inline(never)]
fn job_of<'a>(alloc: Global, words: &'a [&'a str]) -> Result<Job, ArgsFault> {
    read_args(alloc, words)
}

/// Does what these words ask for, and gives the status.
fn answer<
    R: AllocGlobal + Files + Clock + Input + Print + Eprint + RandomSource + Threads + Wait + Sync,
>(rt: &R, args: &[String], terminals: Terminals) -> Result<u8, Fault> {
    let alloc = rt.alloc();
    let explained = explained_word(alloc, args)?;
    let mut words = Vec::new(alloc);
    for word in args {
        words.push(usual(word.as_str()))?;
    }
    if asks_for_help(args) {
        words.truncate(1);
    }
    if let Some(word) = &explained {
        words.truncate(1);
        words.push(word.as_str())?;
    }
    if let Some(words) = trial_words(words.as_slice()) {
        return run_trial(rt, words, terminals);
    }
    match job_of(alloc, words.as_slice()) {
        Ok(job) => run_told(rt, &job, terminals),
        Err(ArgsFault::Help(text)) => printed(rt.print(text), 0),
        Err(ArgsFault::Usage(text)) => printed(rt.eprint(text), 2),
        Err(ArgsFault::Memory) => Err(Fault::Lane(LaneFault::Memory)),
    }
}

/// Does what the words behind the program's name ask for, and gives the status.
fn status<
    R: AllocGlobal
        + Env
        + Files
        + Clock
        + Input
        + Print
        + Eprint
        + RandomSource
        + Threads
        + Wait
        + Sync,
>(rt: &R, terminals: Terminals) -> Result<u8, Fault> {
    let args = words(rt)?;
    let status = answer(rt, args.as_slice(), terminals);
    drop(args);
    status
}

/// The status after a text was printed, or a fault if it could not be printed.
fn printed(done: io::Result<()>, status: u8) -> Result<u8, Fault> {
    match done {
        Ok(()) => Ok(status),
        Err(_) => Err(Fault::Lane(LaneFault::Write)),
    }
}
