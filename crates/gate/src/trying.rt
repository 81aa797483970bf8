//! What `gate try` reads and does.
use crate::fault::Fault;
use crate::running::{BUFFER, InputSource, JobInput, run_over};
use crate::terminals::Terminals;
use gate_causes::{InputKind, ReportForm};
use gate_prog::{
    Job, LaneFault, PsbtFault, Trial, TrialFault, decode_psbt, read_psbt, read_trial, trial_job,
};
use std::alloc::Global;
use std::fs;
use std::fs::Files;
use std::io::{BufRead, BufReader};
use std::random::RandomSource;
use std::sync::Wait;
use std::thread::Threads;
use std::time::{Clock, SystemTime, UNIX_EPOCH};

/// The most bytes that are read of transactions on standard input, or of a PSBT.
const MAX_INPUT: usize = 1 << 30;

/// All that standard input has.
fn whole_input<R: AllocGlobal + Input>(rt: &R) -> Result<Vec<u8>, Fault> {
    let Ok(mut reader) = BufReader::with_capacity(rt.alloc(), BUFFER, rt.reader()) else {
        return Err(Fault::Lane(LaneFault::Memory));
    };
    whole_of(rt.alloc(), &mut reader)
}

/// All that a reader has.
fn whole_of<B: BufRead>(alloc: Global, reader: &mut B) -> Result<Vec<u8>, Fault> {
    let mut input = Vec::new(alloc);
    // each round takes a byte at least, so the last one finds the end, or one byte too many
    for _ in 0..MAX_INPUT + 1 {
        let Ok(bytes) = reader.fill_buf() else {
            return Err(Fault::Lane(LaneFault::Read));
        };
        let count = bytes.len();
        if count == 0 {
            return Ok(input);
        }
        if input.len().saturating_add(count) > MAX_INPUT {
            return Err(Fault::Lane(LaneFault::Memory));
        }
        input.extend_from_slice(bytes)?;
        reader.consume(count);
    }
    Err(Fault::Lane(LaneFault::Memory))
}

/// The second that it is now, since 1970; 0 without a clock.
fn second_now(clock: &impl Clock) -> u32 {
    let Ok(now) = SystemTime::now(clock) else {
        return 0;
    };
    match now.duration_since(UNIX_EPOCH) {
        Ok(since) => u32::try_from(since.as_secs()).unwrap_or(u32::MAX),
        Err(_) => 0,
    }
}

/// Says on standard error that scripts are not run, and which verdict they have.
fn tell_verdict<R: Eprint>(rt: &R, trial: &Trial<'_>) {
    let verdict = trial.verdict;
    let _written = if trial.json {
        eprintln!(rt; "{{\"scripts\":\"not run\",\"verdict\":\"{verdict}\"}}")
    } else if verdict == "ok" {
        eprintln!(rt; "gate: scripts are not run, and count as good; --verdict says otherwise")
    } else {
        eprintln!(rt; "gate: scripts are not run; the verdict on each is {verdict}")
    };
}

/// Whether the PSBT that words behind `try` name is standard input.
fn is_psbt_input(words: &[&str]) -> bool {
    let mut is_named = false;
    for word in words {
        if is_named {
            return *word == "-";
        }
        is_named = *word == "--psbt";
    }
    false
}

/// Says on standard error what is wrong with a PSBT, if it can't be taken, and gives the status of a fault of usage.
fn psbt_status<R: Eprint>(
    rt: &R,
    path: &str,
    taken: Result<(), PsbtFault>,
) -> Result<Option<u8>, Fault> {
    match taken {
        Ok(()) => Ok(None),
        Err(PsbtFault::Memory) => Err(Fault::Lane(LaneFault::Memory)),
        Err(fault) => {
            let _written = eprintln!(rt; "gate: {path}: {fault}");
            Ok(Some(2))
        }
    }
}

/// Takes the PSBT of these bytes into a trial: a fault if it can't be taken.
fn take_psbt(alloc: Global, trial: &mut Trial<'_>, bytes: &[u8]) -> Result<(), PsbtFault> {
    let decoded = decode_psbt(alloc, bytes)?;
    let psbt = read_psbt(alloc, &decoded)?;
    trial.take_psbt(alloc, &psbt)
}

/// Takes the PSBT that a trial names, standard input if it is `-`, and gives a status if there is none or it can't be taken.
fn take_named_psbt<R: AllocGlobal + Files + Eprint>(
    rt: &R,
    trial: &mut Trial<'_>,
    input: &[u8],
) -> Result<Option<u8>, Fault> {
    let alloc = rt.alloc();
    let Some(path) = trial.psbt else {
        return Ok(None);
    };
    if path == "-" {
        return psbt_status(rt, path, take_psbt(alloc, trial, input));
    }
    let file = match fs::open(rt, path) {
        Ok(file) => file,
        Err(error) => {
            let _written = eprintln!(rt; "gate: {path}: {error}");
            return Ok(Some(2));
        }
    };
    let Ok(mut reader) = BufReader::with_capacity(alloc, BUFFER, file) else {
        return Err(Fault::Lane(LaneFault::Memory));
    };
    let bytes = whole_of(alloc, &mut reader)?;
    psbt_status(rt, path, take_psbt(alloc, trial, &bytes))
}

/// Tries what the words behind `try` name, where `-` stands for the words of standard input, or for the PSBT that it is, and
/// gives the status: 2 for a fault of usage.
pub(crate) fn run_trial<
    R: AllocGlobal + Files + Clock + Input + Print + Eprint + RandomSource + Threads + Wait + Sync,
>(rt: &R, words: &[&str], terminals: Terminals) -> Result<u8, Fault> {
    let alloc = rt.alloc();
    let input = if words.contains(&"-") {
        whole_input(rt)?
    } else {
        Vec::new(alloc)
    };
    let is_psbt = is_psbt_input(words);
    let spelled: &[u8] = if is_psbt { &[] } else { input.as_slice() };
    let Ok(text) = std::str::from_utf8(spelled) else {
        return Err(Fault::Words);
    };
    let mut all = Vec::new(alloc);
    for word in words {
        if *word == "-" && !is_psbt {
            for word in text.split_ascii_whitespace() {
                all.push(word)?;
            }
        } else {
            all.push(*word)?;
        }
    }
    let mut trial = match read_trial(alloc, all.as_slice(), second_now(rt)) {
        Ok(trial) => trial,
        Err(TrialFault::Usage(text)) => {
            let _written = eprintln!(rt;
                "error: {text}\n\nUsage: gate try [OPTIONS] [HEX]\n\nFor more information, try '--help'."
            );
            return Ok(2);
        }
        Err(TrialFault::Memory) => return Err(Fault::Lane(LaneFault::Memory)),
    };
    if let Some(status) = take_named_psbt(rt, &mut trial, input.as_slice())? {
        return Ok(status);
    }
    let Ok(job) = trial_job(alloc, &trial) else {
        return Err(Fault::Lane(LaneFault::Memory));
    };
    tell_verdict(rt, &trial);
    let form = if trial.json {
        ReportForm::Json
    } else {
        ReportForm::Words
    };
    let Job::Try(text) = &job else {
        return Ok(2);
    };
    let input = JobInput {
        is_read: false,
        kind: InputKind::Events,
        explains: Some(form),
    };
    let source = InputSource {
        path: "",
        terminals,
    };
    run_over(rt, &job, input, source, text.as_str().as_bytes())
}

/// The words behind `try`, unless they ask for help.
pub(crate) fn trial_words<'a, 'b>(words: &'b [&'a str]) -> Option<&'b [&'a str]> {
    match words {
        ["try", rest @ ..] if !rest.contains(&"--help") && !rest.contains(&"-h") => Some(rest),
        _ => None,
    }
}
