//! Jobs over their input and standard output, with what standard error says beside.
use crate::fault::Fault;
use crate::terminals::Terminals;
use gate_causes::{
    Aside, Colours, FirstWriteRecorder, InputKind, InputPosition, LineReporter, RepliesFirst,
    ReportForm, refusal_cause,
};
use gate_explain::{AuditExplaining, Explaining, Telling};
use gate_prog::{Explain, Job, LaneFault, OutcomeRecorder, Source, run_audit, run_gate, run_job};
use std::fs::Files;
use std::hash::RandomState;
use std::io::{BufReader, BufWriter};
use std::random::RandomSource;
use std::sync::Wait;
use std::thread::Threads;
use std::time::Clock;
use std::{fs, io};

/// The size of each buffer, in bytes.
pub(crate) const BUFFER: usize = 65_536;

/// How a job takes its input.
#[derive(Clone, Copy)]
pub(crate) struct JobInput {
    /// Whether it is standard input.
    pub(crate) is_read: bool,
    /// What stands behind the opening.
    pub(crate) kind: InputKind,
    /// How standard error says what is wrong with lines, if it does.
    pub(crate) explains: Option<ReportForm>,
}

impl JobInput {
    /// Input that is not read.
    fn unread() -> JobInput {
        JobInput {
            is_read: false,
            kind: InputKind::Nothing,
            explains: None,
        }
    }

    /// Input that is read to its end.
    fn of(kind: InputKind, explains: bool) -> JobInput {
        JobInput {
            is_read: true,
            kind,
            explains: if explains {
                Some(ReportForm::Words)
            } else {
                None
            },
        }
    }
}

/// The form of an explanation, if there is one.
fn form_of(explain: Explain) -> Option<ReportForm> {
    match explain {
        Explain::No => None,
        Explain::Words => Some(ReportForm::Words),
        Explain::Json => Some(ReportForm::Json),
    }
}

/// How a job takes its input, one line for each.
pub(crate) fn input_of(job: &Job) -> JobInput {
    match job {
        Job::Check(_) => JobInput::unread(),
        Job::CheckInput => JobInput::of(InputKind::Nothing, false),
        Job::Run { explain, file, .. } => JobInput {
            is_read: match file {
                Some(path) => path.as_str() == "-",
                None => true,
            },
            kind: InputKind::Events,
            explains: form_of(*explain),
        },
        // Its input is its text.
        Job::Try(_) => JobInput::unread(),
        Job::Lanes { explain, .. } => JobInput::of(InputKind::Lanes, *explain),
        Job::Audit { explain } => JobInput {
            is_read: true,
            kind: InputKind::Journal,
            explains: form_of(*explain),
        },
        Job::Rules => JobInput::unread(),
        Job::Settings => JobInput::unread(),
        Job::Explain(_) => JobInput::unread(),
    }
}

/// The fault that a job stops for: if the input could not be read because it is past a limit, that limit and its line.
fn fault_at(fault: LaneFault, position: &InputPosition) -> Fault {
    match (fault, position.limit()) {
        (LaneFault::Read, Some(limit)) => Fault::Limit(position.line(), limit),
        _ => Fault::Lane(fault),
    }
}

/// How many bytes an input has, if it is a file.
fn input_length(files: &impl Files, path: &str) -> Option<u64> {
    match fs::metadata(files, path) {
        Ok(metadata) if metadata.is_file() => Some(metadata.len()),
        _ => None,
    }
}

/// Where the input of a job comes from.
#[derive(Clone, Copy)]
pub(crate) struct InputSource<'a> {
    /// The file, or `/dev/stdin`.
    pub(crate) path: &'a str,
    pub(crate) terminals: Terminals,
}

/// Whether the status of a job tells of its replies.
fn is_strict(job: &Job) -> bool {
    match job {
        Job::Run { strict, .. } => *strict,
        Job::Try(_) => true,
        _ => false,
    }
}

/// The status of a job whose status tells of its replies, by that of the replies.
fn strict_status(job: &Job, status: u8) -> u8 {
    match job {
        // What a trial can't read is a fault of its words.
        Job::Try(_) if status > 1 => 2,
        _ => status,
    }
}

/// Standard error for what a job says of lines and of replies. It waits for replies where the job explains them one by one, and
/// they go to a terminal too.
fn aside_of<'a, R: AllocGlobal>(rt: &'a R, job: &Job, terminals: Terminals) -> Aside<'a, R> {
    let has_replies = match job {
        Job::Run { .. } | Job::Try(_) | Job::Audit { .. } => true,
        _ => false,
    };
    let waits = has_replies && terminals.output && terminals.error;
    Aside::new(rt, rt.alloc(), waits, terminals.colours)
}

/// Runs a job over a reader and standard output, and gives its status.
pub(crate) fn run_over<
    R: AllocGlobal + Files + Clock + Print + Eprint + RandomSource + Threads + Wait + Sync,
    I: Source + Drop,
>(rt: &R, job: &Job, input: JobInput, source: InputSource<'_>, reader: I) -> Result<u8, Fault> {
    let alloc = rt.alloc();
    // Peers choose txids and outpoints: since they can't know the keys, they can't make the hashes collide.
    let Ok(hasher) = RandomState::new(rt) else {
        return Err(Fault::Random);
    };
    let Ok(writer) = BufWriter::with_capacity(alloc, BUFFER, io::writer(rt)) else {
        return Err(Fault::Lane(LaneFault::Memory));
    };
    let position = InputPosition::new();
    let strict = is_strict(job);
    let aside = aside_of(rt, job, source.terminals);
    let mut reporter = LineReporter::new(
        alloc,
        &aside,
        reader,
        input.kind,
        input.explains,
        &position,
    );
    let writer = OutcomeRecorder::new(RepliesFirst::new(writer, &aside), strict);
    let mut recorder = FirstWriteRecorder::new(alloc, writer);
    let ended = match (job, input.explains) {
        (Job::Run { .. } | Job::Try(_), Some(form)) => {
            let telling = Telling {
                position: &position,
                form,
                colours: source.terminals.colours,
                progress: source.terminals.error,
                length: input_length(rt, source.path),
            };
            let onlooker = Explaining::new(&aside, alloc, telling);
            run_gate(alloc, hasher, &onlooker, &mut reporter, &mut recorder)
        }
        (Job::Audit { .. }, Some(form)) => {
            let onlooker = AuditExplaining::new(&aside, alloc, &position, form);
            run_audit(alloc, hasher, &onlooker, &mut reporter, &mut recorder)
        }
        _ => run_job(rt, alloc, hasher, job, &mut reporter, &mut recorder),
    };
    aside.release();
    if let (Some(refusal), Some(last)) = (recorder.first(), reporter.last()) {
        tell_refusal(rt, refusal, &position, last, source.terminals.colours);
    }
    match ended {
        Ok(0) if strict => Ok(strict_status(job, recorder.writer.outcome().status())),
        Ok(status) => Ok(status),
        Err(fault) => Err(fault_at(fault, &position)),
    }
}

/// Runs a job over standard input and standard output, and gives its status.
fn run_streams<
    R: AllocGlobal + Files + Clock + Input + Print + Eprint + RandomSource + Threads + Wait + Sync,
>(rt: &R, job: &Job, terminals: Terminals) -> Result<u8, Fault> {
    let Ok(reader) = BufReader::with_capacity(rt.alloc(), BUFFER, rt.reader()) else {
        return Err(Fault::Lane(LaneFault::Memory));
    };
    let path = "/dev/stdin";
    run_over(
        rt,
        job,
        input_of(job),
        InputSource { path, terminals },
        reader,
    )
}

/// Runs a job over a file and standard output, and gives its status: 2 if the file can't be opened, which standard error
/// says.
fn run_file<R: AllocGlobal + Files + Clock + Print + Eprint + RandomSource + Threads + Wait + Sync>(
    rt: &R,
    job: &Job,
    path: &str,
    terminals: Terminals,
) -> Result<u8, Fault> {
    let file = match fs::open(rt, path) {
        Ok(file) => file,
        Err(error) => {
            let _written = eprintln!(rt; "gate: {path}: {error}");
            return Ok(2);
        }
    };
    let Ok(reader) = BufReader::with_capacity(rt.alloc(), BUFFER, file) else {
        return Err(Fault::Lane(LaneFault::Memory));
    };
    run_over(
        rt,
        job,
        input_of(job),
        InputSource { path, terminals },
        reader,
    )
}

/// Runs a job over its input and standard output, and gives its status.
pub(crate) fn run<
    R: AllocGlobal + Files + Clock + Input + Print + Eprint + RandomSource + Threads + Wait + Sync,
>(rt: &R, job: &Job, terminals: Terminals) -> Result<u8, Fault> {
    match job {
        Job::Run {
            file: Some(path),
            ..
        } if path.as_str() != "-" => run_file(rt, job, path.as_str(), terminals),
        _ => run_streams(rt, job, terminals),
    }
}

/// Says on standard error what is wrong with an opening, if the first text that was written refuses one.
fn tell_refusal<R: AllocGlobal + Eprint>(
    rt: &R,
    refusal: &[u8],
    position: &InputPosition,
    last: &[u8],
    colours: Colours,
) {
    let Ok(text) = std::str::from_utf8(refusal) else {
        return;
    };
    // Without memory for it, or if standard error takes nothing, only standard output says it.
    if let Ok(Some(cause)) = refusal_cause(rt.alloc(), text.trim_end(), position, last, colours) {
        let _written = eprintln!(rt; "gate: {cause}");
    }
}
