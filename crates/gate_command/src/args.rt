//! The words of the command line.
ghost use Rattle.std.specs.Prelude.{◌≡◌, Bool, ℕ, List, [], ◌∷◌, IfOk, IfSome, Option, Some, None, codes};
ghost use Rattle.clap.specs.Words.{app_of, found_of, kind_of, new_rule, one_of, rows_of, subcommand_rows_of};
ghost use Rattle.gate_command.specs.Commands.{AnswersTo, AsksFor, IsCommandOf, IsMisuse, IsOption, IsPlainIfGiven, IsPlainWord, audit_app, audit_words, bare_app, check_app, digits_job, explain_app, explain_of, file_rule, flag_of, former_run_words, gate_app, job_of_name, job_of_run, lanes_app, lanes_job, lanes_words, named_job, named_of, option_rule, rules_app, run_app, run_words, settings_app, switch_rule, try_app, word_job, word_now, words_now, workers_in, workers_rule};
ghost use Rattle.gate_command.specs.declared.args.ArgsFault.TheVariants.{Memory};

use crate::help;
use crate::job::{Explain, Job};
use clap::error::ErrorKind;
use clap::{Arg, ArgAction, ArgMatches, Command};
use gate_bytes::Text;
use gate_lines::read_number;
use gate_print::VERSION;
use gate_verify::Workers;
use std::alloc::{AllocError, Global};
use thiserror::Error;

/// Why the words of the command line name no job.
#[derive(Debug, Drop, Error)]
pub enum ArgsFault {
    /// The words ask for help or for the version: the text is for standard output, and the status 0.
    #[error("{0}")]
    Help(String),
    /// A fault of usage: the text is for standard error, and the status 2.
    #[error("{0}")]
    Usage(String),
    #[error("out of memory")]
    Memory,
}

impl From<AllocError> for ArgsFault {
    ghost from_gives = { λ _ fault. fault ≡ Memory };

    fn from(_e: AllocError) -> ArgsFault {
        ArgsFault::Memory
    }
}

/// The switches of a command; a switch that the command lacks is off.
#[derive(Clone, Copy)]
struct CommandSwitches {
    journal: bool,
    explain: bool,
    json: bool,
    strict: bool,
}

/// The switch `--explain` of the commands that read lines, with this text in their help.
fn explain_switch<'a>(alloc: Global, help: &'a str) -> Arg<'a>
    ensures { IsOption (switch_rule (codes "explain")) result }
{
    Arg::new(alloc, "explain")
        .long("explain")
        .action(ArgAction::SetTrue)
        .help(help)
}

/// The switch `--journal` of `gate lanes`.
fn journal_switch<'a>(alloc: Global) -> Arg<'a>
    ensures { IsOption (switch_rule (codes "journal")) result }
{
    Arg::new(alloc, "journal")
        .long("journal")
        .action(ArgAction::SetTrue)
        .help(help::LANES_JOURNAL)
}

/// The switch `--explain-json` of `gate run` and `gate audit`, with this text in their help.
fn explain_json_switch<'a>(alloc: Global, help: &'a str) -> Arg<'a>
    ensures { IsOption (switch_rule (codes "explain-json")) result }
{
    Arg::new(alloc, "explain-json")
        .long("explain-json")
        .action(ArgAction::SetTrue)
        .help(help)
}

/// The switch `--strict` of `gate run`.
fn strict_switch<'a>(alloc: Global) -> Arg<'a>
    ensures { IsOption (switch_rule (codes "strict")) result }
{
    Arg::new(alloc, "strict")
        .long("strict")
        .action(ArgAction::SetTrue)
        .help(help::RUN_STRICT)
}

/// The word FILE of `gate run`.
fn file_word<'a>(alloc: Global) -> Arg<'a>
    ensures { IsOption file_rule result }
{
    Arg::new(alloc, "FILE").help(help::RUN_FILE)
}

/// The option `--workers N` of `gate lanes`.
fn workers_option<'a>(alloc: Global) -> Arg<'a>
    ensures { IsOption workers_rule result }
{
    Arg::new(alloc, "workers")
        .long("workers")
        .value_name("N")
        .help(help::LANES_WORKERS)
}

/// The option `--workers N` of `gate run`, which is gone. It is read so that a fault can say so, and no help names it.
fn former_workers_option<'a>(alloc: Global) -> Arg<'a>
    ensures { IsOption workers_rule result }
{
    Arg::new(alloc, "workers")
        .long("workers")
        .value_name("N")
        .hide(true)
}

fn check_command<'a>(alloc: Global) -> Result<Command<'a>, AllocError>
    ensures { IfOk result (IsCommandOf check_app) }
{
    let hex = Arg::new(alloc, "WORD")
        .value_name("HEX")
        .required(true)
        .help(help::CHECK_HEX);
    Command::new(alloc, "check")
        .about(help::CHECK)
        .after_help(help::CHECK_END)
        .arg(hex)
}

fn run_command<'a>(alloc: Global) -> Result<Command<'a>, AllocError>
    ensures { IfOk result (IsCommandOf run_app) }
{
    Command::new(alloc, "run")
        .about(help::RUN)
        .after_help(help::RUN_END)
        .arg(file_word(alloc))?
        .arg(former_workers_option(alloc))?
        .arg(explain_switch(alloc, help::RUN_EXPLAIN))?
        .arg(explain_json_switch(alloc, help::RUN_EXPLAIN_JSON))?
        .arg(strict_switch(alloc))
}

/// An option of `gate try` with a value that is shown by this name.
fn try_option<'a>(alloc: Global, name: &'a str, value: &'a str, help: &'a str) -> Arg<'a>
    ensures { IsOption (option_rule name.entry.now) result }
{
    Arg::new(alloc, name)
        .long(name)
        .value_name(value)
        .help(help)
}

/// The transactions of `gate try`.
fn try_word<'a>(alloc: Global) -> Arg<'a>
    ensures { IsOption (new_rule (codes "HEX")) result }
{
    Arg::new(alloc, "HEX").help(help::TRY_HEX)
}

/// The switch `--json` of `gate try`.
fn json_switch<'a>(alloc: Global) -> Arg<'a>
    ensures { IsOption (switch_rule (codes "json")) result }
{
    Arg::new(alloc, "json")
        .long("json")
        .action(ArgAction::SetTrue)
        .help(help::TRY_JSON)
}

/// `gate try`, for the help alone: its words are read in `gate_try`.
fn try_command<'a>(alloc: Global) -> Result<Command<'a>, AllocError>
    ensures { IfOk result (IsCommandOf try_app) }
{
    Command::new(alloc, "try")
        .about(help::TRY)
        .after_help(help::TRY_END)
        .arg(try_word(alloc))?
        .arg(try_option(alloc, "coin", "COIN", help::TRY_COIN))?
        .arg(try_option(alloc, "psbt", "FILE", help::TRY_PSBT))?
        .arg(try_option(alloc, "height", "HEIGHT", help::TRY_HEIGHT))?
        .arg(try_option(alloc, "policy", "NAME", help::TRY_POLICY))?
        .arg(try_option(alloc, "set", "SETTING", help::TRY_SET))?
        .arg(try_option(alloc, "tip", "HEIGHT", help::TRY_TIP))?
        .arg(try_option(alloc, "time", "SECONDS", help::TRY_TIME))?
        .arg(try_option(alloc, "verdict", "VERDICT", help::TRY_VERDICT))?
        .arg(json_switch(alloc))
}

fn lanes_command<'a>(alloc: Global) -> Result<Command<'a>, AllocError>
    ensures { IfOk result (IsCommandOf lanes_app) }
{
    Command::new(alloc, "lanes")
        .about(help::LANES)
        .after_help(help::LANES_END)
        .arg(workers_option(alloc))?
        .arg(journal_switch(alloc))?
        .arg(explain_switch(alloc, help::EXPLAIN_LINES))
}

fn audit_command<'a>(alloc: Global) -> Result<Command<'a>, AllocError>
    ensures { IfOk result (IsCommandOf audit_app) }
{
    Command::new(alloc, "audit")
        .about(help::AUDIT)
        .after_help(help::AUDIT_END)
        .arg(explain_switch(alloc, help::AUDIT_EXPLAIN))?
        .arg(explain_json_switch(alloc, help::AUDIT_EXPLAIN_JSON))
}

fn rules_command<'a>(alloc: Global) -> Command<'a>
    ensures { IsCommandOf rules_app result }
{
    Command::new(alloc, "rules")
        .about(help::RULES)
        .after_help(help::RULES_END)
}

fn settings_command<'a>(alloc: Global) -> Command<'a>
    ensures { IsCommandOf settings_app result }
{
    Command::new(alloc, "settings")
        .about(help::SETTINGS)
        .after_help(help::SETTINGS_END)
}

fn explain_command<'a>(alloc: Global) -> Result<Command<'a>, AllocError>
    ensures { IfOk result (IsCommandOf explain_app) }
{
    let word = Arg::new(alloc, "WORD")
        .required(true)
        .help(help::EXPLAIN_WORD);
    Command::new(alloc, "explain")
        .about(help::EXPLAIN)
        .after_help(help::EXPLAIN_END)
        .arg(word)
}

/// The program's command without its subcommands.
fn bare_command<'a>(alloc: Global) -> Result<Command<'a>, AllocError>
    ensures { IfOk result (λ command. app_of command ≡ bare_app) }
{
    Command::new(alloc, "gate")
        .about(help::GATE)
        .after_help(help::GATE_END)
        .version(VERSION)
        .no_binary_name(true)
        .subcommand_required(true)
        .bin_name("gate")
}

/// The program's command with its subcommands.
fn gate_command<'a>(alloc: Global) -> Result<Command<'a>, AllocError>
    ensures { IfOk result (λ command. app_of command ≡ gate_app) }
{
    bare_command(alloc)?
        .subcommand(try_command(alloc)?)?
        .subcommand(check_command(alloc)?)?
        .subcommand(run_command(alloc)?)?
        .subcommand(lanes_command(alloc)?)?
        .subcommand(audit_command(alloc)?)?
        .subcommand(rules_command(alloc))?
        .subcommand(settings_command(alloc))?
        .subcommand(explain_command(alloc)?)
}

/// Reads the words of the command line, those behind the program's name, as a job.
///
/// Words that ask for help or for the version are [`ArgsFault::Help`], and other words that ask for no job are
/// [`ArgsFault::Usage`].
pub fn read_args<'a>(alloc: Global, words: &'a [&'a str]) -> Result<Job, ArgsFault>
    ensures run { (file : Option (List ℕ)) (explain : Explain) (strict : Bool) → IsPlainIfGiven file
        → words_now words.entry.now ≡ run_words file explain strict → AsksFor (Job.Run explain strict file) result }
    ensures former { (workers : List ℕ) (explain : Bool) → IsPlainWord workers
        → words_now words.entry.now ≡ former_run_words workers explain → AnswersTo None result }
    ensures check { (digits : List ℕ) → IsPlainWord digits → words_now words.entry.now ≡ codes "check" ∷ digits ∷ [] → AsksFor (Job.Check digits) result }
    ensures input { words_now words.entry.now ≡ codes "check" ∷ codes "-" ∷ [] → AsksFor Job.CheckInput result }
    ensures lanes { (workers : Option (List ℕ)) (journal explain : Bool) → IsPlainIfGiven workers
        → words_now words.entry.now ≡ lanes_words workers journal explain → AnswersTo (lanes_job workers journal explain) result }
    ensures audit { (explain : Explain) → words_now words.entry.now ≡ audit_words explain → AsksFor (Job.Audit explain) result }
    ensures rules { words_now words.entry.now ≡ codes "rules" ∷ [] → AsksFor Job.Rules result }
    ensures settings { words_now words.entry.now ≡ codes "settings" ∷ [] → AsksFor Job.Settings result }
    ensures explain { (word : List ℕ) → IsPlainWord word → words_now words.entry.now ≡ codes "explain" ∷ word ∷ [] → AsksFor (Job.Explain word) result }
{
    match gate_command(alloc)?.try_get_matches_from(words) {
        Ok(matches) => job_of(alloc, &matches),
        Err(error) => Err(fault_of(alloc, &error)),
    }
}

/// The job of a parse that succeeded.
fn job_of(alloc: Global, matches: &ArgMatches<'_>) -> Result<Job, ArgsFault>
    ensures { IfSome (named_job (named_of (subcommand_rows_of matches.now))) (λ job. AnswersTo job result) }
{
    match matches.subcommand() {
        Some((name, rest)) => {
            let switches = CommandSwitches {
                journal: asks(rest, "journal"),
                explain: asks(rest, "explain"),
                json: asks(rest, "explain-json"),
                strict: asks(rest, "strict"),
            };
            let word = rest.get_str("WORD");
            let workers = rest.get_str("workers");
            let file = rest.get_str("FILE");
            named_job(alloc, name, word, workers, file, switches)
        }
        None => Err(no_job(alloc)),
    }
}

/// Whether a switch was given.
fn asks(matches: &ArgMatches<'_>, switch: &str) -> bool
    ensures { IfSome (flag_of (one_of switch.now (rows_of (found_of matches.now)))) (λ flag. result ≡ flag) }
{
    matches.get_flag(switch)
}

/// The job that the name of a command and the words behind it ask for.
fn named_job(
    alloc: Global,
    name: &str,
    word: Option<&str>,
    workers: Option<&str>,
    file: Option<&str>,
    switches: CommandSwitches,
) -> Result<Job, ArgsFault>
    ensures { AnswersTo (job_of_name name.now (word_now word.entry) (word_now workers.entry) (word_now file.entry) switches.journal switches.explain switches.json switches.strict) result }
{
    if name == "run" {
        return job_of_run(alloc, workers, file, switches);
    }
    if name == "lanes" {
        return lanes_job(alloc, workers, switches);
    }
    if name == "audit" {
        return Ok(Job::Audit {
            explain: explain_of(switches.explain, switches.json),
        });
    }
    if name == "rules" {
        return Ok(Job::Rules);
    }
    if name == "settings" {
        return Ok(Job::Settings);
    }
    match word {
        Some(word) => word_job(alloc, name, word),
        None => Err(no_job(alloc)),
    }
}

/// The job of a command with a word.
fn word_job(alloc: Global, name: &str, word: &str) -> Result<Job, ArgsFault>
    ensures { AsksFor (word_job name.now word.now) result }
{
    if name == "explain" {
        explain_job(alloc, word)
    } else {
        digits_job(alloc, word)
    }
}

/// The job that explains this word.
fn explain_job(alloc: Global, word: &str) -> Result<Job, ArgsFault>
    ensures { AsksFor (Job.Explain word.now) result }
{
    match String::from_str(alloc, word) {
        Ok(word) => Ok(Job::Explain(Text::from_string(word))),
        Err(_) => Err(ArgsFault::Memory),
    }
}

/// The number of workers that a text asks for, if it is a number from 1 to 64.
fn read_workers(text: &str) -> Option<Workers>
    ensures { result ≡ workers_in text.now }
{
    Workers::new(read_number(text)? as usize)
}

/// The job of `gate run`, which takes no number of workers any more.
fn job_of_run(
    alloc: Global,
    workers: Option<&str>,
    file: Option<&str>,
    switches: CommandSwitches,
) -> Result<Job, ArgsFault>
    ensures { AnswersTo (job_of_run (word_now workers.entry) (word_now file.entry) switches.explain switches.json switches.strict) result }
{
    if workers.is_some() {
        return Err(former_workers(alloc));
    }
    let explain = explain_of(switches.explain, switches.json);
    let strict = switches.strict;
    match file {
        Some(file) => run_of_file(alloc, file, explain, strict),
        None => Ok(Job::Run {
            explain,
            strict,
            file: None,
        }),
    }
}

/// How a run or an audit is explained by these two switches.
fn explain_of(explain: bool, json: bool) -> Explain
    ensures { result ≡ explain_of explain json }
{
    if json {
        Explain::Json
    } else if explain {
        Explain::Words
    } else {
        Explain::No
    }
}

/// The job of a run that reads a file.
fn run_of_file(alloc: Global, file: &str, explain: Explain, strict: bool) -> Result<Job, ArgsFault>
    ensures { AsksFor (Job.Run explain strict (Some file.now)) result }
{
    match String::from_str(alloc, file) {
        Ok(file) => Ok(Job::Run {
            explain,
            strict,
            file: Some(Text::from_string(file)),
        }),
        Err(_) => Err(ArgsFault::Memory),
    }
}

/// The fault of usage of `gate run --workers N`.
fn former_workers(alloc: Global) -> ArgsFault
    ensures { IsMisuse result }
{
    match String::from_str(
        alloc,
        "error: '--workers' of gate run is gone: it changed no reply and saved no time\n\nA program that reads lines on several threads calls the library: docs/LIBRARY.md, gate_read.\n\nUsage: gate run [OPTIONS] [FILE]\n\nFor more information, try '--help'.\n",
    ) {
        Ok(text) => ArgsFault::Usage(text),
        Err(_) => ArgsFault::Memory,
    }
}

/// The job of `gate lanes` with the number of workers that a text asks for, or with 2 if there is no text.
fn lanes_job(
    alloc: Global,
    workers: Option<&str>,
    switches: CommandSwitches,
) -> Result<Job, ArgsFault>
    ensures { AnswersTo (lanes_job (word_now workers.entry) switches.journal switches.explain) result }
{
    let workers = match workers {
        Some(text) => match read_workers(text) {
            Some(workers) => workers,
            None => return Err(refused_workers(alloc, text)),
        },
        None => Workers::default(),
    };
    let CommandSwitches {
        journal,
        explain,
        ..
    } = switches;
    Ok(Job::Lanes {
        workers,
        journal,
        explain,
    })
}

/// The fault of usage for a text that is not a number of workers from 1 to 64.
fn refused_workers(alloc: Global, text: &str) -> ArgsFault
    ensures { IsMisuse result }
{
    match format!(in alloc;
        "error: invalid value '{text}' for '--workers <N>': it is not a number from 1 to 64\n\nUsage: gate lanes [OPTIONS]\n\nFor more information, try '--help'.\n"
    ) {
        Ok(text) => ArgsFault::Usage(text),
        Err(_) => ArgsFault::Memory,
    }
}

/// The job that checks these digits or, for `-`, the digits that the input holds.
fn digits_job(alloc: Global, digits: &str) -> Result<Job, ArgsFault>
    ensures { AsksFor (digits_job digits.now) result }
{
    if digits == "-" {
        return Ok(Job::CheckInput);
    }
    match String::from_str(alloc, digits) {
        Ok(hex) => Ok(Job::Check(Text::from_string(hex))),
        Err(_) => Err(ArgsFault::Memory),
    }
}

/// The fault of words that ask for no job. The commands above let no such words through.
fn no_job(alloc: Global) -> ArgsFault
    ensures { IsMisuse result }
{
    ArgsFault::Usage(String::new(alloc))
}

fn fault_of(alloc: Global, error: &clap::Error) -> ArgsFault
    ensures { kind_of error.now ≡ ErrorKind.OutOfMemory → result ≡ ArgsFault.Memory }
{
    let Ok(text) = error.to_string(alloc) else {
        return ArgsFault::Memory;
    };
    match error.kind() {
        ErrorKind::DisplayHelp | ErrorKind::DisplayVersion => ArgsFault::Help(text),
        ErrorKind::OutOfMemory => ArgsFault::Memory,
        _ => ArgsFault::Usage(text),
    }
}
