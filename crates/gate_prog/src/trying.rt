//! The job of a trial, and the run of its text.
ghost use Rattle.std.specs.Prelude.{◌≡◌, ◌≢◌, ℕ, List, Option, Some, [], true, IfOk, IfErr, OnOk};
ghost use Rattle.gate_run.specs.GateJobs.{GateRan, GateStopped};
ghost use Rattle.gate_try.specs.Trials.{trial_text};

use gate_bytes::{Memory, Text};
use gate_command::Job;
use gate_lines::{LaneFault, Sink};
use gate_run::run_gate;
use gate_try::Trial;
use std::alloc::Global;
use std::hash::BuildHasher;

/// The job that tries what a trial names: it runs the text of the trial.
pub fn trial_job(alloc: Global, trial: &Trial<'_>) -> Result<Job, Memory>
    ensures { IfOk result (λ job. job ≡ Job.Try (trial_text trial.now)) }
{
    Ok(Job::Try(Text::from_string(trial.text(alloc)?)))
}

/// Opens a gate from a text, and answers its events.
pub(crate) fn run_text<S: BuildHasher + Copy + Drop, W: Sink>(
    alloc: Global,
    hasher: S,
    text: &str,
    writer: &mut W,
) -> Result<u8, LaneFault>
    ensures done { IfOk result (λ status. GateRan (Some text.now) (W.contents writer.old) (W.contents writer.new) status) }
    ensures sent { OnOk result (W.held writer.new ≡ []) }
    ensures stopped { IfErr result (λ fault. (left : Option (List ℕ)) × GateStopped (Some text.now) left (W.contents writer.old) (W.contents writer.new) fault) }
    ensures read { IfErr result (λ fault. fault ≢ LaneFault.Read) }
    ensures steady_writer { W.steady ≡ true → IfErr result (λ fault. fault ≢ LaneFault.Write) }
{
    let mut input = text.as_bytes();
    run_gate(alloc, hasher, &(), &mut input, writer)
}
