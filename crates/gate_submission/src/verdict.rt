//! Verdicts on scripts, handed in by whoever runs them.
use gate_tx::Wtxid;

/// What a script interpreter found on an input.
#[derive(Clone, Copy, PartialEq, Eq)]
pub enum Verdict {
    /// The script succeeds under every rule.
    Good,
    /// It fails under a rule of policy alone.
    Soft,
    /// It fails under a rule of consensus.
    Hard,
}

/// The verdict on one input of one transaction.
#[derive(Clone, Copy, PartialEq, Eq)]
pub struct VerdictRow {
    pub wtxid: Wtxid,
    pub input: u32,
    pub verdict: Verdict,
}
