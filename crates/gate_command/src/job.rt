//! The jobs that the words of the command line may ask for.
use gate_bytes::Text;
use gate_verify::Workers;

/// How standard error explains a run or an audit.
#[derive(Clone, Copy, PartialEq, Eq)]
pub enum Explain {
    /// Not at all.
    No,
    Words,
    /// A JSON object a line.
    Json,
}

/// What the program is asked to do.
#[derive(Drop, PartialEq, Eq)]
pub enum Job {
    /// Checks one transaction in hex by itself.
    Check(Text),
    /// Checks one transaction by itself, from the hexadecimal digits that the input holds.
    CheckInput,
    /// Opens a gate from the input, which is a file if one is named, and answers its events. Here and below, `explain` asks
    /// also for the causes of the lines without a form, which are no part of what the job writes; `strict` asks for a status
    /// that tells of replies.
    Run {
        explain: Explain,
        strict: bool,
        file: Option<Text>,
    },
    /// Opens a gate from this text, and answers its events.
    Try(Text),
    /// Opens a gate from the input, and answers the lanes behind the opening at once; `workers` is how many threads
    /// check the inputs of a submission, and `journal` asks also for the journal of the calls.
    Lanes {
        workers: Workers,
        journal: bool,
        explain: bool,
    },
    /// Opens a gate from the input, and says whether the journal behind the opening is legal.
    Audit {
        explain: Explain,
    },
    /// Prints every rule and word.
    Rules,
    /// Prints every setting of an opening.
    Settings,
    /// Prints the rules and words that this word names.
    Explain(Text),
}
