//! Which streams are terminals, and whether there are colours.
use gate_causes::Colours;
use std::env;
use std::env::VarError;
use std::io::IsTerminal;
use std::rt::Env;

/// Which of the standard streams are terminals, and whether words on standard error have colours.
#[derive(Clone, Copy)]
pub(crate) struct Terminals {
    pub(crate) input: bool,
    pub(crate) output: bool,
    pub(crate) error: bool,
    pub(crate) colours: Colours,
}

impl Terminals {
    /// Those that the program has.
    pub(crate) fn of(rt: &HostRuntime) -> Terminals {
        Terminals {
            input: rt.stdin().is_terminal(),
            output: rt.stdout().is_terminal(),
            error: rt.stderr().is_terminal(),
            colours: colours(rt, rt.stderr().is_terminal()),
        }
    }
}

/// Whether words on standard error have colours, by whether it is a terminal: none with NO_COLOR, unless that is empty, nor on
/// a terminal that says that it has none.
fn colours(rt: &(impl Env + AllocGlobal), is_terminal: bool) -> Colours {
    if !is_terminal || is_forbidden(env::var(rt, "NO_COLOR")) || is_dumb(env::var(rt, "TERM")) {
        return Colours::Off;
    }
    Colours::On
}

/// Whether a variable is set that forbids something if it isn't empty.
fn is_forbidden(value: Result<String, VarError>) -> bool {
    match value {
        Ok(text) => !text.is_empty(),
        Err(VarError::NotPresent) => false,
        Err(VarError::NotUnicode | VarError::OutOfMemory) => true,
    }
}

/// Whether a terminal of this kind has no colours.
fn is_dumb(kind: Result<String, VarError>) -> bool {
    match kind {
        Ok(text) => text.as_str() == "dumb",
        Err(_) => false,
    }
}
