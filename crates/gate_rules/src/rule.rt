//! A rule, or a word beside the rules.
ghost use Rattle.std.specs.Prelude.{◌≡◌};
ghost use Rattle.gate_rules.specs.Rules.{is_alike, is_named, key_of};
ghost use Rattle.gate_rules.specs.Texts.{then_text};

use std::fmt;

/// What follows if a rule fails.
#[derive(Clone, Copy, PartialEq, Eq)]
pub enum Consequence {
    /// The session is kept.
    Keep,
    /// The session is closed, unless the peer has noban.
    Close,
    /// The session is closed, whatever the peer has.
    CloseAlways,
    /// The session is kept, and for a peer with forcerelay the transaction is relayed once more.
    Relay,
    /// There is no session, and nothing changes.
    Nothing,
    /// The run ends there.
    EndsRun,
    /// The program ends with status 2.
    EndsProgram,
}

impl Consequence {
    /// What follows, in a sentence.
    pub fn as_str(&self) -> &'static str
        ensures { result.now ≡ then_text self.now }
    {
        match self {
            Consequence::Keep => "The session is kept.",
            Consequence::Close => "The session is closed, unless the peer has noban.",
            Consequence::CloseAlways => "The session is closed, also with noban.",
            Consequence::Relay => {
                "The session is kept, and for a peer with forcerelay the transaction is relayed once more."
            }
            Consequence::Nothing => "Nothing changes.",
            Consequence::EndsRun => "The run ends there.",
            Consequence::EndsProgram => "The program ends with status 2.",
        }
    }
}

/// A rule, or a word beside the rules.
#[derive(Clone, Copy, PartialEq, Eq)]
pub struct Rule {
    /// What is printed before the token: a letter and a number, or `opening`, `fault` or `call`.
    pub name: &'static str,
    pub token: &'static str,
    pub then: Consequence,
    /// The rule's name in Bitcoin Core 22.0, or that of the function or the option that has it; `None` for a rule of
    /// the gate's own.
    pub core: Option<&'static str>,
    /// When the rule fails, in a sentence without its full stop.
    pub says: &'static str,
}

/// Whether two texts differ at most in the case of letters (A to Z).
fn is_alike(text: &str, other: &str) -> bool
    ensures { result ≡ is_alike text.now other.now }
{
    text.eq_ignore_ascii_case(other)
}

impl Rule {
    /// Whether a word is the rule's name or its token, in either case.
    pub fn is_named(&self, word: &str) -> bool
        ensures { result ≡ is_named word.now (key_of self.now) }
    {
        is_alike(self.name, word) || is_alike(self.token, word)
    }
}

/// `NAME TOKEN: SENTENCE. WHAT FOLLOWS. Core: NAME.`
impl fmt::Display for Rule {
    ghost use Rattle.std.specs.Prelude.{Some};
    ghost use Rattle.gate_rules.specs.Texts.{rule_text};

    ghost output = { λ rule. Some (rule_text rule) };

    fn fmt<W: fmt::Write>(&self, f: &mut fmt::Formatter<W>) -> fmt::Result {
        let (name, token, says) = (self.name, self.token, self.says);
        let then = self.then.as_str();
        match self.core {
            Some(core) => write!(f, "{name} {token}: {says}. {then} Core: {core}."),
            None => write!(f, "{name} {token}: {says}. {then}"),
        }
    }
}
