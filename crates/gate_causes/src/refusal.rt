//! What is said of an opening that is refused.
use crate::causes::{opening_cause, permission_cause};
use crate::colour::{Colour, Colours};
use crate::input_position::InputPosition;
use crate::line_number::LineNumber;
use gate_bytes::Memory;
use gate_lines::next_word;
use gate_rules::rules_named;
use std::alloc::Global;

/// The sentence of a token, if it is that of a rule or of a word.
fn meaning(alloc: Global, token: &str) -> Result<Option<&'static str>, Memory> {
    let rules = rules_named(alloc, token)?;
    // The words for openings stand last.
    Ok(rules.as_slice().last().map(|rule| rule.says))
}

/// What a refusal says: the number of a line, or 0, and the token of the fault.
fn refused(refusal: &str) -> Option<(&str, &str)> {
    match next_word(refusal)? {
        ("opening", fault) => next_word(fault),
        _ => None,
    }
}

/// What is said of an opening's refusal, which is `opening LINE TOKEN`. The opening was read to this position, and `last`
/// is its last line. Of any other text nothing is said. The line is yellow, if words have colours.
pub fn refusal_cause(
    alloc: Global,
    refusal: &str,
    position: &InputPosition,
    last: &[u8],
    colours: Colours,
) -> Result<Option<String>, Memory> {
    let Some((line, token)) = refused(refusal) else {
        return Ok(None);
    };
    let place = colours.paint(Colour::Yellow, LineNumber(line));
    if token == "bad-line" {
        return Ok(Some(match position.limit() {
            Some(limit) => format!(in alloc; "{place}: {limit}")?,
            None => format!(in alloc; "{place}: {}", opening_cause(alloc, last)?)?,
        }));
    }
    if token == "unknown-permission" {
        if let Some(cause) = permission_cause(alloc, last)? {
            return Ok(Some(format!(in alloc; "{place}: {token}: {cause}")?));
        }
    }
    let Some(says) = meaning(alloc, token)? else {
        return Ok(None);
    };
    // A fault that is not a line's has the line 0.
    Ok(Some(if line == "0" {
        format!(in alloc; "the opening: {token}: {says}")?
    } else {
        format!(in alloc; "{place}: {token}: {says}")?
    }))
}
