//! Why a line does not parse.
ghost use Rattle.std.specs.Prelude.{◌≡◌, IfOk, is_none, is_some};
ghost use Rattle.gate_events.specs.EventLines.{line_event};

use crate::expected::fit_cause;
use crate::fit::Fit;
use crate::forms::{DIVIDERS, EVENTS, Forms, PERMISSIONS};
use gate_bytes::Memory;
use gate_events::event_on;
use gate_net::Permissions;
use std::alloc::Global;

/// The text of a line, or what is wrong with the line whatever its words are.
fn line_text(line: &[u8]) -> Result<&str, &'static str> {
    match line {
        [0xef, 0xbb, 0xbf, ..] => Err("begins with a byte order mark"),
        [b'>' | b'<', b' ', ..] => Err("a line of a journal, which gate audit reads"),
        [b' ', ..] => Err("begins with a space"),
        _ => match std::str::from_utf8(line) {
            Ok(text) => Ok(text),
            Err(_) => Err("is not UTF-8"),
        },
    }
}

/// Whether the first word of a line begins one of these forms.
fn begins_one(line: &str, forms: Forms) -> bool {
    Fit::furthest(line, forms).places != 0
}

/// The forms that say what is wrong with a line of the first forms, if its first word begins none of them: those of lines
/// between lanes, if it begins one.
fn forms_for(line: &str, forms: Forms) -> Forms {
    let dividers = Forms::of(&DIVIDERS);
    if !begins_one(line, forms) && begins_one(line, dividers) {
        dividers
    } else {
        forms
    }
}

/// What is wrong with where an event's line stands, if its first word begins no event.
fn misplaced_event(line: &str) -> Option<&'static str> {
    if line.starts_with("coin ") || line.starts_with("verdict ") {
        Some("a line of an opening behind the line ---; the event begins with the word chain")
    } else if begins_one(line, Forms::of_openings()) {
        Some("a line of an opening behind the line ---")
    } else if line == "---" || line == "===" {
        Some("begins a lane, or ends a round of lanes; gate lanes reads lanes")
    } else {
        None
    }
}

/// Why an event's line does not parse, or `None` exactly if it does. An empty line and a comment do not parse.
pub fn event_cause(alloc: Global, line: &[u8]) -> Result<Option<String>, Memory>
    ensures { IfOk result (λ cause. is_none cause ≡ is_some (line_event line.now)) }
{
    let event = event_on(alloc, line)?;
    let parses = event.is_some();
    drop(event);
    if parses {
        return Ok(None);
    }
    Ok(Some(match line_text(line) {
        Ok(text) => match misplaced_event(text) {
            Some(says) => String::from_str(alloc, says)?,
            None => fit_cause(alloc, text, forms_for(text, Forms::of(&EVENTS)))?,
        },
        Err(says) => String::from_str(alloc, says)?,
    }))
}

/// Why an opening refuses a line as one that does not parse.
pub fn opening_cause(alloc: Global, line: &[u8]) -> Result<String, Memory> {
    let text = match line_text(line) {
        Ok(text) => text,
        Err(says) => return Ok(String::from_str(alloc, says)?),
    };
    if begins_one(text, Forms::of(&EVENTS)) {
        return Ok(String::from_str(alloc, "an event in the opening; is the line --- missing?")?);
    }
    if Fit::furthest(text, Forms::of_openings()).fault.is_ok() {
        return Ok(String::from_str(alloc, "repeats a setting or a verdict of an earlier line")?);
    }
    fit_cause(alloc, text, forms_for(text, Forms::of_openings()))
}

/// Why a whitelist's line has a word before its `@` that is no permission, or `None` if it has none.
pub(crate) fn permission_cause(alloc: Global, line: &[u8]) -> Result<Option<String>, Memory> {
    let Ok(text) = line_text(line) else {
        return Ok(None);
    };
    let Some((words, _)) = text
        .strip_prefix("whitelist ")
        .and_then(|entry| entry.split_once('@'))
    else {
        return Ok(None);
    };
    for word in words.split(',') {
        if Permissions::of_word(word).is_none() {
            return Ok(Some(fit_cause(alloc, word, Forms::of(&PERMISSIONS))?));
        }
    }
    Ok(None)
}
