//! The words of a verdict on an input.
ghost use Rattle.std.specs.Prelude.{◌≡◌, IfOk, string_bytes};
ghost use Rattle.gate_words.specs.VerdictWords.{row_of, row_text, verdict_of, verdict_word};

use gate_bytes::Memory;
use gate_lines::{next_word, read_small_number};
use gate_submission::{Verdict, VerdictRow};
use gate_tx::Wtxid;
use std::alloc::Global;

/// The verdict on an input that the words `WTXID INPUT ok|soft|hard` say, or `None` if they don't parse.
pub fn read_row(text: &str) -> Option<VerdictRow>
    ensures { result ≡ row_of text.now }
{
    let (wtxid, rest) = next_word(text)?;
    let (input, verdict) = next_word(rest)?;
    Some(VerdictRow {
        wtxid: Wtxid::read(wtxid)?,
        input: read_small_number(input)?,
        verdict: read_verdict(verdict)?,
    })
}

/// The verdict of the word `ok`, `soft` or `hard`.
pub fn read_verdict(word: &str) -> Option<Verdict>
    ensures { result ≡ verdict_of word.now }
{
    if word == "ok" {
        Some(Verdict::Good)
    } else if word == "soft" {
        Some(Verdict::Soft)
    } else if word == "hard" {
        Some(Verdict::Hard)
    } else {
        None
    }
}

/// The one text of a verdict on an input, in lower case.
pub fn row_text(alloc: Global, row: &VerdictRow) -> Result<String, Memory>
    ensures { IfOk result (λ text. string_bytes text ≡ row_text row.now) }
{
    let VerdictRow {
        wtxid,
        input,
        verdict,
    } = *row;
    let word = verdict_word(verdict);
    Ok(format!(in alloc; "{wtxid} {input} {word}")?)
}

fn verdict_word(verdict: Verdict) -> &'static str
    ensures { result.now ≡ verdict_word verdict }
{
    match verdict {
        Verdict::Good => "ok",
        Verdict::Soft => "soft",
        Verdict::Hard => "hard",
    }
}
