//! The check of one transaction by itself.
ghost use Rattle.std.specs.Prelude.{◌≡◌, ◌≢◌, ◌≤◌, true, length, IfErr, IfOk, IfSome, string_bytes};
ghost use Rattle.gate_check.specs.Checks.{check_lines, check_status, denied_line, ids_line, input_spells, trimmed, verdict_line, verdict_status};
ghost use Rattle.gate_check.specs.Inputs.{ReadsWithin, input_limit};
ghost use Rattle.gate_events.specs.EventLines.{prepared_of};
ghost use Rattle.gate_lines.specs.Lines.{unlines};

use crate::input::read_input;
use gate_bytes::Memory;
use gate_events::prepared;
use gate_lines::{LaneFault, Source};
use gate_standard::{Denial, Standards};
use gate_submission::Prepared;
use gate_tx::{Txid, Wtxid};
use std::alloc::Global;

/// What a check prints, and the status that follows it.
#[derive(Drop)]
pub(crate) struct Checked {
    pub text: String,
    pub status: u8,
}

/// Checks the transaction that a text of hex spells.
pub(crate) fn check_hex(alloc: Global, hex: &str) -> Result<Checked, Memory>
    ensures text { IfOk result (λ checked. string_bytes checked.text ≡ unlines (check_lines (prepared_of hex.now))) }
    ensures status { IfOk result (λ checked. checked.status ≡ check_status (prepared_of hex.now)) }
{
    let prepared = prepared(alloc, hex)?;
    check(alloc, &prepared)
}

/// Checks the transaction that the digits of an input spell. An input that is too long is read to one byte past the
/// limit.
pub(crate) fn check_input<R: Source>(alloc: Global, reader: &mut R) -> Result<Checked, LaneFault>
    ensures text { IfOk result (λ checked. IfSome (R.remaining reader.old) (λ input. string_bytes checked.text ≡ unlines (check_lines (input_spells input)))) }
    ensures status { IfOk result (λ checked. IfSome (R.remaining reader.old) (λ input. checked.status ≡ check_status (input_spells input))) }
    ensures within { ReadsWithin (R.remaining reader.old) (R.remaining reader.new) }
    ensures kind { IfErr result (λ fault. fault ≢ LaneFault.Write) }
    ensures steady { R.steady ≡ true → IfErr result (λ fault. fault ≢ LaneFault.Read) }
{
    let prepared = match read_input(alloc, reader)? {
        Some(input) => prepared_input(alloc, input.as_slice())?,
        None => Prepared::undecodable(),
    };
    Ok(check(alloc, &prepared)?)
}

/// The transaction that an input within the limit spells, without the white space around it.
fn prepared_input(alloc: Global, input: &[u8]) -> Result<Prepared, Memory>
    requires { length input.now ≤ input_limit }
    ensures { IfOk result (λ prepared. prepared ≡ input_spells input.now) }
{
    match std::str::from_utf8(trim(input)) {
        Ok(hex) => prepared(alloc, hex),
        Err(_) => Ok(Prepared::undecodable()),
    }
}

fn trim(text: &[u8]) -> &[u8]
    ensures { result.now ≡ trimmed text.now }
{
    text.trim_ascii()
}

fn check(alloc: Global, prepared: &Prepared) -> Result<Checked, Memory>
    ensures text { IfOk result (λ checked. string_bytes checked.text ≡ unlines (check_lines prepared.now)) }
    ensures status { IfOk result (λ checked. checked.status ≡ check_status prepared.now) }
{
    let denial = prepared.denial_by(&Standards::default());
    let verdict = verdict_text(alloc, denial)?;
    let status = verdict_status(denial);
    let (Some(tx), Some(txid), Some(wtxid)) = (
        prepared.transaction(),
        prepared.txid(),
        prepared.wtxid(),
    ) else {
        let text = format!(in alloc; "{verdict}\n")?;
        return Ok(Checked { text, status });
    };
    let ids = ids_text(alloc, &txid, &wtxid, tx.weight())?;
    let text = format!(in alloc; "{ids}\n{verdict}\n")?;
    Ok(Checked { text, status })
}

/// `TXID WTXID WEIGHT`
fn ids_text(alloc: Global, txid: &Txid, wtxid: &Wtxid, weight: usize) -> Result<String, Memory>
    ensures { IfOk result (λ text. string_bytes text ≡ ids_line txid.now wtxid.now weight) }
{
    Ok(format!(in alloc; "{txid} {wtxid} {weight}")?)
}

/// `standard`, or the line of the denial.
fn verdict_text(alloc: Global, denial: Option<Denial>) -> Result<String, Memory>
    ensures { IfOk result (λ text. string_bytes text ≡ verdict_line denial) }
{
    match denial {
        Some(denial) => denial_text(alloc, denial),
        None => Ok(String::from_str(alloc, "standard")?),
    }
}

fn verdict_status(denial: Option<Denial>) -> u8
    ensures { result ≡ verdict_status denial }
{
    match denial {
        Some(_) => 1,
        None => 0,
    }
}

/// `denied RULE TOKEN`
fn denial_text(alloc: Global, denial: Denial) -> Result<String, Memory>
    ensures { IfOk result (λ text. string_bytes text ≡ denied_line denial) }
{
    let (name, token) = (denial.row().name, denial.row().token);
    Ok(format!(in alloc; "denied {name} {token}")?)
}
