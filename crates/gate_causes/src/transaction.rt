//! Why a word spells no transaction.
ghost use Rattle.std.specs.Prelude.{◌≡◌, IfOk, is_none, is_some};
ghost use Rattle.gate_tx.specs.Reading.{decoded};
ghost use Rattle.gate_events.specs.EventLines.{prepared_of};

use gate_bytes::{ByteFault, Cursor, Memory};
use gate_tx::{TxFault, read_front, read_tx};
use hex::FromHexError;
use std::alloc::Global;
use std::fmt;

const PSBT: &str = "a PSBT; expected the transaction that is extracted from it once it is final";

/// A part of a transaction.
#[derive(Clone, Copy)]
enum Part {
    Version,
    Input(u64),
    Output(u64),
    Witness(u64),
    LockTime,
}

impl fmt::Display for Part {
    fn fmt<W: fmt::Write>(&self, f: &mut fmt::Formatter<W>) -> fmt::Result {
        match self {
            Part::Version => write!(f, "the version"),
            Part::Input(index) => write!(f, "input {index}"),
            Part::Output(index) => write!(f, "output {index}"),
            Part::Witness(index) => write!(f, "the witness of input {index}"),
            Part::LockTime => write!(f, "the locktime"),
        }
    }
}

/// Passes over a count and so many bytes.
fn skip_counted(cursor: &mut Cursor<'_>) -> Result<(), ByteFault> {
    let count = cursor.compact()?;
    cursor.take(count as usize)?;
    Ok(())
}

/// Passes over a transaction (BIP 144), and notes each part as it begins.
fn skip(cursor: &mut Cursor<'_>, part: &mut Part) -> Result<(), ByteFault> {
    cursor.take(4)?;
    *part = Part::Input(0);
    let mut inputs = cursor.compact()?;
    let has_witnesses = inputs == 0;
    if has_witnesses {
        // A flag stands behind the count of 0.
        cursor.take(1)?;
        inputs = cursor.compact()?;
    }
    for index in 0..inputs {
        *part = Part::Input(index);
        cursor.take(36)?;
        skip_counted(cursor)?;
        cursor.take(4)?;
    }
    *part = Part::Output(0);
    for index in 0..cursor.compact()? {
        *part = Part::Output(index);
        cursor.take(8)?;
        skip_counted(cursor)?;
    }
    if has_witnesses {
        for index in 0..inputs {
            *part = Part::Witness(index);
            for _ in 0..cursor.compact()? {
                skip_counted(cursor)?;
            }
        }
    }
    *part = Part::LockTime;
    cursor.take(4)?;
    Ok(())
}

/// What is wrong with bytes that are no transaction, for this fault.
fn fault_text(alloc: Global, bytes: &[u8], fault: TxFault) -> Result<String, Memory> {
    let length = bytes.len();
    if bytes.starts_with(b"psbt\xff") {
        return Ok(String::from_str(alloc, PSBT)?);
    }
    if length == 32 {
        return Ok(format!(in alloc; "32 bytes, as a txid has; expected those of the transaction")?);
    }
    if fault == TxFault::Trailing {
        if let Ok((_, rest)) = read_front(alloc, bytes) {
            let left = rest.len();
            return Ok(format!(in alloc;
                "bytes are left over behind the transaction: {left} of {length}"
            )?);
        }
    }
    if fault == TxFault::Short {
        let mut part = Part::Version;
        let _ended = skip(&mut Cursor::new(bytes), &mut part);
        return Ok(format!(in alloc; "the transaction is cut behind byte {length}, in {part}")?);
    }
    Ok(format!(in alloc; "the transaction does not decode: {fault}")?)
}

/// Why bytes are no transaction, or `None` exactly if they are one.
fn bytes_cause(alloc: Global, bytes: &[u8]) -> Result<Option<String>, Memory>
    ensures { IfOk result (λ cause. is_none cause ≡ is_some (decoded bytes.now)) }
{
    match read_tx(alloc, bytes) {
        Ok(_transaction) => Ok(None),
        Err(TxFault::Memory) => Err(Memory),
        Err(fault) => Ok(Some(fault_text(alloc, bytes, fault)?)),
    }
}

/// What is wrong with a word that is no text of hexadecimal digits, for this fault.
fn digits_text(alloc: Global, word: &str, fault: FromHexError) -> Result<String, Memory> {
    // The text of a PSBT is in base64.
    if word.starts_with("cHNidP") {
        return Ok(String::from_str(alloc, PSBT)?);
    }
    match fault {
        FromHexError::InvalidHexCharacter { c, index } => {
            let place = index.saturating_add(1);
            Ok(format!(in alloc; "the transaction is not hexadecimal: character {place} is {c:?}")?)
        }
        _ => Ok(String::from_str(
            alloc,
            "the transaction has an odd number of hexadecimal digits",
        )?),
    }
}

/// Why a word spells no transaction, or `None` exactly if it spells one.
pub fn transaction_cause(alloc: Global, word: &str) -> Result<Option<String>, Memory>
    ensures { IfOk result (λ cause. is_none cause ≡ is_some (prepared_of word.now)) }
{
    match hex::decode(alloc, word) {
        Ok(bytes) => bytes_cause(alloc, bytes.as_slice()),
        Err(FromHexError::OutOfMemory) => Err(Memory),
        Err(fault) => Ok(Some(digits_text(alloc, word, fault)?)),
    }
}

/// The word that stands for a transaction in an event's line, if it has one: that of a peer, or the first of a call.
pub(crate) fn submitted(line: &[u8]) -> Option<&str> {
    let Ok(line) = std::str::from_utf8(line) else {
        return None;
    };
    let mut words = line.splitn(5, ' ');
    match (words.next(), words.nth(1)) {
        (Some("peer"), Some("tx")) => words.nth(1),
        (Some("user"), Some("rpc")) => in_call(words.nth(1)?),
        _ => None,
    }
}

/// The first text of the list of a call that submits a transaction.
fn in_call(call: &str) -> Option<&str> {
    if !call.contains("\"sendrawtransaction\"") && !call.contains("\"testmempoolaccept\"") {
        return None;
    }
    let (_, params) = call.split_once("\"params\"")?;
    let (_, text) = params.split_once("[\"")?;
    let (word, _) = text.split_once('"')?;
    Some(word)
}
