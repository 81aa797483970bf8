//! Values of JSON, written compactly.
ghost use Rattle.std.specs.Prelude.{◌≡◌, [], ◌∷◌, ◌++◌, IfOk, OnOk, Some, string_bytes};
ghost use Rattle.std.specs.Option.{option_map};
ghost use Rattle.serde_json.specs.View.{view};
ghost use Rattle.serde_json.specs.Written.{compact_text};
ghost use Rattle.gate_rpc.specs.Replies.{error_json, id_json, allowed_json, all_rejected_json, ids_json, rejected_json, entry_json, info_json, outcome_json, outcomes_json, entries_json, transaction_json, spending_json, spendings_json, result_json, reject_reason};
ghost use Rattle.gate_rpc.specs.Values.{txids_json};
ghost use Rattle.gate_rules.specs.Denials.{name_of};
ghost use Rattle.gate_tx.specs.Ids.{id_text};
ghost use Rattle.gate_rpc.specs.Texts.{rejected_text, spending_start, spending_end, entry_text, entry_start, entry_middle, entry_end};
ghost use Rattle.hex.specs.Hex.{IsBytes, encode_lower};
ghost use Rattle.json.specs.Print.{quoted};

use crate::error::RpcError;
use crate::id::Id;
use crate::items::{KnownEntry, Outcome, Spending};
use crate::packaging::package_json;
use crate::result::{EntryInfo, RpcResult};
use gate_bytes::Memory;
use gate_rules::PackageDenial;
use gate_standard::Denial;
use gate_tx::{Identified, Txid, Wtxid};
use serde_json::{Value, json};
use std::alloc::{AllocError, Global};

pub(crate) fn error_json(alloc: Global, error: &RpcError) -> Result<String, Memory>
    ensures { IfOk result (λ text. string_bytes text ≡ compact_text (error_json error.now)) }
{
    let value = error_value(alloc, error)?;
    Ok(value.to_string(alloc)?)
}

fn error_value(alloc: Global, error: &RpcError) -> Result<Value, AllocError>
    ensures { IfOk result (λ value. view value ≡ error_json error.now) }
{
    let code = error.code();
    let message = error.message();
    match error {
        RpcError::Denied(denial) => {
            let rule = denial.row().name;
            json!(in alloc; {"code": code, "message": message, "rule": rule})
        }
        RpcError::PackageDenied(denial) => {
            let rule = denial.row().name;
            json!(in alloc; {"code": code, "message": message, "rule": rule})
        }
        _ => json!(in alloc; {"code": code, "message": message}),
    }
}

pub(crate) fn quoted_text(alloc: Global, text: &str) -> Result<String, AllocError>
    ensures { IfOk result (λ json. string_bytes json ≡ quoted text.now) }
{
    Value::try_from_str(alloc, text)?.to_string(alloc)
}

pub(crate) fn id_json(alloc: Global, id: &Id) -> Result<String, Memory>
    ensures { IfOk result (λ text. string_bytes text ≡ compact_text (id_json id.now)) }
{
    let value = id_value(alloc, id)?;
    Ok(value.to_string(alloc)?)
}

fn id_value(alloc: Global, id: &Id) -> Result<Value, AllocError>
    ensures { IfOk result (λ value. view value ≡ id_json id.now) }
{
    match id {
        Id::Null => Ok(Value::Null),
        Id::Text(text) => Value::try_from_str(alloc, text.as_str()),
        Id::Unsigned(number) => Ok(Value::from(*number)),
        Id::Signed(number) => Ok(Value::from(*number)),
    }
}

pub(crate) fn result_json(alloc: Global, outcome: &RpcResult) -> Result<String, Memory>
    ensures { IfOk result (λ text. string_bytes text ≡ compact_text (result_json outcome.now)) }
{
    match outcome {
        RpcResult::Sent(txid) => Ok(txid_text(alloc, txid)?),
        RpcResult::Allowed {
            txid,
            wtxid,
            fee,
            vsize,
        } => {
            let object = allowed_json(alloc, txid, wtxid, *fee, *vsize)?;
            Ok(listed(alloc, object.as_str())?)
        }
        RpcResult::Rejected {
            txid,
            wtxid,
            denial,
        } => {
            let object = rejected_json(alloc, txid, wtxid, denial)?;
            Ok(listed(alloc, object.as_str())?)
        }
        RpcResult::Txids(txids) => txids_json(alloc, txids.get().as_slice()),
        RpcResult::Entry(entry) => entry_json(alloc, entry.get()),
        RpcResult::Info {
            size,
            budget,
            least_rate,
            relay_rate,
            count,
        } => info_json(alloc, *size, *budget, *least_rate, *relay_rate, *count),
        RpcResult::Outcomes(outcomes) => outcomes_json(alloc, outcomes.get().as_slice()),
        RpcResult::Entries(entries) => entries_json(alloc, entries.get().as_slice()),
        RpcResult::Transaction(transaction) => transaction_json(alloc, transaction.get()),
        RpcResult::Spendings(spendings) => spendings_json(alloc, spendings.get().as_slice()),
        RpcResult::Package(outcome) => package_json(alloc, outcome),
    }
}

/// A list of one item, given the item's text.
fn listed(alloc: Global, item: &str) -> Result<String, AllocError>
    ensures { IfOk result (λ text. string_bytes text ≡ 91 ∷ (item.now ++ 93 ∷ [])) }
{
    format!(in alloc; "[{item}]")
}

/// Recalls that the items of a list of bytes are bytes: it does nothing.
fn recall_bytes(bytes: &[u8])
    ensures { IsBytes bytes.now }
{}

/// The digits of an id in quotes, after a text.
fn txid_after(alloc: Global, before: &str, txid: &Txid) -> Result<String, AllocError>
    ensures { IfOk result (λ text. string_bytes text ≡ before.now ++ quoted (id_text txid.now)) }
{
    recall_bytes(txid.as_bytes());
    format!(in alloc; "{before}\"{txid}\"")
}

pub(crate) fn txid_text(alloc: Global, txid: &Txid) -> Result<String, AllocError>
    ensures { IfOk result (λ text. string_bytes text ≡ quoted (id_text txid.now)) }
{
    txid_after(alloc, "", txid)
}

pub(crate) fn wtxid_text(alloc: Global, wtxid: &Wtxid) -> Result<String, AllocError>
    ensures { IfOk result (λ text. string_bytes text ≡ quoted (id_text wtxid.now)) }
{
    recall_bytes(wtxid.as_bytes());
    format!(in alloc; "\"{wtxid}\"")
}

#[tactic(auto, unfolding(serde_json::proofs::OnLiterals::serde_json_on_literals))]
fn allowed_json(
    alloc: Global,
    txid: &Txid,
    wtxid: &Wtxid,
    fee: u64,
    vsize: u64,
) -> Result<String, AllocError>
    ensures { IfOk result (λ text. string_bytes text ≡ compact_text (allowed_json txid.now wtxid.now fee vsize)) }
{
    let txid = txid_text(alloc, txid)?;
    let wtxid = wtxid_text(alloc, wtxid)?;
    format!(in alloc;
        "{{\"allowed\":true,\"fees\":{{\"base\":{fee}}},\"txid\":{txid},\"vsize\":{vsize},\"wtxid\":{wtxid}}}"
    )
}

fn rejected_json(
    alloc: Global,
    txid: &Txid,
    wtxid: &Wtxid,
    denial: &Denial,
) -> Result<String, AllocError>
    ensures { IfOk result (λ text. string_bytes text ≡ compact_text (rejected_json txid.now wtxid.now denial.now)) }
{
    let reason = quoted_text(alloc, reject_reason(denial))?;
    let rule = rule_json(alloc, denial)?;
    let txid = txid_text(alloc, txid)?;
    let wtxid = wtxid_text(alloc, wtxid)?;
    rejected_text(
        alloc,
        reason.as_str(),
        rule.as_str(),
        txid.as_str(),
        wtxid.as_str(),
    )
}

fn rejected_text(
    alloc: Global,
    reason: &str,
    rule: &str,
    txid: &str,
    wtxid: &str,
) -> Result<String, AllocError>
    ensures { IfOk result (λ text. string_bytes text ≡ rejected_text reason.now rule.now txid.now wtxid.now) }
{
    format!(in alloc;
        "{{\"allowed\":false,\"reject-reason\":{reason},\"rule\":{rule},\"txid\":{txid},\"wtxid\":{wtxid}}}"
    )
}

/// A rule on packages denies a transaction with all others of its list.
#[tactic(auto, unfolding(serde_json::proofs::OnLiterals::serde_json_on_literals))]
fn all_rejected_json(
    alloc: Global,
    txid: &Txid,
    wtxid: &Wtxid,
    denial: &PackageDenial,
) -> Result<String, AllocError>
    ensures { IfOk result (λ text. string_bytes text ≡ compact_text (all_rejected_json txid.now wtxid.now denial.now)) }
{
    let reason = quoted_text(alloc, denial.row().token)?;
    let rule = quoted_text(alloc, denial.row().name)?;
    let txid = txid_text(alloc, txid)?;
    let wtxid = wtxid_text(alloc, wtxid)?;
    format!(in alloc;
        "{{\"package-error\":{reason},\"rule\":{rule},\"txid\":{txid},\"wtxid\":{wtxid}}}"
    )
}

/// A transaction of which nothing is said.
#[tactic(auto, unfolding(serde_json::proofs::OnLiterals::serde_json_on_literals))]
fn ids_json(alloc: Global, txid: &Txid, wtxid: &Wtxid) -> Result<String, AllocError>
    ensures { IfOk result (λ text. string_bytes text ≡ compact_text (ids_json txid.now wtxid.now)) }
{
    let txid = txid_text(alloc, txid)?;
    let wtxid = wtxid_text(alloc, wtxid)?;
    format!(in alloc; "{{\"txid\":{txid},\"wtxid\":{wtxid}}}")
}

pub(crate) fn rule_json(alloc: Global, denial: &Denial) -> Result<String, AllocError>
    ensures { IfOk result (λ text. string_bytes text ≡ quoted (name_of denial.now)) }
{
    quoted_text(alloc, denial.row().name)
}

/// Why a transaction would be denied, as Bitcoin Core's `testmempoolaccept` names it.
fn reject_reason(denial: &Denial) -> &'static str
    ensures { result.now ≡ reject_reason denial.now }
{
    match denial {
        Denial::MissingOrSpent => "missing-inputs",
        _ => denial.row().token,
    }
}

pub(crate) fn txids_json(alloc: Global, txids: &[Txid]) -> Result<String, Memory>
    ensures { IfOk result (λ text. string_bytes text ≡ compact_text (txids_json txids.now)) }
{
    match txids.split_first() {
        Some((first, others)) => some_txids_json(alloc, first, others),
        None => Ok(String::from_str(alloc, "[]")?),
    }
}

/// Appends the digits of an id in quotes, after a comma.
fn push_later_txid(text: &mut String, txid: &Txid) -> Result<(), Memory>
    ensures { OnOk result (string_bytes text.new ≡ string_bytes text.old ++ 44 ∷ quoted (id_text txid.now)) }
{
    recall_bytes(txid.as_bytes());
    text.push_str(",\"")?;
    write!(text, "{txid}")?;
    Ok(text.push_str("\"")?)
}

fn some_txids_json(alloc: Global, first: &Txid, others: &[Txid]) -> Result<String, Memory>
    ensures { IfOk result (λ text. string_bytes text ≡ compact_text (txids_json (first.now ∷ others.now))) }
{
    let mut text = txid_after(alloc, "[", first)?;
    for txid in others {
        push_later_txid(&mut text, txid)?;
    }
    text.push_str("]")?;
    Ok(text)
}

fn outcomes_json(alloc: Global, outcomes: &[Outcome]) -> Result<String, Memory>
    ensures { IfOk result (λ text. string_bytes text ≡ compact_text (outcomes_json outcomes.now)) }
{
    match outcomes.split_first() {
        Some((first, others)) => some_outcomes_json(alloc, first, others),
        None => Ok(String::from_str(alloc, "[]")?),
    }
}

fn some_outcomes_json(alloc: Global, first: &Outcome, others: &[Outcome]) -> Result<String, Memory>
    ensures { IfOk result (λ text. string_bytes text ≡ compact_text (outcomes_json (first.now ∷ others.now))) }
{
    let json = outcome_json(alloc, first)?;
    let mut text = opened(alloc, "[", json.as_str())?;
    for outcome in others {
        let json = outcome_json(alloc, outcome)?;
        push_later(&mut text, json.as_str())?;
    }
    text.push_str("]")?;
    Ok(text)
}

fn outcome_json(alloc: Global, outcome: &Outcome) -> Result<String, AllocError>
    ensures { IfOk result (λ text. string_bytes text ≡ compact_text (outcome_json outcome.now)) }
{
    match outcome {
        Outcome::Allowed {
            txid,
            wtxid,
            fee,
            vsize,
        } => allowed_json(alloc, txid, wtxid, *fee, *vsize),
        Outcome::Rejected {
            txid,
            wtxid,
            denial,
        } => rejected_json(alloc, txid, wtxid, denial),
        Outcome::AllRejected {
            txid,
            wtxid,
            denial,
        } => all_rejected_json(alloc, txid, wtxid, denial),
        Outcome::Unjudged { txid, wtxid } => ids_json(alloc, txid, wtxid),
    }
}

/// The text of a list or an object up to its first item.
pub(crate) fn opened(alloc: Global, bracket: &str, item: &str) -> Result<String, AllocError>
    ensures { IfOk result (λ text. string_bytes text ≡ bracket.now ++ item.now) }
{
    format!(in alloc; "{bracket}{item}")
}

/// Puts a comma and an item at the end.
pub(crate) fn push_later(text: &mut String, item: &str) -> Result<(), AllocError>
    ensures { OnOk result (string_bytes text.new ≡ string_bytes text.old ++ 44 ∷ item.now) }
{
    text.push_str(",")?;
    text.push_str(item)
}

fn entries_json(alloc: Global, entries: &[KnownEntry]) -> Result<String, Memory>
    ensures { IfOk result (λ text. string_bytes text ≡ compact_text (entries_json entries.now)) }
{
    match entries.split_first() {
        Some((first, others)) => some_entries_json(alloc, first, others),
        None => Ok(String::from_str(alloc, "{}")?),
    }
}

fn some_entries_json(
    alloc: Global,
    first: &KnownEntry,
    others: &[KnownEntry],
) -> Result<String, Memory>
    ensures { IfOk result (λ text. string_bytes text ≡ compact_text (entries_json (first.now ∷ others.now))) }
{
    let member = known_member(alloc, first)?;
    let mut text = opened(alloc, "{", member.as_str())?;
    for known in others {
        let member = known_member(alloc, known)?;
        push_later(&mut text, member.as_str())?;
    }
    text.push_str("}")?;
    Ok(text)
}

/// An entry behind its txid.
fn known_member(alloc: Global, known: &KnownEntry) -> Result<String, Memory>
    ensures { IfOk result (λ text. string_bytes text ≡ quoted (id_text known.now.txid) ++ 58 ∷ compact_text (entry_json known.now.info)) }
{
    let txid = txid_text(alloc, &known.txid)?;
    let info = entry_json(alloc, &known.info)?;
    Ok(format!(in alloc; "{txid}:{info}")?)
}

fn transaction_json(alloc: Global, transaction: &Identified) -> Result<String, Memory>
    ensures { IfOk result (λ text. string_bytes text ≡ compact_text (transaction_json transaction.now)) }
{
    let bytes = transaction.transaction().write_tx(alloc)?;
    Ok(quoted_digits(alloc, bytes.as_slice())?)
}

fn quoted_digits(alloc: Global, bytes: &[u8]) -> Result<String, AllocError>
    ensures { IfOk result (λ text. string_bytes text ≡ quoted (encode_lower bytes.now)) }
{
    recall_bytes(bytes);
    let digits = hex::encode(alloc, bytes)?;
    format!(in alloc; "\"{digits}\"")
}

fn spendings_json(alloc: Global, spendings: &[Spending]) -> Result<String, Memory>
    ensures { IfOk result (λ text. string_bytes text ≡ compact_text (spendings_json spendings.now)) }
{
    match spendings.split_first() {
        Some((first, others)) => some_spendings_json(alloc, first, others),
        None => Ok(String::from_str(alloc, "[]")?),
    }
}

fn some_spendings_json(
    alloc: Global,
    first: &Spending,
    others: &[Spending],
) -> Result<String, Memory>
    ensures { IfOk result (λ text. string_bytes text ≡ compact_text (spendings_json (first.now ∷ others.now))) }
{
    let json = spending_json(alloc, first)?;
    let mut text = opened(alloc, "[", json.as_str())?;
    for spending in others {
        let json = spending_json(alloc, spending)?;
        push_later(&mut text, json.as_str())?;
    }
    text.push_str("]")?;
    Ok(text)
}

fn spending_json(alloc: Global, spending: &Spending) -> Result<String, AllocError>
    ensures { IfOk result (λ text. string_bytes text ≡ compact_text (spending_json spending.now)) }
{
    let txid = txid_text(alloc, &spending.outpoint.txid)?;
    let rest = spending_end(alloc, txid.as_str(), spending.outpoint.index)?;
    spending_start(alloc, &spending.spender, rest.as_str())
}

fn spending_end(alloc: Global, txid: &str, index: u32) -> Result<String, AllocError>
    ensures { IfOk result (λ text. string_bytes text ≡ spending_end txid.now index) }
{
    format!(in alloc; "\"txid\":{txid},\"vout\":{index}}}")
}

/// The start of an outpoint's object, with the id of its spender, if there is one, and the text that follows.
fn spending_start(alloc: Global, spender: &Option<Txid>, rest: &str) -> Result<String, AllocError>
    ensures { IfOk result (λ text. string_bytes text ≡ spending_start (option_map (λ txid. quoted (id_text txid)) spender.now) rest.now) }
{
    match spender {
        Some(spender) => start_with_spender(alloc, spender, rest),
        None => format!(in alloc; "{{{rest}"),
    }
}

fn start_with_spender(alloc: Global, spender: &Txid, rest: &str) -> Result<String, AllocError>
    ensures { IfOk result (λ text. string_bytes text ≡ spending_start (Some (quoted (id_text spender.now))) rest.now) }
{
    let spender = txid_text(alloc, spender)?;
    format!(in alloc; "{{\"spendingtxid\":{spender},{rest}")
}

#[tactic(auto, unfolding(serde_json::proofs::OnLiterals::serde_json_on_literals))]
fn info_json(
    alloc: Global,
    size: u128,
    budget: u64,
    least_rate: u64,
    relay_rate: u64,
    count: u64,
) -> Result<String, Memory>
    ensures { IfOk result (λ text. string_bytes text ≡ compact_text (info_json size budget least_rate relay_rate count)) }
{
    Ok(format!(in alloc;
        "{{\"bytes\":{size},\"maxmempool\":{budget},\"mempoolminfee\":{least_rate},\"minrelaytxfee\":{relay_rate},\"size\":{count}}}"
    )?)
}

fn entry_json(alloc: Global, entry: &EntryInfo) -> Result<String, Memory>
    ensures { IfOk result (λ text. string_bytes text ≡ compact_text (entry_json entry.now)) }
{
    let depends = txids_json(alloc, entry.depends.as_slice())?;
    let spent_by = txids_json(alloc, entry.spent_by.as_slice())?;
    let wtxid = wtxid_text(alloc, &entry.wtxid)?;
    Ok(entry_text(
        alloc,
        entry,
        depends.as_str(),
        spent_by.as_str(),
        wtxid.as_str(),
    )?)
}

/// An entry with the texts of its lists and of its id.
fn entry_text(
    alloc: Global,
    entry: &EntryInfo,
    depends: &str,
    spent_by: &str,
    wtxid: &str,
) -> Result<String, AllocError>
    ensures { IfOk result (λ text. string_bytes text ≡ entry_text entry.now depends.now spent_by.now wtxid.now) }
{
    let rest = entry_end(alloc, entry, wtxid)?;
    let rest = entry_middle(alloc, entry, spent_by, rest.as_str())?;
    entry_start(alloc, entry, depends, rest.as_str())
}

fn entry_end(alloc: Global, entry: &EntryInfo, wtxid: &str) -> Result<String, AllocError>
    ensures { IfOk result (λ text. string_bytes text ≡ entry_end entry.now wtxid.now) }
{
    format!(in alloc;
        ",\"time\":{},\"vsize\":{},\"weight\":{},\"wtxid\":{wtxid}}}",
        entry.time, entry.vsize, entry.weight,
    )
}

fn entry_middle(
    alloc: Global,
    entry: &EntryInfo,
    spent_by: &str,
    rest: &str,
) -> Result<String, AllocError>
    ensures { IfOk result (λ text. string_bytes text ≡ entry_middle entry.now spent_by.now rest.now) }
{
    format!(in alloc;
        ",\"descendantcount\":{},\"descendantfees\":{},\"descendantsize\":{},\"fee\":{},\"spentby\":{spent_by}{rest}",
        entry.descendant_count, entry.descendant_fees, entry.descendant_size, entry.fee,
    )
}

fn entry_start(
    alloc: Global,
    entry: &EntryInfo,
    depends: &str,
    rest: &str,
) -> Result<String, AllocError>
    ensures { IfOk result (λ text. string_bytes text ≡ entry_start entry.now depends.now rest.now) }
{
    format!(in alloc;
        "{{\"ancestorcount\":{},\"ancestorfees\":{},\"ancestorsize\":{},\"bip125-replaceable\":{},\"depends\":{depends}{rest}",
        entry.ancestor_count, entry.ancestor_fees, entry.ancestor_size, entry.is_replaceable,
    )
}
