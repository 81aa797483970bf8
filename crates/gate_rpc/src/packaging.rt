//! What became of a package, as JSON.
ghost use Rattle.std.specs.Prelude.{◌≡◌, [], ◌∷◌, ◌++◌, codes, flat_map, IfOk, string_bytes};
ghost use Rattle.std.specs.Fmt.{decimal};
ghost use Rattle.serde_json.specs.Written.{compact_text};
ghost use Rattle.json.specs.Print.{quoted};
ghost use Rattle.gate_tx.specs.Ids.{id_text};
ghost use Rattle.gate_submission.specs.declared.package_outcome.PackageVerdict.TheVariants.{Denied as DeniedBy, Failed};
ghost use Rattle.gate_rpc.specs.Values.{txids_json};
ghost use Rattle.gate_rpc.specs.Packages.{base_json, base_text, denied_json, denied_text, fate_json, fees_json, fees_text, members_json, other_json, other_text, package_end, package_json, package_message, package_text, replaced_by, sized_json, sized_text, taken_fees, told_rate};

use crate::writing::{
    opened, push_later, quoted_text, rule_json, txid_text, txids_json, wtxid_text,
};
use gate_bytes::Memory;
use gate_rules::PackageDenial;
use gate_standard::{Denial, rate_of};
use gate_submission::{Fate, Member, PackageOutcome, PackageVerdict, Together};
use gate_tx::{Txid, Wtxid};
use std::alloc::{AllocError, Global};

/// What is said of the package as a whole.
fn message(verdict: &PackageVerdict) -> &'static str
    ensures { result.now ≡ package_message verdict.now }
{
    match verdict {
        PackageVerdict::Success => "success",
        PackageVerdict::Failed => "transaction failed",
        PackageVerdict::Denied(denial) => denial.row().token,
    }
}

/// The outcome of a package: its message, what was replaced, the rule that denies it, if one does, and each member under
/// its wtxid, in the order of the package.
pub(crate) fn package_json(alloc: Global, outcome: &PackageOutcome) -> Result<String, Memory>
    ensures { IfOk result (λ text. string_bytes text ≡ compact_text (package_json outcome.now)) }
{
    let members = outcome.members.as_slice();
    let message = quoted_text(alloc, message(&outcome.verdict))?;
    let replaced = list_replaced(alloc, members)?;
    let replaced = txids_json(alloc, replaced.as_slice())?;
    let results = members_json(alloc, &outcome.together, members)?;
    let rest = package_end(alloc, &outcome.verdict, results.as_str())?;
    Ok(package_text(alloc, message.as_str(), replaced.as_str(), rest.as_str())?)
}

fn package_text(
    alloc: Global,
    message: &str,
    replaced: &str,
    rest: &str,
) -> Result<String, AllocError>
    ensures { IfOk result (λ text. string_bytes text ≡ package_text message.now replaced.now rest.now) }
{
    format!(in alloc; "{{\"package_msg\":{message},\"replaced-transactions\":{replaced},{rest}")
}

/// The end of a package's object: the rule that denies, if one does, and what became of the members.
fn package_end(alloc: Global, verdict: &PackageVerdict, results: &str) -> Result<String, AllocError>
    ensures { IfOk result (λ text. string_bytes text ≡ package_end verdict.now results.now) }
{
    match verdict {
        PackageVerdict::Success => end_without_rule(alloc, results),
        PackageVerdict::Failed => end_without_rule(alloc, results),
        PackageVerdict::Denied(denial) => end_with_rule(alloc, denial, results),
    }
}

fn end_without_rule(alloc: Global, results: &str) -> Result<String, AllocError>
    ensures { IfOk result (λ text. string_bytes text ≡ package_end Failed results.now) }
{
    format!(in alloc; "\"tx-results\":{results}}}")
}

fn end_with_rule(alloc: Global, denial: &PackageDenial, results: &str) -> Result<String, AllocError>
    ensures { IfOk result (λ text. string_bytes text ≡ package_end (DeniedBy denial.now) results.now) }
{
    let rule = quoted_text(alloc, denial.row().name)?;
    format!(in alloc; "\"rule\":{rule},\"tx-results\":{results}}}")
}

/// The entries that a member has replaced.
fn replaced_by(member: &Member) -> &[Txid]
    ensures { result.now ≡ replaced_by member.now }
{
    match &member.fate {
        Fate::Taken { replaced, .. } => replaced.as_slice(),
        _ => &[],
    }
}

/// The entries that members have replaced, member by member.
fn list_replaced(alloc: Global, members: &[Member]) -> Result<Vec<Txid>, Memory>
    ensures { IfOk result (λ txids. txids.items ≡ flat_map replaced_by members.now) }
{
    let mut txids = Vec::new(alloc);
    for member in members {
        txids.extend_from_slice(replaced_by(member))?;
    }
    Ok(txids)
}

/// Each member under its wtxid, in the order of the package.
fn members_json(alloc: Global, all: &Option<Together>, members: &[Member]) -> Result<String, Memory>
    ensures { IfOk result (λ text. string_bytes text ≡ compact_text (members_json all.now members.now)) }
{
    match members.split_first() {
        Some((first, others)) => some_members_json(alloc, all, first, others),
        None => Ok(String::from_str(alloc, "{}")?),
    }
}

fn some_members_json(
    alloc: Global,
    all: &Option<Together>,
    first: &Member,
    others: &[Member],
) -> Result<String, Memory>
    ensures { IfOk result (λ text. string_bytes text ≡ compact_text (members_json all.now (first.now ∷ others.now))) }
{
    let json = member_json(alloc, all, first)?;
    let mut text = opened(alloc, "{", json.as_str())?;
    for member in others {
        let json = member_json(alloc, all, member)?;
        push_later(&mut text, json.as_str())?;
    }
    text.push_str("}")?;
    Ok(text)
}

/// What became of a member, behind its wtxid.
fn member_json(alloc: Global, all: &Option<Together>, member: &Member) -> Result<String, Memory>
    ensures { IfOk result (λ text. string_bytes text ≡ quoted (id_text member.now.wtxid) ++ 58 ∷ compact_text (fate_json all.now member.now.txid member.now.wtxid member.now.fate)) }
{
    let wtxid = wtxid_text(alloc, &member.wtxid)?;
    let fate = fate_json(alloc, all, member)?;
    Ok(format!(in alloc; "{wtxid}:{fate}")?)
}

/// What became of a member.
fn fate_json(alloc: Global, all: &Option<Together>, member: &Member) -> Result<String, Memory>
    ensures { IfOk result (λ text. string_bytes text ≡ compact_text (fate_json all.now member.now.txid member.now.wtxid member.now.fate)) }
{
    let txid = &member.txid;
    match &member.fate {
        Fate::Taken {
            fee,
            vsize,
            together,
            ..
        } => taken_json(alloc, all, *together, txid, &member.wtxid, *fee, *vsize),
        Fate::Known { fee, vsize } => known_json(alloc, txid, *fee, *vsize),
        Fate::OtherWitness { wtxid } => other_json(alloc, wtxid, txid),
        Fate::Denied(denial) => denied_json(alloc, txid, denial),
    }
}

/// A member that was taken. The feerate that counted is that of all that were judged together, if it was among them.
fn taken_json(
    alloc: Global,
    all: &Option<Together>,
    together: bool,
    txid: &Txid,
    wtxid: &Wtxid,
    fee: u64,
    vsize: u64,
) -> Result<String, Memory>
    ensures { IfOk result (λ text. string_bytes text ≡ compact_text (sized_json (taken_fees all.now together wtxid.now fee vsize) txid.now vsize)) }
{
    let fees = taken_fees(alloc, all, together, wtxid, fee, vsize)?;
    Ok(sized_json(alloc, fees.as_str(), txid, vsize)?)
}

fn known_json(alloc: Global, txid: &Txid, fee: u64, vsize: u64) -> Result<String, Memory>
    ensures { IfOk result (λ text. string_bytes text ≡ compact_text (sized_json (base_json fee) txid.now vsize)) }
{
    let fees = base_text(alloc, fee)?;
    Ok(sized_json(alloc, fees.as_str(), txid, vsize)?)
}

/// What a member pays, and the feerate that counted.
fn taken_fees(
    alloc: Global,
    all: &Option<Together>,
    together: bool,
    wtxid: &Wtxid,
    fee: u64,
    vsize: u64,
) -> Result<String, Memory>
    ensures { IfOk result (λ text. string_bytes text ≡ compact_text (taken_fees all.now together wtxid.now fee vsize)) }
{
    match all {
        Some(all) => {
            if together {
                fees_json(alloc, fee, all.fee, all.vsize, all.wtxids.as_slice())
            } else {
                own_fees(alloc, wtxid, fee, vsize)
            }
        }
        None => own_fees(alloc, wtxid, fee, vsize),
    }
}

fn own_fees(alloc: Global, wtxid: &Wtxid, fee: u64, vsize: u64) -> Result<String, Memory>
    ensures { IfOk result (λ text. string_bytes text ≡ compact_text (fees_json fee fee vsize (wtxid.now ∷ []))) }
{
    fees_json(alloc, fee, fee, vsize, std::slice::from_ref(wtxid))
}

/// The feerate as it is told, in satoshi per 1,000 virtual bytes: there is none without a size.
fn told_rate(fee: u64, vsize: u64) -> u128
    ensures { result ≡ told_rate fee vsize }
{
    if vsize == 0 { 0 } else { rate_of(fee, vsize) }
}

/// What a member pays, in satoshi, and the feerate of this fee and this size, with the wtxids of those whose they are.
fn fees_json(
    alloc: Global,
    base: u64,
    fee: u64,
    vsize: u64,
    wtxids: &[Wtxid],
) -> Result<String, Memory>
    ensures { IfOk result (λ text. string_bytes text ≡ compact_text (fees_json base fee vsize wtxids.now)) }
{
    let rate = told_rate(fee, vsize);
    let wtxids = wtxids_json(alloc, wtxids)?;
    Ok(fees_text(alloc, base, rate, wtxids.as_str())?)
}

fn fees_text(alloc: Global, base: u64, rate: u128, wtxids: &str) -> Result<String, AllocError>
    ensures { IfOk result (λ text. string_bytes text ≡ fees_text base rate wtxids.now) }
{
    format!(in alloc;
        "{{\"base\":{base},\"effective-feerate\":{rate},\"effective-includes\":{wtxids}}}"
    )
}

fn base_text(alloc: Global, fee: u64) -> Result<String, AllocError>
    ensures { IfOk result (λ text. string_bytes text ≡ base_text fee) }
{
    format!(in alloc; "{{\"base\":{fee}}}")
}

/// An object of fees, whose text is given, an id and a size.
fn sized_json(alloc: Global, fees: &str, txid: &Txid, vsize: u64) -> Result<String, AllocError>
    ensures { IfOk result (λ text. string_bytes text ≡ sized_text fees.now (quoted (id_text txid.now)) vsize) }
{
    let txid = txid_text(alloc, txid)?;
    sized_text(alloc, fees, txid.as_str(), vsize)
}

fn sized_text(alloc: Global, fees: &str, txid: &str, vsize: u64) -> Result<String, AllocError>
    ensures { IfOk result (λ text. string_bytes text ≡ sized_text fees.now txid.now vsize) }
{
    format!(in alloc; "{{\"fees\":{fees},\"txid\":{txid},\"vsize\":{vsize}}}")
}

fn other_json(alloc: Global, other: &Wtxid, txid: &Txid) -> Result<String, Memory>
    ensures { IfOk result (λ text. string_bytes text ≡ compact_text (other_json other.now txid.now)) }
{
    let other = wtxid_text(alloc, other)?;
    let txid = txid_text(alloc, txid)?;
    Ok(other_text(alloc, other.as_str(), txid.as_str())?)
}

fn other_text(alloc: Global, other: &str, txid: &str) -> Result<String, AllocError>
    ensures { IfOk result (λ text. string_bytes text ≡ other_text other.now txid.now) }
{
    format!(in alloc; "{{\"other-wtxid\":{other},\"txid\":{txid}}}")
}

fn denied_json(alloc: Global, txid: &Txid, denial: &Denial) -> Result<String, Memory>
    ensures { IfOk result (λ text. string_bytes text ≡ compact_text (denied_json txid.now denial.now)) }
{
    let reason = quoted_text(alloc, denial.row().token)?;
    let rule = rule_json(alloc, denial)?;
    let txid = txid_text(alloc, txid)?;
    Ok(denied_text(alloc, reason.as_str(), rule.as_str(), txid.as_str())?)
}

fn denied_text(alloc: Global, reason: &str, rule: &str, txid: &str) -> Result<String, AllocError>
    ensures { IfOk result (λ text. string_bytes text ≡ denied_text reason.now rule.now txid.now) }
{
    format!(in alloc; "{{\"error\":{reason},\"rule\":{rule},\"txid\":{txid}}}")
}

fn wtxids_json(alloc: Global, wtxids: &[Wtxid]) -> Result<String, Memory>
    ensures { IfOk result (λ text. string_bytes text ≡ compact_text (txids_json wtxids.now)) }
{
    match wtxids.split_first() {
        Some((first, others)) => some_wtxids_json(alloc, first, others),
        None => Ok(String::from_str(alloc, "[]")?),
    }
}

fn some_wtxids_json(alloc: Global, first: &Wtxid, others: &[Wtxid]) -> Result<String, Memory>
    ensures { IfOk result (λ text. string_bytes text ≡ compact_text (txids_json (first.now ∷ others.now))) }
{
    let json = wtxid_text(alloc, first)?;
    let mut text = opened(alloc, "[", json.as_str())?;
    for wtxid in others {
        let json = wtxid_text(alloc, wtxid)?;
        push_later(&mut text, json.as_str())?;
    }
    text.push_str("]")?;
    Ok(text)
}
