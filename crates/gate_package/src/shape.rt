//! What a package has to be before its members are judged: A1, and J1 to J7; and a list that is tested as one package: A1, and
//! J3 to J6.
ghost use Rattle.std.specs.Prelude.{◌≡◌, ◌&&◌, nat_lt, IfOk, IfErr, IfSome, OnOk, None, Some, is_none};
ghost use Rattle.std.specs.List.{list_all, list_any};
ghost use Rattle.std.specs.Str.{bytes_eq};
ghost use Rattle.gate_bytes.specs.Order.{first_failing};
ghost use Rattle.gate_script.specs.Instructions.{instruction_of, instructions};
ghost use Rattle.gate_tx.specs.Ids.{txid_of};
ghost use Rattle.gate_package.specs.Shapes.{burns, has_conflict, has_duplicates, has_same_id, is_burnt, is_invalid, is_parent, is_spent_by, is_unsorted, lacks_parent, lacks_parents, list_rules, members_of, names_one, shape_rules, shares_input, text_rules, weight_of_all};

use gate_admit::{Chain, Policy, Prepared};
use gate_bytes::Memory;
use gate_rules::PackageDenial;
use gate_script::{Op, ops};
use gate_submission::Candidate;
use gate_tx::{TxIn, TxOut, Txid, is_unspendable};
use std::alloc::Global;
use std::hash::BuildHasher;

/// The greatest weight of a package (Bitcoin Core's `MAX_PACKAGE_WEIGHT`).
const MAX_WEIGHT: usize = 404_000;

/// The longest item that a script may push (Bitcoin Core's `MAX_SCRIPT_ELEMENT_SIZE`).
const MAX_ITEM: usize = 520;

/// The last opcode (Bitcoin Core's `MAX_OPCODE`).
const LAST_OPCODE: u8 = 0xb9;

/// Why a package is not judged.
#[derive(Clone, Copy, PartialEq, Eq)]
pub enum Unfit {
    /// A1: a text is no transaction.
    Undecodable,
    /// A rule of J1 to J7 fails.
    Denied(PackageDenial),
}

/// Whether an instruction can't be run: a push past the end, one of more than 520 bytes, or an opcode that there is not.
fn is_invalid(op: &Op<'_>) -> bool
    ensures { result ≡ is_invalid (instruction_of op.now) }
{
    match op {
        Op::Push { bytes, .. } => bytes.len() > MAX_ITEM,
        Op::Truncated { .. } => true,
        Op::Plain(opcode) => *opcode > LAST_OPCODE,
    }
}

/// Whether a script has an instruction that can't be run.
fn has_invalid(script: &[u8]) -> bool
    ensures { result ≡ list_any is_invalid (instructions script.now) }
{
    ops(script).any(|op| is_invalid(&op))
}

/// Whether what is paid to an output is burnt: no script can spend it.
fn is_burnt(script: &[u8]) -> bool
    ensures { result ≡ is_burnt script.now }
{
    is_unspendable(script) || has_invalid(script)
}

/// Whether an output burns more than this, in satoshi.
fn burns(max_burn: u64, output: &TxOut) -> bool
    ensures { result ≡ burns max_burn output.now }
{
    output.value > 0 && output.value as u64 > max_burn && is_burnt(output.script.as_slice())
}

/// Whether one of these outputs burns more than this, in satoshi.
fn one_burns(max_burn: u64, outputs: &[TxOut]) -> bool
    ensures { result ≡ list_any (burns max_burn) outputs.now }
{
    outputs.iter().any(|output| burns(max_burn, output))
}

/// The members of a package, or the first of A1 and J1 that fails text by text: one that is no transaction, or an output
/// that burns more than this, in satoshi.
#[tactic(auto, unfolding(crate::specs::Shapes::text_rules))]
pub fn read_members<'a>(
    alloc: Global,
    submissions: &'a [Prepared],
    max_burn: u64,
) -> Result<Result<Vec<Candidate<'a>>, Unfit>, Memory>
    ensures members { IfOk result (λ read. IfOk read (λ members. members.items ≡ members_of submissions.now)) }
    ensures passes { IfOk result (λ read. OnOk read (first_failing (text_rules max_burn submissions.now) ≡ None)) }
    ensures err { IfOk result (λ read. IfErr read (λ unfit. first_failing (text_rules max_burn submissions.now) ≡ Some unfit)) }
{
    let mut members = Vec::with_capacity(alloc, submissions.len())?;
    for submission in submissions {
        let Some(member) = submission.candidate() else {
            return Ok(Err(Unfit::Undecodable));
        };
        if one_burns(max_burn, member.transaction().outputs()) {
            return Ok(Err(Unfit::Denied(PackageDenial::BurntAmount)));
        }
        members.push(member)?;
    }
    Ok(Ok(members))
}

/// The transactions of a list, or None if a text is no transaction.
pub fn read_list<'a>(
    alloc: Global,
    submissions: &'a [Prepared],
) -> Result<Option<Vec<Candidate<'a>>>, Memory>
    ensures none { IfOk result (λ read. is_none read ≡ list_any is_none submissions.now) }
    ensures members { IfOk result (λ read. IfSome read (λ members. members.items ≡ members_of submissions.now)) }
{
    let mut members = Vec::with_capacity(alloc, submissions.len())?;
    for submission in submissions {
        match submission.candidate() {
            Some(member) => members.push(member)?,
            None => return Ok(None),
        }
    }
    Ok(Some(members))
}

/// Whether one of these inputs spends an output of a transaction.
pub(crate) fn name_one(inputs: &[TxIn], parent: &Candidate<'_>) -> bool
    ensures { result ≡ names_one inputs.now parent.now }
{
    let txid = parent.txid();
    inputs.iter().any(|input| input.prevout.txid == txid)
}

/// Whether one of these inputs spends an output of one of these transactions.
fn name_any(inputs: &[TxIn], parents: &[Candidate<'_>]) -> bool
    ensures { result ≡ list_any (names_one inputs.now) parents.now }
{
    parents.iter().any(|parent| name_one(inputs, parent))
}

/// Whether a member before the last is a parent of the last, which has these inputs, and of no other before the last.
fn is_parent(parents: &[Candidate<'_>], child: &[TxIn], member: &Candidate<'_>) -> bool
    ensures { result ≡ is_parent parents.now child.now member.now }
{
    name_one(child, member) && !name_any(member.transaction().inputs(), parents)
}

/// Whether each of these is a parent of the child, and of no other of these.
fn are_parents(parents: &[Candidate<'_>], child: &[TxIn]) -> bool
    ensures { result ≡ list_all (is_parent parents.now child.now) parents.now }
{
    parents
        .iter()
        .all(|member| is_parent(parents, child, member))
}

/// Whether the weights of all members sum to more than a package may have.
fn is_too_heavy(members: &[Candidate<'_>]) -> bool
    ensures { result ≡ nat_lt 404_000 (weight_of_all members.now) }
{
    let mut weight = 0;
    for member in members {
        let more = member.identified().get().weight();
        if more > MAX_WEIGHT - weight {
            return true;
        }
        weight += more;
    }
    false
}

/// Whether another member has the txid of one, or its wtxid.
fn has_same_id(member: &Candidate<'_>, other: &Candidate<'_>) -> bool
    ensures { result ≡ has_same_id member.now other.now }
{
    other.txid() == member.txid() || other.wtxid() == member.wtxid()
}

/// Whether one of these others has the txid of a member, or its wtxid.
fn one_has_same_id(member: &Candidate<'_>, others: &[Candidate<'_>]) -> bool
    ensures { result ≡ list_any (has_same_id member.now) others.now }
{
    others.iter().any(|other| has_same_id(member, other))
}

/// Whether two members have one txid.
fn has_duplicates(members: &[Candidate<'_>]) -> bool
    ensures { result ≡ has_duplicates members.now }
{
    match members.split_first() {
        Some((first, others)) => one_has_same_id(first, others) || has_duplicates(others),
        None => false,
    }
}

/// Whether one of these inputs spends what another input spends.
fn is_spent_by(inputs: &[TxIn], other: &TxIn) -> bool
    ensures { result ≡ is_spent_by inputs.now other.now }
{
    inputs.iter().any(|input| input.prevout == other.prevout)
}

/// Whether one of these inputs spends what one of these others spends.
fn share_input(inputs: &[TxIn], others: &[TxIn]) -> bool
    ensures { result ≡ list_any (is_spent_by inputs.now) others.now }
{
    others.iter().any(|other| is_spent_by(inputs, other))
}

/// Whether one of these spends what a transaction with these inputs spends.
fn one_shares_input(others: &[Candidate<'_>], inputs: &[TxIn]) -> bool
    ensures { result ≡ list_any (shares_input inputs.now) others.now }
{
    others
        .iter()
        .any(|other| share_input(inputs, other.transaction().inputs()))
}

/// Whether two members spend one outpoint, or one has no input.
fn has_conflict(members: &[Candidate<'_>]) -> bool
    ensures { result ≡ has_conflict members.now }
{
    match members.split_first() {
        Some((first, others)) => {
            let inputs = first.transaction().inputs();
            inputs.is_empty() || one_shares_input(others, inputs) || has_conflict(others)
        }
        None => false,
    }
}

/// Whether an input of one names the txid of that one, or of one behind it.
fn is_unsorted(members: &[Candidate<'_>]) -> bool
    ensures { result ≡ is_unsorted members.now }
{
    match members.split_first() {
        Some((first, others)) => {
            let inputs = first.transaction().inputs();
            name_one(inputs, first) || name_any(inputs, others) || is_unsorted(others)
        }
        None => false,
    }
}

/// Whether one of these has this txid.
fn is_one_of(parents: &[Candidate<'_>], txid: &Txid) -> bool
    ensures { result ≡ list_any (λ p. bytes_eq (txid_of p) txid.now) parents.now }
{
    parents.iter().any(|parent| parent.txid() == *txid)
}

/// Whether an outpoint is neither of one of these nor a coin of the chain.
fn lacks_parent<S: BuildHasher + Copy + Drop>(
    chain: &Chain<S>,
    parents: &[Candidate<'_>],
    input: &TxIn,
) -> bool
    ensures { result ≡ lacks_parent chain.now parents.now input.now }
{
    if chain.coin(&input.prevout).is_some() {
        return false;
    }
    !is_one_of(parents, &input.prevout.txid)
}

/// Whether an input of the child is neither from one of these nor a coin of the chain.
fn lacks_parents<S: BuildHasher + Copy + Drop>(
    chain: &Chain<S>,
    parents: &[Candidate<'_>],
    child: &[TxIn],
) -> bool
    ensures { result ≡ lacks_parents chain.now parents.now child.now }
{
    child
        .iter()
        .any(|input| lacks_parent(chain, parents, input))
}

/// The first of J2 to J7 that fails of the members of a package. A package of one has no parents to ask for.
#[tactic(auto, using(crate::proofs::Shaping::parents_at, crate::proofs::Shaping::child_at), unfolding(crate::specs::Shapes::shape_rules))]
pub fn check_shape<S: BuildHasher + Copy + Drop>(
    chain: &Chain<S>,
    policy: &Policy,
    members: &[Candidate<'_>],
) -> Option<PackageDenial>
    ensures { result ≡ first_failing (shape_rules chain.now policy.now members.now) }
{
    let (child, parents) = members.split_last()?;
    let child = child.transaction().inputs();
    if !are_parents(parents, child) {
        return Some(PackageDenial::NotChildWithParents);
    }
    if members.len() > 1 && is_too_heavy(members) {
        return Some(PackageDenial::TooLarge);
    }
    if has_duplicates(members) {
        return Some(PackageDenial::Duplicates);
    }
    if has_conflict(members) {
        return Some(PackageDenial::Conflicting);
    }
    if policy.all_parents() && members.len() > 1 && lacks_parents(chain, parents, child) {
        return Some(PackageDenial::LacksParents);
    }
    None
}

/// The first of J3 to J6 that fails of several transactions that are tested as one package.
#[tactic(auto, unfolding(crate::specs::Shapes::list_rules))]
pub fn check_list(members: &[Candidate<'_>]) -> Option<PackageDenial>
    ensures { result ≡ first_failing (list_rules members.now) }
{
    if members.len() > 1 && is_too_heavy(members) {
        return Some(PackageDenial::TooLarge);
    }
    if has_duplicates(members) {
        return Some(PackageDenial::Duplicates);
    }
    if is_unsorted(members) {
        return Some(PackageDenial::NotSorted);
    }
    if has_conflict(members) {
        return Some(PackageDenial::Conflicting);
    }
    None
}
