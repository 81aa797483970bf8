//! The parameters of a call.
ghost use Rattle.std.specs.Prelude.{◌≡◌, IfOk, option_and_then};
ghost use Rattle.std.specs.Option.{option_map};
ghost use Rattle.serde_json.specs.View.{view, items_view};
ghost use Rattle.serde_json.specs.Find.{as_bool, as_object, as_str};
ghost use Rattle.gate_rpc.specs.Calls.{params_of, only, is_none, is_false_alone, is_true_alone, text_alone, list_alone, txid_alone, txid_first, txid_unless, listing_of, submissions_in, test_of, keys_in, txid_in, index_in, point_in, points_in, number_in, members_in, package_of, package_in, command_of, submission_of, each_of};

use crate::method::Method;
use crate::request::{Command, PackageCall};
use gate_bytes::{Kept, Memory};
use gate_submission::Prepared;
use gate_tx::{MAX_MONEY, OutPoint, Txid};
use hex::FromHexError;
use serde_json::Value;
use std::alloc::Global;

/// The most transactions that one call tests, or submits as a package.
const MOST_TESTED: usize = 25;

/// What a package may pay at most, in satoshi per 1,000 virtual bytes, if the call doesn't say it (Bitcoin Core's
/// `DEFAULT_MAX_RAW_TX_FEE_RATE`).
const USUAL_MAX_RATE: u64 = 10_000_000;

/// The greatest of these rates that a call may say: Bitcoin Core takes less than 1 BTC.
const GREATEST_MAX_RATE: u64 = 99_999_999;

/// The command of a method with these parameters, which may be absent; `None` if the method doesn't take them.
pub(crate) fn read_command(
    alloc: Global,
    method: Method,
    params: Option<&Value>,
) -> Result<Option<Command>, Memory>
    ensures { IfOk result (λ command. command ≡ option_and_then (command_of method) (params_of (option_map (λ v. view v.now) params.entry))) }
{
    let Some(params) = items_of(params) else {
        return Ok(None);
    };
    match method {
        Method::SendRawTransaction => {
            let submission = submission(alloc, text_alone(params))?;
            Ok(submission.map(|s| Command::SendRawTransaction(s)))
        }
        Method::TestMempoolAccept => {
            let submissions = submissions_inside(alloc, params)?;
            Ok(submissions.map(|s| testing(s)))
        }
        Method::GetRawMempool => Ok(listing(params)),
        Method::GetMempoolEntry => {
            Ok(txid_alone(params).map(|txid| Command::GetMempoolEntry(txid)))
        }
        Method::GetMempoolAncestors => {
            Ok(txid_alone(params).map(|txid| Command::GetMempoolAncestors(txid)))
        }
        Method::GetMempoolDescendants => {
            Ok(txid_alone(params).map(|txid| Command::GetMempoolDescendants(txid)))
        }
        Method::GetMempoolInfo => {
            if takes_none(params) {
                Ok(Some(Command::GetMempoolInfo))
            } else {
                Ok(None)
            }
        }
        Method::GetRawTransaction => {
            Ok(txid_first(params).map(|txid| Command::GetRawTransaction(txid)))
        }
        Method::GetTxSpendingPrevout => {
            let points = points_inside(alloc, params)?;
            Ok(points.map(|points| Command::GetTxSpendingPrevout(points)))
        }
        Method::SubmitPackage => submitted_package(alloc, params),
    }
}

/// The call of `getrawmempool`, which takes nothing, `false` or `true`.
fn listing(params: &[Value]) -> Option<Command>
    ensures { result ≡ listing_of (items_view params.now) }
{
    if takes_none(params) || is_false_alone(params) {
        Some(Command::GetRawMempool)
    } else if is_true_alone(params) {
        Some(Command::GetRawMempoolVerbose)
    } else {
        None
    }
}

/// The call of `testmempoolaccept` for these submissions.
fn testing(submissions: Kept<Prepared>) -> Command
    ensures { result ≡ test_of submissions }
{
    if submissions.len() != 1 {
        return Command::TestList(submissions);
    }
    let mut submissions = submissions.into_vec();
    match submissions.pop() {
        Some(submission) => Command::TestMempoolAccept(submission),
        None => Command::TestList(Kept::from_vec(submissions)),
    }
}

fn takes_none(params: &[Value]) -> bool
    ensures { result ≡ is_none (items_view params.now) }
{
    params.is_empty()
}

/// The submission of a text, if there is a text.
fn submission(alloc: Global, hex: Option<&str>) -> Result<Option<Prepared>, Memory>
    ensures { IfOk result (λ s. s ≡ option_map submission_of (option_map (λ text. text.now) hex.entry)) }
{
    match hex {
        Some(hex) => Ok(Some(read_submission(alloc, hex)?)),
        None => Ok(None),
    }
}

/// The submission of hex digits of either case, with the first rule that it fails by itself. A text that is no hex, and
/// bytes that are no transaction, spell none.
fn read_submission(alloc: Global, hex: &str) -> Result<Prepared, Memory>
    ensures { IfOk result (λ s. s ≡ submission_of hex.now) }
{
    match hex::decode(alloc, hex) {
        Ok(bytes) => Prepared::new(alloc, bytes.as_slice()),
        Err(FromHexError::OutOfMemory) => Err(Memory),
        Err(_) => Ok(Prepared::undecodable()),
    }
}

/// The items of the parameters: an empty list if these are absent or `null`, and `None` if they are no list.
fn items_of(params: Option<&Value>) -> Option<&[Value]>
    ensures { option_map (λ items. items_view items.now) result ≡ params_of (option_map (λ v. view v.now) params.entry) }
{
    match params {
        None => Some(&[]),
        Some(params) => if params.is_null() {
            Some(&[])
        } else {
            match params.as_array() {
                Some(items) => Some(items.as_slice()),
                None => None,
            }
        },
    }
}

/// The item of a list of one.
fn only(items: &[Value]) -> Option<&Value>
    ensures { option_map (λ v. view v.now) result ≡ only (items_view items.now) }
{
    if items.len() == 1 {
        Some(&items[0])
    } else {
        None
    }
}

/// Whether the parameters are `[false]`.
fn is_false_alone(params: &[Value]) -> bool
    ensures { result ≡ is_false_alone (option_and_then as_bool (only (items_view params.now))) }
{
    match only(params) {
        Some(param) => param.as_bool() == Some(false),
        None => false,
    }
}

/// The text of `[text]`.
fn text_alone(params: &[Value]) -> Option<&str>
    ensures { option_map (λ text. text.now) result ≡ text_alone (items_view params.now) }
{
    match only(params) {
        Some(param) => param.as_str(),
        None => None,
    }
}

/// Whether the parameters are `[true]`.
fn is_true_alone(params: &[Value]) -> bool
    ensures { result ≡ is_true_alone (option_and_then as_bool (only (items_view params.now))) }
{
    match only(params) {
        Some(param) => param.as_bool() == Some(true),
        None => false,
    }
}

/// The items of `[[..]]`.
fn list_alone(params: &[Value]) -> Option<&[Value]>
    ensures { option_map (λ items. items_view items.now) result ≡ list_alone (items_view params.now) }
{
    match only(params) {
        Some(param) => match param.as_array() {
            Some(inner) => Some(inner.as_slice()),
            None => None,
        },
        None => None,
    }
}

/// The submissions of `[[text, ..]]`, of which there are at least one and at most 25.
fn submissions_inside(alloc: Global, params: &[Value]) -> Result<Option<Kept<Prepared>>, Memory>
    ensures { IfOk result (λ s. s ≡ option_and_then submissions_in (list_alone (items_view params.now))) }
{
    match list_alone(params) {
        Some(items) => submissions(alloc, items),
        None => Ok(None),
    }
}

fn submissions(alloc: Global, items: &[Value]) -> Result<Option<Kept<Prepared>>, Memory>
    ensures { IfOk result (λ s. s ≡ submissions_in (items_view items.now)) }
{
    if items.is_empty() || items.len() > MOST_TESTED {
        return Ok(None);
    }
    each_submission(alloc, items)
}

/// The submission of each text of a list; `None` if an item is no text.
fn each_submission(alloc: Global, items: &[Value]) -> Result<Option<Kept<Prepared>>, Memory>
    ensures { IfOk result (λ s. s ≡ each_of (λ d. option_map submission_of (as_str d)) (items_view items.now)) }
{
    let mut submissions = Vec::with_capacity(alloc, items.len())?;
    for item in items {
        match submission(alloc, item.as_str())? {
            Some(submission) => submissions.push(submission)?,
            None => return Ok(None),
        }
    }
    Ok(Some(Kept::from_vec(submissions)))
}

/// The outpoints of `[[{"txid": .., "vout": ..}, ..]]`, of which there is at least one.
fn points_inside(alloc: Global, params: &[Value]) -> Result<Option<Kept<OutPoint>>, Memory>
    ensures { IfOk result (λ points. points ≡ option_and_then points_in (list_alone (items_view params.now))) }
{
    match list_alone(params) {
        Some(items) => points(alloc, items),
        None => Ok(None),
    }
}

fn points(alloc: Global, items: &[Value]) -> Result<Option<Kept<OutPoint>>, Memory>
    ensures { IfOk result (λ points. points ≡ points_in (items_view items.now)) }
{
    if takes_none(items) {
        return Ok(None);
    }
    each_point(alloc, items)
}

/// The outpoint of each object of a list; `None` if an item names none.
fn each_point(alloc: Global, items: &[Value]) -> Result<Option<Kept<OutPoint>>, Memory>
    ensures { IfOk result (λ points. points ≡ each_of point_in (items_view items.now)) }
{
    let mut points = Vec::with_capacity(alloc, items.len())?;
    for item in items {
        match point(item) {
            Some(point) => points.push(point)?,
            None => return Ok(None),
        }
    }
    Ok(Some(Kept::from_vec(points)))
}

/// How many keys an object has; none if the value is no object.
fn keys_in(item: &Value) -> usize
    ensures { result ≡ keys_in (as_object (view item.now)) }
{
    match item.as_object() {
        Some(members) => members.len(),
        None => 0,
    }
}

/// The outpoint that an object names, whose keys are `txid` and `vout`.
fn point(item: &Value) -> Option<OutPoint>
    ensures { result ≡ point_in (view item.now) }
{
    if keys_in(item) != 2 {
        return None;
    }
    let Some(txid) = txid_at(item.get("txid")) else {
        return None;
    };
    match index_at(item.get("vout")) {
        Some(index) => Some(OutPoint { txid, index }),
        None => None,
    }
}

fn txid_at(value: Option<&Value>) -> Option<Txid>
    ensures { result ≡ option_and_then txid_in (option_map (λ v. view v.now) value.entry) }
{
    match value {
        Some(value) => txid_in(value),
        None => None,
    }
}

fn index_at(value: Option<&Value>) -> Option<u32>
    ensures { result ≡ option_and_then index_in (option_map (λ v. view v.now) value.entry) }
{
    match value {
        Some(value) => index_in(value),
        None => None,
    }
}

fn txid_in(value: &Value) -> Option<Txid>
    ensures { result ≡ txid_in (view value.now) }
{
    match value.as_str() {
        Some(text) => Txid::read(text),
        None => None,
    }
}

/// The whole number from 0 to 2,147,483,647 that a value is.
fn index_in(value: &Value) -> Option<u32>
    ensures { result ≡ index_in (view value.now) }
{
    match value.as_u64() {
        Some(index) => if index < 1 << 31 {
            Some(index as u32)
        } else {
            None
        },
        None => None,
    }
}

/// The txid that a value prints, if another is `false`.
fn txid_unless_verbose(txid: &Value, verbose: &Value) -> Option<Txid>
    ensures { result ≡ txid_unless (view txid.now) (view verbose.now) }
{
    if verbose.as_bool() == Some(false) {
        txid_in(txid)
    } else {
        None
    }
}

/// The txid of `[txid]` or `[txid, false]`.
fn txid_first(params: &[Value]) -> Option<Txid>
    ensures { result ≡ txid_first (items_view params.now) }
{
    if params.len() == 1 {
        return txid_in(&params[0]);
    }
    if params.len() == 2 {
        return txid_unless_verbose(&params[0], &params[1]);
    }
    None
}

/// The txid of `[txid]`.
fn txid_alone(params: &[Value]) -> Option<Txid>
    ensures { result ≡ txid_alone (items_view params.now) }
{
    match text_alone(params) {
        Some(text) => Txid::read(text),
        None => None,
    }
}

/// The whole number from 0 to `most` that a value is.
fn number_in(value: &Value, most: u64) -> Option<u64>
    ensures { result ≡ number_in most (view value.now) }
{
    match value.as_u64() {
        Some(number) => if number <= most { Some(number) } else { None },
        None => None,
    }
}

/// The submissions of a list of texts, of which there are at least one and at most 25.
fn members_in(alloc: Global, value: &Value) -> Result<Option<Kept<Prepared>>, Memory>
    ensures { IfOk result (λ members. members ≡ members_in (view value.now)) }
{
    match value.as_array() {
        Some(items) => submissions(alloc, items.as_slice()),
        None => Ok(None),
    }
}

/// The call of `submitpackage` for a list of texts, with the greatest feerate and the greatest burnt value that it allows,
/// if both are such numbers.
fn package_of(
    alloc: Global,
    texts: &Value,
    max_rate: Option<u64>,
    max_burn: Option<u64>,
) -> Result<Option<Command>, Memory>
    ensures { IfOk result (λ command. command ≡ package_of max_rate max_burn (members_in (view texts.now))) }
{
    let Some(max_rate) = max_rate else {
        return Ok(None);
    };
    let Some(max_burn) = max_burn else {
        return Ok(None);
    };
    match members_in(alloc, texts)? {
        Some(members) => Ok(Some(Command::SubmitPackage(PackageCall {
            members,
            max_rate,
            max_burn,
        }))),
        None => Ok(None),
    }
}

/// The call of `submitpackage`: `[[text, ..]]`, behind it the greatest feerate, and behind that the greatest burnt
/// value.
fn submitted_package(alloc: Global, params: &[Value]) -> Result<Option<Command>, Memory>
    ensures { IfOk result (λ command. command ≡ package_in (items_view params.now)) }
{
    if params.len() == 1 {
        return package_of(alloc, &params[0], Some(USUAL_MAX_RATE), Some(0));
    }
    if params.len() == 2 {
        let max_rate = number_in(&params[1], GREATEST_MAX_RATE);
        return package_of(alloc, &params[0], max_rate, Some(0));
    }
    if params.len() == 3 {
        let max_rate = number_in(&params[1], GREATEST_MAX_RATE);
        let max_burn = number_in(&params[2], MAX_MONEY);
        return package_of(alloc, &params[0], max_rate, max_burn);
    }
    Ok(None)
}
