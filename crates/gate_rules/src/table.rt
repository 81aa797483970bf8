//! The table of all rules and words.
ghost use Rattle.std.specs.Prelude.{◌≡◌, ◌++◌, IfOk, OnOk, filter, map, string_bytes};
ghost use Rattle.gate_rules.specs.Keys.{call_keys, fault_keys, line_keys, opening_keys, table_keys, user_key, with_words};
ghost use Rattle.gate_rules.specs.Rules.{is_named, key_of, named_among};
ghost use Rattle.gate_rules.specs.Texts.{rules_text};

use crate::chain::ChainDenial;
use crate::denial::Denial;
use crate::package::PackageDenial;
use crate::peer::PeerDenial;
use crate::rule::{Consequence, Rule};
use crate::whitelist::NetDenial;
use gate_bytes::Memory;
use std::alloc::Global;

/// U1: what a user may not call.
static USER: Rule = Rule {
    name: "U1",
    token: "rpc-whitelist",
    then: Consequence::Nothing,
    core: Some("-rpcwhitelist"),
    says: "The user may not call this method",
};

/// L1 to L3: lines that are no events.
static LINES: [Rule; 3] = [
    Rule {
        name: "L1",
        token: "bad-line",
        then: Consequence::Nothing,
        core: None,
        says: "The line has none of the forms of an event",
    },
    Rule {
        name: "L2",
        token: "line-too-long",
        then: Consequence::EndsRun,
        core: None,
        says: "The line has more than 16,777,216 bytes",
    },
    Rule {
        name: "L3",
        token: "too-many-lines",
        then: Consequence::EndsRun,
        core: None,
        says: "There are more than 1,000,000 lines behind the opening",
    },
];

fn lines() -> &'static [Rule]
    ensures { map key_of result.now ≡ line_keys }
{
    &LINES
}

/// The words for an opening's faults, beside those of N1 to N3.
static OPENING: [Rule; 7] = [
    Rule {
        name: "opening",
        token: "bad-line",
        then: Consequence::EndsProgram,
        core: None,
        says: "A line has none of the forms of an opening, repeats a setting or a verdict, or passes the limits of lines",
    },
    Rule {
        name: "opening",
        token: "times-limit",
        then: Consequence::EndsProgram,
        core: None,
        says: "There are more than 1,000,000 block times, one after the first of its line does not fit 32 bits, or the tip is above 10,000,000",
    },
    Rule {
        name: "opening",
        token: "no-times",
        then: Consequence::EndsProgram,
        core: None,
        says: "There is no block time; a line `times COUNT FIRST STEP` gives some",
    },
    Rule {
        name: "opening",
        token: "coin-value",
        then: Consequence::EndsProgram,
        core: None,
        says: "The value of a coin is above 2,100,000,000,000,000 satoshi",
    },
    Rule {
        name: "opening",
        token: "coin-unspendable",
        then: Consequence::EndsProgram,
        core: None,
        says: "The script of a coin begins with 0x6a (OP_RETURN) or has more than 10,000 bytes",
    },
    Rule {
        name: "opening",
        token: "coin-above-tip",
        then: Consequence::EndsProgram,
        core: None,
        says: "The height of a coin is above the tip, which is the height of the first block time, less one and as many as there are times",
    },
    Rule {
        name: "opening",
        token: "coin-twice",
        then: Consequence::EndsProgram,
        core: None,
        says: "An earlier coin has the same outpoint",
    },
];

fn opening_words() -> &'static [Rule]
    ensures { map key_of result.now ≡ opening_keys }
{
    &OPENING
}

/// The words for events that were not called.
static FAULTS: [Rule; 5] = [
    Rule {
        name: "fault",
        token: "wrong-caller",
        then: Consequence::Nothing,
        core: None,
        says: "The event is of another caller than the first one of its lane; a line `---` begins a new lane",
    },
    Rule {
        name: "fault",
        token: "pass-full",
        then: Consequence::Nothing,
        core: None,
        says: "The lane has made 65,536 calls",
    },
    Rule {
        name: "fault",
        token: "audit-full",
        then: Consequence::Nothing,
        core: None,
        says: "The lanes together have made 100,000 calls",
    },
    Rule {
        name: "fault",
        token: "history-short",
        then: Consequence::Nothing,
        core: None,
        says: "The journal lacks the last call of the lane; no input leads to it",
    },
    Rule {
        name: "fault",
        token: "memory",
        then: Consequence::Nothing,
        core: None,
        says: "Memory ran out in the event",
    },
];

fn fault_words() -> &'static [Rule]
    ensures { map key_of result.now ≡ fault_keys }
{
    &FAULTS
}

/// The words of answers to a user's call that are no denials by a rule.
static CALLS: [Rule; 6] = [
    Rule {
        name: "call",
        token: "missing-inputs",
        then: Consequence::Nothing,
        core: Some("testmempoolaccept"),
        says: "The name that the answer to testmempoolaccept has for A25: an input spends what is no unspent output of the chain or the pool",
    },
    Rule {
        name: "call",
        token: "Parse error",
        then: Consequence::Nothing,
        core: Some("RPC_PARSE_ERROR (-32700)"),
        says: "The call is not valid JSON",
    },
    Rule {
        name: "call",
        token: "Invalid Request",
        then: Consequence::Nothing,
        core: Some("RPC_INVALID_REQUEST (-32600)"),
        says: "The call is no object with a method and a list of params",
    },
    Rule {
        name: "call",
        token: "Method not found",
        then: Consequence::Nothing,
        core: Some("RPC_METHOD_NOT_FOUND (-32601)"),
        says: "There is no method of this name",
    },
    Rule {
        name: "call",
        token: "Invalid params",
        then: Consequence::Nothing,
        core: Some("RPC_INVALID_PARAMS (-32602)"),
        says: "The method does not take these params",
    },
    Rule {
        name: "call",
        token: "Transaction not in mempool",
        then: Consequence::Nothing,
        core: Some("RPC_INVALID_ADDRESS_OR_KEY (-5)"),
        says: "No transaction in the pool has this txid",
    },
];

fn call_words() -> &'static [Rule]
    ensures { map key_of result.now ≡ call_keys }
{
    &CALLS
}

fn append(rules: &mut Vec<Rule>, more: &[Rule]) -> Result<(), Memory>
    ensures { OnOk result (map key_of rules.new.items ≡ map key_of rules.old.items ++ map key_of more.now) }
{
    Ok(rules.extend_from_slice(more)?)
}

/// Appends L1 to L3, and the words for openings, lanes and calls.
fn append_words(rules: &mut Vec<Rule>) -> Result<(), Memory>
    ensures { OnOk result (map key_of rules.new.items ≡ with_words (map key_of rules.old.items)) }
{
    append(rules, lines())?;
    append(rules, opening_words())?;
    append(rules, fault_words())?;
    append(rules, call_words())
}

/// All rules and words, in their order: those of admission, peers, packages, users, whitelists, chain events and lines, and
/// then the words for openings, lanes and calls.
pub fn rules(alloc: Global) -> Result<Vec<Rule>, Memory>
    ensures { IfOk result (λ rules. map key_of rules.items ≡ table_keys) }
{
    let mut rules = Vec::new(alloc);
    append(&mut rules, Denial::rows_alone())?;
    append(&mut rules, Denial::rows_behind())?;
    append(&mut rules, PeerDenial::rows())?;
    append(&mut rules, PackageDenial::rows())?;
    rules.push(*user_rule())?;
    append(&mut rules, NetDenial::rows())?;
    append(&mut rules, ChainDenial::rows())?;
    append_words(&mut rules)?;
    Ok(rules)
}

/// U1: what a user may not call.
pub fn user_rule() -> &'static Rule
    ensures { key_of result.now ≡ user_key }
{
    &USER
}

/// The rules among these that a word names, in their order.
fn named_among(alloc: Global, rules: &[Rule], word: &str) -> Result<Vec<Rule>, Memory>
    ensures { IfOk result (λ found. found.items ≡ named_among word.now rules.now) }
{
    Ok(
        rules
            .iter()
            .copied()
            .filter(|rule| rule.is_named(word))
            .collect(alloc)?,
    )
}

/// The rules and words whose name or token is this word, in either case, in their order.
pub fn rules_named(alloc: Global, word: &str) -> Result<Vec<Rule>, Memory>
    ensures { IfOk result (λ found. map key_of found.items ≡ filter (is_named word.now) table_keys) }
{
    let rules = rules(alloc)?;
    let found = named_among(alloc, rules.as_slice(), word)?;
    Ok(found)
}

/// The text of these rules, a line each.
pub fn rules_text(alloc: Global, rules: &[Rule]) -> Result<String, Memory>
    ensures { IfOk result (λ text. string_bytes text ≡ rules_text rules.now) }
{
    let mut text = String::new(alloc);
    for rule in rules {
        let line = rule.to_string(alloc)?;
        text.push_str(line.as_str())?;
        text.push('\n')?;
    }
    Ok(text)
}
