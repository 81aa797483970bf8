//! `gate rules` and `gate explain`: what is printed of the rules.
ghost use Rattle.std.specs.Prelude.{◌≡◌, ◌≢◌, [], true, IfErr, IfOk, OnOk};
ghost use Rattle.gate_rules.specs.Keys.{table_keys};
ghost use Rattle.gate_report.specs.Explaining.{RulesPrinted, RulesStopped, TheseRulesPrinted, TheseRulesStopped, found_keys, found_status};

use gate_lines::{LaneFault, Sink};
use gate_rules::{Rule, rules, rules_named, rules_text};
use std::alloc::Global;

/// The status after a search that found these rules: 1 if there are none, and 0 otherwise.
fn found_status(rules: &[Rule]) -> u8
    ensures { result ≡ found_status rules.now }
{
    match rules {
        [] => 1,
        _ => 0,
    }
}

/// Writes rules, a line each, in one write, and gives the status that follows them.
fn print_rules<W: Sink>(alloc: Global, writer: &mut W, rules: &[Rule]) -> Result<u8, LaneFault>
    ensures done { IfOk result (λ status. TheseRulesPrinted rules.now (W.contents writer.old) (W.contents writer.new) status) }
    ensures sent { OnOk result (W.held writer.new ≡ []) }
    ensures stopped { IfErr result (λ fault. TheseRulesStopped rules.now (W.contents writer.old) (W.contents writer.new) fault) }
    ensures steady { W.steady ≡ true → IfErr result (λ fault. fault ≢ LaneFault.Write) }
{
    let text = rules_text(alloc, rules)?;
    writer.write_text(text.as_bytes())?;
    writer.send()?;
    Ok(found_status(rules))
}

/// Prints every rule and word, a line each.
pub fn run_rules<W: Sink>(alloc: Global, writer: &mut W) -> Result<u8, LaneFault>
    ensures done { IfOk result (λ status. RulesPrinted table_keys (W.contents writer.old) (W.contents writer.new) status) }
    ensures sent { OnOk result (W.held writer.new ≡ []) }
    ensures stopped { IfErr result (λ fault. RulesStopped table_keys (W.contents writer.old) (W.contents writer.new) fault) }
    ensures steady { W.steady ≡ true → IfErr result (λ fault. fault ≢ LaneFault.Write) }
{
    let rules = rules(alloc)?;
    print_rules(alloc, writer, rules.as_slice())
}

/// Prints the rules and words whose name or token is this word, a line each; the status is 1 if there are none.
pub fn run_explain<W: Sink>(alloc: Global, word: &str, writer: &mut W) -> Result<u8, LaneFault>
    ensures done { IfOk result (λ status. RulesPrinted (found_keys word.now) (W.contents writer.old) (W.contents writer.new) status) }
    ensures sent { OnOk result (W.held writer.new ≡ []) }
    ensures stopped { IfErr result (λ fault. RulesStopped (found_keys word.now) (W.contents writer.old) (W.contents writer.new) fault) }
    ensures steady { W.steady ≡ true → IfErr result (λ fault. fault ≢ LaneFault.Write) }
{
    let rules = rules_named(alloc, word)?;
    print_rules(alloc, writer, rules.as_slice())
}
