//! What the written order of rules says.
ghost use Rattle.std.specs.Prelude.{List};
ghost use Rattle.gate_bytes.specs.Order.{Rule, first_failing, IsFirstOf};
ghost use Rattle.gate_rules.specs.declared.Denial.{Denial};

/// Whatever the rules: a denial is that of a rule that fails, with none failing before it; and
/// without a denial no rule fails.
pub fn the_order()
    ensures { (rules : List (Rule Denial)) → IsFirstOf rules (first_failing rules) }
{}
