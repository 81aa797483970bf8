//! The definitions at values that are known from outside.
ghost use Rattle.std.specs.Prelude.{◌≡◌, ◌∷◌, [], None, Some};
ghost use Rattle.gate_rules.specs.declared.Denial.TheVariants as denials;
ghost use Rattle.gate_standard.specs.Amounts.{down, feerate, required_fee, up};
ghost use Rattle.gate_bytes.specs.Order.{first_failing};
ghost use Rattle.gate_standard.specs.Outputs.{dust_threshold_of};
ghost use Rattle.gate_standard.specs.Rules.{transaction_rules, standard_rules};
ghost use Rattle.gate_standard.specs.Standards.{usual_standards};
ghost use Rattle.gate_standard.specs.Examples.{spending, from_nothing, pays, makes, spends_twice, to_key_hash, to_script_hash, to_witness_key, to_witness_script};

/// Fees, feerates and dust thresholds.
#[tactic(auto, unfolding(crate::specs::Amounts::required_fee, crate::specs::Amounts::rounded_down, crate::specs::Amounts::rounded_up, crate::specs::Amounts::feerate, crate::specs::Outputs::dust_threshold_of))]
pub(crate) fn amounts()
    ensures fee { required_fee (down 3000) 98 ≡ 294 }
    ensures least { required_fee (down 1) 1 ≡ 1 }
    ensures free { required_fee (down 0) 5 ≡ 0 }
    ensures whole { required_fee (up 3000) 98 ≡ 294 }
    ensures part { required_fee (up 101) 110 ≡ 12 }
    ensures part_dropped { required_fee (down 101) 110 ≡ 11 }
    ensures free_up { required_fee (up 0) 5 ≡ 0 }
    ensures rate { feerate 1000 110 ≡ 9090 }
    ensures key_hash { dust_threshold_of (down 3000) (pays 0 to_key_hash) ≡ 546 }
    ensures script_hash { dust_threshold_of (down 3000) (pays 0 to_script_hash) ≡ 540 }
    ensures witness_key { dust_threshold_of (down 3000) (pays 0 to_witness_key) ≡ 294 }
    ensures witness_script { dust_threshold_of (down 3000) (pays 0 to_witness_script) ≡ 330 }
{}

/// What the rules decide on whole transactions.
#[tactic(auto, unfolding(crate::specs::Rules::transaction_rules, gate_tx::specs::Sizes::stripped_size_of))]
pub(crate) fn decisions()
    ensures spent_twice { first_failing (transaction_rules spends_twice) ≡ Some denials.InputsDuplicate }
    ensures coinbase { first_failing (transaction_rules (makes (from_nothing (81 ∷ 81 ∷ []) ∷ []) (pays 1000 to_witness_key ∷ []))) ≡ Some denials.Coinbase }
    ensures sound { first_failing (transaction_rules (makes (spending 17 ∷ []) (pays 294 to_witness_key ∷ []))) ≡ None }
    ensures dust { first_failing (standard_rules usual_standards (makes (spending 17 ∷ []) (pays 293 to_witness_key ∷ pays 1000 (81 ∷ []) ∷ []))) ≡ Some denials.Dust }
    ensures standard { first_failing (standard_rules usual_standards (makes (spending 17 ∷ []) (pays 294 to_witness_key ∷ []))) ≡ None }
{}
