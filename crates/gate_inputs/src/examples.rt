//! The definitions at values that are known from outside.
ghost use Rattle.std.specs.Prelude.{◌≡◌, ◌∷◌, [], true, false, replicate};
ghost use Rattle.gate_inputs.specs.Examples.{signed, to_script_hash, to_taproot, nested, leaf_spend};
ghost use Rattle.gate_inputs.specs.Reports.{is_standard_spend, is_witness_standard, sigop_cost_of};

/// A witness script under a script hash, with an item at the limit and one past it.
pub(crate) fn nested_spends()
    ensures standard { is_standard_spend (signed nested (replicate 80 1 ∷ (0xac ∷ []) ∷ [])) to_script_hash ≡ true }
    ensures limit { is_witness_standard (signed nested (replicate 80 1 ∷ (0xac ∷ []) ∷ [])) to_script_hash ≡ true }
    ensures past { is_witness_standard (signed nested (replicate 81 1 ∷ (0xac ∷ []) ∷ [])) to_script_hash ≡ false }
    ensures cost { sigop_cost_of (signed nested (replicate 80 1 ∷ (0xac ∷ []) ∷ [])) to_script_hash ≡ 1 }
{}

/// A Taproot output spent by its key, by a leaf of version 0xc0 and of another, and with an annex.
pub(crate) fn taproot_spends()
    ensures key { is_witness_standard (signed [] (replicate 64 1 ∷ [])) to_taproot ≡ true }
    ensures leaf { is_witness_standard (signed [] (leaf_spend 80 (0xc1 ∷ []))) to_taproot ≡ true }
    ensures past { is_witness_standard (signed [] (leaf_spend 81 (0xc1 ∷ []))) to_taproot ≡ false }
    ensures other { is_witness_standard (signed [] (leaf_spend 81 (0xc2 ∷ []))) to_taproot ≡ true }
    ensures annex { is_witness_standard (signed [] (replicate 64 1 ∷ (0x50 ∷ []) ∷ [])) to_taproot ≡ false }
    ensures control { is_witness_standard (signed [] (leaf_spend 80 [])) to_taproot ≡ false }
    ensures cost { sigop_cost_of (signed [] (leaf_spend 80 (0xc1 ∷ []))) to_taproot ≡ 0 }
{}
