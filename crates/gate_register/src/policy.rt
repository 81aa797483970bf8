//! What an operator asks.
ghost use Rattle.std.specs.Prelude.{◌≡◌, ◌≤◌};
ghost use Rattle.gate_register.specs.Policies.{IsPolicy, is_on, limit_of, number_of, policy_with};
ghost use Rattle.gate_register.specs.Settings.{greatest_of, least_of};

use crate::setting::{COUNT, Setting};
use std::marker::Model;

/// What an operator asks: a number for each setting, within the bounds of its row or its usual one. Contracts see the numbers in the order
/// of the settings.
#[derive(Clone, Copy, PartialEq, Eq)]
pub struct Policy {
    numbers: [u64; COUNT],
}

impl Model for Policy {
    ghost use Rattle.std.specs.Prelude.{List, ℕ};
    ghost use Rattle.gate_register.specs.Policies.{IsPolicy};

    ghost Value = { List ℕ };

    ghost view = { λ p. p.numbers };

    ghost inverse = { λ numbers. record { numbers = numbers } };

    ghost invariant = { λ p. IsPolicy p.numbers };
}

impl Policy {
    /// The number of a setting.
    pub fn get(&self, setting: Setting) -> u64
        ensures number { result ≡ number_of self.now setting }
        ensures least { least_of setting ≤ result }
        ensures greatest { result ≤ greatest_of setting }
    {
        self.numbers[setting.place()]
    }

    /// Recalls the bounds of the numbers for a proof: it does nothing.
    pub fn recall_bounds(&self)
        ensures { IsPolicy self.now }
    {
        let _numbers = self.numbers;
    }

    /// Whether a switch is on.
    pub fn is_on(&self, setting: Setting) -> bool
        ensures { result ≡ is_on self.now setting }
    {
        self.get(setting) == 1
    }

    /// The number of a setting as a limit; None if it has none, as no line says one and its usual number is past `most`.
    pub fn limit(&self, setting: Setting) -> Option<u64>
        ensures { result ≡ limit_of self.now setting }
    {
        let number = self.get(setting);
        (number <= setting.row().most).then_some(number)
    }

    /// The policy with this number set; None if an operator may not set it.
    pub fn with(self, setting: Setting, number: u64) -> Option<Policy>
        ensures { result ≡ policy_with self setting number }
    {
        if !setting.allows(number) {
            return None;
        }
        let mut numbers = self.numbers;
        numbers[setting.place()] = number;
        Some(Policy { numbers })
    }
}

/// What Bitcoin Core 22.0 asks by default, and every usual number of the table.
impl Default for Policy {
    ghost use Rattle.std.specs.Prelude.{◌≡◌};
    ghost use Rattle.gate_register.specs.Policies.{usual_policy};

    ghost is_default = { λ policy. policy ≡ usual_policy };

    fn default() -> Policy {
        let mut numbers = [0; COUNT];
        for place in 0..COUNT {
            numbers[place] = Setting::all()[place].row().usual;
        }
        Policy { numbers }
    }
}
