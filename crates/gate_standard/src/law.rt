//! What the rules mean, stated without them.
ghost use Rattle.gate_standard.specs.Laws.{ValuesAreInRange, OutpointsAreSpentOnce, RatesAreRoundedDown};

/// That the rules on the outputs' values are met exactly if no value is negative and their sum is at
/// most 21 million bitcoin.
pub fn values_are_in_range()
    ensures { ValuesAreInRange }
{}

/// That the rule on repeated inputs is met exactly if no two inputs spend the same outpoint.
pub fn outpoints_are_spent_once()
    ensures { OutpointsAreSpentOnce }
{}

/// That a feerate is rounded down.
pub fn rates_are_rounded_down()
    ensures { RatesAreRoundedDown }
{}
