//! What the table and the policies keep, stated without the code.
ghost use Rattle.gate_register.specs.Laws.{NamesAreExact, OthersAreKept, SettingsStandInOrder};

/// Each setting stands at its place.
pub fn settings_stand_in_order()
    ensures { SettingsStandInOrder }
{}

/// A word names a setting exactly if it is the setting's word, so no two settings have one word.
pub fn names_are_exact()
    ensures { NamesAreExact }
{}

/// A policy with a number set has that number, within its bounds, and keeps those of all other settings.
pub fn others_are_kept()
    ensures { OthersAreKept }
{}
