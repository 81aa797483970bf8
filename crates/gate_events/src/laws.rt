//! Laws above the definitions.
ghost use Rattle.gate_events.specs.TextLaws.{TextsSpell, TextsAreLines};

/// Each event that a line spells is spelled by its text.
pub fn texts_spell()
    ensures { TextsSpell }
{}

/// The text of an event that a line within the limits spells is one line within the limits, and is not skipped.
pub fn texts_are_lines()
    ensures { TextsAreLines }
{}
