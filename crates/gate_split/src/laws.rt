//! A law above the definitions.
ghost use Rattle.gate_split.specs.PartedLines.{LanesHaveTheLines};

/// The lines of each lane of a text are the lines of the text between two that divide lanes or rounds.
pub fn lanes_have_the_lines()
    ensures { LanesHaveTheLines }
{}
