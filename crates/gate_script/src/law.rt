ghost use Rattle.gate_script.specs.Laws.{SpellingsAreRead, ScriptsAreSpelled, FramesArePatterns};
ghost use Rattle.gate_script.specs.Patterns.{AnchorsArePatterns, ProgramsArePatterns, KeysArePatterns, MultisigsArePatterns};

/// That instructions spelled one after another are read as they are, and that a script whose last
/// push isn't cut is what its instructions spell.
pub fn spellings_are_read()
    ensures read { SpellingsAreRead }
    ensures spelled { ScriptsAreSpelled }
{}

/// That the test of a template's fixed bytes and length is met exactly by the scripts that have
/// those bytes in front and at the end, and the right number of bytes between.
pub fn frames_are_patterns()
    ensures { FramesArePatterns }
{}

/// That a script is a witness program, an anchor, pays a key or is a multisig exactly if it has the pattern:
/// a version and one push, version 1 and the push of 4e73, a key and OP_CHECKSIG, or OP_m, keys, OP_n and
/// OP_CHECKMULTISIG.
pub fn templates_are_patterns()
    ensures programs { ProgramsArePatterns }
    ensures anchors { AnchorsArePatterns }
    ensures keys { KeysArePatterns }
    ensures multisigs { MultisigsArePatterns }
{}
