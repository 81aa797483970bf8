//! What the table of releases keeps, stated without the code.
ghost use Rattle.gate_release.specs.Laws.{ChoicesAreAllowed, ReleasesAreNamed};

/// A word names a release exactly if it is the release's word, so no two releases have one word.
pub fn releases_are_named()
    ensures { ReleasesAreNamed }
{}

/// An operator may set each number that a release has.
pub fn choices_are_allowed()
    ensures { ChoicesAreAllowed }
{}
