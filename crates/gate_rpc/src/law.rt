//! Laws of the lists of methods, beside their definition.
ghost use Rattle.gate_rpc.specs.Laws.{ListsAreIntersections, ListsOnlyNarrow};

/// A user whose list lacks a method may not call it, whatever the default is and whatever entries come later.
pub fn lists_only_narrow()
    ensures { ListsOnlyNarrow }
{}

/// A user's list is the intersection of the user's entries that have a colon, and empty if the first of the user's
/// entries has none. There is no list exactly if the user has no entry (`-rpcwhitelist` of Bitcoin Core 22.0).
pub fn lists_are_intersections()
    ensures { ListsAreIntersections }
{}
