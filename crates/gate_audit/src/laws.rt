//! What the answers of audits say, as functions that do nothing.
ghost use Rattle.gate_audit.specs.Laws.{AuditsAreExact, LegalJournalsAreRuns, RoundsHaveLegalJournals, RunsHaveLegalJournals};

/// Any lines have one answer, and no two: they are a journal, or an entry is wrong before any line past a limit, or a line
/// past a limit comes first.
pub fn audits_are_exact()
    ensures { AuditsAreExact }
{}

/// A journal that an audit finds legal says the replies of the run over the events that it spells.
pub fn legal_journals_are_runs()
    ensures { LegalJournalsAreRuns }
{}

/// The journal that a run makes is legal, if it is within the limits.
pub fn runs_have_legal_journals()
    ensures { RunsHaveLegalJournals }
{}

/// Rounds that are legal have a legal journal, whose bases say the number of entries before them, if it is within the
/// limits.
pub fn rounds_have_legal_journals()
    ensures { RoundsHaveLegalJournals }
{}
