//! Laws of legal journals, as functions that do nothing.
ghost use Rattle.gate_journal.specs.Laws.{LegalJournalsBeginLegal, LegalJournalsGoOn, RoundsAreOneJournal};

/// Each beginning of a legal journal is legal.
pub fn legal_journals_begin_legal()
    ensures { LegalJournalsBeginLegal }
{}

/// A journal is legal exactly if its first part is, and the rest is legal from the state that the first part leads to.
/// The journal leads to the state that its parts lead to, one after the other.
pub fn legal_journals_go_on()
    ensures { LegalJournalsGoOn }
{}

/// Rounds, each of which begins at the state that the round before it leaves, are legal exactly if their entries,
/// joined to one list, are; both lead to the same state.
pub fn rounds_are_one_journal()
    ensures { RoundsAreOneJournal }
{}
