//! How far an audit has come.
ghost use Rattle.std.specs.Prelude.{◌≡◌, ◌+◌, ◌<◌, ◌≤◌, ◌↔◌, IsTrue};
ghost use Rattle.gate_lines.specs.Lines.{count_limit};
ghost use Rattle.gate_journal.specs.Legal.{entry_limit};

use gate_journal::MAX_ENTRIES;

/// How many entries were audited: of all rounds, and of the one that is being read.
#[derive(Clone, Copy)]
pub(crate) struct EntryCounts {
    pub(crate) all: u64,
    pub(crate) in_round: u64,
    ghost few: { all ≤ count_limit },
    ghost bounded: { in_round ≤ entry_limit },
}

impl EntryCounts {
    pub(crate) fn new() -> EntryCounts
        ensures all { result.all ≡ 0 }
        ensures in_round { result.in_round ≡ 0 }
    {
        EntryCounts {
            all: 0,
            in_round: 0,
        }
    }

    /// The counts after one more entry.
    pub(crate) fn with_entry(self) -> EntryCounts
        requires few { self.all < count_limit }
        requires bounded { self.in_round < entry_limit }
        ensures all { result.all ≡ self.all + 1 }
        ensures in_round { result.in_round ≡ self.in_round + 1 }
    {
        EntryCounts {
            all: self.all + 1,
            in_round: self.in_round + 1,
        }
    }

    /// The counts when a round begins behind these entries.
    pub(crate) fn with_base(self) -> EntryCounts
        ensures all { result.all ≡ self.all }
        ensures in_round { result.in_round ≡ 0 }
    {
        EntryCounts {
            all: self.all,
            in_round: 0,
        }
    }

    /// Whether the round has 100,000 entries, the most that it may have.
    pub(crate) fn is_full(self) -> bool
        ensures { IsTrue result ↔ (self.in_round ≡ entry_limit) }
    {
        self.in_round >= MAX_ENTRIES as u64
    }
}
