//! Laws of chain events, stated apart from their steps.
ghost use Rattle.gate_reorg.specs.Goodness.{BlocksComeBack, BlocksKeepTruc, BlocksOnlyTake, EntriesAreUnconfirmed, EventsBringNothingElse, EventsKeepPoolsGood, EventsKeepTheBudget, EventsSpendCoins, EventsSpendOnce, FloorsNeverFall, ReturnsLeaveTheRipe};

/// An event that no rule denies keeps a settled chain settled and a good pool good, if transactions are told apart by
/// their ids.
pub fn events_keep_pools_good()
    ensures { EventsKeepPoolsGood }
{}

/// After an event that no rule denies, each outpoint that a connected block spends has a coin that was made by then, and
/// no two blocks spend one outpoint, if it was so before.
pub fn events_spend_coins()
    ensures { EventsSpendCoins }
{}

/// After an event that no rule denies, no connected block has the transaction of an entry, if chain and pool were good
/// before and transactions are told apart by their ids.
pub fn entries_are_unconfirmed()
    ensures { EntriesAreUnconfirmed }
{}

/// After an event that disconnects blocks, the next block may have each entry: it is final there, its relative locks
/// are met, and it spends no coin of a coinbase that is less than 100 blocks below.
pub fn returns_leave_the_ripe()
    ensures { ReturnsLeaveTheRipe }
{}

/// If blocks are disconnected for others and then connected again in their place, the chain is as it was: the same
/// coins, times and blocks.
pub fn blocks_come_back()
    ensures { BlocksComeBack }
{}

/// No transaction comes from nowhere: each that the chain or an entry has after an event was there before, or is in one
/// of the new blocks.
pub fn events_bring_nothing_else()
    ensures { EventsBringNothingElse }
{}

/// No event lowers the pool's floor.
pub fn floors_never_fall()
    ensures { FloorsNeverFall }
{}

/// An event that disconnects no block leaves the floor as it was, and adds no entry.
pub fn blocks_only_take()
    ensures { BlocksOnlyTake }
{}

/// An event that disconnects no block leaves families of version 3 small (TRUC, BIP 431), if they were.
pub fn blocks_keep_truc()
    ensures { BlocksKeepTruc }
{}

/// Whatever the blocks are, no event makes two entries spend one outpoint, or one entry spend one twice.
pub fn events_spend_once()
    ensures { EventsSpendOnce }
{}

/// Whatever the blocks are, no event takes the entries past the budget.
pub fn events_keep_the_budget()
    ensures { EventsKeepTheBudget }
{}
