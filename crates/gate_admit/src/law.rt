//! Laws of admission, stated apart from its rules.
ghost use Rattle.gate_admit.specs.Defaults.{DefaultsChangeNothing};
ghost use Rattle.gate_admit.specs.Laws.{DecisionsFollow, FloorsNeverFall, GrantsAreSound, GrantsStand, PoolsStayGood, ReadmissionsAskOfAll, ReplacementsPay, SiblingsPay, TrucIsKept};

/// Each decision follows the written order: a grant says that no rule fails, and a denial names a rule that fails with
/// none failing before it.
pub fn decisions_follow_the_order()
    ensures { DecisionsFollow }
{}

/// Each granted transaction spends live coins: one for each input, no two alike, mature, with their timelocks met, and
/// spent by no entry that stays. Their sum is that of the outputs and the fee, and at a first attempt the fee pays for
/// the virtual size at the minimum relay feerate and at the pool's floor.
pub fn grants_are_sound()
    ensures { GrantsAreSound }
{}

/// What BIP 125 is for: a granted transaction that conflicts with entries, or evicts its sibling, pays at least the fees of
/// all that it replaces, and above these for its own relay; its feerate is above that of each entry that it conflicts with,
/// and of the sibling; and no entry that stays spends an output of one that leaves.
pub fn replacements_pay()
    ensures { ReplacementsPay }
{}

/// A granted transaction that evicts its sibling replaces it, and pays at least the fees of all that it replaces, and above
/// these for its own relay.
pub fn siblings_pay()
    ensures { SiblingsPay }
{}

/// A transaction whose submission is granted is in the pool after it, and no entry has stayed longer than it may; one that
/// passes every rule and is denied all the same (A46) is not in the pool.
pub fn grants_stand()
    ensures { GrantsStand }
{}

/// In a pool whose families are within the limits, asking whether the ancestors and descendants of a transaction that
/// comes back stay within them is asking whether every entry does.
pub fn readmissions_ask_of_all()
    ensures { ReadmissionsAskOfAll }
{}

/// No submission lowers the pool's floor.
pub fn floors_never_fall()
    ensures { FloorsNeverFall }
{}

/// A pool without entries is good, and a good pool stays good when a transaction is submitted that no connected block
/// has: no two entries share an id, no outpoint is spent twice, each input has a coin, no entry has the txid of a coin
/// that the chain was opened with, or of a connected block's transaction, or more than 100,000 virtual bytes, each
/// entry's ancestors and descendants are within the limits, and all entries together are within the budget.
pub fn pools_stay_good()
    ensures { PoolsStayGood }
{}

/// Families of version 3 (TRUC, BIP 431) stay small by expiry and by trim, and, where version 3 is standard, when a
/// transaction is submitted to a good pool that no connected block has: each entry of version 3 has at most two ancestors
/// and two descendants with itself, all of version 3, and at most 10,000 virtual bytes, and 1,000 if it has a parent; no
/// other entry has an ancestor of version 3.
pub fn truc_is_kept()
    ensures { TrucIsKept }
{}

/// With the settings of an operator who says none, each definition that reads a setting is what it is with Bitcoin Core
/// 22.0's number in its place.
pub fn default_settings_change_nothing()
    ensures { DefaultsChangeNothing }
{}
