//! Laws above the definitions.
ghost use Rattle.gate_core.specs.Access.{AccessFollowsTheOrder};
ghost use Rattle.gate_core.specs.AccessLaws.{ClosedSessionsChangeNothing, FlagsGuard, InvalidIsKept, ListsBar, NobanIsKept, OnlySendersChange, QuestionsChangeNothing};
ghost use Rattle.gate_core.specs.ChainLaws.{ForgettingChangesNoAnswer, LearningLeavesTheRest, OthersLeaveTheChain};
ghost use Rattle.gate_core.specs.Runs.{AdmissionsLeaveNothingStale, CallsLeaveNothingStale, OnlyOperatorsLowerTheFloor, RunsEndGood, RunsKeepFamilies, RunsKeepTheBudget, RunsKeepThePoolSound, StepsGiveTheRun};
ghost use Rattle.gate_core.specs.SessionLaws.{ClosedStaysClosed, DenialsLeaveThePool, GreatRatesChangeNothing, PeersAreSeparate};

/// The denial of an event names a rule on its caller that fails, with none failing before it in the written order, and an
/// event without a denial fails none.
pub fn access_follows_the_order()
    ensures { AccessFollowsTheOrder }
{}

/// If a rule on peers asks for a flag, a peer without it is denied what the rule guards, and the pool stays as it is.
pub fn flags_guard()
    ensures { FlagsGuard }
{}

/// Only one denial closes the session of a peer with noban: that of a transaction that comes while the node takes
/// blocks only.
pub fn noban_is_kept()
    ensures { NobanIsKept }
{}

/// Where the policy keeps sessions, no rule of admission closes one (`keepinvalid`); by default what follows from a denial is
/// what the table of rules says.
pub fn invalid_is_kept()
    ensures { InvalidIsKept }
{}

/// No event of a peer whose session is closed changes anything.
pub fn closed_sessions_change_nothing()
    ensures { ClosedSessionsChangeNothing }
{}

/// A call of a method that the user's list lacks is not allowed and changes nothing, and no call of a user who may neither
/// send transactions nor submit packages changes anything, whatever the calls say.
pub fn lists_bar()
    ensures barred { ListsBar }
    ensures senders { OnlySendersChange }
{}

/// No call but `sendrawtransaction` and `submitpackage` changes anything: `testmempoolaccept` doesn't.
pub fn questions_change_nothing()
    ensures { QuestionsChangeNothing }
{}

/// From a good state, steps over events that are apart give the replies and the state of the run, and that state is
/// good.
pub fn steps_give_the_run()
    ensures { StepsGiveTheRun }
{}

/// From a good state, a run whose transactions are told apart by their ids ends in a good state, whatever was answered.
/// That the transactions of an event have a text is shown by `Event::recall_spelled`.
pub fn runs_end_good()
    ensures { RunsEndGood }
{}

/// A closed session is the same after any events, and each event of its peer among them is denied by P2, an entering by
/// P3.
pub fn closed_stays_closed()
    ensures { ClosedStaysClosed }
{}

/// A fee filter above all money there can be changes nothing.
pub fn great_rates_change_nothing()
    ensures { GreatRatesChangeNothing }
{}

/// No event of a peer changes another peer's session, its fee filter included, or opens one.
pub fn peers_are_separate()
    ensures { PeersAreSeparate }
{}

/// Events of other callers than the chain's leave the chain and the verdicts as they were, and what that caller says is
/// learnt or forgotten leaves everything else.
pub fn the_chain_is_of_its_caller()
    ensures others { OthersLeaveTheChain }
    ensures rest { LearningLeavesTheRest }
{}

/// A submission has one answer before and after blocks, coins and verdicts are forgotten, if the coins of its inputs and
/// the verdicts on them are the same, an opening coin came from its transaction in both states or in neither, and its own
/// outputs are unspent coins in both or in neither.
pub fn forgetting_changes_no_answer()
    ensures { ForgettingChangesNoAnswer }
{}

/// Events that are denied, by other rules than A46, leave the chain, the pool and its floor as they were.
pub fn denials_leave_the_pool()
    ensures { DenialsLeaveThePool }
{}

/// After any events, from any opening, no outpoint is spent twice in the pool. Every listing among the replies has, in
/// order of admission, exactly the txids of the entries at that point that the fee filter of the peer that asked
/// doesn't hide; every answer to `getrawmempool` has those of the whole pool, and every answer to `getrawmempool true`
/// an entry for each of them.
pub fn runs_keep_the_pool_sound()
    ensures { RunsKeepThePoolSound }
{}

/// After any events whose transactions are told apart by their ids, from any opening whose policy is within its bounds, as
/// `State::open` ensures of each that it opens: each input of each entry has a coin, and each entry has at most as many
/// ancestors as the opening's policy says, or 2 if it says 1, and as many virtual bytes of them, and at most one descendant
/// more than it says, and 10,000 virtual bytes more, itself among each.
pub fn runs_keep_families()
    ensures { RunsKeepFamilies }
{}

/// After any events, from any opening, the entries of the pool together are within the opening's budget.
pub fn runs_keep_the_budget()
    ensures { RunsKeepTheBudget }
{}

/// Over any events of other callers than the operator, the floor does not fall.
pub fn only_operators_lower_the_floor()
    ensures { OnlyOperatorsLowerTheFloor }
{}

/// After a submission that is admitted, and after a transaction that a user sends, no entry of the pool came longer ago
/// than the policy lets it stay.
pub fn admissions_leave_nothing_stale()
    ensures peers { AdmissionsLeaveNothingStale }
    ensures users { CallsLeaveNothingStale }
{}
