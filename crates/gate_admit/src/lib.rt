//! Admission: the written order over a chain and a pool, and the entry of what it grants.
//!
//! The main clauses are that of `judge`, which gives the decision by the first rule that fails, and that of `submit`,
//! which gives the decision with A46, and the pool and the floor after it: a submission is planned, which takes all
//! memory, and then committed, which takes none. What they judge over is one record, a `Standing`.
#![tactic(auto)]

mod again;
mod attempt;
mod coins;
mod confirmed;
mod conflicts;
mod grant;
mod joining;
mod judging;
mod law;
mod limits;
mod locking;
mod paying;
mod policy;
mod readmission;
mod reporting;
mod standing;
mod submission;
mod sweeping;
mod truc;
mod verdicts;
mod verifying;

pub use attempt::Attempt;
pub use coins::{LentCoin, is_chain_coin, view_coin};
pub use confirmed::Confirmed;
pub use conflicts::check_pool;
pub use gate_chain::{Chain, OpenFault, OpeningCoin};
pub use gate_inputs::{InputReport, Piece, report};
pub use gate_pool::{Entry, Pool};
pub use gate_submission::{Prepared, Verdict, VerdictRow};
pub use gate_trim::Floor;
pub use grant::Grant;
pub use judging::judge;
pub use law::{
    decisions_follow_the_order, default_settings_change_nothing, floors_never_fall,
    grants_are_sound, grants_stand, pools_stay_good, readmissions_ask_of_all, replacements_pay,
    siblings_pay, truc_is_kept,
};
pub use limits::{FamilyLimits, is_within, usual_limits};
pub use locking::{check_final, check_locks, tip_median};
pub use paying::{
    check_balance, check_coins_paid, check_payment, is_immature, outputs_value, vsize_of,
};
pub use policy::{CARVE_OUT_VSIZE, Policy};
pub use readmission::readmit;
pub use reporting::{
    check_reports, has_relayed_witness, is_relayed, legacy_sigops, reported, sigop_cost,
};
pub use standing::Conditions;
pub use submission::{PlannedEntry, commit_submission, plan_submission, submit};
pub use sweeping::{check_sweep, leaves_dust_from};
pub use truc::{
    TRUC_CHILD_VSIZE, TRUC_VSIZE, breaks_truc, is_truc_violation, sibling, sibling_beside,
};
pub use verdicts::Verdicts;
pub use verifying::check_verdicts;
