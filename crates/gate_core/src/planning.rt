//! How a step is made: the plan of its reply and of what it changes, or the event of the chain that is followed.
use gate_admit::PlannedEntry;
use gate_bytes::Boxed;
use gate_message::{ChainEvent, Reply, Switch};
use gate_net::Permissions;

/// What a step changes.
#[derive(Drop)]
pub(crate) enum Change {
    Nothing,
    Enter { peer: u64, flags: Permissions },
    Close { peer: u64 },
    SetFilter { peer: u64, rate: u64 },
    SetFloor { rate: u64 },
    Turn { switch: Switch, on: bool },
    Admit { coming: Boxed<PlannedEntry> },
}

/// What an event changes, and the reply to it; a denial takes the reply's place if the newcomer does not stay in the
/// pool.
#[derive(Drop)]
pub(crate) struct Plan {
    pub(crate) reply: Reply,
    pub(crate) change: Change,
}

/// How the step of an event is made.
#[derive(Drop)]
pub(crate) enum Step<'a> {
    /// By a plan and its commit.
    Planned(Plan),
    /// As the chain's caller asks, without a plan.
    Chain(&'a ChainEvent),
}

impl Plan {
    ghost use Rattle.std.specs.Prelude.{◌≡◌};

    /// A plan with this reply that changes nothing.
    pub(crate) fn telling(reply: Reply) -> Plan
        ensures reply { result.reply ≡ reply }
        ensures change { result.change ≡ Change.Nothing }
    {
        Plan {
            reply,
            change: Change::Nothing,
        }
    }
}
